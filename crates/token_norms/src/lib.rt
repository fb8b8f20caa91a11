// Norm bytes from the written postings: a field's length in each document, coded. The lengths of a window of documents
// are counted in a local array, so that no buffer is lent for them; each leaf's cursor goes over its run once.
#![tactic(auto)]

ghost use Rattle.std.specs.Prelude.{◌≡◌, ℕ, ◌+◌, ◌-◌, ◌*◌, ◌<◌, ◌≤◌, ◌^◌, min, length, get_or};
ghost use Rattle.std.proofs.lemmas.List.Edits.{sets};
ghost use Rattle.meaning.specs.Below.{count_below, list_to};
ghost use Rattle.meaning.specs.Lent.{field_count, has_norms};
ghost use Rattle.meaning.specs.SmallFloat.{int_to_byte4};
ghost use Rattle.meaning.specs.Entries.{written};
ghost use Rattle.index.specs.Slices.{fields_only};
ghost use Rattle.token_norms.specs.Lengths.{frequency_in_run, length_in, before, norm_bytes, RunOk, RunsOk, cursors_at};

use index::fields;
use index::leaves::MAX_LEAVES;
use index::postings::{posting_document, posting_frequency};
use sim::small_float::int_to_byte4;

// The words of a leaf's run: first posting, number of postings.
pub const RUN_WORDS: usize = 2;

// So many documents are counted at a time.
const WINDOW: usize = 4096;

// Adds the frequencies of a run's postings to the counts of the documents from base on, from the cursor up to the
// window's end; the cursor behind them.
// Kept: no plainer as the run's own slice: `index` reads a posting by its run's first place,
// and `RunOk` and `before` say it so.
fn add_run(
    postings: &[u32],
    first: usize,
    number: usize,
    from: usize,
    base: usize,
    counts: &mut [u32],
) -> usize
    requires run_ok { RunOk postings.now first number × (from ≡ before postings.now first number base)
        × (base + length counts.old < 2 ^ 32) }
    requires by_index { (j : ℕ) → j < length counts.old
        → get_or counts.old j 0 + frequency_in_run postings.now first number (base + j) < 2 ^ 32 }
    ensures value { result ≡ before postings.now first number (base + length counts.old) }
    ensures counts_after { counts.new ≡ list_to (length counts.old)
        (λ j. get_or counts.old j 0 + frequency_in_run postings.now first number (base + j)) }
{
    for i in from..number {
        let document = posting_document(postings, first, i) as usize;
        if document - base >= counts.len() {
            return i;
        }
        counts[document - base] += posting_frequency(postings, first, i);
    }
    number
}

// Codes lengths as norm bytes (SmallFloat).
fn code_lengths(lengths: &[u32], norms: &mut [u8])
    requires same_length { length norms.old ≡ length lengths.now }
    requires by_index { (j : ℕ) → j < length lengths.now → get_or lengths.now j 0 ≤ 2147483647 }
    ensures { norms.new ≡ list_to (length norms.old) (λ j. int_to_byte4 (get_or lengths.now j 0)) }
{
    // Kept: tried `lengths` zipped with `iter_mut`: an invariant cannot speak of the bytes that `iter_mut` lends
    // behind the zip, and the proof did not close.
    for (j, norm) in norms.iter_mut().enumerate() {
        *norm = int_to_byte4(lengths[j]);
    }
}

// A field, and the leaves' fields, postings and runs, in which those of the field are found.
// Kept: no plainer with `RunsOk` as a ghost field:
// each method's clause would stand all the same, for what it asks beside it.
#[derive(Clone, Copy)]
struct FieldRuns<'a> {
    field: u32,
    leaf_fields: &'a [u32],
    postings: &'a [u32],
    runs: &'a [u32],
}

impl FieldRuns<'_> {
    // Adds up the runs of the field's leaves over the window from base on.
    // Kept: no plainer as one list of records: a cursor is a leaf's, a count a document's of the window.
    // Kept: no plainer zipped: the zip would be of three (fields, runs by two, cursors), one of them lent for writing.
    fn add_leaves(self, base: usize, cursors: &mut [usize], counts: &mut [u32])
        requires runs_ok { RunsOk self.leaf_fields.now self.postings.now self.runs.now
            × (base + length counts.old < 2 ^ 32) }
        requires cursors_value { cursors.old ≡ list_to 512
            (cursors_at self.leaf_fields.now self.postings.now self.runs.now self.field base) }
        requires counts_value { counts.old ≡ list_to (length counts.old) (λ j. 0) }
        ensures cursors_after { cursors.new ≡ list_to 512
            (cursors_at self.entry.leaf_fields.now self.entry.postings.now self.entry.runs.now
            self.entry.field (base + length counts.old)) }
        ensures counts_after { counts.new ≡ list_to (length counts.old)
            (λ j. length_in self.entry.leaf_fields.now self.entry.postings.now self.entry.runs.now
            self.entry.field (base + j)) }
    {
        for (l, field) in self.leaf_fields.iter().enumerate() {
            if *field == self.field {
                cursors[l] = add_run(
                    self.postings,
                    self.runs[RUN_WORDS * l] as usize,
                    self.runs[RUN_WORDS * l + 1] as usize,
                    cursors[l],
                    base,
                    counts,
                );
            }
        }
    }

    // The norm bytes of the documents of one window, of which the last may reach beyond N.
    fn write_window(self, base: usize, cursors: &mut [usize], norms: &mut [u8])
        requires runs_ok { RunsOk self.leaf_fields.now self.postings.now self.runs.now
            × (base < length norms.old) × (length norms.old ≤ 1048576) }
        requires cursors_value { cursors.old ≡ list_to 512
            (cursors_at self.leaf_fields.now self.postings.now self.runs.now self.field base) }
        ensures cursors_after { cursors.new ≡ list_to 512
            (cursors_at self.entry.leaf_fields.now self.entry.postings.now self.entry.runs.now
            self.entry.field (base + 4096)) }
        ensures norms_after { norms.new ≡ sets norms.old base
            (list_to (min 4096 (length norms.old - base))
            (λ j. int_to_byte4 (length_in self.entry.leaf_fields.now self.entry.postings.now
            self.entry.runs.now self.entry.field (base + j)))) }
    {
        let mut counts = [0u32; WINDOW];
        self.add_leaves(base, cursors, &mut counts);
        let width = WINDOW.min(norms.len() - base);
        code_lengths(&counts[..width], &mut norms[base..base + width]);
    }

    // The norm bytes of the field, window by window.
    fn write_field(self, norms: &mut [u8])
        requires { RunsOk self.leaf_fields.now self.postings.now self.runs.now
            × (length norms.old ≤ 1048576) }
        ensures { norms.new ≡ list_to (length norms.old)
            (λ d. int_to_byte4 (length_in self.entry.leaf_fields.now self.entry.postings.now
            self.entry.runs.now self.entry.field d)) }
    {
        let mut cursors = [0usize; MAX_LEAVES];
        for window in 0..norms.len().div_ceil(WINDOW) {
            self.write_window(window * WINDOW, &mut cursors, norms);
        }
    }
}

// The norm bytes of all fields with norms, in field order.
pub fn write_norms(
    max_doc: u32,
    fields: &[u32],
    leaf_fields: &[u32],
    postings: &[u32],
    runs: &[u32],
    norms: &mut [u8],
)
    requires runs_ok { RunsOk leaf_fields.now postings.now runs.now × (max_doc ≤ 1048576)
        × (field_count (fields_only fields.now) ≤ 16) }
    requires max_doc_in_bounds { count_below (field_count (fields_only fields.now))
        (has_norms (fields_only fields.now)) * max_doc ≤ length norms.old }
    ensures { norms.new ≡ written (norm_bytes max_doc fields.now leaf_fields.now postings.now runs.now)
        norms.old }
{
    let mut at = 0;
    for f in 0..fields::field_count(fields) {
        if fields::field_at(fields, f).has_norms() {
            let end = at + max_doc as usize;
            let field_runs = FieldRuns {
                field: f as u32,
                leaf_fields,
                postings,
                runs,
            };
            field_runs.write_field(&mut norms[at..end]);
            at = end;
        }
    }
}
