// Refusal 5: the posting records of each leaf's run and their positions.
#![tactic(auto)]

ghost use Rattle.std.specs.Prelude.{◌≡◌, ◌+◌, ◌-◌, ◌<◌, ◌≤◌, false, eqb};
ghost use Rattle.meaning.specs.Below.{any_below};
ghost use Rattle.meaning.specs.Lent.{leaf_count, leaf_number};
ghost use Rattle.meaning.specs.IndexRefusals.{wrong4, wrong5, wrong_posting};
ghost use Rattle.index.specs.IndexOf.{index_of};
ghost use Rattle.index.specs.Runs.{run_length};
ghost use Rattle.check_postings.specs.Runs.{wrong_record};

use check_leaves::plain_leaves;
use check_positions::wrong_run_places;
use index::fields::{Field, field_at};
use index::leaves::{leaf_at, leaf_count};
use index::lent::Lent;
use index::postings::{LARGEST_FREQUENCY, NO_MORE_DOCS, POSTING_WORDS};

// The records of a run in one pass without a branch, by the high bits of ors: a document, or its distance above the
// document before, of 2^31 or more; a frequency less 1 of 2^24 or more; an index of 1 or more.
fn wrong_records(run: &[u32], max_doc: u32, field: Field) -> bool
    requires { max_doc ≤ 2147483648 }
    ensures { result ≡ any_below (run_length run.now) (wrong_record max_doc (eqb field.positions 1) run.now) }
{
    let (records, _) = run.as_chunks::<POSTING_WORDS>();
    let mut steps: u32 = 0;
    let mut frequencies: u32 = 0;
    let mut indexes: u32 = 0;
    let mut floor: u32 = 0;
    for [doc, frequency, index] in records {
        steps |= *doc | doc.wrapping_sub(floor);
        frequencies |= frequency.wrapping_sub(1);
        indexes |= *index;
        floor = doc.wrapping_add(1);
    }
    ((steps > NO_MORE_DOCS) | (floor > max_doc))
        | (frequencies >= LARGEST_FREQUENCY)
        | ((indexes > 0) & !field.has_positions())
}

// Leaf l's run: its records, and in a field with positions its positions; without, every index is 0.
fn wrong_run(lent: &Lent, l: usize) -> bool
    requires max_doc_bound { lent.now.max_doc ≤ 1048576 }
    requires leaves_right { wrong4 (index_of lent.now) ≡ false }
    requires l_in_bounds { l < leaf_count (index_of lent.now) }
    ensures { result ≡ any_below (leaf_number (index_of lent.now) l) (wrong_posting (index_of lent.now) l) }
{
    let leaf = leaf_at(lent.leaves, l);
    let field = field_at(lent.fields, leaf.field as usize);
    let from = POSTING_WORDS * leaf.first as usize;
    let to = from + POSTING_WORDS * leaf.number as usize;
    let run = &lent.postings[from..to];
    if wrong_records(run, lent.max_doc, field) {
        return true;
    }
    field.has_positions() && wrong_run_places(run, lent.positions)
}

// The runs of the leaves from l on, below `end`, one by one.
fn wrong_runs(lent: &Lent, l: usize, end: usize) -> bool
    requires max_doc_bound { lent.now.max_doc ≤ 1048576 }
    requires leaves_right { wrong4 (index_of lent.now) ≡ false }
    requires l_le_end { (l ≤ end) × (end ≤ leaf_count (index_of lent.now)) }
    ensures { result ≡ any_below (end - l) (λ i.
        any_below (leaf_number (index_of lent.now) (l + i)) (wrong_posting (index_of lent.now) (l + i))) }
{
    (l..end).any(|k| wrong_run(lent, k))
}

// 5, the posting words: not whole, or something wrong in a leaf's run.
// Leaves that are not plainly right are read one by one.
// Kept: no plainer: a struct of the `Lent` with the two facts of it would be made by `check_index` for this one call.
pub fn wrong_postings(lent: &Lent) -> bool
    requires max_doc_bound { lent.now.max_doc ≤ 1048576 }
    requires leaves_right { wrong4 (index_of lent.now) ≡ false }
    ensures { result ≡ wrong5 (index_of lent.now) }
{
    if lent.postings.len() % POSTING_WORDS != 0 {
        return true;
    }
    let count = leaf_count(lent.leaves);
    let mut bad = false;
    let mut l = 0;
    // Kept: no plainer: how far a turn comes is what `plain_leaves` answers, so no range has its steps.
    while l < count {
        match plain_leaves(lent, l, count) {
            Ok(end) => l = end,
            Err(end) => {
                bad |= wrong_runs(lent, l, end);
                l = end;
            }
        }
    }
    bad
}
