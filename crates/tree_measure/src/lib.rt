// The first pass over a query's records: of each tree the record after it, whether it has a scorer, and its cost.
#![tactic(auto)]

pub mod boolean_clauses;

ghost use Rattle.std.specs.Prelude.{◌≡◌, false, cond, ℕ, ◌+◌, ◌≤◌, ◌<◌, max, eqb, length};
ghost use Rattle.std.proofs.Math.Option.{some};
ghost use Rattle.meaning.specs.Lent.{Index, leaf_count, leaf_number};
ghost use Rattle.meaning.specs.Query.{record_count, record_kind, record_children, record_value, range_of, must, should, Decoded, decode};
ghost use Rattle.meaning.specs.Range.{range_documents};
ghost use Rattle.meaning.specs.CallRefusals.{ranges_needed};
ghost use Rattle.meaning.specs.Cost.{least};
ghost use Rattle.index.specs.IndexOf.{index_of};
ghost use Rattle.tree_weight.specs.Measured.{AcceptedOrder, RangesListed, RangesCounted, term_numbers};
ghost use Rattle.tree_weight.specs.ScorerTree.{range, leaf_matches};
ghost use Rattle.bits.specs.Bit.{bitmap_words, Bitmap};
ghost use Rattle.tree_measure.specs.Measures.{MeasuresHeld, AllMeasured, TreeMeasured, range_places, range_counts};
ghost use Rattle.tree_measure.specs.Tallied.{tallied, tallied_at, tally_present, tally_cost};

use boolean_clauses::Clauses;
use index::leaves::leaf_at;
use index::lent::Lent;
use query::{Kind, Occur, kind_at};

// Of a tree: the record after it, whether it has a scorer, and its cost.
// Kept: no Option of a cost: `measure_all` promises the cost of a tree without a scorer too, which a Boolean's sum may
// make more than 0.
#[derive(Clone, Copy)]
pub struct Measure {
    pub next: usize,
    pub present: bool,
    pub cost: u64,
}

// Of a Range record: where its bitmap begins in the range buffer, and how many documents it has.
#[derive(Clone, Copy)]
pub struct RangeList {
    pub place: u32,
    pub count: u32,
}

// Of a Boolean's clauses: some is required; one of those lacks a scorer; the least cost of those that have one;
// the Shoulds with a scorer, and their cost together.
// Kept: no plainer: an enum would hold `least` in two of its variants, as an Option where a required clause lacks a
// scorer, and each clause would be a match on all three.
#[derive(Clone, Copy)]
pub struct Tally {
    pub required: bool,
    pub missing: bool,
    pub least: Option<u64>,
    pub shoulds: u32,
    pub group: u64,
}

// How many postings a leaf has.
fn postings_of(lent: &Lent, leaf: u32) -> u64
    requires { leaf < leaf_count (index_of lent.now) }
    ensures { (result ≡ leaf_number (index_of lent.now) leaf) × (result < 4294967296) }
{
    u64::from(leaf_at(lent.leaves, leaf as usize).number)
}

// The fewest postings that a term of the phrase at `at` has.
// Kept: no plainer, here and below: a struct of `lent, query, at`, or of the query with a ghost field for `AcceptedOrder`, would
// be taken apart again for `value(query, at, i)` and `leaf_at(lent.leaves, l)`.
fn phrase_postings(lent: &Lent, query: &[u32], at: usize) -> u64
    requires terms_here { (at + 1 + record_children query.now at ≤ record_count query.now)
        × (1 ≤ record_children query.now at) }
    requires leaves_there { (j : ℕ) → j < record_children query.now at
        → record_value query.now (at + 1 + j) 0 < leaf_count (index_of lent.now) }
    ensures { (result ≡ least (term_numbers (index_of lent.now) query.now at (record_children query.now at)))
        × (result < 4294967296) }
{
    let terms = query::children(query, at) as usize;
    let mut fewest = postings_of(lent, query::value(query, at + 1, 0));
    for j in 1..terms {
        fewest = fewest.min(postings_of(lent, query::value(query, at + 1 + j, 0)));
    }
    fewest
}

// The tally with one clause more.
fn tally_should(t: Tally, m: Measure) -> Tally
    requires { (t.shoulds < 1000) × (t.group + m.cost < 18446744073709551616) }
    ensures { result ≡ tallied t should m.present m.cost }
{
    if !m.present {
        return t;
    }
    Tally {
        shoulds: t.shoulds + 1,
        group: t.group + m.cost,
        ..t
    }
}

fn tally_required(t: Tally, m: Measure) -> Tally
    ensures { result ≡ tallied t must m.present m.cost }
{
    if !m.present {
        return Tally {
            required: true,
            missing: true,
            ..t
        };
    }
    let least = match t.least {
        Some(least) => least.min(m.cost),
        None => m.cost,
    };
    Tally {
        required: true,
        least: Some(least),
        ..t
    }
}

// A number that is no occurrence's counts nothing.
fn tally_clause(t: Tally, occurrence: Option<Occur>, m: Measure) -> Tally
    requires { (t.shoulds < 1000) × (t.group + m.cost < 18446744073709551616) }
    ensures { result ≡ tallied_at t occurrence m.present m.cost }
{
    match occurrence {
        Some(Occur::Must | Occur::Filter) => tally_required(t, m),
        Some(Occur::Should) => tally_should(t, m),
        Some(Occur::MustNot) | None => t,
    }
}

// How many Shoulds must match: without Must and Filter at least one.
// Kept: no plainer: no switch: `required` is a fact of the clauses, a `Tally`'s field, and no choice of a step.
pub fn shoulds_needed(required: bool, msm: u32) -> u32
    ensures { result ≡ cond required msm (max 1 msm) }
{
    if required {
        return msm;
    }
    msm.max(1)
}

// A Boolean has no scorer where a Must or Filter has none, or where too few Shoulds have one.
fn boolean_present(t: Tally, msm: u32) -> bool
    ensures { result ≡ tally_present t msm }
{
    !t.missing && shoulds_needed(t.required, msm) <= t.shoulds
}

// A conjunction costs the least, with msm above 0 the Should group as one more; a disjunction the sum.
fn boolean_cost(t: Tally, msm: u32) -> u64
    ensures { result ≡ tally_cost t msm }
{
    if !t.required {
        return t.group;
    }
    match t.least {
        Some(least) if msm == 0 => least,
        Some(least) => least.min(t.group),
        None if msm == 0 => 0,
        None => t.group,
    }
}

// The measure of the Boolean at `at`, from those of its clauses.
fn measure_boolean(query: &[u32], measures: &[Measure], at: usize) -> Measure
    requires held { MeasuresHeld query.now measures.now at × (record_kind query.now at ≡ 3) }
    requires asks { (ix : Index) × AcceptedOrder ix query.now × AllMeasured ix query.now measures.now (at + 1) }
    ensures { (ix : Index) (k : ℕ) (D : Decoded) → AllMeasured ix query.now measures.now (at + 1)
        → decode query.now k at ≡ some D → TreeMeasured ix at D result }
{
    let msm = query::value(query, at, 0);
    let mut t = Tally {
        required: false,
        missing: false,
        least: None,
        shoulds: 0,
        group: 0,
    };
    let mut next = at + 1;
    for clause in Clauses::of(query, measures, at) {
        t = tally_clause(t, clause.occurrence, clause.measure);
        next = clause.measure.next;
    }
    Measure {
        next,
        present: boolean_present(t, msm),
        cost: boolean_cost(t, msm),
    }
}

// The measure of the phrase at `at`: it has a scorer where each of its terms has postings.
fn measure_phrase(lent: &Lent, query: &[u32], at: usize) -> Measure
    requires at_bound { (at < record_count query.now) × (record_kind query.now at ≡ 2) }
    requires asks { AcceptedOrder (index_of lent.now) query.now }
    ensures { (k : ℕ) (D : Decoded) → decode query.now k at ≡ some D
        → TreeMeasured (index_of lent.now) at D result }
{
    let fewest = phrase_postings(lent, query, at);
    Measure {
        next: at + 1 + query::children(query, at) as usize,
        present: 0 < fewest,
        cost: fewest,
    }
}

// The measure of the term at `at`.
fn measure_term(lent: &Lent, query: &[u32], at: usize) -> Measure
    requires at_bound { (at < record_count query.now) × (record_kind query.now at ≡ 1) }
    requires asks { AcceptedOrder (index_of lent.now) query.now }
    ensures { (k : ℕ) (D : Decoded) → decode query.now k at ≡ some D
        → TreeMeasured (index_of lent.now) at D result }
{
    let postings = postings_of(lent, query::value(query, at, 0));
    Measure {
        next: at + 1,
        present: 0 < postings,
        cost: postings,
    }
}

// The measure of a record that matches nothing.
fn nothing(next: usize) -> Measure
    ensures { result ≡ record { next = next; present = false; cost = 0 } }
{
    Measure {
        next,
        present: false,
        cost: 0,
    }
}

// The measure of the record at `at`, from those of the records after it; a phrase's term has no scorer of its own.
fn measure_record(
    lent: &Lent,
    query: &[u32],
    listed: &[RangeList],
    measures: &[Measure],
    at: usize,
) -> Measure
    requires held { MeasuresHeld query.now measures.now at × (record_count query.now ≤ length listed.now) }
    requires asks { AcceptedOrder (index_of lent.now) query.now }
    requires counted { RangesCounted (index_of lent.now) query.now (range_counts listed.now) }
    requires measured { AllMeasured (index_of lent.now) query.now measures.now (at + 1) }
    ensures { (k : ℕ) (D : Decoded) → decode query.now k at ≡ some D
        → TreeMeasured (index_of lent.now) at D result }
{
    let Some(kind) = kind_at(query, at) else {
        return nothing(at + 1);
    };
    match kind {
        Kind::Term => measure_term(lent, query, at),
        Kind::Phrase => measure_phrase(lent, query, at),
        Kind::Boolean => measure_boolean(query, measures, at),
        Kind::Range => Measure {
            next: at + 1,
            present: true,
            cost: listed[at].count as u64,
        },
        Kind::MatchAll => Measure {
            next: at + 1,
            present: true,
            cost: lent.max_doc as u64,
        },
        Kind::ConstantScore | Kind::Boost => measures[at + 1],
        Kind::MatchNone | Kind::PhraseTerm => nothing(at + 1),
    }
}

// The measures of all records, from the last one back: a tree's children stand after it.
pub fn measure_all(lent: &Lent, query: &[u32], listed: &[RangeList], measures: &mut [Measure])
    requires query_in_bounds { (record_count query.now ≤ length listed.now)
        × (record_count query.now ≤ length measures.old) }
    requires asks { AcceptedOrder (index_of lent.now) query.now }
    requires counted { RangesCounted (index_of lent.now) query.now (range_counts listed.now) }
    ensures measured { AllMeasured (index_of lent.now) query.now measures.new 0 }
    ensures measures_len_unchanged { length measures.new ≡ length measures.old }
{
    for at in (0..query::record_count(query)).rev() {
        measures[at] = measure_record(lent, query, listed, measures, at);
    }
}

// The words that the record at `at` takes in the range buffer: a Range has a bit for each document.
fn range_words(lent: &Lent, query: &[u32], at: usize) -> usize
    requires { at < record_count query.now }
    ensures { result ≡ cond (eqb (record_kind query.now at) 4) (bitmap_words lent.now.max_doc) 0 }
{
    if kind_at(query, at) == Some(Kind::Range) {
        bits::bitmap_words(lent.max_doc) as usize
    } else {
        0
    }
}

// The documents of the Range record at `at` as a bitmap at the front of the output, and how many there are; another
// record has none. The words beyond may hold anything.
fn list_range(lent: &Lent, query: &[u32], at: usize, output: &mut [u32]) -> u32
    requires at_bound { at < record_count query.now }
    requires room { record_kind query.now at ≡ 4 → bitmap_words lent.now.max_doc ≤ length output.old }
    requires asks { AcceptedOrder (index_of lent.now) query.now }
    ensures count { record_kind query.now at ≡ 4
        → result ≡ length (range_documents (index_of lent.now) (range_of query.now at)) }
    ensures bits { record_kind query.now at ≡ 4
        → Bitmap (leaf_matches (index_of lent.now) (range (range_of query.now at))) output.new 0
        (bitmap_words lent.now.max_doc) }
    ensures output_len_unchanged { length output.new ≡ length output.old }
{
    if kind_at(query, at) != Some(Kind::Range) {
        return 0;
    }
    let columns = doc_values::Columns {
        max_doc: lent.max_doc,
        columns: lent.columns,
        values: lent.values,
    };
    doc_values::range_bitmap(&columns, query::range_at(query, at), output)
}

// The documents of every Range record as bitmaps, one record's after the other's: where each begins, how many documents
// it has.
pub fn list_ranges(lent: &Lent, query: &[u32], listed: &mut [RangeList], ranges: &mut [u32])
    requires query_in_bounds { record_count query.now ≤ length listed.old }
    requires asks { AcceptedOrder (index_of lent.now) query.now }
    requires room { ranges_needed (index_of lent.now) query.now ≤ length ranges.old }
    ensures ranges_listed { RangesListed (index_of lent.now) query.now (range_places listed.new) (range_counts listed.new)
        ranges.new (record_count query.now) }
    ensures listed_len_unchanged { (length listed.new ≡ length listed.old)
        × (length ranges.new ≡ length ranges.old) }
{
    let mut used = 0;
    // Kept: no plainer with `enumerate` over the first of `listed`: `at` would still be needed for the record that is
    // read.
    for at in 0..query::record_count(query) {
        let place = used as u32;
        let count = list_range(lent, query, at, &mut ranges[used..]);
        listed[at] = RangeList { place, count };
        used += range_words(lent, query, at);
    }
}
