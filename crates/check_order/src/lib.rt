// The refusals of an index, 1 to 6, of an index and a query, 1 to 10, and of a call of Search or Page, 1 to 13.
#![tactic(auto)]

ghost use Rattle.std.specs.Prelude.{◌≡◌};
ghost use Rattle.meaning.specs.Refusals.{lowest};
ghost use Rattle.meaning.specs.CallRefusals.{starts_short, work_short};
ghost use Rattle.meaning.specs.Entries.{order_conditions, search_refusal, page_refusal};
ghost use Rattle.index.specs.IndexOf.{index_of};
ghost use Rattle.index.specs.Refusal.{index_refusal};
ghost use Rattle.refusal.specs.Numbers.{refusal_of};
ghost use Rattle.tree_weight.specs.Measured.{AcceptedOrder};
ghost use Rattle.check_order.specs.WorkOf.{place_work, work_of};

use index::lent::Lent;
use refusal::Refusal;

// The lengths of the work buffers: node states, two phrase buffers, the range buffer.
#[derive(Clone, Copy)]
pub struct Work {
    pub states: usize,
    pub starts: usize,
    pub other_starts: usize,
    pub ranges: usize,
}

// The first of the refusals 1 to 6 whose condition holds for what is lent of an index.
pub fn check_index(lent: &Lent) -> Result<(), Refusal>
    ensures { refusal_of result ≡ index_refusal (index_of lent.now) }
{
    if index::wrong_max_doc(lent.max_doc) {
        return Err(Refusal::MaxDoc);
    }
    if index::fields::wrong_fields(lent.fields) {
        return Err(Refusal::Fields);
    }
    if index::norms::wrong_lengths(lent.max_doc, lent.fields, lent.norms, lent.live) {
        return Err(Refusal::Lengths);
    }
    if index::leaves::wrong_leaves(lent.fields, lent.leaves, lent.postings) {
        return Err(Refusal::Leaves);
    }
    if check_postings::wrong_postings(lent) {
        return Err(Refusal::Postings);
    }
    if index::columns::wrong_columns(lent.max_doc, lent.columns, lent.values) {
        return Err(Refusal::Columns);
    }
    Ok(())
}

// The first of the refusals 1 to 10 whose condition holds.
// Kept: no plainer, here and below: `lent, query` as the entries have them; a struct of the two would be made in each
// entry, only to be taken apart here.
pub fn check_order(lent: &Lent, query: &[u32]) -> Result<(), Refusal>
    ensures { refusal_of result ≡ lowest (order_conditions (index_of lent.now) query.now) }
{
    check_index(lent)?;
    check_query::check_query(lent, query)
}

// Whether a phrase buffer is too short for the query.
pub fn starts_short(lent: &Lent, query: &[u32], starts: usize, other_starts: usize) -> bool
    requires { AcceptedOrder (index_of lent.now) query.now }
    ensures { result ≡ starts_short (index_of lent.now) query.now (place_work starts other_starts) }
{
    let needed = check_query::buffers::starts_needed(lent, query) as usize;
    starts < needed || other_starts < needed
}

// Whether a work buffer is too short for the query.
pub fn work_short(lent: &Lent, query: &[u32], work: Work) -> bool
    requires { AcceptedOrder (index_of lent.now) query.now }
    ensures { result ≡ work_short (index_of lent.now) query.now (work_of work) }
{
    (work.states as u64) < check_query::buffers::states_needed(query)
        || starts_short(lent, query, work.starts, work.other_starts)
        || (work.ranges as u64) < check_query::buffers::ranges_needed(lent, query)
}

// The first of the refusals 1 to 12 whose condition holds.
pub fn search_refusal(
    lent: &Lent,
    query: &[u32],
    k: u32,
    work: Work,
    places: usize,
) -> Result<(), Refusal>
    ensures { refusal_of result ≡ search_refusal (index_of lent.now) query.now k (work_of work) places }
{
    check_order(lent, query)?;
    if collector::wrong_hits(k) {
        return Err(Refusal::Hits);
    }
    if work_short(lent, query, work) || places < k as usize {
        return Err(Refusal::Buffers);
    }
    Ok(())
}

// The first of the refusals 1 to 10, 12 and 13 whose condition holds.
pub fn page_refusal(
    lent: &Lent,
    query: &[u32],
    target: u32,
    work: Work,
    documents: usize,
    scores: usize,
) -> Result<(), Refusal>
    ensures { refusal_of result
        ≡ page_refusal (index_of lent.now) query.now target (work_of work) documents scores }
{
    check_order(lent, query)?;
    if work_short(lent, query, work) || documents != scores {
        return Err(Refusal::Buffers);
    }
    if lent.max_doc < target {
        return Err(Refusal::Target);
    }
    Ok(())
}
