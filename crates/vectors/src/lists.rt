// The lists of an index that a program lends.
use index::lent::Lent;

// An index without a document.
pub const EMPTY: Lent<'static> = Lent {
    max_doc: 0,
    fields: &[],
    leaves: &[],
    postings: &[],
    positions: &[],
    norms: &[],
    live: &[],
    columns: &[],
    values: &[],
};
