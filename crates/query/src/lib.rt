// The query's records, each followed by its children's trees: reading them, and refusal 7.
#![tactic(auto)]

pub mod kinds;
pub mod occurrences;
pub mod shape;

ghost use Rattle.std.specs.Prelude.{◌≡◌, ◌<◌};
ghost use Rattle.meaning.specs.Query.{record_count, record_kind, record_occurrence, record_children, record_value, range_of};
ghost use Rattle.index.specs.Ranges.{asked};
ghost use Rattle.query.specs.Kinds.{IsKind, IsOccur};

use column_keys::joined;
use index::columns::NumericRange;
pub use kinds::{Kind, UnknownKind};
pub use occurrences::{Occur, UnknownOccur};

// The limits of document 01: 256 records, a depth of 16 where the root's is 1, 1 to 32 terms of a Phrase, 64 clauses of
// a Boolean, a boost of 0 to 65,536 as f32 bits.
pub const MAX_RECORDS: usize = 256;

pub const MAX_DEPTH: u32 = 16;

pub const MAX_PHRASE_TERMS: usize = 32;

pub const MAX_CLAUSES: u32 = 64;

pub const LARGEST_BOOST: u32 = 0x4780_0000;

// The words of a record, and where in it stand its kind, its occurrence, how many children it has, and its six values.
pub const RECORD_WORDS: usize = 9;

const KIND: usize = 0;

const OCCURRENCE: usize = 1;

const CHILDREN: usize = 2;

const FIRST_VALUE: usize = 3;

pub const VALUES: usize = 6;

// How many whole records the query has.
pub fn record_count(query: &[u32]) -> usize
    ensures { result ≡ record_count query.now }
{
    query.len() / RECORD_WORDS
}

// A word of the record at `at`.
// Kept: no plainer: a struct of `query` and `at` would be made anew at each record, and `kind_at(query, at)` reads as
// the definitions' `record_kind q at`.
pub fn kind(query: &[u32], at: usize) -> u32
    requires { at < record_count query.now }
    ensures { result ≡ record_kind query.now at }
{
    query[RECORD_WORDS * at + KIND]
}

pub fn occurrence(query: &[u32], at: usize) -> u32
    requires { at < record_count query.now }
    ensures { result ≡ record_occurrence query.now at }
{
    query[RECORD_WORDS * at + OCCURRENCE]
}

// The kind of the record at `at`, or `None` where its number is no kind's.
pub fn kind_at(query: &[u32], at: usize) -> Option<Kind>
    requires { at < record_count query.now }
    ensures { IsKind (record_kind query.now at) result }
{
    Kind::try_from(kind(query, at)).ok()
}

// How the clause at `at` occurs in its Boolean, or `None` where its number is no occurrence's: 0 outside of a Boolean.
pub fn occur_at(query: &[u32], at: usize) -> Option<Occur>
    requires { at < record_count query.now }
    ensures { IsOccur (record_occurrence query.now at) result }
{
    Occur::try_from(occurrence(query, at)).ok()
}

pub fn children(query: &[u32], at: usize) -> u32
    requires { at < record_count query.now }
    ensures { result ≡ record_children query.now at }
{
    query[RECORD_WORDS * at + CHILDREN]
}

pub fn value(query: &[u32], at: usize, v: usize) -> u32
    requires { (at < record_count query.now) × (v < 6) }
    ensures { result ≡ record_value query.now at v }
{
    query[RECORD_WORDS * at + FIRST_VALUE + v]
}

// The range of the Range record at `at`.
pub fn range_at(query: &[u32], at: usize) -> NumericRange
    requires { at < record_count query.now }
    ensures { asked result ≡ range_of query.now at }
{
    NumericRange {
        column: value(query, at, 0),
        kinds: value(query, at, 1),
        lower: joined(value(query, at, 2), value(query, at, 3)),
        upper: joined(value(query, at, 4), value(query, at, 5)),
    }
}
