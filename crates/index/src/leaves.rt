// Leaf records, four words each: field, first posting, number of postings, idf as f32 bits.
ghost use Rattle.std.specs.Prelude.{◌≡◌, [], ◌<◌, ◌+◌, ◌/◌, eqb, length};
ghost use Rattle.meaning.specs.IndexRefusals.{wrong_leaf, wrong4};
ghost use Rattle.meaning.specs.Lent.{leaf_count};
ghost use Rattle.index.specs.declared.leaves.TheConstants.{LEAF_WORDS};
ghost use Rattle.index.specs.Slices.{leaves_only};
ghost use Rattle.index.specs.Records.{leaf_of};
ghost use Rattle.index.specs.Runs.{leaf_words_field};

use super::fields::field_count;
use super::postings::POSTING_WORDS;
use super::wrong_records;

// The words of a leaf.
pub const LEAF_WORDS: usize = 4;

// The limits of document 01: 512 leaves, an idf of 0 to 64 as f32 bits.
pub const MAX_LEAVES: usize = 512;

const LARGEST_IDF: u32 = 0x4280_0000;

// A leaf's record by value.
#[derive(Clone, Copy)]
pub struct Leaf {
    pub field: u32,
    pub first: u32,
    pub number: u32,
    pub idf: u32,
}

impl Leaf {
    pub fn is_empty(self) -> bool
        ensures { result ≡ eqb self.number 0 }
    {
        self.number == 0
    }

    // Where its run ends, which may need more than 32 bits.
    pub fn end(self) -> usize
        ensures { result ≡ self.first + self.number }
    {
        self.first as usize + self.number as usize
    }
}

// How many whole leaves there are.
pub fn leaf_count(leaves: &[u32]) -> usize
    ensures { result ≡ leaf_count (leaves_only [] leaves.now []) }
{
    leaves.len() / LEAF_WORDS
}

// Leaf number l.
// Kept: no plainer by From: what is lent is a slice of many records,
// so one record's words would first be made an array.
pub fn leaf_at(leaves: &[u32], l: usize) -> Leaf
    requires { l < length leaves.now / LEAF_WORDS }
    ensures { result ≡ leaf_of (leaves_only [] leaves.now []) l }
{
    Leaf {
        field: leaves[LEAF_WORDS * l],
        first: leaves[LEAF_WORDS * l + 1],
        number: leaves[LEAF_WORDS * l + 2],
        idf: leaves[LEAF_WORDS * l + 3],
    }
}

// The field of a leaf, and 0 of one past the end, as the definitions read it.
pub fn leaf_field(leaves: &[u32], leaf: u32) -> u32
    ensures { result ≡ leaf_words_field leaves.now leaf }
{
    leaves.get(LEAF_WORDS * leaf as usize).copied().unwrap_or(0)
}

// Leaf l: its field absent, its run past the postings, or its idf outside.
fn wrong_leaf(fields: &[u32], leaves: &[u32], postings: &[u32], l: usize) -> bool
    requires { l < length leaves.now / LEAF_WORDS }
    ensures { result ≡ wrong_leaf (leaves_only fields.now leaves.now postings.now) l }
{
    let leaf = leaf_at(leaves, l);
    (leaf.field as usize >= field_count(fields))
        | (leaf.end() > postings.len() / POSTING_WORDS)
        | (leaf.idf > LARGEST_IDF)
}

// 4, the leaf records: not whole, too many, or one of them wrong.
pub fn wrong_leaves(fields: &[u32], leaves: &[u32], postings: &[u32]) -> bool
    ensures { result ≡ wrong4 (leaves_only fields.now leaves.now postings.now) }
{
    wrong_records::<LEAF_WORDS, _>(
        leaves,
        MAX_LEAVES,
        |l| wrong_leaf(fields, leaves, postings, l),
    )
}
