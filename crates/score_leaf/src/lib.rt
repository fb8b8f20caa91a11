// The score of a document at a leaf in the lent words: BM25 at a term's or a phrase's frequency.
#![tactic(auto)]

ghost use Rattle.std.specs.Prelude.{◌≡◌, Option, Some, not, ℕ, ◌+◌, ◌*◌, ◌/◌, ◌≤◌, ◌<◌, T, pos, length, get_or};
ghost use Rattle.std.specs.Float.{nan, binary32};
ghost use Rattle.std.specs.Float.Ieee.{nan_bits, of_bits, of_int};
ghost use Rattle.meaning.specs.Limits.{node_state_words, largest_frequency, max_fields};
ghost use Rattle.meaning.specs.Bm25.{bm25};
ghost use Rattle.index.specs.declared.postings.TheConstants.{POSTING_WORDS};
ghost use Rattle.index.specs.Runs.{posting_document, posting_frequency};
ghost use Rattle.sim.specs.declared.bm25.TheConstants.{INVERSES};
ghost use Rattle.scorer_leaf.specs.Buffers.{room, other_room, places_in, SameBuffers};
ghost use Rattle.score_leaf.specs.Words.{ScoreNodeIs, constant_score, byte_at, Bytes, Weighs, weighted_score};
ghost use Rattle.score_leaf.specs.Asked.{LeafScorePre, LeafScorePost, PhraseFrequencyPre, PhraseFrequencyPost, TermScorePre, TermScorePost};

use scorer_leaf::{LeafReader, PhraseBuffers};
use sim::bm25::INVERSES;
use tree_node::NodeKind;
use tree_weight::layout::{
    CONSTANT, CURSOR, FIELD, FIRST, FREQUENCY, FREQUENCY_OF, KIND, NORMS, NUMBER, WEIGHT,
};

// What the score reads of a leaf's record. `norms` is the place of its field's first norm byte, if the field has norms.
// Kept: no plainer: `constant` and `weight` are words as the caller lends them; for a float each caller of
// `score_node_at` would have to say that the word is a number. `constant_score` reads the two as an Option.
#[derive(Clone, Copy)]
pub struct ScoreNode {
    pub first: usize,
    pub number: usize,
    pub cursor: usize,
    pub field: usize,
    pub constant: u32,
    pub weight: u32,
    pub norms: Option<usize>,
}

pub fn score_node_at(states: &[u32]) -> ScoreNode
    requires { node_state_words ≤ length states.now }
    ensures { ScoreNodeIs states.now result }
{
    ScoreNode {
        first: states[FIRST] as usize,
        number: states[NUMBER] as usize,
        cursor: states[CURSOR] as usize,
        field: states[FIELD] as usize,
        constant: states[CONSTANT],
        weight: states[WEIGHT],
        norms: (states[NORMS] as usize).checked_sub(1),
    }
}

impl ScoreNode {
    // The score of every document, where the query says it.
    pub fn constant_score(self) -> Option<f32>
        requires { self.constant ≡ 1 → T (not (nan_bits binary32 self.weight)) }
        ensures { result ≡ constant_score self }
    {
        if self.constant == 1 {
            return Some(f32::from_bits(self.weight));
        }
        None
    }

    // BM25 at the weight, with the inverse of the length that a norm byte stands for.
    fn score(self, inverses: &[f32], frequency: u32, norm: u8) -> f32
        requires frequency_bound { (frequency ≤ largest_frequency)
            × (T (not (nan_bits binary32 self.weight)) × (self.field ≤ max_fields)) }
        requires norm_in_bounds { INVERSES * self.field + norm < length inverses.now }
        ensures { result ≡ bm25 (of_bits binary32 self.weight) (of_int binary32 (pos frequency))
            (get_or inverses.now (INVERSES * self.field + norm) nan) }
    {
        let inverse = inverses[INVERSES * self.field + usize::from(norm)];
        sim::bm25::Bm25::score(f32::from_bits(self.weight), frequency as f32, inverse)
    }
}

// The frequency of the document's posting, which stands at the cursor or behind it.
// Kept: no plainer: `ScoreNode` has the three among seven fields, and a `Cursor` would be made anew for each call.
fn term_frequency(postings: &[u32], first: usize, number: usize, cursor: usize, doc: u32) -> u32
    requires { first + number ≤ length postings.now / POSTING_WORDS }
    ensures { (i : ℕ) → cursor ≤ i → i < number → posting_document postings.now first i ≡ doc
        → ((k : ℕ) → k < i → posting_document postings.now first k ≡ doc → ⊥)
        → result ≡ posting_frequency postings.now first i }
{
    for i in cursor..number {
        if index::postings::posting_document(postings, first, i) == doc {
            return index::postings::posting_frequency(postings, first, i);
        }
    }
    0
}

// The norm byte of each document where a field has no norms.
const NO_NORMS: u8 = 1;

// A document's norm byte, where the field's first byte stands at `begin`.
// The second clause says what the type does: behind a reader's field it is not known.
#[tactic(auto, unfolding(crate::specs::Words::byte_at))]
fn norm_byte(norms: &[u8], begin: Option<usize>, doc: u32) -> u8
    requires { (first : ℕ) → begin ≡ Some first → first + doc < length norms.now }
    ensures byte { result ≡ byte_at norms.now begin doc }
    ensures bytes { Bytes norms.now }
{
    match begin {
        Some(first) => norms[first + doc as usize],
        None => NO_NORMS,
    }
}

// BM25 at a weight, with the inverse of the document's length. The second clause is `norm_byte`'s.
// Kept: no plainer by the reader: `bulk_term` reads both slices out of it once, before its loop over postings.
pub fn weighted(norms: &[u8], inverses: &[f32], n: ScoreNode, frequency: u32, doc: u32) -> f32
    requires { Weighs n norms.now inverses.now doc frequency }
    ensures score { result ≡ weighted_score n norms.now inverses.now doc frequency }
    ensures bytes { Bytes norms.now }
{
    n.score(inverses, frequency, norm_byte(norms, n.norms, doc))
}

// The frequency that is stored for the document; else it is worked out now.
fn phrase_frequency(
    states: &mut [u32],
    reader: &LeafReader<'_>,
    buffers: &mut PhraseBuffers<'_>,
    doc: u32,
) -> u32
    requires { PhraseFrequencyPre reader.now.postings.now reader.now.positions.now (room buffers.old)
        (other_room buffers.old) states.old doc }
    ensures frequency_post { PhraseFrequencyPost reader.now.postings.now reader.now.positions.now
        states.old doc result states.new }
    ensures same_buffers { SameBuffers buffers.old buffers.new }
{
    if states[FREQUENCY_OF] as usize == doc as usize + 1 {
        return states[FREQUENCY];
    }
    let _d = scorer_leaf::seek_phrase(states, reader, buffers, doc);
    states[FREQUENCY]
}

// The score of a leaf that scores by BM25.
pub fn leaf_score(
    states: &mut [u32],
    reader: &LeafReader<'_>,
    buffers: &mut PhraseBuffers<'_>,
    doc: u32,
) -> f32
    requires { (n : ℕ) × LeafScorePre states.old n reader.now.postings.now reader.now.positions.now
        reader.now.norms.now reader.now.inverses.now (places_in buffers.old) doc }
    ensures leaf_post { (n : ℕ)
        → LeafScorePost states.old n reader.now.postings.now reader.now.positions.now
        reader.now.norms.now reader.now.inverses.now (places_in buffers.old) doc result states.new }
    ensures same_buffers { SameBuffers buffers.old buffers.new }
{
    let n = score_node_at(states);
    let frequency = match NodeKind::from(states[KIND]) {
        NodeKind::Term => term_frequency(reader.postings, n.first, n.number, n.cursor, doc),
        NodeKind::Phrase => phrase_frequency(states, reader, buffers, doc),
        _ => {
            return 0.0;
        }
    };
    weighted(reader.norms, reader.inverses, n, frequency, doc)
}

// The score of a term: most leaves are terms, so it has a function that is lent little and changes nothing.
pub fn term_score(states: &[u32], reader: &LeafReader<'_>, doc: u32) -> f32
    requires { TermScorePre states.now reader.now.postings.now reader.now.norms.now reader.now.inverses.now doc }
    ensures { TermScorePost states.now reader.now.postings.now reader.now.norms.now
        reader.now.inverses.now doc result }
{
    let n = score_node_at(states);
    match n.constant_score() {
        Some(score) => score,
        None => {
            let frequency = term_frequency(reader.postings, n.first, n.number, n.cursor, doc);
            weighted(reader.norms, reader.inverses, n, frequency, doc)
        }
    }
}
