// The second pass: the words of a tree's scorer, to the front of the lent node states.
ghost use Rattle.std.specs.Prelude.{◌≡◌, true, is_some, cond, List, ◌++◌, ℕ, ◌+◌, ◌*◌, ◌^◌, ◌≤◌, ◌<◌, length, take, drop};
ghost use Rattle.std.proofs.Math.Option.{some};
ghost use Rattle.std.specs.Float.{binary32};
ghost use Rattle.std.specs.Float.Ieee.{of_bits};
ghost use Rattle.meaning.specs.Limits.{node_state_words};
ghost use Rattle.meaning.specs.Lent.{Index, leaf_count, leaf_idf, field_count};
ghost use Rattle.meaning.specs.Bm25.{weight};
ghost use Rattle.meaning.specs.Score.{phrase_idf};
ghost use Rattle.meaning.specs.Scorer.{has_scorer};
ghost use Rattle.index.specs.Accepted.{Accepted};
ghost use Rattle.index.specs.IndexOf.{index_of};
ghost use Rattle.meaning.specs.Query.{record_count, record_kind, Decoded, decode, record_children, record_value, phrase_terms_of, range_of};
ghost use Rattle.ieee754.specs.Nonneg.{AtMost};
ghost use Rattle.tree_weight.specs.ScorerTree.{Scorer, leaf, term, phrase, range, everything, constant};
ghost use Rattle.tree_weight.specs.Weigh.{weigh, no_scorer};
ghost use Rattle.tree_weight.specs.Held.{TermsAre, norms_word, largest_score};
ghost use Rattle.tree_weight.specs.State.{words_of};
ghost use Rattle.tree_weight.specs.Measured.{AcceptedOrder, RangeListed};
ghost use Rattle.tree_words.specs.Words.{state_of};
ghost use Rattle.tree_words.specs.Placed.{Placed, PhraseTermPlaced, kept_score};
ghost use Rattle.tree_words.specs.Prepared.{ScorerPlaced};

use crate::state::NodeState;
use index::leaves::leaf_at;
use index::lent::Lent;
use index::postings::NO_MORE_DOCS;
use query::{children, value};
use tree_measure::{Measure, RangeList};
use tree_node::NodeKind;
use tree_weight::NODE_STATE_WORDS;

// What the second pass goes by: the index, the query, and what the first pass found at each record.
// Kept: no plainer: the first pass reads `listed` while it fills `measures`; in one list of both each of them would be
// half a record.
#[derive(Clone, Copy)]
pub struct Records<'a> {
    pub lent: &'a Lent<'a>,
    pub query: &'a [u32],
    pub measures: &'a [Measure],
    pub listed: &'a [RangeList],
}

// What is passed down to a tree: the score that it keeps, if any, from a ConstantScore above it; the boost; 1 where it
// is a Must clause.
// Kept: no plainer: `scores`, here and below, is the word of the node's record; callers may pass any word, and a bool
// would ask for 0 or 1.
#[derive(Clone, Copy)]
pub struct Passed {
    pub kept: Option<f32>,
    pub boost: f32,
    pub scores: u32,
}

// The size of a node without parts below it.
const NODE_SIZE: u32 = NODE_STATE_WORDS as u32;

// A node's record.
// Kept: `copy_from_slice` is a call that waits for the words just stored; 1.2 times slower for a buyer's order
// (measured).
pub fn put(states: &mut [u32], state: &NodeState)
    requires { node_state_words ≤ length states.old }
    ensures { states.new ≡ words_of (state_of state.now) ++ drop node_state_words states.old }
{
    let words = state.words();
    for i in 0..NODE_STATE_WORDS {
        states[i] = words[i];
    }
}

// A node that matches nothing stands at NO_MORE_DOCS from the start.
// Kept: no plainer as an array of one record's words, here and below: what is lent goes on behind the part, and a
// phrase's part is as long as its terms.
pub fn place_nothing(states: &mut [u32], scores: u32) -> usize
    requires { node_state_words ≤ length states.old }
    ensures placed { (ix : Index) (ranges : List ℕ) (d : ℕ)
        → Placed ix ranges no_scorer d scores result states.new }
    ensures states_len_unchanged { length states.new ≡ length states.old }
{
    put(
        states,
        &NodeState {
            kind: NodeKind::Nothing.word(),
            size: NODE_SIZE,
            cached: NO_MORE_DOCS + 1,
            constant: 1,
            scores,
            ..NodeState::default()
        },
    );
    NODE_STATE_WORDS
}

// Every document, each with the same score.
pub fn place_everything(states: &mut [u32], score: f32, scores: u32) -> usize
    requires { (node_state_words ≤ length states.old) × AtMost largest_score score }
    ensures placed { (ix : Index) (ranges : List ℕ) (d : ℕ)
        → Placed ix ranges (leaf everything (constant score)) d scores result states.new }
    ensures states_len_unchanged { length states.new ≡ length states.old }
{
    put(
        states,
        &NodeState {
            kind: NodeKind::Everything.word(),
            size: NODE_SIZE,
            constant: 1,
            weight: f32::to_bits(score),
            scores,
            ..NodeState::default()
        },
    );
    NODE_STATE_WORDS
}

// The documents of a range, whose bitmap stands in the range buffer, each with the same score.
pub fn place_range(states: &mut [u32], max_doc: u32, first: u32, score: f32, scores: u32) -> usize
    requires { (node_state_words ≤ length states.old) × AtMost largest_score score }
    ensures placed { (ix : Index) (ranges query : List ℕ) (at count d : ℕ) → ix.max_doc ≡ max_doc
        → RangeListed ix query ranges at first count
        → Placed ix ranges (leaf (range (range_of query at)) (constant score)) d scores result states.new }
    ensures states_len_unchanged { length states.new ≡ length states.old }
{
    put(
        states,
        &NodeState {
            kind: NodeKind::Range.word(),
            size: NODE_SIZE,
            first,
            number: bits::bitmap_words(max_doc),
            constant: 1,
            weight: f32::to_bits(score),
            scores,
            ..NodeState::default()
        },
    );
    NODE_STATE_WORDS
}

// Where a field's norm bytes begin, + 1; 0 without norms.
// Kept: no plainer: the node's record holds the word, and all three callers would make it of an Option at once.
fn norms_word(lent: &Lent, field: u32) -> u32
    requires { Accepted (index_of lent.now) × (field < field_count (index_of lent.now)) }
    ensures { result ≡ norms_word (index_of lent.now) field }
{
    let f = field as usize;
    if !index::fields::field_at(lent.fields, f).has_norms() {
        return 0;
    }
    index::norms::norms_offset(lent.max_doc, lent.fields, f) as u32 + 1
}

// A leaf's idf.
fn idf_of(lent: &Lent, leaf: u32) -> f32
    requires { Accepted (index_of lent.now) × (leaf < leaf_count (index_of lent.now)) }
    ensures { result ≡ of_bits binary32 (leaf_idf (index_of lent.now) leaf) }
{
    f32::from_bits(leaf_at(lent.leaves, leaf as usize).idf)
}

// A phrase's idf: its terms' added in f64 in record order, then narrowed.
fn phrase_idf(lent: &Lent, query: &[u32], at: usize) -> f32
    requires terms_here { (at + 1 + record_children query.now at ≤ record_count query.now)
        × (record_children query.now at ≤ 32) }
    requires accepted { Accepted (index_of lent.now) }
    requires leaves_there { (j : ℕ) → j < record_children query.now at
        → record_value query.now (at + 1 + j) 0 < leaf_count (index_of lent.now) }
    ensures { result ≡ phrase_idf (index_of lent.now) (phrase_terms_of query.now at) }
{
    let mut sum: f64 = 0.0;
    for j in 0..children(query, at) as usize {
        sum = ieee754::add_score(sum, idf_of(lent, value(query, at + 1 + j, 0)));
    }
    ieee754::narrow(sum)
}

// What a term or a phrase scores by: the score that is kept, or the boost times its idf.
fn scored_by(passed: Passed, idf: f32) -> f32
    ensures { result ≡ cond (is_some passed.kept) (kept_score passed.kept) (weight passed.boost idf) }
{
    match passed.kept {
        Some(score) => score,
        None => sim::bm25::Bm25::weight(passed.boost, idf),
    }
}

// The Term at `at`, with the score that is kept or at the boost that reaches it.
pub fn place_term(states: &mut [u32], records: &Records, at: usize, passed: Passed) -> usize
    requires at_in_bounds { (node_state_words ≤ length states.old) × (at < record_count records.now.query.now)
        × (record_kind records.now.query.now at ≡ 1) × AtMost largest_score (kept_score passed.kept)
        × AtMost (2 ^ 16) passed.boost }
    requires asks { AcceptedOrder (index_of records.now.lent.now) records.now.query.now }
    ensures placed { ScorerPlaced records.now at passed result states.new }
    ensures states_len_unchanged { length states.new ≡ length states.old }
{
    let leaf = value(records.query, at, 0);
    let run = leaf_at(records.lent.leaves, leaf as usize);
    let score = scored_by(passed, idf_of(records.lent, leaf));
    put(
        states,
        &NodeState {
            kind: NodeKind::Term.word(),
            size: NODE_SIZE,
            first: run.first,
            number: run.number,
            field: run.field,
            constant: u32::from(passed.kept.is_some()),
            weight: f32::to_bits(score),
            scores: passed.scores,
            norms: norms_word(records.lent, run.field),
            ..NodeState::default()
        },
    );
    NODE_STATE_WORDS
}

// A term of a phrase, with its offset.
fn place_phrase_term(states: &mut [u32], records: &Records, leaf: u32, offset: u32)
    requires room { node_state_words ≤ length states.old }
    requires leaf_there { Accepted (index_of records.now.lent.now)
        × (leaf < leaf_count (index_of records.now.lent.now)) }
    ensures { PhraseTermPlaced (index_of records.now.lent.now) (record { leaf = leaf; offset = offset })
        states.old states.new }
{
    let run = leaf_at(records.lent.leaves, leaf as usize);
    put(
        states,
        &NodeState {
            kind: NodeKind::PhraseTerm.word(),
            size: NODE_SIZE,
            first: run.first,
            number: run.number,
            offset,
            field: run.field,
            norms: norms_word(records.lent, run.field),
            ..NodeState::default()
        },
    );
}

// The terms of the phrase at `at`, in record order.
fn place_terms(states: &mut [u32], records: &Records, at: usize)
    requires at_in_bounds { (node_state_words * record_children records.now.query.now at ≤ length states.old)
        × (at + 1 + record_children records.now.query.now at ≤ record_count records.now.query.now)
        × (record_children records.now.query.now at ≤ 32) }
    requires accepted { Accepted (index_of records.now.lent.now) }
    requires leaves_there { (j : ℕ) → j < record_children records.now.query.now at
        → record_value records.now.query.now (at + 1 + j) 0 < leaf_count (index_of records.now.lent.now) }
    ensures terms_are { TermsAre (index_of records.now.lent.now) (phrase_terms_of records.now.query.now at)
        (take (node_state_words * record_children records.now.query.now at) states.new) 0 }
    ensures states_len_unchanged { length states.new ≡ length states.old }
{
    for j in 0..children(records.query, at) as usize {
        let leaf = value(records.query, at + 1 + j, 0);
        let offset = value(records.query, at + 1 + j, 1);
        place_phrase_term(&mut states[NODE_STATE_WORDS * j..], records, leaf, offset);
    }
}

// The Phrase at `at`, with the score that is kept or at the boost that reaches it: its record, then its terms.
pub fn place_phrase(states: &mut [u32], records: &Records, at: usize, passed: Passed) -> usize
    requires at_in_bounds { (node_state_words + node_state_words * record_children records.now.query.now at
        ≤ length states.old) × (at < record_count records.now.query.now) × (record_kind records.now.query.now at ≡ 2)
        × AtMost largest_score (kept_score passed.kept) × AtMost (2 ^ 16) passed.boost }
    requires asks { AcceptedOrder (index_of records.now.lent.now) records.now.query.now }
    ensures placed { ScorerPlaced records.now at passed result states.new }
    ensures states_len_unchanged { length states.new ≡ length states.old }
{
    let field = value(records.query, at, 0);
    let size = NODE_SIZE + NODE_SIZE * children(records.query, at);
    let score = scored_by(passed, phrase_idf(records.lent, records.query, at));
    place_terms(&mut states[NODE_STATE_WORDS..], records, at);
    put(
        states,
        &NodeState {
            kind: NodeKind::Phrase.word(),
            size,
            field,
            constant: u32::from(passed.kept.is_some()),
            weight: f32::to_bits(score),
            scores: passed.scores,
            norms: norms_word(records.lent, field),
            ..NodeState::default()
        },
    );
    size as usize
}
