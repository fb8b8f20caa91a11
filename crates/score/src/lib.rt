// The score of a document at the scorers in the lent words.
#![tactic(auto)]

ghost use Rattle.scorer_leaf.specs.Buffers.{places_in, SameBuffers};
ghost use Rattle.score.specs.Asked.{RequiredScorePre, RequiredScorePost, OptionalScorePre, OptionalScorePost, JoinPre, JoinPost};
ghost use Rattle.score_leaf.specs.Asked.{ScorePre, ScorePost};

use score_leaf::{leaf_score, score_node_at, term_score};
use scorer_leaf::{LeafReader, PhraseBuffers};
use tree_node::{Boolean, NodeKind, boolean_at, child_at};
use tree_weight::NODE_STATE_WORDS;
use tree_weight::layout::KIND;

// The score of the document where the node matches it. The children were left at it or before it.
// Kept: no plainer as one struct of the two, here and below: of them only `buffers` is lent for writing; with the
// reader in it, each clause would also say that it stays.
#[cycle(joined_optional_required_score)]
pub fn score(
    states: &mut [u32],
    reader: &LeafReader<'_>,
    buffers: &mut PhraseBuffers<'_>,
    doc: u32,
    depth: u32,
) -> f32
    requires { ScorePre states.old reader.now.max_doc reader.now.postings.now
        reader.now.positions.now reader.now.norms.now reader.now.ranges.now reader.now.inverses.now
        (places_in buffers.old) doc depth }
    ensures score_post { ScorePost states.old reader.now.max_doc reader.now.postings.now
        reader.now.positions.now reader.now.norms.now reader.now.ranges.now reader.now.inverses.now
        (places_in buffers.old) doc depth result states.new }
    ensures same_buffers { SameBuffers buffers.old buffers.new }
{
    if let Some(score) = score_node_at(states).constant_score() {
        return score;
    }
    match NodeKind::from(states[KIND]) {
        NodeKind::Boolean => {
            let n = boolean_at(states);
            joined(
                &mut states[NODE_STATE_WORDS..],
                n,
                reader,
                buffers,
                doc,
                depth - 1,
            )
        }
        _ => leaf_score(states, reader, buffers, doc),
    }
}

// A Boolean's score: the Should sum joins the Must sum as one more summand, or after that is narrowed. Without Should
// clauses the Must sum is the score, and without Must clauses the Should sum is.
#[cycle(joined_optional_required_score)]
fn joined(
    kids: &mut [u32],
    n: Boolean,
    reader: &LeafReader<'_>,
    buffers: &mut PhraseBuffers<'_>,
    doc: u32,
    depth: u32,
) -> f32
    requires { JoinPre kids.old n reader.now (places_in buffers.old) doc depth }
    ensures join_post { JoinPost kids.old n reader.now (places_in buffers.old) doc depth result kids.new }
    ensures same_buffers { SameBuffers buffers.old buffers.new }
{
    let end = n.required_end;
    let optional_end = n.optional_end;
    if end == optional_end {
        return ieee754::narrow(required(&mut kids[..end], 0.0, reader, buffers, doc, depth));
    }
    let group = ieee754::narrow(optional(
        &mut kids[end..optional_end],
        reader,
        buffers,
        doc,
        depth,
    ));
    if end == 0 {
        return group;
    }
    if n.afterwards {
        let sum = required(&mut kids[..end], 0.0, reader, buffers, doc, depth);
        let narrowed = ieee754::narrow(sum) as f64;
        return ieee754::narrow(ieee754::add_score(narrowed, group));
    }
    let at = n.group_at;
    let front = required(&mut kids[..at], 0.0, reader, buffers, doc, depth);
    let sum = ieee754::add_score(front, group);
    ieee754::narrow(required(&mut kids[at..end], sum, reader, buffers, doc, depth))
}

// The scores of the Must children, in the order of their parts, added to the sum.
#[cycle(joined_optional_required_score)]
#[tactic(auto, using(crate::proofs::Loops::required_there, crate::proofs::Parts::back_length))]
fn required(
    kids: &mut [u32],
    start: f64,
    reader: &LeafReader<'_>,
    buffers: &mut PhraseBuffers<'_>,
    doc: u32,
    depth: u32,
) -> f64
    requires { RequiredScorePre kids.old start reader.now (places_in buffers.old) doc depth }
    ensures required_post { RequiredScorePost kids.old start reader.now (places_in buffers.old) doc depth
        result kids.new }
    ensures same_buffers { SameBuffers buffers.old buffers.new }
{
    let mut sum = start;
    let mut at = 0;
    // Kept: parts differ in length and are lent for writing, so an iterator would hold `kids` and `at` itself.
    while at < kids.len() {
        let child = child_at(kids, at);
        let end = child.end;
        match child.kind {
            NodeKind::Term => {
                if child.scores { // a Must: a Filter scores nothing
                    let part = &kids[at..end];
                    let s = term_score(part, reader, doc);
                    sum = ieee754::add_score(sum, s);
                }
            }
            _ => {
                if child.scores {
                    let s = score(&mut kids[at..end], reader, buffers, doc, depth);
                    sum = ieee754::add_score(sum, s);
                }
            }
        }
        at = end;
    }
    sum
}

// The scores of the optional children that stand at the document, in the order of their parts, from 0.
#[cycle(joined_optional_required_score)]
#[tactic(auto, using(crate::proofs::Loops::optional_there, crate::proofs::Parts::back_length))]
fn optional(
    kids: &mut [u32],
    reader: &LeafReader<'_>,
    buffers: &mut PhraseBuffers<'_>,
    doc: u32,
    depth: u32,
) -> f64
    requires { OptionalScorePre kids.old reader.now (places_in buffers.old) doc depth }
    ensures optional_post { OptionalScorePost kids.old reader.now (places_in buffers.old) doc depth
        result kids.new }
    ensures same_buffers { SameBuffers buffers.old buffers.new }
{
    let mut sum = 0.0;
    let mut at = 0;
    // Kept: parts differ in length and are lent for writing, so an iterator would hold `kids` and `at` itself.
    while at < kids.len() {
        let child = child_at(kids, at);
        let end = child.end;
        match child.kind {
            NodeKind::Term => {
                if scorer::advance_term(&mut kids[at..end], reader.postings, doc) == doc {
                    let part = &kids[at..end];
                    let s = term_score(part, reader, doc);
                    sum = ieee754::add_score(sum, s);
                }
            }
            _ => {
                if scorer::advance(&mut kids[at..end], reader, buffers, doc, depth) == doc {
                    let s = score(&mut kids[at..end], reader, buffers, doc, depth);
                    sum = ieee754::add_score(sum, s);
                }
            }
        }
        at = end;
    }
    sum
}
