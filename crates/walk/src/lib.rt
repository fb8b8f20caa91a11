// The walk over the live documents that a scorer matches.
#![tactic(auto)]

ghost use Rattle.scorer_leaf.specs.Buffers.{room, other_room, places_in, SameBuffers};
ghost use Rattle.scorer.specs.Calls.{lists_of};
ghost use Rattle.walk.specs.Walks.{NextPre, NextPost, ListPre, ListPost};

use scorer_leaf::{LeafReader, PhraseBuffers};

// Above every document.
pub use index::postings::NO_MORE_DOCS;

// How many were written, and the next live match.
// Kept: the C interface lends slices of places, so the number of those written stands beside them; `next` is
// NO_MORE_DOCS at the end, as `index` has it.
#[derive(Clone, Copy, PartialEq, Eq)]
pub struct Listed {
    pub given: usize,
    pub next: u32,
}

// The first live match at or after a document, or NO_MORE_DOCS.
// Kept: no plainer as one struct of the two, here and below: of them only `buffers` is lent for writing; with the
// reader in it, each clause would also say that it stays.
pub fn next_match(
    states: &mut [u32],
    reader: &LeafReader<'_>,
    buffers: &mut PhraseBuffers<'_>,
    from: u32,
    depth: u32,
) -> u32
    requires { NextPre (lists_of reader.now) reader.now.live.now (room buffers.old)
        (other_room buffers.old) states.old from depth }
    ensures next_post { NextPost (lists_of reader.now) reader.now.live.now states.old from depth
        result states.new }
    ensures same_buffers { SameBuffers buffers.old buffers.new }
{
    let mut target = from;
    // Kept: each turn begins where the answer of the one before lies; a loop is plainer than an iterator of such steps.
    loop {
        let d = scorer::advance(states, reader, buffers, target, depth);
        if d >= reader.max_doc {
            return NO_MORE_DOCS;
        }
        if index::live::is_live(reader.live, d) {
            return d;
        }
        target = d + 1;
    }
}

// The first live matches at or after a document with their scores' bits, as many as the outputs have places for.
// Kept: seven parameters: the C interface lends the two outputs as two, and so they go through `searcher`.
pub fn list(
    states: &mut [u32],
    reader: &LeafReader<'_>,
    buffers: &mut PhraseBuffers<'_>,
    from: u32,
    depth: u32,
    docs: &mut [u32],
    bits: &mut [u32],
) -> Listed
    requires { ListPre (lists_of reader.now) reader.now.norms.now reader.now.live.now
        reader.now.inverses.now (places_in buffers.old) states.old from depth docs.old bits.old }
    ensures list_post { ListPost (lists_of reader.now) reader.now.norms.now reader.now.live.now
        reader.now.inverses.now (places_in buffers.old) states.old from depth docs.old bits.old
        result states.new docs.new bits.new }
    ensures same_buffers { SameBuffers buffers.old buffers.new }
{
    let mut next = next_match(states, reader, buffers, from, depth);
    for given in 0..docs.len() {
        if next == NO_MORE_DOCS {
            return Listed { given, next };
        }
        let s = score::score(states, reader, buffers, next, depth);
        docs[given] = next;
        bits[given] = f32::to_bits(s);
        next = next_match(states, reader, buffers, next + 1, depth);
    }
    Listed {
        given: docs.len(),
        next,
    }
}
