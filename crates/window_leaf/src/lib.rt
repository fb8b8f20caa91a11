// A node without children, asked which documents of a window of 64 it matches.
#![tactic(auto)]

ghost use Rattle.std.specs.Prelude.{◌≡◌, ◌+◌, ◌*◌, ◌≤◌, length, get_or};
ghost use Rattle.meaning.specs.Limits.{no_more_docs, node_state_words};
ghost use Rattle.tree_weight.specs.declared.layout.TheConstants.{KIND};
ghost use Rattle.scorer_leaf.specs.Calls.{lists_of};
ghost use Rattle.scorer_leaf.specs.Buffers.{room, other_room, SameBuffers};
ghost use Rattle.window_leaf.specs.Asks.{TermBitsPre, TermBitsPost, RangeBitsPre, RangeBitsPost, BitsPre, BitsPost};
ghost use Rattle.window_leaf.specs.Runs.{PutPre, PutPost, RunBitsPre, RunBitsPost, PartOf};

use index::postings::POSTING_WORDS;
use run::Postings;
use scorer_leaf::{LeafReader, NO_MORE_DOCS, PhraseBuffers};
use tree_node::NodeKind;
use tree_weight::layout::{
    CURSOR, FIRST, KIND, NUMBER, WINDOW_FIRST, WINDOW_HIGH, WINDOW_LOW, WINDOW_NEXT,
};
use window::gathered;

pub mod phrases;

// A window of 64 documents: what is read of the index, and its first document.
#[derive(Clone, Copy)]
pub struct Window<'a> {
    pub reader: LeafReader<'a>,
    pub base: u32,
}

impl Window<'_> {
    // The first document behind the window.
    #[inline(always)]
    pub fn end(&self) -> u32
        requires { self.now.base + 64 ≤ no_more_docs }
        ensures { result ≡ self.now.base + 64 }
    {
        self.base + 64
    }
}

// The matches in the window as bits, and a document before which none follows behind the window.
#[derive(Clone, Copy)]
pub struct Found {
    pub bits: u64,
    pub next: u32,
}

// Stores an answer in the node's record.
pub fn put(states: &mut [u32], bits: u64, next: u32)
    requires { PutPre states.old }
    ensures { PutPost states.old bits next states.new }
{
    states[WINDOW_LOW] = bits::low(bits);
    states[WINDOW_HIGH] = bits::high(bits);
    states[WINDOW_NEXT] = next;
}

// The documents of a record's run in the window; its cursor is moved behind them.
pub fn run_bits(states: &mut [u32], words: &[u32], stride: usize, base: u32) -> u64
    requires { RunBitsPre words.now stride states.old base }
    ensures { RunBitsPost words.now stride states.old base result states.new }
{
    let postings = Postings {
        words,
        stride,
        first: states[FIRST] as usize,
        count: states[NUMBER] as usize,
    };
    let from = postings.lower(states[CURSOR] as usize, base);
    let g = gathered(postings, from, base);
    states[CURSOR] = g.at as u32;
    states[WINDOW_FIRST] = from as u32;
    let next = postings.get(g.at).unwrap_or(NO_MORE_DOCS);
    put(states, g.bits, next);
    g.bits
}

// A term's documents in the window, whether wanted or not.
pub fn term_bits(states: &mut [u32], postings: &[u32], base: u32) -> u64
    requires { TermBitsPre postings.now states.old base }
    ensures { TermBitsPost postings.now states.old base result states.new }
{
    run_bits(states, postings, POSTING_WORDS, base)
}

// A word of a bitmap; behind its last word there are no bits.
fn word_at(bitmap: &[u32], at: usize) -> u32
    ensures { result ≡ get_or bitmap.now at 0 }
{
    bitmap.get(at).copied().unwrap_or(0)
}

// The 32 bits of a bitmap from any place on: mostly one of its words.
fn bits_from(bitmap: &[u32], at: u32) -> u32
    ensures { PartOf bitmap.now at result }
{
    let word = (at / 32) as usize;
    let low = word_at(bitmap, word);
    let skip = at % 32;
    if skip == 0 {
        return low;
    }
    let high = word_at(bitmap, word + 1);
    bits::low(bits::joined(low, high) >> skip)
}

// A range's documents in the window, whether wanted or not.
pub fn range_bits(states: &mut [u32], ranges: &[u32], base: u32) -> u64
    requires { RangeBitsPre ranges.now states.old base }
    ensures { RangeBitsPost ranges.now states.old base result states.new }
{
    let first = states[FIRST] as usize;
    let end = first + states[NUMBER] as usize;
    let bitmap = &ranges[first..end];
    let low = bits_from(bitmap, base);
    let high = bits_from(bitmap, base + 32);
    let bits = bits::joined(low, high);
    put(states, bits, base + 64);
    bits
}

// The wanted documents of the window that a node without children matches.
// Kept: no plainer as one struct of the two, here and below: of them only `buffers` is lent for writing; with the
// window in it, each clause would also say that it stays.
pub fn leaf_bits(
    states: &mut [u32],
    window: &Window<'_>,
    buffers: &mut PhraseBuffers<'_>,
    want: u64,
    depth: u32,
) -> u64
    requires kind { get_or states.old KIND 0 ≡ 3 → ⊥ }
    requires bits_pre { BitsPre (lists_of window.now.reader) (room buffers.old)
        (other_room buffers.old) states.old window.now.base want depth }
    ensures bits_post { BitsPost (lists_of window.now.reader) (room buffers.old)
        (other_room buffers.old) states.old window.now.base want depth result states.new }
    ensures same_buffers { SameBuffers buffers.old buffers.new }
{
    match NodeKind::from(states[KIND]) {
        NodeKind::Term => bits::both(want, term_bits(states, window.reader.postings, window.base)),
        NodeKind::Phrase => phrases::phrase_bits(states, window, buffers, want),
        NodeKind::Range => bits::both(want, range_bits(states, window.reader.ranges, window.base)),
        NodeKind::Everything => {
            put(states, want, window.end());
            want
        }
        _ => {
            put(states, 0, NO_MORE_DOCS);
            0
        }
    }
}
