// Any scorer tree in windows of 64 documents: the matches of a window, then their scores, then each to the collector.
#![tactic(auto)]

ghost use Rattle.std.specs.Prelude.{◌≡◌, ◌+◌, ◌*◌, ◌%◌, ◌≤◌, ◌<◌, length};
ghost use Rattle.scorer_leaf.specs.Calls.{lists_of};
ghost use Rattle.scorer_leaf.specs.Buffers.{places_in, SameBuffers};
ghost use Rattle.bulk_scorer.specs.Collects.{CollectPre, CollectPost, CollectEnd};
ghost use Rattle.bulk_window.specs.Windows.{LiveWord, LiveBits, NextWindow, PlacesPre, PlacesPost, Cleared};

use bits::SetBits;
use collector::TopScoreDocCollector;
use scorer_leaf::{LeafReader, PhraseBuffers};
use tree_weight::layout::WINDOW_NEXT;
use window_bits::node_bits;
use window_leaf::Window;
use window_score::root::root_scores;

// The live words of a window; no words at all means that all are live.
fn live_word(live: &[u64], base: u32) -> u64
    requires whole { base % 64 ≡ 0 }
    requires there { 0 < length live.now → base < 64 * length live.now }
    ensures { LiveWord live.now base result }
{
    if live.is_empty() {
        return u64::MAX;
    }
    live[(base / 64) as usize]
}

// The live documents of the window from base on, cut at max_doc.
fn live_bits(live: &[u64], base: u32, max_doc: u32) -> u64
    requires below { (base < max_doc) × (base % 64 ≡ 0) }
    requires there { 0 < length live.now → max_doc ≤ 64 * length live.now }
    ensures { LiveBits live.now base max_doc result }
{
    let word = live_word(live, base);
    let left = max_doc - base;
    if left < 64 {
        return bits::both(word, bits::first_bits(left));
    }
    word
}

// Where the next window begins: it may skip to the window of `next`, a lower bound of the next match.
fn next_window(base: u32, next: u32) -> u32
    requires { (base % 64 ≡ 0) × (base + 64 < 4294967296) }
    ensures { NextWindow base next result }
{
    if next <= base + 64 {
        return base + 64;
    }
    next - next % 64
}

// The documents at some places of a window to the collector, ascending, each with its sum narrowed; these sums become
// 0.
fn collect_places(
    c: TopScoreDocCollector,
    heap: &mut [i64],
    first: u32,
    places: u64,
    sums: &mut [f64],
) -> TopScoreDocCollector
    requires { PlacesPre first places sums.old c heap.old }
    ensures collected { PlacesPost first places sums.old c heap.old result heap.new }
    ensures cleared { Cleared places sums.old sums.new }
{
    let mut c = c;
    for place in (SetBits { left: places }) {
        let at = place as usize;
        c = c.stepped(heap, first + place, ieee754::narrow(sums[at]));
        sums[at] = 0.0;
    }
    c
}

// The live documents that the tree matches to the collector, numbered on from a document base. All sums are 0 between
// two windows.
// Kept: seven parameters: no plainer by a struct lent with the collector, its heap and doc_base: the loops keep the
// collector by value (`stepped`), so each would take it out and put it back.
pub fn collect_windows(
    states: &mut [u32],
    reader: &LeafReader<'_>,
    buffers: &mut PhraseBuffers<'_>,
    depth: u32,
    doc_base: u32,
    c: TopScoreDocCollector,
    heap: &mut [i64],
) -> TopScoreDocCollector
    requires { CollectPre (lists_of reader.now) reader.now.norms.now reader.now.live.now
        reader.now.inverses.now (places_in buffers.old) states.old depth doc_base c heap.old }
    ensures collect_post { CollectPost (lists_of reader.now) reader.now.norms.now reader.now.live.now
        reader.now.inverses.now (places_in buffers.old) states.old depth doc_base c heap.old result
        heap.new }
    ensures collect_end { CollectEnd (lists_of reader.now) reader.now.norms.now reader.now.live.now
        reader.now.inverses.now (places_in buffers.old) states.old depth states.new }
    ensures same_buffers { SameBuffers buffers.old buffers.new }
{
    let mut c = c;
    let mut sums = [0.0f64; 64];
    let mut base = 0;
    // Kept: no plainer: a window's answer says where the next begins, so there is no range to go through.
    while base < reader.max_doc {
        let want = live_bits(reader.live, base, reader.max_doc);
        let window = Window {
            reader: *reader,
            base,
        };
        let places = node_bits(states, &window, buffers, want, depth);
        let next = states[WINDOW_NEXT];
        if places != 0 {
            root_scores(states, &window, buffers, places, &mut sums, depth);
            c = collect_places(c, heap, doc_base + base, places, &mut sums);
        }
        base = next_window(base, next);
    }
    c
}
