// Which documents of a window of 64 a scorer tree matches.
#![tactic(auto)]

ghost use Rattle.std.specs.Prelude.{◌≡◌, true, cond, not, ℕ, length};
ghost use Rattle.window_planes.specs.Counts.{count};
ghost use Rattle.scorer_leaf.specs.Calls.{lists_of};
ghost use Rattle.scorer_leaf.specs.Buffers.{room, other_room, SameBuffers};
ghost use Rattle.window_leaf.specs.Asks.{BitsPre, BitsPost};
ghost use Rattle.window_bits.specs.Parts.{RequiredBitsPre, RequiredBitsPost, PhrasesPost, PartsBitsPre, OptionalBitsPost, CountPost, AnyPost, ExcludedPost, BooleanBitsPre, BooleanBitsPost, phrase_kind, phrases_only};

use scorer_leaf::{NO_MORE_DOCS, PhraseBuffers};
use tree_node::{Boolean, NodeKind, boolean_at, child_at};
use tree_weight::NODE_STATE_WORDS;
use tree_weight::layout::{KIND, WINDOW_NEXT};
use window_leaf::{Found, Window, leaf_bits, put, term_bits};

// Counts of children go up to 255.
const PLANES: usize = 8;

const MOST: u32 = 255;

// Which of the required children a pass asks.
#[derive(Clone, Copy)]
pub enum Asks {
    AllButPhrases,
    Phrases,
}

impl Asks {
    // Whether it asks a child of this kind.
    fn takes(self, kind: NodeKind) -> bool
        ensures { result ≡ cond (phrases_only self) (phrase_kind kind) (not (phrase_kind kind)) }
    {
        match self {
            Asks::AllButPhrases => !matches!(kind, NodeKind::Phrase),
            Asks::Phrases => matches!(kind, NodeKind::Phrase),
        }
    }
}

// What a pass over the required children leaves of the wanted documents, and whether it left a child to the other pass.
// Kept: no plainer as an Option: the documents found are an answer whether or not a child was skipped.
#[derive(Clone, Copy)]
pub struct Pass {
    pub found: Found,
    pub skipped: bool,
}

// The wanted documents of the window that the node matches.
// Kept: no plainer as one struct of the two, here and below: of them only `buffers` is lent for writing; with the
// window in it, each clause would also say that it stays.
#[cycle(any_bits_boolean_bits_child_bits_counted_bits_excluded_bits_node_bits_optional_bits_phrase_bits_required_bits)]
pub fn node_bits(
    states: &mut [u32],
    window: &Window<'_>,
    buffers: &mut PhraseBuffers<'_>,
    want: u64,
    depth: u32,
) -> u64
    requires { BitsPre (lists_of window.now.reader) (room buffers.old) (other_room buffers.old)
        states.old window.now.base want depth }
    ensures bits_post { BitsPost (lists_of window.now.reader) (room buffers.old)
        (other_room buffers.old) states.old window.now.base want depth result states.new }
    ensures same_buffers { SameBuffers buffers.old buffers.new }
{
    match NodeKind::from(states[KIND]) {
        NodeKind::Boolean => {
            let n = boolean_at(states);
            let f = boolean_bits(
                &mut states[NODE_STATE_WORDS..],
                window,
                buffers,
                n,
                want,
                depth - 1,
            );
            put(states, f.bits, f.next);
            f.bits
        }
        _ => leaf_bits(states, window, buffers, want, depth),
    }
}

// Which of the wanted documents a child matches; a term is asked without the call of node_bits.
#[inline(always)]
#[cycle(any_bits_boolean_bits_child_bits_counted_bits_excluded_bits_node_bits_optional_bits_phrase_bits_required_bits)]
pub fn child_bits(
    states: &mut [u32],
    window: &Window<'_>,
    buffers: &mut PhraseBuffers<'_>,
    want: u64,
    depth: u32,
) -> u64
    requires { BitsPre (lists_of window.now.reader) (room buffers.old) (other_room buffers.old)
        states.old window.now.base want depth }
    ensures bits_post { BitsPost (lists_of window.now.reader) (room buffers.old)
        (other_room buffers.old) states.old window.now.base want depth result states.new }
    ensures same_buffers { SameBuffers buffers.old buffers.new }
{
    match NodeKind::from(states[KIND]) {
        NodeKind::Term => bits::both(want, term_bits(states, window.reader.postings, window.base)),
        _ => node_bits(states, window, buffers, want, depth),
    }
}

// The required children without the phrases, cheapest first; then the optional, the prohibited, and last the required
// phrases, whose positions cost most.
#[cycle(any_bits_boolean_bits_child_bits_counted_bits_excluded_bits_node_bits_optional_bits_phrase_bits_required_bits)]
fn boolean_bits(
    kids: &mut [u32],
    window: &Window<'_>,
    buffers: &mut PhraseBuffers<'_>,
    n: Boolean,
    want: u64,
    depth: u32,
) -> Found
    requires { BooleanBitsPre (lists_of window.now.reader) (room buffers.old) (other_room buffers.old)
        kids.old n.required_end n.optional_end n.need window.now.base want depth }
    ensures boolean_post { BooleanBitsPost (lists_of window.now.reader) (room buffers.old)
        (other_room buffers.old) kids.old n.required_end n.optional_end n.need window.now.base want
        depth result.bits result.next kids.new }
    ensures same_buffers { SameBuffers buffers.old buffers.new }
{
    let end = n.required_end;
    let optional_end = n.optional_end;
    let r = required_bits(
        &mut kids[..end],
        window,
        buffers,
        Asks::AllButPhrases,
        want,
        depth,
    );
    let o = optional_bits(
        &mut kids[end..optional_end],
        window,
        buffers,
        n.need,
        r.found.bits,
        depth,
    );
    let w = excluded_bits(&mut kids[optional_end..], window, buffers, o.bits, depth);
    let p = phrase_bits(&mut kids[..end], window, buffers, r.skipped, w, depth);
    Found {
        bits: p.bits,
        next: r.found.next.max(o.next).max(p.next),
    }
}

// The second pass over the required children, where the first skipped some.
// Kept: no plainer in the caller, where the two ways would join before the answers are put together; `skipped` is what
// the first pass saw.
#[cycle(any_bits_boolean_bits_child_bits_counted_bits_excluded_bits_node_bits_optional_bits_phrase_bits_required_bits)]
fn phrase_bits(
    kids: &mut [u32],
    window: &Window<'_>,
    buffers: &mut PhraseBuffers<'_>,
    skipped: bool,
    want: u64,
    depth: u32,
) -> Found
    requires { RequiredBitsPre (lists_of window.now.reader) (room buffers.old) (other_room buffers.old)
        kids.old true window.now.base want depth }
    ensures phrases_post { PhrasesPost (lists_of window.now.reader) (room buffers.old)
        (other_room buffers.old) kids.old skipped window.now.base want depth result.bits result.next
        kids.new }
    ensures same_buffers { SameBuffers buffers.old buffers.new }
{
    if skipped {
        let p = required_bits(kids, window, buffers, Asks::Phrases, want, depth);
        return p.found;
    }
    Found {
        bits: want,
        next: window.end(),
    }
}

// Each child that the pass asks gets what those before it left, and none is asked once nothing is left.
#[cycle(any_bits_boolean_bits_child_bits_counted_bits_excluded_bits_node_bits_optional_bits_phrase_bits_required_bits)]
fn required_bits(
    kids: &mut [u32],
    window: &Window<'_>,
    buffers: &mut PhraseBuffers<'_>,
    asks: Asks,
    want: u64,
    depth: u32,
) -> Pass
    requires { RequiredBitsPre (lists_of window.now.reader) (room buffers.old) (other_room buffers.old)
        kids.old (phrases_only asks) window.now.base want depth }
    ensures pass_post { RequiredBitsPost (lists_of window.now.reader) (room buffers.old)
        (other_room buffers.old) kids.old (phrases_only asks) window.now.base want depth
        result.found.bits result.found.next result.skipped kids.new }
    ensures same_buffers { SameBuffers buffers.old buffers.new }
{
    let mut w = want;
    let mut next = window.end();
    let mut skipped = false;
    let mut at = 0;
    // The window is read at each turn: read once before the loops, it was up to 3 parts in a hundred slower.
    // Kept: parts differ in length and are lent for writing, so an iterator would hold `kids` and `at` itself.
    while at < kids.len() {
        if w == 0 {
            return Pass {
                found: Found { bits: w, next },
                skipped: false,
            };
        }
        let k = child_at(kids, at);
        let end = k.end;
        if asks.takes(k.kind) {
            w = child_bits(&mut kids[at..end], window, buffers, w, depth);
            next = next.max(kids[at + WINDOW_NEXT]);
        } else {
            skipped = true;
        }
        at = end;
    }
    Pass {
        found: Found { bits: w, next },
        skipped,
    }
}

// The wanted documents that at least `need` of the children match; where none is needed they are asked with the score.
#[cycle(any_bits_boolean_bits_child_bits_counted_bits_excluded_bits_node_bits_optional_bits_phrase_bits_required_bits)]
fn optional_bits(
    kids: &mut [u32],
    window: &Window<'_>,
    buffers: &mut PhraseBuffers<'_>,
    need: u32,
    want: u64,
    depth: u32,
) -> Found
    requires { PartsBitsPre (lists_of window.now.reader) (room buffers.old) (other_room buffers.old)
        kids.old window.now.base want depth }
    ensures optional_post { OptionalBitsPost (lists_of window.now.reader) (room buffers.old)
        (other_room buffers.old) kids.old need window.now.base want depth result.bits result.next
        kids.new }
    ensures same_buffers { SameBuffers buffers.old buffers.new }
{
    if need == 0 || want == 0 {
        return Found {
            bits: want,
            next: window.end(),
        };
    }
    if need == 1 {
        return any_bits(kids, window, buffers, want, depth);
    }
    if MOST < need {
        return Found {
            bits: 0,
            next: window.end(),
        };
    }
    let mut planes = [0u64; PLANES];
    let next = counted_bits(kids, window, buffers, &mut planes, want, depth);
    Found {
        bits: window_planes::above(&planes, need - 1, want),
        next,
    }
}

// The wanted documents that some child matches.
#[cycle(any_bits_boolean_bits_child_bits_counted_bits_excluded_bits_node_bits_optional_bits_phrase_bits_required_bits)]
fn any_bits(
    kids: &mut [u32],
    window: &Window<'_>,
    buffers: &mut PhraseBuffers<'_>,
    want: u64,
    depth: u32,
) -> Found
    requires { PartsBitsPre (lists_of window.now.reader) (room buffers.old) (other_room buffers.old)
        kids.old window.now.base want depth }
    ensures any_post { AnyPost (lists_of window.now.reader) (room buffers.old)
        (other_room buffers.old) kids.old window.now.base want depth result.bits result.next
        kids.new }
    ensures same_buffers { SameBuffers buffers.old buffers.new }
{
    let mut w = 0;
    let mut next = NO_MORE_DOCS;
    let mut at = 0;
    // Kept: parts differ in length and are lent for writing, so an iterator would hold `kids` and `at` itself.
    while at < kids.len() {
        let k = child_at(kids, at);
        let end = k.end;
        w = bits::either(
            w,
            child_bits(&mut kids[at..end], window, buffers, want, depth),
        );
        next = next.min(kids[at + WINDOW_NEXT]); // the first that any of them may match
        at = end;
    }
    Found { bits: w, next }
}

// Counts in bit planes how many children match each wanted document; gives a document before which none matches behind
// the window.
#[cycle(any_bits_boolean_bits_child_bits_counted_bits_excluded_bits_node_bits_optional_bits_phrase_bits_required_bits)]
fn counted_bits(
    kids: &mut [u32],
    window: &Window<'_>,
    buffers: &mut PhraseBuffers<'_>,
    planes: &mut [u64],
    want: u64,
    depth: u32,
) -> u32
    requires empty { (length planes.old ≡ 8) × ((p : ℕ) → count p planes.old ≡ 0) }
    requires parts_pre { PartsBitsPre (lists_of window.now.reader) (room buffers.old)
        (other_room buffers.old) kids.old window.now.base want depth }
    ensures count_post { CountPost (lists_of window.now.reader) (room buffers.old)
        (other_room buffers.old) kids.old window.now.base want depth (λ p. count p planes.new)
        result kids.new }
    ensures same_buffers { SameBuffers buffers.old buffers.new }
    ensures planes_length { length planes.new ≡ 8 }
{
    let mut next = NO_MORE_DOCS;
    let mut at = 0;
    // Kept: parts differ in length and are lent for writing, so an iterator would hold `kids` and `at` itself.
    while at < kids.len() {
        let k = child_at(kids, at);
        let end = k.end;
        let child = child_bits(&mut kids[at..end], window, buffers, want, depth);
        let _carry = window_planes::counted(planes, child);
        next = next.min(kids[at + WINDOW_NEXT]);
        at = end;
    }
    next
}

// The wanted documents that no prohibited child matches.
#[cycle(any_bits_boolean_bits_child_bits_counted_bits_excluded_bits_node_bits_optional_bits_phrase_bits_required_bits)]
fn excluded_bits(
    kids: &mut [u32],
    window: &Window<'_>,
    buffers: &mut PhraseBuffers<'_>,
    want: u64,
    depth: u32,
) -> u64
    requires { PartsBitsPre (lists_of window.now.reader) (room buffers.old) (other_room buffers.old)
        kids.old window.now.base want depth }
    ensures excluded_post { ExcludedPost (lists_of window.now.reader) (room buffers.old)
        (other_room buffers.old) kids.old window.now.base want depth result kids.new }
    ensures same_buffers { SameBuffers buffers.old buffers.new }
{
    let mut w = want;
    let mut at = 0;
    // Kept: parts differ in length and are lent for writing, so an iterator would hold `kids` and `at` itself.
    while at < kids.len() {
        if w == 0 {
            return w;
        }
        let k = child_at(kids, at);
        let end = k.end;
        w = bits::without(w, child_bits(&mut kids[at..end], window, buffers, w, depth));
        at = end;
    }
    w
}
