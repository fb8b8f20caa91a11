// The scores of a window's documents: node by node, each adds its scores to the sums of the wanted documents, in the
// order of the parts or in one that gives the same sums.
#![tactic(auto)]

ghost use Rattle.std.specs.Prelude.{◌≡◌, ◌≤◌, length, get_or};
ghost use Rattle.meaning.specs.Limits.{node_state_words};
ghost use Rattle.tree_weight.specs.declared.layout.TheConstants.{WINDOW_LOW, WINDOW_HIGH};
ghost use Rattle.window_words.specs.Windowed.{two_words};
ghost use Rattle.scorer_leaf.specs.Calls.{lists_of};
ghost use Rattle.scorer_leaf.specs.Buffers.{room, other_room, SameBuffers};
ghost use Rattle.window_leaf.specs.Asks.{BitsPre, BitsPost};
ghost use Rattle.window_score.specs.Words.{StoredAre};
ghost use Rattle.window_score.specs.Asked.{reads_of, ScoresPre, ScoresPost, RequiredScoresPre, RequiredScoresPost, OptionalScoresPre, OptionalScoresPost, BooleanScoresPre, BooleanScoresPost, RootPartsPre, RootPartsPost, RootGroupPre, RootGroupPost, only_child, SharedPre};

use score_leaf::score_node_at;
use scorer_leaf::PhraseBuffers;
use sums::{add_constant, add_narrowed, join_after, narrow_sums};
use tree_node::{Boolean, NodeKind, boolean_at, child_at};
use tree_weight::NODE_STATE_WORDS;
use tree_weight::layout::{KIND, WINDOW_HIGH, WINDOW_LOW};
use window_bits::child_bits;
use window_leaf::Window;

pub mod leaf;
pub mod root;
pub mod sums;

// The documents of the window that a child matches, as its record has them.
fn stored_bits(states: &[u32]) -> u64
    requires { node_state_words ≤ length states.now }
    ensures { result ≡ two_words (get_or states.now WINDOW_LOW 0) (get_or states.now WINDOW_HIGH 0) }
{
    bits::joined(states[WINDOW_LOW], states[WINDOW_HIGH])
}

// Which of the wanted documents an optional child matches: its record has them, or where none is needed it is asked
// now.
// Kept: no plainer as one struct of the two, here and below: of them only `buffers` is lent for writing; with the
// window in it, each clause would also say that it stays.
fn optional_child_bits(
    states: &mut [u32],
    need: u32,
    window: &Window<'_>,
    buffers: &mut PhraseBuffers<'_>,
    want: u64,
    depth: u32,
) -> u64
    requires long { node_state_words ≤ length states.old }
    requires unneeded { need ≡ 0
        → BitsPre (lists_of window.now.reader) (room buffers.old) (other_room buffers.old) states.old
        window.now.base want depth }
    ensures unneeded { need ≡ 0
        → BitsPost (lists_of window.now.reader) (room buffers.old) (other_room buffers.old)
        states.old window.now.base want depth result states.new }
    ensures needed { (need ≡ 0 → ⊥) → StoredAre states.old want result states.new }
    ensures same_buffers { SameBuffers buffers.old buffers.new }
{
    if need == 0 {
        return child_bits(states, window, buffers, want, depth);
    }
    bits::both(want, stored_bits(states))
}

// The node's score is added to the sum of each wanted document, all of which it matches.
#[cycle(boolean_scores_group_scores_node_scores_optional_scores_part_scores_required_scores_separate_scores_shared_scores)]
pub fn node_scores(
    states: &mut [u32],
    window: &Window<'_>,
    buffers: &mut PhraseBuffers<'_>,
    want: u64,
    sums: &mut [f64],
    depth: u32,
)
    requires { ScoresPre states.old (reads_of window.now) (room buffers.old)
        (other_room buffers.old) want sums.old depth }
    ensures scores_post { ScoresPost states.old (reads_of window.now) (room buffers.old)
        (other_room buffers.old) want sums.old depth states.new sums.new }
    ensures same_buffers { SameBuffers buffers.old buffers.new }
{
    if let Some(score) = score_node_at(states).constant_score() {
        add_constant(score, want, sums);
        return;
    }
    match NodeKind::from(states[KIND]) {
        NodeKind::Term => {
            leaf::term_scores(states, window, want, sums);
        }
        NodeKind::Phrase => {
            leaf::phrase_scores(states, window, buffers, want, sums);
        }
        NodeKind::Boolean => {
            let n = boolean_at(states);
            boolean_scores(
                &mut states[NODE_STATE_WORDS..],
                n,
                window,
                buffers,
                want,
                sums,
                depth - 1,
            );
        }
        _ => add_constant(0.0, want, sums),
    }
}

// Whether the parts are of one child at most: its score is an f32, so narrowing a sum of it alone would change nothing.
fn is_only_child(parts: &[u32]) -> bool
    ensures { result ≡ only_child parts.now }
{
    parts.get(1).copied().unwrap_or(0) as usize == parts.len()
}

// A Boolean has sums of its own, which are narrowed and added to its parent's. With no optional children, an only
// required child's score joins the parent's sums as it is.
// Kept: seven parameters: `window_bits` takes `window` and `buffers` apart, and `want` and `sums` change from call to
// call, each by itself.
#[cycle(boolean_scores_group_scores_node_scores_optional_scores_part_scores_required_scores_separate_scores_shared_scores)]
fn boolean_scores(
    kids: &mut [u32],
    n: Boolean,
    window: &Window<'_>,
    buffers: &mut PhraseBuffers<'_>,
    want: u64,
    sums: &mut [f64],
    depth: u32,
)
    requires { BooleanScoresPre kids.old n (reads_of window.now) (room buffers.old)
        (other_room buffers.old) want sums.old depth }
    ensures boolean_post { BooleanScoresPost kids.old n (reads_of window.now) (room buffers.old)
        (other_room buffers.old) want sums.old depth kids.new sums.new }
    ensures same_buffers { SameBuffers buffers.old buffers.new }
{
    let end = n.required_end;
    if (end == n.optional_end) & is_only_child(&kids[..end]) {
        required_scores(&mut kids[..end], window, buffers, want, sums, depth);
        return;
    }
    let mut own = [0.0f64; 64];
    part_scores(kids, n, window, buffers, want, &mut own, depth);
    add_narrowed(&own, want, sums);
}

// A Boolean's children, into sums that are 0, and into no others where that can be. Inlined at both calls, as is
// `separate_scores`: one call more for each Boolean of a window costs a deep tree a twentieth.
// Kept: seven parameters, as in `boolean_scores`.
#[inline(always)]
#[cycle(boolean_scores_group_scores_node_scores_optional_scores_part_scores_required_scores_separate_scores_shared_scores)]
fn part_scores(
    kids: &mut [u32],
    n: Boolean,
    window: &Window<'_>,
    buffers: &mut PhraseBuffers<'_>,
    want: u64,
    sums: &mut [f64],
    depth: u32,
)
    requires { RootPartsPre kids.old n (reads_of window.now) (room buffers.old)
        (other_room buffers.old) want sums.old depth }
    ensures root_parts_post { RootPartsPost kids.old n (reads_of window.now) (room buffers.old)
        (other_room buffers.old) want sums.old depth kids.new sums.new }
    ensures same_buffers { SameBuffers buffers.old buffers.new }
{
    let end = n.required_end;
    let optional_end = n.optional_end;
    if end == optional_end {
        required_scores(&mut kids[..end], window, buffers, want, sums, depth);
        return;
    }
    if end == 0 {
        optional_scores(
            &mut kids[end..optional_end],
            n.need,
            window,
            buffers,
            want,
            sums,
            depth,
        );
        return;
    }
    if n.afterwards & (is_only_child(&kids[..end]) | is_only_child(&kids[end..optional_end])) {
        shared_scores(
            &mut kids[..optional_end],
            n,
            window,
            buffers,
            want,
            sums,
            depth,
        );
        return;
    }
    separate_scores(kids, n, window, buffers, want, sums, depth);
}

// Required children and a group that has sums of its own, into sums that are 0.
// Kept: seven parameters, as in `boolean_scores`.
#[inline(always)]
#[cycle(boolean_scores_group_scores_node_scores_optional_scores_part_scores_required_scores_separate_scores_shared_scores)]
fn separate_scores(
    kids: &mut [u32],
    n: Boolean,
    window: &Window<'_>,
    buffers: &mut PhraseBuffers<'_>,
    want: u64,
    sums: &mut [f64],
    depth: u32,
)
    requires { RootPartsPre kids.old n (reads_of window.now) (room buffers.old)
        (other_room buffers.old) want sums.old depth }
    ensures root_parts_post { RootPartsPost kids.old n (reads_of window.now) (room buffers.old)
        (other_room buffers.old) want sums.old depth kids.new sums.new }
    ensures same_buffers { SameBuffers buffers.old buffers.new }
{
    let end = n.required_end;
    let optional_end = n.optional_end;
    let mut group = [0.0f64; 64];
    optional_scores(
        &mut kids[end..optional_end],
        n.need,
        window,
        buffers,
        want,
        &mut group,
        depth,
    );
    group_scores(
        &mut kids[..end],
        n,
        &group,
        window,
        buffers,
        want,
        sums,
        depth,
    );
}

// Required children and a group that joins after them, one of the two an only child, into sums that are 0: the sum of
// the other is narrowed first, and the only child's score is added to it.
// Kept: seven parameters, as in `boolean_scores`.
#[cycle(boolean_scores_group_scores_node_scores_optional_scores_part_scores_required_scores_separate_scores_shared_scores)]
fn shared_scores(
    kids: &mut [u32],
    n: Boolean,
    window: &Window<'_>,
    buffers: &mut PhraseBuffers<'_>,
    want: u64,
    sums: &mut [f64],
    depth: u32,
)
    requires parts { RootPartsPre kids.old n (reads_of window.now) (room buffers.old)
        (other_room buffers.old) want sums.old depth }
    requires only_child { SharedPre kids.old n }
    ensures root_parts_post { RootPartsPost kids.old n (reads_of window.now) (room buffers.old)
        (other_room buffers.old) want sums.old depth kids.new sums.new }
    ensures same_buffers { SameBuffers buffers.old buffers.new }
{
    let end = n.required_end;
    if is_only_child(&kids[end..]) {
        let only = is_only_child(&kids[..end]);
        required_scores(&mut kids[..end], window, buffers, want, sums, depth);
        narrow_sums(only, want, sums);
        optional_scores(&mut kids[end..], n.need, window, buffers, want, sums, depth);
        return;
    }
    optional_scores(&mut kids[end..], n.need, window, buffers, want, sums, depth);
    narrow_sums(false, want, sums);
    required_scores(&mut kids[..end], window, buffers, want, sums, depth);
}

// The required children, into sums that are 0; the group, whose sums are given, joins as one more summand, or after
// their sums are narrowed.
// Kept: eight parameters, as in `boolean_scores`, and the group's sums.
#[cycle(boolean_scores_group_scores_node_scores_optional_scores_part_scores_required_scores_separate_scores_shared_scores)]
fn group_scores(
    kids: &mut [u32],
    n: Boolean,
    group: &[f64],
    window: &Window<'_>,
    buffers: &mut PhraseBuffers<'_>,
    want: u64,
    sums: &mut [f64],
    depth: u32,
)
    requires { RootGroupPre kids.old n group.now (reads_of window.now) (room buffers.old)
        (other_room buffers.old) want sums.old depth }
    ensures root_group_post { RootGroupPost kids.old n group.now (reads_of window.now)
        (room buffers.old) (other_room buffers.old) want sums.old depth kids.new sums.new }
    ensures same_buffers { SameBuffers buffers.old buffers.new }
{
    if n.afterwards {
        required_scores(kids, window, buffers, want, sums, depth);
        join_after(group, want, sums);
        return;
    }
    let at = n.group_at;
    required_scores(&mut kids[..at], window, buffers, want, sums, depth);
    add_narrowed(group, want, sums);
    required_scores(&mut kids[at..], window, buffers, want, sums, depth);
}

// The scores of the Must children, in the order of their parts.
#[cycle(boolean_scores_group_scores_node_scores_optional_scores_part_scores_required_scores_separate_scores_shared_scores)]
fn required_scores(
    kids: &mut [u32],
    window: &Window<'_>,
    buffers: &mut PhraseBuffers<'_>,
    want: u64,
    sums: &mut [f64],
    depth: u32,
)
    requires { RequiredScoresPre kids.old (reads_of window.now) (room buffers.old)
        (other_room buffers.old) want sums.old depth }
    ensures required_post { RequiredScoresPost kids.old (reads_of window.now) (room buffers.old)
        (other_room buffers.old) want sums.old depth kids.new sums.new }
    ensures same_buffers { SameBuffers buffers.old buffers.new }
{
    let mut at = 0;
    // Kept: parts differ in length and are lent for writing, so an iterator would hold `kids` and `at` itself.
    while at < kids.len() {
        let k = child_at(kids, at);
        let end = k.end;
        if k.scores {
            match k.kind {
                NodeKind::Term => {
                    leaf::term_scores(&kids[at..end], window, want, sums);
                }
                _ => {
                    node_scores(&mut kids[at..end], window, buffers, want, sums, depth);
                }
            }
        }
        at = end;
    }
}

// The scores of the optional children at the wanted documents that they match; where none is needed they are asked now.
// Kept: seven parameters, as in `boolean_scores`.
#[cycle(boolean_scores_group_scores_node_scores_optional_scores_part_scores_required_scores_separate_scores_shared_scores)]
fn optional_scores(
    kids: &mut [u32],
    need: u32,
    window: &Window<'_>,
    buffers: &mut PhraseBuffers<'_>,
    want: u64,
    sums: &mut [f64],
    depth: u32,
)
    requires { OptionalScoresPre kids.old need (reads_of window.now) (room buffers.old)
        (other_room buffers.old) want sums.old depth }
    ensures optional_post { OptionalScoresPost kids.old need (reads_of window.now) (room buffers.old)
        (other_room buffers.old) want sums.old depth kids.new sums.new }
    ensures same_buffers { SameBuffers buffers.old buffers.new }
{
    let mut at = 0;
    // Kept: parts differ in length and are lent for writing, so an iterator would hold `kids` and `at` itself.
    while at < kids.len() {
        let k = child_at(kids, at);
        let end = k.end;
        let x = optional_child_bits(&mut kids[at..end], need, window, buffers, want, depth);
        if x != 0 {
            match k.kind {
                NodeKind::Term => {
                    leaf::term_scores(&kids[at..end], window, x, sums);
                }
                _ => {
                    node_scores(&mut kids[at..end], window, buffers, x, sums, depth);
                }
            }
        }
        at = end;
    }
}
