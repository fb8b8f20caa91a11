// The scores of a whole tree, from sums that are 0: a Boolean needs no sums of its own but at most the group's.
ghost use Rattle.scorer_leaf.specs.Buffers.{room, other_room, SameBuffers};
ghost use Rattle.window_score.specs.Asked.{reads_of, RootPre, RootPost};

use crate::{node_scores, part_scores};
use score_leaf::score_node_at;
use scorer_leaf::PhraseBuffers;
use tree_node::{NodeKind, boolean_at};
use tree_weight::NODE_STATE_WORDS;
use tree_weight::layout::KIND;
use window_leaf::Window;

// The sum at each wanted place, narrowed, is the tree's score.
pub fn root_scores(
    states: &mut [u32],
    window: &Window<'_>,
    buffers: &mut PhraseBuffers<'_>,
    want: u64,
    sums: &mut [f64],
    depth: u32,
)
    requires { RootPre states.old (reads_of window.now) (room buffers.old) (other_room buffers.old)
        want sums.old depth }
    ensures root_post { RootPost states.old (reads_of window.now) (room buffers.old)
        (other_room buffers.old) want sums.old depth states.new sums.new }
    ensures same_buffers { SameBuffers buffers.old buffers.new }
{
    if let NodeKind::Boolean = NodeKind::from(states[KIND]) {
        let constant = score_node_at(states).constant_score().is_some();
        if !constant {
            let n = boolean_at(states);
            part_scores(
                &mut states[NODE_STATE_WORDS..],
                n,
                window,
                buffers,
                want,
                sums,
                depth - 1,
            );
            return;
        }
    }
    node_scores(states, window, buffers, want, sums, depth);
}
