// A Boolean of one child at the root, as while one word is typed: its matches and their scores are the child's.
ghost use Rattle.std.specs.Prelude.{◌≡◌, true};
ghost use Rattle.bulk.specs.Alone.{AloneWords};

use score_leaf::score_node_at;
use tree_node::{NodeKind, boolean_at};
use tree_weight::NODE_STATE_WORDS;
use tree_weight::layout::{KIND, SCORES};

// The child's scores word.
// Kept: `child_at` asks that a record of the length it says stands there, which would be one test more here.
const CHILD_SCORES: usize = NODE_STATE_WORDS + SCORES;

// Whether the words are such a Boolean without a constant score, its child one record: required and scoring, or
// optional and needed.
pub fn alone(states: &[u32]) -> bool
    ensures { result ≡ true → AloneWords states.now }
{
    if states.len() != 2 * NODE_STATE_WORDS {
        return false;
    }
    if NodeKind::from(states[KIND]) != NodeKind::Boolean {
        return false;
    }
    if score_node_at(states).constant != 0 {
        return false;
    }
    let root = boolean_at(states);
    if root.optional_end != NODE_STATE_WORDS {
        return false;
    }
    if root.required_end == 0 {
        return root.need == 1;
    }
    if root.need != 0 {
        return false;
    }
    states[CHILD_SCORES] == 1
}
