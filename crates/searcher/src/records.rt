// Node states as records: a call on their words.
ghost use Rattle.std.specs.Prelude.{◌≡◌, ◌≤◌, ◌*◌, length};
ghost use Rattle.meaning.specs.Limits.{node_state_words};
ghost use Rattle.tree_records.specs.Records.{held};
ghost use Rattle.searcher.specs.Answers.{used};
ghost use Rattle.searcher.specs.WorkBuffers.{SameWorkBuffers, Holds, WordsLent, ReadBack};

use crate::buffers::Buffers;
use crate::used;
use refusal::Refusal;
use tree_records::NodeState;
use tree_weight::NODE_STATE_WORDS;

// A call on buffers of these four slices.
fn in_buffers<T, F: FnMut(&mut Buffers<'_>) -> T>(
    states: &mut [u32],
    starts: &mut [i32],
    other_starts: &mut [i32],
    ranges: &mut [u32],
    f: &mut F,
) -> T
    requires callable { (b : _) → Holds states.old starts.old other_starts.old ranges.old b.now → F.pre f.old b }
    requires same { (b : _) (answer : _) (after : _) (g : _) → F.step f.old b answer after g
        → SameWorkBuffers b.now after.now }
    ensures { (b : _) × (after : _) × Holds states.old starts.old other_starts.old ranges.old b.now
        × Holds states.new starts.new other_starts.new ranges.new after.now × F.step f.old b result after f.new }
{
    let mut buffers = Buffers {
        states,
        starts,
        other_starts,
        ranges,
    };
    f(&mut buffers)
}

// A call on the words of the records; the records that it used are read from the words again.
pub fn over_records<T, F: FnMut(&mut Buffers<'_>) -> Result<T, Refusal>>(
    words: &mut [u32],
    buffers: &mut Buffers<'_, NodeState>,
    f: &mut F,
) -> Result<T, Refusal>
    requires long { node_state_words * held (length buffers.old.states.now) ≤ length words.old }
    requires callable { (b : _) → WordsLent words.old buffers.old b.now → F.pre f.old b }
    requires same { (b : _) (answer : _) (after : _) (g : _) → F.step f.old b answer after g
        → SameWorkBuffers b.now after.now }
    ensures called { (b : _) × (after : _) × WordsLent words.old buffers.old b.now
        × F.step f.old b result after f.new × ReadBack words.old buffers.old buffers.new after.now
        (used result (held (length buffers.old.states.now))) }
    ensures same_buffers { SameWorkBuffers buffers.old buffers.new }
{
    let n = tree_records::held(buffers.states.len());
    let answer = in_buffers(
        &mut words[..NODE_STATE_WORDS * n],
        buffers.starts,
        buffers.other_starts,
        buffers.ranges,
        f,
    );
    let m = used(&answer, n);
    tree_records::pack(words, m, buffers.states);
    answer
}
