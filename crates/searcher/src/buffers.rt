// The work buffers that a caller lends to Search and Page.
ghost use Rattle.std.specs.Prelude.{◌≡◌, false};
ghost use Rattle.meaning.specs.CallRefusals.{work_short};
ghost use Rattle.meaning.specs.Limits.{max_depth};
ghost use Rattle.index.specs.IndexOf.{index_of};
ghost use Rattle.tree_weight.specs.Measured.{AcceptedOrder};
ghost use Rattle.tree_words.specs.Placed.{Placed};
ghost use Rattle.tree_records.specs.Standing.{order_tree};
ghost use Rattle.check_order.specs.WorkOf.{work_of};
ghost use Rattle.searcher.specs.WorkBuffers.{lengths_of, SameWorkBuffers};

use check_order::Work;
use index::lent::Lent;

// Node states, as words or as records, two phrase buffers and the range buffer.
#[derive(Drop)]
pub struct Buffers<'a, S = u32> {
    pub states: &'a mut [S],
    pub starts: &'a mut [i32],
    pub other_starts: &'a mut [i32],
    pub ranges: &'a mut [u32],
}

impl Buffers<'_> {
    pub fn lengths(&self) -> Work
        ensures { work_of result ≡ lengths_of self.now }
    {
        Work {
            states: self.states.len(),
            starts: self.starts.len(),
            other_starts: self.other_starts.len(),
            ranges: self.ranges.len(),
        }
    }
}

// The tree of an order that is not refused, in the first words of the node states; how many words it takes.
// Kept: no plainer: `lent, query` as the entries have them: a struct of the two with a ghost field for `AcceptedOrder` would be
// made in each entry, only to be taken apart in the five functions that ask it.
pub(crate) fn build_tree(lent: &Lent, query: &[u32], buffers: &mut Buffers<'_>) -> usize
    requires { AcceptedOrder (index_of lent.now) query.now
        × (work_short (index_of lent.now) query.now (lengths_of buffers.old) ≡ false) }
    ensures placed { Placed (index_of lent.now) buffers.new.ranges.now (order_tree (index_of lent.now) query.now)
        max_depth 0 result buffers.new.states.now }
    ensures same_buffers { SameWorkBuffers buffers.old buffers.new }
{
    tree_build::build(lent, query, buffers.states, buffers.ranges)
}
