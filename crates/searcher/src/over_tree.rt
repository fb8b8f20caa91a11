// The tree of an order in the node states, lent to a walk with all that the walk reads.
ghost use Rattle.std.specs.Prelude.{◌≡◌, length, min};
ghost use Rattle.index.specs.IndexOf.{index_of};
ghost use Rattle.tree_weight.specs.Measured.{AcceptedOrder};
ghost use Rattle.score_inverses.specs.Inverses.{FieldTables};
ghost use Rattle.scorer_leaf.specs.Buffers.{SameBuffers as SamePhrases};
ghost use Rattle.searcher.specs.WalkLent.{WalkLent, PartsLent, TreeFits, Walked};

use crate::buffers::Buffers;
use crate::reader::reader_of;
use crate::tables::over_inverses;
use index::lent::Lent;
use scorer_leaf::{LeafReader, PhraseBuffers};
use tree_weight::layout::SIZE;

// The reader and the phrase buffers, made of slices.
// Kept: slices and no `Buffers`: over the index and a field's slice of `Buffers` the reader has two lifetimes, which
// the borrow checker does not cover.
fn over_reader<R, F: FnMut(&mut [u32], &LeafReader<'_>, &mut PhraseBuffers<'_>) -> R>(
    lent: &Lent,
    inverses: &[f32],
    tree: &mut [u32],
    starts: &mut [i32],
    other_starts: &mut [i32],
    ranges: &[u32],
    f: &mut F,
) -> R
    requires callable { (t : _) (r : _) (b : _)
        → WalkLent lent.now inverses.now ranges.now (min (length starts.old) (length other_starts.old)) tree.old
        t.now r.now b.now → F.pre f.old t r b }
    requires same { (t : _) (r : _) (b : _) (answer : _) (t' : _) (b' : _) (g : _)
        → F.step f.old t r b answer t' b' g → SamePhrases b.now b'.now }
    ensures { (t : _) × (r : _) × (b : _) × (t' : _) × (b' : _)
        × WalkLent lent.now inverses.now ranges.now (min (length starts.old) (length other_starts.old)) tree.old
        t.now r.now b.now × (t'.now ≡ tree.new) × F.step f.old t r b result t' b' f.new }
{
    let reader = reader_of(lent, inverses, ranges);
    let mut buffers = PhraseBuffers {
        starts,
        other_starts,
    };
    f(tree, &reader, &mut buffers)
}

// The parts of the work buffers: the words that the tree takes, the phrase buffers, and the documents of the ranges.
fn over_parts<R, F: FnMut(&mut [u32], &LeafReader<'_>, &mut PhraseBuffers<'_>) -> R>(
    lent: &Lent,
    inverses: &[f32],
    buffers: &mut Buffers<'_>,
    f: &mut F,
) -> R
    requires tree { TreeFits buffers.old }
    requires callable { (t : _) (r : _) (b : _)
        → PartsLent lent.now inverses.now buffers.old t.now r.now b.now → F.pre f.old t r b }
    requires same { (t : _) (r : _) (b : _) (answer : _) (t' : _) (b' : _) (g : _)
        → F.step f.old t r b answer t' b' g → SamePhrases b.now b'.now }
    ensures { (t : _) × (r : _) × (b : _) × (t' : _) × (b' : _)
        × PartsLent lent.now inverses.now buffers.old t.now r.now b.now
        × Walked buffers.old buffers.new t'.now × F.step f.old t r b result t' b' f.new }
{
    let size = buffers.states[SIZE] as usize;
    let ranges = &mut *buffers.ranges;
    over_reader(
        lent,
        inverses,
        &mut buffers.states[..size],
        buffers.starts,
        buffers.other_starts,
        ranges,
        f,
    )
}

// The same over the inverses that the order needs.
pub(crate) fn over_tree<R, F: FnMut(&mut [u32], &LeafReader<'_>, &mut PhraseBuffers<'_>) -> R>(
    lent: &Lent,
    query: &[u32],
    buffers: &mut Buffers<'_>,
    f: &mut F,
) -> R
    requires asks { AcceptedOrder (index_of lent.now) query.now }
    requires tree { TreeFits buffers.old }
    requires callable { (table : _) (t : _) (r : _) (b : _) → FieldTables (index_of lent.now) query.now table
        → PartsLent lent.now table buffers.old t.now r.now b.now → F.pre f.old t r b }
    requires same { (t : _) (r : _) (b : _) (answer : _) (t' : _) (b' : _) (g : _)
        → F.step f.old t r b answer t' b' g → SamePhrases b.now b'.now }
    ensures { (table : _) × (t : _) × (r : _) × (b : _) × (t' : _) × (b' : _)
        × FieldTables (index_of lent.now) query.now table × PartsLent lent.now table buffers.old t.now r.now b.now
        × Walked buffers.old buffers.new t'.now × F.step f.old t r b result t' b' f.new }
{
    over_inverses(
        lent,
        query,
        &mut |inverses: &[f32]| over_parts(lent, inverses, buffers, f),
    )
}
