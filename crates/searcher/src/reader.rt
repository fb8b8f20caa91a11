// What a walk reads.
ghost use Rattle.searcher.specs.WalkLent.{ReadsIndex};

use index::lent::Lent;
use scorer_leaf::LeafReader;

// The reader of an index for an order: its slices, with the order's inverse norms and the bitmaps of its ranges.
pub(crate) fn reader_of<'a>(
    lent: &Lent<'a>,
    inverses: &'a [f32],
    ranges: &'a [u32],
) -> LeafReader<'a>
    ensures { ReadsIndex lent.now inverses.now ranges.now result }
{
    LeafReader {
        max_doc: lent.max_doc,
        postings: lent.postings,
        positions: lent.positions,
        norms: lent.norms,
        inverses,
        ranges,
        live: lent.live,
    }
}
