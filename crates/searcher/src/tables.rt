// The inverses of an order's fields.
ghost use Rattle.index.specs.IndexOf.{index_of};
ghost use Rattle.tree_weight.specs.Measured.{AcceptedOrder};
ghost use Rattle.score_inverses.specs.Inverses.{FieldTables};

use index::fields::{FIELD_WORDS, MAX_FIELDS};
use index::lent::Lent;
use sim::bm25::INVERSES;

// One field's table has 256 places; only an index of more fields pays for a table of all 16.
pub(crate) fn over_inverses<R, F: FnMut(&[f32]) -> R>(lent: &Lent, query: &[u32], f: &mut F) -> R
    requires asks { AcceptedOrder (index_of lent.now) query.now }
    requires callable { (table : _) → FieldTables (index_of lent.now) query.now table.now → F.pre f.old table }
    ensures { (table : _) × FieldTables (index_of lent.now) query.now table.now × F.step f.old table result f.new }
{
    if lent.fields.len() <= FIELD_WORDS {
        let bm25 = score_inverses::first_inverses(lent);
        return f(&bm25.cache);
    }
    let mut inverses: [f32; MAX_FIELDS * INVERSES] = [0.0; MAX_FIELDS * INVERSES];
    score_inverses::fill_inverses(lent, query, &mut inverses);
    f(&inverses)
}
