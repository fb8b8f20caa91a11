// The refusals 7 to 10 of a query beside an index.
#![tactic(auto)]

pub mod boosts;
pub mod buffers;
pub mod positions;
pub mod values;

ghost use Rattle.std.specs.Prelude.{◌≡◌};
ghost use Rattle.index.specs.IndexOf.{index_of};
ghost use Rattle.check_query.specs.Refusal.{query_refusal};
ghost use Rattle.refusal.specs.Numbers.{refusal_of};

use index::lent::Lent;
use refusal::Refusal;

// The first of the refusals 7 to 10 whose condition holds: each pass goes over the whole query before the next.
// Kept: no plainer: `lent, query` as the entries have them, as in `check_order`.
pub fn check_query(lent: &Lent, query: &[u32]) -> Result<(), Refusal>
    ensures { refusal_of result ≡ query_refusal (index_of lent.now) query.now }
{
    if query::shape::wrong_records(query) {
        return Err(Refusal::Records);
    }
    if values::wrong_values(lent, query) {
        return Err(Refusal::Values);
    }
    if boosts::wrong_boost(query) {
        return Err(Refusal::Boosts);
    }
    if positions::wrong_positions(lent, query) {
        return Err(Refusal::Positions);
    }
    Ok(())
}
