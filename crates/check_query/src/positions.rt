// 10: phrases in fields without positions.
ghost use Rattle.std.specs.Prelude.{◌≡◌, ◌<◌, eqb, not, ◌&&◌};
ghost use Rattle.meaning.specs.Lent.{field_count, has_positions};
ghost use Rattle.meaning.specs.Query.{record_count, record_kind, record_value};
ghost use Rattle.meaning.specs.QueryRefusals.{wrong10};
ghost use Rattle.index.specs.IndexOf.{index_of};
ghost use Rattle.query.specs.Read.{PhraseFields};

use index::fields::field_at;
use index::lent::Lent;
use query::{Kind, kind_at, record_count, value};

// A phrase in a field without positions, at `at`.
// Kept: no plainer, here and below: `query, at` as in `query`, whose definitions take them so.
fn without_positions(lent: &Lent, query: &[u32], at: usize) -> bool
    requires { (at < record_count query.now)
        × (record_kind query.now at ≡ 2 → record_value query.now at 0 < field_count (index_of lent.now)) }
    ensures { result ≡ (eqb (record_kind query.now at) 2
        && not (has_positions (index_of lent.now) (record_value query.now at 0))) }
{
    kind_at(query, at) == Some(Kind::Phrase)
        && !field_at(lent.fields, value(query, at, 0) as usize).has_positions()
}

// 10: a phrase in a field without positions.
pub fn wrong_positions(lent: &Lent, query: &[u32]) -> bool
    requires { PhraseFields (index_of lent.now) query.now }
    ensures { result ≡ wrong10 (index_of lent.now) query.now }
{
    (0..record_count(query)).any(|at| without_positions(lent, query, at))
}
