// 8: what a record names is there, and its values are within their limits.
ghost use Rattle.std.specs.Prelude.{◌≡◌, false, ◌||◌, ltb, ◌+◌, ◌≤◌, ◌<◌};
ghost use Rattle.meaning.specs.Below.{any_below};
ghost use Rattle.meaning.specs.Limits.{largest_boost};
ghost use Rattle.meaning.specs.Query.{record_count, record_kind, record_children, record_value, kind_of, a_term, a_phrase, a_range, a_phrase_term};
ghost use Rattle.meaning.specs.QueryRefusals.{wrong7, wrong8, unused_from, other_field, wrong_kind, wrong_values};
ghost use Rattle.index.specs.IndexOf.{index_of};

use index::columns::wrong_range;
use index::fields::field_count;
use index::leaves::{leaf_count, leaf_field};
use index::lent::Lent;
use index::postings::NO_MORE_DOCS;
use query::{Kind, LARGEST_BOOST, VALUES, children, kind_at, range_at, record_count, value};

// One of the record's six values from the v-th on is not 0.
// Kept: no plainer, here and below: `query, at` as in `query`, whose definitions take them so.
fn unused_from(query: &[u32], at: usize, v: usize) -> bool
    requires { at < record_count query.now }
    ensures { result ≡ unused_from query.now at v }
{
    (v..VALUES).any(|j| value(query, at, j) != 0)
}

#[tactic(auto, unfolding(meaning::specs::QueryRefusals::wrong_kind))]
fn wrong_term(lent: &Lent, query: &[u32], at: usize) -> bool
    requires { at < record_count query.now }
    ensures { result ≡ wrong_kind (index_of lent.now) query.now at a_term }
{
    leaf_count(lent.leaves) <= value(query, at, 0) as usize || unused_from(query, at, 1)
}

// Some term of the phrase at `at` names a leaf of another field.
fn other_field(lent: &Lent, query: &[u32], at: usize) -> bool
    requires { (at < record_count query.now)
        × (at + 1 + record_children query.now at ≤ record_count query.now) }
    ensures { result ≡ any_below (record_children query.now at)
        (other_field (index_of lent.now) query.now at) }
{
    let field = value(query, at, 0);
    let first = at + 1;
    (first..first + children(query, at) as usize).any(|term| leaf_field(
        lent.leaves,
        value(query, term, 0),
    ) != field)
}

#[tactic(auto, unfolding(meaning::specs::QueryRefusals::wrong_kind))]
fn wrong_phrase(lent: &Lent, query: &[u32], at: usize) -> bool
    requires { (at < record_count query.now)
        × (at + 1 + record_children query.now at ≤ record_count query.now) }
    ensures { result ≡ wrong_kind (index_of lent.now) query.now at a_phrase }
{
    field_count(lent.fields) <= value(query, at, 0) as usize
        || unused_from(query, at, 1)
        || other_field(lent, query, at)
}

fn wrong_range_record(lent: &Lent, query: &[u32], at: usize) -> bool
    requires { at < record_count query.now }
    ensures { result ≡ wrong_kind (index_of lent.now) query.now at a_range }
{
    wrong_range(lent.columns, range_at(query, at))
}

fn wrong_boost_value(query: &[u32], at: usize) -> bool
    requires { at < record_count query.now }
    ensures { result ≡ (ltb largest_boost (record_value query.now at 0) || unused_from query.now at 1) }
{
    LARGEST_BOOST < value(query, at, 0) || unused_from(query, at, 1)
}

#[tactic(auto, unfolding(meaning::specs::QueryRefusals::wrong_kind))]
fn wrong_phrase_term(lent: &Lent, query: &[u32], at: usize) -> bool
    requires { at < record_count query.now }
    ensures { result ≡ wrong_kind (index_of lent.now) query.now at a_phrase_term }
{
    leaf_count(lent.leaves) <= value(query, at, 0) as usize
        || NO_MORE_DOCS < value(query, at, 1)
        || unused_from(query, at, 2)
}

// 8, in the record at `at`.
fn wrong_record(lent: &Lent, query: &[u32], at: usize) -> bool
    requires { (at < record_count query.now)
        × (record_kind query.now at ≡ 2 → at + 1 + record_children query.now at ≤ record_count query.now) }
    ensures { result ≡ wrong_values (index_of lent.now) query.now at (kind_of (record_kind query.now at)) }
{
    let Some(kind) = kind_at(query, at) else {
        return false;
    };
    match kind {
        Kind::Term => wrong_term(lent, query, at),
        Kind::Phrase => wrong_phrase(lent, query, at),
        Kind::Boolean => unused_from(query, at, 1),
        Kind::Range => wrong_range_record(lent, query, at),
        Kind::MatchAll | Kind::ConstantScore | Kind::MatchNone => unused_from(query, at, 0),
        Kind::Boost => wrong_boost_value(query, at),
        Kind::PhraseTerm => wrong_phrase_term(lent, query, at),
    }
}

// 8: a leaf, field or column absent, a phrase leaf of another field, or a value outside.
pub fn wrong_values(lent: &Lent, query: &[u32]) -> bool
    requires { wrong7 query.now ≡ false }
    ensures { result ≡ wrong8 (index_of lent.now) query.now }
{
    (0..record_count(query)).any(|at| wrong_record(lent, query, at))
}
