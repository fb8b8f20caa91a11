// The words of a record without trees below it: Term, Phrase, Range, MatchAll, MatchNone.
ghost use Rattle.std.specs.Prelude.{◌≡◌, is_some, List, ℕ, length};
ghost use Rattle.meaning.specs.Query.{record_kind};
ghost use Rattle.tree_words.specs.Prepared.{given_with, TreePre, TreePost};
ghost use Rattle.tree_words.specs.Placed.{kept_score};

use crate::place::{
    Passed, Records, place_everything, place_nothing, place_phrase, place_range, place_term,
};
use query::{Kind, kind_at};

// The tree at `at`, whose kind is none of Boolean, ConstantScore and Boost.
pub fn place_leaf(states: &mut [u32], records: &Records, at: usize, passed: Passed) -> usize
    requires kind { (record_kind records.now.query.now at ≡ 3 → ⊥) × (record_kind records.now.query.now at ≡ 6 → ⊥)
        × (record_kind records.now.query.now at ≡ 7 → ⊥) }
    requires asked { (nexts : List ℕ) × (costs : List ℕ) × (depth : ℕ)
        × TreePre (given_with records.now nexts costs) at (is_some passed.kept) (kept_score passed.kept) passed.boost
        (length states.old) depth }
    ensures placed { (nexts costs : List ℕ) (depth : ℕ)
        → TreePost (given_with records.now nexts costs) at (is_some passed.kept) (kept_score passed.kept) passed.boost
        (length states.old) depth passed.scores result states.new }
    ensures states_len_unchanged { length states.new ≡ length states.old }
{
    if !records.measures[at].present {
        return place_nothing(states, passed.scores);
    }
    let Some(kind) = kind_at(records.query, at) else {
        return place_nothing(states, passed.scores);
    };
    match kind {
        Kind::Term => place_term(states, records, at, passed),
        Kind::Phrase => place_phrase(states, records, at, passed),
        Kind::Range => place_range(
            states,
            records.lent.max_doc,
            records.listed[at].place,
            passed.kept.unwrap_or(passed.boost),
            passed.scores,
        ),
        Kind::MatchAll => {
            place_everything(states, passed.kept.unwrap_or(passed.boost), passed.scores)
        }
        Kind::Boolean | Kind::ConstantScore | Kind::Boost | Kind::MatchNone | Kind::PhraseTerm =>
            place_nothing(states, passed.scores),
    }
}
