// The words of a tree: its own record, then its children's parts.
ghost use Rattle.std.specs.Prelude.{◌≡◌, T, is_some, ◌&&◌, ◌++◌, ℕ, ◌^◌, ◌≤◌, ◌<◌, eqb, length, drop};
ghost use Rattle.std.specs.Float.{binary32};
ghost use Rattle.std.specs.Float.Ieee.{to_bits, fits};
ghost use Rattle.meaning.specs.Limits.{node_state_words};
ghost use Rattle.meaning.specs.Query.{record_kind};
ghost use Rattle.tree_weight.specs.Held.{largest_score};
ghost use Rattle.query.specs.Kinds.{occur_number};
ghost use Rattle.ieee754.specs.Nonneg.{AtMost};
ghost use Rattle.tree_weight.specs.State.{words_of};
ghost use Rattle.tree_words.specs.Placed.{kept_score, boolean_state};
ghost use Rattle.tree_words.specs.Prepared.{given, PlacePre, PlacePost};
ghost use Rattle.tree_build.specs.Parts.{passed_at, PlaceListPre, PlaceListPost, PlaceRequiredPre, PlaceRequiredPost, PlaceOthersPre, PlaceOthersPost};

use query::{Kind, Occur, kind_at, occur_at, value};
use tree_clauses::{clauses_of, group_cost, has_required, no_dearer, required_clauses};
use tree_node::{Boolean, NodeKind};
use tree_weight::NODE_STATE_WORDS;
use tree_words::leaf::place_leaf;
use tree_words::place::{Passed, Records, place_nothing, put};
use tree_words::state::NodeState;

// The boost that reaches a clause; a number that is no occurrence's passes 0.
fn passed_on(occurrence: Option<Occur>, boost: f32) -> f32
    ensures { result ≡ passed_at occurrence boost }
{
    match occurrence {
        Some(occurrence) => occurrence.passed_on(boost),
        None => 0.0,
    }
}

// The clauses at the records of a list, one part after the other.
#[cycle(placing)]
fn place_list(
    states: &mut [u32],
    records: &Records,
    list: &[usize],
    boost: f32,
    depth: u32,
) -> usize
    requires { PlaceListPre (given records.now) list.now boost (length states.old) depth }
    ensures list_post { PlaceListPost (given records.now) list.now boost (length states.old) depth result
        states.new }
    ensures states_len_unchanged { length states.new ≡ length states.old }
{
    let mut used = 0;
    for at in list {
        let occurrence = occur_at(records.query, *at);
        let passed = Passed {
            kept: None,
            boost: passed_on(occurrence, boost),
            scores: u32::from(occurrence == Some(Occur::Must)),
        };
        used += place(&mut states[used..], records, *at, passed, depth);
    }
    used
}

// Where the group joins, and where the required children's parts end.
#[derive(Drop)]
pub struct Required {
    pub group_at: usize,
    pub end: usize,
}

// The required clauses of the Boolean at `at`, cheapest first: those that cost no more than the group, then the others.
#[cycle(placing)]
fn place_required(
    states: &mut [u32],
    records: &Records,
    at: usize,
    boost: f32,
    depth: u32,
) -> Required
    requires { PlaceRequiredPre (given records.now) at boost (length states.old) depth }
    ensures required_post { PlaceRequiredPost (given records.now) at boost (length states.old) depth
        result.group_at result.end states.new }
    ensures states_len_unchanged { length states.new ≡ length states.old }
{
    let group = group_cost(records.query, records.measures, at);
    let mut buffer = [0; 64];
    let count = required_clauses(records.query, records.measures, at, &mut buffer);
    let list = &buffer[..count];
    let before = no_dearer(records.measures, list, group);
    let group_at = place_list(states, records, &list[..before], boost, depth);
    let rest = place_list(
        &mut states[group_at..],
        records,
        &list[before..],
        boost,
        depth,
    );
    Required {
        group_at,
        end: group_at + rest,
    }
}

// The clauses of one occurrence of the Boolean at `at`, in clause order.
#[cycle(placing)]
fn place_others(
    states: &mut [u32],
    records: &Records,
    at: usize,
    occurrence: Occur,
    boost: f32,
    depth: u32,
) -> usize
    requires { PlaceOthersPre (given records.now) at (occur_number occurrence) boost (length states.old) depth }
    ensures others_post { PlaceOthersPost (given records.now) at (occur_number occurrence) boost
        (length states.old) depth result states.new }
    ensures states_len_unchanged { length states.new ≡ length states.old }
{
    let mut buffer = [0; 64];
    let count = clauses_of(
        records.query,
        records.measures,
        at,
        Some(occurrence),
        &mut buffer,
    );
    place_list(states, records, &buffer[..count], boost, depth)
}

// Writes the record of a Boolean whose part has `size` words.
fn put_boolean(states: &mut [u32], boolean: Boolean, size: usize, passed: Passed)
    requires { (node_state_words ≤ length states.old) × (size < 4294967296) × (boolean.required_end ≤ size)
        × (boolean.optional_end ≤ size) × (boolean.group_at ≤ size)
        × AtMost largest_score (kept_score passed.kept) }
    ensures written { states.new
        ≡ words_of (boolean_state size boolean.need boolean.required_end boolean.optional_end
        (is_some passed.kept) (to_bits binary32 (kept_score passed.kept)) boolean.afterwards boolean.group_at
        passed.scores) ++ drop node_state_words states.old }
    ensures score_fits { T (fits binary32 (kept_score passed.kept)) }
{
    put(
        states,
        &NodeState {
            kind: NodeKind::Boolean.word(),
            size: size as u32,
            need: boolean.need,
            required_end: boolean.required_end as u32,
            optional_end: boolean.optional_end as u32,
            constant: u32::from(passed.kept.is_some()),
            weight: f32::to_bits(passed.kept.unwrap_or(0.0)),
            afterwards: u32::from(boolean.afterwards),
            group_at: boolean.group_at as u32,
            scores: passed.scores,
            ..NodeState::default()
        },
    );
}

// The Boolean at `at`: its record, then the required, the optional and the prohibited.
#[cycle(placing)]
fn place_boolean(
    states: &mut [u32],
    records: &Records,
    at: usize,
    passed: Passed,
    depth: u32,
) -> usize
    requires at_value { record_kind records.now.query.now at ≡ 3 }
    requires tree_pre { PlacePre records.now at passed (length states.old) depth }
    ensures tree_post { PlacePost records.now at passed (length states.old) depth result states.new }
    ensures states_len_unchanged { length states.new ≡ length states.old }
{
    if !records.measures[at].present {
        return place_nothing(states, passed.scores);
    }
    let msm = value(records.query, at, 0);
    let required = has_required(records.query, records.measures, at);
    let first = place_required(
        &mut states[NODE_STATE_WORDS..],
        records,
        at,
        passed.boost,
        depth - 1,
    );
    let shoulds = place_others(
        &mut states[NODE_STATE_WORDS + first.end..],
        records,
        at,
        Occur::Should,
        passed.boost,
        depth - 1,
    );
    let optional_end = first.end + shoulds;
    let nots = place_others(
        &mut states[NODE_STATE_WORDS + optional_end..],
        records,
        at,
        Occur::MustNot,
        passed.boost,
        depth - 1,
    );
    let size = NODE_STATE_WORDS + optional_end + nots;
    let need = tree_measure::shoulds_needed(required, msm);
    let afterwards = joins_afterwards(required, msm);
    let boolean = Boolean {
        need,
        required_end: first.end,
        optional_end,
        afterwards,
        group_at: first.group_at,
    };
    put_boolean(states, boolean, size, passed);
    size
}

// With msm 0 and something required, the Should sum is added to the required score.
// Kept: no plainer: no switch: both are facts of the clauses, from which this one is worked out.
fn joins_afterwards(required: bool, msm: u32) -> bool
    ensures { result ≡ (required && eqb msm 0) }
{
    required && msm == 0
}

// The tree at `at`, with the score that is kept or at the boost that reaches it.
#[cycle(placing)]
pub fn place(states: &mut [u32], records: &Records, at: usize, passed: Passed, depth: u32) -> usize
    requires { PlacePre records.now at passed (length states.old) depth }
    ensures tree_post { PlacePost records.now at passed (length states.old) depth result states.new }
    ensures states_len_unchanged { length states.new ≡ length states.old }
{
    match kind_at(records.query, at) {
        Some(Kind::Boolean) => place_boolean(states, records, at, passed, depth),
        Some(Kind::ConstantScore) => {
            let below = Passed {
                kept: Some(passed.kept.unwrap_or(passed.boost)),
                boost: 0.0, // not the boost
                ..passed
            };
            place(states, records, at + 1, below, depth - 1)
        }
        Some(Kind::Boost) => {
            let below = Passed {
                boost: passed.boost * f32::from_bits(value(records.query, at, 0)),
                ..passed
            };
            place(states, records, at + 1, below, depth - 1)
        }
        _ => place_leaf(states, records, at, passed),
    }
}
