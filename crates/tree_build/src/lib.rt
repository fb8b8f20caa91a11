// The node states of a query: its scorer tree in the lent words.
#![tactic(auto)]

pub mod tree;

ghost use Rattle.std.specs.Prelude.{◌≡◌, ℕ, ◌≤◌, length};
ghost use Rattle.std.proofs.Math.Option.{none};
ghost use Rattle.meaning.specs.Bm25.{one};
ghost use Rattle.meaning.specs.Query.{query_tree, record_count};
ghost use Rattle.meaning.specs.CallRefusals.{states_needed, ranges_needed};
ghost use Rattle.meaning.specs.Limits.{max_depth, max_records};
ghost use Rattle.index.specs.IndexOf.{index_of};
ghost use Rattle.tree_weight.specs.Measured.{AcceptedOrder};
ghost use Rattle.tree_weight.specs.Weigh.{weigh};
ghost use Rattle.tree_words.specs.Placed.{Placed};

use index::lent::Lent;
use query::{MAX_DEPTH, MAX_RECORDS, record_count};
use tree_measure::{Measure, RangeList};
use tree_words::place::{Passed, Records};

// An order of so many records gets by with small arrays: to clear the largest takes longer than such an order.
const FEW_RECORDS: usize = 16;

// The whole query: its scorer tree in the node states, the documents of its Range records in the range buffer; how many
// words of the states it takes.
pub fn build(lent: &Lent, query: &[u32], states: &mut [u32], ranges: &mut [u32]) -> usize
    requires asks { AcceptedOrder (index_of lent.now) query.now }
    requires room { (states_needed query.now ≤ length states.old)
        × (ranges_needed (index_of lent.now) query.now ≤ length ranges.old) }
    ensures placed { Placed (index_of lent.now) ranges.new (weigh (index_of lent.now) (query_tree query.now) one none)
        max_depth 0 result states.new }
    ensures states_len_unchanged { (length states.new ≡ length states.old)
        × (length ranges.new ≡ length ranges.old) }
{
    if record_count(query) <= FEW_RECORDS {
        build_in::<FEW_RECORDS>(lent, query, states, ranges)
    } else {
        build_in::<MAX_RECORDS>(lent, query, states, ranges)
    }
}

// The same of an order of at most N records.
fn build_in<const N: usize>(
    lent: &Lent,
    query: &[u32],
    states: &mut [u32],
    ranges: &mut [u32],
) -> usize
    requires few { (record_count query.now ≤ N) × (N ≤ max_records) }
    requires asks { AcceptedOrder (index_of lent.now) query.now }
    requires room { (states_needed query.now ≤ length states.old)
        × (ranges_needed (index_of lent.now) query.now ≤ length ranges.old) }
    ensures placed { Placed (index_of lent.now) ranges.new (weigh (index_of lent.now) (query_tree query.now) one none)
        max_depth 0 result states.new }
    ensures states_len_unchanged { (length states.new ≡ length states.old)
        × (length ranges.new ≡ length ranges.old) }
{
    let mut listed = [RangeList { place: 0, count: 0 }; N];
    tree_measure::list_ranges(lent, query, &mut listed, ranges);
    let mut measures = [Measure {
        next: 0,
        present: false,
        cost: 0,
    }; N];
    tree_measure::measure_all(lent, query, &listed, &mut measures);
    let records = Records {
        lent,
        query,
        measures: &measures,
        listed: &listed,
    };
    let passed = Passed {
        kept: None,
        boost: 1.0,
        scores: 0,
    };
    tree::place(states, &records, 0, passed, MAX_DEPTH)
}
