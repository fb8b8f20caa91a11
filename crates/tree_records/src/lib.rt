// Node states as structs with a field for each word of `tree_weight`'s layout, and such structs copied to words and
// back.
#![tactic(auto)]

ghost use Rattle.std.specs.Prelude.{◌≡◌, ◌++◌, ◌≤◌, ◌+◌, ◌*◌, length, take, drop};
ghost use Rattle.meaning.specs.Limits.{node_state_words};
ghost use Rattle.tree_weight.specs.State.{words_of};
ghost use Rattle.tree_records.specs.Records.{state_of, record_words, node_from, held};

use query::MAX_RECORDS;
use tree_weight::{NODE_STATE_WORDS, layout};
pub use tree_words::state::NodeState;

// How many of the lent records a call can need: no order has more than MAX_RECORDS nodes.
pub fn held(nodes: usize) -> usize
    ensures { result ≡ held nodes }
{
    nodes.min(MAX_RECORDS)
}

// Writes record i to its words.
fn put_node(words: &mut [u32], i: usize, s: &NodeState)
    requires { node_state_words * i + node_state_words ≤ length words.old }
    ensures { words.new ≡ take (node_state_words * i) words.old
        ++ (words_of (state_of s.now) ++ drop (node_state_words * i + node_state_words) words.old) }
{
    let at = NODE_STATE_WORDS * i;
    tree_words::place::put(&mut words[at..], s);
}

// The record that the first words hold.
// Kept: no plainer by From: what is lent is a slice that may go on behind them, so its front would first be made an
// array.
fn first_node(words: &[u32]) -> NodeState
    requires { node_state_words ≤ length words.now }
    ensures { result ≡ node_from words.now }
{
    NodeState {
        kind: words[layout::KIND],
        size: words[layout::SIZE],
        cached: words[layout::CACHED],
        need: words[layout::NEED],
        required_end: words[layout::REQUIRED_END],
        optional_end: words[layout::OPTIONAL_END],
        first: words[layout::FIRST],
        number: words[layout::NUMBER],
        cursor: words[layout::CURSOR],
        offset: words[layout::OFFSET],
        field: words[layout::FIELD],
        constant: words[layout::CONSTANT],
        weight: words[layout::WEIGHT],
        afterwards: words[layout::AFTERWARDS],
        group_at: words[layout::GROUP_AT],
        scores: words[layout::SCORES],
        frequency_of: words[layout::FREQUENCY_OF],
        frequency: words[layout::FREQUENCY],
        norms: words[layout::NORMS],
        window_first: words[layout::WINDOW_FIRST],
        window_low: words[layout::WINDOW_LOW],
        window_high: words[layout::WINDOW_HIGH],
        window_next: words[layout::WINDOW_NEXT],
        ones_low: words[layout::ONES_LOW],
        ones_high: words[layout::ONES_HIGH],
        twos_low: words[layout::TWOS_LOW],
        twos_high: words[layout::TWOS_HIGH],
        spare1: words[layout::SPARE1],
        spare2: words[layout::SPARE2],
        spare3: words[layout::SPARE3],
        spare4: words[layout::SPARE4],
        spare5: words[layout::SPARE5],
    }
}

// The i-th record that the words hold.
fn node_at(words: &[u32], i: usize) -> NodeState
    requires { node_state_words * i + node_state_words ≤ length words.now }
    ensures { result ≡ node_from (drop (node_state_words * i) words.now) }
{
    let at = NODE_STATE_WORDS * i;
    first_node(&words[at..])
}

// Writes the first n records to the words.
// Kept: no plainer without n, here and in `pack`: each caller would cut both slices, and `pack` says that the records
// behind n stay.
pub fn unpack(nodes: &[NodeState], n: usize, words: &mut [u32])
    requires { (n ≤ length nodes.now) × (node_state_words * n ≤ length words.old) }
    ensures { words.new ≡ record_words (take n nodes.now) ++ drop (node_state_words * n) words.old }
{
    // Kept: no plainer with `enumerate` over `nodes[..n]`: `i` would still be needed for where the words stand.
    for i in 0..n {
        put_node(words, i, &nodes[i]);
    }
}

// Words for as many states as an order can need.
pub fn zeros() -> [u32; MAX_RECORDS * NODE_STATE_WORDS] {
    [0; MAX_RECORDS * NODE_STATE_WORDS]
}

// The words of the records that a call can need, in an array of the largest order's size.
pub fn unpacked(nodes: &[NodeState]) -> [u32; MAX_RECORDS * NODE_STATE_WORDS]
    ensures { take (node_state_words * held (length nodes.now)) result
        ≡ record_words (take (held (length nodes.now)) nodes.now) }
{
    let mut words = zeros();
    let n = held(nodes.len());
    unpack(nodes, n, &mut words);
    words
}

// Reads the first n records from the words.
pub fn pack(words: &[u32], n: usize, nodes: &mut [NodeState])
    requires { (n ≤ length nodes.old) × (node_state_words * n ≤ length words.now) }
    ensures { (record_words (take n nodes.new) ≡ take (node_state_words * n) words.now)
        × (drop n nodes.new ≡ drop n nodes.old) }
{
    // Kept: no plainer with `enumerate` over the first n: `i` would still be needed for where the words stand.
    for i in 0..n {
        nodes[i] = node_at(words, i);
    }
}
