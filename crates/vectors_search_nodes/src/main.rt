// Search with node states as words and as records, side by side, on document 01's whole case: both answers, whether
// they agree, and what a refused call left in the lent records.
// crates/vectors_search_nodes/stdout is written from the document's text: a hit is its code.
#![tactic(auto)]

use collector::TopDocs;
use refusal::Refusal;
use searcher::buffers::Buffers;
use std::io;
use std::io::Write;
use tree_records::NodeState;
use tree_weight::NODE_STATE_WORDS;
use vectors::file::first;
use vectors::print::Hits;
use vectors_node_cases::{QUERY, RUBBISH, WHOLE_CASE};

// The same below three Boosts of 1: nine records, where there are eight states.
const LONGER: [u32; 81] = [
    7,
    0,
    1,
    0x3f80_0000,
    0,
    0,
    0,
    0,
    0,
    7,
    0,
    1,
    0x3f80_0000,
    0,
    0,
    0,
    0,
    0,
    7,
    0,
    1,
    0x3f80_0000,
    0,
    0,
    0,
    0,
    0,
    3,
    0,
    2,
    0,
    0,
    0,
    0,
    0,
    0,
    6,
    1,
    1,
    0,
    0,
    0,
    0,
    0,
    0,
    1,
    0,
    0,
    0,
    0,
    0,
    0,
    0,
    0,
    7,
    2,
    1,
    0x4000_0000,
    0,
    0,
    0,
    0,
    0,
    6,
    0,
    1,
    0,
    0,
    0,
    0,
    0,
    0,
    1,
    0,
    0,
    1,
    0,
    0,
    0,
    0,
    0,
];

// Search over words that hold other rubbish.
fn with_words(query: &[u32], k: u32, t: u32, hits: &mut [i64]) -> Result<TopDocs, Refusal> {
    let mut states = [0xdead_beefu32; 8 * NODE_STATE_WORDS];
    let mut buffers = Buffers {
        states: &mut states,
        starts: &mut [],
        other_starts: &mut [],
        ranges: &mut [],
    };
    searcher::search::search(&WHOLE_CASE, query, k, t, &mut buffers, hits)
}

fn with_records(
    query: &[u32],
    k: u32,
    t: u32,
    nodes: &mut [NodeState],
    hits: &mut [i64],
) -> Result<TopDocs, Refusal> {
    let mut buffers = Buffers {
        states: nodes,
        starts: &mut [],
        other_starts: &mut [],
        ranges: &mut [],
    };
    searcher_nodes::search::search_nodes(&WHOLE_CASE, query, k, t, &mut buffers, hits)
}

fn print_answer(
    out: &mut impl Write,
    found: Result<TopDocs, Refusal>,
    hits: &[i64],
) -> io::Result<()> {
    match found {
        Err(refusal) => writeln!(out, "refused {refusal} "),
        Ok(TopDocs { held, count, mark }) => {
            let codes = first(hits, held as usize);
            writeln!(out, "{}", Hits { count, mark, codes })
        }
    }
}

// Eight states, as words and as records. A refused call leaves the lent records as they were.
fn compare(out: &mut impl Write, query: &[u32], k: u32, t: u32) -> io::Result<()> {
    let mut hits = [-1i64; 3];
    let mut more = [-1i64; 3];
    let mut nodes = [RUBBISH; 8];
    let by_words = with_words(query, k, t, &mut hits);
    let by_records = with_records(query, k, t, &mut nodes, &mut more);
    if by_records.is_err() {
        let kept = nodes == [RUBBISH; 8];
        writeln!(
            out,
            "records {}",
            if kept { "as they were" } else { "changed" }
        )?;
    }
    print_answer(out, by_words, &hits)?;
    print_answer(out, by_records, &more)?;
    let same = (by_words == by_records) & (hits == more);
    writeln!(out, "{}", if same { "same" } else { "different" })
}

fn main(rt: HostRuntime) -> io::Result<()> {
    let mut out = io::writer(&rt);
    compare(&mut out, &QUERY, 2, 10)?;
    compare(&mut out, &QUERY, 2, 1)?;
    compare(&mut out, &QUERY, 0, 10)?;
    compare(&mut out, &LONGER, 2, 10)?;
    out.flush()
}
