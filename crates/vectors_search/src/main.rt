// What Search and Page answer for recorded cases; crates/vectors_search/stdout has the answers of the unchanged Rust
// (harness, `record`), and data/README says how the cases were made.
// data/cases1.rec to cases4.rec, each: the number of cases; for each N, k, t, a page's target and length, and for each
// list where it stands; then the lists' words. Norm bytes stand four to a word, live words as two, the low half first.
#![tactic(auto)]

use collector::TopDocs;
use index::lent::Lent;
use searcher::buffers::Buffers;
use std::io;
use std::io::Write;
use std::rt::Files;
use tree_weight::NODE_STATE_WORDS;
use vectors::file::{bytes_at, first, list, read_bytes, read_long_words, read_words, word};
use vectors::print::{Hits, Page};
use walk::Listed;

// The most places that a page has.
const PLACES: usize = 128;

// The hits, in buffers that hold rubbish before.
fn search(out: &mut impl Write, index: Lent, query: &[u32], k: u32, t: u32) -> io::Result<()> {
    let mut states = [0xdead_beefu32; 256 * NODE_STATE_WORDS];
    let mut starts = [7i32; 64];
    let mut other_starts = [-7i32; 64];
    let mut ranges = [0xdead_beefu32; 1024];
    let mut hits = [-1i64; 1024];
    let mut buffers = Buffers {
        states: &mut states,
        starts: &mut starts,
        other_starts: &mut other_starts,
        ranges: &mut ranges,
    };
    match searcher::search::search(&index, query, k, t, &mut buffers, &mut hits) {
        Err(refusal) => writeln!(out, "refused {refusal}"),
        Ok(TopDocs { held, count, mark }) => {
            let codes = first(&hits, held as usize);
            writeln!(out, "{}", Hits { count, mark, codes })
        }
    }
}

// A page into the lent places, for which the work buffers hold rubbish before.
fn page(
    out: &mut impl Write,
    index: Lent,
    query: &[u32],
    target: u32,
    documents: &mut [u32],
    scores: &mut [u32],
) -> io::Result<()> {
    let mut states = [0xdead_beefu32; 256 * NODE_STATE_WORDS];
    let mut starts = [-7i32; 64];
    let mut other_starts = [7i32; 64];
    let mut ranges = [0xdead_beefu32; 1024];
    let mut buffers = Buffers {
        states: &mut states,
        starts: &mut starts,
        other_starts: &mut other_starts,
        ranges: &mut ranges,
    };
    match searcher::page::page(&index, query, target, &mut buffers, documents, scores) {
        Err(refusal) => writeln!(out, "refused {refusal}"),
        Ok(Listed { given, next }) => {
            let page = Page {
                documents: first(documents, given),
                scores: first(scores, given),
                next,
            };
            writeln!(out, "{page}")
        }
    }
}

fn print_case(out: &mut impl Write, file: &[u32], bytes: &[u8], case: [u32; 14]) -> io::Result<()> {
    let [
        max_doc,
        k,
        t,
        target,
        places,
        fields,
        leaves,
        postings,
        positions,
        norms,
        live,
        columns,
        values,
        query,
    ] = case;
    let mut longs = [0u64; 16];
    let index = Lent {
        max_doc,
        fields: list(file, fields),
        leaves: list(file, leaves),
        postings: list(file, postings),
        positions: list(file, positions),
        norms: bytes_at(bytes, norms),
        live: read_long_words(list(file, live), &mut longs),
        columns: list(file, columns),
        values: list(file, values),
    };
    let query = list(file, query);
    search(out, index, query, k, t)?;
    let mut documents = [0u32; PLACES];
    let mut scores = [0u32; PLACES];
    let places = places as usize;
    if PLACES < places {
        return Ok(());
    }
    page(
        out,
        index,
        query,
        target,
        &mut documents[..places],
        &mut scores[..places],
    )
}

fn print_file(out: &mut impl Write, rt: &(impl Files + Eprint), path: &str) -> io::Result<()> {
    let mut bytes = [0u8; 65_536];
    let mut file = [0u32; 16_384];
    read_bytes(rt, path, &mut bytes)?;
    read_words(&bytes, &mut file);
    for i in 0..file[0] as usize {
        let case = std::array::from_fn(|k| word(&file, 1 + 14 * i, k));
        print_case(out, &file, &bytes, case)?;
    }
    Ok(())
}

fn main(rt: HostRuntime) -> io::Result<()> {
    let mut out = io::writer(&rt);
    for path in ["cases1.rec", "cases2.rec", "cases3.rec", "cases4.rec"] {
        print_file(&mut out, &rt, path)?;
    }
    out.flush()
}
