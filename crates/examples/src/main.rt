// Document 01's examples that are not proved as a table, and each other entry once, run through the entries.
// crates/examples/stdout is written from the document's text: a hit is its document and its score's bits.
#![tactic(auto)]

use collector::{TopDocs, codes};
use entry_range::Columns;
use index::columns::NumericRange;
use index::lent::Lent;
use searcher::buffers::Buffers;
use std::io;
use std::io::Write;
use tree_weight::NODE_STATE_WORDS;
use vectors::file::first;
use vectors::lists::EMPTY;
use vectors::print::List;
use walk::Listed;

// A query of one record, MatchAll.
const MATCH_ALL: [u32; 9] = [5, 0, 0, 0, 0, 0, 0, 0, 0];

// A field with positions, three leaves of one posting each in document 0, and their positions.
const FIELDS: [u32; 3] = [0x3f80_0000, 0, 1];

const LEAVES: [u32; 12] = [
    0,
    0,
    1,
    0x3f80_0000,
    0,
    1,
    1,
    0x3f80_0000,
    0,
    2,
    1,
    0x3f80_0000,
];

const POSTINGS: [u32; 9] = [0, 3, 0, 0, 3, 3, 0, 1, 0];

const POSITIONS: [u32; 6] = [0, 5, 5, 6, 6, 9];

// A phrase of leaf 0 at offset 0 and leaf 1 at offset 1.
const TWO_TERMS: [u32; 27] = [
    2, 0, 2, 0, 0, 0, 0, 0, 0, 9, 0, 0, 0, 0, 0, 0, 0, 0, 9, 0, 0, 1, 1, 0, 0, 0, 0,
];

// A phrase of leaf 2 alone, at offset 1.
const ONE_TERM: [u32; 18] = [2, 0, 1, 0, 0, 0, 0, 0, 0, 9, 0, 0, 2, 1, 0, 0, 0, 0];

// A column of i64 values: 17, 18, 18, absent.
const VALUES: [u32; 12] = [1, 17, 0, 1, 18, 0, 1, 18, 0, 0, 0, 0];

// Three documents, and nothing else of an index.
const THREE: Lent<'static> = Lent {
    max_doc: 3,
    ..EMPTY
};

// A document and its score's bits.
fn print_scored(out: &mut impl Write, document: u32, bits: u32) -> io::Result<()> {
    write!(out, " {document} {bits:08x}")
}

// The document of a hit's code, and its score's bits.
fn print_hit(out: &mut impl Write, code: i64) -> io::Result<()> {
    print_scored(out, codes::to_doc(code), codes::score_bits(code))
}

// The count, its mark, and the hits.
fn print_found(out: &mut impl Write, top: TopDocs, hits: &[i64]) -> io::Result<()> {
    write!(
        out,
        "count {}{}",
        top.count,
        if top.mark { "+" } else { "" }
    )?;
    for code in hits.iter().take(top.held as usize) {
        print_hit(out, *code)?;
    }
    writeln!(out)
}

// Node states and nothing else: MatchAll needs no other work buffer.
fn states_alone(states: &mut [u32]) -> Buffers<'_> {
    Buffers {
        states,
        starts: &mut [],
        other_starts: &mut [],
        ranges: &mut [],
    }
}

// MatchAll over three documents.
fn search_all(out: &mut impl Write, k: u32) -> io::Result<()> {
    let mut states = [0u32; NODE_STATE_WORDS];
    let mut buffers = states_alone(&mut states);
    let mut hits = [0i64; 1024];
    match searcher::search::search(&THREE, &MATCH_ALL, k, 10, &mut buffers, &mut hits) {
        Err(refusal) => writeln!(out, "refused {refusal}"),
        Ok(top) => print_found(out, top, &hits),
    }
}

// A page: each document with its score's bits, and the next match.
fn print_listed(
    out: &mut impl Write,
    listed: Listed,
    documents: &[u32],
    scores: &[u32],
) -> io::Result<()> {
    for (document, bits) in documents.iter().zip(scores).take(listed.given) {
        print_scored(out, *document, *bits)?;
    }
    writeln!(out, " next {}", listed.next)
}

// MatchAll over three documents, from a target, to two places.
fn page_all(out: &mut impl Write, target: u32) -> io::Result<()> {
    let mut states = [0u32; NODE_STATE_WORDS];
    let mut buffers = states_alone(&mut states);
    let mut documents = [0u32; 2];
    let mut scores = [0u32; 2];
    let paged = searcher::page::page(
        &THREE,
        &MATCH_ALL,
        target,
        &mut buffers,
        &mut documents,
        &mut scores,
    );
    match paged {
        Err(refusal) => writeln!(out, "refused {refusal}"),
        Ok(listed) => print_listed(out, listed, &documents, &scores),
    }
}

// Documents of the column between two ends.
fn range(out: &mut impl Write, kinds: u32, lower: u64, upper: u64) -> io::Result<()> {
    let mut work = [0u32; 4];
    let mut output = [0u32; 4];
    let lent = Columns {
        max_doc: 4,
        columns: &[0],
        values: &VALUES,
    };
    let range = NumericRange {
        column: 0,
        kinds,
        lower,
        upper,
    };
    match entry_range::range(&lent, range, &mut work, &mut output) {
        Err(refusal) => writeln!(out, "refused {refusal}"),
        Ok(n) => writeln!(out, "{}", List(first(&output, n as usize))),
    }
}

// The best two of documents 3, 5 and 9 with scores 1, 2 and 1.
fn pick(out: &mut impl Write) -> io::Result<()> {
    let documents: [u32; 3] = [3, 5, 9];
    let scores: [u32; 3] = [0x3f80_0000, 0x4000_0000, 0x3f80_0000];
    let mut hits = [0i64; 2];
    match entry_pick::pick(&documents, &scores, 2, 10, &mut hits) {
        Err(refusal) => writeln!(out, "refused {refusal}"),
        Ok(top) => print_found(out, top, &hits),
    }
}

// Where the phrase at the query's first record stands in a document of two.
fn place(out: &mut impl Write, query: &[u32], document: u32) -> io::Result<()> {
    let mut starts = [0i32; 3];
    let mut other_starts = [0i32; 3];
    let lent = Lent {
        max_doc: 2,
        fields: &FIELDS,
        leaves: &LEAVES,
        postings: &POSTINGS,
        positions: &POSITIONS,
        ..EMPTY
    };
    match entry_place::place(&lent, query, 0, document, &mut starts, &mut other_starts) {
        Err(refusal) => writeln!(out, "refused {refusal}"),
        Ok(None) => writeln!(out, "none"),
        Ok(Some(start)) => writeln!(out, "{start}"),
    }
}

fn print_lengths(out: &mut impl Write) -> io::Result<()> {
    for byte in [0, 23, 24, 41, 255] {
        write!(out, "{} ", searcher::length::length(byte))?;
    }
    writeln!(out)
}

fn main(rt: HostRuntime) -> io::Result<()> {
    let mut out = io::writer(&rt);
    writeln!(out, "MatchAll of 3, page of 2")?;
    page_all(&mut out, 0)?;
    page_all(&mut out, 3)?;
    page_all(&mut out, 4)?;
    writeln!(out, "MatchAll of 3, k 1, 1024, 0, 1025")?;
    search_all(&mut out, 1)?;
    search_all(&mut out, 1024)?;
    search_all(&mut out, 0)?;
    search_all(&mut out, 1025)?;
    writeln!(
        out,
        "values 17, 18, 18, absent: 18 included to 18 excluded, 17 excluded to 18 included"
    )?;
    range(&mut out, 7, 18, 18)?;
    range(&mut out, 5, 17, 18)?;
    writeln!(out, "documents 3, 5, 9, scores 1, 2, 1, k 2")?;
    pick(&mut out)?;
    writeln!(
        out,
        "positions 0, 5, 5 and 6, 6, 9, offsets 0 and 1; position 0, offset 1; where there is none"
    )?;
    place(&mut out, &TWO_TERMS, 0)?;
    place(&mut out, &ONE_TERM, 0)?;
    place(&mut out, &TWO_TERMS, 1)?;
    writeln!(out, "bytes 0, 23, 24, 41, 255")?;
    print_lengths(&mut out)?;
    out.flush()
}
