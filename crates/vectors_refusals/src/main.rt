// The numbers with which indexes and queries at every boundary of document 01, and damaged ones, are refused;
// crates/vectors_refusals/stdout has the numbers of a judge that was written from the document's text (harness,
// `record`). data/cases.rec: the number of cases; for each N, the numbers of norm bytes and of live words, and for each
// other list where it stands; then the lists' words. What norm bytes and live words hold is refused by nothing, so they
// are made here.
#![tactic(auto)]

use index::lent::Lent;
use refusal::Refusal;
use std::io;
use std::io::Write;
use vectors::file::{first, list, read_bytes, read_words, records};

// Checks a case's index, then its query; its norm bytes and live words are the first of the given ones.
fn check(file: &[u32], norms: &[u8], live: &[u64], case: [u32; 10]) -> Result<(), Refusal> {
    let [
        max_doc,
        norm_bytes,
        live_words,
        fields,
        leaves,
        postings,
        positions,
        columns,
        values,
        query,
    ] = case;
    let lent = Lent {
        max_doc,
        fields: list(file, fields),
        leaves: list(file, leaves),
        postings: list(file, postings),
        positions: list(file, positions),
        norms: first(norms, norm_bytes as usize),
        live: first(live, live_words as usize),
        columns: list(file, columns),
        values: list(file, values),
    };
    check_order::check_index(&lent)?;
    check_query::check_query(&lent, list(file, query))
}

fn print_refusals(out: &mut impl Write, file: &[u32; 65_536]) -> io::Result<()> {
    let norms = [255u8; 65_553];
    let live = [0xffff_ffff_ffff_ffffu64; 16_385];
    // all but the last that the file has room for
    for case in first(records::<10>(file), file.len() / 10 - 1) {
        match check(file, &norms, &live, *case) {
            Ok(()) => writeln!(out, "0")?,
            Err(refusal) => writeln!(out, "{refusal}")?,
        }
    }
    Ok(())
}

fn main(rt: HostRuntime) -> io::Result<()> {
    let mut out = io::writer(&rt);
    let mut bytes = [0u8; 262_144];
    let mut file = [0u32; 65_536];
    let n = read_bytes(&rt, "cases.rec", &mut bytes)?;
    read_words(&bytes[..n], &mut file);
    print_refusals(&mut out, &file)?;
    out.flush()
}
