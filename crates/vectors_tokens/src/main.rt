// What the token writer answers for recorded rows, and what its outputs hold afterwards; crates/vectors_tokens/stdout
// has the answers of a judge that was written from the request's text (harness, `record`).
// data/rows.rec: the number of rows; for each N, the lengths of the four outputs, and where its fields, tokens and
// leaf fields stand; then the lists' words.
#![tactic(auto)]

use std::io;
use std::io::Write;
use tokens::TokenRecords;
use vectors::file::{list, read_bytes, read_words, word};
use vectors::print::List;

// So many elements of each output there is room for.
const ROOM: usize = 1024;

// A refusal's number, or 0 with the numbers of postings and positions; then all that stands in the outputs afterwards.
fn write(
    out: &mut impl Write,
    records: TokenRecords,
    norms: &mut [u8],
    postings: &mut [u32],
    positions: &mut [u32],
    runs: &mut [u32],
) -> io::Result<()> {
    match token_writer::write_index(records, norms, postings, positions, runs) {
        Ok(numbers) => writeln!(out, "0 {} {}", numbers.postings, numbers.positions)?,
        Err(refusal) => writeln!(out, "{refusal} ")?,
    }
    writeln!(out, "{}", List(norms))?;
    writeln!(out, "{}", List(postings))?;
    writeln!(out, "{}", List(positions))?;
    writeln!(out, "{}", List(runs))
}

// One row; its outputs hold rubbish before.
fn print_row(out: &mut impl Write, file: &[u32], row: [u32; 8]) -> io::Result<()> {
    let [
        max_doc,
        norms,
        postings,
        positions,
        runs,
        fields,
        tokens,
        leaf_fields,
    ] = row;
    let norm_bytes = norms as usize;
    let posting_words = postings as usize;
    let position_words = positions as usize;
    let run_words = runs as usize;
    if ROOM < norm_bytes || ROOM < posting_words || ROOM < position_words || ROOM < run_words {
        return Ok(());
    }
    let records = TokenRecords {
        max_doc,
        fields: list(file, fields),
        tokens: list(file, tokens),
        leaf_fields: list(file, leaf_fields),
    };
    let mut norms = [77u8; ROOM];
    let mut postings = [77u32; ROOM];
    let mut positions = [77u32; ROOM];
    let mut runs = [77u32; ROOM];
    write(
        out,
        records,
        &mut norms[..norm_bytes],
        &mut postings[..posting_words],
        &mut positions[..position_words],
        &mut runs[..run_words],
    )
}

fn print_rows(out: &mut impl Write, file: &[u32; 16_384]) -> io::Result<()> {
    for i in 0..file[0] as usize {
        let row = std::array::from_fn(|k| word(file, 1 + 8 * i, k));
        print_row(out, file, row)?;
    }
    Ok(())
}

fn main(rt: HostRuntime) -> io::Result<()> {
    let mut out = io::writer(&rt);
    let mut bytes = [0u8; 65_536];
    let mut file = [0u32; 16_384];
    let n = read_bytes(&rt, "rows.rec", &mut bytes)?;
    read_words(&bytes[..n], &mut file);
    print_rows(&mut out, &file)?;
    out.flush()
}
