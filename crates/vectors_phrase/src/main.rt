// The frequency and the place of phrases of one to five terms, whose positions repeat and whose starts may lie below 0;
// crates/vectors_phrase/stdout has the unchanged Rust's frequencies and a plain count's least starts (harness,
// `record`).
#![tactic(auto)]

ghost use Rattle.std.specs.Prelude.{◌≡◌, ◌≤◌, true, length};
ghost use Rattle.phrase.specs.Terms.{GoodTerm};
ghost use Rattle.vectors_phrase.specs.Asked.{Asked};

use index::postings::NO_MORE_DOCS;
use phrase_starts::{Term, term_at};
use std::io;
use std::io::Write;
use vectors::numbers::{Seeds, Sequence, below};

// Near the largest position and offset.
const HIGH: u32 = 2_147_483_600;

// Whether a term's positions are there, do not fall and, like its offset, are at most 2147483647.
fn is_good_term(positions: &[u32], t: Term) -> bool
    ensures { result ≡ true → GoodTerm positions.now t }
{
    if NO_MORE_DOCS < t.offset || positions.len() < t.first || positions.len() - t.first < t.freq {
        return false;
    }
    let own = &positions[t.first..t.first + t.freq];
    own.is_sorted() && own.iter().all(|position| *position <= NO_MORE_DOCS)
}

// Whether a phrase may be asked with so many places for its starts.
// Kept: no plainer as one with that of `vectors_collector`, and so `ask` and `ask_each`: the two ask other functions of
// other lists, and have their names and the numbers from a seed (`vectors`) in common.
// Kept: no plainer as a struct of `positions` and `terms`, here and below: `phrase` takes the two as they are.
fn is_good(positions: &[u32], terms: &[u32], places: usize) -> bool
    ensures { result ≡ true → Asked positions.now terms.now places }
{
    if terms.is_empty() || terms.len() % 3 != 0 || places < terms[1] as usize {
        return false;
    }
    // Kept: tried `all`, and the proof did not close:
    // what its closure asks (a whole record there) at each number of a `step_by`.
    for at in (0..terms.len()).step_by(3) {
        if !is_good_term(positions, term_at(terms, at)) {
            return false;
        }
    }
    true
}

fn print_frequency(out: &mut impl Write, positions: &[u32], terms: &[u32]) -> io::Result<()>
    requires { Asked positions.now terms.now 8 }
{
    let mut a = [0i32; 8];
    let mut b = [0i32; 8];
    let frequency = phrase::frequency(positions, terms, &mut a, &mut b);
    write!(out, "{frequency} ")
}

// The start that Place answers: any common one is right, and the code gives the least.
fn print_place(out: &mut impl Write, positions: &[u32], terms: &[u32]) -> io::Result<()>
    requires { Asked positions.now terms.now 8 }
{
    let mut a = [0i32; 8];
    let mut b = [0i32; 8];
    match phrase::place(positions, terms, &mut a, &mut b) {
        Some(start) => writeln!(out, "{start}"),
        None => writeln!(out, "none"),
    }
}

fn print_phrase(out: &mut impl Write, positions: &[u32], terms: &[u32]) -> io::Result<()> {
    if is_good(positions, terms, 8) {
        print_frequency(out, positions, terms)?;
        print_place(out, positions, terms)
    } else {
        writeln!(out, "refused")
    }
}

// Eight positions for each of five terms: each above the one before by less than `spread`.
fn positions_of(base: u32, spread: u32, seed: u64) -> [u32; 40]
    ensures { 40 ≡ length result }
{
    let mut positions = [0u32; 40];
    let mut position = base;
    for ((i, place), x) in positions.iter_mut().enumerate().zip(Sequence(seed)) {
        if i % 8 == 0 {
            position = base;
        }
        position = position.wrapping_add(below(x, spread));
        *place = position;
    }
    positions
}

// For each of five terms the index of its first position,
// a frequency from 1 to 8 and an offset from `base` to `base` + 3.
fn terms_of(base: u32, seed: u64) -> [u32; 15]
    ensures { 15 ≡ length result }
{
    let mut terms = [0u32; 15];
    let (records, _) = terms.as_chunks_mut::<3>();
    for ((record, first), x) in records
        .iter_mut()
        .zip((0..40).step_by(8))
        .zip(Sequence(seed))
    {
        *record = [first, 1 + below(x, 8), base.wrapping_add(below(x >> 8, 4))];
    }
    terms
}

// A phrase of some of the terms from a seed, with positions close together or less close.
fn ask(
    out: &mut impl Write,
    position_base: u32,
    offset_base: u32,
    number: usize,
    seed: u64,
) -> io::Result<()>
    requires { number ≤ 5 }
{
    let positions = positions_of(position_base, 2 + below(seed, 2), seed);
    let terms = terms_of(offset_base, seed ^ 0x5555_5555_5555_5555);
    let end = 3 * number;
    print_phrase(out, &positions, &terms[..end])
}

// Phrases of each number of terms; a high base puts starts at either end of their range.
fn ask_each(
    out: &mut impl Write,
    position_base: u32,
    offset_base: u32,
    times: usize,
) -> io::Result<()> {
    for (i, seed) in (0..times).zip(Seeds(1)) {
        ask(out, position_base, offset_base, 1 + i % 5, seed)?;
    }
    Ok(())
}

fn main(rt: HostRuntime) -> io::Result<()> {
    let mut out = io::writer(&rt);
    ask_each(&mut out, 0, 0, 1500)?;
    ask_each(&mut out, 0, HIGH, 200)?;
    ask_each(&mut out, HIGH, 0, 200)?;
    ask_each(&mut out, HIGH, HIGH, 200)?;
    out.flush()
}
