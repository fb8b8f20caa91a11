// What sim's functions give for every byte, at the ends of every code, and over a grid of scores;
// crates/vectors_sim/stdout has what the unchanged Rust gives there (harness, `record`).
#![tactic(auto)]

ghost use Rattle.std.specs.Prelude.{◌<◌};

use sim::bm25::Bm25;
use sim::small_float::{byte4_to_int, int_to_byte4, int4_to_long, long_to_int4};
use std::fmt::{Display, Formatter};
use std::io::Write;
use std::{fmt, io};
use vectors::Format;
use vectors::numbers::Sequence;
use vectors::print::Pattern;

// Averages as f32 bits: 1, the next one, 3.7, 17.25, 123456.79 and 2^24.
const AVERAGES: [u32; 6] = [
    0x3f80_0000,
    0x3f80_0001,
    0x406c_cccd,
    0x418a_0000,
    0x47f1_2065,
    0x4b80_0000,
];

// Boosts and idfs, which make four weights: 1, small, odd and large.
const WEIGHTS: [(u32, u32); 4] = [
    (0x3f80_0000, 0x3f80_0000),
    (0x3dcc_cccd, 0x3e93_4b11),
    (0x4060_0001, 0x40e3_f7cf),
    (0x4780_0000, 0x427f_ffff),
];

const FREQUENCIES: [u32; 4] = [1, 2, 7, 16_777_216];

const NORMS: [u8; 8] = [0, 1, 2, 24, 41, 128, 224, 255];

// The code of a length, `-` where it has none.
#[derive(Clone, Copy)]
struct Code(u32);

impl Display for Code {
    fn fmt<W: fmt::Write>(&self, f: &mut Formatter<W>) -> fmt::Result {
        if self.0 <= 2147483647 {
            write!(f, "{}", int_to_byte4(self.0))
        } else {
            write!(f, "-")
        }
    }
}

// A byte's length, its code and those of the lengths beside it, and the length as an f32.
fn decoded(out: &mut impl Write, norm: u8) -> io::Result<()> {
    let length = byte4_to_int(norm);
    let below = Code(length.wrapping_sub(1));
    let here = Code(length);
    let above = Code(length.wrapping_add(1));
    let value = Pattern(ieee754::length_to_f32(length));
    writeln!(out, "{length} {below} {here} {above} {value}")
}

fn all_decoded(out: &mut impl Write) -> io::Result<()> {
    for norm in 0..=u8::MAX {
        decoded(out, norm)?;
    }
    Ok(())
}

// The codes of the lengths up to 1023, and of the last length.
fn codes(out: &mut impl Write) -> io::Result<()> {
    for length in 0..1024 {
        write!(out, "{} ", Code(length))?;
    }
    writeln!(out, "{} ", Code(2147483647))
}

fn print_inverses(out: &mut impl Write, cache: &[f32; 256]) -> io::Result<()> {
    for inverse in cache {
        writeln!(out, "{}", Pattern(*inverse))?;
    }
    Ok(())
}

fn inverse_of(cache: &[f32; 256], norm: u8) -> f32 {
    cache[usize::from(norm)]
}

// The scores of a weight and a frequency, for each norm.
fn norm_scores(
    out: &mut impl Write,
    cache: &[f32; 256],
    weight: f32,
    frequency: f32,
) -> io::Result<()> {
    for norm in NORMS {
        writeln!(
            out,
            "{}",
            Pattern(Bm25::score(weight, frequency, inverse_of(cache, norm)))
        )?;
    }
    Ok(())
}

// The scores of a weight, for each frequency and norm.
fn weight_scores(out: &mut impl Write, cache: &[f32; 256], weight: f32) -> io::Result<()> {
    for frequency in FREQUENCIES {
        norm_scores(out, cache, weight, ieee754::length_to_f32(frequency))?;
    }
    Ok(())
}

fn print_scores(out: &mut impl Write, cache: &[f32; 256]) -> io::Result<()> {
    for (boost, idf) in WEIGHTS {
        weight_scores(out, cache, Bm25::weight(f32::of(boost), f32::of(idf)))?;
    }
    Ok(())
}

fn at_averages(out: &mut impl Write) -> io::Result<()> {
    for average in AVERAGES {
        let bm25 = Bm25::new(f32::of(average));
        print_inverses(out, &bm25.cache)?;
        print_scores(out, &bm25.cache)?;
    }
    Ok(())
}

// A four-bit code's number, and the codes of the numbers beside it and of itself.
fn four_bits(out: &mut impl Write, code: u32) -> io::Result<()>
    requires { code < 496 }
{
    let number = int4_to_long(code);
    let below = long_to_int4(number.wrapping_sub(1));
    let here = long_to_int4(number);
    let above = long_to_int4(number.wrapping_add(1));
    writeln!(out, "{number} {below} {here} {above} ")
}

fn all_four_bits(out: &mut impl Write) -> io::Result<()> {
    for code in 0..496 {
        four_bits(out, code)?;
    }
    Ok(())
}

// The code of a number, and the number that the code stands for.
fn there_and_back(out: &mut impl Write, number: u64) -> io::Result<()> {
    let code = long_to_int4(number);
    write!(out, "{code} ")?;
    if code < 496 {
        write!(out, "{} ", int4_to_long(code))?;
    }
    writeln!(out)
}

// Numbers from a seed, of each length in turn.
fn any_four_bits(out: &mut impl Write) -> io::Result<()> {
    for (turn, x) in (0..256u64).zip(Sequence(4)) {
        there_and_back(out, x >> (turn % 64))?;
    }
    Ok(())
}

fn main(rt: HostRuntime) -> io::Result<()> {
    let mut out = io::writer(&rt);
    all_decoded(&mut out)?;
    codes(&mut out)?;
    at_averages(&mut out)?;
    all_four_bits(&mut out)?;
    any_four_bits(&mut out)?;
    out.flush()
}
