// What ieee754's functions give at the ends of their ranges; crates/vectors_ieee754/stdout has what Rust's own
// operations and the unchanged next_up give there (harness, `record`).
#![tactic(auto)]

ghost use Rattle.std.specs.Prelude.{◌<◌, ◌≤◌};

use std::io;
use std::io::Write;
use vectors::Format;
use vectors::numbers::{Sequence, xorshift};
use vectors::print::Pattern;

// The sign's bit of a binary64 pattern.
const SIGN: u64 = 0x8000_0000_0000_0000;

// Patterns of each kind: zeros, subnormal, normal, infinite, and NaNs with several payloads, of both signs.
const KINDS: [u64; 20] = [
    0x0000_0000_0000_0000,
    0x8000_0000_0000_0000,
    0x0000_0000_0000_0001,
    0x8000_0000_0000_0001,
    0x000f_ffff_ffff_ffff,
    0x0010_0000_0000_0000,
    0x3ff0_0000_0000_0000,
    0xbff0_0000_0000_0000,
    0x3ff0_0000_0000_0001,
    0xbff0_0000_0000_0001,
    0x7fef_ffff_ffff_ffff,
    0xffef_ffff_ffff_ffff,
    0x7ff0_0000_0000_0000,
    0xfff0_0000_0000_0000,
    0x7ff0_0000_0000_0001,
    0xfff0_0000_0000_0001,
    0x7ff8_0000_0000_0000,
    0xfff8_0000_0000_0000,
    0x7fff_ffff_ffff_ffff,
    0xffff_ffff_ffff_ffff,
];

// Where narrowing takes one step or another: 0, 2^-1074, the largest subnormal f64, 2^-1022, 2^-150 and the next,
// 2^-149, 1.5 × 2^-149 and the one before, the last tie below 2^-126, 2^-126 and the one before, 2^-125 + 2^-149, two
// ties above 1, the largest f32, 2^128 − 2^103 and the one before, 2^128, the largest f64.
const BORDERS: [u64; 20] = [
    0x0000_0000_0000_0000,
    0x0000_0000_0000_0001,
    0x000f_ffff_ffff_ffff,
    0x0010_0000_0000_0000,
    0x3690_0000_0000_0000,
    0x3690_0000_0000_0001,
    0x36a0_0000_0000_0000,
    0x36a7_ffff_ffff_ffff,
    0x36a8_0000_0000_0000,
    0x380f_ffff_e000_0000,
    0x380f_ffff_ffff_ffff,
    0x3810_0000_0000_0000,
    0x3820_0000_1000_0000,
    0x3ff0_0000_1000_0000,
    0x3ff0_0000_3000_0000,
    0x47ef_ffff_e000_0000,
    0x47ef_ffff_efff_ffff,
    0x47ef_ffff_f000_0000,
    0x47f0_0000_0000_0000,
    0x7fef_ffff_ffff_ffff,
];

fn narrowed(out: &mut impl Write, bits: u64) -> io::Result<()> {
    writeln!(out, "{}", Pattern(ieee754::narrow(f64::of(bits))))
}

// A pattern, the ones beside it, and its negative.
fn narrowed_around(out: &mut impl Write, bits: u64) -> io::Result<()> {
    for near in [
        bits.wrapping_sub(1),
        bits,
        bits.wrapping_add(1),
        bits ^ SIGN,
    ] {
        narrowed(out, near)?;
    }
    Ok(())
}

// Half of the distance of f32 values where a binary64 exponent's field is e, as a number of binary64 digits.
fn half_unit(e: u64) -> u64 {
    if e < 874 {
        0x8_0000_0000_0000
    } else if e < 897 {
        1u64 << (925 - e)
    } else {
        0x1000_0000
    }
}

// The start of the values with exponent field e, two ties above it, and the last tie below the next start.
fn narrowed_at(out: &mut impl Write, e: u64) -> io::Result<()>
    requires { e < 2047 }
{
    let start = e << 52;
    let half = half_unit(e);
    narrowed_around(out, start)?;
    narrowed_around(out, start.wrapping_add(half))?;
    narrowed_around(out, start.wrapping_add(half << 1 | half))?;
    narrowed_around(out, ((e + 1) << 52).wrapping_sub(half))
}

fn narrowed_from(out: &mut impl Write, first: u64, last: u64) -> io::Result<()>
    requires { last ≤ 2047 }
{
    for e in first..last {
        narrowed_at(out, e)?;
    }
    Ok(())
}

fn narrowed_kinds(out: &mut impl Write) -> io::Result<()> {
    for bits in KINDS {
        narrowed(out, bits)?;
    }
    Ok(())
}

// Patterns from a seed, with exponents from below the smallest f32 to above the largest.
fn narrowed_any(out: &mut impl Write) -> io::Result<()> {
    for x in Sequence(1).take(500) {
        narrowed(out, 0x3660_0000_0000_0000 + x % 0x1220_0000_0000_0000)?;
    }
    Ok(())
}

// Each border and the patterns beside it, of both signs.
fn narrowed_borders(out: &mut impl Write) -> io::Result<()> {
    for bits in BORDERS {
        narrowed_around(out, bits)?;
        narrowed_around(out, bits ^ SIGN)?;
    }
    Ok(())
}

// The pattern, and one for every NaN.
fn bits_of(x: f32) -> u64 {
    x.pattern().unwrap_or(0x7fc0_0000)
}

// A digest with one more narrowed value in it.
fn folded(digest: u64, bits: u64) -> u64 {
    xorshift(digest ^ bits_of(ieee754::narrow(f64::of(bits))))
}

// The sign and the digits of a pattern, with an exponent from −152 to −124 or from 126 to 129.
fn near(bits: u64) -> u64 {
    let nth = bits % 33;
    let field = if nth < 29 { 871 + nth } else { 1120 + nth };
    bits & 0x800f_ffff_ffff_ffff | field << 52
}

// Ten thousand patterns from a seed, each second one near a border: after each twenty the digest of all so far.
fn narrowed_near(out: &mut impl Write) -> io::Result<()> {
    let mut digest = 0;
    for (turn, x) in (1..=5000).zip(Sequence(3)) {
        digest = folded(folded(digest, x), near(x));
        if turn % 10 == 0 {
            writeln!(out, "{digest:016x}")?;
        }
    }
    Ok(())
}

// A length and the ones beside it.
// Kept: no plainer as one with that of patterns, and so what calls it:
// the widths differ, a pattern has a negative, and each prints its own.
fn lengths_around(out: &mut impl Write, n: u32) -> io::Result<()> {
    for near in [n.wrapping_sub(1), n, n.wrapping_add(1)] {
        writeln!(out, "{}", Pattern(ieee754::length_to_f32(near)))?;
    }
    Ok(())
}

// The lengths of k + 25 digits: the first, two ties above it, and the last tie below the next first.
fn lengths_at(out: &mut impl Write, k: u32) -> io::Result<()>
    requires { k < 8 }
{
    let start = 0x100_0000u32 << k;
    let half = 1u32 << k;
    lengths_around(out, start)?;
    lengths_around(out, start.wrapping_add(half))?;
    lengths_around(out, start.wrapping_add(half << 1 | half))?;
    lengths_around(out, (start << 1).wrapping_sub(half))
}

fn lengths(out: &mut impl Write) -> io::Result<()> {
    for k in 0..8 {
        lengths_at(out, k)?;
    }
    Ok(())
}

fn next_up_of(out: &mut impl Write, bits: u32) -> io::Result<()> {
    writeln!(out, "{}", Pattern(ieee754::next_up(f32::of(bits))))
}

// At the first and the last value of each exponent, of both signs; the last exponent's are infinity and NaNs.
fn next_ups(out: &mut impl Write) -> io::Result<()> {
    for e in 0..512u32 {
        let start = e << 23;
        next_up_of(out, start)?;
        next_up_of(out, start + 1)?;
        next_up_of(out, start + 0x7f_ffff)?;
    }
    Ok(())
}

// Which of the kinds a pattern stands below: a digit for each.
fn below_kinds(out: &mut impl Write, bits: u64) -> io::Result<()> {
    for kind in KINDS {
        write!(out, "{}", u8::from(ieee754::total_below(bits, kind)))?;
    }
    writeln!(out)
}

fn kinds_below_kinds(out: &mut impl Write) -> io::Result<()> {
    for bits in KINDS {
        below_kinds(out, bits)?;
    }
    Ok(())
}

// A sum with one more score, which is no NaN.
fn summed(sum: f64, score: f32) -> f64 {
    if score.is_nan() {
        sum
    } else {
        ieee754::add_score(sum, score)
    }
}

// Scores from a seed, from 2^-31 to 2, added up; each sum, and what it narrows to.
fn sums(out: &mut impl Write) -> io::Result<()> {
    let mut sum = 0.0;
    for x in Sequence(2).take(100) {
        sum = summed(sum, f32::of((0x3000_0000 + x % 0x1000_0000) as u32));
        writeln!(out, "{}", Pattern(sum))?;
        writeln!(out, "{}", Pattern(ieee754::narrow(sum)))?;
    }
    Ok(())
}

fn main(rt: HostRuntime) -> io::Result<()> {
    let mut out = io::writer(&rt);
    narrowed_kinds(&mut out)?;
    narrowed_from(&mut out, 0, 2)?;
    narrowed_from(&mut out, 868, 1155)?;
    narrowed_from(&mut out, 2045, 2047)?;
    narrowed_any(&mut out)?;
    narrowed_borders(&mut out)?;
    narrowed_near(&mut out)?;
    lengths(&mut out)?;
    next_ups(&mut out)?;
    kinds_below_kinds(&mut out)?;
    sums(&mut out)?;
    out.flush()
}
