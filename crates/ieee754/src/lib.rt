// The IEEE 754 operations that scores and columns need: the order of patterns and narrowing, worked out from bits;
// the others by std.
#![tactic(auto)]

pub mod convert_format;

ghost use Rattle.std.specs.Prelude.{◌≡◌, not, T, pos};
ghost use Rattle.std.specs.Float.{binary32, binary64};
ghost use Rattle.std.specs.Float.Ieee.{is_nan, add, of_int};
ghost use Rattle.meaning.specs.Ieee754.{total_below, narrow, next_up};
ghost use Rattle.ieee754.specs.TotalOrder.{total_key};

use std::num;

// A key whose order is totalOrder: negative patterns are inverted and lie below the positive ones.
// Kept: no plainer by `f64::total_cmp`, here and below:
// it asks that neither is a NaN, which columns have, and a range needs the key itself.
pub fn total_key(bits: u64) -> u64
    ensures { result ≡ total_key bits }
{
    if bits < 0x8000_0000_0000_0000 {
        bits + 0x8000_0000_0000_0000
    } else {
        !bits
    }
}

// Whether the first of two patterns is strictly below the other. Columns compare keys; a program of vectors asks this.
pub fn total_below(a: u64, b: u64) -> bool
    ensures { result ≡ total_below a b }
{
    total_key(a) < total_key(b)
}

// convertFormat to binary32: the nearest value, a tie to the even one, for every x.
pub fn narrow(x: f64) -> f32
    ensures { result ≡ narrow x }
{
    convert_format::narrow_in_steps(x)
}

// A length as the nearest f32, for programs of vectors:
// the code's lengths are f32 values, and its frequencies at most 2^24.
pub fn length_to_f32(n: u32) -> f32
    ensures { result ≡ of_int binary32 (pos n) }
{
    num::nearest_u32_to_f32(n)
}

// The least value above f; from the largest one on, plus infinity.
pub fn next_up(f: f32) -> f32
    ensures { result ≡ next_up f }
{
    f.next_up()
}

// One more score in a sum, which is kept in binary64.
// Kept: `f64::from` tests for NaN first; sums of a window's 64 scores took 37 ns in place of 17 with it (measured).
pub fn add_score(sum: f64, score: f32) -> f64
    requires { T (not (is_nan score)) }
    ensures { result ≡ add binary64 sum score }
{
    sum + score as f64
}
