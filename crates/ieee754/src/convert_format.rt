// convertFormat from binary64 to binary32 (IEEE 754-2019, 5.4.2), to nearest,
// in the steps of the standard's text and in their order.
// Kept: a rule of the project: request 2026-04 asks that narrowing be written in these steps.
ghost use Rattle.std.specs.Prelude.{◌≡◌, ◌+◌, ◌*◌, ◌/◌, ◌%◌, ◌<◌, ◌≤◌, ◌^◌, leb};
ghost use Rattle.std.specs.Float.{binary64};
ghost use Rattle.std.specs.Float.Ieee.{of_bits};
ghost use Rattle.std.specs.Float.Ieee.Nearest.{closest};
ghost use Rattle.meaning.specs.Narrowing.{rounded, narrow_in_steps};

// n / u to the nearest whole number, a tie to the even one.
fn nearest(n: u64, u: u64) -> u64
    requires { 0 < u }
    ensures { result ≡ closest n u }
{
    let q = n / u;
    let below = n % u;
    let above = u - below;
    // one test of both, so that there is no branch for the processor to guess
    if above < below + q % 2 { q + 1 } else { q }
}

// 1. (4.3.1) A pattern rounded as if the exponent had no limits: 24 digits of its 53, the leading one not written,
// with the exponent above them, so that a carry out of them is one more in it.
fn rounded(bits: u64) -> u64
    ensures { result + 2 ^ 23 ≡ bits / 2 ^ 52 * 2 ^ 23 + rounded (bits % 2 ^ 52 + 2 ^ 52) }
{
    nearest(bits, 0x2000_0000)
}

// 2. (7.4) Overflow: whether what step 1 gives, 24 digits × 2^(exponent − 1046), is 2^128 or more.
fn overflows(pattern: u64) -> bool
    ensures { result ≡ leb (2 ^ 1174) ((2 ^ 23 + pattern % 2 ^ 23) * 2 ^ (pattern / 2 ^ 23)) }
{
    0x2_3f80_0000 <= pattern
}

// 3. (7.5) The subnormal case, from the value that is not rounded:
// of a pattern below 2^-126, the nearest multiple of 2^-149.
fn subnormal(bits: u64) -> f32
    requires { bits < 0x3810_0000_0000_0000 }
    ensures { result ≡ narrow_in_steps (of_bits binary64 bits) }
{
    if bits < 0x3690_0000_0000_0000 {
        // below 2^-150, half of the smallest f32: so are all patterns without a leading digit
        return 0.0;
    }
    let digits = bits % 0x10_0000_0000_0000 + 0x10_0000_0000_0000;
    let unit = 1u64 << (926 - bits / 0x10_0000_0000_0000);
    f32::from_bits(nearest(digits, unit) as u32)
}

// The steps, for a pattern whose sign is clear and that is no NaN's.
fn in_steps(bits: u64) -> f32
    requires { bits ≤ 2047 * 2 ^ 52 }
    ensures { result ≡ narrow_in_steps (of_bits binary64 bits) }
{
    // Below 2^-1022 a pattern has no leading digit, and the digits that are rounded here are not its own: 2 does not
    // hold of them, and 3 reads the pattern.
    let pattern = rounded(bits);
    if overflows(pattern) {
        return f32::INFINITY;
    }
    if bits < 0x3810_0000_0000_0000 {
        return subnormal(bits);
    }
    f32::from_bits((pattern - 0x1_c000_0000) as u32)
}

// The sign goes through the steps; NaN stays.
pub fn narrow_in_steps(x: f64) -> f32
    ensures { result ≡ narrow_in_steps x }
{
    if x.is_nan() {
        return f32::NAN;
    }
    let bits = f64::to_bits(x);
    if bits < 0x8000_0000_0000_0000 {
        in_steps(bits)
    } else {
        -in_steps(bits - 0x8000_0000_0000_0000)
    }
}
