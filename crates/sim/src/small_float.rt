// Lucene's SmallFloat: a length as a byte, with four significant bits.
ghost use Rattle.std.specs.Prelude.{◌≡◌, ◌<◌, ◌≤◌};
ghost use Rattle.meaning.specs.SmallFloat.{long_to_int4, int4_to_long, int_to_byte4, byte4_to_int};

// So many of the smallest lengths are their own bytes.
const NUM_FREE_VALUES: u32 = 24;

// A number's four highest bits: the shift + 1, then the three bits after the leading one. Fewer than four are their own
// code.
pub fn long_to_int4(i: u64) -> u32
    ensures { result ≡ long_to_int4 i }
{
    let digits = u64::BITS - i.leading_zeros();
    if digits < 4 {
        i as u32
    } else {
        let shift = digits - 4;
        (shift + 1) * 8 + ((i >> shift) % 8) as u32
    }
}

// The number that a code of `long_to_int4` stands for; such a code is below 496.
pub fn int4_to_long(i: u32) -> u64
    requires { i < 496 }
    ensures { result ≡ int4_to_long i }
{
    if i < 8 {
        u64::from(i)
    } else {
        u64::from(8 + i % 8) << (i / 8 - 1)
    }
}

// The byte of a length, which is an int of Java's and not negative.
pub fn int_to_byte4(i: u32) -> u8
    requires { i ≤ 2147483647 }
    ensures { result ≡ int_to_byte4 i }
{
    if i < NUM_FREE_VALUES {
        i as u8
    } else {
        (NUM_FREE_VALUES + long_to_int4(u64::from(i - NUM_FREE_VALUES))) as u8
    }
}

// The length of a byte.
pub fn byte4_to_int(b: u8) -> u32
    ensures { result ≡ byte4_to_int b }
{
    let i = u32::from(b);
    if i < NUM_FREE_VALUES {
        i
    } else {
        NUM_FREE_VALUES + int4_to_long(i - NUM_FREE_VALUES) as u32
    }
}
