// What the programs of vectors share: values from patterns, files of words, what values and answers print as,
// numbers from a seed.
#![tactic(auto)]

pub mod file;
pub mod lists;
pub mod numbers;
pub mod print;

// A binary format: the values of its patterns, and the patterns of its values.
pub trait Format: Copy + Drop {
    type Bits;

    // How many hexadecimal digits a pattern has.
    const DIGITS: usize;

    // The value of a pattern; every pattern of a NaN gives a NaN.
    fn of(bits: Self::Bits) -> Self;

    // The pattern of a value, none of a NaN's.
    fn pattern(self) -> Option<u64>;
}

impl Format for f32 {
    type Bits = u32;

    const DIGITS: usize = 8;

    fn of(bits: u32) -> f32 {
        if bits % 0x8000_0000 <= 0x7f80_0000 {
            f32::from_bits(bits)
        } else {
            f32::NAN
        }
    }

    fn pattern(self) -> Option<u64> {
        if self.is_nan() {
            None
        } else {
            Some(u64::from(self.to_bits()))
        }
    }
}

// Kept: a rule of the project: the two differ in a type and three constants,
// and the gate takes no impl that a macro of the repository wrote.
impl Format for f64 {
    type Bits = u64;

    const DIGITS: usize = 16;

    fn of(bits: u64) -> f64 {
        if bits % 0x8000_0000_0000_0000 <= 0x7ff0_0000_0000_0000 {
            f64::from_bits(bits)
        } else {
            f64::NAN
        }
    }

    fn pattern(self) -> Option<u64> {
        if self.is_nan() {
            None
        } else {
            Some(self.to_bits())
        }
    }
}
