// Numbers from a seed.
ghost use Rattle.std.specs.Prelude.{◌≤◌};

// Marsaglia's xorshift: the next number of a sequence that began with a number other than 0.
pub fn xorshift(x: u64) -> u64 {
    let a = x ^ (x << 13);
    let b = a ^ (a >> 7);
    b ^ (b << 17)
}

// The numbers of xorshift's sequence after one other than 0.
#[derive(Clone, Copy)]
pub struct Sequence(pub u64);

impl Iterator for Sequence {
    type Item = u64;

    fn next(&mut self) -> Option<u64> {
        self.0 = xorshift(self.0);
        Some(self.0)
    }
}

// Seeds after a number, each far from the one before: 2^64 by the golden ratio.
#[derive(Clone, Copy)]
pub struct Seeds(pub u64);

impl Iterator for Seeds {
    type Item = u64;

    fn next(&mut self) -> Option<u64> {
        self.0 = self.0.wrapping_add(0x9e37_79b9_7f4a_7c15);
        Some(self.0)
    }
}

// x modulo `end`; 0 where `end` is 0.
pub fn below(x: u64, end: u32) -> u32
    ensures { result ≤ end }
{
    if end == 0 {
        0
    } else {
        (x % u64::from(end)) as u32
    }
}
