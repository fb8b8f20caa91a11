// The bits of a word: set, combined, counted, and gone through from the lowest one on.
#![tactic(auto)]

ghost use Rattle.std.specs.Prelude.{◌≡◌, not, ◌&&◌, ◌||◌, eqb, ltb, ℕ, ◌+◌, ◌-◌, ◌*◌, ◌/◌, ◌%◌, ◌≤◌, ◌<◌, ◌∷◌, length};
ghost use Rattle.meaning.specs.Below.{count_below};
ghost use Rattle.bits.specs.Bit.{bit, set_bits, LowestBit, NextSet, bitmap_words};
ghost use Rattle.std.specs.Iterator.{at_most};

// Kept: no plainer, here and below: a type for a place below 64 would be made of a number at each call.
pub fn set_bit(w: u64, p: u32) -> u64
    requires { p < 64 }
    ensures { (q : ℕ) → bit q result ≡ bit q w || eqb q p }
{
    w | 1u64 << p
}

// The bits of a that b does not have.
pub fn without(a: u64, b: u64) -> u64
    ensures { (q : ℕ) → q < 64 → bit q result ≡ bit q a && not (bit q b) }
{
    a & !b
}

pub fn both(a: u64, b: u64) -> u64
    ensures { (q : ℕ) → bit q result ≡ bit q a && bit q b }
{
    a & b
}

pub fn either(a: u64, b: u64) -> u64
    ensures { (q : ℕ) → bit q result ≡ bit q a || bit q b }
{
    a | b
}

pub fn lowest(w: u64) -> u32
    requires { 0 < w }
    ensures { LowestBit w result }
{
    w.trailing_zeros()
}

pub fn without_lowest(w: u64) -> u64
    requires { 0 < w }
    ensures smaller { result < w }
    ensures others { (t : ℕ) → LowestBit w t → (q : ℕ) → bit q result ≡ bit q w && not (eqb q t) }
    ensures listed { (t : ℕ) → LowestBit w t → set_bits w ≡ t ∷ set_bits result }
{
    w & (w - 1)
}

// The places of the set bits, the lowest first: `for place in SetBits { left: w }`.
#[derive(Clone, Copy)]
pub struct SetBits {
    pub left: u64,
}

impl Iterator for SetBits {
    type Item = u32;

    ghost next_gives = { λ s r t. NextSet s.left r t.left };

    ghost remaining = { λ s. at_most (length (set_bits s.left)) };

    fn next(&mut self) -> Option<u32> {
        let w = self.left;
        if w == 0 {
            return None;
        }
        self.left = without_lowest(w);
        Some(lowest(w))
    }
}

// How many bits are set below a place.
pub fn rank(w: u64, p: u32) -> u32
    requires { p < 64 }
    ensures { result ≡ count_below p (λ q. bit q w) }
{
    (w & ((1u64 << p) - 1)).count_ones()
}

// A word whose n lowest bits are set.
pub fn first_bits(n: u32) -> u64
    requires { n < 64 }
    ensures { (q : ℕ) → bit q result ≡ ltb q n }
{
    (1u64 << n) - 1
}

// A word and its two halves.
// Kept: no plainer by From, which would want a struct of the halves:
// each of the three is one line, and its name says which half.
pub fn joined(low: u32, high: u32) -> u64
    ensures word { result ≡ low + 4294967296 * high }
    ensures low_bits { (q : ℕ) → q < 32 → bit q result ≡ bit q low }
    ensures high_bits { (q : ℕ) → 32 ≤ q → bit q result ≡ bit (q - 32) high }
{
    u64::from(low) + u64::from(high) * 4294967296
}

pub fn low(w: u64) -> u32
    ensures { result ≡ w % 4294967296 }
{
    (w % 4294967296) as u32
}

pub fn high(w: u64) -> u32
    ensures { result ≡ w / 4294967296 }
{
    (w / 4294967296) as u32
}

pub fn is_set(w: u64, p: u32) -> bool
    requires { p < 64 }
    ensures { result ≡ bit p w }
{
    (w >> p) % 2 == 1
}

// How many 32-bit words hold n bits.
pub fn bitmap_words(n: u32) -> u32
    ensures { result ≡ bitmap_words n }
{
    n.div_ceil(32)
}
