// Why a call is refused: document 01's numbers, and 15 and 16 of the token writer.
#![tactic(auto)]

ghost use Rattle.std.specs.Prelude.{◌≡◌};
ghost use Rattle.refusal.specs.Numbers.{number_of};

use std::fmt;

// docs/REFUSALS.md says of each whose fault it is and what to do.
#[derive(Clone, Copy, Debug, PartialEq, Eq)]
pub enum Refusal {
    MaxDoc = 1,
    Fields = 2,
    Lengths = 3,
    Leaves = 4,
    Postings = 5,
    Columns = 6,
    Records = 7,
    Values = 8,
    Boosts = 9,
    Positions = 10,
    Hits = 11,
    Buffers = 12,
    Target = 13,
    Picked = 14,
    Tokens = 15,
    Outputs = 16,
}

impl Refusal {
    // Its number.
    // Kept: no plainer by From: `as u32` is the whole of it, and `refusal.number()` says which number it is.
    pub fn number(self) -> u32
        ensures { result ≡ number_of self }
    {
        self as u32
    }
}

impl fmt::Display for Refusal {
    fn fmt<W: fmt::Write>(&self, f: &mut fmt::Formatter<W>) -> fmt::Result {
        write!(f, "{}", self.number())
    }
}
