// How a clause occurs in its Boolean.
ghost use Rattle.std.specs.Prelude.{◌≡◌};
ghost use Rattle.meaning.specs.Score.{passed};
ghost use Rattle.query.specs.Kinds.{DecodesOccur, occur_meant};

use std::fmt;

// Document 01's occurrences 1 to 4, as Lucene names them.
#[derive(Clone, Copy, Debug, PartialEq, Eq)]
pub enum Occur {
    Must,
    Should,
    MustNot,
    Filter,
}

impl Occur {
    // The boost that a clause is given of its Boolean's: Must and Should pass it on, Filter and MustNot pass 0.
    pub fn passed_on(self, boost: f32) -> f32
        ensures { result ≡ passed (occur_meant self) boost }
    {
        match self {
            Occur::Must | Occur::Should => boost,
            Occur::MustNot | Occur::Filter => 0.0,
        }
    }
}

// The number of a clause of unknown occurrence.
#[derive(Clone, Copy, Debug, PartialEq, Eq)]
pub struct UnknownOccur(pub u32);

impl TryFrom<u32> for Occur {
    type Error = UnknownOccur;

    ghost try_from_gives = { DecodesOccur };

    fn try_from(number: u32) -> Result<Self, UnknownOccur> {
        match number {
            1 => Ok(Occur::Must),
            2 => Ok(Occur::Should),
            3 => Ok(Occur::MustNot),
            4 => Ok(Occur::Filter),
            _ => Err(UnknownOccur(number)),
        }
    }
}

impl fmt::Display for UnknownOccur {
    fn fmt<W: fmt::Write>(&self, f: &mut fmt::Formatter<W>) -> fmt::Result {
        write!(f, "no occurrence has number {}", self.0)
    }
}
