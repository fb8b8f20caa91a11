// The kinds of a query's records.
ghost use Rattle.query.specs.Kinds.{DecodesKind};

use std::fmt;

// Document 01's kinds 1 to 9. A PhraseTerm stands only below a Phrase.
#[derive(Clone, Copy, Debug, PartialEq, Eq)]
pub enum Kind {
    Term,
    Phrase,
    Boolean,
    Range,
    MatchAll,
    ConstantScore,
    Boost,
    MatchNone,
    PhraseTerm,
}

// The number of a record of unknown kind.
#[derive(Clone, Copy, Debug, PartialEq, Eq)]
pub struct UnknownKind(pub u32);

impl TryFrom<u32> for Kind {
    type Error = UnknownKind;

    ghost try_from_gives = { DecodesKind };

    fn try_from(number: u32) -> Result<Self, UnknownKind> {
        match number {
            1 => Ok(Kind::Term),
            2 => Ok(Kind::Phrase),
            3 => Ok(Kind::Boolean),
            4 => Ok(Kind::Range),
            5 => Ok(Kind::MatchAll),
            6 => Ok(Kind::ConstantScore),
            7 => Ok(Kind::Boost),
            8 => Ok(Kind::MatchNone),
            9 => Ok(Kind::PhraseTerm),
            _ => Err(UnknownKind(number)),
        }
    }
}

impl fmt::Display for UnknownKind {
    fn fmt<W: fmt::Write>(&self, f: &mut fmt::Formatter<W>) -> fmt::Result {
        write!(f, "no kind of record has number {}", self.0)
    }
}
