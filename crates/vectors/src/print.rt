// How the programs print a float, a code, a mark, a list, hits and a page.
use crate::Format;
use std::fmt;
use std::fmt::{Display, Formatter};

// A float's pattern in hexadecimal digits, `nan` for a NaN.
#[derive(Clone, Copy)]
pub struct Pattern<F>(pub F);

impl<F: Format> Display for Pattern<F> {
    fn fmt<W: fmt::Write>(&self, f: &mut Formatter<W>) -> fmt::Result {
        match self.0.pattern() {
            Some(bits) => write!(f, "{bits:0digits$x}", digits = F::DIGITS),
            None => write!(f, "nan"),
        }
    }
}

// A code's sixteen hexadecimal digits, `-` where it is below 0.
#[derive(Clone, Copy)]
pub struct Code(pub i64);

impl Display for Code {
    fn fmt<W: fmt::Write>(&self, f: &mut Formatter<W>) -> fmt::Result {
        match u64::try_from(self.0) {
            Ok(code) => write!(f, "{code:016x}"),
            Err(_) => write!(f, "-"),
        }
    }
}

// Whether a count is a lower bound.
#[derive(Clone, Copy)]
pub struct Mark(pub bool);

impl Display for Mark {
    fn fmt<W: fmt::Write>(&self, f: &mut Formatter<W>) -> fmt::Result {
        write!(f, "{}", if self.0 { '+' } else { '=' })
    }
}

// The items of a list, a space behind each.
#[derive(Clone, Copy)]
pub struct List<'a, T>(pub &'a [T]);

impl<T: Display> Display for List<'_, T> {
    fn fmt<W: fmt::Write>(&self, f: &mut Formatter<W>) -> fmt::Result {
        for item in self.0 {
            write!(f, "{item} ")?;
        }
        Ok(())
    }
}

// The count, its mark, and the codes of the best hits.
#[derive(Clone, Copy)]
pub struct Hits<'a> {
    pub count: u64,
    pub mark: bool,
    pub codes: &'a [i64],
}

impl Display for Hits<'_> {
    fn fmt<W: fmt::Write>(&self, f: &mut Formatter<W>) -> fmt::Result {
        write!(f, "{}{} ", self.count, Mark(self.mark))?;
        for code in self.codes {
            write!(f, "{} ", Code(*code))?;
        }
        Ok(())
    }
}

// A page: each document with its score's bits, and the next match.
#[derive(Clone, Copy)]
pub struct Page<'a> {
    pub documents: &'a [u32],
    pub scores: &'a [u32],
    pub next: u32,
}

impl Display for Page<'_> {
    fn fmt<W: fmt::Write>(&self, f: &mut Formatter<W>) -> fmt::Result {
        write!(f, "page ")?;
        for (document, score) in self.documents.iter().zip(self.scores) {
            write!(f, "{document} {score:08x} ")?;
        }
        write!(f, "next {}", self.next)
    }
}
