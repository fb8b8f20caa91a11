// The clauses of a Boolean, one after the other, each with the measure of its tree.
ghost use Rattle.std.specs.Prelude.{◌≡◌, ◌+◌, ◌<◌};
ghost use Rattle.std.specs.Iterator.{at_most};
ghost use Rattle.meaning.specs.Query.{record_count, record_children};
ghost use Rattle.tree_measure.specs.NextClause.{NextClause};

use crate::Measure;
use query::{Occur, children, occur_at, record_count};

// A clause: its record, how it occurs, and the measure of its tree.
#[derive(Clone, Copy)]
pub struct Clause {
    pub at: usize,
    pub occurrence: Option<Occur>,
    pub measure: Measure,
}

// The clauses that are left: `for clause in Clauses::of(query, measures, at)`.
#[derive(Clone, Copy)]
pub struct Clauses<'a> {
    query: &'a [u32],
    measures: &'a [Measure],
    next: usize,
    left: u32,
}

impl<'a> Clauses<'a> {
    // All those of the Boolean at `at`.
    pub fn of(query: &'a [u32], measures: &'a [Measure], at: usize) -> Clauses<'a>
        requires { at < record_count query.now }
        ensures query { result.query.now ≡ query.now }
        ensures measured { result.measures.now ≡ measures.now }
        ensures first { result.next ≡ at + 1 }
        ensures all { result.left ≡ record_children query.now at }
    {
        Clauses {
            query,
            measures,
            next: at + 1,
            left: children(query, at),
        }
    }
}

impl<'a> Iterator for Clauses<'a> {
    type Item = Clause;

    ghost next_gives = { NextClause };

    ghost remaining = { λ s. at_most s.left };

    // It ends early where a record has no measure, so that it asks nothing of them.
    fn next(&mut self) -> Option<Clause> {
        let at = self.next;
        if self.left == 0 || record_count(self.query) <= at {
            return None;
        }
        let measure = *self.measures.get(at)?;
        self.next = measure.next;
        self.left -= 1;
        Some(Clause {
            at,
            occurrence: occur_at(self.query, at),
            measure,
        })
    }
}
