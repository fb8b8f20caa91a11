// A phrase's frequency in a document: the size of the intersection of its terms' starts (position − offset), where
// equal starts count with the smallest multiplicity. A term is three words: index of its first position, frequency,
// offset.
#![tactic(auto)]

ghost use Rattle.std.specs.Prelude.{◌≡◌, ◌≤◌, ◌<◌, ◌+◌, ◌%◌, length, SomeIff};
ghost use Rattle.meaning.specs.Phrase.{common_size};
ghost use Rattle.phrase_starts.specs.declared.TheConstants.{TERM_WORDS, TERM_OFFSET};
ghost use Rattle.phrase_starts.specs.Terms.{start_lists, Good, Room, Rarest};
ghost use Rattle.phrase_starts.specs.Common.{Common};
ghost use Rattle.phrase.specs.Step.{unmet_from, Candidates, Left, Meets};
ghost use Rattle.phrase.specs.Place.{PlacedIn};

use phrase_starts::{intersect, pair, term_at, write_starts};
pub use phrase_starts::{TERM_FREQUENCY, TERM_OFFSET, TERM_WORDS};

// The words of two terms.
const TWO_TERMS: usize = 2 * TERM_WORDS;

// The first record with the least frequency.
// Kept: tried `min_by_key`, and the proof did not close: what its closure asks (a whole record there) at each number of
// a `step_by`.
fn rarest(terms: &[u32]) -> usize
    requires { (0 < length terms.now) × (length terms.now % TERM_WORDS ≡ 0) }
    ensures { Rarest terms.now result }
{
    let mut best = 0;
    let mut least = terms[TERM_FREQUENCY];
    for at in (TERM_WORDS..terms.len()).step_by(TERM_WORDS) {
        let freq = terms[at + TERM_FREQUENCY];
        if freq < least {
            best = at;
            least = freq;
        }
    }
    best
}

// The next term's record at or after a word, if there is one. The rarest term's is skipped: its starts are the
// candidates.
fn unmet(terms: &[u32], rarest: usize, at: usize) -> Option<usize>
    requires { (at ≤ length terms.now) × (rarest + TERM_OFFSET < length terms.now) }
    ensures { SomeIff result (unmet_from rarest at < length terms.now) (unmet_from rarest at) }
{
    let next = if at == rarest { at + TERM_WORDS } else { at };
    (next < terms.len()).then_some(next)
}

// Intersects the candidates with one more term's starts; gives what is left, and the next term's record while any is
// left.
fn meet<'a>(
    positions: &[u32],
    terms: &[u32],
    rarest: usize,
    at: usize,
    cands: &[i32],
    spare: &'a mut [i32],
) -> (&'a mut [i32], Option<usize>)
    requires { Candidates positions.now terms.now rarest at cands.now (length spare.old) }
    ensures { Meets positions.now terms.now rarest at cands.now result.0.now result.1 }
{
    let n = intersect(positions, term_at(terms, at), cands, spare);
    let next = if n == 0 {
        None
    } else {
        unmet(terms, rarest, at + TERM_WORDS)
    };
    (&mut spare[..n], next)
}

// Intersects the candidates with the starts of each term from `at` on but the rarest's, from which they came. The two
// buffers swap with each term, and the result is a part of the one written last.
fn survivors<'a>(
    positions: &[u32],
    terms: &[u32],
    rarest: usize,
    at: usize,
    cands: &'a mut [i32],
    spare: &'a mut [i32],
) -> &'a mut [i32]
    requires { Candidates positions.now terms.now rarest at cands.old (length spare.old) }
    ensures { Left positions.now terms.now at cands.old result.now }
{
    let (left, next) = meet(positions, terms, rarest, at, cands, spare);
    match next {
        None => left,
        Some(next) => survivors(positions, terms, rarest, next, left, cands),
    }
}

// The intersection of all terms' starts: the rarest term's starts are the candidates, and each other term leaves some.
// The first of the others is handled here, so that a phrase of two terms makes no further call.
// Kept: no plainer as a struct of the four, here and in `frequency` and `place`: `scorer_leaf` has the positions, the
// gathered words and the two buffers each from elsewhere, and would make one for each document.
fn common<'a>(
    positions: &[u32],
    terms: &[u32],
    starts: &'a mut [i32],
    other_starts: &'a mut [i32],
) -> &'a mut [i32]
    requires { Good positions.now terms.now
        × (Room terms.now (length starts.old) × Room terms.now (length other_starts.old)) }
    ensures { Common (start_lists positions.now terms.now) result.now × (length result.now < 4294967296) }
{
    let best = rarest(terms);
    let t = term_at(terms, best);
    write_starts(positions, t, starts);
    let Some(at) = unmet(terms, best, 0) else {
        return &mut starts[..t.freq];
    };
    let (left, next) = meet(positions, terms, best, at, &starts[..t.freq], other_starts);
    match next {
        None => left,
        Some(next) => survivors(positions, terms, best, next, left, &mut starts[..t.freq]),
    }
}

pub fn frequency(
    positions: &[u32],
    terms: &[u32],
    starts: &mut [i32],
    other_starts: &mut [i32],
) -> u32
    requires { Good positions.now terms.now
        × (Room terms.now (length starts.old) × Room terms.now (length other_starts.old)) }
    ensures { result ≡ common_size (start_lists positions.now terms.now) }
{
    // two terms need no buffers
    if terms.len() == TWO_TERMS {
        return pair(positions, term_at(terms, 0), term_at(terms, TERM_WORDS)) as u32;
    }
    let left = common(positions, terms, starts, other_starts);
    left.len() as u32
}

// A start that all the terms have, if there is one: the least.
pub fn place(
    positions: &[u32],
    terms: &[u32],
    starts: &mut [i32],
    other_starts: &mut [i32],
) -> Option<i32>
    requires { Good positions.now terms.now
        × (Room terms.now (length starts.old) × Room terms.now (length other_starts.old)) }
    ensures { PlacedIn (start_lists positions.now terms.now) result }
{
    common(positions, terms, starts, other_starts)
        .first()
        .copied()
}
