// The starts of a phrase's term (position − offset) in a document, and the intersection of candidates with them.
// A term is three words: index of its first position, frequency, offset.
#![tactic(auto)]

ghost use Rattle.std.specs.Prelude.{◌≡◌, [], ◌∷◌, ◌≤◌, ◌<◌, ◌+◌, length, take, pos};
ghost use Rattle.std.proofs.Math.IntN.{sub_ℕ};
ghost use Rattle.meaning.specs.Limits.{no_more_docs};
ghost use Rattle.meaning.specs.Phrase.{common_size};
ghost use Rattle.phrase_starts.specs.declared.TheConstants.{TERM_OFFSET};
ghost use Rattle.phrase_starts.specs.Terms.{term_at, starts_of, GoodTerm};
ghost use Rattle.phrase_starts.specs.Common.{Ascending, Common};

// The words of a term, and where its frequency and its offset stand, behind the index of its first position.
pub const TERM_WORDS: usize = 3;

pub const TERM_FREQUENCY: usize = 1;

pub const TERM_OFFSET: usize = 2;

// One term's words.
#[derive(Clone, Copy)]
pub struct Term {
    pub first: usize,
    pub freq: usize,
    pub offset: u32,
}

// Where the phrase would start, given a position of one of its terms: below 0 for a term too near the front.
fn start(position: u32, offset: u32) -> i32
    requires { (position ≤ no_more_docs) × (offset ≤ no_more_docs) }
    ensures { result ≡ sub_ℕ position offset }
{
    position as i32 - offset as i32
}

// Kept: no plainer as a slice of Terms: `scorer_leaf` gathers bare words for each document, as many as the phrase's
// terms have, and here those of one are read.
pub fn term_at(terms: &[u32], at: usize) -> Term
    requires { at + TERM_OFFSET < length terms.now }
    ensures { result ≡ term_at terms.now at }
{
    Term {
        first: terms[at] as usize,
        freq: terms[at + TERM_FREQUENCY] as usize,
        offset: terms[at + TERM_OFFSET],
    }
}

// The starts of one term, written to the front of `out`.
// Kept: no plainer: a phrase has one list of positions and many terms, so a struct of both would be made anew for each
// call; so in `intersect` and `pair`.
pub fn write_starts(positions: &[u32], t: Term, out: &mut [i32])
    requires { GoodTerm positions.now t × (t.freq ≤ length out.old) }
    ensures { take t.freq out.new ≡ starts_of positions.now t }
{
    // Kept: by index; the term's positions as a slice with `enumerate` took 1.13 times as long (measured).
    for j in 0..t.freq {
        out[j] = start(positions[t.first + j], t.offset);
    }
}

// Intersects the candidates with a term's starts, into the front of `out`: a merge of two ascending lists, in which a
// match uses up one of each. No position is read once the last candidate is passed.
// Kept: no plainer as the front lent on: the promise is of `out` itself, and with the front as the result it would be
// of that alone.
pub fn intersect(positions: &[u32], t: Term, cands: &[i32], out: &mut [i32]) -> usize
    requires { GoodTerm positions.now t × ((length cands.now ≤ length out.old) × Ascending cands.now) }
    ensures { (result ≤ length cands.now)
        × Common (cands.now ∷ starts_of positions.now t ∷ []) (take result out.new) }
{
    let Term {
        first,
        freq,
        offset,
    } = t;
    let mut i = 0;
    let mut c = 0;
    let mut n = 0;
    // Kept: no plainer: each turn moves one place of two or both, so no iterator drives the loop.
    while i < freq {
        if c == cands.len() {
            return n;
        }
        let s = start(positions[first + i], offset);
        let cand = cands[c];
        if cand < s {
            c += 1;
        } else if s < cand {
            i += 1;
        } else {
            out[n] = s;
            n += 1;
            c += 1; // used up
            i += 1;
        }
    }
    n
}

// The number of starts that two terms have in common: a merge that uses up one of each with each match.
// Kept: no plainer: `intersect` is lent one side and writes the matches, `pair` works out both and counts them, so one
// function for both needs a trait for a side and a closure for a match.
pub fn pair(positions: &[u32], s: Term, t: Term) -> usize
    requires { GoodTerm positions.now s × GoodTerm positions.now t }
    ensures { result ≡ common_size (starts_of positions.now s ∷ starts_of positions.now t ∷ []) }
{
    let Term {
        first,
        freq,
        offset,
    } = s;
    let Term {
        first: other_first,
        freq: other_freq,
        offset: other_offset,
    } = t;
    let mut i = 0;
    let mut j = 0;
    let mut n = 0;
    // Kept: no plainer: as in `intersect`.
    while i < freq {
        if j == other_freq {
            return n;
        }
        let x = start(positions[first + i], offset);
        let y = start(positions[other_first + j], other_offset);
        if x < y {
            i += 1;
        } else if y < x {
            j += 1;
        } else {
            n += 1;
            i += 1;
            j += 1; // both used up
        }
    }
    n
}
