// The records of postings whose positions follow one another, as a writer lays them:
// word by word, in rows of four records.
#![tactic(auto)]

ghost use Rattle.std.specs.Prelude.{◌≡◌, ℕ, ◌+◌, ◌-◌, ◌*◌, ◌/◌, ◌<◌, ◌≤◌, length, slice_index};
ghost use Rattle.index.specs.Runs.{run_length};
ghost use Rattle.index.specs.declared.postings.TheConstants.{POSTING_WORDS};
ghost use Rattle.check_rows.specs.declared.TheConstants.{ROW_WORDS};
ghost use Rattle.check_rows.specs.Rows.{Lane, Over, lane_documents, lane_indexes, joined_of};

use index::postings::{FREQUENCY, POSITIONS, POSTING_WORDS};

// The words of a row of four records.
const ROW_WORDS: usize = 4 * POSTING_WORDS;

// What is gathered of each of the words of a row.
// Kept: no plainer as twelve structs: each array is for itself in vector registers,
// and of two of them only some words are read.
#[derive(Drop)]
pub struct Lanes {
    pub rises: [u32; ROW_WORDS],
    pub apart: [u32; ROW_WORDS],
    pub all: [u32; ROW_WORDS],
}

// What is gathered of records.
#[derive(Clone, Copy)]
pub struct Tally {
    pub ascents: u32,
    pub advances: u32,
    pub apart: u32,
    pub docs: u32,
    pub frequencies: u32,
    pub indexes: u32,
}

impl Tally {
    // Rows beside what was gathered before them.
    fn with_rows(self, l: Lanes) -> Tally
        requires { (self.ascents + lane_documents l ≤ 4294967295)
            × (self.advances + lane_indexes l ≤ 4294967295) }
        ensures { result ≡ joined_of self l }
    {
        let rises = l.rises;
        let apart = l.apart;
        let all = l.all;
        Tally {
            ascents: self.ascents
                + (rises[0]
                    + rises[POSTING_WORDS]
                    + rises[2 * POSTING_WORDS]
                    + rises[3 * POSTING_WORDS]),
            advances: self.advances
                + (rises[POSITIONS]
                    + rises[POSTING_WORDS + POSITIONS]
                    + rises[2 * POSTING_WORDS + POSITIONS]
                    + rises[3 * POSTING_WORDS + POSITIONS]),
            apart: self.apart
                | apart[POSITIONS]
                | apart[POSTING_WORDS + POSITIONS]
                | apart[2 * POSTING_WORDS + POSITIONS]
                | apart[3 * POSTING_WORDS + POSITIONS],
            docs: self.docs
                | all[0]
                | all[POSTING_WORDS]
                | all[2 * POSTING_WORDS]
                | all[3 * POSTING_WORDS],
            frequencies: self.frequencies
                | all[FREQUENCY]
                | all[POSTING_WORDS + FREQUENCY]
                | all[2 * POSTING_WORDS + FREQUENCY]
                | all[3 * POSTING_WORDS + FREQUENCY],
            indexes: self.indexes
                | all[POSITIONS]
                | all[POSTING_WORDS + POSITIONS]
                | all[2 * POSTING_WORDS + POSITIONS]
                | all[3 * POSTING_WORDS + POSITIONS],
        }
    }
}

// Every row after the first two records, word for word beside the record before: how often a word is above that one's,
// the or of the distances from where the positions before end, the or of the words.
fn rows(part: &[u32]) -> Lanes
    requires { (2 * POSTING_WORDS ≤ length part.now) × (length part.now ≤ 4294967295) }
    ensures { (j : ℕ) → j < ROW_WORDS
        → Lane part.now (2 * POSTING_WORDS + j) ((length part.now - 2 * POSTING_WORDS) / ROW_WORDS) (slice_index result.rises j)
        (slice_index result.apart j) (slice_index result.all j) }
{
    let mut rises: [u32; ROW_WORDS] = [0; ROW_WORDS];
    let mut apart: [u32; ROW_WORDS] = [0; ROW_WORDS];
    let mut all: [u32; ROW_WORDS] = [0; ROW_WORDS];
    let (words, _) = part[2 * POSTING_WORDS..].as_chunks::<ROW_WORDS>();
    let (before, _) = part[POSTING_WORDS..].as_chunks::<ROW_WORDS>();
    let (counts, _) = part[POSTING_WORDS + FREQUENCY - POSITIONS..].as_chunks::<ROW_WORDS>();
    // Kept: no plainer: a zip would be of three slices here, and of six arrays below;
    // a function for the inner loop would be lent all six.
    for i in 0..words.len() {
        for j in 0..ROW_WORDS {
            let word = words[i][j];
            let step = before[i][j].wrapping_sub(word);
            // Saturating, which it never is: with a plain sum clang goes over four rows at a time,
            // word by word (1.3 times slower).
            rises[j] = rises[j].saturating_add(step >> 31);
            apart[j] |= step.wrapping_add(counts[i][j]);
            all[j] |= word;
        }
    }
    Lanes { rises, apart, all }
}

// The first records, one by one.
fn head(run: &[u32], to: usize) -> Tally
    requires { (1 ≤ to) × (to ≤ run_length run.now) × (to ≤ 4294967295) }
    ensures { Over run.now to result }
{
    let mut t = Tally {
        ascents: 0,
        advances: 0,
        apart: 0,
        docs: run[0],
        frequencies: run[FREQUENCY],
        indexes: run[POSITIONS],
    };
    // Kept: no plainer: each record is read beside the one before,
    // so a walk over records would carry that one's three words along.
    for i in 1..to {
        let at = POSTING_WORDS * i;
        let before = at - POSTING_WORDS;
        let doc = run[at];
        let index = run[at + POSITIONS];
        let step = run[before + POSITIONS].wrapping_sub(index);
        t.ascents += run[before].wrapping_sub(doc) >> 31;
        t.advances += step >> 31;
        t.apart |= step.wrapping_add(run[before + FREQUENCY]);
        t.docs |= doc;
        t.frequencies |= run[at + FREQUENCY];
        t.indexes |= index;
    }
    t
}

// All records of a run of at least two. The rows are taken in two halves: a function that is called twice is compiled
// by itself, so that each of its arrays stays in three vector registers.
pub fn gathered(run: &[u32]) -> Tally
    requires { (2 ≤ run_length run.now) × (length run.now ≤ 4294967295) }
    ensures { Over run.now (run_length run.now) result }
{
    let count = run.len() / POSTING_WORDS;
    let lines = (count - 2) / 4;
    let first = count - 4 * lines;
    let start = POSTING_WORDS * first - 2 * POSTING_WORDS;
    let half = POSTING_WORDS * (first + 4 * (lines / 2));
    let back = half - 2 * POSTING_WORDS;
    let end = POSTING_WORDS * count;
    let t = head(run, first).with_rows(rows(&run[start..half]));
    t.with_rows(rows(&run[back..end]))
}
