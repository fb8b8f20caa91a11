// Leaves whose runs follow one another, as a writer lays them:
// whether nothing in them is wrong, where that shows at once.
#![tactic(auto)]

ghost use Rattle.std.specs.Prelude.{◌≡◌, true, false, not, ◌&&◌, ℕ, ◌<◌, ◌≤◌, ◌+◌, ◌-◌, min, eqb, length, IfSome, IfOk, MatchResult};
ghost use Rattle.meaning.specs.Below.{any_below};
ghost use Rattle.meaning.specs.Lent.{field_count, has_positions, leaf_count, leaf_field, leaf_first, leaf_number};
ghost use Rattle.meaning.specs.IndexRefusals.{wrong4, wrong_posting};
ghost use Rattle.index.specs.IndexOf.{index_of};
ghost use Rattle.index.specs.Runs.{run_length, run_document};
ghost use Rattle.check_positions.specs.Places.{wrong_places};
ghost use Rattle.check_rows.specs.Rows.{Over};
ghost use Rattle.check_leaves.specs.Plain.{Plain};
ghost use Rattle.check_leaves.specs.Together.{Together};

use check_positions::plain_positions;
use check_rows::{Tally, gathered};
use index::fields::field_at;
use index::leaves::leaf_at;
use index::lent::Lent;
use index::postings::{
    LARGEST_FREQUENCY, NO_MORE_DOCS, POSTING_WORDS, posting_document, posting_frequency,
};

// Whether what was gathered of a run's records shows that nothing in them is wrong, but that a document may not be
// above the one before: so often as there were no ascents. Where that does not show, it may still be so.
fn plain(run: &[u32], t: Tally) -> bool
    requires { (0 < run_length run.now) × Over run.now (run_length run.now) t }
    ensures { result ≡ true → (t.ascents ≤ run_length run.now - 1)
        × Plain run.now (run_length run.now) (run_length run.now - 1 - t.ascents) }
{
    let count = run.len() / POSTING_WORDS;
    if (t.advances as usize != count - 1) | (t.apart != 0) {
        return false;
    }
    if (t.docs > NO_MORE_DOCS) | (t.indexes > NO_MORE_DOCS) {
        return false;
    }
    if t.frequencies >= LARGEST_FREQUENCY {
        return false;
    }
    // what was gathered shows of each frequency but the last that it is not 0
    posting_frequency(run, count - 1, 0) > 0
}

// How many records are looked at together: so few that their positions and seams are read while they are near.
const BLOCK: usize = 4096;

// A part of a run: records, then their positions.
// How many of its documents are not above the one before, where it is plainly right but for them.
fn looked_at(part: &[u32], positions: &[u32]) -> Option<usize>
    requires { (2 ≤ run_length part.now) × (length part.now ≤ 4294967295) }
    ensures { IfSome result (λ falls. Plain part.now (run_length part.now) falls
        × (any_below (run_length part.now) (wrong_places part.now positions.now) ≡ false)) }
{
    let t = gathered(part);
    if !plain(part, t) {
        return None;
    }
    if !plain_positions(part, positions, t.frequencies) {
        return None;
    }
    Some(part.len() / POSTING_WORDS - 1 - t.ascents as usize)
}

// The end of the block that follows so many records.
fn block_end(done: usize, count: usize) -> usize
    requires { done < count }
    ensures { (done < result) × (result ≤ count) × (result ≤ done + 4096)
        × (result ≡ min (done + 4096) count) }
{
    done + BLOCK.min(count - done)
}

// Whether a run is plainly right but for its documents, of which so many are not above the one before. Block by
// block, each with the last record of the one before.
fn plain_run(run: &[u32], positions: &[u32], falls: usize) -> bool
    ensures { result ≡ true → Plain run.now (run_length run.now) falls
        × (any_below (run_length run.now) (wrong_places run.now positions.now) ≡ false) }
{
    let count = run.len() / POSTING_WORDS;
    if count < 2 {
        return false;
    }
    let mut fallen = 0;
    for done in (1..count).step_by(BLOCK) {
        let end = block_end(done, count);
        let from = POSTING_WORDS * done - POSTING_WORDS;
        let to = POSTING_WORDS * end;
        let Some(fall) = looked_at(&run[from..to], positions) else {
            return false;
        };
        fallen += fall;
    }
    fallen == falls
}

// Leaves up to `end`: the posting where their runs end, and how many first documents are not above the one before.
#[derive(Clone, Copy)]
pub struct Stretch {
    pub end: usize,
    pub runs_end: usize,
    pub falls: usize,
}

// Where a leaf's run ends.
fn run_end(lent: &Lent, l: usize) -> usize
    requires { l < leaf_count (index_of lent.now) }
    ensures { result ≡ leaf_first (index_of lent.now) l + leaf_number (index_of lent.now) l }
{
    leaf_at(lent.leaves, l).end()
}

// The document of the posting before one.
fn document_before(postings: &[u32], end: usize) -> u32
    requires { (0 < end) × (end ≤ run_length postings.now) }
    ensures { result ≡ run_document postings.now (end - 1) }
{
    posting_document(postings, end - 1, 0)
}

// Whether the run of leaf l begins at this posting, is not empty, and its field has positions.
fn follows(lent: &Lent, l: usize, begin: usize) -> bool
    requires { (l < leaf_count (index_of lent.now))
        × (leaf_field (index_of lent.now) l < field_count (index_of lent.now)) }
    ensures { result ≡ ((eqb (leaf_first (index_of lent.now) l) begin
        && not (eqb (leaf_number (index_of lent.now) l) 0))
        && has_positions (index_of lent.now) (leaf_field (index_of lent.now) l)) }
{
    let leaf = leaf_at(lent.leaves, l);
    let field = field_at(lent.fields, leaf.field as usize);
    (leaf.first as usize == begin) & !leaf.is_empty() & field.has_positions()
}

// The leaves from l on, below a limit, whose runs follow one another in fields with positions; or, as an error, where
// they end if a last document is not below N.
fn adjacent(lent: &Lent, l: usize, limit: usize) -> Result<Stretch, usize>
    requires leaves_right { wrong4 (index_of lent.now) ≡ false }
    requires l_lt_limit { (l < limit) × (limit ≤ leaf_count (index_of lent.now))
        × (0 < leaf_number (index_of lent.now) l) }
    ensures { MatchResult result
        (λ s. (m : ℕ) × ((s.end ≡ l + m) × (0 < m) × (l + m ≤ limit)
        × Together (index_of lent.now) l m s.runs_end s.falls false))
        (λ end. (l < end) × (end ≤ limit)) }
{
    let mut runs_end = run_end(lent, l);
    if document_before(lent.postings, runs_end) >= lent.max_doc {
        return Err(l + 1);
    }
    let mut falls: usize = 0;
    // Kept: no plainer with `filter` and `count`: the loop ends early, with either answer, and carries where the runs
    // end, so a count would read the leaves twice.
    for end in l + 1..limit {
        if !follows(lent, end, runs_end) {
            return Ok(Stretch {
                end,
                runs_end,
                falls,
            });
        }
        let first = posting_document(lent.postings, runs_end, 0);
        if first <= document_before(lent.postings, runs_end) {
            falls += 1;
        }
        runs_end = run_end(lent, end);
        if document_before(lent.postings, runs_end) >= lent.max_doc {
            return Err(end + 1);
        }
    }
    Ok(Stretch {
        end: limit,
        runs_end,
        falls,
    })
}

// The end of those leaves from l on, below a limit, that can be read together: nothing in their runs is wrong. Where
// that does not show, it is an error, though it may still be so.
// Kept: no plainer, here and in `adjacent`: a struct of the `Lent` with the fact of it would be made by
// `check_postings` for this one call.
pub fn plain_leaves(lent: &Lent, l: usize, limit: usize) -> Result<usize, usize>
    requires leaves_right { wrong4 (index_of lent.now) ≡ false }
    requires l_lt_limit { (l < limit) × (limit ≤ leaf_count (index_of lent.now)) }
    ensures bounds { MatchResult result (λ end. (l < end) × (end ≤ limit))
        (λ end. (l < end) × (end ≤ limit)) }
    ensures right { IfOk result (λ end. (k : ℕ) → l ≤ k → k < end
        → any_below (leaf_number (index_of lent.now) k) (wrong_posting (index_of lent.now) k) ≡ false) }
{
    let leaf = leaf_at(lent.leaves, l);
    let field = field_at(lent.fields, leaf.field as usize);
    if !field.has_positions() | leaf.is_empty() {
        return Err(l + 1);
    }
    let s = adjacent(lent, l, limit)?;
    let from = POSTING_WORDS * leaf.first as usize;
    let to = POSTING_WORDS * s.runs_end;
    let run = &lent.postings[from..to];
    if !plain_run(run, lent.positions, s.falls) {
        return Err(s.end);
    }
    Ok(s.end)
}
