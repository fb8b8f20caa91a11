// Pick: the best k of lent documents and scores.
#![tactic(auto)]

ghost use Rattle.std.specs.Prelude.{◌≡◌, length, ◌<◌};
ghost use Rattle.meaning.specs.CallRefusals.{wrong_picked, wrong14};
ghost use Rattle.meaning.specs.Entries.{pick_refusal, pick_answer, pick_hits};
ghost use Rattle.refusal.specs.Numbers.{refusal_of};
ghost use Rattle.entry_pick.specs.Answers.{picked_numbers};

use collector::TopDocs;
use index::postings::NO_MORE_DOCS;
use refusal::Refusal;

// The largest bits of a score: those of plus infinity.
const PLUS_INFINITY: u32 = 0x7f80_0000;

// Whether a pair after the first is out of order, or its document or its score out of bounds.
// Kept: the C interface lends documents and scores as two lists, here and below,
// and 14 refuses lists of unequal length.
fn wrong_picked(documents: &[u32], scores: &[u32], i: usize) -> bool
    requires { (0 < i) × (i < length documents.now) × (i < length scores.now) }
    ensures { result ≡ wrong_picked documents.now scores.now i }
{
    (documents[i] <= documents[i - 1])
        | (NO_MORE_DOCS <= documents[i])
        | (PLUS_INFINITY < scores[i])
}

// The lists are unequal, or one of their documents with its score is wrong.
fn wrong_lists(documents: &[u32], scores: &[u32]) -> bool
    ensures { result ≡ wrong14 documents.now scores.now }
{
    if documents.len() != scores.len() {
        return true;
    }
    if documents.len() == 0 {
        return false;
    }
    let mut bad = (NO_MORE_DOCS <= documents[0]) | (PLUS_INFINITY < scores[0]);

    // Kept: by index and with no early exit; `is_sorted_by` and two `any` took 5 times as long (measured).
    for i in 1..documents.len() {
        bad |= wrong_picked(documents, scores, i);
    }
    bad
}

// The lowest of 11, 12 and 14 whose condition holds.
pub fn pick_refusal(documents: &[u32], scores: &[u32], k: u32, places: usize) -> Result<(), Refusal>
    ensures { refusal_of result ≡ pick_refusal documents.now scores.now k places }
{
    if collector::wrong_hits(k) {
        return Err(Refusal::Hits);
    }
    if places < k as usize {
        return Err(Refusal::Buffers);
    }
    if wrong_lists(documents, scores) {
        return Err(Refusal::Picked);
    }
    Ok(())
}

// The scores are lent as bits; the hits stand as codes in the first places of the hits buffer.
pub fn pick(
    documents: &[u32],
    scores: &[u32],
    k: u32,
    t: u32,
    hits: &mut [i64],
) -> Result<TopDocs, Refusal>
    ensures result_value { picked_numbers result ≡ pick_answer documents.now scores.now k t
        (length hits.old) }
    ensures hits_after { hits.new ≡ pick_hits documents.now scores.now k hits.old }
{
    pick_refusal(documents, scores, k, hits.len())?;
    Ok(collector::pick(documents, scores, t, &mut hits[..k as usize]))
}
