// The border: Search, Page, Pick and the token writer for callers in C and Rust. Each returns the refusal's number, or
// 0 and its numbers in `answer`.
#![tactic(auto)]

pub mod write_index;

ghost use Rattle.std.specs.Prelude.{◌≡◌, ◌≤◌, length, min};
ghost use Rattle.meaning.specs.Entries.{answered};
ghost use Rattle.index.specs.Slices.{lent};
ghost use Rattle.check_order.specs.WorkOf.{work};
ghost use Rattle.refusal.specs.Numbers.{number_of, refusal_of};
ghost use Rattle.border.specs.Border.{top_answer, LotSearches, LotPages, LotPicks, LotKept};

use collector::TopDocs;
use index::lent::Lent;
use refusal::Refusal;
use searcher::buffers::Buffers;

// A slice for the answer that is too short is refused as any buffer of the entry is, where no lower number is.
fn short_answer<T>(answer: &Result<T, Refusal>, own: Refusal) -> u32
    ensures { result ≡ answered (refusal_of answer.now) (number_of own) (λ n. min n (number_of own)) }
{
    match answer {
        Ok(_) => own.number(),
        Err(refusal) => refusal.number().min(own.number()),
    }
}

// A refusal's number; or 0, with hits held, count, and 1 for the mark in the answer.
fn answer_top_docs(found: Result<TopDocs, Refusal>, answer: &mut [u64]) -> u32
    requires { 3 ≤ length answer.old }
    ensures number { result ≡ refusal_of found }
    ensures answer_after { answer.new ≡ top_answer found answer.old }
{
    match found {
        Ok(top) => {
            answer[0] = u64::from(top.held);
            answer[1] = top.count;
            answer[2] = u64::from(top.mark);
            0
        }
        Err(refusal) => refusal.number(),
    }
}

// Kept: the C interface hands over each slice and number by itself, so its clauses name them one by one.
pub fn lot_search(
    max_doc: u32,
    fields: &[u32],
    leaves: &[u32],
    postings: &[u32],
    positions: &[u32],
    norms: &[u8],
    live: &[u64],
    columns: &[u32],
    values: &[u32],
    query: &[u32],
    k: u32,
    t: u32,
    states: &mut [u32],
    starts: &mut [i32],
    other_starts: &mut [i32],
    ranges: &mut [u32],
    hits: &mut [i64],
    answer: &mut [u64],
) -> u32
    ensures searches { LotSearches (lent max_doc fields.now leaves.now postings.now positions.now norms.now
        live.now columns.now values.now) query.now k t (work (length states.old) (length starts.old)
        (length other_starts.old) (length ranges.old)) hits.old hits.new answer.old answer.new result }
    ensures kept { LotKept result states.old states.new starts.old starts.new
        other_starts.old other_starts.new ranges.old ranges.new }
{
    let lent = Lent {
        max_doc,
        fields,
        leaves,
        postings,
        positions,
        norms,
        live,
        columns,
        values,
    };
    let mut buffers = Buffers {
        states,
        starts,
        other_starts,
        ranges,
    };
    if answer.len() < 3 {
        let work = buffers.lengths();
        let refused = check_order::search_refusal(&lent, query, k, work, hits.len());
        return short_answer(&refused, Refusal::Buffers);
    }
    let found = searcher::search::search(&lent, query, k, t, &mut buffers, hits);
    answer_top_docs(found, answer)
}

// Kept: the C interface hands over each slice and number by itself, so its clauses name them one by one.
pub fn lot_page(
    max_doc: u32,
    fields: &[u32],
    leaves: &[u32],
    postings: &[u32],
    positions: &[u32],
    norms: &[u8],
    live: &[u64],
    columns: &[u32],
    values: &[u32],
    query: &[u32],
    target: u32,
    states: &mut [u32],
    starts: &mut [i32],
    other_starts: &mut [i32],
    ranges: &mut [u32],
    documents: &mut [u32],
    scores: &mut [u32],
    answer: &mut [u64],
) -> u32
    ensures pages { LotPages (lent max_doc fields.now leaves.now postings.now positions.now norms.now
        live.now columns.now values.now) query.now target (work (length states.old) (length starts.old)
        (length other_starts.old) (length ranges.old)) documents.old documents.new scores.old scores.new
        answer.old answer.new result }
    ensures kept { LotKept result states.old states.new starts.old starts.new
        other_starts.old other_starts.new ranges.old ranges.new }
{
    let lent = Lent {
        max_doc,
        fields,
        leaves,
        postings,
        positions,
        norms,
        live,
        columns,
        values,
    };
    let mut buffers = Buffers {
        states,
        starts,
        other_starts,
        ranges,
    };
    if answer.len() < 2 {
        let work = buffers.lengths();
        let refused = check_order::page_refusal(
            &lent,
            query,
            target,
            work,
            documents.len(),
            scores.len(),
        );
        return short_answer(&refused, Refusal::Buffers);
    }
    match searcher::page::page(&lent, query, target, &mut buffers, documents, scores) {
        Err(refusal) => refusal.number(),
        Ok(listed) => {
            answer[0] = listed.given as u64;
            answer[1] = listed.next as u64;
            0
        }
    }
}

// Kept: the C interface hands over documents and scores as two slices, and takes a refusal as its number.
pub fn lot_pick(
    documents: &[u32],
    scores: &[u32],
    k: u32,
    t: u32,
    hits: &mut [i64],
    answer: &mut [u64],
) -> u32
    ensures { LotPicks documents.now scores.now k t hits.old hits.new answer.old answer.new result }
{
    if answer.len() < 3 {
        let refused = entry_pick::pick_refusal(documents, scores, k, hits.len());
        return short_answer(&refused, Refusal::Buffers);
    }
    let found = entry_pick::pick(documents, scores, k, t, hits);
    answer_top_docs(found, answer)
}
