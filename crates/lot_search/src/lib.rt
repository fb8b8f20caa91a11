// The functions that C and Rust call, made into liblot_search.a: each is the function of `border` that has its name,
// and states its clauses again.
#![tactic(auto)]

pub mod write_index;

ghost use Rattle.std.specs.Prelude.{length};
ghost use Rattle.index.specs.Slices.{lent};
ghost use Rattle.check_order.specs.WorkOf.{work};
ghost use Rattle.border.specs.Border.{LotSearches, LotPages, LotPicks, LotKept};

// Kept: the C interface hands over each slice and number by itself, so its clauses name them one by one.
#[unsafe(no_mangle)]
pub extern "C" fn lot_search(
    max_doc: u32,
    fields: &[u32],
    leaves: &[u32],
    postings: &[u32],
    positions: &[u32],
    norms: &[u8],
    live: &[u64],
    columns: &[u32],
    values: &[u32],
    query: &[u32],
    k: u32,
    t: u32,
    states: &mut [u32],
    starts: &mut [i32],
    other_starts: &mut [i32],
    ranges: &mut [u32],
    hits: &mut [i64],
    answer: &mut [u64],
) -> u32
    ensures searches { LotSearches (lent max_doc fields.now leaves.now postings.now positions.now norms.now
        live.now columns.now values.now) query.now k t (work (length states.old) (length starts.old)
        (length other_starts.old) (length ranges.old)) hits.old hits.new answer.old answer.new result }
    ensures kept { LotKept result states.old states.new starts.old starts.new
        other_starts.old other_starts.new ranges.old ranges.new }
{
    border::lot_search(
        max_doc,
        fields,
        leaves,
        postings,
        positions,
        norms,
        live,
        columns,
        values,
        query,
        k,
        t,
        states,
        starts,
        other_starts,
        ranges,
        hits,
        answer,
    )
}

// Kept: the C interface hands over each slice and number by itself, so its clauses name them one by one.
#[unsafe(no_mangle)]
pub extern "C" fn lot_page(
    max_doc: u32,
    fields: &[u32],
    leaves: &[u32],
    postings: &[u32],
    positions: &[u32],
    norms: &[u8],
    live: &[u64],
    columns: &[u32],
    values: &[u32],
    query: &[u32],
    target: u32,
    states: &mut [u32],
    starts: &mut [i32],
    other_starts: &mut [i32],
    ranges: &mut [u32],
    documents: &mut [u32],
    scores: &mut [u32],
    answer: &mut [u64],
) -> u32
    ensures pages { LotPages (lent max_doc fields.now leaves.now postings.now positions.now norms.now
        live.now columns.now values.now) query.now target (work (length states.old) (length starts.old)
        (length other_starts.old) (length ranges.old)) documents.old documents.new scores.old scores.new
        answer.old answer.new result }
    ensures kept { LotKept result states.old states.new starts.old starts.new
        other_starts.old other_starts.new ranges.old ranges.new }
{
    border::lot_page(
        max_doc,
        fields,
        leaves,
        postings,
        positions,
        norms,
        live,
        columns,
        values,
        query,
        target,
        states,
        starts,
        other_starts,
        ranges,
        documents,
        scores,
        answer,
    )
}

// Kept: the C interface hands over documents and scores as two slices, and takes a refusal as its number.
#[unsafe(no_mangle)]
pub extern "C" fn lot_pick(
    documents: &[u32],
    scores: &[u32],
    k: u32,
    t: u32,
    hits: &mut [i64],
    answer: &mut [u64],
) -> u32
    ensures { LotPicks documents.now scores.now k t hits.old hits.new answer.old answer.new result }
{
    border::lot_pick(documents, scores, k, t, hits, answer)
}
