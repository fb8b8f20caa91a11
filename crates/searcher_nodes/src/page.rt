// Page over node states as records, and Page that goes on from the tree that stands in them.
ghost use Rattle.std.specs.Prelude.{◌≡◌, ◌*◌, length, take};
ghost use Rattle.meaning.specs.Limits.{node_state_words};
ghost use Rattle.index.specs.IndexOf.{index_of};
ghost use Rattle.tree_records.specs.Records.{record_words, held};
ghost use Rattle.searcher.specs.WorkBuffers.{records_room};
ghost use Rattle.searcher.specs.Pages.{Pages, Resumable};

use index::lent::Lent;
use query::MAX_RECORDS;
use refusal::Refusal;
use searcher::buffers::Buffers;
use searcher::page::page;
use searcher::records::over_records;
use searcher::resume::resume;
use tree_records::NodeState;
use tree_weight::NODE_STATE_WORDS;
use walk::Listed;

// The words of the records that a call can need.
fn words_of(buffers: &Buffers<'_, NodeState>) -> [u32; MAX_RECORDS * NODE_STATE_WORDS]
    ensures { take (node_state_words * held (length buffers.now.states.now)) result
        ≡ record_words (take (held (length buffers.now.states.now)) buffers.now.states.now) }
{
    tree_records::unpacked(buffers.states)
}

// An accepted call leaves the order's tree in the records, at the next match, and those behind it as they were; a
// refused one leaves all as they were.
pub fn page_nodes(
    lent: &Lent,
    query: &[u32],
    target: u32,
    buffers: &mut Buffers<'_, NodeState>,
    documents: &mut [u32],
    scores: &mut [u32],
) -> Result<Listed, Refusal>
    ensures { Pages (index_of lent.now) query.now target (records_room buffers.old)
        (record_words buffers.new.states.now) buffers.old buffers.new
        documents.old documents.new scores.old scores.new result }
{
    let mut record_words = words_of(buffers);
    over_records(
        &mut record_words,
        buffers,
        &mut |words: &mut Buffers<'_>| page(lent, query, target, words, documents, scores),
    )
}

// The same where the order's tree stands in the records: the walk goes on from them, and nothing is built.
pub fn resume_nodes(
    lent: &Lent,
    query: &[u32],
    target: u32,
    buffers: &mut Buffers<'_, NodeState>,
    documents: &mut [u32],
    scores: &mut [u32],
) -> Result<Listed, Refusal>
    requires { Resumable (index_of lent.now) query.now target (records_room buffers.old)
        (record_words buffers.old.states.now) buffers.old documents.old scores.old }
    ensures { Pages (index_of lent.now) query.now target (records_room buffers.old)
        (record_words buffers.new.states.now) buffers.old buffers.new
        documents.old documents.new scores.old scores.new result }
{
    let mut words = words_of(buffers);
    over_records(
        &mut words,
        buffers,
        &mut |words: &mut Buffers<'_>| resume(lent, query, target, words, documents, scores),
    )
}
