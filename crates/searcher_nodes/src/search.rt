// Search over node states as records.
ghost use Rattle.index.specs.IndexOf.{index_of};
ghost use Rattle.tree_records.specs.Records.{record_words};
ghost use Rattle.searcher.specs.WorkBuffers.{records_room};
ghost use Rattle.searcher.specs.Searches.{Searches};

use collector::TopDocs;
use index::lent::Lent;
use refusal::Refusal;
use searcher::buffers::Buffers;
use searcher::records::over_records;
use searcher::search::search;
use tree_records::NodeState;

// The records are the node states: an accepted call leaves the order's tree in them, a refused one leaves them as they
// were.
pub fn search_nodes(
    lent: &Lent,
    query: &[u32],
    k: u32,
    t: u32,
    buffers: &mut Buffers<'_, NodeState>,
    hits: &mut [i64],
) -> Result<TopDocs, Refusal>
    ensures { Searches (index_of lent.now) query.now k t (records_room buffers.old)
        (record_words buffers.new.states.now) buffers.old buffers.new hits.old hits.new result }
{
    let mut words = tree_records::zeros();
    over_records(
        &mut words,
        buffers,
        &mut |words: &mut Buffers<'_>| search(lent, query, k, t, words, hits),
    )
}
