// Page where the node states hold the order's tree already: the walk goes on from there, and nothing is built.
ghost use Rattle.index.specs.IndexOf.{index_of};
ghost use Rattle.searcher.specs.WorkBuffers.{lengths_of};
ghost use Rattle.searcher.specs.Pages.{Pages, Resumable};

use crate::buffers::Buffers;
use crate::page::list_page;
use index::lent::Lent;
use refusal::Refusal;
use walk::Listed;

pub fn resume(
    lent: &Lent,
    query: &[u32],
    target: u32,
    buffers: &mut Buffers<'_>,
    documents: &mut [u32],
    scores: &mut [u32],
) -> Result<Listed, Refusal>
    requires { Resumable (index_of lent.now) query.now target (lengths_of buffers.old)
        buffers.old.states.now buffers.old documents.old scores.old }
    ensures { Pages (index_of lent.now) query.now target (lengths_of buffers.old) buffers.new.states.now
        buffers.old buffers.new documents.old documents.new scores.old scores.new result }
{
    let work = buffers.lengths();
    check_order::page_refusal(lent, query, target, work, documents.len(), scores.len())?;
    Ok(list_page(lent, query, target, buffers, documents, scores))
}
