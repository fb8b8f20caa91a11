// Page: the first live documents at or after a target that an order takes, with their scores, and the next one.
ghost use Rattle.std.specs.Prelude.{◌≡◌, false, ◌≤◌, length};
ghost use Rattle.meaning.specs.CallRefusals.{work_short};
ghost use Rattle.meaning.specs.Entries.{page_of};
ghost use Rattle.index.specs.IndexOf.{index_of};
ghost use Rattle.tree_weight.specs.Measured.{AcceptedOrder};
ghost use Rattle.scorer_leaf.specs.Buffers.{SameBuffers as SamePhrases};
ghost use Rattle.walk.specs.Walks.{PageIs};
ghost use Rattle.tree_records.specs.Standing.{Standing};
ghost use Rattle.searcher.specs.WorkBuffers.{lengths_of, SameWorkBuffers};
ghost use Rattle.searcher.specs.WalkLent.{ListAsks, ListGives};
ghost use Rattle.searcher.specs.Pages.{Pages};

use crate::buffers::{Buffers, build_tree};
use crate::over_tree::over_tree;
use index::lent::Lent;
use query::MAX_DEPTH;
use refusal::Refusal;
use scorer_leaf::{LeafReader, PhraseBuffers};
use walk::Listed;

// The live matches of the tree from a document on.
fn list_tree(
    tree: &mut [u32],
    reader: &LeafReader<'_>,
    phrases: &mut PhraseBuffers<'_>,
    from: u32,
    documents: &mut [u32],
    scores: &mut [u32],
) -> Listed
    requires { ListAsks reader.now phrases.old tree.old from documents.old scores.old }
    ensures gives { ListGives reader.now phrases.old tree.old from documents.old scores.old result
        tree.new documents.new scores.new }
    ensures same_phrases { SamePhrases phrases.old phrases.new }
{
    walk::list(tree, reader, phrases, from, MAX_DEPTH, documents, scores)
}

// The page of the walk that goes on from the tree in the node states.
pub(crate) fn list_page(
    lent: &Lent,
    query: &[u32],
    target: u32,
    buffers: &mut Buffers<'_>,
    documents: &mut [u32],
    scores: &mut [u32],
) -> Listed
    requires target_le_max_doc { (target ≤ lent.now.max_doc) × (length documents.old ≡ length scores.old) }
    requires asks { AcceptedOrder (index_of lent.now) query.now
        × (work_short (index_of lent.now) query.now (lengths_of buffers.old) ≡ false) }
    requires standing { Standing (index_of lent.now) query.now buffers.old.ranges.now buffers.old.states.now
        target }
    ensures page { PageIs (page_of (index_of lent.now) query.now target (length documents.old))
        documents.old scores.old result documents.new scores.new }
    ensures standing { Standing (index_of lent.now) query.now buffers.new.ranges.now buffers.new.states.now
        result.next }
    ensures same_buffers { SameWorkBuffers buffers.old buffers.new }
{
    over_tree(
        lent,
        query,
        buffers,
        &mut |tree: &mut [u32], reader: &LeafReader<'_>, phrases: &mut PhraseBuffers<'_>| {
            list_tree(tree, reader, phrases, target, documents, scores)
        },
    )
}

// The documents and their scores' bits stand in the first places of the two outputs; the node states hold the order's
// tree, at the next match.
pub fn page(
    lent: &Lent,
    query: &[u32],
    target: u32,
    buffers: &mut Buffers<'_>,
    documents: &mut [u32],
    scores: &mut [u32],
) -> Result<Listed, Refusal>
    ensures { Pages (index_of lent.now) query.now target (lengths_of buffers.old) buffers.new.states.now
        buffers.old buffers.new documents.old documents.new scores.old scores.new result }
{
    let work = buffers.lengths();
    check_order::page_refusal(lent, query, target, work, documents.len(), scores.len())?;
    build_tree(lent, query, buffers);
    Ok(list_page(lent, query, target, buffers, documents, scores))
}
