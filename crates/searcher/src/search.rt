// Search: the best k of the live documents that an order takes, their count, and the mark.
ghost use Rattle.std.specs.Prelude.{◌≡◌, false};
ghost use Rattle.meaning.specs.Limits.{no_more_docs};
ghost use Rattle.meaning.specs.Query.{query_tree};
ghost use Rattle.meaning.specs.FullList.{full_list};
ghost use Rattle.meaning.specs.CallRefusals.{work_short};
ghost use Rattle.index.specs.IndexOf.{index_of};
ghost use Rattle.collector.specs.Collected.{CollectorReady};
ghost use Rattle.tree_weight.specs.Measured.{AcceptedOrder};
ghost use Rattle.tree_records.specs.Standing.{Standing};
ghost use Rattle.scorer_leaf.specs.Buffers.{SameBuffers as SamePhrases};
ghost use Rattle.bulk_scorer.specs.Collects.{Continued};
ghost use Rattle.searcher.specs.WorkBuffers.{lengths_of, SameWorkBuffers};
ghost use Rattle.searcher.specs.WalkLent.{CollectAsks, CollectGives};
ghost use Rattle.searcher.specs.Searches.{Searches};

use crate::buffers::{Buffers, build_tree};
use crate::over_tree::over_tree;
use collector::{TopDocs, TopScoreDocCollector};
use index::lent::Lent;
use query::MAX_DEPTH;
use refusal::Refusal;
use scorer_leaf::{LeafReader, PhraseBuffers};

// The live documents that the tree takes, to the collector: those of one index, which keep their numbers.
fn collect_tree(
    tree: &mut [u32],
    reader: &LeafReader<'_>,
    phrases: &mut PhraseBuffers<'_>,
    collector: TopScoreDocCollector,
    heap: &mut [i64],
) -> TopScoreDocCollector
    requires { CollectAsks reader.now phrases.old tree.old collector heap.old }
    ensures gives { CollectGives reader.now phrases.old tree.old collector heap.old result heap.new tree.new }
    ensures same_phrases { SamePhrases phrases.old phrases.new }
{
    bulk::collect_matches(tree, reader, phrases, MAX_DEPTH, 0, collector, heap)
}

// One index: its tree is built, and the live documents that the order takes go to the collector.
fn collect(
    lent: &Lent,
    query: &[u32],
    buffers: &mut Buffers<'_>,
    collector: TopScoreDocCollector,
    heap: &mut [i64],
) -> TopScoreDocCollector
    requires asks { AcceptedOrder (index_of lent.now) query.now
        × (work_short (index_of lent.now) query.now (lengths_of buffers.old) ≡ false) }
    requires ready { CollectorReady 0 collector heap.old }
    ensures collected { Continued 0 lent.now.max_doc (full_list (index_of lent.now) (query_tree query.now))
        collector heap.old result heap.new }
    ensures standing { Standing (index_of lent.now) query.now buffers.new.ranges.now buffers.new.states.now
        no_more_docs }
    ensures same_buffers { SameWorkBuffers buffers.old buffers.new }
{
    build_tree(lent, query, buffers);
    over_tree(
        lent,
        query,
        buffers,
        &mut |tree: &mut [u32], reader: &LeafReader<'_>, phrases: &mut PhraseBuffers<'_>| {
            collect_tree(tree, reader, phrases, collector, heap)
        },
    )
}

// The hits stand as codes in the first places of the hits buffer; the node states hold the order's tree, asked for
// every document.
pub fn search(
    lent: &Lent,
    query: &[u32],
    k: u32,
    t: u32,
    buffers: &mut Buffers<'_>,
    hits: &mut [i64],
) -> Result<TopDocs, Refusal>
    ensures { Searches (index_of lent.now) query.now k t (lengths_of buffers.old) buffers.new.states.now
        buffers.old buffers.new hits.old hits.new result }
{
    let work = buffers.lengths();
    check_order::search_refusal(lent, query, k, work, hits.len())?;
    let heap = &mut hits[..k as usize];
    let collector = collect(
        lent,
        query,
        buffers,
        TopScoreDocCollector::new(t as u64),
        heap,
    );
    Ok(collector.top_docs(heap))
}
