// Bulk scorers: every live match of a scorer tree to the collector, by the loop that suits the root.
#![tactic(auto)]

ghost use Rattle.scorer_leaf.specs.Calls.{lists_of};
ghost use Rattle.scorer_leaf.specs.Buffers.{places_in, SameBuffers};
ghost use Rattle.bulk_scorer.specs.Collects.{CollectPre, CollectPost, CollectEnd};

use collector::TopScoreDocCollector;
use scorer_leaf::{LeafReader, PhraseBuffers};
use tree_node::NodeKind;
use tree_weight::NODE_STATE_WORDS;
use tree_weight::layout::KIND;

pub mod alone;
pub mod everything;

// The live documents that the tree matches to the collector, each plus `doc_base`, Lucene's docBase.
// Kept: seven parameters: no plainer, as in `bulk_window` `collect_windows`.
pub fn collect_matches(
    states: &mut [u32],
    reader: &LeafReader<'_>,
    buffers: &mut PhraseBuffers<'_>,
    depth: u32,
    doc_base: u32,
    c: TopScoreDocCollector,
    heap: &mut [i64],
) -> TopScoreDocCollector
    requires { CollectPre (lists_of reader.now) reader.now.norms.now reader.now.live.now
        reader.now.inverses.now (places_in buffers.old) states.old depth doc_base c heap.old }
    ensures collect_post { CollectPost (lists_of reader.now) reader.now.norms.now reader.now.live.now
        reader.now.inverses.now (places_in buffers.old) states.old depth doc_base c heap.old result
        heap.new }
    ensures collect_end { CollectEnd (lists_of reader.now) reader.now.norms.now reader.now.live.now
        reader.now.inverses.now (places_in buffers.old) states.old depth states.new }
    ensures same_buffers { SameBuffers buffers.old buffers.new }
{
    let at = if alone::alone(states) {
        NODE_STATE_WORDS
    } else {
        0
    };
    let part = &states[at..];
    match NodeKind::from(part[KIND]) {
        NodeKind::Term => bulk_term::collect_term(part, reader, doc_base, c, heap),
        NodeKind::Everything => everything::collect_everything(part, reader, doc_base, c, heap),
        _ => bulk_window::collect_windows(states, reader, buffers, depth, doc_base, c, heap),
    }
}
