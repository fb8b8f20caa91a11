// A root that matches everything: the live documents, one after the other, all with one score.
ghost use Rattle.std.specs.Prelude.{◌≡◌, List, ℕ, ◌^◌, get_or, Float};
ghost use Rattle.meaning.specs.Lent.{Index};
ghost use Rattle.tree_weight.specs.Held.{largest_score};
ghost use Rattle.ieee754.specs.Nonneg.{AtMost};
ghost use Rattle.tree_weight.specs.ScorerTree.{everything, Scoring, leaf_score};
ghost use Rattle.tree_weight.specs.declared.layout.TheConstants.{KIND};
ghost use Rattle.scorer.specs.Calls.{Lists};
ghost use Rattle.bulk_scorer.specs.Collects.{CollectPre, CollectPost};
ghost use Rattle.bulk_term.specs.Postings.{NodeScores};

use collector::TopScoreDocCollector;
use score_leaf::ScoreNode;
use scorer_leaf::LeafReader;

// The score of each document: the constant, or 0, since MatchAll has no frequency for BM25.
fn one_score(n: ScoreNode) -> f32
    requires { (sc : Scoring) × NodeScores sc n }
    ensures { (ix : Index) (sc : Scoring) (doc : ℕ) → NodeScores sc n
        → (result ≡ leaf_score ix everything sc doc) × AtMost largest_score result }
{
    n.constant_score().unwrap_or(0.0)
}

// The live documents to the collector, numbered on from a document base; the root's words stay as they are. Not
// inlined: within the search its loop took up to 1.3 times as long, by where it came to lie (measured).
#[inline(never)]
pub fn collect_everything(
    states: &[u32],
    reader: &LeafReader<'_>,
    doc_base: u32,
    c: TopScoreDocCollector,
    heap: &mut [i64],
) -> TopScoreDocCollector
    requires { (E : Lists) × (norms : List ℕ) × (table : List Float) × (places : ℕ) × (depth : ℕ)
        × (E.documents ≡ reader.now.max_doc) × (get_or states.now KIND 0 ≡ 5)
        × CollectPre E norms reader.now.live.now table places states.now depth doc_base c heap.old }
    ensures { (E : Lists) (norms : List ℕ) (table : List Float) (places depth : ℕ)
        → E.documents ≡ reader.now.max_doc
        → CollectPost E norms reader.now.live.now table places states.now depth doc_base c heap.old
        result heap.new }
{
    let s = one_score(score_leaf::score_node_at(states));
    let live = reader.live;
    let mut c = c;
    for doc in 0..reader.max_doc {
        if index::live::is_live(live, doc) {
            c = c.stepped(heap, doc_base + doc, s);
        }
    }
    c
}
