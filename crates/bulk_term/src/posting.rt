// The score of one posting of a term.
ghost use Rattle.std.specs.Prelude.{◌≡◌, ℕ, ◌^◌};
ghost use Rattle.meaning.specs.Lent.{Index};
ghost use Rattle.tree_weight.specs.Held.{largest_score};
ghost use Rattle.ieee754.specs.Nonneg.{AtMost};
ghost use Rattle.tree_weight.specs.ScorerTree.{term, Scoring, leaf_score};
ghost use Rattle.bulk_term.specs.Postings.{PostingAsks};

use score_leaf::ScoreNode;

// The term's node and the posting's frequency are read by the caller, once for a run and once for a posting.
pub fn posting_score(n: ScoreNode, norms: &[u8], inverses: &[f32], frequency: u32, doc: u32) -> f32
    requires { (ix : Index) × (l : ℕ) × (sc : Scoring)
        × PostingAsks ix inverses.now norms.now l sc n frequency doc }
    ensures { (ix : Index) (l : ℕ) (sc : Scoring)
        → PostingAsks ix inverses.now norms.now l sc n frequency doc
        → (result ≡ leaf_score ix (term l) sc doc) × AtMost largest_score result }
{
    match n.constant_score() {
        Some(score) => score,
        None => score_leaf::weighted(norms, inverses, n, frequency, doc),
    }
}
