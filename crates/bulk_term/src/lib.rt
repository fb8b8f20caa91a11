// A term at the root: the postings of its run, one after the other.
#![tactic(auto)]

ghost use Rattle.std.specs.Prelude.{◌≡◌, ℕ, get_or};
ghost use Rattle.tree_weight.specs.declared.layout.TheConstants.{KIND};
ghost use Rattle.scorer.specs.Calls.{Lists};
ghost use Rattle.bulk_scorer.specs.Collects.{CollectPre, CollectPost};

use collector::TopScoreDocCollector;
use index::postings::POSTING_WORDS;
use posting::posting_score;
use scorer_leaf::LeafReader;

pub mod posting;

// The term's live documents to the collector, each plus `doc_base`; its words stay as they are.
// Not inlined: within the search its loop has too few registers, and an order of one word takes 1.06 of the time
// (measured).
#[inline(never)]
pub fn collect_term(
    states: &[u32],
    reader: &LeafReader<'_>,
    doc_base: u32,
    c: TopScoreDocCollector,
    heap: &mut [i64],
) -> TopScoreDocCollector
    requires { (E : Lists) × (places : ℕ) × (depth : ℕ) × (E.postings ≡ reader.now.postings.now)
        × (get_or states.now KIND 0 ≡ 1)
        × CollectPre E reader.now.norms.now reader.now.live.now reader.now.inverses.now places
        states.now depth doc_base c heap.old }
    ensures { (E : Lists) (places depth : ℕ) → E.postings ≡ reader.now.postings.now
        → CollectPost E reader.now.norms.now reader.now.live.now reader.now.inverses.now places
        states.now depth doc_base c heap.old result heap.new }
{
    let n = score_leaf::score_node_at(states);
    let from = POSTING_WORDS * n.first;
    let (postings, _) = reader.postings[from..from + POSTING_WORDS * n.number].as_chunks::<
        POSTING_WORDS,
    >();
    // Read once: the heap's stores would have them read again at each posting.
    let live = reader.live;
    let norms = reader.norms;
    let inverses = reader.inverses;
    let mut c = c;
    for [doc, frequency, _] in postings {
        if index::live::is_live(live, *doc) {
            let s = posting_score(n, norms, inverses, *frequency, *doc);
            c = c.stepped(heap, doc_base + *doc, s);
        }
    }
    c
}
