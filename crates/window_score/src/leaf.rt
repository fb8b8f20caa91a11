// The scores of a term and of a phrase at the wanted documents of a window.
ghost use Rattle.std.specs.Prelude.{◌≡◌, ℕ, ◌+◌, ◌≤◌, ◌<◌, length};
ghost use Rattle.std.specs.Float.{binary64};
ghost use Rattle.std.specs.Float.Ieee.{add};
ghost use Rattle.scorer_leaf.specs.Buffers.{room, other_room, SameBuffers};
ghost use Rattle.window_score.specs.Asked.{reads_of, TermScoresPre, TermScoresPost, PhraseScoresPre, PhraseScoresPost};
ghost use Rattle.score_leaf.specs.Words.{Bytes, weighted_score};
ghost use Rattle.window_score.specs.Places.{TermPlace, term_score_at, behind, FrequencyRead, PhrasePlace};
ghost use Rattle.window_leaf.specs.Phrases.{FrequencyAtPre};
ghost use Rattle.window_score.specs.Words.{PlanedIs};
ghost use Rattle.meaning.specs.Limits.{node_state_words};

use crate::stored_bits;
use crate::sums::{add_constant, change_sums};
use ieee754::add_score;
use index::postings::posting_frequency;
use score_leaf::{score_node_at, weighted};
use scorer_leaf::PhraseBuffers;
use tree_weight::NODE_STATE_WORDS;
use tree_weight::layout::WINDOW_FIRST;
use window_leaf::Window;
use window_leaf::phrases::{Planes, frequency_at};

// A term's posting at a place: as many postings of the window stand before it as bits below it.
pub fn term_scores(states: &[u32], window: &Window<'_>, want: u64, sums: &mut [f64])
    requires { TermScoresPre states.now (reads_of window.now) want sums.old }
    ensures { TermScoresPost states.now (reads_of window.now) want sums.old sums.new }
{
    // Read once: the stores to the sums would have them read again at each place.
    let postings = window.reader.postings;
    let norms = window.reader.norms;
    let inverses = window.reader.inverses;
    let base = window.base;
    let n = score_node_at(states);
    if let Some(score) = n.constant_score() {
        add_constant(score, want, sums);
        return;
    }
    let first = n.first + states[WINDOW_FIRST] as usize;
    let bits = stored_bits(states);
    change_sums(
        want,
        sums,
        &mut |sum, place|
            requires { TermPlace n norms.now inverses.now postings.now first bits base place }
            ensures score { result ≡ add binary64 sum
                (term_score_at n norms.entry.now inverses.entry.now postings.entry.now first bits base
                place) }
            ensures bytes { Bytes norms.entry.now }
        {
            let frequency = posting_frequency(postings, first, bits::rank(bits, place) as usize);
            let s = weighted(norms, inverses, n, frequency, base + place);
            add_score(sum, s)
        },
    );
}

// The frequency at a place as the planes have it: 3 where it is 3 or more.
fn planed(planes: Planes, place: u32) -> u32
    requires { place < 64 }
    ensures { PlanedIs planes place result }
{
    u32::from(bits::is_set(planes.ones, place)) + 2 * u32::from(bits::is_set(planes.twos, place))
}

// A phrase's frequency at a place: from the planes, or where these say 3 or more, from the positions again.
fn phrase_frequency(
    states: &[u32],
    planes: Planes,
    window: &Window<'_>,
    buffers: &mut PhraseBuffers<'_>,
    place: u32,
) -> u32
    requires long { node_state_words ≤ length states.now }
    requires asks { FrequencyAtPre window.now.reader.postings.now window.now.reader.positions.now
        (behind states.now) (room buffers.old) (other_room buffers.old) window.now.base place }
    ensures read { FrequencyRead window.now.reader.postings.now window.now.reader.positions.now
        states.now planes window.now.base place result }
    ensures same_buffers { SameBuffers buffers.old buffers.new }
{
    let frequency = planed(planes, place);
    if frequency == 3 {
        return frequency_at(&states[NODE_STATE_WORDS..], window, buffers, place);
    }
    frequency
}

// The scores of a phrase.
pub fn phrase_scores(
    states: &[u32],
    window: &Window<'_>,
    buffers: &mut PhraseBuffers<'_>,
    want: u64,
    sums: &mut [f64],
)
    requires { PhraseScoresPre states.now (reads_of window.now) (room buffers.old)
        (other_room buffers.old) want sums.old }
    ensures phrase_post { PhraseScoresPost states.now (reads_of window.now) (room buffers.old)
        (other_room buffers.old) want sums.old sums.new }
    ensures same_buffers { SameBuffers buffers.old buffers.new }
{
    let norms = window.reader.norms;
    let inverses = window.reader.inverses;
    let base = window.base;
    let n = score_node_at(states);
    let planes = Planes::at(states);
    change_sums(
        want,
        sums,
        &mut |sum, place|
            requires same { base ≡ window.now.base }
            requires there { PhrasePlace n norms.now inverses.now window.now.reader.postings.now
                window.now.reader.positions.now states.now planes (room buffers.now)
                (other_room buffers.now) base place }
            ensures score { (r : ℕ)
                × FrequencyRead window.entry.now.reader.postings.now
                window.entry.now.reader.positions.now states.entry.now planes base place r
                × (result ≡ add binary64 sum (weighted_score n norms.entry.now inverses.entry.now
                (base + place) r)) }
            ensures bytes { Bytes norms.entry.now }
            ensures same_buffers { SameBuffers buffers.entry.now buffers.exit.now }
        {
            let frequency = phrase_frequency(states, planes, window, buffers, place);
            let s = weighted(norms, inverses, n, frequency, base + place);
            add_score(sum, s)
        },
    );
}
