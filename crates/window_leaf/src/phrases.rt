// A phrase in a window: first the documents that all its terms have, then the positions in those alone.
ghost use Rattle.std.specs.Prelude.{◌≡◌, ◌+◌, ◌*◌, ◌<◌, ◌≤◌, length, get_or};
ghost use Rattle.meaning.specs.Limits.{node_state_words};
ghost use Rattle.index.specs.declared.postings.TheConstants.{POSTING_WORDS};
ghost use Rattle.tree_weight.specs.declared.layout.TheConstants.{FIRST, WINDOW_FIRST};
ghost use Rattle.scorer_leaf.specs.Buffers.{room, other_room, SameBuffers};
ghost use Rattle.window_leaf.specs.Asks.{PhraseBitsPre, PhraseBitsPost};
ghost use Rattle.window_leaf.specs.Phrases.{TermsBitsPre, TermsPost, rank_at, PostingPre, FrequencyAtPre, FrequencyAtPost, Noted, PlanesPre, PlanesPost, PlanesRead, PlanesPut};

use crate::{Found, Window, put, run_bits};
use bits::SetBits;
use index::postings::POSTING_WORDS;
use scorer_leaf::{PhraseBuffers, frequency_by};
use tree_weight::NODE_STATE_WORDS;
use tree_weight::layout::{
    FIRST, ONES_HIGH, ONES_LOW, TWOS_HIGH, TWOS_LOW, WINDOW_FIRST, WINDOW_HIGH, WINDOW_LOW,
    WINDOW_NEXT,
};

// The wanted documents that all terms have. A term is asked only where those before it left some.
pub fn terms_bits(terms: &mut [u32], postings: &[u32], base: u32, want: u64) -> Found
    requires { TermsBitsPre postings.now terms.old base }
    ensures { TermsPost postings.now terms.old base want result.bits result.next terms.new }
{
    let mut w = want;
    let mut next = base + 64;
    for at in (0..terms.len()).step_by(NODE_STATE_WORDS) {
        if w == 0 {
            return Found { bits: w, next };
        }
        let end = at + NODE_STATE_WORDS;
        w = bits::both(
            w,
            run_bits(&mut terms[at..end], postings, POSTING_WORDS, base),
        );
        next = next.max(terms[at + WINDOW_NEXT]);
    }
    Found { bits: w, next }
}

// The place of a term's posting of a document of the window: as many postings of it come before as bits lie below.
fn posting_at(terms: &[u32], at: usize, place: u32) -> usize
    requires { PostingPre terms.now at place }
    ensures { result ≡ POSTING_WORDS * (get_or terms.now (at + FIRST) 0
        + get_or terms.now (at + WINDOW_FIRST) 0 + rank_at terms.now at place) }
{
    let bits = bits::joined(terms[at + WINDOW_LOW], terms[at + WINDOW_HIGH]);
    let before = bits::rank(bits, place);
    POSTING_WORDS
        * (terms[at + FIRST] as usize + terms[at + WINDOW_FIRST] as usize + before as usize)
}

// The frequency of a phrase at a place that all its terms have.
// Kept: no plainer as one struct of the two, here and below: of them only `buffers` is lent for writing; with the
// window in it, each clause would also say that it stays.
pub fn frequency_at(
    terms: &[u32],
    window: &Window<'_>,
    buffers: &mut PhraseBuffers<'_>,
    place: u32,
) -> u32
    requires { FrequencyAtPre window.now.reader.postings.now window.now.reader.positions.now terms.now
        (room buffers.old) (other_room buffers.old) window.now.base place }
    ensures frequency_post { FrequencyAtPost window.now.reader.postings.now
        window.now.reader.positions.now terms.now window.now.base place result }
    ensures same_buffers { SameBuffers buffers.old buffers.new }
{
    frequency_by(
        terms,
        &window.reader,
        buffers,
        |at| posting_at(terms, at, place),
    )
}

// The two lower digits of the frequencies of a window, 3 where they are 3 or more.
#[derive(Clone, Copy)]
pub struct Planes {
    pub ones: u64,
    pub twos: u64,
}

impl Planes {
    // Those of a phrase's record.
    pub fn at(states: &[u32]) -> Planes
        requires { node_state_words ≤ length states.now }
        ensures { PlanesRead states.now result.ones result.twos }
    {
        Planes {
            ones: bits::joined(states[ONES_LOW], states[ONES_HIGH]),
            twos: bits::joined(states[TWOS_LOW], states[TWOS_HIGH]),
        }
    }

    // Stores them in a phrase's record.
    fn put(self, states: &mut [u32])
        requires { node_state_words ≤ length states.old }
        ensures { PlanesPut states.old self.ones self.twos states.new }
    {
        states[ONES_LOW] = bits::low(self.ones);
        states[ONES_HIGH] = bits::high(self.ones);
        states[TWOS_LOW] = bits::low(self.twos);
        states[TWOS_HIGH] = bits::high(self.twos);
    }
}

// Notes the frequency at a place in the two planes, as 3 where it is more.
fn noted(planes: Planes, place: u32, frequency: u32) -> Planes
    requires { place < 64 }
    ensures { Noted planes.ones planes.twos place frequency result.ones result.twos }
{
    match frequency {
        0 => planes,
        1 => Planes {
            ones: bits::set_bit(planes.ones, place),
            ..planes
        },
        2 => Planes {
            twos: bits::set_bit(planes.twos, place),
            ..planes
        },
        _ => Planes {
            ones: bits::set_bit(planes.ones, place),
            twos: bits::set_bit(planes.twos, place),
        },
    }
}

// The frequencies at the candidates, one by one.
fn planes_of(
    terms: &[u32],
    window: &Window<'_>,
    buffers: &mut PhraseBuffers<'_>,
    candidates: u64,
) -> Planes
    requires { PlanesPre window.now.reader.postings.now window.now.reader.positions.now terms.now
        (room buffers.old) (other_room buffers.old) window.now.base candidates }
    ensures planes_post { PlanesPost window.now.reader.postings.now window.now.reader.positions.now
        terms.now window.now.base candidates result.ones result.twos }
    ensures same_buffers { SameBuffers buffers.old buffers.new }
{
    let mut planes = Planes { ones: 0, twos: 0 };
    for place in (SetBits { left: candidates }) {
        let f = frequency_at(terms, window, buffers, place);
        planes = noted(planes, place, f);
    }
    planes
}

// The wanted documents where the phrase stands; their frequencies are stored as planes.
pub fn phrase_bits(
    states: &mut [u32],
    window: &Window<'_>,
    buffers: &mut PhraseBuffers<'_>,
    want: u64,
) -> u64
    requires { PhraseBitsPre window.now.reader.postings.now window.now.reader.positions.now
        (room buffers.old) (other_room buffers.old) states.old window.now.base }
    ensures phrase_post { PhraseBitsPost window.now.reader.postings.now window.now.reader.positions.now
        states.old window.now.base want result states.new }
    ensures same_buffers { SameBuffers buffers.old buffers.new }
{
    let t = terms_bits(
        &mut states[NODE_STATE_WORDS..],
        window.reader.postings,
        window.base,
        want,
    );
    let planes = planes_of(&states[NODE_STATE_WORDS..], window, buffers, t.bits);
    let w = bits::either(planes.ones, planes.twos);
    planes.put(states);
    put(states, w, t.next);
    w
}
