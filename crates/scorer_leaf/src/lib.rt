// Scorers without children: the documents of a run, all documents, or a phrase.
#![tactic(auto)]

ghost use Rattle.std.specs.Prelude.{◌≡◌, ℕ, ◌+◌, ◌*◌, ◌%◌, ◌≤◌, ◌<◌, length, get_or};
ghost use Rattle.meaning.specs.Limits.{node_state_words, no_more_docs};
ghost use Rattle.index.specs.declared.postings.TheConstants.{POSTING_WORDS};
ghost use Rattle.phrase.specs.Terms.{TERM_WORDS};
ghost use Rattle.tree_weight.specs.declared.layout.TheConstants.{FIRST, CURSOR};
ghost use Rattle.scorer_leaf.specs.Search.{CursorRead, SearchPre, SearchPost, AnyDocument, FirstSet, SeekRangePre, SeekRangePost};
ghost use Rattle.scorer_leaf.specs.Phrases.{TermsPre, PassTermsPost, LeapfrogPost, EachRecord, PostingsThere, GatherPost, FrequencyByPre, FrequencyByPost, FrequencyPre, FrequencyPost, SeekPhrasePre, SeekPhrasePost, PhraseAtPost};
ghost use Rattle.scorer_leaf.specs.Calls.{lists_of, SeekPre, SeekPost};
ghost use Rattle.scorer_leaf.specs.Buffers.{room, other_room, SameBuffers};

pub use index::postings::NO_MORE_DOCS;
use index::postings::{POSITIONS, POSTING_WORDS};
use phrase::{TERM_FREQUENCY, TERM_OFFSET, TERM_WORDS};
use run::{Postings, document};
use tree_node::NodeKind;
use tree_weight::NODE_STATE_WORDS;
use tree_weight::layout::{CURSOR, FIRST, FREQUENCY, FREQUENCY_OF, KIND, NUMBER, OFFSET};

// What is read beside a tree's words: slices of the index, the inverse norms of its fields, and the bitmaps of ranges.
#[derive(Clone, Copy)]
pub struct LeafReader<'a> {
    pub max_doc: u32,
    pub postings: &'a [u32],
    pub positions: &'a [u32],
    pub norms: &'a [u8],
    pub inverses: &'a [f32],
    pub ranges: &'a [u32],
    pub live: &'a [u64],
}

// The two buffers for the starts of a phrase's terms in a document.
#[derive(Drop)]
pub struct PhraseBuffers<'a> {
    pub starts: &'a mut [i32],
    pub other_starts: &'a mut [i32],
}

// The words of four terms of a phrase.
const FOUR_TERMS: usize = 4 * NODE_STATE_WORDS;

// Room for the gathered words of four terms, and of as many as a phrase may have.
const FOUR_GATHERED: usize = 4 * TERM_WORDS;

const ALL_GATHERED: usize = 32 * TERM_WORDS;

// A record's run of postings: its first place, how many documents it has, and how many are passed.
#[derive(Clone, Copy)]
pub struct Cursor {
    pub first: usize,
    pub number: usize,
    pub cursor: usize,
}

fn cursor_at(states: &[u32]) -> Cursor
    requires { node_state_words ≤ length states.now }
    ensures { CursorRead states.now result.first result.number result.cursor }
{
    Cursor {
        first: states[FIRST] as usize,
        number: states[NUMBER] as usize,
        cursor: states[CURSOR] as usize,
    }
}

// Moves a record's cursor to the first document at or after the target.
// Kept: a rule of the project: a public function keeps what it promised, and this one promises it of every stride.
pub fn search(states: &mut [u32], words: &[u32], stride: usize, target: u32) -> u32
    requires { SearchPre words.now stride states.old target }
    ensures { SearchPost words.now stride states.old target result states.new }
{
    let Cursor {
        first,
        number: count,
        cursor,
    } = cursor_at(states);
    let run = Postings {
        words,
        stride,
        first,
        count,
    };
    let at = run.lower(cursor, target);
    states[CURSOR] = at as u32;
    if at < run.count {
        run.document(at)
    } else {
        NO_MORE_DOCS
    }
}

// The same for postings: mostly the next one is wanted, which needs no search.
pub fn search_postings(states: &mut [u32], postings: &[u32], target: u32) -> u32
    requires { SearchPre postings.now POSTING_WORDS states.old target }
    ensures { SearchPost postings.now POSTING_WORDS states.old target result states.new }
{
    let Cursor {
        first,
        number,
        cursor,
    } = cursor_at(states);
    let next = cursor + 1;
    if next < number && document(postings, POSTING_WORDS, first, cursor) < target {
        let d = document(postings, POSTING_WORDS, first, next);
        if target <= d {
            states[CURSOR] = next as u32;
            return d;
        }
    }
    search(states, postings, POSTING_WORDS, target)
}

// The next bit that is set in a bitmap, at or after the target.
fn next_set(bitmap: &[u32], target: u32) -> u32
    requires { 32 * length bitmap.now ≤ no_more_docs }
    ensures { FirstSet bitmap.now 0 (length bitmap.now) target result }
{
    let mut skip = target % 32;
    for at in (target / 32) as usize..bitmap.len() {
        let below = bits::first_bits(skip);
        let w = bits::without(u64::from(bitmap[at]), below);
        if w != 0 {
            return 32 * at as u32 + bits::lowest(w);
        }
        skip = 0;
    }
    NO_MORE_DOCS
}

// The next document of a range.
pub fn seek_range(states: &[u32], ranges: &[u32], target: u32) -> u32
    requires { SeekRangePre ranges.now states.now }
    ensures { SeekRangePost ranges.now states.now target result }
{
    let first = states[FIRST] as usize;
    let end = first + states[NUMBER] as usize;
    next_set(&ranges[first..end], target)
}

fn everything(max_doc: u32, target: u32) -> u32
    ensures { AnyDocument max_doc target result }
{
    if target < max_doc {
        target
    } else {
        NO_MORE_DOCS
    }
}

// The document to which a pass over the terms of a phrase got, and whether all of them stand there.
// Kept: no plainer as a Result: the document is there whether or not all terms stand at it.
#[derive(Clone, Copy)]
pub struct Pass {
    pub doc: u32,
    pub hit: bool,
}

// Advances each term to where the one before it got. All stand there if none after the first moved on: then one pass is
// enough.
fn pass_terms(terms: &mut [u32], postings: &[u32], target: u32) -> Pass
    requires { TermsPre postings.now terms.old target }
    ensures { PassTermsPost postings.now terms.old target result.doc result.hit terms.new }
{
    let mut d = target;
    let mut hit = true;
    for at in (0..terms.len()).step_by(NODE_STATE_WORDS) {
        let end = at + NODE_STATE_WORDS;
        let e = search(&mut terms[at..end], postings, POSTING_WORDS, d);
        if e != d {
            d = e;
            hit = at == 0;
        }
    }
    Pass { doc: d, hit }
}

// The first document that all terms of a phrase have: the terms are advanced in turn until all stand on one.
fn leapfrog(terms: &mut [u32], postings: &[u32], target: u32) -> u32
    requires { TermsPre postings.now terms.old target }
    ensures { LeapfrogPost postings.now terms.old target result terms.new }
{
    let mut d = target;
    // Kept: each turn begins where the answer of the one before lies; a loop is plainer than an iterator of such steps.
    loop {
        let p = pass_terms(terms, postings, d);
        if p.hit {
            return p.doc;
        }
        d = p.doc;
    }
}

// The word of a term's posting in the document where its record's cursor stands.
fn posting_of(terms: &[u32], at: usize) -> usize
    requires { at + node_state_words ≤ length terms.now }
    ensures { result ≡ POSTING_WORDS * (get_or terms.now (at + FIRST) 0 + get_or terms.now (at + CURSOR) 0) }
{
    POSTING_WORDS * (terms[at + FIRST] as usize + terms[at + CURSOR] as usize)
}

// Writes for each term of a phrase in a document the index of its first position, its frequency and its offset;
// `posting` gives the place of a term's posting, by that of its record.
// Kept: no plainer as the front lent on: its one caller cuts it where it lends it to `phrase`.
#[inline(always)]
fn gather<F: Fn(usize) -> usize>(
    terms: &[u32],
    postings: &[u32],
    out: &mut [u32],
    posting: F,
) -> usize
    requires may_ask { EachRecord (F.pre posting) (length terms.now) }
    requires there { PostingsThere postings.now (length terms.now) (F.post posting) }
    requires whole { length terms.now % node_state_words ≡ 0 }
    requires room { TERM_WORDS * length terms.now ≤ node_state_words * length out.old }
    ensures { GatherPost postings.now terms.now (F.post posting) result out.new }
{
    let mut n = 0;
    let mut at = 0;
    // Kept: a `for` over the terms' number is unrolled, and a document of a phrase of two takes 26 ns in place of 22.
    while at < terms.len() {
        let p = posting(at);
        out[n] = postings[p + POSITIONS];
        out[n + TERM_FREQUENCY] = postings[p + index::postings::FREQUENCY];
        out[n + TERM_OFFSET] = terms[at + OFFSET];
        n += TERM_WORDS;
        at += NODE_STATE_WORDS;
    }
    n
}

// The frequency of a phrase in a document that all its terms have; WORDS is the room for their gathered words.
fn frequency_in<const WORDS: usize, F: Fn(usize) -> usize>(
    terms: &[u32],
    reader: &LeafReader<'_>,
    buffers: &mut PhraseBuffers<'_>,
    posting: F,
) -> u32
    requires may_ask { EachRecord (F.pre posting) (length terms.now) }
    requires held { FrequencyByPre reader.now.postings.now reader.now.positions.now terms.now
        (F.post posting) (room buffers.old) (other_room buffers.old) }
    requires room { (TERM_WORDS * length terms.now ≤ node_state_words * WORDS) × (WORDS ≤ 32 * TERM_WORDS) }
    ensures frequency_post { FrequencyByPost reader.now.postings.now reader.now.positions.now terms.now
        (F.post posting) result }
    ensures same_buffers { SameBuffers buffers.old buffers.new }
{
    let mut words = [0u32; WORDS];
    let n = gather(terms, reader.postings, &mut words, posting);
    phrase::frequency(
        reader.positions,
        &words[..n],
        buffers.starts,
        buffers.other_starts,
    )
}

// The frequency of a phrase in a document that all its terms have; `posting` is as in `gather`. A phrase has at most 32
// terms, and most have up to four, for which fewer words are zeroed.
pub fn frequency_by<F: Fn(usize) -> usize>(
    terms: &[u32],
    reader: &LeafReader<'_>,
    buffers: &mut PhraseBuffers<'_>,
    posting: F,
) -> u32
    requires may_ask { EachRecord (F.pre posting) (length terms.now) }
    requires held { FrequencyByPre reader.now.postings.now reader.now.positions.now terms.now
        (F.post posting) (room buffers.old) (other_room buffers.old) }
    ensures frequency_post { FrequencyByPost reader.now.postings.now reader.now.positions.now terms.now
        (F.post posting) result }
    ensures same_buffers { SameBuffers buffers.old buffers.new }
{
    if terms.len() <= FOUR_TERMS {
        return frequency_in::<FOUR_GATHERED, _>(terms, reader, buffers, posting);
    }
    frequency_in::<ALL_GATHERED, _>(terms, reader, buffers, posting)
}

// The frequency in the document where the terms stand.
fn frequency(terms: &[u32], reader: &LeafReader<'_>, buffers: &mut PhraseBuffers<'_>) -> u32
    requires { FrequencyPre reader.now.postings.now reader.now.positions.now terms.now
        (room buffers.old) (other_room buffers.old) }
    ensures frequency_post { FrequencyPost reader.now.postings.now reader.now.positions.now terms.now result }
    ensures same_buffers { SameBuffers buffers.old buffers.new }
{
    frequency_by(terms, reader, buffers, |at| posting_of(terms, at))
}

// The first document at or after the target where a phrase stands; its frequency there is stored.
pub fn seek_phrase(
    states: &mut [u32],
    reader: &LeafReader<'_>,
    buffers: &mut PhraseBuffers<'_>,
    target: u32,
) -> u32
    requires { SeekPhrasePre reader.now.postings.now reader.now.positions.now (room buffers.old)
        (other_room buffers.old) states.old target }
    ensures phrase_post { SeekPhrasePost reader.now.postings.now reader.now.positions.now states.old
        target result states.new }
    ensures same_buffers { SameBuffers buffers.old buffers.new }
{
    let mut t = target;
    // Kept: each turn begins where the answer of the one before lies; a loop is plainer than an iterator of such steps.
    loop {
        let d = leapfrog(&mut states[NODE_STATE_WORDS..], reader.postings, t);
        if d == NO_MORE_DOCS {
            return d;
        }
        let n = frequency(&states[NODE_STATE_WORDS..], reader, buffers);
        if n != 0 {
            states[FREQUENCY_OF] = d + 1;
            states[FREQUENCY] = n;
            return d;
        }
        t = d + 1;
    }
}

// Tests a phrase at the target alone: the target if it matches there, and its frequency is stored; else a later
// document with no match before it. Positions are read only at the target.
pub fn phrase_at(
    states: &mut [u32],
    reader: &LeafReader<'_>,
    buffers: &mut PhraseBuffers<'_>,
    target: u32,
) -> u32
    requires { SeekPhrasePre reader.now.postings.now reader.now.positions.now (room buffers.old)
        (other_room buffers.old) states.old target }
    ensures phrase_at_post { PhraseAtPost reader.now.postings.now reader.now.positions.now
        states.old target result states.new }
    ensures same_buffers { SameBuffers buffers.old buffers.new }
{
    let p = pass_terms(&mut states[NODE_STATE_WORDS..], reader.postings, target);
    let d = p.doc;
    if d != target {
        return d;
    }
    if d == NO_MORE_DOCS {
        return d;
    }
    let n = frequency(&states[NODE_STATE_WORDS..], reader, buffers);
    if n == 0 {
        return d + 1;
    }
    states[FREQUENCY_OF] = d + 1;
    states[FREQUENCY] = n;
    d
}

// The first document at or after the target that a leaf of any kind matches.
pub fn seek(
    states: &mut [u32],
    reader: &LeafReader<'_>,
    buffers: &mut PhraseBuffers<'_>,
    target: u32,
) -> u32
    requires { SeekPre (lists_of reader.now) (room buffers.old) (other_room buffers.old) states.old target }
    ensures leaf_post { SeekPost (lists_of reader.now) states.old target result states.new }
    ensures same_buffers { SameBuffers buffers.old buffers.new }
{
    match NodeKind::from(states[KIND]) {
        NodeKind::Term => search_postings(states, reader.postings, target),
        NodeKind::Phrase => seek_phrase(states, reader, buffers, target),
        NodeKind::Range => seek_range(states, reader.ranges, target),
        _ => everything(reader.max_doc, target),
    }
}
