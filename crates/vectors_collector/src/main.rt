// What Pick answers for many lists, and what the codes of hits are; crates/vectors_collector/stdout has the answers
// of the unchanged Rust's TopScoreDocCollector, and of its own functions for codes (harness, `record`).
#![tactic(auto)]

ghost use Rattle.std.specs.Prelude.{◌≡◌, ◌<◌, ◌≤◌, true, false, not, T, length, is_nan, All};
ghost use Rattle.meaning.specs.CallRefusals.{wrong14};

use collector::{TopDocs, codes};
use index::postings::NO_MORE_DOCS;
use std::io;
use std::io::Write;
use vectors::Format;
use vectors::file::first;
use vectors::numbers::{Seeds, Sequence, below};
use vectors::print::{Hits, Pattern};

// Scores in rising order, from 0 to plus infinity.
const SCORES: [u32; 8] = [
    0x0000_0000,
    0x0000_0001,
    0x3f00_0000,
    0x3f80_0000,
    0x3f80_0001,
    0x4000_0000,
    0x7f7f_ffff,
    0x7f80_0000,
];

// Scores without their sign: zero, subnormal, normal and infinite.
const PATTERNS: [u32; 16] = [
    0x0000_0000,
    0x0000_0001,
    0x0000_0002,
    0x0000_ffff,
    0x0055_5555,
    0x007f_ffff,
    0x0080_0000,
    0x0080_0001,
    0x2aaa_aaaa,
    0x3eff_ffff,
    0x3f80_0000,
    0x3f80_0001,
    0x5555_5555,
    0x7f7f_fffe,
    0x7f7f_ffff,
    0x7f80_0000,
];

// A score's bits are at most these.
const PLUS_INFINITY: u32 = 0x7f80_0000;

// The most documents of a list, and the most hits that are asked for.
const DOCUMENTS: usize = 150;

const HITS: usize = 40;

// Whether the lists may be picked from: of one length, the documents rising and below 2147483647,
// the scores not negative.
// Kept: tried `is_sorted_by` and two `all`, and the proof did not close:
// that each answers its closure's test was not found.
fn is_good(documents: &[u32], scores: &[u32]) -> bool
    ensures { result ≡ true → wrong14 documents.now scores.now ≡ false }
{
    if documents.len() != scores.len() {
        return false;
    }
    let mut least = 0;
    for i in 0..documents.len() {
        let document = documents[i];
        if document < least {
            return false;
        }
        if document >= NO_MORE_DOCS {
            return false;
        }
        if scores[i] > PLUS_INFINITY {
            return false;
        }
        least = document + 1;
    }
    true
}

// The count, its mark, and the codes of the best hits.
fn print_picked(
    out: &mut impl Write,
    documents: &[u32],
    scores: &[u32],
    t: u32,
    heap: &mut [i64],
) -> io::Result<()>
    requires scores_value { wrong14 documents.now scores.now ≡ false }
    requires heap_nonzero { (0 < length heap.old) × (length heap.old ≤ 1024) }
{
    let TopDocs { held, count, mark } = collector::pick(documents, scores, t, heap);
    let codes = first(heap, held as usize);
    writeln!(out, "{}", Hits { count, mark, codes })
}

fn pick(out: &mut impl Write, documents: &[u32], scores: &[u32], k: usize, t: u32) -> io::Result<()>
    requires { (0 < k) × (k ≤ HITS) }
{
    let mut heap = [0i64; HITS];
    if is_good(documents, scores) {
        print_picked(out, documents, scores, t, &mut heap[..k])
    } else {
        writeln!(out, "refused")
    }
}

// How the scores of a list go.
#[derive(Clone, Copy)]
enum Order {
    // One of the eight: rising or falling twelve at a time, one of two, or any.
    RisingTwelve,
    FallingTwelve,
    OneOfTwo,
    OneOfEight,
    // Rising all along, falling all along, or any that is not negative.
    Rising,
    Falling,
    Any,
}

const ORDERS: [Order; 7] = [
    Order::RisingTwelve,
    Order::FallingTwelve,
    Order::OneOfTwo,
    Order::OneOfEight,
    Order::Rising,
    Order::Falling,
    Order::Any,
];

impl Order {
    // The i-th score, where a sequence's number is x.
    fn score(self, i: usize, x: u64) -> u32
        requires { i < DOCUMENTS }
    {
        match self {
            Order::RisingTwelve => SCORES[i * 2 / 3 % 8],
            Order::FallingTwelve => SCORES[7 - i * 2 / 3 % 8],
            Order::OneOfTwo => SCORES[3 + (x % 2) as usize],
            Order::OneOfEight => SCORES[(x % 8) as usize],
            Order::Rising => 0x3f80_0000 + i as u32,
            Order::Falling => 0x3f80_0000 + (DOCUMENTS - i) as u32,
            Order::Any => below(x, PLUS_INFINITY + 1),
        }
    }
}

// Lists to pick from: where the documents begin, and how the scores go.
#[derive(Clone, Copy)]
struct Lists {
    base: u32,
    order: Order,
}

impl Lists {
    // So many documents, each above the one before by 1 to 3, and zeros after them.
    fn documents(self, n: usize, seed: u64) -> [u32; DOCUMENTS]
        requires { n ≤ DOCUMENTS }
        ensures { DOCUMENTS ≡ length result }
    {
        let mut documents = [0u32; DOCUMENTS];
        let mut document = self.base;
        for (place, x) in documents[..n].iter_mut().zip(Sequence(seed)) {
            *place = document;
            document = document.wrapping_add(1 + below(x, 3));
        }
        documents
    }

    // So many scores, and zeros after them.
    fn scores(self, n: usize, seed: u64) -> [u32; DOCUMENTS]
        requires { n ≤ DOCUMENTS }
        ensures { DOCUMENTS ≡ length result }
    {
        let mut scores = [0u32; DOCUMENTS];
        for ((i, place), x) in scores[..n].iter_mut().enumerate().zip(Sequence(seed)) {
            *place = self.order.score(i, x);
        }
        scores
    }

    // n documents and scores from a seed.
    fn ask(self, out: &mut impl Write, seed: u64, n: usize, k: usize, t: u32) -> io::Result<()>
        requires n_bound { n ≤ DOCUMENTS }
        requires k_nonzero { (0 < k) × (k ≤ HITS) }
    {
        let documents = self.documents(n, seed);
        let scores = self.scores(n, seed ^ 0x5555_5555_5555_5555);
        pick(out, &documents[..n], &scores[..n], k, t)
    }

    // Lists of 0 to 12 documents, k from 1 to 6, and thresholds from 0 to 13.
    fn ask_each(self, out: &mut impl Write, times: usize) -> io::Result<()> {
        for (i, seed) in (0..times).zip(Seeds(1)) {
            self.ask(out, seed, i % 13, 1 + i / 13 % 6, below(seed, 14))?;
        }
        Ok(())
    }

    // Lists of up to 150 documents, k from 7 to 40, and thresholds from 0 to 159.
    fn ask_long(self, out: &mut impl Write) -> io::Result<()> {
        for (i, seed) in (0..6).zip(Seeds(2)) {
            self.ask(
                out,
                seed,
                length_of(i, seed),
                7 + i % 6 * 33 / 5,
                below(seed, 160),
            )?;
        }
        Ok(())
    }
}

fn length_of(i: usize, seed: u64) -> usize
    ensures { result ≤ DOCUMENTS }
{
    if i % 2 == 0 {
        DOCUMENTS
    } else {
        12 + below(seed >> 32, 138) as usize
    }
}

fn ask_orders(out: &mut impl Write) -> io::Result<()> {
    for order in ORDERS {
        Lists { base: 0, order }.ask_long(out)?;
    }
    Ok(())
}

// A score's sortable int, and the score back from it.
fn print_sortable(out: &mut impl Write, score: f32) -> io::Result<()>
    requires { T (not (is_nan score)) }
{
    let int = codes::float_to_sortable_int(score);
    let back = codes::sortable_int_to_float(int);
    writeln!(out, "{int} {}", Pattern(back))
}

// The code of a document and its score, as its upper word, which has the sign, and its lower word;
// and both back from it.
fn print_coded(out: &mut impl Write, score: f32, document: u32) -> io::Result<()>
    requires t { T (not (is_nan score)) }
    requires document_bound { document ≤ 2147483647 }
{
    let code = codes::encode(document, score);
    let high = (code >> 32) as i32;
    let low = (code & 0xffff_ffff) as u32;
    let doc = codes::to_doc(code);
    let back = codes::to_score(code);
    writeln!(out, "{high} {low} {doc} {}", Pattern(back))
}

// A score alone, then with each of these documents.
fn print_pattern(out: &mut impl Write, score: f32, documents: &[u32]) -> io::Result<()>
    requires { All (λ document. document ≤ 2147483647) documents.now }
{
    if score.is_nan() {
        return writeln!(out, "nan");
    }
    print_sortable(out, score)?;
    for &document in documents {
        print_coded(out, score, document)?;
    }
    Ok(())
}

// A score's pattern and that of the other sign, with the first and the last documents.
fn print_signs(out: &mut impl Write, bits: u32) -> io::Result<()> {
    let documents = [0, 1, NO_MORE_DOCS - 1, NO_MORE_DOCS];
    print_pattern(out, f32::of(bits), &documents)?;
    print_pattern(out, f32::of(bits ^ 0x8000_0000), &documents)
}

fn codes_of_patterns(out: &mut impl Write) -> io::Result<()> {
    for bits in PATTERNS {
        print_signs(out, bits)?;
    }
    Ok(())
}

// Patterns and documents from a seed.
fn codes_of_any(out: &mut impl Write) -> io::Result<()> {
    for x in Sequence(3).take(128) {
        print_pattern(
            out,
            f32::of((x % 0x1_0000_0000) as u32),
            &[(x >> 33) as u32],
        )?;
    }
    Ok(())
}

fn main(rt: HostRuntime) -> io::Result<()> {
    let mut out = io::writer(&rt);
    for (base, order, times) in [
        (0, Order::RisingTwelve, 156),
        (0, Order::FallingTwelve, 156),
        (0, Order::OneOfTwo, 312),
        (0, Order::OneOfEight, 312),
        (2_147_483_610, Order::OneOfEight, 78),
    ] {
        Lists { base, order }.ask_each(&mut out, times)?;
    }
    ask_orders(&mut out)?;
    let last = Lists {
        base: 2_147_483_190,
        order: Order::OneOfEight,
    };
    last.ask_long(&mut out)?;
    codes_of_patterns(&mut out)?;
    codes_of_any(&mut out)?;
    out.flush()
}
