// Page over node records beside Page over words, page by page: between two steps over records there is nothing but the
// records. crates/vectors_page_nodes/stdout is written from document 01's text: a page is its documents, each with its
// score's bits, and the next match.
#![tactic(auto)]

ghost use Rattle.std.specs.Prelude.{◌≡◌, ◌≤◌};
ghost use Rattle.index.specs.IndexOf.{index_of};
ghost use Rattle.tree_records.specs.Records.{record_words};
ghost use Rattle.tree_records.specs.Standing.{Standing};
ghost use Rattle.vectors_page_nodes.specs.Next.{next_of, StandsNext};

use index::lent::Lent;
use refusal::Refusal;
use searcher::buffers::Buffers;
use searcher::page::page;
use searcher_nodes::page::{page_nodes, resume_nodes};
use std::fmt::{Display, Formatter};
use std::io::Write;
use std::{fmt, io};
use tree_records::NodeState;
use tree_weight::NODE_STATE_WORDS;
use vectors::file::first;
use vectors::print;
use vectors_node_cases::{QUERY, RUBBISH, WHOLE_CASE};
use walk::Listed;

// One field with positions; two leaves in the documents 0, 1, 3, 4 and 5, next to each other in all of them but 1; 5 is
// dead. The column's values are 17, 18, 18, 20, 18, 17.
const PHRASE_CASE: Lent<'static> = Lent {
    max_doc: 6,
    fields: &[0x3f80_0000, 0, 1],
    leaves: &[0, 0, 5, 0x3f80_0000, 0, 5, 5, 0x3f80_0000],
    postings: &[
        0, 1, 0, 1, 1, 1, 3, 1, 2, 4, 1, 3, 5, 1, 4, 0, 1, 5, 1, 1, 6, 3, 1, 7, 4, 1, 8, 5, 1, 9,
    ],
    positions: &[1, 4, 7, 0, 3, 2, 9, 8, 1, 4],
    norms: &[],
    live: &[31],
    columns: &[0],
    values: &[1, 17, 0, 1, 18, 0, 1, 18, 0, 1, 20, 0, 1, 18, 0, 1, 17, 0],
};

// Boolean of Must ConstantScore(phrase of leaf 0 and leaf 1) and Must Range 17 to 18.
const PHRASE_QUERY: [u32; 54] = [
    3, 0, 2, 0, 0, 0, 0, 0, 0, 6, 1, 1, 0, 0, 0, 0, 0, 0, 2, 0, 2, 0, 0, 0, 0, 0, 0, 9, 0, 0, 0, 0,
    0, 0, 0, 0, 9, 0, 0, 1, 1, 0, 0, 0, 0, 4, 1, 0, 0, 4, 17, 0, 18, 0,
];

// Lent in the words and the range buffers before a call.
const RUBBISH_WORD: u32 = 0xfeed_face;

// A page of one document.
#[derive(Clone, Copy, PartialEq, Eq)]
struct Page {
    listed: Result<Listed, Refusal>,
    documents: [u32; 1],
    scores: [u32; 1],
}

// The next match, where there is one and the call was not refused.
fn next_of(listed: Result<Listed, Refusal>) -> Option<u32>
    ensures { result ≡ next_of listed }
{
    match listed {
        Ok(Listed { next, .. }) if next != walk::NO_MORE_DOCS => Some(next),
        _ => None,
    }
}

// The page that a call fills.
fn page_of<F: FnMut(&mut [u32], &mut [u32]) -> Result<Listed, Refusal>>(f: &mut F) -> Page
    requires callable { (documents : _) (scores : _) → F.pre f.old documents scores }
    ensures { (documents : _) × (scores : _) × (given : _) × (bits : _)
        × F.step f.old documents scores result.listed given bits f.new }
{
    let mut documents = [0u32; 1];
    let mut scores = [0u32; 1];
    let listed = f(&mut documents, &mut scores);
    Page {
        listed,
        documents,
        scores,
    }
}

// From the first document, over the records.
fn first_page(lent: &Lent, query: &[u32], buffers: &mut Buffers<'_, NodeState>) -> Page
    ensures { StandsNext (index_of lent.now) query.now result.listed buffers.new }
{
    page_of(&mut |documents: &mut [u32], scores: &mut [u32]| page_nodes(
        lent, query, 0, buffers, documents, scores,
    ))
}

// From the records as the page before it left them.
fn next_page(lent: &Lent, query: &[u32], target: u32, buffers: &mut Buffers<'_, NodeState>) -> Page
    requires { Standing (index_of lent.now) query.now buffers.old.ranges.now
        (record_words buffers.old.states.now) target }
    ensures { StandsNext (index_of lent.now) query.now result.listed buffers.new }
{
    page_of(
        &mut |documents: &mut [u32], scores: &mut [u32]| resume_nodes(
            lent, query, target, buffers, documents, scores,
        ),
    )
}

// The same page from words that are built anew.
fn page_by_words(lent: &Lent, query: &[u32], target: u32, buffers: &mut Buffers<'_>) -> Page {
    page_of(&mut |documents: &mut [u32], scores: &mut [u32]| page(
        lent, query, target, buffers, documents, scores,
    ))
}

impl Display for Page {
    fn fmt<W: fmt::Write>(&self, f: &mut Formatter<W>) -> fmt::Result {
        match self.listed {
            Err(refusal) => write!(f, "refused {refusal} "),
            Ok(Listed { given, next }) => {
                let page = print::Page {
                    documents: first(&self.documents, given),
                    scores: first(&self.scores, given),
                    next,
                };
                write!(f, "{page}")
            }
        }
    }
}

fn print_both(out: &mut impl Write, by_records: Page, by_words: Page) -> io::Result<()> {
    writeln!(out, "{by_records}")?;
    writeln!(out, "{by_words}")?;
    let same = by_records == by_words;
    writeln!(out, "{}", if same { "same" } else { "different" })
}

// The order page by page from the first document, eight pages at most: over records, and over words.
fn page_through(
    out: &mut impl Write,
    lent: &Lent,
    query: &[u32],
    records: &mut Buffers<'_, NodeState>,
    words: &mut Buffers<'_>,
) -> io::Result<()> {
    let mut page = first_page(lent, query, records);
    print_both(out, page, page_by_words(lent, query, 0, words))?;
    for _ in 1..8 {
        let Some(target) = next_of(page.listed) else {
            return Ok(());
        };
        page = next_page(lent, query, target, records);
        print_both(out, page, page_by_words(lent, query, target, words))?;
    }
    Ok(())
}

// Eight states, where at most six are needed, so many starts in each phrase buffer and words in each range buffer.
fn print_case<const STARTS: usize, const WORDS: usize>(
    out: &mut impl Write,
    lent: &Lent,
    query: &[u32],
) -> io::Result<()>
    requires { (STARTS ≤ 12) × (WORDS ≤ 12) }
{
    let mut records = Buffers {
        states: &mut [RUBBISH; 8],
        starts: &mut [0i32; STARTS],
        other_starts: &mut [0i32; STARTS],
        ranges: &mut [RUBBISH_WORD; WORDS],
    };
    let mut words = Buffers {
        states: &mut [RUBBISH_WORD; 8 * NODE_STATE_WORDS],
        starts: &mut [0i32; STARTS],
        other_starts: &mut [0i32; STARTS],
        ranges: &mut [RUBBISH_WORD; WORDS],
    };
    page_through(out, lent, query, &mut records, &mut words)
}

fn main(rt: HostRuntime) -> io::Result<()> {
    let mut out = io::writer(&rt);
    print_case::<0, 0>(&mut out, &WHOLE_CASE, &QUERY)?;
    print_case::<1, 12>(&mut out, &PHRASE_CASE, &PHRASE_QUERY)?;
    out.flush()
}
