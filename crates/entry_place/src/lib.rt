// Place: a start at which a phrase of the order stands in a document.
#![tactic(auto)]

ghost use Rattle.std.specs.Prelude.{◌≡◌, ◌*◌, ◌≤◌, ◌<◌, length, take, Ok};
ghost use Rattle.meaning.specs.Query.{record_count, record_kind, record_children, phrase_terms_of};
ghost use Rattle.meaning.specs.CallRefusals.{wrong13_place};
ghost use Rattle.meaning.specs.Entries.{Kept, place_refusal, PlaceFound, PlaceAnswer};
ghost use Rattle.meaning.specs.Postings.{posting_at, frequency_of};
ghost use Rattle.index.specs.IndexOf.{index_of};
ghost use Rattle.tree_weight.specs.Measured.{AcceptedOrder};
ghost use Rattle.refusal.specs.Numbers.{refusal_of};
ghost use Rattle.check_order.specs.WorkOf.{place_work};
ghost use Rattle.phrase.specs.Terms.{TERM_WORDS};
ghost use Rattle.phrase.specs.Words.{first_of, phrase_words};
ghost use Rattle.entry_place.specs.Answers.{placed_numbers};
ghost use Rattle.entry_place.specs.Runs.{PlaceRunOk, PlaceLent};

use index::leaves::leaf_at;
use index::lent::Lent;
use index::postings::{POSTING_WORDS, posting_document, posting_frequency, posting_index};
use phrase::{TERM_FREQUENCY, TERM_OFFSET, TERM_WORDS};
use query::{Kind, MAX_PHRASE_TERMS};
use refusal::Refusal;
use run::lower;

// The words of the terms of one phrase.
const TERMS: usize = TERM_WORDS * MAX_PHRASE_TERMS;

// 13: no such document, no such record, or one that is no phrase.
// Kept: no plainer: `record_number, document` are Place's own two numbers, lent on; a struct would be made of them only
// to be taken apart here.
#[tactic(auto, unfolding(meaning::specs::CallRefusals::wrong13_place))]
fn wrong_place(lent: &Lent, query: &[u32], record_number: u32, document: u32) -> bool
    ensures { result ≡ wrong13_place (index_of lent.now) query.now record_number document }
{
    let at = record_number as usize;
    lent.max_doc <= document
        || query::record_count(query) <= at
        || query::kind_at(query, at) != Some(Kind::Phrase)
}

// The lowest of 1 to 10, 12 and 13 whose condition holds.
// Kept: the C interface lends the two phrase buffers each by itself, here and below, and `phrase::place` takes them so.
fn place_refusal(
    lent: &Lent,
    query: &[u32],
    record_number: u32,
    document: u32,
    starts: usize,
    other_starts: usize,
) -> Result<(), Refusal>
    ensures { refusal_of result ≡ place_refusal (index_of lent.now) query.now record_number document
        (place_work starts other_starts) }
{
    check_order::check_order(lent, query)?;
    if check_order::starts_short(lent, query, starts, other_starts) {
        return Err(Refusal::Buffers);
    }
    if wrong_place(lent, query, record_number, document) {
        return Err(Refusal::Target);
    }
    Ok(())
}

// The work of a call that is not refused.
fn locate(
    lent: &Lent,
    query: &[u32],
    record_number: u32,
    document: u32,
    starts: &mut [i32],
    other_starts: &mut [i32],
) -> Option<i32>
    requires { PlaceLent (index_of lent.now) query.now record_number document
        (length starts.old) (length other_starts.old) }
    ensures { PlaceFound (index_of lent.now) query.now record_number document (placed_numbers (Ok result)) }
{
    let at = record_number as usize;
    let count = query::children(query, at) as usize;
    let mut terms = [0u32; TERMS];
    write_terms(lent, query, at, document, &mut terms);
    phrase::place(
        lent.positions,
        &terms[..TERM_WORDS * count],
        starts,
        other_starts,
    )
}

// Where a term's positions in a document begin, and how many there are.
// Kept: no plainer as an Option: `first_of` and `frequency_of` give 0 without a posting, and `write_terms` writes both
// words either way.
#[derive(Clone, Copy)]
pub struct Occurrences {
    pub first: u32,
    pub frequency: u32,
}

// Those of a leaf, 0 and 0 without a posting.
fn occurrences_in(lent: &Lent, l: usize, document: u32) -> Occurrences
    requires { PlaceRunOk (index_of lent.now) l }
    ensures first { result.first
        ≡ first_of (index_of lent.now) l (posting_at (index_of lent.now) l document) }
    ensures frequency { result.frequency
        ≡ frequency_of (index_of lent.now) l (posting_at (index_of lent.now) l document) }
{
    let postings = lent.postings;
    let leaf = leaf_at(lent.leaves, l);
    let first = leaf.first as usize;
    let number = leaf.number as usize;
    let i = lower(postings, POSTING_WORDS, first, number, 0, document);
    if i < number {
        if posting_document(postings, first, i) == document {
            return Occurrences {
                first: posting_index(postings, first, i),
                frequency: posting_frequency(postings, first, i),
            };
        }
    }
    Occurrences {
        first: 0,
        frequency: 0,
    }
}

// The three words of each term of the phrase at `at` in a document: where its positions begin, how many there are, its
// offset.
// Kept: no plainer: words in one array, since `phrase::place` reads its terms as `phrase::frequency` does, for which
// `scorer_leaf` gathers words.
fn write_terms(lent: &Lent, query: &[u32], at: usize, document: u32, terms: &mut [u32; TERMS])
    requires asks { AcceptedOrder (index_of lent.now) query.now }
    requires phrase { (at < record_count query.now) × (record_kind query.now at ≡ 2) }
    ensures { take (TERM_WORDS * record_children query.now at) terms.new
        ≡ phrase_words (index_of lent.now) document (phrase_terms_of query.now at) }
{
    for j in 0..query::children(query, at) as usize {
        let term = at + 1 + j;
        let leaf = query::value(query, term, 0) as usize;
        let found = occurrences_in(lent, leaf, document);
        let place = TERM_WORDS * j;
        terms[place] = found.first;
        terms[place + TERM_FREQUENCY] = found.frequency;
        terms[place + TERM_OFFSET] = query::value(query, term, 1);
    }
}

// A start at which the phrase at the record stands in the document, live or not; any one.
pub fn place(
    lent: &Lent,
    query: &[u32],
    record_number: u32,
    document: u32,
    starts: &mut [i32],
    other_starts: &mut [i32],
) -> Result<Option<i32>, Refusal>
    ensures place_answer { PlaceAnswer (index_of lent.now) query.now record_number document
        (place_work (length starts.old) (length other_starts.old)) (placed_numbers result) }
    ensures starts_kept { Kept (place_refusal (index_of lent.now) query.now record_number document
        (place_work (length starts.old) (length other_starts.old))) starts.old starts.new }
    ensures other_starts_kept { Kept (place_refusal (index_of lent.now) query.now record_number document
        (place_work (length starts.old) (length other_starts.old))) other_starts.old other_starts.new }
{
    place_refusal(
        lent,
        query,
        record_number,
        document,
        starts.len(),
        other_starts.len(),
    )?;
    let start = locate(lent, query, record_number, document, starts, other_starts);
    Ok(start)
}
