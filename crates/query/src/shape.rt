// 7: the shape of the query, by recursion on the depth left.
ghost use Rattle.std.specs.Prelude.{◌≡◌, ◌+◌, ◌<◌, Some};
ghost use Rattle.meaning.specs.Query.{record_count, record_children, decode, decode_clauses, decode_phrase, decode_child, is_phrase_term, a_term, a_phrase, a_boolean, a_boost};
ghost use Rattle.meaning.specs.QueryRefusals.{wrong7};
ghost use Rattle.query.specs.Inner.{decoded_end, end_of_clauses, fitting};

use crate::{
    Kind, MAX_CLAUSES, MAX_DEPTH, MAX_PHRASE_TERMS, MAX_RECORDS, RECORD_WORDS, children, kind_at,
    occur_at, occurrence, record_count,
};

// Below a phrase stand PhraseTerms, of occurrence 0 and without children.
// Kept: no plainer, here and below: `query, at` as in `query`, whose definitions take them so.
fn is_phrase_term(query: &[u32], at: usize) -> bool
    requires { at < record_count query.now }
    ensures { result ≡ is_phrase_term query.now at }
{
    kind_at(query, at) == Some(Kind::PhraseTerm)
        && occurrence(query, at) == 0
        && children(query, at) == 0
}

// The record after a leaf at `at`, or none where it has children.
fn leaf_end(query: &[u32], at: usize) -> Option<usize>
    requires { at < record_count query.now }
    ensures { result ≡ fitting a_term query.now at (Some (at + 1)) }
{
    (children(query, at) == 0).then_some(at + 1)
}

// The record after the phrase at `at`, or none where its terms are too few or many, missing, out of place or too deep.
fn phrase_end(query: &[u32], depth: u32, at: usize) -> Option<usize>
    requires { at < record_count query.now }
    ensures { result ≡ fitting a_phrase query.now at (decoded_end (decode_phrase query.now depth at)) }
{
    let terms = children(query, at) as usize;
    if terms == 0 || MAX_PHRASE_TERMS < terms || depth == 0 {
        return None;
    }
    let end = at + 1 + terms;
    if record_count(query) < end {
        return None;
    }
    (at + 1..end)
        .all(|term| is_phrase_term(query, term))
        .then_some(end)
}

// The record after the only child of the one at `at`, whose occurrence is 0.
#[cycle(child_end_clauses_end_tree_end)]
fn child_end(query: &[u32], depth: u32, at: usize) -> Option<usize>
    requires { at < record_count query.now }
    ensures { result ≡ fitting a_boost query.now at
        (decoded_end (decode_child query.now (decode query.now depth) at)) }
{
    if children(query, at) != 1 || record_count(query) <= at + 1 || occurrence(query, at + 1) != 0 {
        return None;
    }
    tree_end(query, depth, at + 1)
}

// The record after the clauses of the Boolean at `at`, each of occurrence 1 to 4.
#[cycle(child_end_clauses_end_tree_end)]
fn clauses_end(query: &[u32], depth: u32, at: usize) -> Option<usize>
    requires { at < record_count query.now }
    ensures { result ≡ fitting a_boolean query.now at
        (end_of_clauses
        (decode_clauses query.now (decode query.now depth) (record_children query.now at) (at + 1))) }
{
    let count = children(query, at);
    if MAX_CLAUSES < count {
        return None;
    }
    let mut next = at + 1;
    for _ in 0..count {
        if record_count(query) <= next {
            return None;
        }
        occur_at(query, next)?;
        next = tree_end(query, depth, next)?;
    }
    Some(next)
}

// The record after the tree at `at`, at most `depth` levels deep.
#[cycle(child_end_clauses_end_tree_end)]
fn tree_end(query: &[u32], depth: u32, at: usize) -> Option<usize>
    ensures { result ≡ decoded_end (decode query.now depth at) }
{
    let below = depth.checked_sub(1)?;
    if record_count(query) <= at {
        return None;
    }
    match kind_at(query, at)? {
        Kind::Term | Kind::Range | Kind::MatchAll | Kind::MatchNone => leaf_end(query, at),
        Kind::Phrase => phrase_end(query, below, at),
        Kind::Boolean => clauses_end(query, below, at),
        Kind::ConstantScore | Kind::Boost => child_end(query, below, at),
        Kind::PhraseTerm => None,
    }
}

// 7: records not whole, none, too many, wrong in themselves, or left over.
#[tactic(auto, using(crate::proofs::Whole::wrong7_parts))]
pub fn wrong_records(query: &[u32]) -> bool
    ensures { result ≡ wrong7 query.now }
{
    let count = record_count(query);
    query.len() % RECORD_WORDS != 0
        || count == 0
        || MAX_RECORDS < count
        || occurrence(query, 0) != 0
        || tree_end(query, MAX_DEPTH, 0) != Some(count)
}
