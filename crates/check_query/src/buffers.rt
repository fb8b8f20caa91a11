// What a query needs of the work buffers, for 12.
ghost use Rattle.std.specs.Prelude.{◌≡◌, cond, ◌≤◌, ◌<◌, eqb};
ghost use Rattle.meaning.specs.Below.{largest_below};
ghost use Rattle.meaning.specs.Limits.{max_records};
ghost use Rattle.meaning.specs.Query.{record_count, record_kind, record_value};
ghost use Rattle.meaning.specs.CallRefusals.{range_records, states_needed, ranges_needed, largest_in, starts_needed};
ghost use Rattle.index.specs.IndexOf.{index_of};
ghost use Rattle.index.specs.Runs.{run_length, run_frequency};
ghost use Rattle.query.specs.Read.{PhraseRuns};

use index::leaves::leaf_at;
use index::lent::Lent;
use index::postings::POSTING_WORDS;
use query::{Kind, kind_at, record_count, value};
use tree_weight::NODE_STATE_WORDS;

// How many Range records the query has.
pub fn range_records(query: &[u32]) -> usize
    ensures { result ≡ range_records query.now }
{
    (0..record_count(query))
        .filter(|at| kind_at(query, *at) == Some(Kind::Range))
        .count()
}

// A node state for each record.
pub fn states_needed(query: &[u32]) -> u64
    ensures { result ≡ states_needed query.now }
{
    NODE_STATE_WORDS as u64 * record_count(query) as u64
}

// With range records, N words for each and N more.
pub fn ranges_needed(lent: &Lent, query: &[u32]) -> u64
    requires { record_count query.now ≤ max_records }
    ensures { result ≡ ranges_needed (index_of lent.now) query.now }
{
    let ranges = range_records(query) as u64;
    if ranges == 0 {
        return 0;
    }
    u64::from(lent.max_doc) * (ranges + 1)
}

// The largest frequency in a run of postings.
fn largest_in(run: &[u32]) -> u32
    ensures { result ≡ largest_below (run_length run.now) (run_frequency run.now) }
{
    let (records, _) = run.as_chunks::<POSTING_WORDS>();
    records
        .iter()
        .map(|[_, frequency, _]| *frequency)
        .max()
        .unwrap_or(0)
}

// The largest frequency in the run of the leaf that the record at `at` names, where it is a PhraseTerm.
fn term_starts(lent: &Lent, query: &[u32], at: usize) -> u32
    requires { PhraseRuns (index_of lent.now) query.now × (at < record_count query.now) }
    ensures { result ≡ cond (eqb (record_kind query.now at) 9)
        (largest_in (index_of lent.now) (record_value query.now at 0)) 0 }
{
    if kind_at(query, at) != Some(Kind::PhraseTerm) {
        return 0;
    }
    let leaf = leaf_at(lent.leaves, value(query, at, 0) as usize);
    largest_in(&lent.postings[POSTING_WORDS * leaf.first as usize..POSTING_WORDS * leaf.end()])
}

// The largest frequency in the run of a leaf that some PhraseTerm names.
pub fn starts_needed(lent: &Lent, query: &[u32]) -> u32
    requires { PhraseRuns (index_of lent.now) query.now }
    ensures { result ≡ starts_needed (index_of lent.now) query.now }
{
    (0..record_count(query))
        .map(|at| term_starts(lent, query, at))
        .max()
        .unwrap_or(0)
}
