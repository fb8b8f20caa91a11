// The text of the ten files.
ghost use Rattle.std.specs.Prelude.{◌≡◌};
ghost use Rattle.index.specs.IndexOf.{index_of};
ghost use Rattle.hits.specs.Text.{search_text, hits_text};
ghost use Rattle.hits_text.specs.Contents.{files_of};

use arrayvec::ArrayVec;
use hits_text::files::{Contents, MAX_BYTES, taken};
use hits_text::hit::{found, refused};
use hits_text::words::{file_longs, file_words, word_at};
use index::lent::Lent;
use query::MAX_RECORDS;
use searcher::buffers::Buffers;
use tree_weight::NODE_STATE_WORDS;

// As much as 1024 hits take, and more.
type Text = ArrayVec<u8, 32768>;

// The words of the longest file that is taken.
const MAX_WORDS: usize = MAX_BYTES / 4;

// Searches with the program's own buffers.
fn answer(index: Lent, query: &[u32], k: u32, t: u32) -> Text
    ensures { result.items ≡ search_text (index_of index.entry) query.now k t }
{
    let mut states = [0u32; MAX_RECORDS * NODE_STATE_WORDS];
    let mut starts = [0i32; MAX_WORDS];
    let mut other_starts = [0i32; MAX_WORDS];
    let mut ranges = [0u32; MAX_WORDS];
    let mut hits = [0i64; 1024];
    let mut buffers = Buffers {
        states: &mut states,
        starts: &mut starts,
        other_starts: &mut other_starts,
        ranges: &mut ranges,
    };
    let found_hits = searcher::search::search(&index, query, k, t, &mut buffers, &mut hits);
    match found_hits {
        Err(refusal) => refused(refusal.number()),
        Ok(top) => {
            let held = top.held as usize;
            found(top, &hits[..held])
        }
    }
}

// What the program prints for the bytes that it read of each file.
pub fn report(files: Contents) -> Text
    ensures { result.items ≡ hits_text (files_of files.entry) }
{
    if !taken(files) {
        return refused(0);
    }
    let mut fields = [0u32; MAX_WORDS];
    let mut leaves = [0u32; MAX_WORDS];
    let mut postings = [0u32; MAX_WORDS];
    let mut positions = [0u32; MAX_WORDS];
    let mut live = [0u64; MAX_BYTES / 8];
    let mut columns = [0u32; MAX_WORDS];
    let mut values = [0u32; MAX_WORDS];
    let mut query = [0u32; MAX_WORDS];
    let index = Lent {
        max_doc: word_at(files.run, 0),
        fields: file_words(files.fields, &mut fields),
        leaves: file_words(files.leaves, &mut leaves),
        postings: file_words(files.postings, &mut postings),
        positions: file_words(files.positions, &mut positions),
        norms: files.norms,
        live: file_longs(files.live, &mut live),
        columns: file_words(files.columns, &mut columns),
        values: file_words(files.values, &mut values),
    };
    let k = word_at(files.run, 1);
    let t = word_at(files.run, 2);
    answer(index, file_words(files.query, &mut query), k, t)
}
