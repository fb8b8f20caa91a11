// Posting records, three words each: document, frequency, index of the first position.
ghost use Rattle.std.specs.Prelude.{◌≡◌, ◌<◌, ◌+◌};
ghost use Rattle.index.specs.Runs.{run_length, posting_document, posting_frequency, posting_index};

// The limits of document 01: NO_MORE_DOCS is also the largest position; a frequency of 1 to 16,777,216.
// Kept: no plainer as an Option: Lucene's end of an iterator is a document above all others, so that `min` and `<`
// need no case for it, and it stands so in the lent words and in what C is answered.
pub const NO_MORE_DOCS: u32 = 2147483647;

pub const LARGEST_FREQUENCY: u32 = 16777216;

// The words of a posting, and where its frequency and the index of its first position stand.
pub const POSTING_WORDS: usize = 3;

pub const FREQUENCY: usize = 1;

pub const POSITIONS: usize = 2;

// The document of the i-th posting at or after posting first.
// Kept: no plainer as a struct, which fields and leaves have:
// each who reads a posting here wants one word of it, or two.
pub fn posting_document(postings: &[u32], first: usize, i: usize) -> u32
    requires { first + i < run_length postings.now }
    ensures { result ≡ posting_document postings.now first i }
{
    postings[POSTING_WORDS * (first + i)]
}

// Its frequency.
pub fn posting_frequency(postings: &[u32], first: usize, i: usize) -> u32
    requires { first + i < run_length postings.now }
    ensures { result ≡ posting_frequency postings.now first i }
{
    postings[POSTING_WORDS * (first + i) + FREQUENCY]
}

// The index of its first position.
pub fn posting_index(postings: &[u32], first: usize, i: usize) -> u32
    requires { first + i < run_length postings.now }
    ensures { result ≡ posting_index postings.now first i }
{
    postings[POSTING_WORDS * (first + i) + POSITIONS]
}
