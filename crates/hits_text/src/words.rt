// The words of a file's bytes.
ghost use Rattle.std.specs.Prelude.{◌≡◌, ◌+◌, ◌*◌, ◌/◌, ◌≤◌, ◌<◌, length, take};
ghost use Rattle.hits_text.specs.Text.{word_at, file_words, longs_of};

// The i-th little-endian word of 32 bits.
pub fn word_at(bytes: &[u8], i: usize) -> u32
    requires { 4 * i + 3 < length bytes.now }
    ensures { result ≡ word_at bytes.now i }
{
    let at = 4 * i;
    u32::from_le_bytes([bytes[at], bytes[at + 1], bytes[at + 2], bytes[at + 3]])
}

// All words of a file, from the front of the buffer on; how many there are.
// Kept: no plainer as one with that of longs: `from_le_bytes` is in no trait,
// so that the one would be lent a closure for it.
// Tried zip with `iter_mut`, here and below: nothing says at the loop's end what was written through it,
// and the proof did not close.
pub fn read_words(bytes: &[u8], words: &mut [u32]) -> usize
    requires { length bytes.now / 4 ≤ length words.old }
    ensures prefix_len { (result ≤ length words.new) × (result ≡ length (take result words.new)) }
    ensures words_after { take result words.new ≡ file_words bytes.now }
{
    let (chunks, _) = bytes.as_chunks::<4>();
    for (i, chunk) in chunks.iter().enumerate() {
        words[i] = u32::from_le_bytes(*chunk);
    }
    chunks.len()
}

pub fn read_longs(bytes: &[u8], words: &mut [u64]) -> usize
    requires { length bytes.now / 8 ≤ length words.old }
    ensures prefix_len { (result ≤ length words.new) × (result ≡ length (take result words.new)) }
    ensures words_after { take result words.new ≡ longs_of bytes.now }
{
    let (chunks, _) = bytes.as_chunks::<8>();
    for (i, chunk) in chunks.iter().enumerate() {
        words[i] = u64::from_le_bytes(*chunk);
    }
    chunks.len()
}

// All words of a file, as the front of the buffer, lent on.
pub fn file_words<'a>(bytes: &[u8], words: &'a mut [u32]) -> &'a [u32]
    requires { length bytes.now / 4 ≤ length words.old }
    ensures { result.now ≡ file_words bytes.now }
{
    let number = read_words(bytes, words);
    &words[..number]
}

pub fn file_longs<'a>(bytes: &[u8], words: &'a mut [u64]) -> &'a [u64]
    requires { length bytes.now / 8 ≤ length words.old }
    ensures { result.now ≡ longs_of bytes.now }
{
    let number = read_longs(bytes, words);
    &words[..number]
}
