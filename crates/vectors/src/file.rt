// A file of little-endian words: the words, and the lists that a place in it names.
ghost use Rattle.std.specs.Prelude.{◌+◌, ◌≡◌, ◌<◌, ◌≤◌, length, take, get_or, IfOk, MatchResult};

use std::io::Read;
use std::rt::Files;
use std::{fs, io};

// How many bytes of the file stand at the front of the buffer.
// One that cannot be opened is told of on standard error, and has none.
pub fn read_bytes(rt: &(impl Files + Eprint), path: &str, bytes: &mut [u8]) -> io::Result<usize>
    ensures { IfOk result (λ n. n ≤ length bytes.new) }
{
    match fs::open(rt, path) {
        Ok(mut file) => match read_all(&mut file, bytes) {
            Ok(number) | Err(number) => Ok(number),
        },
        Err(error) => {
            eprintln!(rt; "{path}: {error}")?;
            Ok(0)
        }
    }
}

// Reads until the file ends or the buffer is full; gives how many bytes were read, as an error where a read failed
// after them.
pub fn read_all(file: &mut impl Read, bytes: &mut [u8]) -> Result<usize, usize>
    ensures { MatchResult result (λ n. n ≤ length bytes.new) (λ n. n ≤ length bytes.new) }
{
    let mut done = 0;

    // Kept: no plainer: std has no read that fills a buffer and says how far it came before an error.
    while done < bytes.len() {
        match file.read(&mut bytes[done..]) {
            Ok(0) => break,
            Ok(more) => done += more,
            Err(_) => return Err(done),
        }
    }
    Ok(done)
}

// Little-endian words, as many as both slices have room for.
pub fn read_words(bytes: &[u8], words: &mut [u32]) {
    let (chunks, _) = bytes.as_chunks::<4>();
    for (word, chunk) in words.iter_mut().zip(chunks) {
        *word = u32::from_le_bytes(*chunk);
    }
}

// `number` items of a list from `first` on; none where they do not lie within it.
fn part<T>(list: &[T], first: u32, number: u32) -> &[T] {
    let begin = first as usize;
    let end = begin + number as usize;
    list.get(begin..end).unwrap_or(&[])
}

// The list that stands at `place`, its first word + 65,536 × its length; none where it isn't within the file.
pub fn list(file: &[u32], place: u32) -> &[u32] {
    part(file, place % 65536, place / 65536)
}

// The records of N words that a file begins with, behind their number.
pub fn records<const N: usize>(file: &[u32]) -> &[[u32; N]]
    requires { 0 < N }
    ensures { length result.now ≤ get_or file.now 0 0 }
{
    let Some((number, words)) = file.split_first() else {
        return &[];
    };
    let (records, _) = words.as_chunks::<N>();
    first(records, *number as usize)
}

// The i-th word from a place on, 0 where the file has ended.
pub fn word(file: &[u32], at: usize, i: usize) -> u32
    ensures { result ≡ get_or file.now (at + i) 0 }
{
    match file.get(at..) {
        Some(rest) => rest.get(i).copied().unwrap_or(0),
        None => 0,
    }
}

// The bytes that stand at `place`, their first word + 65,536 × their number; none where they aren't within the file.
pub fn bytes_at(bytes: &[u8], place: u32) -> &[u8] {
    part(bytes, 4 * (place % 65536), place / 65536)
}

// Words of 64 bits from pairs of words, the low half first, as many as both slices have room for: those that were read.
pub fn read_long_words<'a>(words: &[u32], longs: &'a mut [u64]) -> &'a [u64] {
    let (pairs, _) = words.as_chunks::<2>();
    let number = pairs.len();
    for (long, [low, high]) in longs.iter_mut().zip(pairs) {
        *long = u64::from(*low) | (u64::from(*high) << 32);
    }
    first(longs, number)
}

// The first `number` items of a list, or all.
pub fn first<T>(list: &[T], number: usize) -> &[T]
    ensures { result.now ≡ take number list.now }
{
    list.get(..number).unwrap_or(list)
}
