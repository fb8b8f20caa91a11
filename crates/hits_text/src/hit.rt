// What is printed: the first line, and the lines of the hits, which are codes.
ghost use Rattle.std.specs.Prelude.{◌≡◌, cond, [], ◌∷◌, ◌++◌, ◌+◌, ◌*◌, ◌≤◌, length};
ghost use Rattle.arrayvec.specs.ArrayVec.{array_vec_len};
ghost use Rattle.hits_text.specs.Text.{hit_line, hit_lines, found_text, refused_text};

use crate::text::{push_bytes, push_decimal, push_hex};
use arrayvec::ArrayVec;
use collector::TopDocs;
use collector::codes::{score_bits, to_doc};

// A line is at most 30 bytes long.
fn push_hit<const N: usize>(text: &mut ArrayVec<u8, N>, code: i64)
    requires { array_vec_len text.old + 30 ≤ N }
    ensures { text.new.items ≡ text.old.items ++ hit_line code }
{
    push_decimal(text, u64::from(to_doc(code)));
    text.push(b' ');
    push_hex(text, u64::from(score_bits(code)), 8);
    text.push(b'\n');
}

fn push_hits<const N: usize>(text: &mut ArrayVec<u8, N>, codes: &[i64])
    requires { array_vec_len text.old + 30 * length codes.now ≤ N }
    ensures { text.new.items ≡ text.old.items ++ hit_lines codes.now }
{
    for &code in codes {
        push_hit(text, code);
    }
}

// The end of the first line; a count that is a lower bound is marked.
// Kept: no plainer: no switch: `mark` is a part of what is printed, and the result its text.
fn line_end(mark: bool) -> &'static [u8]
    ensures { result.now ≡ cond mark (43 ∷ 10 ∷ []) (10 ∷ []) }
{
    if mark { b"+\n" } else { b"\n" }
}

// The text where nothing is refused.
pub fn found<const N: usize>(top: TopDocs, codes: &[i64]) -> ArrayVec<u8, N>
    requires { 28 + 30 * length codes.now ≤ N }
    ensures { result.items ≡ found_text top.count top.mark codes.now }
{
    let TopDocs { count, mark, .. } = top;
    let mut text = ArrayVec::new();
    push_bytes(&mut text, b"count ");
    push_decimal(&mut text, count);
    push_bytes(&mut text, line_end(mark));
    push_hits(&mut text, codes);
    text
}

// Kept: no plainer as a Refusal: the number is all that is printed, and 0, files that are not taken, is none of them.
pub fn refused<const N: usize>(number: u32) -> ArrayVec<u8, N>
    requires { 29 ≤ N }
    ensures { result.items ≡ refused_text number }
{
    let mut text = ArrayVec::new();
    push_bytes(&mut text, b"refused ");
    push_decimal(&mut text, u64::from(number));
    text.push(b'\n');
    text
}
