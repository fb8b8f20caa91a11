// The text that is printed, in N bytes of memory: bytes and numbers put at its end.
ghost use Rattle.std.specs.Prelude.{◌≡◌, ◌++◌, ◌+◌, ◌≤◌, ◌<◌, length};
ghost use Rattle.arrayvec.specs.ArrayVec.{array_vec_len};
ghost use Rattle.hits_text.specs.Text.{digit_of, decimal, hex_digits};

use arrayvec::ArrayVec;

pub fn push_bytes<const N: usize>(text: &mut ArrayVec<u8, N>, bytes: &[u8])
    requires { array_vec_len text.old + length bytes.now ≤ N }
    ensures { text.new.items ≡ text.old.items ++ bytes.now }
{
    text.try_extend_from_slice(bytes).unwrap();
}

// Kept: tried `write!(text, "{n}")`: std says what it writes and not that it never fails,
// and the proof of `unwrap` did not close.
pub fn push_decimal<const N: usize>(text: &mut ArrayVec<u8, N>, n: u64)
    requires { array_vec_len text.old + length (decimal n) ≤ N }
    ensures { text.new.items ≡ text.old.items ++ decimal n }
{
    let mut digits = itoa::Buffer::new();
    push_bytes(text, digits.format(n).as_bytes());
}

// The ASCII code of a digit below 16.
fn digit(d: u32) -> u8
    requires { d < 16 }
    ensures { result ≡ digit_of d }
{
    char::from_digit(d, 16).unwrap() as u8
}

// The last so many hexadecimal digits.
// Kept: no plainer by `write!`: its `unwrap` would need what `push_decimal` says is missing, that it never fails.
pub fn push_hex<const N: usize>(text: &mut ArrayVec<u8, N>, n: u64, digits: u32)
    requires { array_vec_len text.old + digits ≤ N }
    ensures { text.new.items ≡ text.old.items ++ hex_digits digits n }
{
    if digits == 0 {
        return;
    }
    push_hex(text, n / 16, digits - 1);
    text.push(digit((n % 16) as u32));
}
