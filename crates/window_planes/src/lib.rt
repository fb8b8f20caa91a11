// 64 counters, one for each bit of a word, as bit planes: plane j has binary digit j of each counter.
#![tactic(auto)]

ghost use Rattle.std.specs.Prelude.{◌≡◌, ◌&&◌, [], ◌∷◌, ◌++◌, ℕ, ◌+◌, ◌^◌, ◌≤◌, ◌<◌, ltb, length};
ghost use Rattle.bits.specs.Bit.{bit};
ghost use Rattle.window_planes.specs.Counts.{as_digit, count};

// Adds 1 to the counter of each bit that is set in x; returns the carry out of the last plane.
pub fn counted(planes: &mut [u64], x: u64) -> u64
    ensures { (p : ℕ) → count p (planes.new ++ (result ∷ [])) ≡ as_digit (bit p x) + count p planes.old }
{
    let mut carry = x;
    for plane in planes.iter_mut() {
        let before = *plane;
        *plane = before ^ carry;
        carry = before & carry;
    }
    carry
}

// The wanted bits whose counter is above `least`.
pub fn above(planes: &[u64], least: u32, want: u64) -> u64
    requires few { length planes.now ≤ 31 }
    requires within { least < 2 ^ length planes.now }
    ensures { (p : ℕ) → p < 64 → bit p result ≡ bit p want && ltb least (count p planes.now) }
{
    let mut more: u64 = 0;
    let mut equal = want;
    // Kept: tried over `planes.iter().enumerate().rev()`, and the proof did not close: that what the loop keeps holds
    // at its start was not found.
    for j in (0..planes.len()).rev() {
        if (least >> j) % 2 == 1 {
            equal &= planes[j];
        } else {
            more |= equal & planes[j];
            equal &= !planes[j];
        }
    }
    more
}
