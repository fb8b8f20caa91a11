// Intervals of keys, and those that an end of a range lets in.
ghost use Rattle.std.specs.Prelude.{ℕ, ◌<◌, ◌≡◌, ◌^◌, ◌&&◌};
ghost use Rattle.column_keys.specs.Keys.{between, key_at_lower, key_at_upper, end_of, end_kind, end_value};

use std::ops::Bound;

// The keys from one to another, both included; none where `from` is above `to`.
// Kept: no plainer as a RangeInclusive, which is no Copy value: the scan is lent this by value.
#[derive(Clone, Copy)]
pub struct Keys {
    pub from: u64,
    pub to: u64,
}

impl Keys {
    pub(crate) const ALL: Keys = Keys {
        from: 0,
        to: u64::MAX,
    };

    pub(crate) const NONE: Keys = Keys { from: 1, to: 0 };

    // Two intervals have in common what begins at the larger start and ends at the smaller end.
    pub(crate) fn in_common(self, other: Keys) -> Keys
        ensures { (k : ℕ) → between result.from result.to k
            ≡ (between self.from self.to k && between other.from other.to k) }
    {
        Keys {
            from: self.from.max(other.from),
            to: self.to.min(other.to),
        }
    }

    // Both tests, without a branch between them.
    pub fn contains(self, key: u64) -> bool
        ensures { result ≡ between self.from self.to key }
    {
        (self.from <= key) & (key <= self.to)
    }
}

// The end of a range by its kind: 0 is unbounded, 1 included, 2 excluded.
pub(crate) fn end_of(kind: u32, bits: u64) -> Bound<u64>
    ensures { result ≡ end_of kind bits }
{
    match kind {
        0 => Bound::Unbounded,
        1 => Bound::Included(bits),
        _ => Bound::Excluded(bits),
    }
}

// The keys that a lower end lets in; above the largest key lies none.
pub(crate) fn lower_keys(end: Bound<u64>) -> Keys
    ensures { (k : ℕ) → k < 2 ^ 64 → between result.from result.to k
        ≡ key_at_lower (end_kind end) (end_value end) k }
{
    match end {
        Bound::Included(key) => Keys {
            from: key,
            ..Keys::ALL
        },
        Bound::Excluded(key) if key < u64::MAX => Keys {
            from: key + 1,
            ..Keys::ALL
        },
        Bound::Excluded(_) => Keys::NONE,
        Bound::Unbounded => Keys::ALL,
    }
}

// The keys that an upper end lets in; below key 0 lies none.
// Kept: no plainer as one function with the lower end's: each side has its own bound, step and limit.
pub(crate) fn upper_keys(end: Bound<u64>) -> Keys
    ensures { (k : ℕ) → k < 2 ^ 64 → between result.from result.to k
        ≡ key_at_upper (end_kind end) (end_value end) k }
{
    match end {
        Bound::Included(key) => Keys {
            to: key,
            ..Keys::ALL
        },
        Bound::Excluded(key) if 0 < key => Keys {
            to: key - 1,
            ..Keys::ALL
        },
        Bound::Excluded(_) => Keys::NONE,
        Bound::Unbounded => Keys::ALL,
    }
}
