// The types of a column's values: the order of their patterns, and which of them are numbers.
ghost use Rattle.std.specs.Prelude.{ℕ, ◌<◌, ◌≡◌, ◌^◌};
ghost use Rattle.std.specs.Range.Bound.{bound_map};
ghost use Rattle.meaning.specs.Range.{failed, end_good};
ghost use Rattle.column_keys.specs.Keys.{i64_key, value_key, between, number_key, type_of, type_number, end_kind, end_value};

use crate::keys::Keys;
use std::ops::Bound;

#[derive(Clone, Copy, Debug, PartialEq, Eq)]
pub enum ColumnType {
    I64,
    F64,
}

// The C interface lends words: 0 is i64, and every other number is taken for f64.
impl From<u32> for ColumnType {
    ghost from_gives = { λ number result. result ≡ type_of number };

    fn from(number: u32) -> ColumnType {
        if number == 0 {
            ColumnType::I64
        } else {
            ColumnType::F64
        }
    }
}

// Inverts the sign bit, so that i64 values compare as unsigned numbers.
fn i64_key(bits: u64) -> u64
    ensures { result ≡ i64_key bits }
{
    bits ^ 0x8000_0000_0000_0000
}

impl ColumnType {
    // A value's place in the order of its type.
    pub(crate) fn value_key(self, bits: u64) -> u64
        ensures { result ≡ value_key (type_number self) bits }
    {
        match self {
            ColumnType::I64 => i64_key(bits),
            ColumnType::F64 => ieee754::total_key(bits),
        }
    }

    // The end of a range by its key.
    pub(crate) fn end_key(self, end: Bound<u64>) -> Bound<u64>
        ensures { result ≡ bound_map (value_key (type_number self)) end }
    {
        end.map(|bits| self.value_key(bits))
    }

    // Whether a pattern is no number of the type: a NaN of either sign, in a column that is not i64.
    fn failed(self, bits: u64) -> bool
        ensures { result ≡ failed (type_number self) bits }
    {
        match self {
            ColumnType::I64 => false,
            ColumnType::F64 => 0x7ff0_0000_0000_0000 < bits % 0x8000_0000_0000_0000,
        }
    }

    // Whether the end of a range is unbounded or a number.
    pub(crate) fn takes(self, end: Bound<u64>) -> bool
        ensures { result ≡ end_good (end_kind end) (type_number self) (end_value end) }
    {
        match end {
            Bound::Included(bits) | Bound::Excluded(bits) => !self.failed(bits),
            Bound::Unbounded => true,
        }
    }

    // The keys of the type's numbers: NaNs lie below that of −infinity and above that of +infinity.
    pub(crate) fn number_keys(self) -> Keys
        ensures { (k : ℕ) → k < 2 ^ 64 → between result.from result.to k ≡ number_key (type_number self) k }
    {
        match self {
            ColumnType::I64 => Keys::ALL,
            ColumnType::F64 => Keys {
                from: 0x000f_ffff_ffff_ffff,
                to: 0xfff0_0000_0000_0000,
            },
        }
    }
}
