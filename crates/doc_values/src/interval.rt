// The bit patterns of the values in a range, where they are one interval: a value is then tested without making its
// key.
ghost use Rattle.std.specs.Prelude.{◌≡◌, IfSome};
ghost use Rattle.doc_values.specs.Intervals.{interval_has, SameBits};

use column_keys::column_type::ColumnType;
use column_keys::keys::Keys;

// The patterns from `low` to `low` + `span`, modulo 2^64.
#[derive(Clone, Copy)]
pub(crate) struct BitInterval {
    pub(crate) low: u64,
    pub(crate) span: u64,
}

impl BitInterval {
    // The bits that have these keys: f64 of clear sign are ordered as their bits, and i64 keys, the sign turned over,
    // are one interval modulo 2^64. None where nothing is let in, and none where f64 below zero are.
    pub(crate) fn of_keys(column_type: ColumnType, keys: Keys) -> Option<BitInterval>
        ensures { IfSome result (λ i. SameBits i column_type keys) }
    {
        if keys.to < keys.from {
            return None;
        }
        if column_type == ColumnType::F64 && keys.from < 0x8000_0000_0000_0000 {
            return None;
        }
        Some(BitInterval {
            low: keys.from.wrapping_sub(0x8000_0000_0000_0000),
            span: keys.to - keys.from,
        })
    }

    pub(crate) fn contains(self, bits: u64) -> bool
        ensures { result ≡ interval_has self bits }
    {
        bits.wrapping_sub(self.low) <= self.span
    }
}
