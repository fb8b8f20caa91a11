// The values of a numeric column as numbers in their order, and the keys that a range lets in.
#![tactic(auto)]

pub mod column_type;
pub mod keys;

ghost use Rattle.std.specs.Prelude.{ℕ, ◌+◌, ◌≤◌, ◌<◌, ◌≡◌, ◌^◌, length};
ghost use Rattle.meaning.specs.Lent.{joined};
ghost use Rattle.index.specs.declared.columns.TheConstants.{VALUE_WORDS};
ghost use Rattle.column_keys.specs.Keys.{between, range_key, value_in, type_number};

use column_type::ColumnType;
use index::columns::{HIGH, LOW};
use keys::{Keys, end_of, lower_keys, upper_keys};

// A 64-bit pattern from its low and its high half, for whoever reads a value or an end.
// Kept: no plainer as `bits::joined` alone: its clause is document 01's `joined` by name;
// `bits`' spells the sum out and says more, for the windows.
pub fn joined(low: u32, high: u32) -> u64
    ensures { result ≡ joined low high }
{
    bits::joined(low, high)
}

// The keys of the numbers that a range lets in: none where a given end is no number.
// The kinds are the lower end's + 3 × the upper's.
// The scan is lent an interval and nothing else, so it has no test for NaN.
// Kept: the C interface lends both kinds in one word; here each end becomes a `Bound`, once.
pub fn range_keys(column_type: ColumnType, kinds: u32, lower: u64, upper: u64) -> Keys
    ensures { (k : ℕ) → k < 2 ^ 64 → between result.from result.to k
        ≡ range_key (type_number column_type) kinds lower upper k }
{
    let from = end_of(kinds % 3, lower);
    let to = end_of(kinds / 3, upper);
    if column_type.takes(from) & column_type.takes(to) {
        let above = lower_keys(column_type.end_key(from));
        let below = upper_keys(column_type.end_key(to));
        column_type.number_keys().in_common(above.in_common(below))
    } else {
        Keys::NONE
    }
}

// Whether the value at this word is present and its key is one of these: three tests without a branch.
pub fn value_in(values: &[u32], at: usize, column_type: ColumnType, keys: Keys) -> bool
    requires { at + VALUE_WORDS ≤ length values.now }
    ensures { result ≡ value_in values.now at (type_number column_type) keys.from keys.to }
{
    let key = column_type.value_key(joined(values[at + LOW], values[at + HIGH]));
    (values[at] == 1) & keys.contains(key)
}
