// A range prepared for a scan of its column.
ghost use Rattle.std.specs.Prelude.{◌*◌, ◌≤◌, length};
ghost use Rattle.std.specs.Option.{ForSome};
ghost use Rattle.index.specs.declared.columns.TheConstants.{VALUE_WORDS};
ghost use Rattle.doc_values.specs.Intervals.{SameBits};

use crate::interval::BitInterval;
use column_keys::column_type::ColumnType;
use column_keys::keys::Keys;

// The words of the column's values and of those behind it, how many values it has, their type, the keys that the
// range lets in, and the bits that have these keys, where `of_keys` gives them as an interval.
// Kept: no plainer as a slice of triples: `column_keys` `value_in` reads words at a place, for any caller,
// so `max_doc` says how many there are.
#[derive(Clone, Copy)]
pub(crate) struct Ready<'a> {
    pub(crate) values: &'a [u32],
    pub(crate) max_doc: u32,
    pub(crate) column_type: ColumnType,
    pub(crate) keys: Keys,
    pub(crate) bits: Option<BitInterval>,
    pub(crate) ghost there: { VALUE_WORDS * max_doc ≤ length values.now },
    pub(crate) ghost same: { ForSome bits (λ i. SameBits i column_type keys) },
}
