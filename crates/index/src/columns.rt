// Columns, a word each: 0 for i64 values, 1 for f64; and their values, three words each:
// present 0 or 1, low half, high half.
ghost use Rattle.std.specs.Prelude.{◌≡◌, false, [], ◌*◌, ◌/◌, ltb, length, get_or};
ghost use Rattle.std.specs.List.{list_any};
ghost use Rattle.meaning.specs.Below.{any_below};
ghost use Rattle.meaning.specs.IndexRefusals.{wrong1, wrong6};
ghost use Rattle.meaning.specs.QueryRefusals.{wrong_range};
ghost use Rattle.meaning.specs.Entries.{columns_only};
ghost use Rattle.index.specs.Ranges.{asked};
ghost use Rattle.index.specs.declared.columns.TheConstants.{VALUE_WORDS};

// The words of a value, and where its two halves stand.
pub const VALUE_WORDS: usize = 3;

pub const LOW: usize = 1;

pub const HIGH: usize = 2;

// The limit of document 01.
const MAX_COLUMNS: usize = 8;

// A range of a column: the lower end's kind + 3 × the upper end's, and both ends as 64-bit patterns.
// Kept: the C interface lends both kinds as one number, which may be wrong;
// of a right one `column_keys` makes two `Bound`s.
#[derive(Clone, Copy)]
pub struct NumericRange {
    pub column: u32,
    pub kinds: u32,
    pub lower: u64,
    pub upper: u64,
}

// A type that is not 0 or 1.
fn wrong_types(columns: &[u32]) -> bool
    ensures { result ≡ list_any (λ t. ltb 1 t) columns.now }
{
    columns.iter().any(|column_type| *column_type > 1)
}

// A value whose first word, "present", is not 0 or 1, in one pass over all columns' values without an early exit.
fn wrong_presence(values: &[u32]) -> bool
    ensures { result ≡ any_below (length values.now / VALUE_WORDS) (λ k. ltb 1 (get_or values.now (VALUE_WORDS * k) 0)) }
{
    let (records, _) = values.as_chunks::<VALUE_WORDS>();
    let mut bad = false;
    for [present, _, _] in records {
        bad |= *present > 1;
    }
    bad
}

// 6, the columns: too many, values of wrong length, or a flag outside its values.
pub fn wrong_columns(max_doc: u32, columns: &[u32], values: &[u32]) -> bool
    requires { wrong1 (columns_only max_doc columns.now values.now) ≡ false }
    ensures { result ≡ wrong6 (columns_only max_doc columns.now values.now) }
{
    if columns.len() > MAX_COLUMNS {
        return true;
    }
    if values.len() != VALUE_WORDS * (columns.len() * max_doc as usize) {
        return true;
    }
    wrong_types(columns) | wrong_presence(values)
}

// The Range entry's 8: the column absent, a range kind above 8, or an unbounded value not 0.
pub fn wrong_range(columns: &[u32], range: NumericRange) -> bool
    ensures { result ≡ wrong_range (columns_only 0 columns.now []) (asked range) }
{
    (range.column as usize >= columns.len())
        | (range.kinds > 8)
        | ((range.kinds % 3 == 0) & (range.lower != 0))
        | ((range.kinds / 3 == 0) & (range.upper != 0))
}
