// Numeric columns: the documents whose value lies in a range, by one scan of the column, as a list or as a bitmap.
#![tactic(auto)]

mod interval;
mod ready;

ghost use Rattle.std.specs.Prelude.{Bool, ℕ, ◌+◌, ◌-◌, ◌^◌, ◌≤◌, ◌<◌, ◌≡◌, ◌&&◌, ltb, Some, length};
ghost use Rattle.meaning.specs.Below.{list_below};
ghost use Rattle.meaning.specs.Range.{in_range, range_documents};
ghost use Rattle.meaning.specs.Entries.{written, columns_only};
ghost use Rattle.index.specs.Ranges.{asked};
ghost use Rattle.bits.specs.Bit.{bit, bitmap_words, Bitmap};
ghost use Rattle.doc_values.specs.ColumnsOf.{columns_of};
ghost use Rattle.doc_values.specs.Listed.{listed};
ghost use Rattle.doc_values.specs.RangeRight.{RangeRight};

use column_keys::column_type::ColumnType;
use index::columns::{HIGH, LOW, NumericRange, VALUE_WORDS};
use interval::BitInterval;
use ready::Ready;

// The lent columns of `max_doc` documents, and their values.
#[derive(Clone, Copy)]
pub struct Columns<'a> {
    pub max_doc: u32,
    pub columns: &'a [u32],
    pub values: &'a [u32],
}

// A word for `count` documents from `first` on: bit j says whether `lists` takes the j-th of them.
// It goes from the last one back, so that each turn shifts by 1 and not by a bit's place.
fn word_of<F: Fn(usize) -> bool>(first: usize, count: usize, lists: F) -> u32
    requires in_usize { first + count < 2 ^ 64 }
    requires may_ask { (d : ℕ) → first ≤ d → d < first + count → F.pre lists d }
    ensures { (takes : ℕ → Bool) → ((d : ℕ) (b : Bool) → F.post lists d b → b ≡ takes d)
        → (p : ℕ) → p < 32 → bit p result ≡ ltb p count && takes (first + p) }
{
    let mut w = 0;
    for j in (0..count).rev() {
        w = w << 1 | u32::from(lists(first + j));
    }
    w
}

impl<'a> Ready<'a> {
    // Kept: tried over `Columns`: the proof did not close;
    // that each of the values is below 2^32 is known of a slice and not of a struct's field.
    fn new(max_doc: u32, columns: &[u32], values: &'a [u32], range: NumericRange) -> Ready<'a>
        requires right { RangeRight (columns_only max_doc columns.now values.now) (asked range) }
        ensures all { result.max_doc ≡ max_doc }
        ensures takes { (d : ℕ) → listed result d
            ≡ in_range (columns_only max_doc columns.now values.now) (asked range) d }
    {
        let at = range.column as usize;
        let column_type = ColumnType::from(columns[at]);
        let keys = column_keys::range_keys(column_type, range.kinds, range.lower, range.upper);
        Ready {
            values: &values[VALUE_WORDS * (at * max_doc as usize)..],
            max_doc,
            column_type,
            keys,
            bits: BitInterval::of_keys(column_type, keys),
        }
    }

    // Whether a document's value is in the range.
    fn lists(self, document: usize) -> bool
        requires { document < self.max_doc }
        ensures { result ≡ listed self.entry document }
    {
        column_keys::value_in(
            self.values,
            VALUE_WORDS * document,
            self.column_type,
            self.keys,
        )
    }

    // The same by the interval of bit patterns, without making a key.
    fn lists_by_bits(self, interval: BitInterval, document: usize) -> bool
        requires in_bounds { document < self.max_doc }
        requires given { self.bits ≡ Some interval }
        ensures { result ≡ listed self.entry document }
    {
        let at = VALUE_WORDS * document;
        let bits = column_keys::joined(self.values[at + LOW], self.values[at + HIGH]);
        (self.values[at] == 1) & interval.contains(bits)
    }

    // Writes the documents in the range to the front of the output, and gives their number.
    // It branches, since a store on every turn would change the output beyond what is listed.
    // Kept: no plainer: `held` is where the next one goes and, at the end, the result;
    // a zip with the output would be counted beside it.
    fn scan(self, output: &mut [u32]) -> u32
        requires { self.max_doc ≤ length output.old }
        ensures value { result ≡ length (list_below self.entry.max_doc (listed self.entry)) }
        ensures output_after { output.new ≡ written (list_below self.entry.max_doc (listed self.entry))
            output.old }
    {
        let mut held = 0;
        for document in 0..self.max_doc {
            if self.lists(document as usize) {
                output[held] = document;
                held += 1;
            }
        }
        held as u32
    }

    // The word of the next 32 documents from `first` on, or of all that are left.
    // The documents behind the last whole word are few and go by keys.
    // Kept: tried one call with `left.min(32)`, when all went by keys:
    // 1.06 times slower (measured), for then no loop has a fixed number of turns.
    fn next_word(self, first: usize) -> u32
        requires { first ≤ self.max_doc }
        ensures { (p : ℕ) → p < 32 → bit p result ≡ ltb p (self.entry.max_doc - first)
            && listed self.entry (first + p) }
    {
        let left = self.max_doc as usize - first;
        if left < 32 {
            return word_of(first, left, |document| self.lists(document));
        }
        match self.bits {
            Some(interval) => word_of(first, 32, |document| self.lists_by_bits(interval, document)),
            None => word_of(first, 32, |document| self.lists(document)),
        }
    }

    // The documents that are let in, as a bitmap at the front of the output, and how many there are;
    // no branch on the values.
    fn sift(self, output: &mut [u32]) -> u32
        requires { bitmap_words self.max_doc ≤ length output.old }
        ensures value { result ≡ length (list_below self.entry.max_doc (listed self.entry)) }
        ensures bitmap { Bitmap (λ d. ltb d self.entry.max_doc && listed self.entry d) output.new 0
            (bitmap_words self.entry.max_doc) }
        ensures output_len_unchanged { length output.new ≡ length output.old }
    {
        let mut held: u32 = 0;
        // Kept: no plainer with `enumerate` over the front of the output:
        // `word` would still be needed for its documents.
        for word in 0..bits::bitmap_words(self.max_doc) as usize {
            let w = self.next_word(32 * word);
            output[word] = w;
            held += w.count_ones();
        }
        held
    }
}

// Writes the documents whose value in a column lies in a range, ascending, to the front of the output; gives their
// number.
// Kept: no plainer, here and in `range_bitmap`:
// a struct that holds `RangeRight` would be made by each caller for this one call.
pub fn range(lent: &Columns, range: NumericRange, output: &mut [u32]) -> u32
    requires right { RangeRight (columns_of lent.now) (asked range) }
    requires max_doc_in_bounds { lent.now.max_doc ≤ length output.old }
    ensures value { result ≡ length (range_documents (columns_of lent.now) (asked range)) }
    ensures output_after { output.new ≡ written (range_documents (columns_of lent.now) (asked range))
        output.old }
{
    Ready::new(lent.max_doc, lent.columns, lent.values, range).scan(output)
}

// The same documents as a bitmap at the front of a work buffer, of which the words beyond may hold anything;
// how many there are.
pub fn range_bitmap(lent: &Columns, range: NumericRange, output: &mut [u32]) -> u32
    requires right { RangeRight (columns_of lent.now) (asked range) }
    requires bitmap_fits { bitmap_words lent.now.max_doc ≤ length output.old }
    ensures value { result ≡ length (range_documents (columns_of lent.now) (asked range)) }
    ensures bitmap { Bitmap (λ d. ltb d lent.now.max_doc && in_range (columns_of lent.now) (asked range) d)
        output.new 0 (bitmap_words lent.now.max_doc) }
    ensures output_len_unchanged { length output.new ≡ length output.old }
{
    Ready::new(lent.max_doc, lent.columns, lent.values, range).sift(output)
}
