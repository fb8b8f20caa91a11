// Range: the documents of a column whose value lies in a range, ascending.
#![tactic(auto)]

ghost use Rattle.std.specs.Prelude.{◌≡◌, length};
ghost use Rattle.meaning.specs.Entries.{Kept, range_refusal, range_answer, range_output};
ghost use Rattle.index.specs.Ranges.{asked};
ghost use Rattle.refusal.specs.Numbers.{refusal_of};
ghost use Rattle.doc_values.specs.ColumnsOf.{columns_of};
ghost use Rattle.entry_range.specs.Answers.{ranged_numbers};

pub use doc_values::Columns;
use index::columns::NumericRange;
use refusal::Refusal;

// The lowest of 1, 6, 8 and 12 whose condition holds.
fn range_refusal(
    lent: &Columns,
    range: NumericRange,
    work: usize,
    output: usize,
) -> Result<(), Refusal>
    ensures { refusal_of result ≡ range_refusal (columns_of lent.now) (asked range) work output }
{
    if index::wrong_max_doc(lent.max_doc) {
        return Err(Refusal::MaxDoc);
    }
    if index::columns::wrong_columns(lent.max_doc, lent.columns, lent.values) {
        return Err(Refusal::Columns);
    }
    if index::columns::wrong_range(lent.columns, range) {
        return Err(Refusal::Values);
    }
    let needed = lent.max_doc as usize;
    if work < needed {
        return Err(Refusal::Buffers);
    }
    if output < needed {
        return Err(Refusal::Buffers);
    }
    Ok(())
}

// The work buffer is asked for and not needed, since the column is scanned once.
pub fn range(
    lent: &Columns,
    range: NumericRange,
    work: &mut [u32],
    output: &mut [u32],
) -> Result<u32, Refusal>
    ensures result_value { ranged_numbers result ≡ range_answer (columns_of lent.now) (asked range)
        (length work.old) (length output.old) }
    ensures output_after { output.new ≡ range_output (columns_of lent.now) (asked range) (length work.old)
        output.old }
    ensures kept { Kept (range_refusal (columns_of lent.now) (asked range) (length work.old)
        (length output.old)) work.old work.new }
{
    range_refusal(lent, range, work.len(), output.len())?;
    Ok(doc_values::range(lent, range, output))
}
