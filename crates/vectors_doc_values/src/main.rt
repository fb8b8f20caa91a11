// The documents of ranges over columns with every kind of value, between every two ends of every kind;
// crates/vectors_doc_values/stdout has what the unchanged Rust lists, to which NaN values are absent;
// with a NaN end nothing (harness, `record`).
#![tactic(auto)]

ghost use Rattle.std.specs.Prelude.{◌≡◌, ◌<◌};
ghost use Rattle.vectors_doc_values.specs.Columns.{Columns};

use index::columns::{HIGH, LOW, NumericRange, VALUE_WORDS};
use std::io;
use std::io::Write;
use vectors::file::first;
use vectors::print::List;

// Values: present or not, the low half and the high half. As i64 the least, the largest and others around 0; as f64
// zeros, subnormals, ones, infinities and NaNs of both signs. Two are absent, one of them with a pattern.
const VALUES: [u32; 54] = [
    1,
    0x0000_0000,
    0x0000_0000,
    1,
    0x0000_0000,
    0x8000_0000,
    1,
    0x0000_0001,
    0x0000_0000,
    1,
    0x0000_0001,
    0x8000_0000,
    0,
    0x0000_0000,
    0x0000_0000,
    1,
    0xffff_ffff,
    0x7fff_ffff,
    1,
    0xffff_ffff,
    0xffff_ffff,
    1,
    0x0000_0000,
    0x3ff0_0000,
    1,
    0x0000_0000,
    0xbff0_0000,
    1,
    0x0000_0001,
    0x3ff0_0000,
    0,
    0x0000_0000,
    0x3ff0_0000,
    1,
    0x0000_0000,
    0x3ff0_0000,
    1,
    0x0000_0000,
    0x7ff0_0000,
    1,
    0x0000_0000,
    0xfff0_0000,
    1,
    0x0000_0000,
    0x7ff8_0000,
    1,
    0x0000_0000,
    0xfff8_0000,
    1,
    0xffff_ffff,
    0x7fef_ffff,
    1,
    0xffff_ffff,
    0xffef_ffff,
];

// The pattern of a value is an end of the ranges too.
fn end_at(i: usize) -> u64
    requires { i < 18 }
{
    column_keys::joined(
        VALUES[VALUE_WORDS * i + LOW],
        VALUES[VALUE_WORDS * i + HIGH],
    )
}

// An unbounded end is lent as 0.
// Kept: the C interface lends both kinds as one number, here and below; `print_kinds` goes through all nine.
fn end_of(kind: u32, end: u64) -> u64
    ensures { kind ≡ 0 → result ≡ 0 }
{
    if kind == 0 { 0 } else { end }
}

// Whether both ends are bounded.
fn is_bounded(kinds: u32) -> bool {
    kinds % 3 != 0 && kinds >= 3
}

// A column of an index that is not refused.
#[derive(Clone, Copy)]
struct Column<'a> {
    lent: doc_values::Columns<'a>,
    column: u32,
    ghost right: { Columns lent.max_doc lent.columns.now lent.values.now column },
}

impl Column<'_> {
    fn print_range(self, out: &mut impl Write, kinds: u32, lower: u64, upper: u64) -> io::Result<()>
        requires { kinds < 9 }
    {
        let mut output = [0u32; 18];
        let range = NumericRange {
            column: self.column,
            kinds,
            lower: end_of(kinds % 3, lower),
            upper: end_of(kinds / 3, upper),
        };
        let n = doc_values::range(&self.lent, range, &mut output);
        writeln!(out, "{}", List(first(&output, n as usize)))
    }

    // Between two ends, by every kind; by those with an unbounded end only where both ends are one value's.
    fn print_kinds(self, out: &mut impl Write, i: usize, j: usize) -> io::Result<()>
        requires i_bound { i < 18 }
        requires j_bound { j < 18 }
    {
        let lower = end_at(i);
        let upper = end_at(j);
        for kinds in 0..9 {
            if i == j || is_bounded(kinds) {
                self.print_range(out, kinds, lower, upper)?;
            }
        }
        Ok(())
    }

    fn print_from(self, out: &mut impl Write, i: usize) -> io::Result<()>
        requires { i < 18 }
    {
        for j in 0..18 {
            self.print_kinds(out, i, j)?;
        }
        Ok(())
    }

    fn print(self, out: &mut impl Write) -> io::Result<()> {
        for i in 0..18 {
            self.print_from(out, i)?;
        }
        Ok(())
    }
}

// The column at a place among some, over all the values.
fn print_column(out: &mut impl Write, max_doc: u32, columns: &[u32], column: u32) -> io::Result<()>
    requires { Columns max_doc columns.now VALUES column }
{
    let lent = doc_values::Columns {
        max_doc,
        columns,
        values: &VALUES,
    };
    Column { lent, column }.print(out)
}

// The values as one column of eighteen documents, of either type, and as three columns of six.
fn main(rt: HostRuntime) -> io::Result<()> {
    let mut out = io::writer(&rt);
    print_column(&mut out, 18, &[0], 0)?;
    print_column(&mut out, 18, &[1], 0)?;
    print_column(&mut out, 6, &[0, 1, 0], 0)?;
    print_column(&mut out, 6, &[0, 1, 0], 1)?;
    print_column(&mut out, 6, &[0, 1, 0], 2)?;
    out.flush()
}
