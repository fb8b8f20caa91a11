// Field records, three words each: average length as f32 bits, norms 0 or 1, positions 0 or 1.
ghost use Rattle.std.specs.Prelude.{◌≡◌, ◌<◌, ◌/◌, eqb, length};
ghost use Rattle.meaning.specs.IndexRefusals.{wrong_field, wrong2};
ghost use Rattle.meaning.specs.Lent.{field_count};
ghost use Rattle.index.specs.declared.fields.TheConstants.{FIELD_WORDS};
ghost use Rattle.index.specs.Slices.{fields_only};
ghost use Rattle.index.specs.Records.{field_of};

use super::wrong_records;

// The words of a field.
pub const FIELD_WORDS: usize = 3;

// The limits of document 01: 16 fields, an average of 1 to 16,777,216 as f32 bits.
pub const MAX_FIELDS: usize = 16;

const LEAST_AVERAGE: u32 = 0x3f80_0000;

const LARGEST_AVERAGE: u32 = 0x4b80_0000;

// A field's record by value.
// Kept: the C interface lends each flag as a word, of which `wrong_field` must see those above 1.
#[derive(Clone, Copy)]
pub struct Field {
    pub average: u32,
    pub norms: u32,
    pub positions: u32,
}

impl Field {
    pub fn has_norms(self) -> bool
        ensures { result ≡ eqb self.norms 1 }
    {
        self.norms == 1
    }

    pub fn has_positions(self) -> bool
        ensures { result ≡ eqb self.positions 1 }
    {
        self.positions == 1
    }
}

// How many whole fields there are.
pub fn field_count(fields: &[u32]) -> usize
    ensures { result ≡ field_count (fields_only fields.now) }
{
    fields.len() / FIELD_WORDS
}

// Field number f.
// Kept: no plainer by From: what is lent is a slice of many records,
// so one record's words would first be made an array.
pub fn field_at(fields: &[u32], f: usize) -> Field
    requires { f < length fields.now / FIELD_WORDS }
    ensures { result ≡ field_of (fields_only fields.now) f }
{
    Field {
        average: fields[FIELD_WORDS * f],
        norms: fields[FIELD_WORDS * f + 1],
        positions: fields[FIELD_WORDS * f + 2],
    }
}

// An average or a flag of field f outside its values.
fn wrong_field(fields: &[u32], f: usize) -> bool
    requires { f < length fields.now / FIELD_WORDS }
    ensures { result ≡ wrong_field (fields_only fields.now) f }
{
    let field = field_at(fields, f);
    (field.average < LEAST_AVERAGE)
        | (field.average > LARGEST_AVERAGE)
        | (field.norms > 1)
        | (field.positions > 1)
}

// 2, the field records: not whole, too many, or one of them wrong.
pub fn wrong_fields(fields: &[u32]) -> bool
    ensures { result ≡ wrong2 (fields_only fields.now) }
{
    wrong_records::<FIELD_WORDS, _>(fields, MAX_FIELDS, |f| wrong_field(fields, f))
}
