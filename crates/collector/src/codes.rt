// A score and a document as one i64 code: the score's sortable bits above NO_MORE_DOCS - document.
ghost use Rattle.std.specs.Prelude.{◌≡◌, not, ◌≤◌, ◌^◌, T};
ghost use Rattle.std.specs.Int.Signed.{shr_z};
ghost use Rattle.std.specs.Float.{binary32};
ghost use Rattle.std.specs.Float.Ieee.{of_bits, to_bits, is_nan, nan_bits};
ghost use Rattle.meaning.specs.Limits.{no_more_docs};
ghost use Rattle.meaning.specs.Ieee754.{sortable_int, sortable_bits};
ghost use Rattle.meaning.specs.Hits.{code, to_doc, to_score};
ghost use Rattle.collector.specs.Flipped.{flipped};

use index::postings::NO_MORE_DOCS;

// Inverts the 31 lower bits of a negative int; twice, it gives the int back (Lucene's sortableFloatBits).
fn flipped(i: i32) -> i32
    ensures { result ≡ flipped i }
{
    i ^ ((i >> 31) & 0x7fff_ffff)
}

// floatToSortableInt.
pub fn float_to_sortable_int(f: f32) -> i32
    requires { T (not (is_nan f)) }
    ensures { result ≡ sortable_int (to_bits binary32 f) }
{
    flipped(f32::to_bits(f).cast_signed())
}

// The float bits of a sortable int: the inverse of `float_to_sortable_int`, but defined for every int.
pub fn sortable_bits(i: i32) -> u32
    ensures { result ≡ sortable_bits i }
{
    flipped(i).cast_unsigned()
}

// sortableIntToFloat.
pub fn sortable_int_to_float(i: i32) -> f32
    requires { T (not (nan_bits binary32 (sortable_bits i))) }
    ensures { result ≡ of_bits binary32 (sortable_bits i) }
{
    f32::from_bits(sortable_bits(i))
}

// Larger codes rank higher: by score, and at one score by the lower document.
pub fn encode(doc: u32, score: f32) -> i64
    requires t { T (not (is_nan score)) }
    requires doc_le_no_more_docs { doc ≤ no_more_docs }
    ensures { result ≡ code (record { doc = doc; score = score }) }
{
    (i64::from(float_to_sortable_int(score)) << 32) | i64::from(NO_MORE_DOCS - doc)
}

// The bits of a code's score.
pub fn score_bits(code: i64) -> u32
    ensures { result ≡ sortable_bits (shr_z code (2 ^ 32)) }
{
    sortable_bits((code >> 32) as i32)
}

pub fn to_score(code: i64) -> f32
    requires { T (not (nan_bits binary32 (sortable_bits (shr_z code (2 ^ 32))))) }
    ensures { result ≡ to_score code }
{
    f32::from_bits(score_bits(code))
}

// The document of a code; 0 where the lower word is no document's.
pub fn to_doc(code: i64) -> u32
    ensures { result ≡ to_doc code }
{
    NO_MORE_DOCS.saturating_sub((code & 0xffff_ffff) as u32)
}
