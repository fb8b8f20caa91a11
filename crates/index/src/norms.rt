// Norm bytes: N for each field with norms, in field order.
ghost use Rattle.std.specs.Prelude.{◌≡◌, false, ◌≤◌, ◌*◌, ◌/◌, length};
ghost use Rattle.meaning.specs.Below.{count_below};
ghost use Rattle.meaning.specs.Lent.{has_norms};
ghost use Rattle.meaning.specs.IndexRefusals.{wrong2, wrong3};
ghost use Rattle.meaning.specs.Limits.{max_fields};
ghost use Rattle.index.specs.Slices.{fields_only, lengths_only};
ghost use Rattle.index.specs.declared.fields.TheConstants.{FIELD_WORDS};

use super::fields::{field_at, field_count};

// How many of the fields before field f have norms.
fn norms_before(fields: &[u32], f: usize) -> usize
    requires { f ≤ length fields.now / FIELD_WORDS }
    ensures { result ≡ count_below f (has_norms (fields_only fields.now)) }
{
    (0..f)
        .filter(|at| field_at(fields, *at).has_norms())
        .count()
}

// Where the norm bytes of a field with norms begin.
pub fn norms_offset(max_doc: u32, fields: &[u32], field: usize) -> usize
    requires { (field ≤ length fields.now / FIELD_WORDS) × (field ≤ max_fields) }
    ensures { result ≡ count_below field (has_norms (fields_only fields.now)) * max_doc }
{
    norms_before(fields, field) * max_doc as usize
}

// 3, the lengths of the norm bytes and of the live words, which are none or N ÷ 64 rounded up.
pub fn wrong_lengths(max_doc: u32, fields: &[u32], norms: &[u8], live: &[u64]) -> bool
    requires { wrong2 (fields_only fields.now) ≡ false }
    ensures { result ≡ wrong3 (lengths_only max_doc fields.now norms.now live.now) }
{
    let bytes = norms_offset(max_doc, fields, field_count(fields));
    let words = (max_doc as usize).div_ceil(64);
    (norms.len() != bytes) | !(live.is_empty() | (live.len() == words))
}
