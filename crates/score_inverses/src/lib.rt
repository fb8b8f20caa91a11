// The inverses of BM25 for the fields that a query's terms and phrases are in, 256 for each field.
#![tactic(auto)]

ghost use Rattle.std.specs.Prelude.{◌*◌, ◌≡◌, List, ◌++◌, ℕ, ◌<◌, ◌≤◌, length, drop};
ghost use Rattle.std.specs.Float.{binary32};
ghost use Rattle.std.specs.Float.Ieee.{of_bits};
ghost use Rattle.meaning.specs.Below.{list_to};
ghost use Rattle.meaning.specs.Limits.{max_fields, least_average, largest_average};
ghost use Rattle.meaning.specs.Bm25.{length_of, inverse};
ghost use Rattle.meaning.specs.Query.{record_count};
ghost use Rattle.index.specs.Accepted.{Accepted};
ghost use Rattle.index.specs.IndexOf.{index_of};
ghost use Rattle.index.specs.declared.fields.TheConstants.{FIELD_WORDS};
ghost use Rattle.sim.specs.declared.bm25.TheConstants.{INVERSES};
ghost use Rattle.tree_weight.specs.Measured.{AcceptedOrder};
ghost use Rattle.score_inverses.specs.Inverses.{IsField, FieldTables};

use index::fields::{FIELD_WORDS, MAX_FIELDS, field_at};
use index::leaves::leaf_at;
use index::lent::Lent;
use query::{Kind, kind_at, record_count, value};
use sim::bm25::{Bm25, INVERSES};

// All that any query needs where at most one field is lent; without a field no record asks for any.
pub fn first_inverses(lent: &Lent) -> Bm25
    requires { Accepted (index_of lent.now) × (length lent.now.fields.now ≤ FIELD_WORDS) }
    ensures { (query : List ℕ) → AcceptedOrder (index_of lent.now) query
        → FieldTables (index_of lent.now) query result.cache }
{
    if lent.fields.len() == FIELD_WORDS {
        return Bm25::new(f32::from_bits(lent.fields[0]));
    }
    Bm25 {
        cache: [0.0; INVERSES],
    }
}

// Fills one field's 256 inverses.
fn fill_field(average: u32, table: &mut [f32])
    requires { (INVERSES ≤ length table.old) × (least_average ≤ average) × (average ≤ largest_average) }
    ensures { table.new
        ≡ list_to INVERSES (λ n. inverse (of_bits binary32 average) (length_of n)) ++ drop INVERSES table.old }
{
    let bm25 = Bm25::new(f32::from_bits(average));
    table[..INVERSES].copy_from_slice(&bm25.cache);
}

// The field of the record at `at`, or `None` where it is no Term and no Phrase.
// Kept: no plainer, here and in `fill_inverses`: a struct of the query with a ghost field for `AcceptedOrder` would be taken
// apart for `kind_at(query, at)`.
fn scored_field(lent: &Lent, query: &[u32], at: usize) -> Option<u32>
    requires { AcceptedOrder (index_of lent.now) query.now × (at < record_count query.now) }
    ensures { IsField (index_of lent.now) query.now at result }
{
    match kind_at(query, at) {
        Some(Kind::Term) => Some(leaf_at(lent.leaves, value(query, at, 0) as usize).field),
        Some(Kind::Phrase) => Some(value(query, at, 0)),
        _ => None,
    }
}

// A field's inverses are worked out once, where its first record is met.
pub fn fill_inverses(lent: &Lent, query: &[u32], table: &mut [f32])
    requires { AcceptedOrder (index_of lent.now) query.now × (length table.old ≡ max_fields * INVERSES) }
    ensures field_table { FieldTables (index_of lent.now) query.now table.new }
    ensures table_len { length table.new ≡ max_fields * INVERSES }
{
    // Kept: no plainer as Options in the table: scores read bare inverses there, and `filled` is asked only while the
    // table is filled.
    let mut filled: [bool; MAX_FIELDS] = [false; MAX_FIELDS];
    for at in 0..record_count(query) {
        if let Some(field) = scored_field(lent, query, at) {
            let f = field as usize;
            if !filled[f] {
                fill_field(field_at(lent.fields, f).average, &mut table[INVERSES * f..]);
                filled[f] = true;
            }
        }
    }
}
