// The index made from tokens: postings, positions, runs and norm bytes, written to lent outputs.
#![tactic(auto)]

pub mod postings;

ghost use Rattle.std.specs.Prelude.{◌≡◌, false};
ghost use Rattle.meaning.specs.IndexRefusals.{wrong1, wrong2};
ghost use Rattle.meaning.specs.Tokens.{fields_lent};
ghost use Rattle.meaning.specs.TokenRefusals.{wrong15, wrong16, write_answer};
ghost use Rattle.tokens.specs.Counts.{Counts};
ghost use Rattle.token_writer.specs.Answers.{written_numbers, outputs, WritesIndex};

use index::postings::POSTING_WORDS;
use index::{fields, norms};
use refusal::Refusal;
use token_norms::RUN_WORDS;
use tokens::{Numbers, TokenRecords};

// The lengths of the outputs.
#[derive(Clone, Copy)]
pub struct Outputs {
    pub norms: usize,
    pub postings: usize,
    pub positions: usize,
    pub runs: usize,
}

// 16, an output too short; the other numbers do not hold.
fn outputs_short(records: TokenRecords, numbers: Numbers, room: Outputs) -> bool
    requires fields_value { (wrong1 (fields_lent records.max_doc records.fields.now) ≡ false)
        × (wrong2 (fields_lent records.max_doc records.fields.now) ≡ false)
        × (wrong15 records.max_doc records.fields.now records.leaf_fields.now records.tokens.now ≡ false) }
    requires counts { Counts records.fields.now records.leaf_fields.now records.tokens.now numbers }
    ensures { result ≡ wrong16 records.entry.max_doc records.entry.fields.now records.entry.leaf_fields.now
        records.entry.tokens.now (outputs room.norms room.postings room.positions room.runs) }
{
    let number = fields::field_count(records.fields);
    (room.norms < norms::norms_offset(records.max_doc, records.fields, number))
        | (room.postings < POSTING_WORDS * numbers.postings)
        | (room.positions < numbers.positions)
        | (room.runs < RUN_WORDS * records.leaf_fields.len())
}

// Whether outputs of these lengths can be written, and how many postings and positions there will be;
// nothing is written.
pub fn accept(records: TokenRecords, room: Outputs) -> Result<Numbers, Refusal>
    ensures { written_numbers result ≡ write_answer records.entry.max_doc records.entry.fields.now
        records.entry.leaf_fields.now records.entry.tokens.now
        (outputs room.norms room.postings room.positions room.runs) }
{
    if index::wrong_max_doc(records.max_doc) {
        return Err(Refusal::MaxDoc);
    }
    if fields::wrong_fields(records.fields) {
        return Err(Refusal::Fields);
    }
    let numbers = records.check()?;
    if outputs_short(records, numbers, room) {
        return Err(Refusal::Outputs);
    }
    Ok(numbers)
}

// Writes norms, postings, positions and runs, or refuses and leaves them.
// Kept: the C interface lends four slices, which its entry and the function of `border` hand on as they are; a struct
// of them would be made there to be taken apart here.
pub fn write_index(
    records: TokenRecords,
    norms: &mut [u8],
    postings: &mut [u32],
    positions: &mut [u32],
    runs: &mut [u32],
) -> Result<Numbers, Refusal>
    ensures { WritesIndex records.entry.max_doc records.entry.fields.now records.entry.leaf_fields.now
        records.entry.tokens.now norms.old postings.old positions.old runs.old norms.new postings.new
        positions.new runs.new result }
{
    let room = Outputs {
        norms: norms.len(),
        postings: postings.len(),
        positions: positions.len(),
        runs: runs.len(),
    };
    let numbers = accept(records, room)?;
    postings::write_runs(records, postings, positions, runs);
    token_norms::write_norms(
        records.max_doc,
        records.fields,
        records.leaf_fields,
        &postings[..POSTING_WORDS * numbers.postings],
        &runs[..RUN_WORDS * records.leaf_fields.len()],
        norms,
    );
    Ok(numbers)
}
