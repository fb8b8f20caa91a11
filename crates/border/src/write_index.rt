// The border's token writer.
ghost use Rattle.border.specs.Write.{LotWritesIndex};

use crate::short_answer;
use refusal::Refusal;
use token_writer::Outputs;
use tokens::TokenRecords;

// Kept: the C interface hands over each slice and number by itself, so its clause names them one by one.
pub fn lot_write_index(
    max_doc: u32,
    fields: &[u32],
    tokens: &[u32],
    leaf_fields: &[u32],
    norms: &mut [u8],
    postings: &mut [u32],
    positions: &mut [u32],
    runs: &mut [u32],
    answer: &mut [u64],
) -> u32
    ensures { LotWritesIndex max_doc fields.now leaf_fields.now tokens.now norms.old postings.old
        positions.old runs.old answer.old norms.new postings.new positions.new runs.new answer.new result }
{
    let records = TokenRecords {
        max_doc,
        fields,
        tokens,
        leaf_fields,
    };
    if answer.len() < 2 {
        let room = Outputs {
            norms: norms.len(),
            postings: postings.len(),
            positions: positions.len(),
            runs: runs.len(),
        };
        let accepted = token_writer::accept(records, room);
        return short_answer(&accepted, Refusal::Outputs);
    }
    match token_writer::write_index(records, norms, postings, positions, runs) {
        Ok(numbers) => {
            answer[0] = numbers.postings as u64;
            answer[1] = numbers.positions as u64;
            0
        }
        Err(refusal) => refusal.number(),
    }
}
