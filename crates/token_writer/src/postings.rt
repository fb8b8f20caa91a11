// The postings and positions of the tokens, leaf by leaf, posting by posting, and the run of each leaf.
ghost use Rattle.std.specs.Prelude.{◌≡◌, cond, ℕ, ◌+◌, ◌*◌, ◌≤◌, length};
ghost use Rattle.std.proofs.lemmas.List.Edits.{sets};
ghost use Rattle.meaning.specs.Below.{list_to};
ghost use Rattle.meaning.specs.Tokens.{token_count, token_at};
ghost use Rattle.token_writer.specs.Writing.{WritePostingsPre, WritePostingsPost, WriteRunPre, WriteRunPost, RunsPre, RunsPost};

use tokens::{TokenRecords, token_at, token_count};

// Copies the positions of the tokens from `from` on.
fn copy_positions(tokens: &[u32], from: usize, positions: &mut [u32])
    requires { from + length positions.old ≤ token_count tokens.now }
    ensures { positions.new ≡ list_to (length positions.old)
        (λ j. (token_at tokens.now (from + j)).position) }
{
    for (j, position) in positions.iter_mut().enumerate() {
        *position = token_at(tokens, from + j).position;
    }
}

// Writes record `number`, of N words, behind those before it.
fn write_record<const N: usize>(words: &mut [u32], number: usize, values: [u32; N])
    requires { N * number + N ≤ length words.old }
    ensures { words.new ≡ sets words.old (N * number) values.entry }
{
    let at = N * number;
    words[at..at + N].copy_from_slice(&values);
}

// A number where the field has positions, else 0.
// Kept: no plainer as an Option: the flag is of the leaf's field, and the number another at each use.
fn where_positional(positional: bool, number: usize) -> usize
    ensures { result ≡ cond positional number 0 }
{
    if positional { number } else { 0 }
}

// The first token that is not written yet, and how many postings and positions are.
#[derive(Clone, Copy)]
pub struct Cursor {
    pub token: usize,
    pub posting: usize,
    pub position: usize,
}

// The postings of a leaf, whose tokens begin at the cursor, behind those that are written. A posting is written again
// with each of its tokens, so that no branch hangs on where it ends.
// Kept: no plainer: no switch, here and in `write_run`:
// whether the leaf's field has positions is a number in the sum of what is written.
fn write_postings(
    records: TokenRecords,
    at: Cursor,
    leaf: u32,
    positional: bool,
    postings: &mut [u32],
) -> Cursor
    requires { (n : ℕ) × (m : ℕ) × WritePostingsPre n m records.tokens.now leaf positional at.token at.posting
        at.position (length postings.old) }
    ensures { (n m : ℕ) → WritePostingsPre n m records.entry.tokens.now leaf positional at.token at.posting
        at.position (length postings.old) → WritePostingsPost n records.entry.tokens.now leaf positional at.token
        at.posting at.position postings.old postings.new result }
{
    let mut end = at;
    let mut start = at.token;
    let mut before = None;
    for token in at.token..token_count(records.tokens) {
        let here = token_at(records.tokens, token);
        if here.leaf != leaf {
            break;
        }
        if before != Some(here.document) {
            end.posting += 1;
            start = token;
        }
        let frequency = token - start + 1;
        let index = where_positional(positional, at.position + (start - at.token));
        write_record(
            postings,
            end.posting - 1,
            [here.document, frequency as u32, index as u32],
        );
        before = Some(here.document);
        end.token = token + 1;
    }
    end.position += where_positional(positional, end.token - at.token);
    end
}

// The postings of a leaf, and then its positions.
fn write_run(
    records: TokenRecords,
    at: Cursor,
    leaf: u32,
    positional: bool,
    postings: &mut [u32],
    positions: &mut [u32],
) -> Cursor
    requires { (n : ℕ) × (m : ℕ) × WriteRunPre n m records.tokens.now leaf positional at.token at.posting
        at.position (length postings.old) (length positions.old) }
    ensures { (n m : ℕ) → WriteRunPre n m records.entry.tokens.now leaf positional at.token at.posting
        at.position (length postings.old) (length positions.old)
        → WriteRunPost n records.entry.tokens.now leaf positional at.posting at.position postings.old
        positions.old postings.new positions.new result }
{
    let end = write_postings(records, at, leaf, positional, postings);
    copy_positions(
        records.tokens,
        at.token,
        &mut positions[at.position..end.position],
    );
    end
}

// The postings, positions and runs of all leaves; the first of each that they fill are written.
pub fn write_runs(
    records: TokenRecords,
    postings: &mut [u32],
    positions: &mut [u32],
    runs: &mut [u32],
)
    requires { (n : ℕ) × RunsPre n records.fields.now records.leaf_fields.now records.tokens.now
        (length postings.old) (length positions.old) (length runs.old) }
    ensures { (n : ℕ) → RunsPre n records.entry.fields.now records.entry.leaf_fields.now
        records.entry.tokens.now (length postings.old) (length positions.old) (length runs.old)
        → RunsPost n records.entry.fields.now records.entry.leaf_fields.now records.entry.tokens.now
        postings.old positions.old runs.old postings.new positions.new runs.new }
{
    let mut at = Cursor {
        token: 0,
        posting: 0,
        position: 0,
    };
    for leaf in 0..records.leaf_fields.len() {
        let positional = records.is_positional(leaf);
        let end = write_run(records, at, leaf as u32, positional, postings, positions);
        write_record(
            runs,
            leaf,
            [at.posting as u32, (end.posting - at.posting) as u32],
        );
        at = end;
    }
}
