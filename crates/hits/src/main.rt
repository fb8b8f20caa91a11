// The program of document 01: it reads the ten files in the folder where it is started, and prints the hits or the
// refusal. What it prints for the bytes that it reads is proved of `report::report`; reading and writing are not.
#![tactic(auto)]

mod report;

ghost use Rattle.std.specs.Prelude.{◌≤◌, length};

use hits_text::files::{Contents, MAX_BYTES};
use std::fs;
use std::io::Write;
use std::rt::Files;
use vectors::file::{first, read_all};

// One byte more than the largest file that is taken, so that a longer one shows.
const ROOM: usize = MAX_BYTES + 1;

// What was read of the file. One that is missing or unreadable counts as one that fills the buffer: both are refused.
// Kept: no plainer as an Option: document 01 refuses a missing file as it does a longer one, and `taken` tests the
// length alone.
fn read_file<'a>(rt: &impl Files, name: &str, bytes: &'a mut [u8]) -> &'a [u8]
    ensures { length result.now ≤ length bytes.old }
{
    let number = match fs::open(rt, name) {
        Ok(mut file) => read_all(&mut file, bytes).unwrap_or(bytes.len()),
        Err(_) => bytes.len(),
    };
    first(bytes, number)
}

fn main(rt: HostRuntime) -> std::io::Result<()> {
    // Kept: tried one array of ten, lent in parts by a pattern, and the proof did not close: the borrow checker does
    // not cover `main` then.
    let mut run = [0u8; ROOM];
    let mut fields = [0u8; ROOM];
    let mut leaves = [0u8; ROOM];
    let mut postings = [0u8; ROOM];
    let mut positions = [0u8; ROOM];
    let mut norms = [0u8; ROOM];
    let mut live = [0u8; ROOM];
    let mut columns = [0u8; ROOM];
    let mut values = [0u8; ROOM];
    let mut query = [0u8; ROOM];
    let files = Contents {
        run: read_file(&rt, "run.rec", &mut run),
        fields: read_file(&rt, "fields.rec", &mut fields),
        leaves: read_file(&rt, "leaves.rec", &mut leaves),
        postings: read_file(&rt, "postings.rec", &mut postings),
        positions: read_file(&rt, "positions.rec", &mut positions),
        norms: read_file(&rt, "norms.rec", &mut norms),
        live: read_file(&rt, "live.rec", &mut live),
        columns: read_file(&rt, "columns.rec", &mut columns),
        values: read_file(&rt, "values.rec", &mut values),
        query: read_file(&rt, "query.rec", &mut query),
    };
    std::io::writer(&rt).write_all(report::report(files).as_slice())
}
