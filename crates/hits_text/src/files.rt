// Which files the program takes.
ghost use Rattle.std.specs.Prelude.{◌≡◌, ◌<◌};
ghost use Rattle.hits_text.specs.Text.{whole as whole_file, taken as taken_files};
ghost use Rattle.hits_text.specs.Contents.{files_of};

// A longer file is not taken.
pub const MAX_BYTES: usize = 65536;

// What was read of each of the ten files.
#[derive(Clone, Copy)]
pub struct Contents<'a> {
    pub run: &'a [u8],
    pub fields: &'a [u8],
    pub leaves: &'a [u8],
    pub postings: &'a [u8],
    pub positions: &'a [u8],
    pub norms: &'a [u8],
    pub live: &'a [u8],
    pub columns: &'a [u8],
    pub values: &'a [u8],
    pub query: &'a [u8],
}

// Whether a file is not too long and of whole words of so many bytes.
fn whole(bytes: &[u8], size: usize) -> bool
    requires { 0 < size }
    ensures { result ≡ whole_file size bytes.now }
{
    bytes.len() <= MAX_BYTES && bytes.len() % size == 0
}

// Whether each file is one that the program takes.
#[tactic(auto, unfolding(crate::specs::Text::taken))]
pub fn taken(files: Contents) -> bool
    ensures { result ≡ taken_files (files_of files.entry) }
{
    files.run.len() == 12
        && whole(files.fields, 4)
        && whole(files.leaves, 4)
        && whole(files.postings, 4)
        && whole(files.positions, 4)
        && whole(files.norms, 1)
        && whole(files.live, 8)
        && whole(files.columns, 4)
        && whole(files.values, 4)
        && whole(files.query, 4)
}
