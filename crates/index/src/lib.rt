// The lent records of an index: readers equal to the definitions' accessors, and the loader's refusals 1 to 4 and 6.
#![tactic(auto)]

pub mod columns;
pub mod fields;
pub mod leaves;
pub mod lent;
pub mod live;
pub mod norms;
pub mod postings;

ghost use Rattle.std.specs.Prelude.{◌≡◌, [], ℕ, ◌/◌, ◌<◌, Bool, ◌||◌, ltb, length};
ghost use Rattle.meaning.specs.Below.{any_below};
ghost use Rattle.meaning.specs.IndexRefusals.{not_whole, wrong1};
ghost use Rattle.index.specs.Slices.{lent};

// N at most 1,048,576.
pub const MAX_DOCUMENTS: u32 = 1048576;

// 1, N above the limit.
pub fn wrong_max_doc(max_doc: u32) -> bool
    ensures { result ≡ wrong1 (lent max_doc [] [] [] [] [] [] [] []) }
{
    max_doc > MAX_DOCUMENTS
}

// Records of SIZE words: not whole, more than a limit, or one of them wrong.
fn wrong_records<const SIZE: usize, F: Fn(usize) -> bool>(
    words: &[u32],
    limit: usize,
    wrong: F,
) -> bool
    requires size { 0 < SIZE }
    requires may_ask { (i : ℕ) → i < length words.now / SIZE → F.pre wrong i }
    ensures { (p : ℕ → Bool)
        → ((i : ℕ) (b : Bool) → i < length words.now / SIZE → F.post wrong i b → b ≡ p i)
        → result ≡ (not_whole (length words.now) SIZE || ltb limit (length words.now / SIZE)
        || any_below (length words.now / SIZE) p) }
{
    let count = words.len() / SIZE;
    if words.len() % SIZE != 0 {
        return true;
    }
    if count > limit {
        return true;
    }
    (0..count).any(wrong)
}
