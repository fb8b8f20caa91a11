// The entries that the sale office calls: Search, Page and Length.
#![tactic(auto)]

pub mod buffers;
pub mod length;
mod over_tree;
pub mod page;
mod reader;
pub mod records;
pub mod resume;
pub mod search;
mod tables;

ghost use Rattle.std.specs.Prelude.{◌≡◌};
ghost use Rattle.searcher.specs.Answers.{used};

use refusal::Refusal;

// How many of n records a call used: none where it was refused.
pub fn used<T>(answer: &Result<T, Refusal>, n: usize) -> usize
    ensures { result ≡ used answer.now n }
{
    match answer {
        Ok(_) => n,
        Err(_) => 0,
    }
}
