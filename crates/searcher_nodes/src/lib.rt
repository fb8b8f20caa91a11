// Search and Page over node states as records: a call on the words of a local array, from which the records are read.
#![tactic(auto)]

pub mod page;
pub mod search;
