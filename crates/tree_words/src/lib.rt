// The words of one node: its record, and the parts of those without trees below them.
#![tactic(auto)]

pub mod leaf;
pub mod place;
pub mod state;
