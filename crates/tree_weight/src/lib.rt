// The scorer tree of a query and the words that hold it; definitions and laws stand in specs/ and proofs/.
#![tactic(auto)]

pub mod layout;

// The words of a node state: as `node_state_words` in meaning's Limits.
pub const NODE_STATE_WORDS: usize = 32;
