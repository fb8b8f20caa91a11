// A node's record by the names of its words: `tree_weight`'s State, which says what each is.
ghost use Rattle.std.specs.Prelude.{◌≡◌};
ghost use Rattle.tree_weight.specs.State.{words_of};
ghost use Rattle.tree_words.specs.Words.{state_of};

use tree_weight::NODE_STATE_WORDS;

// One scorer of the tree, or one term of a phrase. By default its words are 0.
// Kept: no plainer: kind and flags are words as a caller lends them, of which any may be wrong; `tree_node` reads them
// as an enum and as bools.
#[derive(Clone, Copy, Default, PartialEq, Eq)]
pub struct NodeState {
    pub kind: u32,
    pub size: u32,
    pub cached: u32,
    pub need: u32,
    pub required_end: u32,
    pub optional_end: u32,
    pub first: u32,
    pub number: u32,
    pub cursor: u32,
    pub offset: u32,
    pub field: u32,
    pub constant: u32,
    pub weight: u32,
    pub afterwards: u32,
    pub group_at: u32,
    pub scores: u32,
    pub frequency_of: u32,
    pub frequency: u32,
    pub norms: u32,
    pub window_first: u32,
    pub window_low: u32,
    pub window_high: u32,
    pub window_next: u32,
    pub ones_low: u32,
    pub ones_high: u32,
    pub twos_low: u32,
    pub twos_high: u32,
    pub spare1: u32,
    pub spare2: u32,
    pub spare3: u32,
    pub spare4: u32,
    pub spare5: u32,
}

impl NodeState {
    // The record's words, in order.
    // Kept: no plainer by From: its callers have the record by reference, and `state.words()` says what comes of it.
    pub fn words(&self) -> [u32; NODE_STATE_WORDS]
        ensures { result ≡ words_of (state_of self.now) }
    {
        [
            self.kind,
            self.size,
            self.cached,
            self.need,
            self.required_end,
            self.optional_end,
            self.first,
            self.number,
            self.cursor,
            self.offset,
            self.field,
            self.constant,
            self.weight,
            self.afterwards,
            self.group_at,
            self.scores,
            self.frequency_of,
            self.frequency,
            self.norms,
            self.window_first,
            self.window_low,
            self.window_high,
            self.window_next,
            self.ones_low,
            self.ones_high,
            self.twos_low,
            self.twos_high,
            self.spare1,
            self.spare2,
            self.spare3,
            self.spare4,
            self.spare5,
        ]
    }
}
