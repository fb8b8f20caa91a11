// What is read of a node's words: its kind, where a child's part ends, and what a Boolean says of its children.
#![tactic(auto)]

ghost use Rattle.std.specs.Prelude.{◌≡◌, ◌≤◌, length};
ghost use Rattle.meaning.specs.Limits.{node_state_words};
ghost use Rattle.tree_node.specs.Kinds.{node_kind, kind_word};
ghost use Rattle.tree_node.specs.Words.{ChildThere, ChildRead, BooleanRead};

use tree_weight::layout::{
    AFTERWARDS, CACHED, GROUP_AT, NEED, OPTIONAL_END, REQUIRED_END, SCORES, SIZE,
};

// A node's kind stands in the first word of its record. PhraseTerm stands only below a Phrase.
#[derive(Clone, Copy, Debug, PartialEq, Eq)]
pub enum NodeKind {
    Nothing = 0,
    Term = 1,
    Phrase = 2,
    Boolean = 3,
    Range = 4,
    Everything = 5,
    PhraseTerm = 9,
}

// A node of unknown kind matches nothing.
impl From<u32> for NodeKind {
    ghost from_gives = { λ word kind. kind ≡ node_kind word };

    fn from(word: u32) -> Self {
        match word {
            1 => NodeKind::Term,
            2 => NodeKind::Phrase,
            3 => NodeKind::Boolean,
            4 => NodeKind::Range,
            5 => NodeKind::Everything,
            9 => NodeKind::PhraseTerm,
            _ => NodeKind::Nothing,
        }
    }
}

impl NodeKind {
    // The word that a record of this kind begins with.
    // Kept: no plainer by From: `as u32` is the whole of it, and `NodeKind::Term.word()` says what the number is for.
    pub fn word(self) -> u32
        ensures { result ≡ kind_word self }
    {
        self as u32
    }
}

// Of a child's record: its kind, where its part ends, the document where it stands + 1, and whether it is a Must.
// Kept: no plainer: `cached` as an Option would want a match where `target < cached` asks it at once; 0 is below every
// document + 1.
#[derive(Clone, Copy)]
pub struct Child {
    pub kind: NodeKind,
    pub end: usize,
    pub cached: u32,
    pub scores: bool,
}

// The child whose part begins at `at`.
pub fn child_at(kids: &[u32], at: usize) -> Child
    requires { ChildThere kids.now at }
    ensures { ChildRead kids.now at result }
{
    Child {
        kind: NodeKind::from(kids[at]),
        end: at + kids[at + SIZE] as usize,
        cached: kids[at + CACHED],
        scores: kids[at + SCORES] == 1,
    }
}

// Of a Boolean's record: how many of the optional must match, where the required children's parts end and the optional
// ones', and where the group joins the required sum: after that is narrowed, or at a place among the parts.
// Kept: no plainer: `boolean_at` promises both words, also where `afterwards` is set, and an enum would have no place
// for `group_at` there.
#[derive(Clone, Copy)]
pub struct Boolean {
    pub need: u32,
    pub required_end: usize,
    pub optional_end: usize,
    pub afterwards: bool,
    pub group_at: usize,
}

// A Boolean's record at the front of its words.
pub fn boolean_at(states: &[u32]) -> Boolean
    requires { node_state_words ≤ length states.now }
    ensures { BooleanRead states.now result }
{
    Boolean {
        need: states[NEED],
        required_end: states[REQUIRED_END] as usize,
        optional_end: states[OPTIONAL_END] as usize,
        afterwards: states[AFTERWARDS] == 1,
        group_at: states[GROUP_AT] as usize,
    }
}
