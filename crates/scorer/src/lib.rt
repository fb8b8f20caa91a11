// Scorers over lent node states: the words of a node are its record and then its children's parts, one after the other.
#![tactic(auto)]

ghost use Rattle.std.specs.Prelude.{ℕ, ◌+◌, ◌≤◌, ◌<◌, ◌≡◌, get_or};
ghost use Rattle.meaning.specs.Limits.{node_state_words};
ghost use Rattle.tree_weight.specs.declared.layout.TheConstants.{CACHED};
ghost use Rattle.scorer.specs.Calls.{AdvancePre, AdvancePost, AdvanceTermPre, AdvanceTermPost, AdvanceRangePre, AdvanceRangePost, AskPre, AskPost, PartsPre, Tally, LeastPost, DisjunctionPost, PassPost, LeadPre, StepPost, LeadPost, ExcludingPre, ExcludingPost};
ghost use Rattle.scorer_leaf.specs.Calls.{lists_of};
ghost use Rattle.scorer_leaf.specs.Buffers.{room, other_room, SameBuffers};

use scorer_leaf::{LeafReader, NO_MORE_DOCS, PhraseBuffers};
use tree_node::{Boolean, NodeKind, boolean_at, child_at};
use tree_weight::NODE_STATE_WORDS;
use tree_weight::layout::{CACHED, KIND};

// The least document on which some children stand, and how many of them stand there.
#[derive(Clone, Copy)]
pub struct Standing {
    pub doc: u32,
    pub count: usize,
}

impl Standing {
    // With one document more.
    fn with(self, d: u32) -> Standing
        requires { self.count < 18446744073709551615 }
        ensures { Tally self.doc self.count d result.doc result.count }
    {
        if d < self.doc {
            return Standing { doc: d, count: 1 };
        }
        if d == self.doc {
            return Standing {
                count: self.count + 1,
                ..self
            };
        }
        self
    }
}

// `advance` of a term, for loops over children: all that it calls is inlined.
// Kept: no plainer by one function over a closure that seeks, for this and `advance_range`: the closure needs clauses
// on when it may be asked, what it answers and how far it goes, in the place of seven lines.
pub fn advance_term(states: &mut [u32], postings: &[u32], target: u32) -> u32
    requires { AdvanceTermPre postings.now states.old target }
    ensures term_post { AdvanceTermPost postings.now states.old target result states.new }
    ensures cached_after { get_or states.new CACHED 0 ≡ result + 1 }
{
    let cached = states[CACHED];
    if target < cached {
        return cached - 1;
    }
    let d = scorer_leaf::search_postings(states, postings, target);
    states[CACHED] = d + 1;
    d
}

// `advance` of a range, likewise.
fn advance_range(states: &mut [u32], ranges: &[u32], target: u32) -> u32
    requires { AdvanceRangePre ranges.now states.old target }
    ensures { AdvanceRangePost ranges.now states.old target result states.new }
{
    let cached = states[CACHED];
    if target < cached {
        return cached - 1;
    }
    let d = scorer_leaf::seek_range(states, ranges, target);
    states[CACHED] = d + 1;
    d
}

// Tests a phrase at the target, if the pass that began at `from` has not moved on: positions cost most, so a phrase is
// asked about no document that another child has ruled out.
// Kept: no plainer as one struct of the two, here and below: of them only `buffers` is lent for writing; with the
// reader in it, each clause would also say that it stays.
fn ask_phrase(
    states: &mut [u32],
    reader: &LeafReader<'_>,
    buffers: &mut PhraseBuffers<'_>,
    from: u32,
    target: u32,
) -> u32
    requires { AskPre reader.now.postings.now reader.now.positions.now (room buffers.old)
        (other_room buffers.old) states.old target }
    ensures ask_post { AskPost reader.now.postings.now reader.now.positions.now states.old from
        target result states.new }
    ensures same_buffers { SameBuffers buffers.old buffers.new }
{
    if from != target {
        return target;
    }
    let d = scorer_leaf::phrase_at(states, reader, buffers, target);
    if d != target {
        return d;
    }
    states[CACHED] = target + 1;
    target
}

// The first document at or after the target that the node matches, or NO_MORE_DOCS.
#[cycle(advance_conjunction_disjunction_excluding_lead_least_pass_step)]
pub fn advance(
    states: &mut [u32],
    reader: &LeafReader<'_>,
    buffers: &mut PhraseBuffers<'_>,
    target: u32,
    depth: u32,
) -> u32
    requires { AdvancePre (lists_of reader.now) (room buffers.old) (other_room buffers.old)
        states.old target depth }
    ensures advance_post { AdvancePost (lists_of reader.now) states.old target depth result states.new }
    ensures cached_after { get_or states.new CACHED 0 ≡ result + 1 }
    ensures same_buffers { SameBuffers buffers.old buffers.new }
{
    let cached = states[CACHED];
    if target < cached {
        return cached - 1;
    }
    match NodeKind::from(states[KIND]) {
        NodeKind::Boolean => {
            let n = boolean_at(states);
            let kids = &mut states[NODE_STATE_WORDS..];
            let d = excluding(kids, reader, buffers, n, target, depth - 1);
            states[CACHED] = d + 1;
            d
        }
        _ => {
            let d = scorer_leaf::seek(states, reader, buffers, target);
            states[CACHED] = d + 1;
            d
        }
    }
}

// The next document of the required and optional children that no prohibited child matches (Lucene's ReqExclScorer).
#[cycle(advance_conjunction_disjunction_excluding_lead_least_pass_step)]
fn excluding(
    kids: &mut [u32],
    reader: &LeafReader<'_>,
    buffers: &mut PhraseBuffers<'_>,
    n: Boolean,
    target: u32,
    depth: u32,
) -> u32
    requires { ExcludingPre (lists_of reader.now) (room buffers.old) (other_room buffers.old) kids.old
        n.required_end n.optional_end target depth }
    ensures boolean_post { ExcludingPost (lists_of reader.now) kids.old n.required_end n.optional_end
        n.need target depth result kids.new }
    ensures same_buffers { SameBuffers buffers.old buffers.new }
{
    let mut t = target;
    // Kept: each turn begins where the answer of the one before lies; a loop is plainer than an iterator of such steps.
    loop {
        let d = lead(&mut kids[..n.optional_end], reader, buffers, n, t, depth);
        if d == NO_MORE_DOCS {
            return d;
        }
        if n.optional_end == kids.len() {
            return d;
        }
        let x = least(&mut kids[n.optional_end..], reader, buffers, d, depth);
        if x.doc != d {
            return d;
        }
        t = d + 1;
    }
}

// Every required child and, where some are needed, so many of the optional. `kids` ends where the optional do.
#[cycle(advance_conjunction_disjunction_excluding_lead_least_pass_step)]
fn lead(
    kids: &mut [u32],
    reader: &LeafReader<'_>,
    buffers: &mut PhraseBuffers<'_>,
    n: Boolean,
    target: u32,
    depth: u32,
) -> u32
    requires { LeadPre (lists_of reader.now) (room buffers.old) (other_room buffers.old) kids.old
        n.required_end target depth }
    ensures lead_post { LeadPost (lists_of reader.now) kids.old n.required_end n.need target depth
        result kids.new }
    ensures same_buffers { SameBuffers buffers.old buffers.new }
{
    if n.required_end == 0 {
        if n.need == 0 {
            target
        } else {
            disjunction(kids, reader, buffers, n.need, target, depth)
        }
    } else {
        conjunction(kids, reader, buffers, n, target, depth)
    }
}

// Advances the required children, and as many of the optional as are needed, until they stand on one document.
#[cycle(advance_conjunction_disjunction_excluding_lead_least_pass_step)]
fn conjunction(
    kids: &mut [u32],
    reader: &LeafReader<'_>,
    buffers: &mut PhraseBuffers<'_>,
    n: Boolean,
    target: u32,
    depth: u32,
) -> u32
    requires { LeadPre (lists_of reader.now) (room buffers.old) (other_room buffers.old) kids.old
        n.required_end target depth }
    ensures lead_post { LeadPost (lists_of reader.now) kids.old n.required_end n.need target depth
        result kids.new }
    ensures same_buffers { SameBuffers buffers.old buffers.new }
{
    let mut d = target;
    // Kept: each turn begins where the answer of the one before lies; a loop is plainer than an iterator of such steps.
    loop {
        let e = step(kids, reader, buffers, n, d, depth);
        if e == d {
            return d;
        }
        d = e;
    }
}

// Advances the required children once and then, where some are needed, the optional.
#[cycle(advance_conjunction_disjunction_excluding_lead_least_pass_step)]
fn step(
    kids: &mut [u32],
    reader: &LeafReader<'_>,
    buffers: &mut PhraseBuffers<'_>,
    n: Boolean,
    target: u32,
    depth: u32,
) -> u32
    requires { LeadPre (lists_of reader.now) (room buffers.old) (other_room buffers.old) kids.old
        n.required_end target depth }
    ensures step_post { StepPost (lists_of reader.now) kids.old n.required_end n.need target depth
        result kids.new }
    ensures same_buffers { SameBuffers buffers.old buffers.new }
{
    let end = n.required_end;
    let e = pass(&mut kids[..end], reader, buffers, target, depth);
    if n.need == 0 {
        e
    } else {
        disjunction(&mut kids[end..], reader, buffers, n.need, e, depth)
    }
}

// Advances each child to where the one before it got, cheapest first; phrases as `ask_phrase` says.
#[cycle(advance_conjunction_disjunction_excluding_lead_least_pass_step)]
fn pass(
    kids: &mut [u32],
    reader: &LeafReader<'_>,
    buffers: &mut PhraseBuffers<'_>,
    target: u32,
    depth: u32,
) -> u32
    requires { PartsPre (lists_of reader.now) (room buffers.old) (other_room buffers.old) kids.old
        target depth }
    ensures pass_post { PassPost (lists_of reader.now) kids.old target depth result kids.new }
    ensures same_buffers { SameBuffers buffers.old buffers.new }
{
    let mut d = target;
    let mut at = 0;
    // Kept: parts differ in length and are lent for writing, so an iterator would hold `kids` and `at` itself.
    while at < kids.len() {
        let child = child_at(kids, at);
        let end = child.end;
        match child.kind {
            NodeKind::Term => d = advance_term(&mut kids[at..end], reader.postings, d),
            NodeKind::Range => d = advance_range(&mut kids[at..end], reader.ranges, d),
            _ => {
                if d < child.cached {
                    d = child.cached - 1;
                } else if child.kind == NodeKind::Phrase {
                    d = ask_phrase(&mut kids[at..end], reader, buffers, target, d);
                } else {
                    d = advance(&mut kids[at..end], reader, buffers, d, depth);
                }
            }
        }
        at = end;
    }
    d
}

// The first document that at least `need` of the children match; `need` may be any number, so nothing is added to it.
#[cycle(advance_conjunction_disjunction_excluding_lead_least_pass_step)]
fn disjunction(
    kids: &mut [u32],
    reader: &LeafReader<'_>,
    buffers: &mut PhraseBuffers<'_>,
    need: u32,
    target: u32,
    depth: u32,
) -> u32
    requires { (0 < need)
        × PartsPre (lists_of reader.now) (room buffers.old) (other_room buffers.old) kids.old target
        depth }
    ensures disjunction_post { DisjunctionPost (lists_of reader.now) kids.old need target depth
        result kids.new }
    ensures same_buffers { SameBuffers buffers.old buffers.new }
{
    let enough = need as usize;
    let mut t = target;
    // Kept: each turn begins where the answer of the one before lies; a loop is plainer than an iterator of such steps.
    loop {
        let x = least(kids, reader, buffers, t, depth);
        let d = x.doc;
        if d == NO_MORE_DOCS {
            return d;
        }
        if enough <= x.count {
            return d;
        }
        t = d + 1;
    }
}

// The least document at or after the target that some child matches, and how many match it.
#[cycle(advance_conjunction_disjunction_excluding_lead_least_pass_step)]
fn least(
    kids: &mut [u32],
    reader: &LeafReader<'_>,
    buffers: &mut PhraseBuffers<'_>,
    target: u32,
    depth: u32,
) -> Standing
    requires { PartsPre (lists_of reader.now) (room buffers.old) (other_room buffers.old) kids.old
        target depth }
    ensures least_post { LeastPost (lists_of reader.now) kids.old target depth result.doc
        result.count kids.new }
    ensures same_buffers { SameBuffers buffers.old buffers.new }
{
    let mut least = Standing {
        doc: NO_MORE_DOCS,
        count: 0,
    };
    let mut at = 0;
    // Kept: parts differ in length and are lent for writing, so an iterator would hold `kids` and `at` itself.
    while at < kids.len() {
        let child = child_at(kids, at);
        let end = child.end;
        match child.kind {
            NodeKind::Term => {
                let d = advance_term(&mut kids[at..end], reader.postings, target);
                least = least.with(d);
            }
            _ if target < child.cached => least = least.with(child.cached - 1),
            _ => {
                let d = advance(&mut kids[at..end], reader, buffers, target, depth);
                least = least.with(d);
            }
        }
        at = end;
    }
    least
}
