// 9: the boost carried down each path.
ghost use Rattle.std.specs.Prelude.{◌≡◌, false, ◌+◌, ◌<◌};
ghost use Rattle.std.proofs.Math.Option.{some};
ghost use Rattle.meaning.specs.Query.{record_count, record_children, Decoded, DecodedClauses, decode, decode_clauses};
ghost use Rattle.meaning.specs.QueryRefusals.{wrong7, wrong9};
ghost use Rattle.query.specs.Read.{Boosts};
ghost use Rattle.query.specs.Inner.{end_below_limit, clauses_below_limit};

use query::{Kind, LARGEST_BOOST, MAX_DEPTH, children, kind_at, occur_at, value};

// The record after the tree at `at`, or none where the boost that reaches it, or one below it, goes above 65,536.
// Kept: no plainer, here and below: `query, at` as in `query`, whose definitions take them so.
#[cycle(clauses_below_tree_below)]
fn tree_below(query: &[u32], depth: u32, at: usize, boost: f32) -> Option<usize>
    requires { Boosts query.now × ((t : Decoded) × (decode query.now depth at ≡ some t)) }
    ensures { result ≡ end_below_limit (decode query.now depth at) boost }
{
    let limit = f32::from_bits(LARGEST_BOOST);
    if limit < boost {
        return None;
    }
    match kind_at(query, at)? {
        Kind::Term | Kind::Range | Kind::MatchAll | Kind::MatchNone => Some(at + 1),
        Kind::Phrase => Some(at + 1 + children(query, at) as usize),
        Kind::Boolean => clauses_below(query, depth - 1, at, boost),
        Kind::ConstantScore => tree_below(query, depth - 1, at + 1, 0.0),
        Kind::Boost => tree_below(
            query,
            depth - 1,
            at + 1,
            boost * f32::from_bits(value(query, at, 0)),
        ),
        Kind::PhraseTerm => None,
    }
}

// The same of the clauses of the Boolean at `at`.
#[cycle(clauses_below_tree_below)]
fn clauses_below(query: &[u32], depth: u32, at: usize, boost: f32) -> Option<usize>
    requires { Boosts query.now × (at < record_count query.now) × ((cs : DecodedClauses)
        × (decode_clauses query.now (decode query.now depth) (record_children query.now at) (at + 1)
        ≡ some cs)) }
    ensures { result ≡ clauses_below_limit
        (decode_clauses query.now (decode query.now depth) (record_children query.now at) (at + 1)) boost }
{
    let mut next = at + 1;
    for _ in 0..children(query, at) {
        let passed = occur_at(query, next)?.passed_on(boost);
        next = tree_below(query, depth, next, passed)?;
    }
    Some(next)
}

// 9: a boost carried down a path above 65,536.
pub fn wrong_boost(query: &[u32]) -> bool
    requires { (wrong7 query.now ≡ false) × Boosts query.now }
    ensures { result ≡ wrong9 query.now }
{
    tree_below(query, MAX_DEPTH, 0, 1.0).is_none()
}
