// Token records, three words each: leaf, document, position;
// what 15 asks of them, and how many postings and positions they fill.
#![tactic(auto)]

ghost use Rattle.std.specs.Prelude.{◌≡◌, false, ◌<◌, ◌-◌, length, is_err, IfOk, IfErr, MatchOption};
ghost use Rattle.meaning.specs.Below.{any_below};
ghost use Rattle.meaning.specs.Tokens.{token_count, positional};
ghost use Rattle.meaning.specs.TokenRefusals.{wrong_token, wrong_leaf_field, wrong15};
ghost use Rattle.tokens.specs.Records.{token_of};
ghost use Rattle.tokens.specs.Counts.{begins_posting, Counts};

use index::leaves::MAX_LEAVES;
use index::{fields, postings};
use refusal::Refusal;

// The words of a token.
const TOKEN_WORDS: usize = 3;

// The limit of the request: 16,777,216 tokens.
const MAX_TOKENS: usize = 16777216;

// A token's record by value. Tokens are in the order of its fields.
#[derive(Clone, Copy, PartialEq, Eq, PartialOrd, Ord)]
pub struct Token {
    pub leaf: u32,
    pub document: u32,
    pub position: u32,
}

// How many whole tokens there are.
pub fn token_count(tokens: &[u32]) -> usize
    ensures { result ≡ token_count tokens.now }
{
    tokens.len() / TOKEN_WORDS
}

// Token number i.
pub fn token_at(tokens: &[u32], i: usize) -> Token
    requires { i < token_count tokens.now }
    ensures { result ≡ token_of tokens.now i }
{
    Token {
        leaf: tokens[TOKEN_WORDS * i],
        document: tokens[TOKEN_WORDS * i + 1],
        position: tokens[TOKEN_WORDS * i + 2],
    }
}

// The token before token i; none is before the first.
fn token_before(tokens: &[u32], i: usize) -> Option<Token>
    requires { i < token_count tokens.now }
    ensures { MatchOption result (i ≡ 0) (λ before. (0 < i) × (before ≡ token_of tokens.now (i - 1))) }
{
    let before = i.checked_sub(1)?;
    Some(token_at(tokens, before))
}

// Whether token i begins a posting: it is the first, or another leaf's or document's than the one before.
fn begins_posting(tokens: &[u32], i: usize) -> bool
    requires { i < token_count tokens.now }
    ensures { result ≡ begins_posting tokens.now i }
{
    let here = token_at(tokens, i);
    match token_before(tokens, i) {
        Some(before) => (here.leaf != before.leaf) | (here.document != before.document),
        None => true,
    }
}

// How many postings and positions tokens fill.
#[derive(Clone, Copy)]
pub struct Numbers {
    pub postings: usize,
    pub positions: usize,
}

// N, the field records, the token records, and the field of each leaf.
#[derive(Clone, Copy)]
pub struct TokenRecords<'a> {
    pub max_doc: u32,
    pub fields: &'a [u32],
    pub tokens: &'a [u32],
    pub leaf_fields: &'a [u32],
}

impl TokenRecords<'_> {
    // Token i: out of order, its leaf or document absent, or its position too large.
    fn wrong_token(self, i: usize) -> bool
        requires { i < token_count self.tokens.now }
        ensures { result ≡ wrong_token self.entry.max_doc self.entry.leaf_fields.now self.entry.tokens.now i }
    {
        let here = token_at(self.tokens, i);
        let absent = (here.leaf as usize >= self.leaf_fields.len())
            | (here.document >= self.max_doc)
            | (here.position > postings::NO_MORE_DOCS);
        match token_before(self.tokens, i) {
            Some(before) => (here < before) | absent,
            None => absent,
        }
    }

    // Whether a leaf's field has positions.
    pub fn is_positional(self, leaf: usize) -> bool
        requires { (leaf < length self.leaf_fields.now)
            × (wrong_leaf_field self.fields.now self.leaf_fields.now leaf ≡ false) }
        ensures { result ≡ positional self.entry.fields.now self.entry.leaf_fields.now leaf }
    {
        fields::field_at(self.fields, self.leaf_fields[leaf] as usize).has_positions()
    }

    // The tokens one after the other, up to the first that is wrong.
    fn count_tokens(self) -> Result<Numbers, Refusal>
        requires { any_below (length self.leaf_fields.now)
            (wrong_leaf_field self.fields.now self.leaf_fields.now) ≡ false }
        ensures wrong { is_err result ≡ any_below (token_count self.entry.tokens.now)
            (wrong_token self.entry.max_doc self.entry.leaf_fields.now self.entry.tokens.now) }
        ensures refusal { IfErr result (λ r. r ≡ Refusal.Tokens) }
        ensures counts { IfOk result
            (Counts self.entry.fields.now self.entry.leaf_fields.now self.entry.tokens.now) }
    {
        let mut postings = 0;
        let mut positions = 0;
        for i in 0..token_count(self.tokens) {
            if self.wrong_token(i) {
                return Err(Refusal::Tokens);
            }
            postings += usize::from(begins_posting(self.tokens, i));
            let leaf = token_at(self.tokens, i).leaf as usize;
            positions += usize::from(self.is_positional(leaf));
        }
        Ok(Numbers {
            postings,
            positions,
        })
    }

    // Whether some leaf's field is absent.
    fn wrong_leaf_fields(self) -> bool
        ensures { result ≡ any_below (length self.entry.leaf_fields.now)
            (wrong_leaf_field self.entry.fields.now self.entry.leaf_fields.now) }
    {
        let number = fields::field_count(self.fields);
        self.leaf_fields.iter().any(|f| *f as usize >= number)
    }

    // 15, the tokens and the leaves' fields, and how many postings and positions the tokens fill.
    pub fn check(self) -> Result<Numbers, Refusal>
        ensures wrong { is_err result ≡ wrong15 self.entry.max_doc self.entry.fields.now
            self.entry.leaf_fields.now self.entry.tokens.now }
        ensures refusal { IfErr result (λ r. r ≡ Refusal.Tokens) }
        ensures counts { IfOk result
            (Counts self.entry.fields.now self.entry.leaf_fields.now self.entry.tokens.now) }
    {
        if (self.tokens.len() % TOKEN_WORDS != 0)
            | (token_count(self.tokens) > MAX_TOKENS)
            | (self.leaf_fields.len() > MAX_LEAVES)
        {
            return Err(Refusal::Tokens);
        }
        // apart from the lengths, so that a list that is too long is not walked
        if self.wrong_leaf_fields() {
            return Err(Refusal::Tokens);
        }
        self.count_tokens()
    }
}
