// What the walk's functions take and answer. Every function of the walk is lent a text, the first token of
// what it reads, a way, a buffer and a place in it, and lays down there what it reads.
#![tactic(auto)]

ghost use Rattle.std.specs.Prelude.{◌≡◌};
ghost use Rattle.tokens.specs.Refusals.{UnexpectedToken, TooDeep};
ghost use Rattle.tokens.specs.Answers.{refusal};
ghost use Rattle.tokens.specs.Calls.{next_token};
ghost use Rattle.parts.specs.code.Meets.{followed_by};

use forms::Spot;
use tokens::refusals::{TOO_DEEP, UNEXPECTED_TOKEN};
use tokens::{Refusal, Token};

// The most levels.
pub const LEVELS: usize = 64;

// What every function of the walk hands on: the form, the edition, and the levels that are left. The text is handed on
// beside it: in here it would make the stack of 64 levels too long (MOVESIG_STACK in include/movesig.h).
#[derive(Clone, Copy)]
pub struct Way {
    pub form: u8,
    pub edition: u64,
    pub left: usize,
}

// What was read: where its bytes end, where its last token ends, and the token that follows.
#[derive(Clone, Copy)]
pub struct Part {
    pub to: Spot,
    pub end: usize,
    pub next: Token,
}

// The refusal of the token t, where another was due.
pub fn unexpected(t: Token) -> Refusal
    ensures { result ≡ refusal UnexpectedToken t.start t.end }
{
    tokens::refuse(UNEXPECTED_TOKEN, t.start, t.end)
}

// The refusal of the token t, at which the levels end.
pub fn too_deep(t: Token) -> Refusal
    ensures { result ≡ refusal TooDeep t.start t.end }
{
    tokens::refuse(TOO_DEEP, t.start, t.end)
}

// The token behind t. A function of its own, so that the room for what the scanner answers is free again when
// what begins there is read.
pub fn behind(edition: u64, text: &[u8], t: Token) -> Result<Token, Refusal>
    ensures { result ≡ next_token edition text.now t.end }
{
    tokens::next_token(edition, text, t.end)
}

// What ends at `end`, with its bytes up to `to`, and the token that follows it.
#[tactic(auto, unfolding(crate::specs::code::Meets::followed_by))]
pub fn finish(edition: u64, text: &[u8], end: usize, to: Spot) -> Result<Part, Refusal>
    ensures { result ≡ followed_by to end (next_token edition text.now end) }
{
    let next = tokens::next_token(edition, text, end)?;
    Ok(Part { to, end, next })
}
