// Whether a read or a display may begin at an offset: where tokens start and end in a walk from 0.
#![tactic(auto)]

ghost use Rattle.std.specs.Prelude.{◌≡◌};
ghost use Rattle.starts.specs.Beginning.{bounds, by_refusal, beginning, start_fault};
ghost use Rattle.starts.specs.code.Step.{step_to};

use tokens::refusals::{COMMENT_NOT_CLOSED, NOTHING_STARTS};
use tokens::{Refusal, Token};
use words::kinds::{EOF, GREATER_GREATER};

// One step of a walk over the tokens: where it began, and what it met.
#[derive(Drop)]
pub struct Step {
    pub from: usize,
    pub met: Result<Token, Refusal>,
}

// Goes on from `from`, where a token ends or the text begins, to the first token that ends behind the
// limit, to EOF or to a refusal.
pub fn step_to(edition: u64, text: &[u8], from: usize, limit: usize) -> Step
    ensures { result ≡ step_to edition text.now from limit }
{
    let mut at = from;
    loop {
        let met = tokens::next_token(edition, text, at);
        let Ok(t) = met else {
            return Step { from: at, met };
        };
        if limit < t.end || t.kind == EOF {
            return Step { from: at, met };
        }
        at = t.end;
    }
}

// Whether the offset is the token's start, its end, or the middle of a `>>`.
fn is_bound(t: Token, offset: usize) -> bool
    ensures { result ≡ bounds t offset }
{
    offset == t.start
        || offset == t.end
        || t.kind == GREATER_GREATER && offset.saturating_sub(t.start) == 1
}

// Whether reading may begin at the offset, by a refusal of what starts at `start`.
fn by_refusal(r: Refusal, start: usize, offset: usize) -> Result<bool, Refusal>
    ensures { result ≡ by_refusal r start offset }
{
    if start < offset {
        return Err(r);
    }
    Ok(offset == start && r.number != COMMENT_NOT_CLOSED)
}

// Whether reading may begin at the offset, or the refusal of the text before it. The walk stops at the first
// token that ends at the offset or behind it; where a refused token or comment starts is looked for only then.
pub fn beginning_at(edition: u64, text: &[u8], offset: usize) -> Result<bool, Refusal>
    ensures { result ≡ beginning edition text.now offset }
{
    if offset == 0 {
        return Ok(true);
    }
    let s = step_to(edition, text, 0, offset - 1);
    match s.met {
        Err(r) => by_refusal(r, gap::parts_end(text, s.from), offset),
        Ok(t) => Ok(is_bound(t, offset)),
    }
}

// The same as a fault of a call: refusal 21 where nothing starts.
pub fn start_fault(edition: u64, text: &[u8], offset: usize) -> Result<(), Refusal>
    ensures { result ≡ start_fault edition text.now offset }
{
    if beginning_at(edition, text, offset)? {
        return Ok(());
    }
    Err(tokens::refuse(NOTHING_STARTS, offset, offset))
}
