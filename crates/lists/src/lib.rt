// Comma lists: what a token says before an item and behind one, and what a list answers. Every list of the
// walk is a function of its own, as the specification asks, a loop over these; what they share besides is one law over the item's reader.
#![tactic(auto)]

ghost use Rattle.std.specs.Prelude.{◌≡◌, ◌&&◌, ◌+◌, min, eqb};
ghost use Rattle.words.specs.Kinds.{Greater, GreaterGreater};
ghost use Rattle.tokens.specs.Calls.{next_token};
ghost use Rattle.lists.specs.code.Lists.{ending_at, next_item, not_closed, after_item, one_more, closed_at};

use forms::Spot;
use parts::Part;
use tokens::refusals::{COMMA_FOR_ITEM, LIST_NOT_CLOSED};
use tokens::{Place, Refusal, Token};
use words::kinds::{COMMA, GREATER, GREATER_GREATER};

// What was read of a list: its part, and how many items it has (none, one, or 2 for more).
#[derive(Drop)]
pub struct Items {
    pub part: Part,
    pub count: usize,
}

// What stands before an item: its first token; or the list closes, and where reading goes on.
#[derive(Drop)]
pub enum Turn {
    Item(Token),
    Closes(usize),
}

// What a step of a list gives: an item whose bytes end at the place and a comma behind it, and where reading
// goes on; an item behind which the list closes, and where; or no item, since the list closes.
#[derive(Drop)]
pub enum Step {
    Goes(Spot, usize),
    Last(Spot, usize),
    Closes(usize),
}

// Whether a token of this kind is a `>>` where `>` closes the list.
fn is_double(close: u8, kind: u8) -> bool
    ensures { result ≡ (eqb close Greater && eqb kind GreaterGreater) }
{
    close == GREATER && kind == GREATER_GREATER
}

// Behind the first byte of a token, or behind the token where it has none.
fn split_end(t: Token) -> usize
    ensures { result ≡ min (t.start + 1) t.end }
{
    if t.start < t.end {
        return t.start + 1;
    }
    t.end
}

// Where reading goes on if t closes a list that ends with a token of the kind `close`: of `>>` the first byte
// does (adjust_token of the Rust).
#[tactic(auto, unfolding(crate::specs::code::Lists::ending_at))]
fn match_end(close: u8, t: Token) -> Option<usize>
    ensures { result ≡ ending_at close t }
{
    if t.kind == close {
        return Some(t.end);
    }
    if is_double(close, t.kind) {
        return Some(split_end(t));
    }
    None
}

// What stands at an offset where an item is due.
#[tactic(auto, unfolding(crate::specs::code::Lists::next_item, crate::specs::code::Lists::before_item))]
pub fn next_item(edition: u64, close: u8, text: &[u8], at: usize) -> Result<Turn, Refusal>
    ensures { result ≡ next_item close (next_token edition text.now at) }
{
    let t = tokens::next_token(edition, text, at)?;
    if let Some(q) = match_end(close, t) {
        return Ok(Turn::Closes(q));
    }
    if t.kind == COMMA {
        return Err(tokens::refuse(COMMA_FOR_ITEM, t.start, t.start));
    }
    Ok(Turn::Item(t))
}

// The refusal of the token t, where the list that o opens had to close.
fn not_closed(t: Token, o: Token) -> Refusal
    ensures { result ≡ not_closed t o }
{
    Refusal {
        number: LIST_NOT_CLOSED,
        place: Place {
            start: t.start,
            end: t.start,
        },
        second: Place {
            start: o.start,
            end: o.start,
        },
    }
}

// What stands behind the item x of the list that o opens.
#[tactic(auto, unfolding(crate::specs::code::Lists::after_item, crate::specs::code::Lists::behind_item))]
pub fn after_item(close: u8, o: Token, x: Result<Part, Refusal>) -> Result<Step, Refusal>
    ensures { result ≡ after_item close o x }
{
    let p = x?;
    if let Some(q) = match_end(close, p.next) {
        return Ok(Step::Last(p.to, q));
    }
    if p.next.kind == COMMA {
        return Ok(Step::Goes(p.to, p.next.end));
    }
    Err(not_closed(p.next, o))
}

// The count of a list with one item more.
pub fn count_more(count: usize) -> usize
    ensures { result ≡ one_more count }
{
    if count == 0 {
        return 1;
    }
    2
}

// The list that closes before q, with its bytes up to s, and the token that follows.
#[tactic(auto, unfolding(crate::specs::code::Lists::closed_at, parts::specs::code::Meets::followed_by))]
pub fn close_list(
    edition: u64,
    text: &[u8],
    q: usize,
    count: usize,
    s: Spot,
) -> Result<Items, Refusal>
    ensures { result ≡ closed_at q count s (next_token edition text.now q) }
{
    let part = parts::finish(edition, text, q, s)?;
    Ok(Items { part, count })
}
