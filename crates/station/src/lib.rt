// What a station calls, over numbers and byte slices: the functions that crates/station_c exports to C under the same
// names, and that the program replay calls.
#![tactic(auto)]

ghost use Rattle.std.specs.Prelude.{◌≡◌, cond, length};
ghost use Rattle.tokens.specs.Answers.{places, token_number, token_values, comment_number, comment_values};
ghost use Rattle.tokens.specs.Calls.{token_call, next_comment};
ghost use Rattle.grammar.specs.Items.{asked};
ghost use Rattle.calls.specs.Calls.{answered, read_number, read_values, read, read_buffer, displayed, display_number, display_values, display, display_buffer};
ghost use Rattle.carried.specs.Carry.{carry, answer_of, notes_after, carry_number, carry_values};
ghost use Rattle.outline.specs.Outline.{outlined};
ghost use Rattle.outline.specs.Calls.{answered as outline_answer, pending_of, outline_number, outline_values, pending_left, outline_buffer};
ghost use Rattle.saved.specs.Child.{child_in};
ghost use Rattle.saved.specs.Answers.{open_call, child_call, handed_number, handed_values};

use outline::Pending;
use saved::SavedRecord;
use tokens::{Place, Refusal};

// Hands a refusal back: its place and its second place as values, and its number.
fn refused(r: Refusal, answer: &mut [u64; 6]) -> u32
    ensures number { result ≡ r.number }
    ensures values { answer.new ≡ places r }
{
    *answer = [
        r.place.start as u64,
        r.place.end as u64,
        r.second.start as u64,
        r.second.end as u64,
        0,
        0,
    ];
    r.number
}

// What three numbers hand in: a keyword's kind, and a comment's start and end.
#[tactic(auto, unfolding(outline::specs::Calls::pending_of))]
fn pending_of(n: &[u64; 3]) -> Pending
    ensures { result ≡ pending_of n.now }
{
    Pending {
        keyword: n[0] as usize,
        comment: Place {
            start: n[1] as usize,
            end: n[2] as usize,
        },
    }
}

// The next token from `at` on, and whether LF stands between `at` and it.
#[tactic(auto, unfolding(tokens::specs::Answers::token_number, tokens::specs::Answers::token_values))]
pub fn movesig_next_token(edition: u64, text: &[u8], at: usize, answer: &mut [u64; 6]) -> u32
    ensures number { result ≡ token_number (token_call edition text.now at).lexed }
    ensures values { answer.new ≡ token_values (token_call edition text.now at).lexed (token_call edition text.now at).feed }
{
    let a = tokens::token_call(edition, text, at);
    match a.lexed {
        Ok(t) => {
            let feed = u64::from(a.feed);
            *answer = [t.kind as u64, t.start as u64, t.end as u64, feed, 0, 0];
            0
        }
        Err(r) => refused(r, answer),
    }
}

// The first doc comment in the gap from `at` on.
#[tactic(auto, unfolding(tokens::specs::Answers::comment_number, tokens::specs::Answers::comment_values))]
pub fn movesig_next_comment(edition: u64, text: &[u8], at: usize, answer: &mut [u64; 6]) -> u32
    ensures number { result ≡ comment_number (next_comment edition text.now at) }
    ensures values { answer.new ≡ comment_values (next_comment edition text.now at) }
{
    match tokens::next_comment(edition, text, at) {
        Ok(Some(c)) => {
            *answer = [
                1,
                c.start as u64,
                c.end as u64,
                c.from as u64,
                c.to as u64,
                0,
            ];
            0
        }
        Ok(None) => {
            *answer = [0; 6];
            0
        }
        Err(r) => refused(r, answer),
    }
}

// Reads the item of the kind from `at` on into the lent buffer.
#[tactic(auto, unfolding(calls::specs::Calls::read_number, calls::specs::Calls::read_values))]
pub fn movesig_read(
    kind: u64,
    edition: u64,
    text: &[u8],
    at: usize,
    out: &mut [u8],
    answer: &mut [u64; 6],
) -> u32
    ensures number { result ≡ read_number (answered text.now (read (asked kind edition text.now at) (length out.old))) }
    ensures values { answer.new ≡ read_values (answered text.now (read (asked kind edition text.now at) (length out.old))) }
    ensures buffer { out.new ≡ read_buffer (asked kind edition text.now at) out.old }
{
    match calls::read(kind, edition, text, at, out) {
        Ok(a) => {
            let t = a.next;
            *answer = [
                a.len as u64,
                t.kind as u64,
                t.start as u64,
                t.end as u64,
                0,
                0,
            ];
            0
        }
        Err(r) => refused(r, answer),
    }
}

// Displays the item of the kind from `at` on as one line in the lent buffer.
#[tactic(auto, unfolding(calls::specs::Calls::display_number, calls::specs::Calls::display_values))]
pub fn movesig_display(
    kind: u64,
    edition: u64,
    text: &[u8],
    at: usize,
    line: &mut [u8],
    answer: &mut [u64; 6],
) -> u32
    ensures number { result ≡ display_number (displayed (display (asked kind edition text.now at) (length line.old))) }
    ensures values { answer.new ≡ display_values (displayed (display (asked kind edition text.now at) (length line.old))) }
    ensures buffer { line.new ≡ display_buffer (asked kind edition text.now at) line.old }
{
    match calls::display(kind, edition, text, at, line) {
        Ok(n) => {
            *answer = [n as u64, 0, 0, 0, 0, 0];
            0
        }
        Err(r) => refused(r, answer),
    }
}

// Carries the lent notes, offsets of token starts in edition 1, to edition 2: all of them, or none.
#[tactic(auto, unfolding(carried::specs::Carry::carry_number, carried::specs::Carry::carry_values))]
pub fn movesig_carry(text: &[u8], notes: &mut [usize], answer: &mut [u64; 6]) -> u32
    ensures number { result ≡ carry_number (answer_of (carry text.now notes.old)) }
    ensures values { answer.new ≡ carry_values (answer_of (carry text.now notes.old)) }
    ensures notes { notes.new ≡ notes_after (carry text.now notes.old) notes.old }
{
    match carried::carry(text, notes) {
        Ok(count) => {
            *answer = [count as u64, 0, 0, 0, 0, 0];
            0
        }
        Err(r) => refused(r, answer),
    }
}

// The outline of at most `limit` tokens from `at` on: its records into the lent buffer. What is pending is handed in and
// handed back: a keyword's kind, and a comment's start and end.
#[tactic(auto, unfolding(outline::specs::Calls::outline_number, outline::specs::Calls::outline_values, outline::specs::Calls::pending_left))]
pub fn movesig_outline(
    edition: u64,
    text: &[u8],
    at: usize,
    limit: u64,
    pending: &mut [u64; 3],
    out: &mut [u8],
    answer: &mut [u64; 6],
) -> u32
    ensures number { result ≡ outline_number (outline_answer text.now (outlined edition text.now at limit (pending_of pending.old) (length out.old))) }
    ensures values { answer.new ≡ outline_values (outline_answer text.now (outlined edition text.now at limit (pending_of pending.old) (length out.old))) }
    ensures pending { pending.new ≡ pending_left pending.old (outline_answer text.now (outlined edition text.now at limit (pending_of pending.old) (length out.old))) }
    ensures buffer { out.new ≡ outline_buffer text.now (outlined edition text.now at limit (pending_of pending.old) (length out.old)) out.old }
{
    let p = pending_of(pending);
    match outline::outline(edition, text, at, limit as usize, p, out) {
        Ok(s) => {
            let q = s.pending;
            let full = u64::from(s.full);
            *pending = [
                q.keyword as u64,
                q.comment.start as u64,
                q.comment.end as u64,
            ];
            *answer = [full, s.count as u64, s.length as u64, s.end as u64, 0, 0];
            0
        }
        Err(r) => refused(r, answer),
    }
}

// What a call over a saved tree handed back, as number and values.
#[tactic(auto, unfolding(saved::specs::Answers::handed_number, saved::specs::Answers::handed_values))]
fn hand_back(a: Result<Option<SavedRecord>, Refusal>, answer: &mut [u64; 6]) -> u32
    ensures number { result ≡ handed_number a }
    ensures values { answer.new ≡ handed_values a }
{
    match a {
        Ok(Some(k)) => {
            *answer = [
                1,
                k.offset as u64,
                k.kind as u64,
                k.start as u64,
                k.end as u64,
                0,
            ];
            0
        }
        Ok(None) => {
            *answer = [0; 6];
            0
        }
        Err(r) => refused(r, answer),
    }
}

// Opens a saved tree over its text.
#[tactic(auto, unfolding(saved::specs::Answers::with_record))]
pub fn movesig_open(tree: &[u8], text: &[u8], answer: &mut [u64; 6]) -> u32
    ensures number { result ≡ handed_number (open_call tree.now text.now) }
    ensures values { answer.new ≡ handed_values (open_call tree.now text.now) }
{
    hand_back(saved::open_tree(tree, text).map(Some), answer)
}

// Opens a saved tree over its text, and hands back the child of an index of the record at an offset.
pub fn movesig_child(
    tree: &[u8],
    text: &[u8],
    offset: u64,
    index: u64,
    answer: &mut [u64; 6],
) -> u32
    ensures number { result ≡ handed_number (child_call tree.now text.now offset index) }
    ensures values { answer.new ≡ handed_values (child_call tree.now text.now offset index) }
{
    hand_back(
        saved::child(tree, text, offset as usize, index as usize),
        answer,
    )
}

// The same in a tree that was opened before: nothing is refused, and the call costs as many steps as the index.
pub fn movesig_opened_child(tree: &[u8], offset: u64, index: u64, answer: &mut [u64; 6]) -> u32
    ensures number { result ≡ 0 }
    ensures values { answer.new ≡ handed_values (child_in tree.now offset index) }
{
    hand_back(
        Ok(saved::opened_child(tree, offset as usize, index as usize)),
        answer,
    )
}
