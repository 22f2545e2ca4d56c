// Notes pinned to token starts, carried from edition 1 to edition 2.
#![tactic(auto)]

ghost use Rattle.std.specs.Prelude.{◌≡◌, map, ◌<◌, length, unwrap_or, IfSome};
ghost use Rattle.tokens.specs.Walk.{tokens_at};
ghost use Rattle.carried.specs.Carry.{refusal_of, covering_start, bad_note, carry_fault, carry, answer_of, notes_after};
ghost use Rattle.carried.specs.code.Passes.{begins_at, start_of, lesser, LeastOf, lower, LowestBad, Movable, exchanged, replaced};

use tokens::refusals::NOT_A_TOKEN_START;
use tokens::{Refusal, Token};

// The longest list of notes.
const MOST_NOTES: usize = 256;

// The refusal of a walk over the whole text: no token ends behind the text's end.
fn walk_fault(edition: u64, text: &[u8]) -> Result<(), Refusal>
    ensures { result ≡ refusal_of (tokens_at edition text.now 0) }
{
    starts::step_to(edition, text, 0, text.len()).met?;
    Ok(())
}

// The index i where its entry is at least p and the least so far; else k, the index of the least before it,
// or the list's length.
fn lesser_index(notes: &[usize], p: usize, k: usize, i: usize) -> usize
    requires { i < length notes.now }
    ensures { result ≡ lesser p notes.now k i }
{
    let x = notes[i];
    if p <= x && (notes.len() <= k || x < notes[k]) {
        return i;
    }
    k
}

// The lowest index of the least entry that is at least p.
fn least_from(notes: &[usize], p: usize) -> Option<usize>
    ensures least { LeastOf p notes.now (length notes.now) (unwrap_or result (length notes.now)) }
    ensures inside { IfSome result (λ k. k < length notes.now) }
{
    let mut k = notes.len();
    for i in 0..notes.len() {
        k = lesser_index(notes, p, k, i);
    }
    (k < notes.len()).then_some(k)
}

// Whether a token starts at x.
fn begins_at(l: Result<Token, Refusal>, x: usize) -> bool
    ensures { result ≡ begins_at l x }
{
    match l {
        Ok(t) => t.start == x,
        Err(_) => false,
    }
}

// The lower of two indices, the second only where it is bad.
fn lower_index(bad: usize, k: usize, good: bool) -> usize
    ensures { result ≡ lower bad k good }
{
    if good {
        return bad;
    }
    bad.min(k)
}

// The lowest index whose entry starts no token of edition 1; the list's length where there is none, and no Option,
// since of a list cut at 256 entries that is the index that is refused. The entries are looked at in rising order,
// so that the text is walked once.
fn lowest_bad(text: &[u8], notes: &[usize]) -> usize
    ensures { LowestBad (tokens_at 1 text.now 0) notes.now result }
{
    let mut bad = notes.len();
    let mut at = 0;
    let mut p = 0;
    loop {
        let Some(k) = least_from(notes, p) else {
            return bad;
        };
        let x = notes[k];
        let s = starts::step_to(1, text, at, x);
        bad = lower_index(bad, k, begins_at(s.met, x));
        if x == usize::MAX {
            return bad;
        }
        at = s.from;
        p = x + 1;
    }
}

// Refusal 20. No entry past the 256th is read.
fn note_fault(text: &[u8], notes: &[usize]) -> Result<(), Refusal>
    ensures { result ≡ bad_note (tokens_at 1 text.now 0) 0 notes.now }
{
    let n = MOST_NOTES.min(notes.len());
    let i = lowest_bad(text, &notes[..n]);
    if i < notes.len() {
        return Err(tokens::refuse(NOT_A_TOKEN_START, i, i));
    }
    Ok(())
}

// What the call finds wrong: the refusal of edition 1 comes first, then that of edition 2, and then 20.
fn carry_fault(text: &[u8], notes: &[usize]) -> Result<(), Refusal>
    ensures { result ≡ carry_fault text.now notes.now }
{
    walk_fault(1, text)?;
    walk_fault(2, text)?;
    note_fault(text, notes)
}

// Every x of the list becomes v.
fn replace(notes: &mut [usize], x: usize, v: usize)
    ensures { notes.new ≡ replaced x v notes.old }
{
    for note in notes.iter_mut() {
        if *note == x {
            *note = v;
        }
    }
}

// Where the token starts that was met.
fn start_of(l: Result<Token, Refusal>) -> usize
    ensures { result ≡ start_of l }
{
    match l {
        Ok(t) => t.start,
        Err(_) => 0,
    }
}

// Moves every note to the start of the token of edition 2 that covers it, in rising order of the offsets. No
// note moves forward, so what has moved lies below p and is not met again.
fn move_notes(text: &[u8], notes: &mut [usize])
    requires { Movable text.now notes.old }
    ensures { notes.new ≡ map (covering_start (tokens_at 2 text.now 0)) notes.old }
{
    let mut at = 0;
    let mut p = 0;
    loop {
        let Some(k) = least_from(notes, p) else {
            return;
        };
        let x = notes[k];
        let s = starts::step_to(2, text, at, x);
        replace(notes, x, start_of(s.met));
        at = s.from;
        p = x + 1;
    }
}

// Carries the notes from edition 1 to edition 2: each becomes the start of the token of edition 2 that covers
// it. Answers how many there are; where anything is refused, no note moves.
pub fn carry(text: &[u8], notes: &mut [usize]) -> Result<usize, Refusal>
    ensures answer { result ≡ answer_of (carry text.now notes.old) }
    ensures notes { notes.new ≡ notes_after (carry text.now notes.old) notes.old }
{
    carry_fault(text, notes)?;
    move_notes(text, notes);
    Ok(notes.len())
}
