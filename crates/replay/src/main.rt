// Replays a stored sample of the Rust's answers (oracle/README.md says how it is made) and counts
// those that the calls answer otherwise. A line of the sample is one call, single blanks between:
// - `t` for the token call or `c` for the comment call, the edition, the start offset, the result, the
//   six numbers of the answer and the text;
// - `r` for the read call or `d` for the display call, the edition, the item kind, the start offset,
//   the room lent, the result, the six numbers, the text and the bytes that must be written: the tree or the
//   display line;
// - `n` for the call that carries notes, the result, the six numbers, the text, how many notes are lent, the
//   notes, and as many numbers that the list must hold behind the call;
// - `o` for the call that opens a saved tree, `k` for the one that opens it and hands out a child or `h` for the one
//   that hands out a child of an opened tree, the record's offset and the index (0 and 0 for `o`), the result, the six
//   numbers, the tree and the text (none for `h`).
// Texts and bytes are in hexadecimal, `-` for none. A line of another call is an arm of `holds` and a
// function over `Fields`.
#![tactic(auto)]

ghost use Rattle.std.specs.Prelude.{◌<◌, ◌≤◌};
ghost use Rattle.replay.specs.declared.TheConstants.{NOTES_ROOM};

use std::{array, io};

// The room for the text of a line that is short: all but those of items.
const SHORT_ROOM: usize = 128;

// The room for the text of an item's line. Most need little of it, one wide tree's text has 65,537 bytes.
const TEXT_ROOM: usize = 65600;

// The room for the bytes that a call must write, and for those that it writes: one wide tree has 114,692.
// Every item's line gets the whole of both rooms, which is simplest: the whole sample takes about a second.
const TREE_ROOM: usize = 114720;

// The room for a line's notes.
const NOTES_ROOM: usize = 320;

// What stands in the room for notes before they do: no line has this number, so a write behind them is seen.
const NO_NOTE: usize = 777777777777;

// The room for a saved tree: the longest, wide with one level too many, has 928 bytes.
const SAVED_ROOM: usize = 1024;

// The room for the whole sample and some more.
const SAMPLE_ROOM: usize = 1048576;

// The fields of a line that are still to be taken. Behind the last one all fields are empty.
#[derive(Drop)]
struct Fields<'a> {
    rest: &'a [u8],
}

impl<'a> Fields<'a> {
    // Takes the next field.
    fn field(&mut self) -> &'a [u8] {
        // Without this a line of few bytes takes twice as many steps.
        if self.rest.is_empty() {
            return self.rest;
        }
        let mut parts = self.rest.splitn(2, |b| *b == b' ');
        let field = parts.next().unwrap_or(&[]);
        self.rest = parts.next().unwrap_or(&[]);
        field
    }

    // Takes the next field, which holds a number.
    fn number(&mut self) -> u64 {
        self.field().iter().fold(0, |v, b| with_digit(v, *b))
    }

    // Takes a field for each of the numbers.
    fn numbers(&mut self, numbers: &mut [usize]) {
        for n in numbers.iter_mut() {
            *n = self.number() as usize;
        }
    }

    // Takes the next field, which holds bytes in hexadecimal, and writes as many of them as there is room for.
    fn bytes<'r>(&mut self, room: &'r mut [u8]) -> &'r [u8] {
        let (pairs, _) = self.field().as_chunks::<2>();
        let count = pairs.len().min(room.len());
        let (bytes, _) = room.split_at_mut(count);
        for (byte, [high, low]) in bytes.iter_mut().zip(pairs) {
            *byte = nibble(*high) * 16 + nibble(*low);
        }
        bytes
    }

    // Takes the seven fields of an answer.
    fn answer(&mut self) -> Answer {
        Answer {
            number: self.number(),
            values: array::from_fn(|_| self.number()),
        }
    }
}

// What a call answers: its result and the six numbers.
#[derive(Drop, PartialEq)]
struct Answer {
    number: u64,
    values: [u64; 6],
}

// The answer of a call that is lent room for the six numbers.
fn answer_of<C: FnOnce(&mut [u64; 6]) -> u32>(call: C) -> Answer
    requires { C.IsAlwaysCallable call }
{
    let mut values = [77; 6];
    let number = u64::from(call(&mut values));
    Answer { number, values }
}

// v with one decimal digit more; the largest number where that may not fit or b is no digit, by hand:
// `checked_mul` would find room for a few numbers more.
fn with_digit(v: u64, b: u8) -> u64 {
    match b {
        b'0'..=b'9' if v < u64::MAX / 10 => v * 10 + u64::from(b - b'0'),
        _ => u64::MAX,
    }
}

// The value of a hexadecimal digit, by hand: `to_digit(16)` takes A to F too.
fn nibble(b: u8) -> u8
    ensures { result < 16 }
{
    match b {
        b'0'..=b'9' => b - b'0',
        b'a'..=b'f' => b - b'a' + 10,
        _ => 0,
    }
}

// Whether the line's call is answered as the line says.
fn holds(line: &[u8]) -> bool {
    let [call, _, rest @ ..] = line else {
        return false;
    };
    let fields = Fields { rest };
    match *call {
        b't' => token_holds(fields, station::movesig_next_token),
        b'c' => token_holds(fields, station::movesig_next_comment),
        b'r' => item_holds(fields, station::movesig_read),
        b'd' => item_holds(fields, station::movesig_display),
        b'n' => carry_holds(fields),
        b'o' => saved_holds(fields, |tree, text, _, _, values| {
            station::movesig_open(tree, text, values)
        }),
        b'k' => saved_holds(fields, station::movesig_child),
        b'h' => saved_holds(fields, |tree, _, record, index, values| {
            station::movesig_opened_child(tree, record, index, values)
        }),
        _ => false,
    }
}

// Whether the token or comment call is answered as the line says.
fn token_holds<C: FnOnce(u64, &[u8], usize, &mut [u64; 6]) -> u32>(
    mut fields: Fields,
    call: C,
) -> bool
    requires { C.IsAlwaysCallable call }
{
    let edition = fields.number();
    let at = fields.number() as usize;
    let due = fields.answer();
    let mut room = [0; SHORT_ROOM];
    let text = fields.bytes(&mut room);
    answer_of(|values| call(edition, text, at, values)) == due
}

// Whether the read or display call is answered as the line says, and leaves alone all bytes but those that it
// must write.
fn item_holds<C: FnOnce(u64, u64, &[u8], usize, &mut [u8], &mut [u64; 6]) -> u32>(
    mut fields: Fields,
    call: C,
) -> bool
    requires { C.IsAlwaysCallable call }
{
    let edition = fields.number();
    let kind = fields.number();
    let at = fields.number() as usize;
    let room = fields.number() as usize;
    if TREE_ROOM < room {
        return false;
    }
    let due = fields.answer();
    let mut text = [0; TEXT_ROOM];
    let text = fields.bytes(&mut text);
    let mut tree = [0; TREE_ROOM];
    fill(&mut tree);
    let lent = &mut tree[..room];
    answer_of(|values| call(kind, edition, text, at, lent, values)) == due
        && stands_written(fields, &tree)
}

// Whether the room for a tree holds the bytes of the next field, and behind them what stood there before. A function of
// its own: in `item_holds` this room would be filled with zeros before the answer is looked at.
fn stands_written(mut fields: Fields, tree: &[u8; TREE_ROOM]) -> bool {
    let mut after = [0; TREE_ROOM];
    fill(&mut after);
    fields.bytes(&mut after);
    *tree == after
}

// Fills the room for a tree with what stands there before a call: neighbours differ, so that a write behind the tree is
// seen. It is filled where it lies: an array that is handed out takes its bytes of stack once more.
fn fill(room: &mut [u8]) {
    for (i, byte) in room.iter_mut().enumerate() {
        *byte = 200 + (i % 31) as u8;
    }
}

// Whether the line's notes are carried as the line says, and no entry behind them changes.
fn carry_holds(mut fields: Fields) -> bool {
    let due = fields.answer();
    let mut room = [0; SHORT_ROOM];
    let text = fields.bytes(&mut room);
    let count = fields.number() as usize;
    count <= NOTES_ROOM && notes_hold(fields, text, count, due)
}

// The same of so many notes, which there is room for. A function of its own: in `carry_holds` both rooms would be filled
// whatever the count is.
fn notes_hold(mut fields: Fields, text: &[u8], count: usize, due: Answer) -> bool
    requires { count ≤ NOTES_ROOM }
{
    let mut notes = [NO_NOTE; NOTES_ROOM];
    fields.numbers(&mut notes[..count]);
    let mut after = [NO_NOTE; NOTES_ROOM];
    fields.numbers(&mut after[..count]);
    answer_of(|values| station::movesig_carry(text, &mut notes[..count], values)) == due
        && notes == after
}

// Whether the call on a saved tree is answered as the line says.
fn saved_holds<C: FnOnce(&[u8], &[u8], u64, u64, &mut [u64; 6]) -> u32>(
    mut fields: Fields,
    call: C,
) -> bool
    requires { C.IsAlwaysCallable call }
{
    let record = fields.number();
    let index = fields.number();
    let due = fields.answer();
    let mut tree_room = [0; SAVED_ROOM];
    let tree = fields.bytes(&mut tree_room);
    let mut text_room = [0; SHORT_ROOM];
    let text = fields.bytes(&mut text_room);
    answer_of(|values| call(tree, text, record, index, values)) == due
}

// How many lines were replayed, and how many of them were answered otherwise.
#[derive(Drop)]
struct Tally {
    lines: usize,
    differ: usize,
}

impl Tally {
    // The tally of a whole sample. No sum wraps, since every line has a byte.
    fn of(sample: &[u8]) -> Self {
        let mut tally = Tally {
            lines: 0,
            differ: 0,
        };
        for line in sample.split_inclusive(|b| *b == b'\n') {
            let differs = !holds(line.strip_suffix(b"\n").unwrap_or(line));
            tally.lines = tally.lines.wrapping_add(1);
            tally.differ = tally.differ.wrapping_add(usize::from(differs));
        }
        tally
    }
}

// Room for the sample. In a function of its own, since the prover has too little stack to count so many zeros where
// the room is used.
fn sample_room() -> [u8; SAMPLE_ROOM] {
    [0; SAMPLE_ROOM]
}

fn main(rt: HostRuntime) -> io::Result<()> {
    let mut sample = sample_room();
    let n = inputs::read_full(&mut rt.stdin(), &mut sample)?;
    let tally = Tally::of(&sample[..n]);
    println!(rt; "{} answers replayed, {} differ", tally.lines, tally.differ)
}
