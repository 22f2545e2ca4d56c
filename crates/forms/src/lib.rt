// How a record is laid down: as a stored record, narrow or wide, or as its part of the display line. Each
// function here writes one piece of a record, and only these look at the form. Positions stop at the largest number, so
// that no sum can be too large.
#![tactic(auto)]

ghost use Rattle.std.specs.Prelude.{◌≡◌, cond, [], ◌∷◌, ◌+◌, ltb, length};
ghost use Rattle.std.proofs.lemmas.List.Edits.{sets};
ghost use Rattle.classes.specs.Bytes.{bytes};
ghost use Rattle.forms.specs.Forms.{front, head, head_size};
ghost use Rattle.forms.specs.code.Constructs.{mark_in, spelt};
ghost use Rattle.forms.specs.code.Spots.{cap, moved_by, size_between, Placed, inside, sealed, word_of};

use tokens::Token;

// The forms of a tree. A form is a number: `put_front`, `put_leaf` and `seal`, which docs/PROMISES.md names, take any.
pub const FORM_NARROW: u8 = 0;

pub const FORM_LINE: u8 = 1;

pub const FORM_WIDE: u8 = 2;

// What stands in front of a tree in the wide form, as one number: the bytes 4, 0, 99 and 0.
const FRONT: usize = 6488068;

const LAST: usize = 18446744073709551615;

const WIDE: usize = 4294967296;

// A place in the buffer: the position, which stops at the largest number, and the low four bytes of what
// the position would be without a stop. The sizes in heads are told by the low bytes alone.
#[derive(Clone, Copy)]
pub struct Spot {
    pub pos: usize,
    pub low: usize,
}

// The position n bytes behind pos.
fn behind(pos: usize, n: usize) -> usize
    ensures { result ≡ cap (pos + n) }
{
    if LAST - pos < n {
        return LAST;
    }
    pos + n
}

// The place n bytes behind s.
pub fn move_by(s: Spot, n: usize) -> Spot
    ensures { result ≡ moved_by s n }
{
    let p = behind(s.pos, n);
    Spot {
        pos: p,
        low: (s.low % WIDE + n % WIDE) % WIDE,
    }
}

// The bytes between two places, counted in four bytes.
fn size_between(a: Spot, b: Spot) -> usize
    ensures { result ≡ size_between a b }
{
    (b.low % WIDE + WIDE - a.low % WIDE) % WIDE
}

// The size of a head.
fn head_size(form: u8) -> usize
    ensures { result ≡ head_size form }
{
    if form == FORM_NARROW {
        return 8;
    }
    if form == FORM_LINE {
        return 0;
    }
    14
}

// Writes what stands in front of a tree.
pub fn put_front(form: u8, out: &mut [u8], s: Spot) -> Spot
    ensures { Placed out.old s (front form) result out.new }
{
    if form == FORM_NARROW {
        return move_by(s, 0);
    }
    if form == FORM_LINE {
        return move_by(s, 0);
    }
    records::put_number::<4>(out, s.pos, FRONT);
    move_by(s, 4)
}

// The place behind the head of a record that starts at s: its children are written first.
pub fn step_inside(form: u8, s: Spot) -> Spot
    ensures { result ≡ inside form s }
{
    move_by(s, head_size(form))
}

// Writes the head of a record over n bytes.
fn put_head(form: u8, n: usize, kind: usize, start: usize, end: usize, out: &mut [u8], pos: usize)
    ensures { out.new ≡ sets out.old pos (head form n kind start end) }
{
    if form == FORM_NARROW {
        records::put_header(out, pos, n % WIDE + 8, kind, start, end);
        return;
    }
    if form == FORM_LINE {
        return;
    }
    records::put_wide_header(out, pos, n % WIDE + 14, kind, start, end);
}

// Writes the head of the record that starts at s and whose children end at b.
pub fn seal(form: u8, kind: usize, start: usize, end: usize, s: Spot, b: Spot, out: &mut [u8])
    ensures { out.new ≡ sealed form kind start end s b out.old }
{
    let n = size_between(step_inside(form, s), b);
    put_head(form, n, kind, start, end, out, s.pos);
}

// Writes a mark of one byte.
pub fn put_mark(form: u8, b: u8, out: &mut [u8], s: Spot) -> Spot
    ensures { Placed out.old s (mark_in form (b ∷ [])) result out.new }
{
    if form == FORM_LINE {
        buffer::put(out, s.pos, b);
        return move_by(s, 1);
    }
    move_by(s, 0)
}

// Writes a mark of two bytes.
pub fn put_marks(form: u8, a: u8, b: u8, out: &mut [u8], s: Spot) -> Spot
    ensures { Placed out.old s (mark_in form (a ∷ b ∷ [])) result out.new }
{
    let p = put_mark(form, a, out, s);
    put_mark(form, b, out, p)
}

// The place behind a `<`: the list is written first, since one without items has no `<`.
pub fn step_angle(form: u8, s: Spot) -> Spot
    ensures { result ≡ moved_by s (length (mark_in form (bytes "<"))) }
{
    if form == FORM_LINE {
        return move_by(s, 1);
    }
    move_by(s, 0)
}

// Writes that `<`.
pub fn put_angle(form: u8, out: &mut [u8], s: Spot)
    ensures { out.new ≡ sets out.old s.pos (mark_in form (bytes "<")) }
{
    if form == FORM_LINE {
        buffer::put(out, s.pos, b'<');
    }
}

// Writes what stands between two items of a list, before an item that is not the first.
pub fn put_between(form: u8, first: bool, out: &mut [u8], s: Spot) -> Spot
    ensures { Placed out.old s (cond first [] (mark_in form (bytes ", "))) result out.new }
{
    if first {
        return move_by(s, 0);
    }
    put_marks(form, b',', b' ', out, s)
}

// Writes the bar behind the items of a list: where it has none, a blank keeps the two bars apart.
pub fn close_bars(form: u8, none: bool, out: &mut [u8], s: Spot) -> Spot
    ensures { Placed out.old s (mark_in form (cond none (bytes " |") (bytes "|"))) result out.new }
{
    if none {
        return put_marks(form, b' ', b'|', out, s);
    }
    put_mark(form, b'|', out, s)
}

// Writes `& ` or `&mut `.
pub fn put_reference(form: u8, mutable: bool, out: &mut [u8], s: Spot) -> Spot
    ensures { Placed out.old s (mark_in form (cond mutable (bytes "&mut ") (bytes "& "))) result out.new }
{
    if mutable {
        let p = put_marks(form, b'&', b'm', out, s);
        let q = put_marks(form, b'u', b't', out, p);
        return put_mark(form, b' ', out, q);
    }
    put_marks(form, b'&', b' ', out, s)
}

// pos, or n where pos is past it.
fn clip(pos: usize, n: usize) -> usize
    ensures { result ≡ cond (ltb pos n) pos n }
{
    if pos < n {
        return pos;
    }
    n
}

// Copies bytes to pos, as many as the buffer has room for.
fn copy_at(out: &mut [u8], pos: usize, from: &[u8])
    ensures { out.new ≡ sets out.old pos from.now }
{
    if pos < out.len() {
        buffer::copy(&mut out[pos..], from);
    }
}

// Writes the bytes of a token, those that the text has.
fn put_word(text: &[u8], t: Token, out: &mut [u8], p: Spot) -> Spot
    ensures { Placed out.old p (word_of text.now t) result out.new }
{
    let s = t.start;
    let e = clip(t.end, text.len());
    if e <= s {
        return move_by(p, 0);
    }
    copy_at(out, p.pos, &text[s..e]);
    move_by(p, e - s)
}

// Writes a leaf: the token t as a record of this kind.
pub fn put_leaf(form: u8, kind: usize, text: &[u8], t: Token, out: &mut [u8], s: Spot) -> Spot
    ensures { Placed out.old s (spelt form kind t.start t.end (word_of text.now t)) result out.new }
{
    if form == FORM_LINE {
        return put_word(text, t, out, s);
    }
    put_head(form, 0, kind, t.start, t.end, out, s.pos);
    move_by(s, head_size(form))
}
