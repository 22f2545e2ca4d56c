// The read call and the display call: an item of a text in a lent buffer, as its stored tree or as its line.
// Both are one walk: what is left of a call is its form, its room and its answer.
#![tactic(auto)]

ghost use Rattle.std.specs.Prelude.{◌≡◌, ◌-◌, ◌^◌, ◌<◌, ◌≤◌, length, IfSome};
ghost use Rattle.tokens.specs.Calls.{next_token};
ghost use Rattle.grammar.specs.Items.{read_kind, asked, number_fault, fault_of};
ghost use Rattle.forms.specs.Forms.{narrow_limit, laid};
ghost use Rattle.parts.specs.code.Meets.{ReadsBy};
ghost use Rattle.calls.specs.code.Kind.{number, Numbered};
ghost use Rattle.calls.specs.Calls.{answered, read_buffer, displayed, display_buffer};
ghost use Rattle.calls.specs.code.Given.{asks, sought, Admits, at_start, first_form, room_in, LaidDown, Widens, Longer, Lays, answer_of, buffer_of, Calls, shown_end, unprintable_value, unprintable_at, replaced_by, UnprintableFrom, Displays};

use classes::SHOWN;
use forms::{FORM_LINE, FORM_NARROW, FORM_WIDE, Spot};
use parts::{LEVELS, Part, Way};
use tokens::refusals::{LINE_UNPRINTABLE, NO_ROOM, NO_SUCH_KIND};
use tokens::{Refusal, Token};
use words::kinds::BYTE_STRING_VALUE;

// The kinds of items.
#[derive(Clone, Copy)]
pub enum ItemKind {
    Name = 1,
    Value,
    Type,
    BindList,
    LambdaBindList,
}

// The kind with a number; a number that is no kind is refused.
impl TryFrom<u64> for ItemKind {
    type Error = Refusal;

    ghost try_from_gives = { Numbered };

    fn try_from(number: u64) -> Result<Self, Refusal> {
        match number {
            1 => Ok(ItemKind::Name),
            2 => Ok(ItemKind::Value),
            3 => Ok(ItemKind::Type),
            4 => Ok(ItemKind::BindList),
            5 => Ok(ItemKind::LambdaBindList),
            _ => Err(tokens::refuse(NO_SUCH_KIND, 0, 0)),
        }
    }
}

// The longest line.
const LINE_LIMIT: usize = 65535;

// The longest text and the longest tree for which the narrow form suffices.
const NARROW_LIMIT: usize = 65535;

// The most records whose wide length a number can tell.
const MOST_RECORDS: usize = 1317624576693539400;

// What is asked: the number of the kind of the item, the edition, the text and the offset.
#[derive(Clone, Copy)]
pub struct Asked<'a> {
    pub kind: u64,
    pub edition: u64,
    pub text: &'a [u8],
    pub at: usize,
}

// An item that is sought in a text, where nothing is wrong with what is asked.
#[derive(Clone, Copy)]
struct Sought<'a> {
    kind: ItemKind,
    edition: u64,
    text: &'a [u8],
}

// An accepted item: its length and the token that follows it.
#[derive(Clone, Copy)]
pub struct Accepted {
    pub len: usize,
    pub next: Token,
}

// Where the bytes of an accepted item stand: at the front of a buffer of the call's own, or in the lent buffer.
#[derive(Drop)]
enum Made {
    Own(Accepted),
    Lent(Accepted),
}

// The item of the kind whose first token is a, laid down in the form.
fn parse_item(form: u8, q: Sought<'_>, a: Token, out: &mut [u8], s: Spot) -> Result<Part, Refusal>
    ensures { ReadsBy (laid form) q.entry.edition q.entry.text.now (read_kind (number q.entry.kind)) a s out.old result out.new }
{
    let w = Way {
        form,
        edition: q.edition,
        left: LEVELS,
    };
    match q.kind {
        ItemKind::Name => chains::parse_name_access_chain(w, q.text, a, out, s),
        ItemKind::Value => chains::maybe_parse_value(w, q.text, a, out, s),
        ItemKind::Type => type_walk::parse_type(w, q.text, a, out, s),
        ItemKind::BindList => bind_walk::parse_bind_list(w, q.text, a, out, s),
        ItemKind::LambdaBindList => bind_walk::parse_lambda_bind_list(w, q.text, a, out, s),
    }
}

// The form in which a tree of the text is laid down first: where the text is short its length will tell
// whether that suffices.
fn first_form(text: &[u8]) -> u8
    ensures { result ≡ first_form text.now }
{
    if NARROW_LIMIT < text.len() {
        FORM_WIDE
    } else {
        FORM_NARROW
    }
}

// Whether a tree of n bytes in the form is too long for it.
#[tactic(auto, using(std::proofs::lemmas::Bool::Decides::nat_tests))]
fn outgrown(form: u8, n: usize) -> bool
    ensures { result ≡ Rattle.calls.specs.code.Given.outgrown form n }
{
    form == FORM_NARROW && NARROW_LIMIT < n
}

// The wide length of a tree that has n bytes in the narrow form: 14 for each 8, and 4 in front.
fn widened(n: usize) -> usize
    ensures { result ≡ Rattle.calls.specs.code.Given.widened n }
{
    let k = n / 8;
    if MOST_RECORDS < k {
        return usize::MAX;
    }
    4 + 14 * k
}

// The room for an answer in the form: a line has no more than the longest.
fn room_in(form: u8, room: usize) -> usize
    ensures { result ≡ room_in form room }
{
    if form == FORM_LINE {
        room.min(LINE_LIMIT)
    } else {
        room
    }
}

// The place where an answer begins.
fn at_start() -> Spot
    ensures { result ≡ at_start }
{
    Spot { pos: 0, low: 0 }
}

// The bytes of the text from `at` on.
fn bytes_left(text: &[u8], at: usize) -> usize
    ensures { result ≡ length text.now - at }
{
    text.len().saturating_sub(at)
}

// Lays the item whose first token is a down at the front of the buffer, behind what stands in front there.
fn lay_down(form: u8, q: Sought<'_>, a: Token, out: &mut [u8]) -> Result<Part, Refusal>
    ensures { LaidDown form (sought q.entry) a out.old result out.new }
{
    let s = forms::put_front(form, out, at_start());
    parse_item(form, q, a, out, s)
}

// Writes an item that has n bytes in the narrow form, too many for it, in the wide form by reading it again;
// the token that follows is known.
fn lay_wide(
    q: Sought<'_>,
    a: Token,
    n: usize,
    next: Token,
    out: &mut [u8],
) -> Result<Accepted, Refusal>
    ensures { Widens (sought q.entry) a n next out.old result out.new }
{
    let wide = widened(n);
    if out.len() < wide {
        return Err(tokens::refuse(NO_ROOM, 0, 0));
    }
    let _ = lay_down(FORM_WIDE, q, a, out);
    Ok(Accepted { len: wide, next })
}

// Writes an item that has n bytes in the form in which it was laid down first, by reading it again; the
// token that follows is known.
fn lay_longer(
    form: u8,
    q: Sought<'_>,
    a: Token,
    n: usize,
    next: Token,
    out: &mut [u8],
) -> Result<Accepted, Refusal>
    ensures { Longer form (sought q.entry) a n next out.old result out.new }
{
    if outgrown(form, n) {
        return lay_wide(q, a, n, next, out);
    }
    if room_in(form, out.len()) < n {
        return Err(tokens::refuse(NO_ROOM, 0, 0));
    }
    let _ = lay_down(form, q, a, out);
    Ok(Accepted { len: n, next })
}

// Lays the item whose first token is a down in `made`, which is too short for an item that needs another form
// or exceeds the longest line. Where it has no room for the item either, this is read again into the lent
// buffer; a refused call writes no byte there.
fn lay_over(
    form: u8,
    q: Sought<'_>,
    a: Token,
    made: &mut [u8],
    out: &mut [u8],
) -> Result<Made, Refusal>
    requires { length made.old ≤ narrow_limit }
    ensures { Lays form (sought q.entry) a out.old (answer_of result) (buffer_of result made.new out.new) }
{
    let p = lay_down(form, q, a, made)?;
    let len = p.to.pos;
    if made.len() < len {
        let longer = lay_longer(form, q, a, len, p.next, out)?;
        return Ok(Made::Lent(longer));
    }
    if out.len() < len {
        return Err(tokens::refuse(NO_ROOM, 0, 0));
    }
    Ok(Made::Own(Accepted { len, next: p.next }))
}

// Copies the item into the lent buffer where its bytes stand in `made`, and answers. The copy stands apart from
// `lay_over`: where `made` is, the compiler knows that the two buffers share no byte.
fn copied(d: Made, made: &[u8], out: &mut [u8]) -> Accepted
    ensures answer { Ok result ≡ answer_of (Ok d) }
    ensures buffer { out.new ≡ buffer_of (Ok d) made.now out.old }
{
    match d {
        Made::Lent(a) => a,
        Made::Own(a) => {
            buffer::copy(out, &made[..a.len.min(made.len())]);
            a
        }
    }
}

// The item whose first token is a, laid down first in a buffer of N bytes.
fn lay_in<const N: usize>(
    form: u8,
    q: Sought<'_>,
    a: Token,
    out: &mut [u8],
) -> Result<Accepted, Refusal>
    requires { N ≤ narrow_limit }
    ensures { Lays form (sought q.entry) a out.old result out.new }
{
    let mut made = [0u8; N];
    let d = lay_over(form, q, a, &mut made, out)?;
    Ok(copied(d, &made, out))
}

// The item whose first token is a, over a buffer of its own: most items are short enough to be read once, and
// a short buffer is made sooner. Short texts may be deeply nested and have longer trees for their bytes.
fn lay_item(form: u8, q: Sought<'_>, a: Token, out: &mut [u8]) -> Result<Accepted, Refusal>
    ensures { Lays form (sought q.entry) a out.old result out.new }
{
    match bytes_left(q.text, a.start) {
        0..=64 => lay_in::<512>(form, q, a, out),
        65..=1536 => lay_in::<2048>(form, q, a, out),
        _ => lay_in::<1024>(form, q, a, out),
    }
}

// What is wrong with what is asked by its numbers alone: refusals 1, 2, 3 and 19, in this order. Where nothing is,
// the kind.
fn number_fault(q: Asked<'_>) -> Result<ItemKind, Refusal>
    ensures { Admits q.entry.kind (number_fault (asks q.entry)) result }
{
    tokens::place_fault(q.text, q.at)?;
    let kind = ItemKind::try_from(q.kind)?;
    tokens::edition_fault(q.edition)?;
    Ok(kind)
}

// What is wrong with what is asked, before the item is looked at: its numbers first, then, unless the text
// is read from its first byte, whether reading may begin at the offset. Where nothing is, the kind.
fn fault(q: Asked<'_>) -> Result<ItemKind, Refusal>
    ensures { Admits q.entry.kind (fault_of (asks q.entry)) result }
{
    let kind = number_fault(q)?;
    if q.at == 0 {
        return Ok(kind);
    }
    starts::start_fault(q.edition, q.text, q.at)?;
    Ok(kind)
}

// A call in a form, with the token that was found at the offset.
fn call(
    form: u8,
    q: Asked<'_>,
    first: Result<Token, Refusal>,
    out: &mut [u8],
) -> Result<Accepted, Refusal>
    ensures { Calls form (asks q.entry) first out.old result out.new }
{
    let kind = fault(q)?;
    let s = Sought {
        kind,
        edition: q.edition,
        text: q.text,
    };
    lay_item(form, s, first?, out)
}

// The read call.
pub fn read(
    kind: u64,
    edition: u64,
    text: &[u8],
    at: usize,
    out: &mut [u8],
) -> Result<Accepted, Refusal>
    ensures answer { result ≡ answered text.now (Rattle.calls.specs.Calls.read (asked kind edition text.now at) (length out.old)) }
    ensures buffer { out.new ≡ read_buffer (asked kind edition text.now at) out.old }
{
    let first = tokens::next_token(edition, text, at);
    let q = Asked {
        kind,
        edition,
        text,
        at,
    };
    call(first_form(text), q, first, out)
}

// Where the bytes of the token that a line can hold end.
fn shown_end(text: &[u8], a: Token) -> usize
    ensures { result ≡ shown_end text.now a }
{
    classes::run_end(SHOWN, &text[..a.end.min(text.len())], a.start)
}

// Where the first unprintable byte stands of the value whose first token is a: of a string, which is
// that token.
#[tactic(auto, using(std::proofs::lemmas::Bool::Decides::nat_tests))]
fn unprintable_value(text: &[u8], a: Token) -> Option<usize>
    ensures place { result ≡ unprintable_value text.now a }
    ensures bound { IfSome result (λ b. b < 2 ^ 64 - 1) }
{
    if a.kind != BYTE_STRING_VALUE {
        return None;
    }
    let b = shown_end(text, a);
    if b < a.end { Some(b) } else { None }
}

// The same of an item of any kind, with the token that was found where it begins: values alone have strings.
// The kind is a number here: this is looked at before anything is refused.
#[tactic(auto, using(std::proofs::lemmas::Bool::Decides::nat_tests), unfolding(crate::specs::code::Given::unprintable_first))]
fn unprintable_at(kind: u64, text: &[u8], first: Result<Token, Refusal>) -> Option<usize>
    ensures place { result ≡ unprintable_at kind text.now first }
    ensures bound { IfSome result (λ b. b < 2 ^ 64 - 1) }
{
    match first {
        Ok(a) if kind == ItemKind::Value as u64 => unprintable_value(text, a),
        _ => None,
    }
}

// u in place of the refusal of an item that was read: of the one that has no room.
fn replaced(u: Refusal, r: Refusal) -> Refusal
    ensures { result ≡ replaced_by u r }
{
    if r.number == NO_ROOM { u } else { r }
}

// The refusal of the display of an item that has no line: u where it is read. It is read without room.
fn unprintable_from(q: Asked<'_>, first: Result<Token, Refusal>, u: Refusal) -> Refusal
    ensures { UnprintableFrom (asks q.entry) first u result }
{
    let mut none = [0u8; 1];
    match call(FORM_LINE, q, first, &mut none) {
        Ok(_) => u,
        Err(r) => replaced(u, r),
    }
}

// The display call on a slice and an offset, with the token that the reader found there.
fn display_from(
    q: Asked<'_>,
    first: Result<Token, Refusal>,
    line: &mut [u8],
) -> Result<usize, Refusal>
    ensures { Displays (asks q.entry) first line.old result line.new }
{
    if let Some(b) = unprintable_at(q.kind, q.text, first) {
        let u = tokens::refuse(LINE_UNPRINTABLE, b, b + 1);
        return Err(unprintable_from(q, first, u));
    }
    Ok(call(FORM_LINE, q, first, line)?.len)
}

// A reader: a text and the offset where it stands.
#[derive(Clone, Copy)]
pub struct Reader<'a> {
    pub text: &'a [u8],
    pub at: usize,
}

impl<'a> Reader<'a> {
    // The reader of the text, at the offset.
    pub fn open(text: &'a [u8], at: usize) -> Self
        ensures { (result.text ≡ text.entry) × (result.at ≡ at) }
    {
        Reader { text, at }
    }

    // The next token where the reader stands: the token call on slice and offset.
    pub fn next(self, edition: u64) -> Result<Token, Refusal>
        ensures { result ≡ next_token edition self.entry.text.now self.entry.at }
    {
        tokens::next_token(edition, self.text, self.at)
    }

    // The display of the item where the reader stands, from the token that it finds there.
    pub fn show(self, kind: u64, edition: u64, line: &mut [u8]) -> Result<usize, Refusal>
        ensures answer { result ≡ displayed (Rattle.calls.specs.Calls.display (asked kind edition self.entry.text.now self.entry.at) (length line.old)) }
        ensures buffer { line.new ≡ display_buffer (asked kind edition self.entry.text.now self.entry.at) line.old }
    {
        let q = Asked {
            kind,
            edition,
            text: self.text,
            at: self.at,
        };
        display_from(q, self.next(edition), line)
    }
}

// The display call, with plain parameters: who calls it needs no reader.
pub fn display(
    kind: u64,
    edition: u64,
    text: &[u8],
    at: usize,
    line: &mut [u8],
) -> Result<usize, Refusal>
    ensures answer { result ≡ displayed (Rattle.calls.specs.Calls.display (asked kind edition text.now at) (length line.old)) }
    ensures buffer { line.new ≡ display_buffer (asked kind edition text.now at) line.old }
{
    Reader::open(text, at).show(kind, edition, line)
}
