// The outline of a text: what it declares by `struct`, `fun` and `const`, read in portions of so many tokens a call.
#![tactic(auto)]

ghost use Rattle.std.specs.Prelude.{◌≡◌, cond, ◌+◌, ◌^◌, ◌<◌, ◌≤◌, ltb, length};
ghost use Rattle.std.proofs.lemmas.List.Edits.{sets};
ghost use Rattle.tokens.specs.Walk.{tokens_at};
ghost use Rattle.outline.specs.Entry.{entry, narrow_text, size_of, entry_bytes, fitting};
ghost use Rattle.outline.specs.Outline.{declares, keyword_of, passes, handed, pending_after, names, portion, outlined};
ghost use Rattle.outline.specs.Calls.{answered, outline_buffer};
ghost use Rattle.outline.specs.code.Steps.{asked, comment_or, behind, summary, Named, Standing, Stepped, Filled, Lays};

use tokens::{Place, Refusal, Token};
use words::kinds::{CONST, EOF, FUN, IDENTIFIER, L_BRACE, R_BRACE, SEMICOLON, STRUCT};

// What is pending between two tokens: the keyword right before, by its token kind, or 0; and the span of the last
// doc comment, or (0,0). No Option: C hands in three numbers, any numbers, and `handed`, `pending_left` and the theorem
// `pending-kept` speak of these; a span such as (3,1) is handed back as it came.
#[derive(Clone, Copy)]
pub struct Pending {
    pub keyword: usize,
    pub comment: Place,
}

// What a call tells of what it has read: whether an entry came that did not fit; how many tokens; how many bytes
// its records have; the end of the last token, or the start offset; and what is pending there.
#[derive(Drop)]
pub struct Summary {
    pub full: bool,
    pub count: usize,
    pub length: usize,
    pub end: usize,
    pub pending: Pending,
}

// Where a portion is: the offset of the next step, how many bytes the records have, and what is pending.
#[derive(Clone, Copy)]
pub struct State {
    pub at: usize,
    pub length: usize,
    pub pending: Pending,
}

// What one step comes to: the state behind it; EOF; or an entry that does not fit.
#[derive(Drop)]
pub enum Step {
    GoOn(State),
    End,
    Full,
}

// A portion that is asked for: at most `limit` tokens of the text from `at` on, where `pending` is pending, and records
// of at most `room` bytes. Its methods take it by value: behind a reference it would be read again for each token.
#[derive(Clone, Copy)]
struct Request<'a> {
    edition: u64,
    text: &'a [u8],
    at: usize,
    limit: usize,
    pending: Pending,
    room: usize,
    ghost in_text: { at ≤ length text.now },
}

// Whether the kind is that of a keyword that declares a name. No pattern: the constants are u8, C's number is usize.
#[tactic(auto, unfolding(crate::specs::Outline::declares))]
fn declares(kind: usize) -> bool
    ensures { result ≡ declares kind }
{
    kind == STRUCT as usize || kind == FUN as usize || kind == CONST as usize
}

// The kind of such a keyword, and 0 for any other.
#[tactic(auto, unfolding(crate::specs::Outline::keyword_of))]
fn keyword_of(kind: usize) -> usize
    ensures { result ≡ keyword_of kind }
{
    if declares(kind) { kind } else { 0 }
}

// Whether a token of the kind is a name right behind the keyword.
#[tactic(auto, unfolding(crate::specs::Outline::names))]
fn names(keyword: usize, kind: u8) -> bool
    ensures { result ≡ names keyword kind }
{
    kind == IDENTIFIER && declares(keyword)
}

// Whether a number of the span passes the text's end.
#[tactic(auto, unfolding(crate::specs::Outline::passes))]
fn passes(text: &[u8], c: Place) -> bool
    ensures { result ≡ passes text.now c }
{
    text.len() < c.start || text.len() < c.end
}

// What is handed in, as it is taken.
#[tactic(auto, unfolding(crate::specs::Outline::handed))]
fn handed(text: &[u8], p: Pending) -> Pending
    ensures { result ≡ handed text.now p }
{
    let keyword = keyword_of(p.keyword);
    let comment = if passes(text, p.comment) {
        NO_PLACE
    } else {
        p.comment
    };
    Pending { keyword, comment }
}

// The doc comment of a gap, or the pending one where the gap has none.
#[tactic(auto, unfolding(crate::specs::code::Steps::comment_or))]
fn comment_or(doc: Place, pending: Place) -> Place
    ensures { result ≡ comment_or doc pending }
{
    if doc.end == 0 { pending } else { doc }
}

// What is pending behind a token of the kind for which the comment holds. One match, and not `keyword_of` and a test of
// its own for the marks: that costs six instructions more a token.
#[tactic(auto, unfolding(crate::specs::Outline::pending_after, crate::specs::Outline::keyword_of, crate::specs::Outline::declares, crate::specs::Outline::separates))]
fn pending_after(kind: u8, comment: Place) -> Pending
    ensures { result ≡ pending_after kind comment }
{
    match kind {
        SEMICOLON | L_BRACE | R_BRACE => Pending {
            keyword: 0,
            comment: NO_PLACE,
        },
        STRUCT | FUN | CONST => Pending {
            keyword: kind as usize,
            comment,
        },
        _ => Pending {
            keyword: 0,
            comment,
        },
    }
}

// No comment.
const NO_PLACE: Place = Place { start: 0, end: 0 };

// The longest text whose records have two bytes a number.
const NARROW_TEXT: usize = 65535;

// So many tokens have records of at most 1,024 bytes, or of 1,870 in a long text.
const FEW: usize = 169;

// Whether the records of the text have four bytes a number.
fn is_wide(text: &[u8]) -> bool
    ensures { result ≡ ltb narrow_text (length text.now) }
{
    NARROW_TEXT < text.len()
}

// The bytes of a record.
fn record_size(wide: bool) -> usize
    ensures { result ≡ size_of (cond wide 4 2) }
{
    if wide { 22 } else { 12 }
}

// Writes the record of an entry, whose numbers have W bytes each. It is written number by number: a second caller of
// the trees' wide head would take that out of theirs, and reads would need more stack.
fn put_numbers<const W: u8>(out: &mut [u8], pos: usize, keyword: usize, name: Place, comment: Place)
    requires { pos + size_of W < 2 ^ 64 }
    ensures { out.new ≡ sets out.old pos (entry_bytes W (entry keyword name comment)) }
{
    let w = usize::from(W);
    records::put_number::<W>(out, pos, 2 + 5 * w);
    records::put_number::<2>(out, pos + w, keyword);
    records::put_number::<W>(out, pos + w + 2, name.start);
    records::put_number::<W>(out, pos + 2 * w + 2, name.end);
    records::put_number::<W>(out, pos + 3 * w + 2, comment.start);
    records::put_number::<W>(out, pos + 4 * w + 2, comment.end);
}

// Writes the record of an entry, as far as the buffer reaches. Behind its end, where a portion is read again, no
// byte is tried.
fn put_entry(wide: bool, out: &mut [u8], pos: usize, keyword: usize, name: Place, comment: Place)
    requires { pos + size_of (cond wide 4 2) < 2 ^ 64 }
    ensures { out.new ≡ sets out.old pos (entry_bytes (cond wide 4 2) (entry keyword name comment)) }
{
    if out.len() <= pos {
        return;
    }
    if wide {
        put_numbers::<4>(out, pos, keyword, name, comment);
        return;
    }
    put_numbers::<2>(out, pos, keyword, name, comment);
}

impl State {
    // The state behind a token for which the comment holds, where the records have so many bytes.
    fn behind(t: Token, comment: Place, length: usize) -> State
        ensures { result ≡ behind t comment length }
    {
        State {
            at: t.end,
            length,
            pending: pending_after(t.kind, comment),
        }
    }

    // What is read where a portion of so many tokens ends in the state.
    fn summary(&self, count: usize, full: bool) -> Summary
        ensures { result ≡ summary self.now count full }
    {
        Summary {
            full,
            count,
            length: self.length,
            end: self.at,
            pending: self.pending,
        }
    }
}

impl Request<'_> {
    // The step of a name behind a keyword: its record is written behind the others if it fits into the room.
    fn name_step(self, s: State, t: Token, comment: Place, out: &mut [u8]) -> Step
        requires { s.length ≤ self.room }
        ensures { Named self.entry.text.now self.entry.room s t comment out.old result out.new }
    {
        let wide = is_wide(self.text);
        let size = record_size(wide);
        let n = s.length;
        if self.room - n < size {
            return Step::Full;
        }
        let name = Place {
            start: t.start,
            end: t.end,
        };
        put_entry(wide, out, n, s.pending.keyword, name, comment);
        Step::GoOn(State::behind(t, comment, n + size))
    }

    // One step: the token from the state's offset on.
    fn step(self, s: State, out: &mut [u8]) -> Result<Step, Refusal>
        requires { Standing self.edition self.text.now self.room s }
        ensures { Stepped self.entry.edition self.entry.text.now self.entry.room s out.old result out.new }
    {
        let d = tokens::next_documented(self.edition, self.text, s.at);
        let t = d.lexed?;
        if t.kind == EOF {
            return Ok(Step::End);
        }
        let c = comment_or(d.doc, s.pending.comment);
        if names(s.pending.keyword, t.kind) {
            return Ok(self.name_step(s, t, c, out));
        }
        Ok(Step::GoOn(State::behind(t, c, s.length)))
    }

    // Reads the portion. Its records are written as far as the buffer reaches; the room tells how many it may have.
    fn read(self, out: &mut [u8]) -> Result<Summary, Refusal>
        ensures answer { result ≡ answered self.entry.text.now (asked self.entry.edition self.entry.text.now self.entry.at self.entry.limit self.entry.pending self.entry.room) }
        ensures buffer { Filled self.entry.text.now self.entry.room out.old (asked self.entry.edition self.entry.text.now self.entry.at self.entry.limit self.entry.pending self.entry.room) out.new }
    {
        let mut s = State {
            at: self.at,
            length: 0,
            pending: self.pending,
        };
        for count in 0..self.limit {
            match self.step(s, out)? {
                Step::GoOn(t) => {
                    s = t;
                }
                Step::End => {
                    return Ok(s.summary(count, false));
                }
                Step::Full => {
                    return Ok(s.summary(count, true));
                }
            }
        }
        Ok(s.summary(self.limit, false))
    }

    // Reads the portion over a buffer of the call's own, and copies its records into the lent one, which is as long as
    // the room. Where they are longer than N bytes, it is read again into the lent buffer; a refused call writes no byte
    // there.
    fn read_in<const N: usize>(self, out: &mut [u8]) -> Result<Summary, Refusal>
        requires { (self.room ≡ length out.old) × (N < 2 ^ 63) }
        ensures { Lays self.entry.edition self.entry.text.now self.entry.at self.entry.limit self.entry.pending out.old result out.new }
    {
        let mut made = [0u8; N];
        let s = self.read(&mut made)?;
        if N < s.length {
            return self.read(out);
        }
        buffer::copy(out, &made[..s.length]);
        Ok(s)
    }
}

// The outline call: at most `limit` tokens from `at` on, where `p` is handed in. So many tokens give half as many
// records at most: a small buffer is made sooner, and only a portion whose records are longer is read twice.
pub fn outline(
    edition: u64,
    text: &[u8],
    at: usize,
    limit: usize,
    p: Pending,
    out: &mut [u8],
) -> Result<Summary, Refusal>
    ensures answer { result ≡ answered text.now (outlined edition text.now at limit p (length out.old)) }
    ensures buffer { out.new ≡ outline_buffer text.now (outlined edition text.now at limit p (length out.old)) out.old }
{
    tokens::call_fault(edition, text, at)?;
    let request = Request {
        edition,
        text,
        at,
        limit,
        pending: handed(text, p),
        room: out.len(),
    };
    if limit <= FEW {
        return request.read_in::<1024>(out);
    }
    request.read_in::<8192>(out)
}
