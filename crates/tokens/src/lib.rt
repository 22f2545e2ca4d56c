// The next token and the next doc comment of a text.
#![tactic(auto)]

ghost use Rattle.std.specs.Prelude.{◌≡◌, ◌+◌, ◌^◌, ◌<◌, ◌≤◌, eqb, length, get_or, drop, true, false, ◌&&◌};
ghost use Rattle.classes.specs.Class.{is_letter, is_space, in_class};
ghost use Rattle.classes.specs.Run.{run_end};
ghost use Rattle.gap.specs.Gap.{gap, gap_end_of};
ghost use Rattle.gap.specs.LineFeed.{line_feed, gap_feed};
ghost use Rattle.tokens.specs.Answers.{refusal};
ghost use Rattle.tokens.specs.Token.{opens_string, string_refusal, find_token, decimal, hex_number, number_token, string, word_token, name, mark};
ghost use Rattle.tokens.specs.Calls.{no_edition, place_fault, edition_fault, call_fault, next_token, advanced, documented, refused_call, token_call, comment_of, next_comment};
ghost use Rattle.tokens.specs.code.Found.{digits_class, hex_class, begun, digits_end, lexed_at, typed_at, edition_refusal, flagged, with_doc};
ghost use Rattle.words.specs.Search.{mark_of};

use classes::{
    ASCII, DIGIT, DIGIT_OR_UNDERSCORE, HEX, HEX_OR_UNDERSCORE, LETTER, NAME, PART_START,
    SPACE_OR_TAB,
};
use gap::{Comment, GapScan, Unclosed};
use refusals::{
    BYTE_STRING_NOT_CLOSED, COMMENT_NOT_CLOSED, HEX_STRING_NOT_CLOSED, NO_SUCH_EDITION, NO_TOKEN,
    START_PAST_END, STRING_NOT_ASCII, TEXT_TOO_LONG,
};
use words::EDITION_2;
use words::kinds::{BYTE_STRING_VALUE, EOF, NUM_TYPED_VALUE, NUM_VALUE};

pub mod refusals;

// Bytes from start to end - 1.
#[derive(Clone, Copy)]
pub struct Place {
    pub start: usize,
    pub end: usize,
}

// A refusal: its number, its place and its second place.
#[derive(Clone, Copy)]
pub struct Refusal {
    pub number: u32,
    pub place: Place,
    pub second: Place,
}

// A token: the number of its kind, in the order of the Rust's `Tok`, and its span. The end stands before the
// start: with both in the order of the six numbers of the token call, the compiler loads the two as one, which
// waits for both stores.
#[derive(Clone, Copy)]
pub struct Token {
    pub kind: u8,
    pub end: usize,
    pub start: usize,
}

// The token call's answer: the next token, and whether LF stands between the start offset and it.
// The flag stands beside the token: read again from its own first byte a token is the same, and no
// LF stands before it there.
#[derive(Drop)]
pub struct Advanced {
    pub lexed: Result<Token, Refusal>,
    pub feed: bool,
}

// The next token, and the span of the last doc comment between the start offset and it, (0,0) where there is none: no
// Option, since `documented` says so and outline goes by it.
#[derive(Drop)]
pub struct Documented {
    pub lexed: Result<Token, Refusal>,
    pub doc: Place,
}

// Where blanks end, and whether LF is one of them.
#[derive(Drop)]
struct Blanks {
    pub end: usize,
    pub feed: bool,
}

// The longest text.
pub const TEXT_LIMIT: usize = 1048575;

// A refusal whose second place is its place.
pub fn refuse(number: u32, start: usize, end: usize) -> Refusal
    ensures { result ≡ refusal number start end }
{
    let place = Place { start, end };
    Refusal {
        number,
        place,
        second: place,
    }
}

// Refusal 6.
impl From<Unclosed> for Refusal {
    ghost from_gives = { λ w r. r ≡ refusal 6 w.start w.end };

    fn from(w: Unclosed) -> Refusal {
        refuse(COMMENT_NOT_CLOSED, w.start, w.end)
    }
}

// The number at `at` whose digits end at e, with a type of n bytes.
fn typed_at(at: usize, e: usize, n: usize) -> Result<Token, Refusal>
    requires { e + n < 2 ^ 63 }
    ensures { result ≡ typed_at at e n }
{
    if n == 0 {
        return Ok(Token {
            kind: NUM_VALUE,
            start: at,
            end: e,
        });
    }
    Ok(Token {
        kind: NUM_TYPED_VALUE,
        start: at,
        end: e + n,
    })
}

// What decimal digits go on with: in edition 2 with `_` too. This and `more_hex` are one choice each: one function for
// both would be told both choices.
fn more_digits(edition: u64) -> u8
    ensures { result ≡ digits_class edition }
{
    if edition == EDITION_2 {
        return DIGIT_OR_UNDERSCORE;
    }
    DIGIT
}

// What hex digits go on with.
fn more_hex(edition: u64) -> u8
    ensures { result ≡ hex_class edition }
{
    if edition == EDITION_2 {
        return HEX_OR_UNDERSCORE;
    }
    HEX
}

// Where the digits from `at` on end, which go on with bytes of the class `more`: at `at` itself where none
// stands there or the first is `_`.
fn digits_end(more: u8, text: &[u8], at: usize) -> usize
    ensures { result ≡ digits_end (begun more) (in_class more) text.now at }
{
    if classes::byte_at(text, at) == b'_' {
        return at;
    }
    classes::run_end(more, text, at)
}

// The number `0x` at `at`, with its hex digits and its type (get_hex_number of the Rust).
fn hex_number_at(edition: u64, text: &[u8], at: usize) -> Result<Token, Refusal>
    requires { at + 2 ≤ length text.now }
    ensures { result ≡ lexed_at at (hex_number edition (drop at text.now)) }
{
    let e = digits_end(more_hex(edition), text, at + 2);
    let n = words::suffix_len(edition, text, e);
    if e + n == at + 2 {
        return Ok(Token {
            kind: NUM_VALUE,
            start: at,
            end: at + 1,
        });
    }
    typed_at(at, e, n)
}

// The decimal number at `at` (get_decimal_number of the Rust).
fn decimal_number_at(edition: u64, text: &[u8], at: usize) -> Result<Token, Refusal>
    requires { at ≤ length text.now }
    ensures { result ≡ lexed_at at (decimal edition (drop at text.now)) }
{
    let e = digits_end(more_digits(edition), text, at);
    let n = words::suffix_len(edition, text, e);
    typed_at(at, e, n)
}

// Whether a and b are `0x`.
fn opens_hex(a: u8, b: u8) -> bool
    ensures { result ≡ (eqb a 48 && eqb b 120) }
{
    a == b'0' && b == b'x'
}

// The number at `at`, which a digit begins.
fn number_at(edition: u64, text: &[u8], at: usize) -> Result<Token, Refusal>
    requires { at < length text.now }
    ensures { result ≡ lexed_at at (number_token edition (drop at text.now)) }
{
    let a = text[at];
    let b = classes::byte_at(text, at + 1);
    if opens_hex(a, b) {
        return hex_number_at(edition, text, at);
    }
    decimal_number_at(edition, text, at)
}

// The string at `at`, whose opening quote is its second byte; m is the refusal without a closing one.
fn string_at(text: &[u8], at: usize, m: u32) -> Result<Token, Refusal>
    requires { at < length text.now }
    ensures { result ≡ lexed_at at (string m (drop at text.now)) }
{
    let k = words::closing_quote(text, at + 2);
    match k {
        Err(e) => Err(refuse(m, at, e)),
        Ok(q) => {
            let h = classes::run_end(ASCII, &text[..q], at + 2);
            if h < q {
                return Err(refuse(STRING_NOT_ASCII, h, h + 1));
            }
            Ok(Token {
                kind: BYTE_STRING_VALUE,
                start: at,
                end: q + 1,
            })
        }
    }
}

// Whether a and b open a string.
fn opens_string(a: u8, b: u8) -> bool
    ensures { result ≡ opens_string a b }
{
    b == b'"' && (a == b'x' || a == b'b')
}

// The refusal of a string that a opens.
fn string_refusal(a: u8) -> u32
    ensures { result ≡ string_refusal a }
{
    if a == b'x' {
        return HEX_STRING_NOT_CLOSED;
    }
    BYTE_STRING_NOT_CLOSED
}

// The name or keyword at `at`, where a letter stands: its run goes on behind it.
fn name_at(text: &[u8], at: usize) -> Result<Token, Refusal>
    requires { (at < length text.now) × (is_letter (get_or text.now at 0) ≡ true) }
    ensures { result ≡ lexed_at at (name (drop at text.now)) }
{
    let e = classes::run_end(NAME, text, at + 1);
    let k = words::name_kind(text, at, e - at);
    Ok(Token {
        kind: k,
        start: at,
        end: e,
    })
}

// The mark at `at`.
fn mark_at(text: &[u8], at: usize) -> Result<Token, Refusal>
    requires { at ≤ length text.now }
    ensures { result ≡ lexed_at at (mark (mark_of (drop at text.now))) }
{
    let Some(f) = words::mark_at(text, at) else {
        return Err(refuse(NO_TOKEN, at, at));
    };
    Ok(Token {
        kind: f.kind,
        start: at,
        end: at + f.len,
    })
}

// The name, keyword or string at `at`, which a letter begins.
fn word_at(text: &[u8], at: usize) -> Result<Token, Refusal>
    requires { (at < length text.now) × (is_letter (get_or text.now at 0) ≡ true) }
    ensures { result ≡ lexed_at at (word_token (drop at text.now)) }
{
    let a = text[at];
    let b = classes::byte_at(text, at + 1);
    if opens_string(a, b) {
        let m = string_refusal(a);
        return string_at(text, at, m);
    }
    name_at(text, at)
}

// The token that starts at `at`.
fn find_token(edition: u64, text: &[u8], at: usize) -> Result<Token, Refusal>
    ensures { result ≡ lexed_at at (find_token edition (drop at text.now)) }
{
    if text.len() <= at {
        return Ok(Token {
            kind: EOF,
            start: at,
            end: at,
        });
    }
    let a = text[at];
    if classes::is::<LETTER>(a) {
        return word_at(text, at);
    }
    if classes::is::<DIGIT>(a) {
        return number_at(edition, text, at);
    }
    mark_at(text, at)
}

// The blanks from `at` on. A space or tab costs one look at the table.
fn blanks_from(text: &[u8], at: usize) -> Blanks
    ensures end { result.end ≡ run_end is_space text.now at }
    ensures feed { result.feed ≡ line_feed text.now at result.end }
{
    // No `for`: the walk ends at two places, with a place and a flag.
    let mut i = at;
    let mut feed = false;
    while i < text.len() {
        let a = text[i];
        if classes::is::<SPACE_OR_TAB>(a) {
            i += 1;
        } else if a == b'\n' {
            feed = true;
            i += 1;
        } else {
            return Blanks { end: i, feed };
        }
    }
    Blanks { end: i, feed }
}

// The gap from i on, where no blank stands: most often it ends there.
fn gap_behind(text: &[u8], i: usize) -> GapScan
    requires { i < length text.now → is_space (get_or text.now i 0) ≡ false }
    ensures end { result.end ≡ gap_end_of (gap 0 i (drop i text.now)).last }
    ensures feed { result.feed ≡ gap_feed text.now i result.end }
{
    if text.len() <= i {
        return GapScan {
            end: Ok(i),
            feed: false,
        };
    }
    if classes::is::<PART_START>(text[i]) {
        return gap::gap_scan(text, i);
    }
    GapScan {
        end: Ok(i),
        feed: false,
    }
}

// What is found, with its flag; a refusal has none.
fn with_flag(l: Result<Token, Refusal>, feed: bool) -> Advanced
    ensures { result ≡ flagged l feed }
{
    match l {
        Ok(_) => Advanced { lexed: l, feed },
        Err(_) => Advanced {
            lexed: l,
            feed: false,
        },
    }
}

// A refusal as the token call's answer.
fn refused_answer(number: u32, start: usize, end: usize) -> Advanced
    ensures { result ≡ refused_call (refusal number start end) }
{
    Advanced {
        lexed: Err(refuse(number, start, end)),
        feed: false,
    }
}

// Refusals 1 and 2, in this order.
pub fn place_fault(text: &[u8], at: usize) -> Result<(), Refusal>
    ensures { result ≡ place_fault text.now at }
{
    if TEXT_LIMIT < text.len() {
        return Err(refuse(TEXT_TOO_LONG, 0, 0));
    }
    if text.len() < at {
        return Err(refuse(START_PAST_END, 0, 0));
    }
    Ok(())
}

// Whether the number is no edition.
fn no_edition(edition: u64) -> bool
    ensures { result ≡ no_edition edition }
{
    edition == 0 || EDITION_2 < edition
}

// Refusal 19.
pub fn edition_fault(edition: u64) -> Result<(), Refusal>
    ensures { result ≡ edition_fault edition }
{
    if no_edition(edition) {
        return Err(refuse(NO_SUCH_EDITION, 0, 0));
    }
    Ok(())
}

// The faults of a call: refusals 1, 2 and 19, in this order.
pub fn call_fault(edition: u64, text: &[u8], at: usize) -> Result<(), Refusal>
    ensures { result ≡ call_fault edition text.now at }
{
    place_fault(text, at)?;
    edition_fault(edition)
}

// The next token from `at` on, and whether LF stands before it (advance of the Rust).
pub fn advance(edition: u64, text: &[u8], at: usize) -> Advanced
    ensures { result ≡ advanced edition text.now at }
{
    if TEXT_LIMIT < text.len() {
        return refused_answer(TEXT_TOO_LONG, 0, 0);
    }
    if text.len() < at {
        return refused_answer(START_PAST_END, 0, 0);
    }
    let b = blanks_from(text, at);
    let g = gap_behind(text, b.end);
    match g.end {
        Ok(k) => {
            let feed = b.feed | g.feed;
            with_flag(find_token(edition, text, k), feed)
        }
        Err(w) => Advanced {
            lexed: Err(w.into()),
            feed: false,
        },
    }
}

// The next token from `at` on.
pub fn next_token(edition: u64, text: &[u8], at: usize) -> Result<Token, Refusal>
    ensures { result ≡ next_token edition text.now at }
{
    advance(edition, text, at).lexed
}

// What is found, with the comment before it; a refusal has none. The token is taken out and put in again: where the
// answer is moved as it is, a portion of an outline takes thirteen instructions more a token.
fn with_doc(l: Result<Token, Refusal>, doc: Place) -> Documented
    ensures { result ≡ with_doc l doc }
{
    match l {
        Ok(t) => Documented { lexed: Ok(t), doc },
        Err(r) => Documented {
            lexed: Err(r),
            doc: Place { start: 0, end: 0 },
        },
    }
}

// The next token from `at` on, and the last doc comment before it. The token is asked for where the gap ends, so
// that no comment is read twice; of a gap that does not end the refusal is wanted.
pub fn next_documented(edition: u64, text: &[u8], at: usize) -> Documented
    ensures { result ≡ documented edition text.now at }
{
    let g = gap::doc_scan(text, at);
    match g.end {
        Ok(k) => {
            let doc = Place {
                start: g.from,
                end: g.to,
            };
            with_doc(next_token(edition, text, k), doc)
        }
        Err(_) => {
            let none = Place { start: 0, end: 0 };
            with_doc(next_token(edition, text, at), none)
        }
    }
}

// The refusal of a call whose edition is none: 1 and 2 come first.
fn edition_refusal(text: &[u8], at: usize) -> u32
    ensures { result ≡ edition_refusal text.now at }
{
    if TEXT_LIMIT < text.len() {
        return TEXT_TOO_LONG;
    }
    if text.len() < at {
        return START_PAST_END;
    }
    NO_SUCH_EDITION
}

// The token call: the edition is tested here, and not at each token that a reader asks for.
pub fn token_call(edition: u64, text: &[u8], at: usize) -> Advanced
    ensures { result ≡ token_call edition text.now at }
{
    if no_edition(edition) {
        return refused_answer(edition_refusal(text, at), 0, 0);
    }
    advance(edition, text, at)
}

// The comment call: the first doc comment in the gap from `at` on.
pub fn next_comment(edition: u64, text: &[u8], at: usize) -> Result<Option<Comment>, Refusal>
    ensures { result ≡ next_comment edition text.now at }
{
    call_fault(edition, text, at)?;
    Ok(gap::first_doc(text, at)?)
}
