// The two tables, keywords and marks, the type behind a number and the closing quote of a string.
#![tactic(auto)]

ghost use Rattle.std.specs.Prelude.{◌≡◌, false, [], ◌∷◌, ◌+◌, ◌-◌, ◌*◌, ◌%◌, ◌^◌, ◌≤◌, ◌<◌, min, length, get_or, take, drop, unwrap_or, IfSome};
ghost use Rattle.std.proofs.Math.Seq.{slice};
ghost use Rattle.classes.specs.Bytes.{begins};
ghost use Rattle.words.specs.Tables.{keywords, long_marks, double_marks, single_marks};
ghost use Rattle.words.specs.Search.{kind_of, no_fit, mark_of, first_fit, front_len, suffixes1, suffix_len};
ghost use Rattle.words.specs.code.Rows.{number, row_len, keyword_rows, keyword_kinds, packed_kind, value_if, row_fit, added_suffixes};
ghost use Rattle.words.specs.Quote.{ends_line, quote_from};

use classes::byte_at;
use kinds::{
    ABORT, ACQUIRES, AMP, AMP_AMP, AMP_MUT, AS, AT_SIGN, BREAK, CARET, COLON, COLON_COLON, COMMA,
    CONST, CONTINUE, COPY, ELSE, EQUAL, EQUAL_EQUAL, EQUAL_EQUAL_GREATER, EXCLAIM, EXCLAIM_EQUAL,
    FALSE, FRIEND, FUN, GREATER, GREATER_EQUAL, GREATER_GREATER, IDENTIFIER, IF, INVARIANT,
    L_BRACE, L_BRACKET, L_PAREN, LESS, LESS_EQUAL, LESS_EQUAL_EQUAL_GREATER, LESS_LESS, LET, LOOP,
    MINUS, MODULE, MOVE, NATIVE, NUM_SIGN, PERCENT, PERIOD, PERIOD_PERIOD, PIPE, PIPE_PIPE, PLUS,
    PUBLIC, R_BRACE, R_BRACKET, R_PAREN, RETURN, SCRIPT, SEMICOLON, SLASH, SPEC, STAR, STRUCT,
    TRUE, USE, WHILE,
};

pub mod kinds;

// The longest mark at a place: its length and the number of its kind.
#[derive(Drop)]
pub struct Fit {
    pub len: usize,
    pub kind: u8,
}

// The keywords, in rows of nine bytes, filled up with zeros, as the specification asks; their kinds stand apart.
const KEYWORDS: [[u8; 9]; 26] = [
    [b'a', b'b', b'o', b'r', b't', 0, 0, 0, 0],
    [b'a', b'c', b'q', b'u', b'i', b'r', b'e', b's', 0],
    [b'a', b's', 0, 0, 0, 0, 0, 0, 0],
    [b'b', b'r', b'e', b'a', b'k', 0, 0, 0, 0],
    [b'c', b'o', b'n', b's', b't', 0, 0, 0, 0],
    [b'c', b'o', b'n', b't', b'i', b'n', b'u', b'e', 0],
    [b'c', b'o', b'p', b'y', 0, 0, 0, 0, 0],
    [b'e', b'l', b's', b'e', 0, 0, 0, 0, 0],
    [b'f', b'a', b'l', b's', b'e', 0, 0, 0, 0],
    [b'f', b'r', b'i', b'e', b'n', b'd', 0, 0, 0],
    [b'f', b'u', b'n', 0, 0, 0, 0, 0, 0],
    [b'i', b'f', 0, 0, 0, 0, 0, 0, 0],
    [b'i', b'n', b'v', b'a', b'r', b'i', b'a', b'n', b't'],
    [b'l', b'e', b't', 0, 0, 0, 0, 0, 0],
    [b'l', b'o', b'o', b'p', 0, 0, 0, 0, 0],
    [b'm', b'o', b'd', b'u', b'l', b'e', 0, 0, 0],
    [b'm', b'o', b'v', b'e', 0, 0, 0, 0, 0],
    [b'n', b'a', b't', b'i', b'v', b'e', 0, 0, 0],
    [b'p', b'u', b'b', b'l', b'i', b'c', 0, 0, 0],
    [b'r', b'e', b't', b'u', b'r', b'n', 0, 0, 0],
    [b's', b'c', b'r', b'i', b'p', b't', 0, 0, 0],
    [b's', b'p', b'e', b'c', 0, 0, 0, 0, 0],
    [b's', b't', b'r', b'u', b'c', b't', 0, 0, 0],
    [b't', b'r', b'u', b'e', 0, 0, 0, 0, 0],
    [b'u', b's', b'e', 0, 0, 0, 0, 0, 0],
    [b'w', b'h', b'i', b'l', b'e', 0, 0, 0, 0],
];

// The kinds of the keywords.
const KEYWORD_KINDS: [u8; 26] = [
    ABORT, ACQUIRES, AS, BREAK, CONST, CONTINUE, COPY, ELSE, FALSE, FRIEND, FUN, IF, INVARIANT,
    LET, LOOP, MODULE, MOVE, NATIVE, PUBLIC, RETURN, SCRIPT, SPEC, STRUCT, TRUE, USE, WHILE,
];

// The marks, rows as the specification asks: five bytes filled up with zeros, the length, the kind; the longer first.
// Each length has a search of its own, which leaves out the tests that the others need.
const MARKS: [[u8; 7]; 37] = [
    [b'&', b'm', b'u', b't', b' ', 5, AMP_MUT],
    [b'<', b'=', b'=', b'>', 0, 4, LESS_EQUAL_EQUAL_GREATER],
    [b'=', b'=', b'>', 0, 0, 3, EQUAL_EQUAL_GREATER],
    [b'!', b'=', 0, 0, 0, 2, EXCLAIM_EQUAL],
    [b'&', b'&', 0, 0, 0, 2, AMP_AMP],
    [b'.', b'.', 0, 0, 0, 2, PERIOD_PERIOD],
    [b':', b':', 0, 0, 0, 2, COLON_COLON],
    [b'<', b'=', 0, 0, 0, 2, LESS_EQUAL],
    [b'<', b'<', 0, 0, 0, 2, LESS_LESS],
    [b'=', b'=', 0, 0, 0, 2, EQUAL_EQUAL],
    [b'>', b'=', 0, 0, 0, 2, GREATER_EQUAL],
    [b'>', b'>', 0, 0, 0, 2, GREATER_GREATER],
    [b'|', b'|', 0, 0, 0, 2, PIPE_PIPE],
    [b'!', 0, 0, 0, 0, 1, EXCLAIM],
    [b'%', 0, 0, 0, 0, 1, PERCENT],
    [b'&', 0, 0, 0, 0, 1, AMP],
    [b'(', 0, 0, 0, 0, 1, L_PAREN],
    [b')', 0, 0, 0, 0, 1, R_PAREN],
    [b'[', 0, 0, 0, 0, 1, L_BRACKET],
    [b']', 0, 0, 0, 0, 1, R_BRACKET],
    [b'*', 0, 0, 0, 0, 1, STAR],
    [b'+', 0, 0, 0, 0, 1, PLUS],
    [b',', 0, 0, 0, 0, 1, COMMA],
    [b'-', 0, 0, 0, 0, 1, MINUS],
    [b'.', 0, 0, 0, 0, 1, PERIOD],
    [b'/', 0, 0, 0, 0, 1, SLASH],
    [b':', 0, 0, 0, 0, 1, COLON],
    [b';', 0, 0, 0, 0, 1, SEMICOLON],
    [b'<', 0, 0, 0, 0, 1, LESS],
    [b'=', 0, 0, 0, 0, 1, EQUAL],
    [b'>', 0, 0, 0, 0, 1, GREATER],
    [b'^', 0, 0, 0, 0, 1, CARET],
    [b'{', 0, 0, 0, 0, 1, L_BRACE],
    [b'|', 0, 0, 0, 0, 1, PIPE],
    [b'}', 0, 0, 0, 0, 1, R_BRACE],
    [b'#', 0, 0, 0, 0, 1, NUM_SIGN],
    [b'@', 0, 0, 0, 0, 1, AT_SIGN],
];
// The edition that knows the later integers; every other number is read as edition 1. Editions are numbers, since
// functions that docs/PROMISES.md names, as `tokens::next_token`, take any.
pub const EDITION_2: u64 = 2;

// Each search below has one loop of fixed bounds and a small body over a copy of its table: the compiler
// unrolls such a loop, and the table becomes constants in the code.

// Of at most nine bytes, the eight behind the first as one number, filled up with zeros.
fn packed(bytes: &[u8]) -> u64
    requires { length bytes.now ≤ 9 }
    ensures { result ≡ number (drop 1 bytes.now) }
{
    let mut v: u64 = 0;
    for j in (1..9).rev() {
        v = v * 256 + u64::from(byte_at(bytes, j));
    }
    v
}

// Of eight bytes packed in v, the first n: the others are shifted out at the top.
fn first_bytes(v: u64, n: usize) -> u64
    requires { (0 < n) × (n ≤ 8) }
    ensures { result ≡ v % 256 ^ n }
{
    let others = 64 - n * 8;
    v << others >> others
}

// What `packed` gives, of a name of two bytes or more. Where the text has nine bytes from `at` on, all of
// them are packed, with no test of each (the compiler makes one load of it), and then those of the name kept.
fn packed_name(text: &[u8], at: usize, n: usize) -> u64
    requires { (at + n ≤ length text.now) × (1 < n) × (n ≤ 9) }
    ensures { result ≡ number (drop 1 (take n (drop at text.now))) }
{
    if 9 <= text.len() - at {
        return first_bytes(packed(&text[at..at + 9]), n - 1);
    }
    packed(&text[at..at + n])
}

// How many bytes of a row of keywords stand before its first zero.
fn row_len(row: [u8; 9]) -> usize
    ensures { result ≡ row_len row }
{
    for n in 0..9 {
        if row[n] == 0 {
            return n;
        }
    }
    9
}

// The kind of the keyword of n bytes whose first byte is a and whose others are v, or IDENTIFIER: each
// of the rows from lo up to hi is compared with them. With the bounds as parameters and the tables as
// references, the compiler puts the search into its caller, where the bounds are numbers, and unrolls it.
fn keyword_among(
    rows: &[[u8; 9]; 26],
    kinds: &[u8; 26],
    lo: usize,
    hi: usize,
    a: u8,
    v: u64,
    n: usize,
) -> u8
    requires { (rows.now ≡ keyword_rows) × (kinds.now ≡ keyword_kinds) × (hi ≤ 26) }
    ensures { result ≡ packed_kind (slice lo hi keywords) a v n }
{
    for k in lo..hi {
        if rows[k][0] == a && packed(&rows[k]) == v && row_len(rows[k]) == n {
            return kinds[k];
        }
    }
    IDENTIFIER
}

// The same of all 26 rows. The search is cut in four, so that each loop is short enough to be unrolled.
fn keyword_kind(a: u8, v: u64, n: usize) -> u8
    ensures { result ≡ packed_kind keywords a v n }
{
    let rows = KEYWORDS;
    let row_kinds = KEYWORD_KINDS;
    let first = keyword_among(&rows, &row_kinds, 0, 7, a, v, n);
    if first != IDENTIFIER {
        return first;
    }
    let second = keyword_among(&rows, &row_kinds, 7, 14, a, v, n);
    if second != IDENTIFIER {
        return second;
    }
    let third = keyword_among(&rows, &row_kinds, 14, 20, a, v, n);
    if third != IDENTIFIER {
        return third;
    }
    keyword_among(&rows, &row_kinds, 20, 26, a, v, n)
}

// How many of the n bytes from `at` the text has. With a saturating subtraction in place of the test a name took
// six instructions more.
fn clip(text: &[u8], at: usize, n: usize) -> usize
    ensures { result ≡ min n (length text.now - at) }
{
    if text.len() <= at {
        return 0;
    }
    n.min(text.len() - at)
}

// The kind of the name of n bytes at `at`: its keyword's, or IDENTIFIER (get_name_token of the Rust).
// No keyword has fewer than two bytes or more than nine.
pub fn name_kind(text: &[u8], at: usize, n: usize) -> u8
    ensures { result ≡ kind_of (take n (drop at text.now)) }
{
    let m = clip(text, at, n);
    if m < 2 || 9 < m {
        return IDENTIFIER;
    }
    keyword_kind(text[at], packed_name(text, at, m), m)
}

// v where a is b, else 0, which is no mark's kind. A kind that is chosen so and then tested is a
// constant in the unrolled loop; read behind a test of the bytes, it is read from the copied table.
// It is no Option<u8>: with one, which is proved too, the token program takes 170 instructions more a mark.
fn value_if(a: u8, b: u8, v: u8) -> u8
    ensures { result ≡ value_if a b v }
{
    if a == b { v } else { 0 }
}

// Whether the first n bytes of w stand at `at`.
fn starts(text: &[u8], at: usize, w: &[u8], n: usize) -> bool
    requires { (0 < n) × (n ≤ length w.now) }
    ensures { result ≡ begins (take n w.now) (drop at text.now) }
{
    if text.len() < n || text.len() - n < at {
        return false;
    }
    for j in 0..n {
        if text[at + j] != w[j] {
            return false;
        }
    }
    true
}

// The mark of a row, where it stands at `at`.
fn row_fit(text: &[u8], at: usize, row: [u8; 7]) -> Option<Fit>
    requires { (0 < get_or row 5 0) × (get_or row 5 0 ≤ 5) }
    ensures fit { unwrap_or result no_fit ≡ row_fit row (drop at text.now) }
    ensures some { IfSome result (λ f. 0 < f.len) }
{
    let len = usize::from(row[5]);
    if starts(text, at, &row, len) {
        return Some(Fit { len, kind: row[6] });
    }
    None
}

// The first of the rows of three bytes and more that fits at `at`, where the byte a stands.
fn long_mark(text: &[u8], at: usize, a: u8) -> Option<Fit>
    requires { a ≡ get_or text.now at 0 }
    ensures fit { unwrap_or result no_fit ≡ first_fit long_marks (drop at text.now) }
    ensures some { IfSome result (λ f. 0 < f.len) }
{
    let rows = MARKS;
    for k in 0..3 {
        if rows[k][0] == a {
            if let Some(f) = row_fit(text, at, rows[k]) {
                return Some(f);
            }
        }
    }
    None
}

// The first of the rows of two bytes that are a and b.
fn double_mark(a: u8, b: u8) -> Option<Fit>
    ensures fit { unwrap_or result no_fit ≡ first_fit double_marks (a ∷ b ∷ []) }
    ensures some { IfSome result (λ f. 0 < f.len) }
{
    let rows = MARKS;
    for k in 3..13 {
        if rows[k][0] == a {
            let kind = value_if(b, rows[k][1], rows[k][6]);
            if kind != 0 {
                return Some(Fit { len: 2, kind });
            }
        }
    }
    None
}

// The first of the rows of one byte that is a.
fn single_mark(a: u8) -> Option<Fit>
    ensures fit { unwrap_or result no_fit ≡ first_fit single_marks (a ∷ []) }
    ensures some { IfSome result (λ f. 0 < f.len) }
{
    let rows = MARKS;
    for k in 13..37 {
        let kind = value_if(a, rows[k][0], rows[k][6]);
        if kind != 0 {
            return Some(Fit { len: 1, kind });
        }
    }
    None
}

// The longest mark at `at` (find_token of the Rust): the first row of the table that fits. The search
// is cut by the length of the rows.
pub fn mark_at(text: &[u8], at: usize) -> Option<Fit>
    ensures fit { unwrap_or result no_fit ≡ mark_of (drop at text.now) }
    ensures some { IfSome result (λ f. 0 < f.len) }
{
    if text.len() <= at {
        return None;
    }
    let a = text[at];
    let b = byte_at(text, at + 1);
    if let Some(f) = long_mark(text, at, a) {
        return Some(f);
    }
    if let Some(f) = double_mark(a, b) {
        return Some(f);
    }
    single_mark(a)
}

// The length of the type of edition 1 that is `u` with b, c and d behind it, or begins so; 0 for none. It is no
// Option: a length, which tokens adds to a place, and `suffix_len` and `front_len` are definitions that give it.
#[tactic(auto, unfolding(crate::specs::Search::front_len, crate::specs::Search::suffixes1, classes::specs::Bytes::begins))]
fn first_suffix(b: u8, c: u8, d: u8) -> u8
    ensures { result ≡ front_len suffixes1 (117 ∷ b ∷ c ∷ d ∷ []) }
{
    match (b, c, d) {
        (b'8', _, _) => 2,
        (b'6', b'4', _) => 3,
        (b'1', b'2', b'8') => 4,
        _ => 0,
    }
}

// The same of the types that edition 2 adds, and no Option for the same reason.
#[tactic(auto, unfolding(crate::specs::Search::front_len, crate::specs::code::Rows::added_suffixes, classes::specs::Bytes::begins))]
fn added_suffix(b: u8, c: u8, d: u8) -> u8
    ensures { result ≡ front_len added_suffixes (117 ∷ b ∷ c ∷ d ∷ []) }
{
    match (b, c, d) {
        (b'1', b'6', _) => 3,
        (b'3', b'2', _) => 3,
        (b'2', b'5', b'6') => 4,
        _ => 0,
    }
}

// The length of the type at `at` in an edition, 0 where there is none (get_number_maybe_with_suffix of the
// Rust). Most numbers have none, which one byte tells. It is no Option: a length, which tokens adds to a place, and
// `suffix_len` and `front_len` are definitions that give it.
pub fn suffix_len(edition: u64, text: &[u8], at: usize) -> usize
    ensures { result ≡ suffix_len edition (drop at text.now) }
{
    if byte_at(text, at) != b'u' {
        return 0;
    }
    let b = byte_at(text, at + 1);
    let c = byte_at(text, at + 2);
    let d = byte_at(text, at + 3);
    let n = first_suffix(b, c, d);
    if n != 0 {
        return n as usize;
    }
    if edition == EDITION_2 {
        return added_suffix(b, c, d) as usize;
    }
    0
}

// Whether the line ends before the byte at i: it is LF, or CR before LF.
fn ends_line(text: &[u8], i: usize) -> bool
    requires { i < length text.now }
    ensures { result ≡ ends_line (get_or text.now i 0) (get_or text.now (i + 1) 0) }
{
    text[i] == b'\n' || text[i] == b'\r' && byte_at(text, i + 1) == b'\n'
}

// The closing quote from `at` on, or the end of the line, where it has none (get_string_len of the Rust).
pub fn closing_quote(text: &[u8], at: usize) -> Result<usize, usize>
    ensures { result ≡ quote_from false at (drop at text.now) }
{
    let mut escaped = false;
    for i in at..text.len() {
        if ends_line(text, i) {
            return Err(i);
        }
        if escaped {
            escaped = false;
        } else if text[i] == b'"' {
            return Ok(i);
        } else {
            escaped = text[i] == b'\\';
        }
    }
    Err(at.max(text.len()))
}
