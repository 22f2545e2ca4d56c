// Classes of bytes, and runs of bytes of a class.
#![tactic(auto)]

ghost use Rattle.std.specs.Prelude.{◌≡◌, cond, ◌≤◌, eqb, length, get_or};
ghost use Rattle.classes.specs.Class.{in_class};
ghost use Rattle.classes.specs.Run.{run_end};
ghost use Rattle.classes.specs.Table.{class_table, bit, entry_of, property};
ghost use Rattle.classes.specs.code.Search.{bits_in, known};

use entries::CLASSES;

mod entries;
// The properties of bytes, each by its bit in an entry of the table. The first eight are the classes of which
// there are runs.
// A property is a number: `run_end`, which docs/PROMISES.md names, takes any.
pub const NAME: u8 = 0;

pub const DIGIT: u8 = 1;

pub const HEX: u8 = 2;

pub const ASCII: u8 = 3;

pub const LINE: u8 = 4;

// 32 to 126: what a line can hold
pub const SHOWN: u8 = 5;

pub const DIGIT_OR_UNDERSCORE: u8 = 6;

pub const HEX_OR_UNDERSCORE: u8 = 7;

pub const LETTER: u8 = 8;

// a space, a tab or LF
pub const SPACE: u8 = 9;

// what a comment or CR LF may begin with
pub const PART_START: u8 = 10;

// what the scan of a block comment looks at
pub const MARK_OR_LINE_FEED: u8 = 11;

pub const SPACE_OR_TAB: u8 = 12;

// what no byte is: any other number is no class's
const NONE: u8 = 13;

// How many bytes of a run are told by a search, before the table is copied.
const SHORT_RUN: usize = 16;

// The table. The compiler has no read-only constants: it stores the table on the stack where it is asked for an
// entry by a number that it does not know. Where the table is searched instead, in loops whose bounds it knows and
// which are short enough to be unrolled, nothing is stored: a property of one byte becomes comparisons, an entry
// a table in read-only memory.
fn class_table() -> [u16; 256]
    ensures { result ≡ class_table }
{
    CLASSES
}

// The byte at i, and 0 past the end.
pub fn byte_at(text: &[u8], i: usize) -> u8
    ensures { result ≡ get_or text.now i 0 }
{
    text.get(i).copied().unwrap_or(0)
}

// Whether the class x has the property k.
fn has(k: u8, x: u16) -> bool
    ensures { result ≡ bit k x }
{
    (x >> (k % 16)) % 2 == 1
}

// x where i is b, else 0: a number without properties.
fn entry_if(i: usize, b: u8, x: u16) -> u16
    ensures { result ≡ cond (eqb i b) x 0 }
{
    if i == usize::from(b) { x } else { 0 }
}

// The entry of b, its bits that mask has, where b is one of the entries from lo up to hi, else 0. With the bounds as
// parameters and the table by reference the compiler puts the search into its caller.
fn bits_among(t: &[u16; 256], lo: usize, hi: usize, mask: u16, b: u8) -> u16
    requires { (t.now ≡ class_table) × (hi ≤ 256) }
    ensures { result ≡ bits_in lo hi mask b }
{
    for i in lo..hi {
        let x = entry_if(i, b, t[i]) & mask;
        if x != 0 {
            return x;
        }
    }
    0
}

// The same, in four searches: one loop of 128 entries is not unrolled.
fn bits(t: &[u16; 256], lo: usize, hi: usize, mask: u16, b: u8) -> u16
    requires { (t.now ≡ class_table) × (lo ≤ hi) × (hi ≤ 256) }
    ensures { result ≡ bits_in lo hi mask b }
{
    let n = (hi - lo) / 4;
    let first = bits_among(t, lo, lo + n, mask, b);
    if first != 0 {
        return first;
    }
    let second = bits_among(t, lo + n, lo + 2 * n, mask, b);
    if second != 0 {
        return second;
    }
    let third = bits_among(t, lo + 2 * n, hi - n, mask, b);
    if third != 0 {
        return third;
    }
    bits_among(t, hi - n, hi, mask, b)
}

// Whether b has the property K, as `is::<LETTER>(b)`. A number that is no property's is that of no byte.
pub fn is<const K: u8>(b: u8) -> bool
    ensures { result ≡ property K b }
{
    let t = class_table();
    let mask = if K <= NONE { 1 << K } else { 0 };
    bits(&t, 0, 128, mask, b) != 0 || bits(&t, 128, 256, mask, b) != 0
}

// The class of b.
fn class_of(b: u8) -> u16
    ensures { result ≡ entry_of b }
{
    let t = class_table();
    let low = bits(&t, 0, 128, u16::MAX, b);
    if low != 0 {
        return low;
    }
    bits(&t, 128, 256, u16::MAX, b)
}

// The property of the class k; a number that is no class's has that of no byte.
fn property_of(k: u8) -> u8
    ensures { result ≡ known k }
{
    if k <= HEX_OR_UNDERSCORE { k } else { NONE }
}

// Whether b is of the class k.
fn in_class(k: u8, b: u8) -> bool
    ensures { result ≡ in_class k b }
{
    has(property_of(k), class_of(b))
}

// The class of b, by a copy of the table.
fn class_by(t: &[u16; 256], b: u8) -> u16
    requires { t.now ≡ class_table }
    ensures { result ≡ entry_of b }
{
    t[usize::from(b)]
}

// Where the run of bytes of the class k from `at` on ends, by a copy of the table. Two bytes a turn take fewer
// jumps; the last byte of a text may be left over.
fn long_run(k: u8, text: &[u8], at: usize) -> usize
    ensures { result ≡ run_end (in_class k) text.now at }
{
    let t = class_table();
    let p = property_of(k);
    let last = text.len().saturating_sub(1);
    let mut i = at;
    while i < last {
        if !has(p, class_by(&t, text[i])) {
            return i;
        }
        if !has(p, class_by(&t, text[i + 1])) {
            return i + 1;
        }
        i += 2;
    }
    if i < text.len() && has(p, class_by(&t, text[i])) {
        return i + 1;
    }
    i
}

// Where the run of bytes of the class k from `at` on ends (get_name_len, and the digits of
// get_decimal_number and get_hex_number, of the Rust). Most runs are short. The search is a loop over places: by
// `position` over a slice a run took four instructions more, a token of names 2.3 % more.
pub fn run_end(k: u8, text: &[u8], at: usize) -> usize
    ensures { result ≡ run_end (in_class k) text.now at }
{
    if text.len() <= at {
        return at;
    }
    let e = at + SHORT_RUN.min(text.len() - at);
    for end in at..e {
        if !in_class(k, text[end]) {
            return end;
        }
    }
    long_run(k, text, e)
}
