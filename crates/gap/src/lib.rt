// The gap before a token: blanks, line comments, nested block comments, doc comments
// (trim_whitespace_and_comments and trim_start_whitespace of the Rust).
#![tactic(auto)]

ghost use Rattle.std.specs.Prelude.{◌≡◌, cond, false, ◌&&◌, ◌||◌, List, [], ◌∷◌, ℕ, ◌+◌, ◌-◌, ◌*◌, ◌^◌, ◌<◌, eqb, length, drop, Ok, Some};
ghost use Rattle.gap.specs.Marks.{is_blank, doc_line, doc_block};
ghost use Rattle.gap.specs.Comments.{inside, line_text, line_comment, part_at};
ghost use Rattle.gap.specs.Gap.{gap, gap_end_of, doc_of};
ghost use Rattle.gap.specs.PartsEnd.{parts_end};
ghost use Rattle.gap.specs.LineFeed.{line_feed, gap_feed};
ghost use Rattle.gap.specs.code.Blocks.{block_part, depth_at, opener_at};
ghost use Rattle.gap.specs.code.Ends.{part_end, end_of_part, textless, doc_scan};

use classes::{LINE, MARK_OR_LINE_FEED, PART_START, SPACE, SPACE_OR_TAB};

// A doc comment: its span, and its text's, from `from` to `to`.
#[derive(Drop)]
pub struct Comment {
    pub start: usize,
    pub end: usize,
    pub from: usize,
    pub to: usize,
}

// The span of the opener of a block comment that is not closed.
#[derive(Clone, Copy)]
pub struct Unclosed {
    pub start: usize,
    pub end: usize,
}

// Where a block comment closes, or how many are open at the end of the text; and whether LF stands in it.
#[derive(Drop)]
struct Closing {
    pub close: Result<usize, usize>,
    pub feed: bool,
}

// A part of a gap: a blank or a plain comment, by its end; or a doc comment.
#[derive(Drop)]
pub enum GapPart {
    Pass(usize),
    Doc(Comment),
}

impl GapPart {
    // Where the part ends.
    fn end(&self) -> usize
        ensures { result ≡ part_end self.now }
    {
        match self {
            GapPart::Pass(e) => *e,
            GapPart::Doc(c) => c.end,
        }
    }
}

// Where a part of a gap ends, none where there is no part, and whether LF stands in it.
#[derive(Drop)]
struct PartScan {
    pub end: Result<Option<usize>, Unclosed>,
    pub feed: bool,
}

// The end of a gap, and whether LF stands in it: the flag says nothing of whether the gap ends.
#[derive(Drop)]
pub struct GapScan {
    pub end: Result<usize, Unclosed>,
    pub feed: bool,
}

// The end of a gap, and the span of its last doc comment, (0,0) where it has none. That is no Option: its one caller
// answers (0,0) too, as `doc_before` of tokens says.
#[derive(Drop)]
pub struct DocScan {
    pub end: Result<usize, Unclosed>,
    pub from: usize,
    pub to: usize,
}

// Whether a is a blank, where b follows.
fn is_blank(a: u8, b: u8) -> bool
    ensures { result ≡ is_blank a b }
{
    classes::is::<SPACE>(a) || a == b'\r' && b == b'\n'
}

// Two bytes as one number, so that two are compared with two by one test. `u16::from_be_bytes` was tried: up to 0.8 %
// more instructions a token.
fn two_bytes(a: u8, b: u8) -> u32
    ensures { result ≡ a * 256 + b }
{
    a as u32 * 256 + b as u32
}

// Whether two bytes are these.
fn pair(a: u8, b: u8, x: u8, y: u8) -> bool
    ensures { result ≡ (eqb a x && eqb b y) }
{
    two_bytes(a, b) == two_bytes(x, y)
}

// Whether a block comment that goes on with a and b is a doc comment.
fn doc_block(a: u8, b: u8) -> bool
    ensures { result ≡ doc_block a b }
{
    a == b'*' && b != b'*' && b != b'/'
}

// Whether a line comment that goes on with a and b is a doc comment.
fn doc_line(a: u8, b: u8) -> bool
    ensures { result ≡ doc_line a b }
{
    a == b'/' && b != b'/'
}

// The first scan of a block comment, from behind its opener: a depth stands for the Rust's
// stack of openers. LF is looked at where marks are, so that other bytes cost nothing more. The loop steps over marks
// of two bytes, so it is no `for`; nor is that of the second scan.
fn close_of(text: &[u8], at: usize) -> Closing
    ensures close { result.close ≡ depth_at text.now at 1 }
    ensures feed { (e : ℕ) → result.close ≡ Ok e → result.feed ≡ line_feed text.now at e }
{
    let mut i = at;
    let mut n: usize = 1;
    let mut feed = false;
    while i < text.len() {
        let a = text[i];
        if classes::is::<MARK_OR_LINE_FEED>(a) {
            let b = classes::byte_at(text, i + 1);
            if pair(a, b, b'/', b'*') {
                n += 1;
                i += 2;
            } else if pair(a, b, b'*', b'/') {
                if n <= 1 {
                    return Closing {
                        close: Ok(i + 2),
                        feed,
                    };
                }
                n -= 1;
                i += 2;
            } else {
                feed |= a == b'\n';
                i += 1;
            }
        } else {
            i += 1;
        }
    }
    Closing {
        close: Err(n),
        feed,
    }
}

// The second scan, for a comment that is not closed: the last opener that brought the depth to d,
// p where there is none.
fn opener_of(text: &[u8], at: usize, d: usize, p: usize) -> usize
    ensures { result ≡ opener_at d text.now at 1 p }
{
    let mut i = at;
    let mut n: usize = 1;
    let mut last = p;
    while i < text.len() {
        let a = text[i];
        let b = classes::byte_at(text, i + 1);
        if pair(a, b, b'/', b'*') {
            n += 1;
            if n == d {
                last = i;
            }
            i += 2;
        } else if pair(a, b, b'*', b'/') {
            n = n.saturating_sub(1);
            i += 2;
        } else {
            i += 1;
        }
    }
    last
}

// Where the block comment ends whose opener stands at p, and which closes there; or its innermost opener that
// is still open.
fn block_at(text: &[u8], p: usize, w: Result<usize, usize>) -> Result<usize, usize>
    requires { (p < length text.now) × (w ≡ depth_at text.now (p + 2) 1) }
    ensures { result ≡ inside false (p ∷ []) (p + 2) (drop (p + 2) text.now) }
{
    w.map_err(|d| opener_of(text, p + 2, d, p))
}

// Where the text of the line comment at `at` ends, its closing CRs left out.
fn text_end(text: &[u8], at: usize) -> usize
    ensures { result ≡ line_text at at (drop at text.now) }
{
    let mut t = at;
    for i in at..text.len() {
        let a = text[i];
        if a == b'\n' {
            return t;
        }
        if a != b'\r' {
            t = i + 1;
        }
    }
    t
}

// The line comment at i.
fn line_comment(text: &[u8], i: usize) -> GapPart
    requires { i < length text.now }
    ensures { Ok (Some result) ≡ line_comment i (drop i text.now) }
{
    let e = classes::run_end(LINE, text, i);
    let a = classes::byte_at(text, i + 2);
    let b = classes::byte_at(text, i + 3);
    if doc_line(a, b) {
        let d = text_end(text, i);
        return GapPart::Doc(Comment {
            start: i,
            end: e,
            from: i + 3,
            to: d,
        });
    }
    GapPart::Pass(e)
}

// The length of the opener o of the comment at p: 3 for a doc comment's own, else 2.
fn opener_len(doc: bool, p: usize, o: usize) -> usize
    ensures { result ≡ cond (doc && eqb o p) 3 2 }
{
    if doc && o == p { 3 } else { 2 }
}

// The block comment at i, which closes there.
fn block_comment(
    text: &[u8],
    i: usize,
    w: Result<usize, usize>,
) -> Result<Option<GapPart>, Unclosed>
    requires { (i < length text.now) × (w ≡ depth_at text.now (i + 2) 1) }
    ensures { result ≡ block_part text.now i }
{
    let a = classes::byte_at(text, i + 2);
    let b = classes::byte_at(text, i + 3);
    let doc = doc_block(a, b);
    match block_at(text, i, w) {
        Ok(e) => {
            if doc {
                return Ok(Some(GapPart::Doc(Comment {
                    start: i,
                    end: e,
                    from: i + 3,
                    to: e - 2,
                })));
            }
            Ok(Some(GapPart::Pass(e)))
        }
        Err(o) => Err(Unclosed {
            start: o,
            end: o + opener_len(doc, i, o),
        }),
    }
}

// The part of a gap that stands at i; none where there is none.
fn part_at(text: &[u8], i: usize) -> Result<Option<GapPart>, Unclosed>
    requires { i < length text.now }
    ensures { result ≡ part_at i (drop i text.now) }
{
    let a = text[i];
    let b = classes::byte_at(text, i + 1);
    if is_blank(a, b) {
        return Ok(Some(GapPart::Pass(i + 1)));
    }
    if pair(a, b, b'/', b'/') {
        return Ok(Some(line_comment(text, i)));
    }
    if pair(a, b, b'/', b'*') {
        return block_comment(text, i, close_of(text, i + 2).close);
    }
    Ok(None)
}

// Where a part of a gap ends.
fn end_of_part(p: Result<Option<GapPart>, Unclosed>) -> Result<Option<usize>, Unclosed>
    ensures { result ≡ end_of_part p }
{
    Ok(p?.map(|g| g.end()))
}

// The part of a gap that stands at i, by its end. Of a line comment no more than its end is looked
// for, and LF never stands in it.
fn part_scan(text: &[u8], i: usize) -> PartScan
    requires { i < length text.now }
    ensures end { result.end ≡ end_of_part (part_at i (drop i text.now)) }
    ensures feed { (e : ℕ) → result.end ≡ Ok (Some e) → result.feed ≡ line_feed text.now i e }
{
    let a = text[i];
    let b = classes::byte_at(text, i + 1);
    if pair(a, b, b'/', b'/') {
        return PartScan {
            end: Ok(Some(classes::run_end(LINE, text, i))),
            feed: false,
        };
    }
    if pair(a, b, b'/', b'*') {
        let c = close_of(text, i + 2);
        return PartScan {
            end: end_of_part(block_comment(text, i, c.close)),
            feed: c.feed,
        };
    }
    if is_blank(a, b) {
        return PartScan {
            end: Ok(Some(i + 1)),
            feed: a == b'\n',
        };
    }
    PartScan {
        end: Ok(None),
        feed: false,
    }
}

// Where the gap from `at` on ends, and whether LF stands in it. Most gaps are blanks or nothing, so
// these are told first. A step is as long as the part that is read, here and in the loops below, so none is a `for`.
pub fn gap_scan(text: &[u8], at: usize) -> GapScan
    ensures end { result.end ≡ gap_end_of (gap 0 at (drop at text.now)).last }
    ensures feed { result.feed ≡ gap_feed text.now at result.end }
{
    let mut i = at;
    let mut feed = false;
    while i < text.len() {
        let a = text[i];
        if classes::is::<SPACE_OR_TAB>(a) {
            i += 1;
        } else if a == b'\n' {
            feed = true;
            i += 1;
        } else if classes::is::<PART_START>(a) {
            let p = part_scan(text, i);
            match p.end {
                Ok(Some(e)) => {
                    feed |= p.feed;
                    i = e;
                }
                Ok(None) => {
                    return GapScan { end: Ok(i), feed };
                }
                Err(u) => {
                    return GapScan {
                        end: Err(u),
                        feed: false,
                    };
                }
            }
        } else {
            return GapScan { end: Ok(i), feed };
        }
    }
    GapScan { end: Ok(i), feed }
}

// The first doc comment of the gap from `at` on; none; or the opener that is not closed before any.
pub fn first_doc(text: &[u8], at: usize) -> Result<Option<Comment>, Unclosed>
    ensures { result ≡ doc_of (gap 0 at (drop at text.now)) }
{
    let mut i = at;
    while i < text.len() {
        let b = classes::byte_at(text, i + 1);
        // Blanks are passed over here: asking `part_at` for each takes several times as many instructions.
        if is_blank(text[i], b) {
            i += 1;
        } else {
            match part_at(text, i)? {
                Some(GapPart::Pass(e)) => {
                    i = e;
                }
                Some(GapPart::Doc(c)) => {
                    return Ok(Some(c));
                }
                None => {
                    return Ok(None);
                }
            }
        }
    }
    Ok(None)
}

// Where the closed parts of the gap from `at` on end: at its end, or at the first byte of the comment that
// is not closed.
pub fn parts_end(text: &[u8], at: usize) -> usize
    ensures { result ≡ parts_end 0 at (drop at text.now) }
{
    let mut i = at;
    while i < text.len() {
        let Ok(Some(e)) = end_of_part(part_at(text, i)) else {
            return i;
        };
        i = e;
    }
    i
}

// The line comment at i; of its span alone, so that its bytes are looked over once.
fn line_span(text: &[u8], i: usize) -> GapPart
    requires { i < length text.now }
    ensures { textless (Ok (Some result)) ≡ textless (line_comment i (drop i text.now)) }
{
    let e = classes::run_end(LINE, text, i);
    let a = classes::byte_at(text, i + 2);
    let b = classes::byte_at(text, i + 3);
    if doc_line(a, b) {
        return GapPart::Doc(Comment {
            start: i,
            end: e,
            from: i,
            to: i,
        });
    }
    GapPart::Pass(e)
}

// The part of a gap that stands at i; of a doc comment the span alone.
fn part_span(text: &[u8], i: usize) -> Result<Option<GapPart>, Unclosed>
    requires { i < length text.now }
    ensures { textless result ≡ textless (part_at i (drop i text.now)) }
{
    let a = text[i];
    let b = classes::byte_at(text, i + 1);
    if pair(a, b, b'/', b'/') {
        return Ok(Some(line_span(text, i)));
    }
    part_at(text, i)
}

// Where the gap from `at` on ends, and its last doc comment. This is no answer of `gap_scan`: the token call, in
// which that scan stands, would store it at every token.
pub fn doc_scan(text: &[u8], at: usize) -> DocScan
    ensures { result ≡ doc_scan 0 0 (gap 0 at (drop at text.now)) }
{
    let mut i = at;
    let mut from: usize = 0;
    let mut to: usize = 0;
    while i < text.len() {
        let a = text[i];
        if classes::is::<SPACE>(a) {
            i += 1;
        } else if classes::is::<PART_START>(a) {
            match part_span(text, i) {
                Ok(Some(GapPart::Pass(e))) => {
                    i = e;
                }
                Ok(Some(GapPart::Doc(c))) => {
                    from = c.start;
                    to = c.end;
                    i = c.end;
                }
                Ok(None) => {
                    return DocScan {
                        end: Ok(i),
                        from,
                        to,
                    };
                }
                Err(u) => {
                    return DocScan {
                        end: Err(u),
                        from,
                        to,
                    };
                }
            }
        } else {
            return DocScan {
                end: Ok(i),
                from,
                to,
            };
        }
    }
    DocScan {
        end: Ok(i),
        from,
        to,
    }
}
