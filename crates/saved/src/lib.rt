// Saved trees: whether bytes are the stored tree of a text, and the children of its records. Legal bytes are an array of
// heads, each followed by its children: every head is looked at once as a parent, from the front, and its children along
// their lengths. So nothing recurses, and no parents are kept.
#![tactic(auto)]

ghost use Rattle.std.specs.Prelude.{◌≡◌, false, ◌||◌, ◌+◌, ◌-◌, ◌<◌, ◌≤◌, eqb, length, replicate, None, Ok, IfSome};
ghost use Rattle.classes.specs.Bytes.{begins};
ghost use Rattle.tokens.specs.Answers.{refusal};
ghost use Rattle.records.specs.Kinds.{RecField};
ghost use Rattle.forms.specs.Forms.{FormWide, front, head_size};
ghost use Rattle.saved.specs.Children.{allows};
ghost use Rattle.saved.specs.Heads.{form_told, number_at, head_in, head_at};
ghost use Rattle.saved.specs.Open.{parent, outside, head_fault, first_at};
ghost use Rattle.saved.specs.Child.{saved_head, can_start, child_from, child_in};
ghost use Rattle.saved.specs.Answers.{with_record, open_call, child_call};
ghost use Rattle.saved.specs.code.Scan.{head_within, numbered, outermost_read, fault, Runs, still_open, deepening, Walks, OpensOver};

use records::kinds::REC_FIELD;
use refusals::{NO_RECORD_KIND, NOT_ALLOWED, RECORD_UNFIT};
use table::{deepening_of, is_allowed, is_kind};
use tokens::refusals::{TEXT_TOO_LONG, TOO_DEEP};
use tokens::{Refusal, TEXT_LIMIT};

pub mod refusals;
mod table;

// The most levels.
const LEVELS: usize = 64;

// The head of a record: the bytes that it has with its children, its kind and its span.
#[derive(Clone, Copy)]
pub struct Head {
    pub len: usize,
    pub kind: usize,
    pub start: usize,
    pub end: usize,
}

// Which children may stand at a place among a record's children.
#[derive(Clone, Copy)]
pub enum Allowed {
    NoChild,
    FirstPart,
    NamePart,
    PairPart,
    AnyChain,
    AnyType,
    AnyBinding,
    AnyField,
    TypesThenFields,
}

// What the children of a record are: the first, the second and all behind them, and how many there are at least.
#[derive(Clone, Copy)]
pub struct Row {
    pub first: Allowed,
    pub second: Allowed,
    pub later: Allowed,
    pub least: usize,
}

// What is wrong: where it stands, its number, and the record that is blamed.
#[derive(Clone, Copy)]
pub struct Fault {
    pub place: usize,
    pub number: u32,
    pub offset: usize,
}

// A record of a saved tree: where it starts among the bytes, its kind and its span in the text.
#[derive(Drop)]
pub struct SavedRecord {
    pub offset: usize,
    pub kind: usize,
    pub start: usize,
    pub end: usize,
}

// The bytes of a saved tree, and whether they are in the wide form, which the first four tell.
#[derive(Clone, Copy)]
struct Saved<'a> {
    tree: &'a [u8],
    wide: bool,
    ghost told: { wide ≡ begins (front FormWide) tree.now },
}

impl Head {
    // Whether the span ends before it starts or does not lie in another.
    #[tactic(auto, using(std::proofs::lemmas::Bool::Decides::nat_tests), unfolding(crate::specs::Open::outside))]
    fn lies_outside(self, from: usize, to: usize) -> bool
        ensures { result ≡ outside from to self }
    {
        self.end < self.start || self.start < from || to < self.end
    }

    // The record of this head at an offset.
    fn at(self, offset: usize) -> SavedRecord
        ensures { result ≡ saved_head offset self }
    {
        SavedRecord {
            offset,
            kind: self.kind,
            start: self.start,
            end: self.end,
        }
    }
}

impl Fault {
    // The fault of a record that is blamed itself.
    fn of(number: u32, offset: usize) -> Fault
        ensures { result ≡ fault offset number offset }
    {
        Fault {
            place: offset,
            number,
            offset,
        }
    }
}

// 16 or 17 of a child, by what may stand there and its parent's span. What is allowed is a kind.
#[tactic(auto, using(std::proofs::lemmas::Bool::Decides::nat_tests, crate::proofs::Tests::allowed_kind), unfolding(crate::specs::Open::head_fault))]
fn child_fault(a: Allowed, field: bool, from: usize, to: usize, h: Head) -> Option<u32>
    ensures { result ≡ numbered (head_fault false (allows a field h.kind) from to h) }
{
    if is_allowed(a, field, h.kind) {
        if h.lies_outside(from, to) {
            Some(NOT_ALLOWED)
        } else {
            None
        }
    } else if is_kind(h.kind) {
        Some(NOT_ALLOWED)
    } else {
        Some(NO_RECORD_KIND)
    }
}

// How many ends are left where those that are not behind i are dropped from the last on.
fn still_open(ends: &[usize], i: usize) -> usize
    ensures value { result ≡ still_open ends.now (length ends.now) i }
    ensures few { result ≤ length ends.now }
{
    for d in (0..ends.len()).rev() {
        if i < ends[d] {
            return d + 1;
        }
    }
    0
}

impl<'a> Saved<'a> {
    fn new(tree: &'a [u8]) -> Saved<'a>
        ensures { result.tree.now ≡ tree.now }
    {
        Saved {
            tree,
            wide: matches!(tree, [4, 0, 99, 0, ..]),
        }
    }

    // The size of a head.
    fn head_size(&self) -> usize
        ensures value { result ≡ head_size (form_told self.now.tree.now) }
        ensures some { 8 ≤ result }
    {
        if self.wide { 14 } else { 8 }
    }

    // Where the outermost record starts.
    fn first_at(&self) -> usize
        ensures value { result ≡ first_at (form_told self.now.tree.now) }
        ensures inside { result ≤ length self.now.tree.now }
    {
        if self.wide { 4 } else { 0 }
    }

    // The number in W bytes that are there, the low one first.
    fn number_at<const W: usize>(&self, p: usize) -> usize
        requires few { W ≤ 4 }
        requires inside { p + W ≤ length self.now.tree.now }
        ensures { result ≡ number_at W self.now.tree.now p }
    {
        let mut n = 0;
        for i in (0..W).rev() {
            n = 256 * n + usize::from(self.tree[p + i]);
        }
        n
    }

    // The head at p, whose bytes are there: with numbers of W bytes and the kind in two.
    fn head_in<const W: usize>(&self, p: usize) -> Head
        requires few { W ≤ 4 }
        requires inside { p + W + 2 + W + W ≤ length self.now.tree.now }
        ensures { result ≡ head_in W self.now.tree.now p }
    {
        Head {
            len: self.number_at::<W>(p),
            kind: self.number_at::<2>(p + W),
            start: self.number_at::<W>(p + W + 2),
            end: self.number_at::<W>(p + W + 2 + W),
        }
    }

    // The head at p, whose bytes are there.
    fn head_at(&self, p: usize) -> Head
        requires { p + head_size (form_told self.now.tree.now) ≤ length self.now.tree.now }
        ensures { result ≡ head_at (form_told self.now.tree.now) self.now.tree.now p }
    {
        if self.wide {
            self.head_in::<4>(p)
        } else {
            self.head_in::<2>(p)
        }
    }

    // The head at p, where the record fits the `room` bytes from there on.
    #[tactic(auto, using(std::proofs::lemmas::Bool::Decides::nat_tests), unfolding(crate::specs::Open::unfit))]
    fn head_within(&self, p: usize, room: usize) -> Option<Head>
        requires { p + room ≤ length self.now.tree.now }
        ensures value { result ≡ head_within (form_told self.now.tree.now) self.now.tree.now p room }
        ensures fits { IfSome result (λ h. (head_size (form_told self.now.tree.now) ≤ h.len) × (h.len ≤ room)) }
    {
        let size = self.head_size();
        if room < size {
            return None;
        }
        let h = self.head_at(p);
        if h.len < size || room < h.len {
            return None;
        }
        Some(h)
    }

    // The head of the outermost record, which is all the bytes and lies in a text that ends at `to`; else 15, 16 or 17.
    fn outermost(&self, to: usize) -> Result<Head, u32>
        ensures { result ≡ outermost_read self.now.tree.now to }
    {
        let first = self.first_at();
        let room = self.tree.len() - first;
        let Some(h) = self.head_within(first, room) else {
            return Err(RECORD_UNFIT);
        };
        if h.len < room {
            return Err(RECORD_UNFIT);
        }
        if !is_kind(h.kind) {
            return Err(NO_RECORD_KIND);
        }
        if h.lies_outside(0, to) {
            return Err(NOT_ALLOWED);
        }
        Ok(h)
    }

    // The first fault of the children of the record at `at`, not looking into them. A missing one stands at the end.
    fn children_fault(&self, at: usize, h: Head) -> Option<Fault>
        requires within { at + h.len ≤ length self.now.tree.now }
        requires head { head_size (form_told self.now.tree.now) ≤ h.len }
        ensures { Runs (form_told self.now.tree.now) self.now.tree.now (parent at h 0) 0 false (at + head_size (form_told self.now.tree.now)) (h.len - head_size (form_told self.now.tree.now)) result }
    {
        let row = Row::of(h.kind);
        let size = self.head_size();
        let mut p = at + size;
        let mut room = h.len - size;
        let mut index = 0;
        let mut field = false;
        // A step is a length that was read.
        while 0 < room {
            let Some(k) = self.head_within(p, room) else {
                return Some(Fault::of(RECORD_UNFIT, p));
            };
            if let Some(number) = child_fault(row.slot(index), field, h.start, h.end, k) {
                return Some(Fault::of(number, p));
            }
            p += k.len;
            room -= k.len;
            index += 1;
            field |= k.kind == REC_FIELD;
        }
        if index < row.least {
            return Some(Fault {
                place: p,
                number: NOT_ALLOWED,
                offset: at,
            });
        }
        None
    }

    // The first fault inside the outermost record, which starts at `first`: every record as a parent, from the front. A
    // fault of its children stands before whatever was found until then, so the walk ends where it reaches the last found.
    fn walk(&self, first: usize, outermost: usize) -> Option<Fault>
        requires { first ≤ length self.now.tree.now }
        ensures { Walks (form_told self.now.tree.now) self.now.tree.now (replicate 65 (length self.now.tree.now)) (1 - deepening outermost) first None result }
    {
        let size = self.head_size();
        let len = self.tree.len();
        // Where the records end that are open and deepen, the first `depth` of them. An array with its depth, since there is
        // no heap, and since a record that ends is dropped by the depth alone, with no write.
        let mut ends = [len; 65];
        let mut depth = 1 - deepening_of(outermost);
        let mut kept = None;
        let mut end = len;
        let mut i = first;
        // A step is the size of a head, which the bytes tell.
        while i < end {
            let Some(h) = self.head_within(i, len - i) else {
                return kept;
            };
            let open = still_open(&ends[..depth], i);
            let deep = open + deepening_of(h.kind);
            if LEVELS < deep {
                return Some(Fault::of(TOO_DEEP, i));
            }
            ends[open] = i + h.len;
            depth = deep;
            if let Some(found) = self.children_fault(i, h) {
                if found.place <= end {
                    end = found.place;
                    kept = Some(found);
                }
            }
            i += size;
        }
        kept
    }

    // The outermost record, where nothing in it is wrong.
    fn opened_over(&self, first: usize, h: Head) -> Result<SavedRecord, Refusal>
        requires { first ≤ length self.now.tree.now }
        ensures { OpensOver (form_told self.now.tree.now) self.now.tree.now first h result }
    {
        match self.walk(first, h.kind) {
            Some(k) => Err(refusal_at(k.number, k.offset)),
            None => Ok(h.at(first)),
        }
    }

    // Whether a record can start at p.
    #[tactic(auto, using(std::proofs::lemmas::Bool::Decides::nat_tests, crate::proofs::Heads::size_least), unfolding(crate::specs::Child::starts_by))]
    fn can_start(&self, p: usize) -> bool
        ensures { result ≡ can_start (form_told self.now.tree.now) self.now.tree.now p }
    {
        let first = self.first_at();
        first <= p && p < self.tree.len() && (p - first) % self.head_size() == 0
    }

    // The child of an index in the `room` bytes from p on.
    fn child_from(&self, index: usize, p: usize, room: usize) -> Option<SavedRecord>
        requires { p + room ≤ length self.now.tree.now }
        ensures { Ok result ≡ child_from (form_told self.now.tree.now) self.now.tree.now index p room }
    {
        let mut at = p;
        let mut left = room;
        for _ in 0..index {
            let h = self.head_within(at, left)?;
            at += h.len;
            left -= h.len;
        }
        let h = self.head_within(at, left)?;
        Some(h.at(at))
    }
}

// A refusal at a record.
fn refusal_at(number: u32, offset: usize) -> Refusal
    ensures { result ≡ refusal number offset offset }
{
    tokens::refuse(number, offset, offset)
}

// Opens saved bytes over a text: their outermost record, or what is wrong first.
pub fn open_tree(tree: &[u8], text: &[u8]) -> Result<SavedRecord, Refusal>
    ensures { with_record result ≡ open_call tree.now text.now }
{
    if TEXT_LIMIT < text.len() {
        return Err(refusal_at(TEXT_TOO_LONG, 0));
    }
    let saved = Saved::new(tree);
    let first = saved.first_at();
    match saved.outermost(text.len()) {
        Err(number) => Err(refusal_at(number, first)),
        Ok(h) => saved.opened_over(first, h),
    }
}

// The child of an index of the record at an offset, in bytes that were opened before: nothing of them is tested but what
// this needs.
pub fn opened_child(tree: &[u8], offset: usize, index: usize) -> Option<SavedRecord>
    ensures { Ok result ≡ child_in tree.now offset index }
{
    let saved = Saved::new(tree);
    if !saved.can_start(offset) {
        return None;
    }
    let h = saved.head_within(offset, tree.len() - offset)?;
    let size = saved.head_size();
    saved.child_from(index, offset + size, h.len - size)
}

// The same, where the bytes open over the text.
pub fn child(
    tree: &[u8],
    text: &[u8],
    offset: usize,
    index: usize,
) -> Result<Option<SavedRecord>, Refusal>
    ensures { result ≡ child_call tree.now text.now offset index }
{
    let _ = open_tree(tree, text)?;
    Ok(opened_child(tree, offset, index))
}
