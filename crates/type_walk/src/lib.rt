// Types and lists of types, laid down in the form that the caller asks for.
#![tactic(auto)]

ghost use Rattle.std.specs.Prelude.{◌≡◌, false, cond, ◌||◌, eqb};
ghost use Rattle.words.specs.Kinds.{Amp, AmpMut, Greater};
ghost use Rattle.tokens.specs.Calls.{next_token};
ghost use Rattle.records.specs.Kinds.{RecRef, RecRefMut};
ghost use Rattle.grammar.specs.Types.{brackets, reference, function, named, type_over, read_type};
ghost use Rattle.parts.specs.code.Meets.{Reads};
ghost use Rattle.lists.specs.code.Lists.{StepsAt, ItemAt, ReadsList};
ghost use Rattle.chains.specs.code.Parts.{begins, ReadsNamed};
ghost use Rattle.type_walk.specs.code.Types.{Angled, brackets_kind};

use forms::Spot;
use lists::{Items, Step, Turn};
use parts::{Part, Way};
use records::kinds::{
    REC_BRACKETS, REC_FUNCTION, REC_REF, REC_REF_MUT, REC_TUPLE, REC_TYPE, REC_UNIT,
};
use tokens::{Refusal, Token};
use words::kinds::{AMP, AMP_MUT, GREATER, L_PAREN, LESS, PIPE, R_PAREN};

// Whether a reference begins with a token of this kind.
fn is_reference(kind: u8) -> bool
    ensures { result ≡ (eqb kind Amp || eqb kind AmpMut) }
{
    kind == AMP || kind == AMP_MUT
}

// The kind of a reference.
fn reference_kind(mutable: bool) -> usize
    ensures { result ≡ cond mutable RecRefMut RecRef }
{
    if mutable {
        return REC_REF_MUT;
    }
    REC_REF
}

// The kind of brackets by how many types stand in them: the unit, one type, or a tuple.
fn brackets_kind(count: usize) -> usize
    ensures { result ≡ brackets_kind count }
{
    match count {
        0 => REC_UNIT,
        1 => REC_BRACKETS,
        _ => REC_TUPLE,
    }
}

// Closes the arguments of a type, whose bytes end at b, and whose `<` belongs at s: where there are none,
// nothing is written.
fn close_angles(form: u8, none: bool, out: &mut [u8], s: Spot, b: Spot) -> Spot
    ensures { Angled form none out.old s b result out.new }
{
    if none {
        return forms::move_by(s, 0);
    }
    let r = forms::put_mark(form, b'>', out, b);
    forms::put_angle(form, out, s);
    r
}

// The type whose first token is a; the levels that are left count its own.
#[cycle(types)]
pub fn parse_type(w: Way, text: &[u8], a: Token, out: &mut [u8], s: Spot) -> Result<Part, Refusal>
    ensures { Reads w text.now (read_type w.left) a s out.old result out.new }
{
    if w.left == 0 {
        return Err(parts::too_deep(a));
    }
    let deeper = Way {
        left: w.left - 1,
        ..w
    };
    if !chains::is_first(a.kind) {
        return marked_at(deeper, text, a, out, s);
    }
    let n = parts::behind(w.edition, text, a)?;
    named_at(deeper, text, a, n, out, s)
}

// The type that a begins, which begins no name.
#[cycle(types)]
fn marked_at(w: Way, text: &[u8], a: Token, out: &mut [u8], s: Spot) -> Result<Part, Refusal>
    ensures { begins a ≡ false → Reads w text.now (type_over (read_type w.left)) a s out.old result out.new }
{
    if a.kind == L_PAREN {
        return brackets_at(w, text, a, out, s);
    }
    if is_reference(a.kind) {
        return reference_at(w, a.kind == AMP_MUT, text, a, out, s);
    }
    if a.kind == PIPE {
        return function_at(w, text, a, out, s);
    }
    Err(parts::unexpected(a))
}

// The brackets that a opens round none, one or more types.
#[cycle(types)]
fn brackets_at(w: Way, text: &[u8], a: Token, out: &mut [u8], s: Spot) -> Result<Part, Refusal>
    ensures { Reads w text.now (brackets (read_type w.left)) a s out.old result out.new }
{
    let i = forms::step_inside(w.form, s);
    let p = forms::put_mark(w.form, b'(', out, i);
    let n = type_list(w, R_PAREN, text, a, out, p)?;
    let to = forms::put_mark(w.form, b')', out, n.part.to);
    forms::seal(
        w.form,
        brackets_kind(n.count),
        a.start,
        n.part.end,
        s,
        to,
        out,
    );
    Ok(Part { to, ..n.part })
}

// The reference that a begins. Here and in function_at `match` stands for `?`, under which the compiler takes 48
// bytes of stack more for each level of a type: at most MOVESIG_STACK (include/movesig.h) may be taken in all.
#[cycle(types)]
fn reference_at(
    w: Way,
    mutable: bool,
    text: &[u8],
    a: Token,
    out: &mut [u8],
    s: Spot,
) -> Result<Part, Refusal>
    ensures { Reads w text.now (reference (read_type w.left) (cond mutable RecRefMut RecRef)) a s out.old result out.new }
{
    let l = parts::behind(w.edition, text, a);
    match l {
        Err(r) => Err(r),
        Ok(b) => {
            let i = forms::step_inside(w.form, s);
            let q = forms::put_reference(w.form, mutable, out, i);
            let t = parse_type(w, text, b, out, q);
            match t {
                Err(r) => Err(r),
                Ok(p) => {
                    let kind = reference_kind(mutable);
                    forms::seal(w.form, kind, a.start, p.end, s, p.to, out);
                    Ok(p)
                }
            }
        }
    }
}

// The function type that the `|` a begins: its arguments, then its result.
#[cycle(types)]
fn function_at(w: Way, text: &[u8], a: Token, out: &mut [u8], s: Spot) -> Result<Part, Refusal>
    ensures { Reads w text.now (function (read_type w.left)) a s out.old result out.new }
{
    let i = forms::step_inside(w.form, s);
    let q = forms::put_mark(w.form, b'|', out, i);
    let l = type_list(w, PIPE, text, a, out, q);
    match l {
        Err(r) => Err(r),
        Ok(n) => {
            let b = n.part.next;
            let c = forms::close_bars(w.form, n.count == 0, out, n.part.to);
            let d = forms::put_mark(w.form, b' ', out, c);
            let t = parse_type(w, text, b, out, d);
            match t {
                Err(r) => Err(r),
                Ok(p) => {
                    forms::seal(w.form, REC_FUNCTION, a.start, p.end, s, p.to, out);
                    Ok(p)
                }
            }
        }
    }
}

// The type that the name at a begins, with its arguments; n is the token behind a.
#[cycle(types)]
fn named_at(
    w: Way,
    text: &[u8],
    a: Token,
    n: Token,
    out: &mut [u8],
    s: Spot,
) -> Result<Part, Refusal>
    ensures { ReadsNamed w text.now (named (read_type w.left)) a n s out.old result out.new }
{
    let i = forms::step_inside(w.form, s);
    let p = chains::name_behind(w, text, a, n, out, i)?;
    if p.next.kind != LESS {
        forms::seal(w.form, REC_TYPE, a.start, p.end, s, p.to, out);
        return Ok(p);
    }
    let j = forms::step_angle(w.form, p.to);
    let m = type_list(w, GREATER, text, p.next, out, j)?;
    let to = close_angles(w.form, m.count == 0, out, p.to, m.part.to);
    forms::seal(w.form, REC_TYPE, a.start, m.part.end, s, to, out);
    Ok(Part { to, ..m.part })
}

// The list of types that o opens and a token of the kind `close` ends, its items one behind the other
// (parse_comma_list of the Rust); the specification asks for one function a list.
#[cycle(types)]
fn type_list(
    w: Way,
    close: u8,
    text: &[u8],
    o: Token,
    out: &mut [u8],
    s: Spot,
) -> Result<Items, Refusal>
    ensures { ReadsList w text.now (read_type w.left) close o s out.old result out.new }
{
    let mut i = o.end;
    let mut to = forms::move_by(s, 0);
    let mut count = 0;
    loop {
        match type_step(w, close, text, o, i, count == 0, out, to)? {
            Step::Closes(q) => {
                return lists::close_list(w.edition, text, q, count, to);
            }
            Step::Last(e, q) => {
                return lists::close_list(w.edition, text, q, lists::count_more(count), e);
            }
            Step::Goes(e, q) => {
                to = e;
                count = lists::count_more(count);
                i = q;
            }
        }
    }
}

// The next type of that list, if it does not close.
#[cycle(types)]
fn type_step(
    w: Way,
    close: u8,
    text: &[u8],
    o: Token,
    at: usize,
    first: bool,
    out: &mut [u8],
    s: Spot,
) -> Result<Step, Refusal>
    ensures { StepsAt w text.now (read_type w.left) close o at first s out.old result out.new }
{
    match lists::next_item(w.edition, close, text, at)? {
        Turn::Closes(q) => Ok(Step::Closes(q)),
        Turn::Item(a) => type_item(w, close, text, o, a, first, out, s),
    }
}

// The type of that list whose first token is a, and what stands behind it.
#[cycle(types)]
fn type_item(
    w: Way,
    close: u8,
    text: &[u8],
    o: Token,
    a: Token,
    first: bool,
    out: &mut [u8],
    s: Spot,
) -> Result<Step, Refusal>
    ensures { ItemAt w text.now (read_type w.left) close o a first s out.old result out.new }
{
    let p = forms::put_between(w.form, first, out, s);
    let t = parse_type(w, text, a, out, p);
    lists::after_item(close, o, t)
}

// The type arguments behind the `<` o, up to `>`, or to the first byte of `>>`: the items alone, without the
// marks. The levels that are left count each argument's own.
pub fn parse_type_args(
    w: Way,
    text: &[u8],
    o: Token,
    out: &mut [u8],
    s: Spot,
) -> Result<Items, Refusal>
    ensures { ReadsList w text.now (read_type w.left) Greater o s out.old result out.new }
{
    type_list(w, GREATER, text, o, out, s)
}
