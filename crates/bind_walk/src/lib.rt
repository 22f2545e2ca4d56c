// Bindings, their fields, and the two lists of bindings, laid down in the form that the caller asks for.
#![tactic(auto)]

ghost use Rattle.std.specs.Prelude.{◌≡◌, cond, eqb, Ok};
ghost use Rattle.words.specs.Kinds.{Less, Greater, RBrace};
ghost use Rattle.records.specs.Kinds.{RecStruct, RecStructTyped};
ghost use Rattle.answers.specs.Reading.{list_behind};
ghost use Rattle.grammar.specs.Types.{read_type};
ghost use Rattle.grammar.specs.Names.{chain};
ghost use Rattle.grammar.specs.Binds.{fields, unpacked, read_bind, read_bind_list, read_lambda_list};
ghost use Rattle.forms.specs.code.Spots.{inside, Placed};
ghost use Rattle.parts.specs.code.Meets.{ReadsBy, Reads};
ghost use Rattle.lists.specs.code.Lists.{StepsAt, ReadsList};
ghost use Rattle.chains.specs.code.Parts.{ReadsNamed, ReadsBehind};
ghost use Rattle.bind_walk.specs.code.Pieces.{struct_kind, variable_kinds, field_at, field_name, angled, braced, ended_by, marked_by, ReadsBound, TypesBehind};

use forms::Spot;
use lists::{Items, Step, Turn};
use parts::{LEVELS, Part, Way};
use records::kinds::{
    REC_BIND_LIST, REC_FIELD, REC_LAMBDA_BIND_LIST, REC_NAME, REC_STRUCT, REC_STRUCT_TYPED,
    REC_VARIABLE,
};
use tokens::{Refusal, Token};
use words::kinds::{
    COLON, COLON_COLON, IDENTIFIER, L_BRACE, L_PAREN, LESS, PIPE, R_BRACE, R_PAREN,
};

// Whether a binding that begins with an identifier is a struct, by the kind of the token behind it.
fn is_struct(kind: u8) -> bool
    ensures { result ≡ struct_kind kind }
{
    kind == L_BRACE || kind == LESS || kind == COLON_COLON
}

// Whether a binding is a variable, by the kinds of its first token and of the one behind it.
fn is_variable(first: u8, second: u8) -> bool
    ensures { result ≡ variable_kinds first second }
{
    first == IDENTIFIER && !is_struct(second)
}

// The kind of a struct, by the kind of the token behind its name.
fn struct_kind(kind: u8) -> usize
    ensures { result ≡ cond (eqb kind Less) RecStructTyped RecStruct }
{
    if kind == LESS {
        return REC_STRUCT_TYPED;
    }
    REC_STRUCT
}

// Writes a mark behind the part p.
fn end_part(form: u8, b: u8, p: Part, out: &mut [u8]) -> Part
    ensures answer { Ok result ≡ ended_by form b (Ok p) }
    ensures bytes { out.new ≡ marked_by form b (Ok p) out.old }
{
    Part {
        to: forms::put_mark(form, b, out, p.to),
        ..p
    }
}

// Lays down the name a of a field and what stands behind it, inside the field that starts at s.
fn put_field_name(w: Way, text: &[u8], a: Token, out: &mut [u8], s: Spot) -> Spot
    ensures { Placed out.old (inside w.form s) (field_name w.form text.now a) result out.new }
{
    let i = forms::step_inside(w.form, s);
    let p = forms::put_leaf(w.form, REC_NAME, text, a, out, i);
    forms::put_marks(w.form, b':', b' ', out, p)
}

// The types of a struct, between the `<` o and `>`.
fn types_at(w: Way, text: &[u8], o: Token, out: &mut [u8], s: Spot) -> Result<Part, Refusal>
    ensures { ReadsBy (angled w.form) w.edition text.now (list_behind (read_type w.left) Greater) o s out.old result out.new }
{
    let p = forms::put_mark(w.form, b'<', out, s);
    let l = type_walk::parse_type_args(w, text, o, out, p)?;
    Ok(end_part(w.form, b'>', l.part, out))
}

// The types of a struct behind its name, which is p: in `<` and `>`, or none.
fn types_behind(w: Way, text: &[u8], p: Part, out: &mut [u8]) -> Result<Part, Refusal>
    ensures { TypesBehind w text.now p out.old result out.new }
{
    if p.next.kind != LESS {
        return Ok(p);
    }
    types_at(w, text, p.next, out, p.to)
}

// The name of the struct that starts at s, whose first token is a, and n the one behind it.
fn name_inside(
    w: Way,
    text: &[u8],
    a: Token,
    n: Token,
    out: &mut [u8],
    s: Spot,
) -> Result<Part, Refusal>
    ensures { ReadsBehind w text.now chain a n (inside w.form s) out.old result out.new }
{
    let i = forms::step_inside(w.form, s);
    chains::name_behind(w, text, a, n, out, i)
}

// The binding whose first token is a; the levels that are left count its own.
#[cycle(binds)]
fn parse_bind(w: Way, text: &[u8], a: Token, out: &mut [u8], s: Spot) -> Result<Part, Refusal>
    ensures { Reads w text.now (read_bind w.left) a s out.old result out.new }
{
    if w.left == 0 {
        return Err(parts::too_deep(a));
    }
    let deeper = Way {
        left: w.left - 1,
        ..w
    };
    if !chains::is_first(a.kind) {
        return Err(parts::unexpected(a));
    }
    let n = parts::behind(w.edition, text, a)?;
    if is_variable(a.kind, n.kind) {
        let to = forms::put_leaf(w.form, REC_VARIABLE, text, a, out, s);
        return Ok(Part {
            to,
            end: a.end,
            next: n,
        });
    }
    unpack_at(deeper, text, a, n, out, s)
}

// The struct that the name at a begins, with its types, if any, and its fields; n is the token behind a. The
// levels that are left count those of a type and of a field.
#[cycle(binds)]
fn unpack_at(
    w: Way,
    text: &[u8],
    a: Token,
    n: Token,
    out: &mut [u8],
    s: Spot,
) -> Result<Part, Refusal>
    ensures { ReadsNamed w text.now (unpacked (read_type w.left) (field_at w.left)) a n s out.old result out.new }
{
    let p = name_inside(w, text, a, n, out, s)?;
    let kind = struct_kind(p.next.kind);
    let q = types_behind(w, text, p, out)?;
    let f = fields_at(w, text, q.next, out, q.to)?;
    forms::seal(w.form, kind, a.start, f.end, s, f.to, out);
    Ok(f)
}

// The fields in the braces that b opens.
#[cycle(binds)]
fn fields_at(w: Way, text: &[u8], b: Token, out: &mut [u8], s: Spot) -> Result<Part, Refusal>
    ensures { ReadsBy (braced w.form) w.edition text.now (fields (read_type w.left) (field_at w.left)) b s out.old result out.new }
{
    if b.kind != L_BRACE {
        return Err(parts::unexpected(b));
    }
    let p = forms::put_marks(w.form, b' ', b'{', out, s);
    let l = field_list(w, text, b, out, p)?;
    Ok(end_part(w.form, b'}', l.part, out))
}

// The list of fields that o opens, its items one behind the other (parse_comma_list of the Rust); the specification
// asks for one function a list.
#[cycle(binds)]
fn field_list(w: Way, text: &[u8], o: Token, out: &mut [u8], s: Spot) -> Result<Items, Refusal>
    ensures { ReadsList w text.now (field_at w.left) RBrace o s out.old result out.new }
{
    let mut i = o.end;
    let mut to = forms::move_by(s, 0);
    let mut count = 0;
    loop {
        match field_step(w, text, o, i, count == 0, out, to)? {
            Step::Closes(q) => {
                return lists::close_list(w.edition, text, q, count, to);
            }
            Step::Last(e, q) => {
                return lists::close_list(w.edition, text, q, lists::count_more(count), e);
            }
            Step::Goes(e, q) => {
                to = e;
                count = lists::count_more(count);
                i = q;
            }
        }
    }
}

// The next field of that list, if it does not close.
#[cycle(binds)]
fn field_step(
    w: Way,
    text: &[u8],
    o: Token,
    at: usize,
    first: bool,
    out: &mut [u8],
    s: Spot,
) -> Result<Step, Refusal>
    ensures { StepsAt w text.now (field_at w.left) RBrace o at first s out.old result out.new }
{
    match lists::next_item(w.edition, R_BRACE, text, at)? {
        Turn::Closes(q) => Ok(Step::Closes(q)),
        Turn::Item(a) => {
            let p = forms::put_between(w.form, first, out, s);
            let t = parse_bind_field(w, text, a, out, p);
            lists::after_item(R_BRACE, o, t)
        }
    }
}

// The field whose first token is a. Its level is tested before its name is read, and its binding adds none.
#[cycle(binds)]
fn parse_bind_field(w: Way, text: &[u8], a: Token, out: &mut [u8], s: Spot) -> Result<Part, Refusal>
    ensures { Reads w text.now (field_at w.left) a s out.old result out.new }
{
    if w.left == 0 { // also where the field binds its own name
        return Err(parts::too_deep(a));
    }
    if a.kind != IDENTIFIER {
        return Err(parts::unexpected(a));
    }
    let n = parts::behind(w.edition, text, a)?;
    let p = put_field_name(w, text, a, out, s);
    let f = field_bind(w, text, a, n, out, p)?;
    forms::seal(w.form, REC_FIELD, a.start, f.end, s, f.to, out);
    Ok(f)
}

// What the field named a binds, n being the token behind its name: behind `:` a binding, else a variable of
// the same name.
#[cycle(binds)]
fn field_bind(
    w: Way,
    text: &[u8],
    a: Token,
    n: Token,
    out: &mut [u8],
    s: Spot,
) -> Result<Part, Refusal>
    ensures { ReadsBound w text.now a n s out.old result out.new }
{
    if n.kind != COLON {
        let to = forms::put_leaf(w.form, REC_VARIABLE, text, a, out, s);
        return Ok(Part {
            to,
            end: a.end,
            next: n,
        });
    }
    let b = parts::behind(w.edition, text, n)?;
    parse_bind(w, text, b, out, s)
}

// The list of bindings that o opens and a token of the kind `close` ends, its items one behind the other
// (parse_comma_list of the Rust); the specification asks for one function a list.
fn bind_list(
    w: Way,
    close: u8,
    text: &[u8],
    o: Token,
    out: &mut [u8],
    s: Spot,
) -> Result<Items, Refusal>
    ensures { ReadsList w text.now (read_bind w.left) close o s out.old result out.new }
{
    let mut i = o.end;
    let mut to = forms::move_by(s, 0);
    let mut count = 0;
    loop {
        match bind_step(w, close, text, o, i, count == 0, out, to)? {
            Step::Closes(q) => {
                return lists::close_list(w.edition, text, q, count, to);
            }
            Step::Last(e, q) => {
                return lists::close_list(w.edition, text, q, lists::count_more(count), e);
            }
            Step::Goes(e, q) => {
                to = e;
                count = lists::count_more(count);
                i = q;
            }
        }
    }
}

// The next binding of that list, if it does not close.
fn bind_step(
    w: Way,
    close: u8,
    text: &[u8],
    o: Token,
    at: usize,
    first: bool,
    out: &mut [u8],
    s: Spot,
) -> Result<Step, Refusal>
    ensures { StepsAt w text.now (read_bind w.left) close o at first s out.old result out.new }
{
    match lists::next_item(w.edition, close, text, at)? {
        Turn::Closes(q) => Ok(Step::Closes(q)),
        Turn::Item(a) => {
            let p = forms::put_between(w.form, first, out, s);
            let t = parse_bind(w, text, a, out, p);
            lists::after_item(close, o, t)
        }
    }
}

// The bindings in brackets, or the one binding, whose first token is a. The levels begin here.
pub fn parse_bind_list(
    w: Way,
    text: &[u8],
    a: Token,
    out: &mut [u8],
    s: Spot,
) -> Result<Part, Refusal>
    ensures { Reads w text.now read_bind_list a s out.old result out.new }
{
    let outermost = Way { left: LEVELS, ..w };
    let i = forms::step_inside(w.form, s);
    let p = forms::put_mark(w.form, b'(', out, i);
    if a.kind != L_PAREN {
        let b = parse_bind(outermost, text, a, out, p)?;
        let c = end_part(w.form, b')', b, out);
        forms::seal(w.form, REC_BIND_LIST, a.start, c.end, s, c.to, out);
        return Ok(c);
    }
    let l = bind_list(outermost, R_PAREN, text, a, out, p)?;
    let c = end_part(w.form, b')', l.part, out);
    forms::seal(w.form, REC_BIND_LIST, a.start, c.end, s, c.to, out);
    Ok(c)
}

// The bindings of a lambda, between the `|` a and the next. The levels begin here.
pub fn parse_lambda_bind_list(
    w: Way,
    text: &[u8],
    a: Token,
    out: &mut [u8],
    s: Spot,
) -> Result<Part, Refusal>
    ensures { Reads w text.now read_lambda_list a s out.old result out.new }
{
    if a.kind != PIPE {
        return Err(parts::unexpected(a));
    }
    let outermost = Way { left: LEVELS, ..w };
    let i = forms::step_inside(w.form, s);
    let p = forms::put_mark(w.form, b'|', out, i);
    let n = bind_list(outermost, PIPE, text, a, out, p)?;
    let to = forms::close_bars(w.form, n.count == 0, out, n.part.to);
    forms::seal(
        w.form,
        REC_LAMBDA_BIND_LIST,
        a.start,
        n.part.end,
        s,
        to,
        out,
    );
    Ok(Part { to, ..n.part })
}
