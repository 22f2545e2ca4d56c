// Names and values, laid down in the form that the caller asks for.
#![tactic(auto)]

ghost use Rattle.std.specs.Prelude.{◌≡◌, cond, ◌&&◌, ◌||◌, eqb, Err};
ghost use Rattle.words.specs.Kinds.{Identifier, NumValue, ColonColon};
ghost use Rattle.tokens.specs.Answers.{refusal};
ghost use Rattle.tokens.specs.Refusals.{NoValue};
ghost use Rattle.records.specs.Kinds.{RecName, RecAddress, RecHexString, RecByteString};
ghost use Rattle.grammar.specs.Names.{last_part, third_part, second_part, chain};
ghost use Rattle.grammar.specs.Values.{leaf_kind, address_value, value};
ghost use Rattle.forms.specs.Forms.{laid};
ghost use Rattle.forms.specs.code.Spots.{Placed};
ghost use Rattle.parts.specs.code.Meets.{Reads};
ghost use Rattle.chains.specs.code.Parts.{some_kind, pair_bytes, three_at, address_at, due_at, Reads₂, Reads₃, ReadsBehind};

use forms::Spot;
use parts::{Part, Way};
use records::kinds::{
    REC_ADDRESS, REC_ADDRESS_VALUE, REC_BYTE_STRING, REC_FALSE, REC_HEX_STRING, REC_NAME,
    REC_NUMBER, REC_ONE_PART, REC_PAIR, REC_THREE_PART, REC_TRUE, REC_TWO_PART,
};
use tokens::refusals::{NO_VALUE, UNEXPECTED_TOKEN};
use tokens::{Place, Refusal, Token};
use words::kinds::{
    AT_SIGN, BYTE_STRING_VALUE, COLON_COLON, FALSE, IDENTIFIER, NUM_TYPED_VALUE, NUM_VALUE, TRUE,
};

// Whether a name may begin with a token of this kind.
pub fn is_first(kind: u8) -> bool
    ensures { result ≡ (eqb kind Identifier || eqb kind NumValue) }
{
    kind == IDENTIFIER || kind == NUM_VALUE
}

// The kind of the record of a first part.
fn first_kind(kind: u8) -> usize
    ensures { result ≡ cond (eqb kind Identifier) RecName RecAddress }
{
    if kind == IDENTIFIER {
        return REC_NAME;
    }
    REC_ADDRESS
}

// The refusal of n where `::` was due behind the address a.
fn colons_due(n: Token, a: Token) -> Refusal
    ensures { Err result ≡ due_at n a }
{
    Refusal {
        number: UNEXPECTED_TOKEN,
        place: Place {
            start: n.start,
            end: n.end,
        },
        second: Place {
            start: a.start,
            end: a.end,
        },
    }
}

// Lays down the first two parts of a name as a record of this kind.
fn put_pair(w: Way, kind: usize, text: &[u8], a: Token, b: Token, out: &mut [u8], s: Spot) -> Spot
    ensures { Placed out.old s (pair_bytes w.form kind text.now a b) result out.new }
{
    let i = forms::step_inside(w.form, s);
    let p = forms::put_leaf(w.form, first_kind(a.kind), text, a, out, i);
    let q = forms::put_marks(w.form, b':', b':', out, p);
    let r = forms::put_leaf(w.form, REC_NAME, text, b, out, q);
    forms::seal(w.form, kind, a.start, b.end, s, r, out);
    r
}

// Lays down a name of three parts.
fn put_three(w: Way, text: &[u8], a: Token, b: Token, c: Token, out: &mut [u8], s: Spot) -> Spot
    ensures { Placed out.old s (laid w.form (three_at text.now a b c)) result out.new }
{
    let i = forms::step_inside(w.form, s);
    let p = put_pair(w, REC_PAIR, text, a, b, out, i);
    let q = forms::put_marks(w.form, b':', b':', out, p);
    let r = forms::put_leaf(w.form, REC_NAME, text, c, out, q);
    forms::seal(w.form, REC_THREE_PART, a.start, c.end, s, r, out);
    r
}

// Behind the second `::`, which is d: the third part of a name whose parts are a and b.
fn last_part(
    w: Way,
    text: &[u8],
    a: Token,
    b: Token,
    d: Token,
    out: &mut [u8],
    s: Spot,
) -> Result<Part, Refusal>
    ensures { Reads₃ w text.now last_part a b d s out.old result out.new }
{
    let c = parts::behind(w.edition, text, d)?;
    if c.kind != IDENTIFIER {
        return Err(parts::unexpected(c));
    }
    let to = put_three(w, text, a, b, c, out, s);
    parts::finish(w.edition, text, c.end, to)
}

// Behind the second part b: a third, or the end of the name that a begins.
fn third_part(
    w: Way,
    text: &[u8],
    a: Token,
    b: Token,
    out: &mut [u8],
    s: Spot,
) -> Result<Part, Refusal>
    ensures { Reads₂ w text.now third_part a b s out.old result out.new }
{
    let d = parts::behind(w.edition, text, b)?;
    if d.kind == COLON_COLON {
        return last_part(w, text, a, b, d, out, s);
    }
    let to = put_pair(w, REC_TWO_PART, text, a, b, out, s);
    Ok(Part {
        to,
        end: b.end,
        next: d,
    })
}

// Behind the first `::`, which is d: the second part of a name that a begins.
fn second_part(
    w: Way,
    text: &[u8],
    a: Token,
    d: Token,
    out: &mut [u8],
    s: Spot,
) -> Result<Part, Refusal>
    ensures { Reads₂ w text.now second_part a d s out.old result out.new }
{
    let b = parts::behind(w.edition, text, d)?;
    if b.kind != IDENTIFIER {
        return Err(parts::unexpected(b));
    }
    third_part(w, text, a, b, out, s)
}

// The name whose first token is a, by the token d behind it. Who has read that token already, since it tells
// what else begins with a name, does not read it again.
pub fn name_behind(
    w: Way,
    text: &[u8],
    a: Token,
    d: Token,
    out: &mut [u8],
    s: Spot,
) -> Result<Part, Refusal>
    ensures { ReadsBehind w text.now chain a d s out.old result out.new }
{
    if d.kind == COLON_COLON {
        return second_part(w, text, a, d, out, s);
    }
    if a.kind != IDENTIFIER {
        return Err(colons_due(d, a));
    }
    let to = forms::put_leaf(w.form, REC_ONE_PART, text, a, out, s);
    Ok(Part {
        to,
        end: a.end,
        next: d,
    })
}

// The name whose first token is a.
pub fn parse_name_access_chain(
    w: Way,
    text: &[u8],
    a: Token,
    out: &mut [u8],
    s: Spot,
) -> Result<Part, Refusal>
    ensures { Reads w text.now chain a s out.old result out.new }
{
    if !is_first(a.kind) {
        return Err(parts::unexpected(a));
    }
    let d = parts::behind(w.edition, text, a)?;
    name_behind(w, text, a, d, out, s)
}

// The refusal of the token t, which is no value.
fn no_value(t: Token) -> Refusal
    ensures { result ≡ refusal NoValue t.start t.end }
{
    tokens::refuse(NO_VALUE, t.start, t.end)
}

// The kind of the record of a string whose first byte is b.
fn string_kind(b: u8) -> usize
    ensures { result ≡ cond (eqb b 120) RecHexString RecByteString }
{
    if b == b'x' {
        return REC_HEX_STRING;
    }
    REC_BYTE_STRING
}

// The kind of the record of a token that is a value by itself and begins with b.
#[tactic(auto, unfolding(grammar::specs::Values::leaf_kind))]
fn leaf_kind(kind: u8, b: u8) -> Option<usize>
    ensures { result ≡ some_kind (leaf_kind kind b) }
{
    match kind {
        TRUE => Some(REC_TRUE),
        FALSE => Some(REC_FALSE),
        NUM_VALUE | NUM_TYPED_VALUE => Some(REC_NUMBER),
        BYTE_STRING_VALUE => Some(string_kind(b)),
        _ => None,
    }
}

// Whether a is a number and b is `::`.
fn before_colons(a: u8, b: u8) -> bool
    ensures { result ≡ (eqb a NumValue && eqb b ColonColon) }
{
    a == NUM_VALUE && b == COLON_COLON
}

// Lays down the address b behind the `@` a.
fn put_address(w: Way, text: &[u8], a: Token, b: Token, out: &mut [u8], s: Spot) -> Spot
    ensures { Placed out.old s (laid w.form (address_at text.now a b)) result out.new }
{
    let i = forms::step_inside(w.form, s);
    let p = forms::put_mark(w.form, b'@', out, i);
    let r = forms::put_leaf(w.form, first_kind(b.kind), text, b, out, p);
    forms::seal(w.form, REC_ADDRESS_VALUE, a.start, b.end, s, r, out);
    r
}

// The address behind the `@` a.
fn address_value(w: Way, text: &[u8], a: Token, out: &mut [u8], s: Spot) -> Result<Part, Refusal>
    ensures { Reads w text.now address_value a s out.old result out.new }
{
    let b = parts::behind(w.edition, text, a)?;
    if !is_first(b.kind) {
        return Err(parts::unexpected(b));
    }
    let to = put_address(w, text, a, b, out, s);
    parts::finish(w.edition, text, b.end, to)
}

// The value whose first token is a.
pub fn maybe_parse_value(
    w: Way,
    text: &[u8],
    a: Token,
    out: &mut [u8],
    s: Spot,
) -> Result<Part, Refusal>
    ensures { Reads w text.now value a s out.old result out.new }
{
    if a.kind == AT_SIGN {
        return address_value(w, text, a, out, s);
    }
    let b = classes::byte_at(text, a.start);
    let Some(kind) = leaf_kind(a.kind, b) else {
        return Err(no_value(a));
    };
    let d = parts::behind(w.edition, text, a)?;
    if before_colons(a.kind, d.kind) {
        return Err(no_value(a));
    }
    let to = forms::put_leaf(w.form, kind, text, a, out, s);
    Ok(Part {
        to,
        end: a.end,
        next: d,
    })
}
