// The token program: reads standard input and prints kind, start and end of each token.
#![tactic(auto)]

ghost use Rattle.std.specs.Prelude.{◌≡◌, ℕ, ◌+◌, ◌≤◌, ◌<◌, List, [], ◌++◌, length, take, OnOk, IfSome};
ghost use Rattle.std.specs.Io.KnownBytes.{Appends};
ghost use Rattle.token_program.specs.declared.TheConstants.{LINES_ROOM};
ghost use Rattle.token_program.specs.Printed.{digit, in_decimal, three_line, token_line, refused_line, printed, input_limit, output};
ghost use Rattle.tokens.specs.Walk.{tokens_of};

use std::io;
use std::io::{Read, Write};
use std::marker::Model;
use tokens::refusals::TEXT_TOO_LONG;
use tokens::{Refusal, Token};
use words::kinds::EOF;

// The edition that the program keeps to.
const EDITION: u64 = 1;

// The longest input.
const INPUT_LIMIT: usize = 65535;

// How many bytes are read at most: one more than the longest input has, which suffices to tell a longer one.
const INPUT_ROOM: usize = 65536;

// The most bytes that are printed: 18 for each token of the longest input, and a refusal's 26.
const LINES_ROOM: usize = 1179656;

// The lines that were written, one behind the other. A clause sees their bytes.
#[derive(Drop)]
struct Lines {
    bytes: [u8; LINES_ROOM],
    end: usize,
}

impl Model for Lines {
    ghost Value = { List ℕ };

    ghost view = { λ l. take l.end l.bytes };

    ghost invariant = { λ l. l.end ≤ LINES_ROOM };
}

impl Lines {
    // No lines.
    fn new() -> Self
        ensures { result ≡ [] }
    {
        Lines {
            bytes: [0; LINES_ROOM],
            end: 0,
        }
    }

    // Takes all lines away.
    fn clear(&mut self)
        ensures { self.new ≡ [] }
    {
        self.end = 0;
    }

    // What was written.
    fn as_bytes(&self) -> &[u8]
        ensures { result.now ≡ self.now }
    {
        &self.bytes[..self.end]
    }

    // Writes the bytes behind those that stand there.
    fn put(&mut self, bytes: &[u8])
        requires { length self.old + length bytes.now ≤ LINES_ROOM }
        ensures { self.new ≡ self.old ++ bytes.now }
    {
        let end = self.end + bytes.len();
        self.bytes[self.end..end].copy_from_slice(bytes);
        self.end = end;
    }

    // Writes the digit of n that counts u's, where n reaches it.
    #[tactic(auto, unfolding(crate::specs::Printed::digit))]
    fn put_digit(&mut self, n: usize, u: usize)
        requires unit { 0 < u }
        requires room { length self.old + 1 ≤ LINES_ROOM }
        ensures written { self.new ≡ self.old ++ digit u n }
        ensures upper_bound { length self.new ≤ length self.old + 1 }
    {
        if u <= n {
            self.put(&[b'0' + (n / u % 10) as u8]);
        }
    }

    // Writes n in decimal.
    #[tactic(auto, using(std::proofs::lemmas::List::append_assoc), unfolding(crate::specs::Printed::in_decimal))]
    fn put_decimal(&mut self, n: usize)
        requires { length self.old + 5 ≤ LINES_ROOM }
        ensures written { self.new ≡ self.old ++ in_decimal n }
        ensures upper_bound { length self.new ≤ length self.old + 5 }
    {
        self.put_digit(n, 10000);
        self.put_digit(n, 1000);
        self.put_digit(n, 100);
        self.put_digit(n, 10);
        self.put(&[b'0' + (n % 10) as u8]);
    }

    // Writes three numbers with single blanks, and LF.
    #[tactic(auto, using(std::proofs::lemmas::List::append_assoc), unfolding(crate::specs::Printed::three_line))]
    fn put_line(&mut self, a: usize, b: usize, c: usize)
        requires { length self.old + 18 ≤ LINES_ROOM }
        ensures written { self.new ≡ self.old ++ three_line a b c }
        ensures upper_bound { length self.new ≤ length self.old + 18 }
    {
        self.put_decimal(a);
        self.put(b" ");
        self.put_decimal(b);
        self.put(b" ");
        self.put_decimal(c);
        self.put(b"\n");
    }

    // Writes a token's line.
    #[tactic(auto, unfolding(crate::specs::Printed::token_line))]
    fn put_token(&mut self, t: Token)
        requires { length self.old + 18 ≤ LINES_ROOM }
        ensures written { self.new ≡ self.old ++ token_line t }
        ensures upper_bound { length self.new ≤ length self.old + 18 }
    {
        self.put_line(t.kind as usize, t.start, t.end);
    }

    // Writes a refusal's line.
    #[tactic(auto, using(std::proofs::lemmas::List::append_assoc), unfolding(crate::specs::Printed::refused_line))]
    fn put_refusal(&mut self, r: Refusal)
        requires { length self.old + 26 ≤ LINES_ROOM }
        ensures { self.new ≡ self.old ++ refused_line r }
    {
        self.put(b"refused ");
        self.put_line(r.number as usize, r.place.start, r.place.end);
    }
}

// Writes the lines of all tokens of the text, EOF last, or of a refusal behind those before it.
fn list_tokens(text: &[u8], lines: &mut Lines)
    requires short { length text.now ≤ input_limit }
    requires empty { lines.old ≡ [] }
    ensures { lines.new ≡ printed (tokens_of text.now) }
{
    let mut at: usize = 0;
    loop {
        match tokens::next_token(EDITION, text, at) {
            Ok(t) => {
                lines.put_token(t);
                if t.kind == EOF {
                    return;
                }
                at = t.end;
            }
            Err(r) => {
                lines.put_refusal(r);
                return;
            }
        }
    }
}

// Writes the lines that are printed of the input, in the place of all that stood there.
#[tactic(auto, unfolding(crate::specs::Printed::output))]
fn print_tokens(text: &[u8], lines: &mut Lines)
    ensures { lines.new ≡ output text.now }
{
    lines.clear();
    if INPUT_LIMIT < text.len() {
        lines.put_refusal(tokens::refuse(TEXT_TOO_LONG, 0, 0));
    } else {
        list_tokens(text, lines);
    }
}

// Reads the input, up to INPUT_ROOM bytes of it, and writes what is printed of the whole. A read or a write
// that fails ends it with that error.
fn print_input<R: Read + Drop, W: Write>(mut input: R, out: &mut W) -> io::Result<()>
    ensures { OnOk result (IfSome (R.remaining input)
        (λ text. Appends (W.contents out.old) (W.contents out.new) (output text))) }
{
    let mut text = [0; INPUT_ROOM];
    let n = inputs::read_full(&mut input, &mut text)?;
    let mut lines = Lines::new();
    print_tokens(&text[..n], &mut lines);
    out.write_all(lines.as_bytes())
}

fn main(rt: HostRuntime) -> io::Result<()> {
    print_input(rt.stdin(), &mut rt.stdout())
}
