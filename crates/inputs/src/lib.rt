// Reading an input into a lent buffer. Nothing is allocated, and what does not fit is left in the input.
#![tactic(auto)]

ghost use Rattle.std.specs.Prelude.{◌≡◌, min, length, take, IfOk, IfSome};
ghost use Rattle.std.specs.Io.{ReadsAtMost};
ghost use Rattle.std.specs.Io.KnownBytes.{Consumes};

use std::io;
use std::io::Read;

// Reads until buf is full, the input ends or a read fails, and answers how many bytes it put at the start
// of buf. A read that fails ends it with that error, also one that a signal interrupted; how many bytes were
// read before it is then not told. On an empty buf it reads nothing.
// A loop, since no method of std states this: `read_exact` does not tell how many bytes a shorter input had,
// `read_to_end` takes memory for a `Vec`, and both read on after an interruption.
pub fn read_full<R: Read>(input: &mut R, buf: &mut [u8]) -> io::Result<usize>
    ensures bound { ReadsAtMost result buf.new }
    ensures count { IfOk result (λ n. IfSome (R.remaining input.old) (λ xs. n ≡ min (length buf.new) (length xs))) }
    ensures bytes { IfOk result (λ n. IfSome (R.remaining input.old) (λ xs. take n buf.new ≡ take (length buf.new) xs)) }
    ensures rest { IfOk result (λ n. Consumes (R.remaining input.old) (R.remaining input.new) (take n buf.new)) }
{
    let mut done = 0;
    while done < buf.len() {
        let n = input.read(&mut buf[done..])?;
        if n == 0 {
            return Ok(done);
        }
        done += n;
    }
    Ok(done)
}
