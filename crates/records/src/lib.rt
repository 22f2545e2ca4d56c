// Trees as records in a lent buffer: `Vec` and `Box` of the Rust's syntax tree.
#![tactic(auto)]

ghost use Rattle.std.specs.Prelude.{◌≡◌, ◌+◌, ◌≤◌, length};
ghost use Rattle.std.proofs.lemmas.List.Edits.{sets};
ghost use Rattle.records.specs.Stored.{little_endian, head_of};
ghost use Rattle.records.specs.code.Narrow.{header};

pub mod kinds;

// Writes a number in W bytes, the low one first, as far as the buffer reaches.
pub fn put_number<const W: u8>(out: &mut [u8], pos: usize, v: usize)
    ensures { out.new ≡ sets out.old pos (little_endian W v) }
{
    if pos < out.len() {
        let mut rest = v;
        for i in 0..usize::from(W) {
            buffer::put(out, pos + i, (rest % 256) as u8);
            rest /= 256;
        }
    }
}

// Writes a number in W bytes that the buffer has.
fn set_number<const W: u8>(out: &mut [u8], pos: usize, v: usize)
    requires { pos + W ≤ length out.old }
    ensures { out.new ≡ sets out.old pos (little_endian W v) }
{
    let mut rest = v;
    for i in 0..usize::from(W) {
        out[pos + i] = (rest % 256) as u8;
        rest /= 256;
    }
}

// Writes the head of a record, its kind in two bytes and the other numbers in W each. Where the buffer has all its
// bytes they are written without a further test.
fn put_head<const W: u8>(
    out: &mut [u8],
    pos: usize,
    len: usize,
    kind: usize,
    start: usize,
    end: usize,
)
    ensures { out.new ≡ sets out.old pos (head_of W len kind start end) }
{
    let w = usize::from(W);
    if pos < out.len() {
        if 2 + 3 * w <= out.len() - pos {
            set_number::<W>(out, pos, len);
            set_number::<2>(out, pos + w, kind);
            set_number::<W>(out, pos + w + 2, start);
            set_number::<W>(out, pos + 2 * w + 2, end);
        } else {
            put_number::<W>(out, pos, len);
            put_number::<2>(out, pos + w, kind);
            put_number::<W>(out, pos + w + 2, start);
            put_number::<W>(out, pos + 2 * w + 2, end);
        }
    }
}

// Writes the head of a record.
pub fn put_header(out: &mut [u8], pos: usize, len: usize, kind: usize, start: usize, end: usize)
    ensures { out.new ≡ sets out.old pos (header len kind start end) }
{
    put_head::<2>(out, pos, len, kind, start, end);
}

// Writes the head of a wide record.
pub fn put_wide_header(
    out: &mut [u8],
    pos: usize,
    len: usize,
    kind: usize,
    start: usize,
    end: usize,
)
    ensures { out.new ≡ sets out.old pos (head_of 4 len kind start end) }
{
    put_head::<4>(out, pos, len, kind, start, end);
}
