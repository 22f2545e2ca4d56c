// Writing into a lent buffer. A write past its end changes nothing, so that a dry run, over no buffer
// at all, is the same call.
#![tactic(auto)]

ghost use Rattle.std.specs.Prelude.{◌≡◌, set};
ghost use Rattle.std.proofs.lemmas.List.Edits.{sets};

// Writes b at pos, where the buffer reaches it. The contract of `get_mut` does not say that the buffer stays as it
// is where there is no such byte, so the length is tested here.
pub fn put(out: &mut [u8], pos: usize, b: u8)
    ensures { out.new ≡ set out.old pos b }
{
    if pos < out.len() {
        out[pos] = b;
    }
}

// Copies bytes to the front of the buffer, as many as it has room for. By `copy_from_slice` the display of one long
// name took 16 % more instructions, and those of short names 1 % fewer.
pub fn copy(out: &mut [u8], from: &[u8])
    ensures { out.new ≡ sets out.old 0 from.now }
{
    for i in 0..out.len().min(from.len()) {
        out[i] = from[i];
    }
}
