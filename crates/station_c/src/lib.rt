// What a station links: the calls of crates/station under their C names. Each calls the function of its name there
// and states its clauses again, for C. The C header is include/movesig.h.
#![tactic(auto)]

ghost use Rattle.std.specs.Prelude.{◌≡◌, length};
ghost use Rattle.tokens.specs.Answers.{token_number, token_values, comment_number, comment_values};
ghost use Rattle.tokens.specs.Calls.{token_call, next_comment};
ghost use Rattle.grammar.specs.Items.{asked};
ghost use Rattle.calls.specs.Calls.{answered, read_number, read_values, read, read_buffer, displayed, display_number, display_values, display, display_buffer};
ghost use Rattle.carried.specs.Carry.{carry, answer_of, notes_after, carry_number, carry_values};
ghost use Rattle.outline.specs.Outline.{outlined};
ghost use Rattle.outline.specs.Calls.{answered as outline_answer, pending_of, outline_number, outline_values, pending_left, outline_buffer};
ghost use Rattle.saved.specs.Child.{child_in};
ghost use Rattle.saved.specs.Answers.{open_call, child_call, handed_number, handed_values};

#[unsafe(no_mangle)]
pub extern "C" fn movesig_next_token(
    edition: u64,
    text: &[u8],
    at: usize,
    answer: &mut [u64; 6],
) -> u32
    ensures number { result ≡ token_number (token_call edition text.now at).lexed }
    ensures values { answer.new ≡ token_values (token_call edition text.now at).lexed (token_call edition text.now at).feed }
{
    station::movesig_next_token(edition, text, at, answer)
}

#[unsafe(no_mangle)]
pub extern "C" fn movesig_next_comment(
    edition: u64,
    text: &[u8],
    at: usize,
    answer: &mut [u64; 6],
) -> u32
    ensures number { result ≡ comment_number (next_comment edition text.now at) }
    ensures values { answer.new ≡ comment_values (next_comment edition text.now at) }
{
    station::movesig_next_comment(edition, text, at, answer)
}

#[unsafe(no_mangle)]
pub extern "C" fn movesig_read(
    kind: u64,
    edition: u64,
    text: &[u8],
    at: usize,
    out: &mut [u8],
    answer: &mut [u64; 6],
) -> u32
    ensures number { result ≡ read_number (answered text.now (read (asked kind edition text.now at) (length out.old))) }
    ensures values { answer.new ≡ read_values (answered text.now (read (asked kind edition text.now at) (length out.old))) }
    ensures buffer { out.new ≡ read_buffer (asked kind edition text.now at) out.old }
{
    station::movesig_read(kind, edition, text, at, out, answer)
}

#[unsafe(no_mangle)]
pub extern "C" fn movesig_display(
    kind: u64,
    edition: u64,
    text: &[u8],
    at: usize,
    line: &mut [u8],
    answer: &mut [u64; 6],
) -> u32
    ensures number { result ≡ display_number (displayed (display (asked kind edition text.now at) (length line.old))) }
    ensures values { answer.new ≡ display_values (displayed (display (asked kind edition text.now at) (length line.old))) }
    ensures buffer { line.new ≡ display_buffer (asked kind edition text.now at) line.old }
{
    station::movesig_display(kind, edition, text, at, line, answer)
}

#[unsafe(no_mangle)]
pub extern "C" fn movesig_carry(text: &[u8], notes: &mut [usize], answer: &mut [u64; 6]) -> u32
    ensures number { result ≡ carry_number (answer_of (carry text.now notes.old)) }
    ensures values { answer.new ≡ carry_values (answer_of (carry text.now notes.old)) }
    ensures notes { notes.new ≡ notes_after (carry text.now notes.old) notes.old }
{
    station::movesig_carry(text, notes, answer)
}

#[unsafe(no_mangle)]
pub extern "C" fn movesig_outline(
    edition: u64,
    text: &[u8],
    at: usize,
    limit: u64,
    pending: &mut [u64; 3],
    out: &mut [u8],
    answer: &mut [u64; 6],
) -> u32
    ensures number { result ≡ outline_number (outline_answer text.now (outlined edition text.now at limit (pending_of pending.old) (length out.old))) }
    ensures values { answer.new ≡ outline_values (outline_answer text.now (outlined edition text.now at limit (pending_of pending.old) (length out.old))) }
    ensures pending { pending.new ≡ pending_left pending.old (outline_answer text.now (outlined edition text.now at limit (pending_of pending.old) (length out.old))) }
    ensures buffer { out.new ≡ outline_buffer text.now (outlined edition text.now at limit (pending_of pending.old) (length out.old)) out.old }
{
    station::movesig_outline(edition, text, at, limit, pending, out, answer)
}

#[unsafe(no_mangle)]
pub extern "C" fn movesig_open(tree: &[u8], text: &[u8], answer: &mut [u64; 6]) -> u32
    ensures number { result ≡ handed_number (open_call tree.now text.now) }
    ensures values { answer.new ≡ handed_values (open_call tree.now text.now) }
{
    station::movesig_open(tree, text, answer)
}

#[unsafe(no_mangle)]
pub extern "C" fn movesig_child(
    tree: &[u8],
    text: &[u8],
    offset: u64,
    index: u64,
    answer: &mut [u64; 6],
) -> u32
    ensures number { result ≡ handed_number (child_call tree.now text.now offset index) }
    ensures values { answer.new ≡ handed_values (child_call tree.now text.now offset index) }
{
    station::movesig_child(tree, text, offset, index, answer)
}

#[unsafe(no_mangle)]
pub extern "C" fn movesig_opened_child(
    tree: &[u8],
    offset: u64,
    index: u64,
    answer: &mut [u64; 6],
) -> u32
    ensures number { result ≡ 0 }
    ensures values { answer.new ≡ handed_values (child_in tree.now offset index) }
{
    station::movesig_opened_child(tree, offset, index, answer)
}
