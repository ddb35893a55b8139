// How long the header at the front of a file or of a stream is: whether the calls answer as a line of stored answers says (the crate `replay`
// describes the lines).
#![tactic(auto)]

use binary_len::{Len, Step};
use format::LineNo;

// Whether the text header at the front of a line's bytes is as long as the line says.
pub fn is_text_len(line: &[u8]) -> bool {
    let mut bytes = io::large_buffer();
    let n = replay_cases::decode(replay_cases::word(line, 1), &mut bytes);
    replay_answers::is_ok(line, 2, 1)
        && replay_answers::is_number(
            replay_cases::word(line, 3),
            text_len::text_len(&bytes[..n]) as u64,
        )
}

// Whether a line says this length of a binary header: `what` is `whole` or `more`.
fn is_len(line: &[u8], what: &[u8], n: usize) -> bool {
    replay_answers::is_ok(line, 2, 2)
        && byte_slices::same(replay_cases::word(line, 3), what)
        && replay_answers::is_number(replay_cases::word(line, 4), n as u64)
}

// Whether a line gives this answer for a binary header.
fn is_answer(line: &[u8], len: Result<Len, u8>) -> bool {
    match len {
        Err(n) => replay_answers::is_refusal(line, 2, n, LineNo(0)),
        Ok(Len::Whole(n)) => is_len(line, b"whole", n),
        Ok(Len::More(n)) => is_len(line, b"more", n),
    }
}

// The answer for some bytes if each call is lent as many bytes as the call before it asked for, with the cursor; the refusal 0 if a call asks for no
// more bytes than it was lent.
fn answer_by_fronts(bytes: &[u8]) -> Result<Len, u8> {
    let mut from = binary_len::first_cursor();
    let mut lent: usize = 0;
    while lent < bytes.len() {
        match binary_len::binary_len_from(&bytes[..lent], from)? {
            Step::Whole(n) => {
                return Ok(Len::Whole(n));
            }
            Step::More(n, next) => {
                if n <= lent {
                    return Err(0);
                }
                from = next;
                lent = replay_cases::least(n, bytes.len());
            }
        }
    }
    binary_len::without_cursor(binary_len::binary_len_from(bytes, from))
}

// Whether the binary header at the front of a line's bytes is as long as the line says.
pub fn is_binary_len(line: &[u8]) -> bool {
    let mut bytes = io::large_buffer();
    let n = replay_cases::decode(replay_cases::word(line, 1), &mut bytes);
    is_answer(line, binary_len::binary_len(&bytes[..n]))
        && is_answer(line, answer_by_fronts(&bytes[..n]))
}
