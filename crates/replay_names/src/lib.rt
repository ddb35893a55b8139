// Many names at once: whether the call answers as a line of stored answers says (the crate `replay` describes the lines).
#![tactic(auto)]

// Whether as many slots were looked at as a word says, if it is a number.
fn is_looks(word: &[u8], looks: u64) -> bool {
    byte_slices::same(word, b"-") || replay_answers::is_number(word, looks)
}

// Whether the ordinals of the names, the index and the number of slots looked at are the line's, with a work area and an output of the sizes that it
// says.
pub fn is_names(line: &[u8], text: &[u8], kept: &[u8], work: &mut [u32], out: &mut [u32]) -> bool {
    let mut list = io::buffer();
    let n = replay_cases::decode(replay_cases::word(line, 3), &mut list);
    let slots = replay_answers::ordinal_room(replay_cases::word(line, 4), work);
    let room = replay_answers::ordinal_room(replay_cases::word(line, 5), out);
    match names::names(text, kept, &list[..n], &mut work[..slots], &mut out[..room]) {
        Err(refusal) => {
            replay_answers::is_refusal(line, 6, refusal.number, refusal.line)
                && replay_cases::is_unlisted(work)
                && replay_cases::is_unlisted(out)
        }
        Ok(counted) => {
            replay_answers::is_ok(line, 6, 3)
                && is_looks(replay_cases::word(line, 9), counted.looks)
                && replay_answers::is_list(replay_cases::word(line, 7), out, counted.names, 8)
                && replay_answers::is_list(
                    replay_cases::word(line, 8),
                    work,
                    replay_cases::word(line, 8).len() / 8,
                    8,
                )
        }
    }
}
