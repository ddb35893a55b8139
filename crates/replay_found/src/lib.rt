// The search for a key, and the table of references: whether each call answers as a line of stored answers says (the crate `replay` describes the
// lines).
#![tactic(auto)]

// Whether the ordinal of the record with a key is the line's.
pub fn is_found(line: &[u8], text: &[u8], kept: &[u8]) -> bool {
    let mut key = io::buffer();
    let len = replay_cases::decode(replay_cases::word(line, 4), &mut key);
    let kind = replay_answers::byte_of(replay_cases::word(line, 3));
    match find::find(text, kept, kind, &key[..len]) {
        Err(refusal) => replay_answers::is_refusal(line, 5, refusal.number, refusal.line),
        Ok(ordinal) => replay_answers::is_ok(line, 5, 1)
            && replay_answers::is_number(replay_cases::word(line, 6), ordinal as u64),
    }
}

// Whether the rows and their number are the line's, with a table of the size that it says.
pub fn is_referenced(line: &[u8], text: &[u8], kept: &[u8], table: &mut [u32]) -> bool {
    let room = replay_answers::ordinal_room(replay_cases::word(line, 3), table);
    let rows = replay_cases::number(replay_cases::word(line, 5));
    match references::references(text, kept, &mut table[..room]) {
        Err(refusal) => replay_answers::is_refusal(line, 4, refusal.number, refusal.line)
            && replay_cases::is_unlisted(table),
        Ok(n) => {
            replay_answers::is_ok(line, 4, 2)
                && replay_answers::is_number(replay_cases::word(line, 5), n as u64)
                && replay_answers::is_list(replay_cases::word(line, 6), table, 3 * rows, 8)
        }
    }
}
