// The calls that answer one number, place or value, and the catalogue that a call is asked about: whether each answers as a line of stored answers
// says (the crate `replay` describes the lines).
#![tactic(auto)]

ghost use Rattle.std.specs.Prelude.{◌≡◌, ◌≤◌, length, take};

// Puts the catalogue that a word names to the front of `kept` and answers its length: `=` is the text's own.
pub fn keep(word: &[u8], text: &[u8], kept: &mut [u8]) -> usize
    ensures { (result ≤ length kept.new) × (result ≡ length (take result kept.new)) × (length kept.new ≡ length kept.old) }
{
    if !byte_slices::same(word, b"=") {
        return replay_cases::decode(word, kept);
    }
    match read::read(text, kept) {
        Err(_) => 0,
        Ok(n) => replay_cases::least(n, kept.len()),
    }
}

// Whether the count is the line's.
pub fn is_count(line: &[u8], text: &[u8], kept: &[u8]) -> bool {
    match calls::count(
        text,
        kept,
        replay_answers::byte_of(replay_cases::word(line, 3)),
    ) {
        Err(refusal) => replay_answers::is_refusal(line, 4, refusal.number, refusal.line),
        Ok(n) => replay_answers::is_ok(line, 4, 1)
            && replay_answers::is_number(replay_cases::word(line, 5), n as u64),
    }
}

// Whether the place of a key is the line's.
pub fn is_key(line: &[u8], text: &[u8], kept: &[u8]) -> bool {
    let kind = replay_answers::byte_of(replay_cases::word(line, 3));
    match calls::key(
        text,
        kept,
        kind,
        replay_answers::ordinal_of(replay_cases::word(line, 4)),
    ) {
        Err(refusal) => replay_answers::is_refusal(line, 5, refusal.number, refusal.line),
        Ok(place) => {
            replay_answers::is_ok(line, 5, 2)
                && replay_answers::is_number(replay_cases::word(line, 6), place.at as u64)
                && replay_answers::is_number(replay_cases::word(line, 7), place.len as u64)
        }
    }
}

// Whether an LN is the line's, compared by its decimal digits.
pub fn is_length(line: &[u8], text: &[u8], kept: &[u8]) -> bool {
    match calls::length(
        text,
        kept,
        replay_answers::ordinal_of(replay_cases::word(line, 3)),
    ) {
        Err(refusal) => replay_answers::is_refusal(line, 4, refusal.number, refusal.line),
        Ok(n) => replay_answers::is_ok(line, 4, 1)
            && replay_answers::is_number(replay_cases::word(line, 5), n),
    }
}

// Whether the line of a record is the one that the stored line says.
pub fn is_line(line: &[u8], text: &[u8], kept: &[u8]) -> bool {
    let kind = replay_answers::byte_of(replay_cases::word(line, 3));
    match calls::line(
        text,
        kept,
        kind,
        replay_answers::ordinal_of(replay_cases::word(line, 4)),
    ) {
        Err(refusal) => replay_answers::is_refusal(line, 5, refusal.number, refusal.line),
        Ok(no) => replay_answers::is_ok(line, 5, 1)
            && replay_answers::is_number(replay_cases::word(line, 6), no.0 as u64),
    }
}

// Whether a field, or the stand-in, is the line's.
pub fn is_field(line: &[u8], text: &[u8], kept: &[u8]) -> bool {
    let mut tag = io::buffer();
    replay_cases::decode(replay_cases::word(line, 5), &mut tag);
    let mut stand_in = io::buffer();
    let n = replay_cases::decode(replay_cases::word(line, 6), &mut stand_in);
    let kind = replay_answers::byte_of(replay_cases::word(line, 3));
    let ordinal = replay_answers::ordinal_of(replay_cases::word(line, 4));
    let value = calls::field(text, kept, kind, ordinal, tag[0], tag[1], &stand_in[..n]);
    replay_answers::is_hex(replay_cases::word(line, 7), value)
        && replay_cases::word(line, 8).len() == 0
}
