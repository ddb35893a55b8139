// Reading, and the calls on program graphs: whether each answers as a line of stored answers says (the crate `replay` describes the lines).
#![tactic(auto)]

// Whether the roots are the line's, with an output of the size that it says.
pub fn is_roots(line: &[u8], text: &[u8], kept: &[u8], out: &mut [u32]) -> bool {
    let room = replay_answers::ordinal_room(replay_cases::word(line, 3), out);
    match programs::roots(text, kept, &mut out[..room]) {
        Err(refusal) => replay_answers::is_refusal(line, 4, refusal.number, refusal.line)
            && replay_cases::is_unlisted(out),
        Ok(n) => replay_answers::is_ok(line, 4, 1)
            && replay_answers::is_list(replay_cases::word(line, 5), out, n, 4),
    }
}

// Whether the leaves and the hops are the line's, with an output of the size that it says.
pub fn is_leaves(line: &[u8], text: &[u8], kept: &[u8], out: &mut [u32]) -> bool {
    let room = replay_answers::ordinal_room(replay_cases::word(line, 3), out);
    match programs::leaves(text, kept, &mut out[..room]) {
        Err(refusal) => replay_answers::is_refusal(line, 4, refusal.number, refusal.line)
            && replay_cases::is_unlisted(out),
        Ok(found) => {
            replay_answers::is_ok(line, 4, 2)
                && replay_answers::is_list(replay_cases::word(line, 5), out, found.leaves, 4)
                && replay_answers::is_number(replay_cases::word(line, 6), found.hops as u64)
        }
    }
}

// Whether the roots are those of noodles-sam.
fn are_roots(word: &[u8], text: &[u8], kept: &[u8], out: &mut [u32]) -> bool {
    match programs::roots(text, kept, out) {
        Err(_) => false,
        Ok(n) => replay_answers::is_list(word, out, n, 4),
    }
}

// Whether the leaves are those of noodles-sam, or it found a cycle and the answer is 23.
fn are_leaves(word: &[u8], text: &[u8], kept: &[u8], out: &mut [u32]) -> bool {
    match programs::leaves(text, kept, out) {
        Err(refusal) => {
            byte_slices::same(word, b"cycle")
                && refusal.number == 23
                && refusal.line.0 == 0
                && replay_cases::is_unlisted(out)
        }
        Ok(found) => replay_answers::is_list(word, out, found.leaves, 4),
    }
}

// Whether roots and leaves are words 3 and 4, with the catalogue in the first `n` bytes of `kept`.
fn is_graph(line: &[u8], text: &[u8], kept: &[u8], n: usize) -> bool {
    if kept.len() < n {
        return false;
    }
    let mut first = replay_answers::ordinals();
    let mut second = replay_answers::ordinals();
    replay_cases::is_untouched(&kept[n..])
        && are_roots(replay_cases::word(line, 3), text, &kept[..n], &mut first)
        && are_leaves(replay_cases::word(line, 4), text, &kept[..n], &mut second)
        && replay_cases::word(line, 5).len() == 0
}

// Whether a text is read, and its roots and leaves are the line's.
pub fn is_read(line: &[u8], text: &[u8], kept: &mut [u8]) -> bool {
    match read::read(text, kept) {
        Err(_) => false,
        Ok(n) => is_graph(line, text, kept, n),
    }
}

// Whether the check refuses `kept` with 21.
fn is_stale(text: &[u8], kept: &[u8]) -> bool {
    match read::check(text, kept) {
        Ok(()) => false,
        Err(refusal) => refusal.number == 21,
    }
}

// Whether the check takes `kept`, and refuses it with another last byte. An empty catalogue has no last byte.
fn is_fresh(text: &[u8], kept: &mut [u8]) -> bool {
    match read::check(text, kept) {
        Ok(()) => {}
        Err(_) => return false,
    }
    if kept.len() == 0 {
        return true;
    }
    let last = kept.len() - 1;
    kept[last] = kept[last] ^ 1;
    is_stale(text, kept)
}

// Whether the first `n` bytes of `kept` are the catalogue that a word says, and the check takes it.
fn is_own(word: &[u8], text: &[u8], kept: &mut [u8], n: usize) -> bool {
    if kept.len() < n {
        return false;
    }
    replay_answers::is_text(word, kept, n) && is_fresh(text, &mut kept[..n])
}

// Whether reading answers as the line says, with an output of the size that it says, and the check takes what was read.
pub fn is_reading(line: &[u8], text: &[u8], kept: &mut [u8]) -> bool {
    let room = replay_answers::byte_room(replay_cases::word(line, 2), kept);
    match read::read(text, &mut kept[..room]) {
        Err(refusal) => replay_answers::is_refusal(line, 3, refusal.number, refusal.line)
            && replay_cases::is_untouched(kept),
        Ok(n) => replay_answers::is_ok(line, 3, 1)
            && is_own(replay_cases::word(line, 4), text, kept, n),
    }
}

// Whether reading refuses a text as noodles-sam does, and writes nothing.
pub fn is_read_refused(line: &[u8], text: &[u8], out: &mut [u8]) -> bool {
    match read::read(text, out) {
        Err(refusal) => replay_answers::is_refusal(line, 1, refusal.number, refusal.line)
            && replay_cases::is_untouched(out),
        Ok(_) => false,
    }
}
