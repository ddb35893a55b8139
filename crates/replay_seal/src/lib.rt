// Seals: whether the calls answer as a line of stored answers says (the crate `replay` describes the lines).
#![tactic(auto)]

ghost use Rattle.std.specs.Prelude.{◌≡◌, length};

// Tidies a text: answers how many bytes were written, or 0 for a refusal.
fn tidied(text: &[u8], out: &mut [u8]) -> usize
    ensures { length out.new ≡ length out.old }
{
    match tidy::tidy(text, out) {
        Err(_) => 0,
        Ok(n) => n,
    }
}

// Whether a work area, of which a word says how many bytes were lent, is what tidying makes of `own`, which is what that area was before.
fn is_like(text: &[u8], work: &[u8], word: &[u8], own: &mut [u8]) -> bool {
    let room = replay_answers::byte_room(word, own);
    tidied(text, &mut own[..room]);
    byte_slices::same(own, work)
}

// Whether a work area, of which a word says how many bytes were lent, is as tidying leaves it.
fn is_tidied(text: &[u8], work: &[u8], word: &[u8]) -> bool {
    let mut own = replay_answers::bytes();
    is_like(text, work, word, &mut own)
}

// Whether a tidy text has so many bytes.
fn is_long(text: &[u8], n: usize) -> bool {
    let mut own = replay_answers::bytes();
    tidied(text, &mut own) == n
}

// Whether a seal is these bytes in hex.
fn is_digest(word: &[u8], seal: &[u8; 32]) -> bool {
    replay_answers::is_hex(word, &seal[..32])
}

// Whether a seal is as it was.
fn is_unsealed(seal: &[u8; 32]) -> bool {
    replay_cases::is_untouched(&seal[..32])
}

// Whether the seal of a text is the line's, with a work area of the size that it says.
fn is_seal(line: &[u8], text: &[u8], work: &mut [u8]) -> bool {
    let room = replay_answers::byte_room(replay_cases::word(line, 2), work);
    let mut seal: [u8; 32] = [replay_cases::FILLER; 32];
    match seal::seal(text, &mut work[..room], &mut seal) {
        Err(refusal) => {
            replay_answers::is_refusal(line, 3, refusal.number, refusal.line)
                && is_unsealed(&seal)
                && replay_cases::is_untouched(work)
        }
        Ok(n) => {
            replay_answers::is_ok(line, 3, 1)
                && is_digest(replay_cases::word(line, 4), &seal)
                && is_tidied(text, work, replay_cases::word(line, 2))
                && is_long(text, n)
        }
    }
}

// Whether the text of a line has the line's seal.
pub fn is_sealed(line: &[u8]) -> bool {
    let mut text = io::large_buffer();
    let n = replay_cases::decode(replay_cases::word(line, 1), &mut text);
    let mut work = replay_answers::bytes();
    is_seal(line, &text[..n], &mut work)
}

// Whether a work area is as the check of a seal leaves it: 33 comes after the tidy text is written, and any other refusal before.
fn is_left(line: &[u8], text: &[u8], work: &[u8], number: u8) -> bool {
    if number != 33 {
        return replay_cases::is_untouched(work);
    }
    is_tidied(text, work, replay_cases::word(line, 3))
}

// Whether the check of a seal answers as the line says, with a work area of the size that it says.
fn is_check(line: &[u8], text: &[u8], kept: &[u8], seal: &[u8; 32], work: &mut [u8]) -> bool {
    let room = replay_answers::byte_room(replay_cases::word(line, 3), work);
    match seal::check_sealed(text, kept, seal, &mut work[..room]) {
        Err(refusal) => replay_answers::is_refusal(line, 5, refusal.number, refusal.line)
            && is_left(line, text, work, refusal.number),
        Ok(()) => replay_answers::is_ok(line, 5, 0) && is_left(line, text, work, 33),
    }
}

// Whether the check of the line's text, catalogue and seal answers as the line says.
pub fn is_check_sealed(line: &[u8]) -> bool {
    let mut text = io::large_buffer();
    let n = replay_cases::decode(replay_cases::word(line, 1), &mut text);
    let mut kept = io::large_buffer();
    let k = replay_calls::keep(replay_cases::word(line, 2), &text[..n], &mut kept);
    let mut seal: [u8; 32] = [0; 32];
    replay_cases::decode(replay_cases::word(line, 4), &mut seal);
    let mut work = replay_answers::bytes();
    is_check(line, &text[..n], &kept[..k], &seal, &mut work)
}
