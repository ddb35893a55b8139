// Pruning: whether the call answers as a line of stored answers says (the crate `replay` describes the lines).
#![tactic(auto)]

ghost use Rattle.std.specs.Prelude.{◌≡◌, ◌≤◌, ◌+◌, length, take};

// The ordinal that the eight hex digits at `at` spell.
fn ordinal_at(word: &[u8], at: usize) -> u32
    requires { at + 8 ≤ length word.now }
{
    let mut bytes: [u8; 4] = [0; 4];
    replay_cases::decode(&word[at..at + 8], &mut bytes);
    little_endian::get_u32(&[bytes[3], bytes[2], bytes[1], bytes[0]], 0)
}

// Puts the ordinals that a word spells, eight hex digits each, at the front of `list`, as many as fit, and answers how many.
fn listed(word: &[u8], list: &mut [u32]) -> usize
    ensures { (result ≤ length list.new) × (result ≡ length (take result list.new)) }
{
    let n = replay_cases::least(word.len() / 8, list.len());
    for i in 0..n {
        list[i] = ordinal_at(word, 8 * i);
    }
    n
}

// Whether the text with only the programs in use and their ancestors is the line's, with an output of the size that it says.
pub fn is_pruned(line: &[u8], text: &[u8], kept: &[u8], out: &mut [u8]) -> bool {
    let mut used = replay_answers::ordinals();
    let u = listed(replay_cases::word(line, 4), &mut used);
    let room = replay_answers::byte_room(replay_cases::word(line, 3), out);
    match prune::prune(text, kept, &used[..u], &mut out[..room]) {
        Err(refusal) => replay_answers::is_refusal(line, 5, refusal.number, refusal.line)
            && replay_cases::is_untouched(out),
        Ok(n) => replay_answers::is_ok(line, 5, 1)
            && replay_answers::is_text(replay_cases::word(line, 6), out, n),
    }
}
