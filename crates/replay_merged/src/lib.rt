// Judging merges: whether the call answers as a line of stored answers says (the crate `replay` describes the lines).
#![tactic(auto)]

ghost use Rattle.std.specs.Prelude.{◌≡◌, ◌≤◌, ◌<◌, ◌+◌, length, take};

use format::Refusal;
use merge_judge::{MergeRefusal, Verdict, Which};

// The number in two bytes, the high one first.
fn pair(high: u8, low: u8) -> u32
    ensures { result < 65536 }
{
    high as u32 * 256 + low as u32
}

// The number in the four bytes at `at`, the highest first.
fn ordinal(bytes: &[u8], at: usize) -> u32
    requires { at + 4 ≤ length bytes.now }
{
    pair(bytes[at], bytes[at + 1]) * 65536 + pair(bytes[at + 2], bytes[at + 3])
}

// Puts the ordinals that a word spells, eight digits each, at the front of a list, as many as fit, and answers how many.
fn put_list(word: &[u8], list: &mut [u32]) -> usize
    ensures { (result ≤ length list.new) × (result ≡ length (take result list.new)) }
{
    let mut bytes = io::large_buffer();
    let n = replay_cases::decode(word, &mut bytes) / 4;
    let count = replay_cases::least(n, list.len());
    for i in 0..count {
        list[i] = ordinal(&bytes, 4 * i);
    }
    count
}

// Whether the answer of a line is a refusal with this number, line and text.
fn is_refusal(line: &[u8], refusal: Refusal, about: &[u8]) -> bool {
    byte_slices::same(replay_cases::word(line, 6), b"refused")
        && replay_answers::is_number(replay_cases::word(line, 7), refusal.number as u64)
        && replay_answers::is_number(replay_cases::word(line, 8), refusal.line.0 as u64)
        && byte_slices::same(replay_cases::word(line, 9), about)
        && replay_cases::word(line, 10).len() == 0
}

// Whether the verdict is the line's.
fn is_verdict(line: &[u8], verdict: Verdict) -> bool {
    match verdict {
        Ok(()) => replay_answers::is_ok(line, 6, 0),
        Err(MergeRefusal::Unfit(which, refusal)) => match which {
            Which::A => is_refusal(line, refusal, b"A"),
            Which::B => is_refusal(line, refusal, b"B"),
            Which::Merged => is_refusal(line, refusal, b"M"),
        },
        Err(MergeRefusal::Unmerged(n)) => is_refusal(line, Refusal::of_text(n), b"-"),
    }
}

// Whether the lists of a line are judged as it says, with these three texts.
fn is_judged(line: &[u8], a: &[u8], b: &[u8], m: &[u8]) -> bool {
    let mut list_a: [u32; 2048] = [0; 2048];
    let k = put_list(replay_cases::word(line, 4), &mut list_a);
    let mut list_b: [u32; 2048] = [0; 2048];
    let n = put_list(replay_cases::word(line, 5), &mut list_b);
    is_verdict(
        line,
        merge_judge::judge_merge(a, b, m, &list_a[..k], &list_b[..n]),
    )
}

// Whether the merge of a line is judged as it says.
pub fn is_merged(line: &[u8]) -> bool {
    let mut a = io::large_buffer();
    let i = replay_cases::decode(replay_cases::word(line, 1), &mut a);
    let mut b = io::large_buffer();
    let j = replay_cases::decode(replay_cases::word(line, 2), &mut b);
    let mut m = io::large_buffer();
    let k = replay_cases::decode(replay_cases::word(line, 3), &mut m);
    is_judged(line, &a[..i], &b[..j], &m[..k])
}
