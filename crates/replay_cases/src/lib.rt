// Cases that are stored in files: their words, numbers and bytes in hex, and a filler that shows what a call has written.
#![tactic(auto)]

ghost use Rattle.std.specs.Prelude.{◌≡◌, ◌<◌, ◌≤◌, ◌+◌, length, take, drop, replicate, eqb};
ghost use Rattle.format.specs.Bytes.{all};
ghost use Rattle.byte_slices.specs.Over.{over};
ghost use Rattle.byte_slices.specs.Upto.{upto};
ghost use Rattle.replay_cases.specs.Cases.{smaller, digit_value, number_from, decoded, decoded_count, from_word, word_in, word_standing};

// What an output of bytes holds before a call.
pub const FILLER: u8 = 0xa5;

// What an output of ordinals holds before a call: no program has this ordinal.
pub const NO_ORDINAL: u32 = 0xa5a5a5a5;

// 131,072 zeros, for a file or a part of one.
pub fn space() -> [u8; 131072]
    ensures { (131072 ≡ length result) × (result ≡ replicate 131072 0) }
{
    [0; 131072]
}

// The smaller of two numbers.
pub fn least(a: usize, b: usize) -> usize
    ensures { (result ≤ a) × (result ≤ b) × (result ≡ smaller a b) }
{
    if a < b { a } else { b }
}

// The value of a digit, decimal or hex, and 0 for any other byte.
fn digit(b: u8) -> u8
    ensures { (result < 16) × (result ≡ digit_value b) }
{
    match b {
        b'0'..=b'9' => b - b'0',
        b'a'..=b'f' => b - b'a' + 10,
        _ => 0,
    }
}

// The number that `s` spells, taken from its last ten digits.
pub fn number(s: &[u8]) -> usize
    ensures { (result < 10000000016) × (result ≡ number_from 0 s.now) }
{
    let mut n: usize = 0;
    for b in s {
        n = n % 1000000000 * 10 + digit(*b) as usize;
    }
    n
}

// Puts the bytes that `hex` spells at the front of `text`, as many as fit, and answers how many.
pub fn decode(hex: &[u8], text: &mut [u8]) -> usize
    ensures within { (result ≤ length text.new) × (result ≡ length (take result text.new)) × (length text.new ≡ length
        text.old) }
    ensures count { result ≡ decoded_count hex.now text.old }
    ensures wrote { text.new ≡ over text.old 0
        (take (decoded_count hex.now text.old) (decoded hex.now)) }
{
    let n = least(hex.len() / 2, text.len());
    for i in 0..n {
        text[i] = digit(hex[2 * i]) * 16 + digit(hex[2 * i + 1]);
    }
    n
}

// Whether no byte has been written over.
pub fn is_untouched(kept: &[u8]) -> bool
    ensures { result ≡ all (eqb 165) kept.now }
{
    for i in 0..kept.len() {
        if FILLER != kept[i] {
            return false;
        }
    }
    true
}

// Whether no ordinal has been written over.
pub fn is_unlisted(list: &[u32]) -> bool
    ensures { result ≡ all (eqb 2779096485) list.now }
{
    for i in 0..list.len() {
        if NO_ORDINAL != list[i] {
            return false;
        }
    }
    true
}

// Where the piece of `s` from `at` on ends: at the next `d`, or at the end.
pub fn until(s: &[u8], at: usize, d: u8) -> usize
    requires { at ≤ length s.now }
    ensures { (at ≤ result) × (result ≤ length s.now) × (result ≡ at + upto d (drop at s.now)) }
{
    at + byte_slices::upto(&s[at..], d)
}

// Where word `k` of a line starts, counted from 0. Words are separated by one space. It is the end of the line if there is no such word.
fn word_start(line: &[u8], k: usize) -> usize
    ensures { (result ≤ length line.now) × (drop result line.now ≡ from_word k line.now) }
{
    let mut at: usize = 0;
    for _ in 0..k {
        at = until(line, at, b' ');
        if at == line.len() {
            return at;
        }
        at += 1;
    }
    at
}

// Word `k` of a line; empty if there is none.
pub fn word(line: &[u8], k: usize) -> &[u8]
    ensures short { length result.now ≤ length line.now }
    ensures value { result.now ≡ word_in k line.now }
    ensures place { result.ref_ptr ≡ word_standing k line.now line.entry.ref_ptr }
{
    let start = word_start(line, k);
    let end = until(line, start, b' ');
    &line[start..end]
}
