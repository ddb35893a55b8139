// Answers that are stored in files: whether a number, bytes, ordinals or a refusal are the ones in a line.
#![tactic(auto)]

ghost use Rattle.std.specs.Prelude.{◌≡◌, ◌&&◌, ◌<◌, ◌≤◌, ◌+◌, ◌/◌, ◌%◌, length, take, get_or, replicate, eqb};
ghost use Rattle.format.specs.Bytes.{same};
ghost use Rattle.format.specs.Decimal.{written};
ghost use Rattle.replay_cases.specs.Cases.{smaller, number_from};
ghost use Rattle.replay_answers.specs.Answers.{hex_digit, hex_word, text_is, refusal_is, ok_is};

use format::LineNo;

// Whether `s` is `n` in decimal, without leading zeros.
pub fn is_number(s: &[u8], n: u64) -> bool
    ensures { result ≡ same s.now (written n) }
{
    let mut digits = [0u8; 20];
    let len = decimal::write_u64(&mut digits, 0, n);
    byte_slices::same(s, &digits[..len])
}

// The hex digit of a value below 16.
fn letter(n: u8) -> u8
    requires { n < 16 }
    ensures { result ≡ hex_digit n }
{
    if n < 10 {
        return b'0' + n;
    }
    87 + n
}

// Whether the two digits at `at` are those of a byte.
fn is_pair(s: &[u8], at: usize, b: u8) -> bool
    requires { at + 2 ≤ length s.now }
    ensures { result ≡ (eqb (get_or s.now at 0) (hex_digit (b / 16)) && eqb (get_or s.now (at + 1) 0) (hex_digit (b % 16))) }
{
    if s[at] != letter(b / 16) {
        return false;
    }
    s[at + 1] == letter(b % 16)
}

// Whether `s` is these bytes in hex, `-` for none.
pub fn is_hex(s: &[u8], bytes: &[u8]) -> bool
    ensures { result ≡ same s.now (hex_word bytes.now) }
{
    if bytes.len() == 0 {
        return byte_slices::same(s, b"-");
    }
    if s.len() % 2 != 0 {
        return false;
    }
    if s.len() / 2 != bytes.len() {
        return false;
    }
    for (i, b) in bytes.iter().enumerate() {
        if !is_pair(s, 2 * i, *b) {
            return false;
        }
    }
    true
}

// Whether the `width` digits at `at` are those of a number, the highest first.
fn is_wide(s: &[u8], at: usize, width: usize, n: u32) -> bool
    requires { at + width ≤ length s.now }
{
    let mut rest = n;
    for i in (0..width).rev() {
        if s[at + i] != letter((rest % 16) as u8) {
            return false;
        }
        rest /= 16;
    }
    rest == 0
}

// Whether `s` is these ordinals in hex, `width` digits each, `-` for none.
fn is_ordinals(s: &[u8], list: &[u32], width: usize) -> bool {
    if list.len() == 0 {
        return byte_slices::same(s, b"-");
    }
    let mut at: usize = 0;
    for n in list {
        if s.len() - at < width || !is_wide(s, at, width, *n) {
            return false;
        }
        at += width;
    }
    at == s.len()
}

// Whether the first `n` ordinals of an output are these, `width` digits each, and the others are as they were.
pub fn is_list(word: &[u8], out: &[u32], n: usize, width: usize) -> bool {
    if out.len() < n {
        return false;
    }
    is_ordinals(word, &out[..n], width) && replay_cases::is_unlisted(&out[n..])
}

// Whether the first `n` bytes of an output are these and the others are as they were.
pub fn is_text(word: &[u8], out: &[u8], n: usize) -> bool
    ensures { result ≡ text_is word.now out.now n }
{
    if out.len() < n {
        return false;
    }
    if !is_hex(word, &out[..n]) {
        return false;
    }
    replay_cases::is_untouched(&out[n..])
}

// An output of bytes, as it is before a call.
pub fn bytes() -> [u8; 65536]
    ensures { (65536 ≡ length result) × (result ≡ replicate 65536 165) }
{
    [replay_cases::FILLER; 65536]
}

// An output of ordinals, as it is before a call.
pub fn ordinals() -> [u32; 2048]
    ensures { (2048 ≡ length result) × (result ≡ replicate 2048 2779096485) }
{
    [replay_cases::NO_ORDINAL; 2048]
}

// A number in a line as a byte; 255 if it is larger.
pub fn byte_of(word: &[u8]) -> u8
    ensures { result ≡ smaller (number_from 0 word.now) 255 }
{
    replay_cases::least(replay_cases::number(word), 255) as u8
}

// A number in a line as an ordinal; the largest ordinal if it is larger.
pub fn ordinal_of(word: &[u8]) -> u32
    ensures { result ≡ smaller (number_from 0 word.now) 4294967295 }
{
    replay_cases::least(replay_cases::number(word), 4294967295) as u32
}

// How many bytes of an output a line lends: as many as a word says, at most all.
pub fn byte_room(word: &[u8], out: &[u8]) -> usize
    ensures { (result ≤ length out.now) × (result ≡ length (take result out.now))
        × (result ≡ smaller (number_from 0 word.now) (length out.now)) }
{
    replay_cases::least(replay_cases::number(word), out.len())
}

// How many ordinals of an output a line lends: as many as a word says, at most all.
pub fn ordinal_room(word: &[u8], out: &[u32]) -> usize
    ensures { (result ≤ length out.now) × (result ≡ length (take result out.now))
        × (result ≡ smaller (number_from 0 word.now) (length out.now)) }
{
    replay_cases::least(replay_cases::number(word), out.len())
}

// Whether the answer at word `at` is this refusal.
pub fn is_refusal(line: &[u8], at: usize, n: u8, no: LineNo) -> bool
    requires { at < 8 }
    ensures { result ≡ refusal_is line.now at n no.0 }
{
    if !byte_slices::same(replay_cases::word(line, at), b"refused") {
        return false;
    }
    if !is_number(replay_cases::word(line, at + 1), n as u64) {
        return false;
    }
    if !is_number(replay_cases::word(line, at + 2), no.0 as u64) {
        return false;
    }
    replay_cases::word(line, at + 3).len() == 0
}

// Whether the answer at word `at` is `ok` and `n` more words.
pub fn is_ok(line: &[u8], at: usize, n: usize) -> bool
    requires { (at < 8) × (n < 4) }
    ensures { result ≡ ok_is line.now at n }
{
    if !byte_slices::same(replay_cases::word(line, at), b"ok") {
        return false;
    }
    replay_cases::word(line, at + n + 1).len() == 0
}
