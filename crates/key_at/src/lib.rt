// A key or a name, given by its offset in the text. It ends before the first byte below 32, or at the end of the text.
#![tactic(auto)]

ghost use Rattle.std.specs.Prelude.{◌≡◌, false, cond, ◌&&◌, ◌≤◌, ◌+◌, eqb, ltb, length, drop};
ghost use Rattle.format.specs.Bytes.{same, none?};
ghost use Rattle.key_at.specs.Word.{word, same_from};

// Every offset in a text is below this.
pub const OFFSETS: u32 = 16777216;

// Whether a key ends at `at`: there is a byte below 32, or the end of the text.
fn ends(text: &[u8], at: usize) -> bool
    ensures { result ≡ none? (word (drop at text.now)) }
{
    text.len() <= at || text[at] < 32
}

// Whether a key goes on with the byte `b` where the text has `a`. No key goes on with a byte below 32.
fn goes_on(a: u8, b: u8) -> bool
    ensures { result ≡ cond (ltb a 32) false (eqb b a) }
{
    32 <= a && b == a
}

// Whether the eight bytes of a key from `i` on are the eight bytes of the text from `at` on, and none of these ends a key. All eight are always
// looked at, so that the processor can compare them at once.
fn is_same_block(text: &[u8], at: usize, key: &[u8], i: usize) -> bool
    requires at_in_bounds { at + 8 ≤ length text.now }
    requires i_in_bounds { i + 8 ≤ length key.now }
    ensures { same_from key.now i text.now at ≡ (result && same_from key.now (i + 8) text.now (at + 8)) }
{
    let mut all = true;
    for j in 0..8 {
        if !goes_on(text[at + j], key[i + j]) {
            all = false;
        }
    }
    all
}

// How many bytes of a key are in the equal blocks of eight at its front. The bytes after them decide.
fn pass_same(text: &[u8], at: usize, key: &[u8]) -> usize
    requires { at + length key.now ≤ length text.now }
    ensures within { result ≤ length key.now }
    ensures rest { same key.now (word (drop at text.now)) ≡ same_from key.now result text.now (at + result) }
{
    let blocks = key.len() / 8;
    for block in 0..blocks {
        let i = block * 8;
        if !is_same_block(text, at + i, key, i) {
            return i;
        }
    }
    blocks * 8
}

// Whether the key at the offset `at` is `key`: looks first at where it ends, then compares block by block, and then byte by byte.
pub fn is_at(text: &[u8], at: usize, key: &[u8]) -> bool
    requires { at + length key.now ≤ 67108864 }
    ensures { result ≡ same key.now (word (drop at text.now)) }
{
    let end = at + key.len();
    if text.len() < end {
        return key.len() == 0; // after the text there is only the empty key
    }
    if !ends(text, end) {
        return false; // a key that goes on
    }
    for i in pass_same(text, at, key)..key.len() {
        if !goes_on(text[at + i], key[i]) {
            return false;
        }
    }
    true
}
