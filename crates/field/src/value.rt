// The value of a field: how many bytes up to the next tab are one. Its bytes are space to tilde, or characters in UTF-8.
ghost use Rattle.std.specs.Prelude.{◌≡◌, leb, length, drop, ◌+◌, ◌*◌, ◌/◌, ◌≤◌};
ghost use Rattle.format.specs.Bytes.{printable};
ghost use Rattle.format.specs.Fields.{is_value, is_wide_value, allows};
ghost use Rattle.byte_slices.specs.Upto.{before};
ghost use Rattle.byte_slices.specs.Run.{run};
ghost use Rattle.field.specs.Taken.{taken_of};

use format::Kind;

// A byte that may be in a value: space to tilde.
#[tactic(auto, unfolding(format::specs::Bytes::printable, format::specs::Bytes::between))]
fn is_printable(b: u8) -> bool
    ensures { result ≡ printable b }
{
    matches!(b, b' '..=b'~')
}

// Whether all 8 bytes of `s` from `at` on may be in a value. All 8 are always looked at, so that the processor can compare them at once.
fn is_printable_block(s: &[u8], at: usize) -> bool
    requires { at + 8 ≤ length s.now }
    ensures { result ≡ leb 8 (run printable (drop at s.now)) }
{
    let mut fine = true;
    let mut i: usize = 0;
    while i < 8 {
        if !is_printable(s[at + i]) {
            fine = false;
        }
        i += 1;
    }
    fine
}

// How many bytes are in the blocks of 8 at the front of `s` that come before the one with the first byte that may not be in a value.
fn pass_printable(s: &[u8]) -> usize
    ensures { result ≡ run printable s.now / 8 * 8 }
{
    let mut at: usize = 0;
    while 8 <= s.len() - at {
        if !is_printable_block(s, at) {
            return at;
        }
        at += 8;
    }
    at
}

// How many bytes the value at the front of `src` has, up to the next tab or the end; 0 if that is not a value.
pub fn value_len(src: &[u8]) -> usize
    ensures { result ≡ taken_of is_value (before 9 src.now) }
{
    for i in pass_printable(src)..src.len() {
        let b = src[i];
        if b == b'\t' {
            return i;
        }
        if !is_printable(b) {
            return 0;
        }
    }
    src.len()
}

// The same for a value in UTF-8: goes over blocks of 8 bytes that may be in any value, and then over the characters after them.
fn wide_value_len(src: &[u8]) -> usize
    ensures { result ≡ taken_of is_wide_value (before 9 src.now) }
{
    let start = pass_printable(src);
    let end = start + byte_slices::upto(&src[start..], b'\t');
    if utf8::is_whole(&src[start..end]) {
        return end;
    }
    0
}

// How many bytes the value of a field with the tag `a`, `b` has; 0 if it is not a value.
pub fn allowed_len(kind: Kind, a: u8, b: u8, src: &[u8]) -> usize
    ensures { result ≡ taken_of (allows kind a b) (before 9 src.now) }
{
    if field_tag::is_wide(kind, a, b) {
        return wide_value_len(src);
    }
    value_len(src)
}
