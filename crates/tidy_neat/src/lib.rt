// Accepted lines that are tidy already: the text of the record is the line and an LF.
#![tactic(auto)]

ghost use Rattle.std.specs.Prelude.{◌≡◌, ◌≤◌, ◌<◌, ◌+◌, length};
ghost use Rattle.tidy_neat.specs.Neat.{has_tag, plain_length, neat, named_sequence, ready};

use format::Kind;

// Whether the tag `a`, `b` comes after `i`, where a tab is known to be.
fn has_tag(src: &[u8], i: usize, a: u8, b: u8) -> bool
    requires { i ≤ length src.now }
    ensures { result ≡ has_tag src.now i a b }
{
    if src.len() - i < 3 {
        return false;
    }
    if src[i + 1] == a {
        return src[i + 2] == b;
    }
    false
}

// Whether the field from the tab at `i` on is an LN with no leading zero.
fn is_plain_length(src: &[u8], i: usize) -> bool
    requires { i ≤ length src.now }
    ensures { result ≡ plain_length src.now i }
{
    if !has_tag(src, i, b'L', b'N') {
        return false;
    }
    if src.len() - i < 5 {
        return false;
    }
    src[i + 4] != b'0'
}

// Whether SN comes first, and then LN.
fn is_reference_sequence(src: &[u8]) -> bool
    requires { 3 ≤ length src.now }
    ensures { result ≡ neat Kind.ReferenceSequence src.now }
{
    if !has_tag(src, 3, b'S', b'N') {
        return false;
    }
    is_plain_length(src, 4 + byte_slices::upto(&src[4..], b'\t'))
}

// Whether an accepted line of `kind` that repeats no tag has its keys first and no leading zeros. It is false for an HD, which is written part by part.
pub fn is_neat(kind: Kind, src: &[u8]) -> bool
    requires { 3 ≤ length src.now }
    ensures { result ≡ neat kind src.now }
{
    match kind {
        Kind::Header => false,
        Kind::ReferenceSequence => is_reference_sequence(src),
        Kind::ReadGroup | Kind::Program => has_tag(src, 3, b'I', b'D'),
        Kind::Comment => true,
    }
}

// Whether SN comes first with a name that can be written, and then LN. The name is walked over once.
fn is_named_sequence(src: &[u8]) -> bool
    requires { 7 ≤ length src.now }
    ensures { result ≡ named_sequence src.now }
{
    if !has_tag(src, 3, b'S', b'N') {
        return false;
    }
    let n = tidy_name::name_len(&src[7..]);
    if n == 0 {
        return false;
    }
    if !is_plain_length(src, 7 + n) {
        return false;
    }
    src[7 + n] == b'\t'
}

// Whether an accepted line of `kind` that repeats no tag is tidy already and can be written.
pub fn is_ready(kind: Kind, src: &[u8]) -> bool
    requires { 7 ≤ length src.now }
    ensures { result ≡ ready kind src.now }
{
    match kind {
        Kind::ReferenceSequence => is_named_sequence(src),
        _ => is_neat(kind, src),
    }
}
