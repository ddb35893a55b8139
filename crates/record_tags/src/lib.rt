// The tags of a line: which are keys, and whether one is among the fields before.
#![tactic(auto)]

ghost use Rattle.std.specs.Prelude.{◌≡◌};
ghost use Rattle.format.specs.Keys.{is_key};
ghost use Rattle.record_tags.specs.Occurs.{occurs};

use format::Kind;

// Whether the tag is a key: VN of HD, SN and LN of SQ, ID of RG and PG.
#[tactic(auto, unfolding(format::specs::Keys::is_key))]
pub fn is_key(kind: Kind, a: u8, b: u8) -> bool
    ensures { result ≡ is_key kind a b }
{
    match kind {
        Kind::Header => field_tag::is_same_tag(a, b, b'V', b'N'),
        Kind::ReferenceSequence => {
            field_tag::is_same_tag(a, b, b'S', b'N') || field_tag::is_same_tag(a, b, b'L', b'N')
        }
        Kind::ReadGroup | Kind::Program => field_tag::is_same_tag(a, b, b'I', b'D'),
        Kind::Comment => false,
    }
}

// Whether a field with the tag `a`, `b` is among the fields `src`. The search starts at the end, so that a tag that comes again and again is found
// soon.
pub fn occurs(src: &[u8], a: u8, b: u8) -> bool
    ensures { result ≡ occurs a b src.now }
{
    for i in (0..src.len().saturating_sub(2)).rev() {
        if src[i] == b'\t' && src[i + 1] == a && src[i + 2] == b {
            return true;
        }
    }
    false
}
