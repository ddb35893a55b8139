// The tag of a field: which bytes are a tag, and which kinds and tags have a rule of their own for their values.
#![tactic(auto)]

ghost use Rattle.std.specs.Prelude.{◌≡◌, ◌&&◌, eqb};
ghost use Rattle.format.specs.Bytes.{between};
ghost use Rattle.format.specs.Fields.{is_tag, is_wide};
ghost use Rattle.field_tag.specs.Numbers.{is_version, is_length};

use format::Kind;

// Whether `b` lies between `lo` and `hi`, both included.
#[tactic(auto, unfolding(format::specs::Bytes::between))]
pub fn is_between(lo: u8, hi: u8, b: u8) -> bool
    ensures { result ≡ between lo hi b }
{
    (lo..=hi).contains(&b)
}

// Whether `a`, `b` is a tag: one letter, then a letter or digit.
#[tactic(auto, unfolding(format::specs::Fields::is_tag, format::specs::Bytes::letter, format::specs::Bytes::digit, format::specs::Bytes::between))]
pub fn is_tag(a: u8, b: u8) -> bool
    ensures { result ≡ is_tag a b }
{
    a.is_ascii_alphabetic() && b.is_ascii_alphanumeric()
}

// Whether the tag `a`, `b` is `x`, `y`.
pub fn is_same_tag(a: u8, b: u8, x: u8, y: u8) -> bool
    ensures { result ≡ (eqb a x && eqb b y) }
{
    a == x && b == y
}

// Whether the values of the tag are in UTF-8: DS of SQ, RG and PG, and CL of PG.
#[tactic(auto, unfolding(format::specs::Fields::is_wide))]
pub fn is_wide(kind: Kind, a: u8, b: u8) -> bool
    ensures { result ≡ is_wide kind a b }
{
    match kind {
        Kind::ReferenceSequence | Kind::ReadGroup => is_same_tag(a, b, b'D', b'S'),
        Kind::Program => is_same_tag(a, b, b'D', b'S') || is_same_tag(a, b, b'C', b'L'),
        Kind::Header | Kind::Comment => false,
    }
}

// Whether the tag `a`, `b` is VN of HD.
#[tactic(auto, unfolding(crate::specs::Numbers::is_version))]
pub fn is_version(kind: Kind, a: u8, b: u8) -> bool
    ensures { result ≡ is_version kind a b }
{
    matches!(kind, Kind::Header) && is_same_tag(a, b, b'V', b'N')
}

// Whether the tag `a`, `b` is LN of SQ.
#[tactic(auto, unfolding(crate::specs::Numbers::is_length))]
pub fn is_length(kind: Kind, a: u8, b: u8) -> bool
    ensures { result ≡ is_length kind a b }
{
    matches!(kind, Kind::ReferenceSequence) && is_same_tag(a, b, b'L', b'N')
}
