// One field of a header line: tag, colon and value, and the numbers in VN of HD and LN of SQ.
#![tactic(auto)]

pub mod value;
pub mod version;

ghost use Rattle.std.specs.Prelude.{◌≡◌, length};
ghost use Rattle.format.specs.Decimal.{span};
ghost use Rattle.format.specs.Fields.{field, value_field, length_field};
ghost use Rattle.format.specs.Version.{version};
ghost use Rattle.byte_slices.specs.Upto.{before};
ghost use Rattle.field_length.specs.Parsed.{parsed_length_of};
ghost use Rattle.field.specs.Parsed.{kept_by, versioned_by, length_field_by, parsed_of};

use field_length::LengthError;
use format::Kind;

// A field of a line, in plain numbers: `major` and `minor` are those of VN of HD, `length` is that of LN of SQ.
#[derive(Clone, Copy, Debug, PartialEq, Eq)]
pub struct ParsedField {
    pub tag_0: u8,
    pub tag_1: u8,
    pub len: usize,
    pub major: u32,
    pub minor: u32,
    pub length: u64,
}

impl ParsedField {
    // A value of `len` bytes that is kept as it is.
    fn kept(a: u8, b: u8, len: usize) -> Self
        ensures { result ≡ kept_by a b len }
    {
        ParsedField {
            tag_0: a,
            tag_1: b,
            len,
            major: 0,
            minor: 0,
            length: 0,
        }
    }
}

// VN of HD, whose value is `src`, or the number of its refusal.
fn parse_version_value(src: &[u8]) -> Result<ParsedField, u8>
    ensures { result ≡ versioned_by (length src.now) (version src.now) }
{
    match version::parse_version(src) {
        Some(version) => Ok(ParsedField {
            major: version.major,
            minor: version.minor,
            ..ParsedField::kept(b'V', b'N', src.len())
        }),
        None => Err(11),
    }
}

// LN of SQ, whose number is at the front of `src`, or the number of its refusal.
fn parse_length_value(src: &[u8]) -> Result<ParsedField, u8>
    ensures { result ≡ length_field_by (parsed_length_of (length_field 0 (span (before 9 src.now)))) }
{
    match field_length::parse_length(src) {
        Ok(number) => Ok(ParsedField {
            length: number.value,
            ..ParsedField::kept(b'L', b'N', number.len)
        }),
        Err(LengthError::Invalid) => Err(12),
        Err(LengthError::Zero) => Err(13),
        Err(LengthError::Long) => Err(27),
    }
}

// Reads what follows the colon of the tag `a`, `b`: the field, or the number of its refusal.
fn parse_field_value(kind: Kind, a: u8, b: u8, src: &[u8]) -> Result<ParsedField, u8>
    ensures { result ≡ parsed_of kind (value_field kind a b 3 (before 9 src.now)) }
{
    if field_tag::is_length(kind, a, b) {
        return parse_length_value(src);
    }
    let len = value::allowed_len(kind, a, b, src);
    if len == 0 {
        return Err(10);
    }
    if field_tag::is_version(kind, a, b) {
        return parse_version_value(&src[..len]);
    }
    Ok(ParsedField::kept(a, b, len))
}

// The field at the front of `src`, which starts after a tab. The field goes up to the next tab or the end. An `Err` is the number of its refusal.
pub fn parse_field(kind: Kind, src: &[u8]) -> Result<ParsedField, u8>
    ensures { result ≡ parsed_of kind (field kind 0 (before 9 src.now)) }
{
    if src.len() < 2 {
        return Err(8);
    }
    let a = src[0];
    let b = src[1];
    if !field_tag::is_tag(a, b) {
        return Err(8);
    }
    if src.len() == 2 {
        return Err(9);
    }
    if src[2] != b':' {
        return Err(9);
    }
    parse_field_value(kind, a, b, &src[3..])
}
