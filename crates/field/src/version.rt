// The version in the value of VN: two numbers with a dot between them.
ghost use Rattle.std.specs.Prelude.{◌≡◌, ◌^◌};
ghost use Rattle.format.specs.Decimal.{number};
ghost use Rattle.format.specs.Version.{version};
ghost use Rattle.field.specs.Spelled.{version_side_of, parsed_version_of, VersionTold};

use format::Version;

// The number below 2 ^ 32 that all of `src` is: one side of a version's dot.
fn parse_part(src: &[u8]) -> Option<u32>
    ensures { result ≡ version_side_of (number (2 ^ 32) src.now) }
{
    let number = decimal::read_u32(src).ok()?;
    if number.len != src.len() {
        return None;
    }
    Some(number.value as u32)
}

// The version that all of `src` is, split at its first dot.
pub fn parse_version(src: &[u8]) -> Option<Version>
    ensures is { result ≡ parsed_version_of (version src.now) }
    ensures refusal { VersionTold src.now result }
{
    let dot = byte_slices::upto(src, b'.');
    if dot == src.len() {
        return None;
    }
    let major = parse_part(&src[..dot])?;
    let minor = parse_part(&src[dot + 1..])?;
    Some(Version::new(major, minor))
}
