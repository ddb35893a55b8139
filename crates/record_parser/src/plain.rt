// The line of most references: SQ with the fields SN and LN in this order, and no other. It is recognised whole; any other line is walked field by field.
ghost use Rattle.std.specs.Prelude.{◌≡◌, true, ◌≤◌, ◌+◌, length, drop};
ghost use Rattle.format.specs.Records.{fielded};
ghost use Rattle.format.specs.declared.Kind.TheVariants.{ReferenceSequence};
ghost use Rattle.record.specs.Head.{head_of};
ghost use Rattle.record_parser.specs.Plain.{TagAt, LengthTold, PlainTold};

use format::Kind;
use record::{Head, Stretch};

// How many bytes the name of such a line has, and the length of its sequence.
#[derive(Clone, Copy)]
pub struct Plain {
    pub name_len: usize,
    pub length: u64,
}

// Whether a tab, the tag of `a` and N, and a colon are at the place `at`.
fn has_tag_at(src: &[u8], at: usize, a: u8) -> bool
    requires { at ≤ length src.now }
    ensures { result ≡ true → TagAt src.now at a }
{
    if src.len() - at < 4 {
        return false;
    }
    if src[at] != b'\t' {
        return false;
    }
    if src[at + 1] != a {
        return false;
    }
    if src[at + 2] != b'N' {
        return false;
    }
    src[at + 3] == b':'
}

// The length that all of `src` spells: none for bytes that are not digits alone, and for a length that is refused. The largest is 2,147,483,647; one digit
// more after a number above a tenth of it is always too much.
fn whole_length(src: &[u8]) -> Option<u64>
    ensures { LengthTold src.now result }
{
    let mut n: u64 = 0;
    for b in src {
        if *b < b'0' || b'9' < *b || 214748364 < n {
            return None;
        }
        n = n * 10 + (*b - b'0') as u64;
    }
    if n == 0 || 2147483647 < n {
        return None;
    }
    Some(n)
}

// The parts of a line of SQ whose fields are SN and LN alone; none of any other line, perhaps a wrong one. No tag is repeated in such a line, so it is
// accepted under either rule for those.
pub fn parse_plain(src: &[u8]) -> Option<Plain>
    requires { 3 ≤ length src.now }
    ensures { PlainTold src.now result }
{
    if !field_tag::is_between(b'0', b'9', src[src.len() - 1]) {
        return None; // most lines with another field are told by their last byte
    }
    if !has_tag_at(src, 3, b'S') {
        return None;
    }
    let name_len = field::value::value_len(&src[7..]);
    if name_len == 0 {
        return None;
    }
    if !has_tag_at(src, 7 + name_len, b'L') {
        return None;
    }
    let length = whole_length(&src[11 + name_len..])?;
    Some(Plain { name_len, length })
}

// The fields of a line of SQ.
pub fn parse_reference(src: &[u8], at: usize, strict: bool) -> Head
    requires in_bounds { 3 ≤ length src.now }
    requires src_bound { at + length src.now ≤ 4294967295 }
    ensures { result ≡ head_of (fielded strict ReferenceSequence (at + 3) (drop 3 src.now)) }
{
    let Some(plain) = parse_plain(src) else {
        return super::fields::parse_fields(Kind::ReferenceSequence, src, at, strict);
    };
    let name = Stretch {
        at: at + 7,
        len: plain.name_len,
    };
    Head::ReferenceSequence(name, plain.length, 0)
}
