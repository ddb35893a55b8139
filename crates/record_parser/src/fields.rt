// The fields of a line: what they make, or the refusal of the first field that is wrong.
ghost use Rattle.std.specs.Prelude.{◌≡◌, false, ◌≤◌, ◌+◌, length, drop, replicate};
ghost use Rattle.format.specs.Records.{fielded};
ghost use Rattle.record.specs.Head.{head_of};
ghost use Rattle.record_parser.specs.Marks.{marks_of};

use format::Kind;
use record::{Head, Keys};

// Reads the fields of a line of any kind but CO, from its third byte on, in one walk that looks at each value once. `seen` has the marks of the tags,
// none of them set.
fn walk_fields(
    kind: Kind,
    src: &[u8],
    at: usize,
    strict: bool,
    exact: bool,
    seen: &mut [bool],
) -> Head
    requires in_bounds { 3 ≤ length src.now }
    requires src_bound { at + length src.now ≤ 4294967295 }
    requires seen_value { seen.old ≡ replicate (marks_of exact) false }
    ensures { result ≡ head_of (fielded strict kind (at + 3) (drop 3 src.now)) }
{
    let mut keys = Keys::new();
    let mut pos: usize = 3;
    while pos < src.len() {
        if src[pos] != b'\t' {
            return Head::Refused(6);
        }
        let f = match field::parse_field(kind, &src[pos + 1..]) {
            Ok(f) => f,
            Err(refusal) => return Head::Refused(refusal),
        };
        let mark = super::marks::mark_of(f.tag_0, f.tag_1, exact);
        let again = super::marks::stands_again(&src[3..pos], f.tag_0, f.tag_1, exact, seen[mark]);
        if strict && again {
            return Head::Refused(14);
        }
        seen[mark] = true;
        keys = keys.with(kind, f, at + pos + 4, again);
        pos = pos + 4 + f.len;
    }
    keys.head(kind)
}

// A short line: there are few marks to clear, and if a mark was set before, there is little to search.
fn parse_short(kind: Kind, src: &[u8], at: usize, strict: bool) -> Head
    requires in_bounds { 3 ≤ length src.now }
    requires src_bound { at + length src.now ≤ 4294967295 }
    ensures { result ≡ head_of (fielded strict kind (at + 3) (drop 3 src.now)) }
{
    let mut seen = [false; 64];
    walk_fields(kind, src, at, strict, false, &mut seen)
}

// A long line: each tag has a mark of its own, so nothing has to be searched.
fn parse_long(kind: Kind, src: &[u8], at: usize, strict: bool) -> Head
    requires in_bounds { 3 ≤ length src.now }
    requires src_bound { at + length src.now ≤ 4294967295 }
    ensures { result ≡ head_of (fielded strict kind (at + 3) (drop 3 src.now)) }
{
    let mut seen = [false; 4350];
    walk_fields(kind, src, at, strict, true, &mut seen)
}

// Reads the fields of a line of any kind but CO.
pub fn parse_fields(kind: Kind, src: &[u8], at: usize, strict: bool) -> Head
    requires in_bounds { 3 ≤ length src.now }
    requires src_bound { at + length src.now ≤ 4294967295 }
    ensures { result ≡ head_of (fielded strict kind (at + 3) (drop 3 src.now)) }
{
    if src.len() < 1024 {
        return parse_short(kind, src, at, strict);
    }
    parse_long(kind, src, at, strict)
}
