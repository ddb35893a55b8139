// One line of a header: its record, or its refusal.
#![tactic(auto)]

pub mod fields;
pub mod marks;
pub mod plain;

ghost use Rattle.std.specs.Prelude.{◌≡◌, ◌≤◌, ◌+◌, length, drop};
ghost use Rattle.format.specs.Bytes.{any};
ghost use Rattle.format.specs.Records.{line, prefixed, body, remark, breaks};
ghost use Rattle.record.specs.Head.{head_of, has_fields};

use format::Kind;
use record::{Head, Stretch};
use record_kind::KindError;

// Whether `src` has an LF or a CR.
fn has_break(src: &[u8]) -> bool
    ensures { result ≡ any breaks src.now }
{
    byte_slices::upto(src, b'\n') < src.len() || byte_slices::upto(src, b'\r') < src.len()
}

// Reads a CO: one tab, then any bytes or none.
fn parse_comment(src: &[u8], at: usize) -> Head
    requires in_bounds { 3 ≤ length src.now }
    requires src_bound { at + length src.now ≤ 4294967295 }
    ensures { result ≡ head_of (remark (at + 3) (drop 3 src.now)) }
{
    if src.len() == 3 {
        return Head::Refused(7);
    }
    if src[3] != b'\t' {
        return Head::Refused(6);
    }
    let place = Stretch {
        at: at + 4,
        len: src.len() - 4,
    };
    Head::Comment(place)
}

// Reads what follows the kind bytes.
fn parse_value(kind: Kind, src: &[u8], at: usize, strict: bool) -> Head
    requires in_bounds { 3 ≤ length src.now }
    requires src_bound { at + length src.now ≤ 4294967295 }
    ensures { result ≡ head_of (body strict kind (at + 3) (drop 3 src.now)) }
{
    match kind {
        Kind::Comment => parse_comment(src, at),
        Kind::ReferenceSequence => plain::parse_reference(src, at, strict),
        Kind::Header | Kind::ReadGroup | Kind::Program => fields::parse_fields(
            kind, src, at, strict,
        ),
    }
}

// Reads a line in which LF and CR are bytes like any other.
fn parse_bytes(src: &[u8], at: usize, strict: bool) -> Head
    requires { at + length src.now ≤ 4294967295 }
    ensures { result ≡ head_of (prefixed strict at src.now) }
{
    if !byte_slices::leads(src, b'@') {
        return Head::Refused(3);
    }
    match record_kind::parse_kind(&src[1..]) {
        Ok(kind) => parse_value(kind, src, at, strict),
        Err(KindError::Empty) => Head::Refused(4),
        Err(KindError::Invalid) => Head::Refused(5),
    }
}

// Whether a head is that of accepted fields. Such a line has no LF and no CR.
#[tactic(auto, unfolding(record::specs::Head::has_fields))]
fn has_fields(head: Head) -> bool
    ensures { result ≡ has_fields head }
{
    !matches!(head, Head::Refused(_) | Head::Comment(_))
}

// Reads a line without its ending, which starts at the offset `at`: answers its record, or why it is refused. `strict` forbids repeated tags.
pub fn parse_record(src: &[u8], at: usize, strict: bool) -> Head
    requires { at + length src.now ≤ 4294967295 }
    ensures { result ≡ head_of (line strict (record { at = at; bytes = src.now })) }
{
    let head = parse_bytes(src, at, strict);
    if has_fields(head) {
        return head;
    }
    if has_break(src) {
        return Head::Refused(2);
    }
    head
}
