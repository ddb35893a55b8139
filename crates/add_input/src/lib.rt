// What a caller gives to add programs: a prefix for the IDs, and fields as in the body of a PG line, each with its leading tab. A tag that is given
// twice is refused under every header, whatever the header's rule for repeated tags.
#![tactic(auto)]

ghost use Rattle.std.specs.Prelude.{◌≡◌, not, ◌||◌};
ghost use Rattle.format.specs.Fields.{is_value, last_of};
ghost use Rattle.format.specs.Adding.{given, misformed};
ghost use Rattle.record_tags.specs.Occurs.{occurs};
ghost use Rattle.format.specs.Keys.{is_key};
ghost use Rattle.add_input.specs.Given.{marred, given_of};

use format::Kind;
use record::Stretch;

// Whether all of `src` is one value. A tab ends a value.
fn is_value(src: &[u8]) -> bool
    ensures { result ≡ is_value src.now }
{
    let len = field::value::value_len(src);
    if len == 0 {
        return false;
    }
    len == src.len()
}

// Whether the tag `a`, `b` may not follow the fields `src`: it is ID, or these fields have it.
fn is_barred(src: &[u8], a: u8, b: u8) -> bool
    ensures { result ≡ is_key Kind.Program a b || occurs a b src.now }
{
    if record_tags::is_key(Kind::Program, a, b) {
        return true;
    }
    record_tags::occurs(src, a, b)
}

// Whether something is wrong with the fields: they are not in PG form, ID is among them, or a tag comes twice.
fn is_marred(fields: &[u8]) -> bool
    ensures { result ≡ marred (given fields.now) }
{
    let mut pos: usize = 0;
    while pos < fields.len() {
        if fields[pos] != b'\t' {
            return true;
        }
        let Ok(f) = field::parse_field(Kind::Program, &fields[pos + 1..]) else {
            return true;
        };
        if is_barred(&fields[..pos], f.tag_0, f.tag_1) {
            return true;
        }
        pos = pos + 4 + f.len;
    }
    false
}

// Whether the prefix is a value and the fields are in PG form, without an ID and without a repeated tag.
pub fn is_in_form(prefix: &[u8], fields: &[u8]) -> bool
    ensures { result ≡ not (misformed prefix.now (given fields.now)) }
{
    is_value(prefix) && !is_marred(fields)
}

// Where the value of the given PP is in the given fields, if one is given.
pub fn find_previous(fields: &[u8]) -> Option<Stretch>
    requires { (given fields.now).stop ≡ 0 }
    ensures { result ≡ given_of (last_of 80 80 (given fields.now).fields) }
{
    let mut last = None;
    let mut pos: usize = 0;
    while pos < fields.len() {
        let end = pos + 1 + byte_slices::upto(&fields[pos + 1..], b'\t');
        if field_tag::is_same_tag(fields[pos + 1], fields[pos + 2], b'P', b'P') {
            let at = pos + 4;
            last = Some(Stretch { at, len: end - at });
        }
        pos = end;
    }
    last
}
