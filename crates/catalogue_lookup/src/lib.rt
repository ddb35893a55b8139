// Finds keys, lengths, lines and fields with a catalogue. No line of the text is parsed again.
#![tactic(auto)]

ghost use Rattle.std.specs.Prelude.{◌≡◌, drop};
ghost use Rattle.catalogue_entries.specs.Entries.{entries_in};
ghost use Rattle.catalogue_lookup.specs.Lookup.{entry_key, entry_length, entry_line, value_in, key_in, length_in, line_in, field_in};
ghost use Rattle.catalogue_lookup.specs.CallAnswers.{KeyTold, LengthTold, LineTold, FieldTold};

use catalogue_entries::{Entry, Place};
use format::LineNo;

// The key in an entry: SN of SQ, ID of RG and PG.
fn key_of(e: Entry) -> Option<Place>
    ensures { result ≡ entry_key e }
{
    match e {
        Entry::ReferenceSequence(p, _, _) => Some(p),
        Entry::ReadGroup(p, _) => Some(p),
        Entry::Program(p, _) => Some(p),
        _ => None,
    }
}

// The LN in an entry.
fn length_of(e: Entry) -> Option<u64>
    ensures { result ≡ entry_length e }
{
    match e {
        Entry::ReferenceSequence(_, n, _) => Some(n),
        _ => None,
    }
}

// The line in an entry of a record. A field has none.
fn line_of(e: Entry) -> Option<LineNo>
    ensures { result ≡ entry_line e }
{
    match e {
        Entry::Header(_, line) => Some(LineNo(line)),
        Entry::ReferenceSequence(_, _, line) => Some(LineNo(line)),
        Entry::ReadGroup(_, line) => Some(LineNo(line)),
        Entry::Program(_, line) => Some(LineNo(line)),
        Entry::Comment(_, line) => Some(LineNo(line)),
        _ => None,
    }
}

// The key of the record with an ordinal among those of a kind. SQ, RG and PG have one.
pub fn find_key(catalogue: &[u8], kind: u8, ordinal: u32) -> Option<Place>
    ensures is { result ≡ key_in kind ordinal (entries_in catalogue.now) }
    ensures answer { KeyTold catalogue.now kind ordinal result }
{
    let at = catalogue_kinds::find_record(catalogue, kind, ordinal as usize);
    key_of(catalogue_entries::entry_at(catalogue, at))
}

// The LN of the SQ with an ordinal.
pub fn find_length(catalogue: &[u8], ordinal: u32) -> Option<u64>
    ensures is { result ≡ length_in ordinal (entries_in catalogue.now) }
    ensures answer { LengthTold catalogue.now ordinal result }
{
    let at = catalogue_kinds::find_record(catalogue, format::REFERENCE_SEQUENCE, ordinal as usize);
    length_of(catalogue_entries::entry_at(catalogue, at))
}

// The line of the record with an ordinal among those of a kind, 1 to 5.
pub fn find_line(catalogue: &[u8], kind: u8, ordinal: u32) -> Option<LineNo>
    ensures is { result ≡ line_in kind ordinal (entries_in catalogue.now) }
    ensures answer { LineTold catalogue.now kind ordinal result }
{
    let at = catalogue_kinds::find_record(catalogue, kind, ordinal as usize);
    line_of(catalogue_entries::entry_at(catalogue, at))
}

// The value in the field entry with a tag, among the entries from `from` on up to the next record's entry.
pub fn field_from(catalogue: &[u8], from: usize, a: u8, b: u8) -> Option<Place>
    ensures { result ≡ value_in a b (entries_in (drop from catalogue.now)) }
{
    let mut at: usize = from;
    loop {
        match catalogue_entries::entry_at(catalogue, at) {
            Entry::Field(x, y, p) => {
                if x == a && y == b {
                    return Some(p);
                }
                at += 11;
            }
            _ => return None,
        }
    }
}

// The value of a field of the record with an ordinal among those of a kind, 1 to 5.
pub fn find_field(catalogue: &[u8], kind: u8, ordinal: u32, a: u8, b: u8) -> Option<Place>
    ensures is { result ≡ field_in kind ordinal a b (entries_in catalogue.now) }
    ensures answer { FieldTold catalogue.now kind ordinal a b result }
{
    if 5 < kind {
        return None;
    }
    let at = catalogue_kinds::find_record(catalogue, kind, ordinal as usize);
    let len = catalogue_entries::size(catalogue_entries::entry_at(catalogue, at));
    field_from(catalogue, at + len, a, b)
}
