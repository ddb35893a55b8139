// The entries of a catalogue, one at a time.
#![tactic(auto)]

ghost use Rattle.std.specs.Prelude.{◌≡◌, ◌≤◌, ◌+◌, length, drop};
ghost use Rattle.catalogue_entries.specs.Entries.{kind_byte, kind_size, entry_size, version_from, place_from, entry_with, entry_of};

use format::Version;

// Where a piece of the text is. The numbers have 32 bits because a catalogue stores them so; everywhere else such a place is a `record::Stretch`.
#[derive(Clone, Copy)]
pub struct Place {
    pub at: u32,
    pub len: u32,
}

// What is at a place of a catalogue. An entry of a record ends with the record's line. `End` also stands for anything that is not an entry.
#[derive(Clone, Copy)]
pub enum Entry {
    End,
    Header(Version, u32),
    ReferenceSequence(Place, u64, u32),
    ReadGroup(Place, u32),
    Program(Place, u32),
    Comment(Place, u32),
    Field(u8, u8, Place),
}

// The kind byte of an entry; 0 for `End`.
#[tactic(auto, unfolding(crate::specs::Entries::kind_byte))]
pub fn kind_of(e: Entry) -> u8
    ensures { result ≡ kind_byte e }
{
    match e {
        Entry::End => 0,
        Entry::Header(_, _) => 1,
        Entry::ReferenceSequence(_, _, _) => format::REFERENCE_SEQUENCE,
        Entry::ReadGroup(_, _) => format::READ_GROUP,
        Entry::Program(_, _) => format::PROGRAM,
        Entry::Comment(_, _) => 5,
        Entry::Field(_, _, _) => 6,
    }
}

// How long an entry of a kind is, including its kind byte; 0 if there is no such kind.
fn kind_size(kind: u8) -> usize
    ensures { result ≡ kind_size kind }
{
    match kind {
        1 => 13,
        format::REFERENCE_SEQUENCE => 21,
        format::READ_GROUP => 13,
        format::PROGRAM => 13,
        5 => 13,
        6 => 11,
        _ => 0,
    }
}

// How long an entry is.
pub fn size(e: Entry) -> usize
    ensures { result ≡ entry_size e }
{
    kind_size(kind_of(e))
}

// The version in the eight bytes at `at`: major, then minor.
fn version_at(s: &[u8], at: usize) -> Version
    requires { at + 8 ≤ length s.now }
    ensures { result ≡ version_from (drop at s.now) }
{
    let major = little_endian::get_u32(s, at);
    let minor = little_endian::get_u32(s, at + 4);
    Version { major, minor }
}

// The place in the eight bytes at `at`: offset, then length.
fn place_at(s: &[u8], at: usize) -> Place
    requires { at + 8 ≤ length s.now }
    ensures { result ≡ place_from (drop at s.now) }
{
    let offset = little_endian::get_u32(s, at);
    let len = little_endian::get_u32(s, at + 4);
    Place { at: offset, len }
}

// The entry of a kind at `at`. Its body comes after the kind byte.
fn body_at(s: &[u8], at: usize, kind: u8) -> Entry
    requires { at + kind_size kind ≤ length s.now }
    ensures { result ≡ entry_with kind (drop (at + 1) s.now) }
{
    match kind {
        1 => Entry::Header(version_at(s, at + 1), little_endian::get_u32(s, at + 9)),
        format::REFERENCE_SEQUENCE => Entry::ReferenceSequence(
            place_at(s, at + 1),
            little_endian::get_u64(s, at + 9),
            little_endian::get_u32(s, at + 17),
        ),
        format::READ_GROUP => Entry::ReadGroup(
            place_at(s, at + 1),
            little_endian::get_u32(s, at + 9),
        ),
        format::PROGRAM => Entry::Program(place_at(s, at + 1), little_endian::get_u32(s, at + 9)),
        5 => Entry::Comment(place_at(s, at + 1), little_endian::get_u32(s, at + 9)),
        6 => Entry::Field(s[at + 1], s[at + 2], place_at(s, at + 3)),
        _ => Entry::End,
    }
}

// The entry at `at`: `End` if nothing is left, the kind is unknown, or the body is too short.
pub fn entry_at(catalogue: &[u8], at: usize) -> Entry
    ensures { result ≡ entry_of (drop at catalogue.now) }
{
    if catalogue.len() <= at {
        return Entry::End;
    }
    let kind = catalogue[at];
    if catalogue.len() - at < kind_size(kind) {
        return Entry::End;
    }
    body_at(catalogue, at, kind)
}
