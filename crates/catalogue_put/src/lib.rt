// Writes entries of a catalogue into a lent slice.
#![tactic(auto)]

ghost use Rattle.std.specs.Prelude.{◌≡◌, [], ◌∷◌, ◌++◌, ◌≤◌, ◌+◌, length};
ghost use Rattle.format.specs.Catalogue.{little};
ghost use Rattle.byte_slices.specs.Over.{over};
ghost use Rattle.catalogue_entries.specs.Entries.{entry_size, entry_bytes};

use catalogue_entries::{Entry, Place};

// Writes two numbers in four bytes each.
fn put_numbers(out: &mut [u8], at: usize, a: u32, b: u32)
    requires { at + 8 ≤ length out.old }
    ensures { out.new ≡ over out.old at (little 4 a ++ little 4 b) }
{
    little_endian::put_u32(out, at, a);
    little_endian::put_u32(out, at + 4, b);
}

// Writes a kind byte and two numbers after it.
fn put_kind(out: &mut [u8], at: usize, kind: u8, a: u32, b: u32)
    requires { at + 9 ≤ length out.old }
    ensures { out.new ≡ over out.old at (kind ∷ little 4 a ++ little 4 b) }
{
    out[at] = kind;
    put_numbers(out, at + 1, a, b);
}

// Writes the entry of a record that is not an SQ: its kind, two numbers and its line.
fn put_lined(out: &mut [u8], at: usize, kind: u8, a: u32, b: u32, line: u32)
    requires { at + 13 ≤ length out.old }
    ensures { out.new ≡ over out.old at (kind ∷ little 4 a ++ little 4 b ++ little 4 line) }
{
    put_kind(out, at, kind, a, b);
    little_endian::put_u32(out, at + 9, line);
}

// Writes the entry of an SQ: where its name is, its LN and its line.
fn put_sequence(out: &mut [u8], at: usize, name: Place, n: u64, line: u32)
    requires { at + 21 ≤ length out.old }
    ensures { out.new ≡ over out.old at (entry_bytes (Entry.ReferenceSequence name n line)) }
{
    put_kind(out, at, format::REFERENCE_SEQUENCE, name.at, name.len);
    little_endian::put_u64(out, at + 9, n);
    little_endian::put_u32(out, at + 17, line);
}

// Writes the entry of a field: its tag, and where its value is.
pub fn put_field(out: &mut [u8], at: usize, a: u8, b: u8, value: Place)
    requires { at + 11 ≤ length out.old }
    ensures { out.new ≡ over out.old at (entry_bytes (Entry.Field a b value)) }
{
    out[at] = 6;
    out[at + 1] = a;
    out[at + 2] = b;
    put_numbers(out, at + 3, value.at, value.len);
}

// Writes an entry at `at` and returns the place after it. `End` has no bytes.
pub fn put_entry(out: &mut [u8], at: usize, e: Entry) -> usize
    requires { at + entry_size e ≤ length out.old }
    ensures next { result ≡ at + entry_size e }
    ensures wrote { out.new ≡ over out.old at (entry_bytes e) }
{
    let next = at + catalogue_entries::size(e);
    let kind = catalogue_entries::kind_of(e);
    match e {
        Entry::End => {}
        Entry::Header(v, line) => {
            put_lined(out, at, 1, v.major, v.minor, line);
        }
        Entry::ReferenceSequence(p, n, line) => {
            put_sequence(out, at, p, n, line);
        }
        Entry::ReadGroup(p, line) | Entry::Program(p, line) | Entry::Comment(p, line) => {
            put_lined(out, at, kind, p.at, p.len, line);
        }
        Entry::Field(a, b, p) => {
            put_field(out, at, a, b, p);
        }
    }
    next
}
