// Compares entries of a catalogue with what they should be: first the length, then byte by byte and number by number.
#![tactic(auto)]

ghost use Rattle.std.specs.Prelude.{◌≡◌, ◌∷◌, ◌++◌, ◌≤◌, ◌+◌, length, drop};
ghost use Rattle.format.specs.Bytes.{starts};
ghost use Rattle.format.specs.Catalogue.{little};
ghost use Rattle.catalogue_entries.specs.Entries.{entry_size, entry_bytes};

use catalogue_entries::{Entry, Place};

// Whether two numbers are at `at`, in four bytes each.
fn has_numbers(s: &[u8], at: usize, a: u32, b: u32) -> bool
    requires { at + 8 ≤ length s.now }
    ensures { result ≡ starts (little 4 a ++ little 4 b) (drop at s.now) }
{
    if little_endian::get_u32(s, at) != a {
        return false;
    }
    little_endian::get_u32(s, at + 4) == b
}

// Whether a kind byte is at `at`, and two numbers after it.
fn has_kind(s: &[u8], at: usize, kind: u8, a: u32, b: u32) -> bool
    requires { at + 9 ≤ length s.now }
    ensures { result ≡ starts (kind ∷ little 4 a ++ little 4 b) (drop at s.now) }
{
    if s[at] != kind {
        return false;
    }
    has_numbers(s, at + 1, a, b)
}

// Whether the entry of a record that is not an SQ is at `at`: its kind, two numbers and its line.
fn has_lined(s: &[u8], at: usize, kind: u8, a: u32, b: u32, line: u32) -> bool
    requires { at + 13 ≤ length s.now }
    ensures { result ≡ starts (kind ∷ little 4 a ++ little 4 b ++ little 4 line) (drop at s.now) }
{
    if !has_kind(s, at, kind, a, b) {
        return false;
    }
    little_endian::get_u32(s, at + 9) == line
}

// Whether the entry of an SQ is at `at`: where its name is, its LN and its line.
fn has_sequence(s: &[u8], at: usize, name: Place, n: u64, line: u32) -> bool
    requires { at + 21 ≤ length s.now }
    ensures { result ≡ starts (entry_bytes (Entry.ReferenceSequence name n line)) (drop at s.now) }
{
    if !has_kind(s, at, format::REFERENCE_SEQUENCE, name.at, name.len) {
        return false;
    }
    if little_endian::get_u64(s, at + 9) != n {
        return false;
    }
    little_endian::get_u32(s, at + 17) == line
}

// Whether the entry of a field is at `at`: its tag, and where its value is.
fn has_field(s: &[u8], at: usize, a: u8, b: u8, value: Place) -> bool
    requires { at + 11 ≤ length s.now }
    ensures { result ≡ starts (entry_bytes (Entry.Field a b value)) (drop at s.now) }
{
    if s[at] != 6 {
        return false;
    }
    if s[at + 1] != a {
        return false;
    }
    if s[at + 2] != b {
        return false;
    }
    has_numbers(s, at + 3, value.at, value.len)
}

// Whether the catalogue has the entry of a field at `at`.
pub fn same_field(catalogue: &[u8], at: usize, a: u8, b: u8, value: Place) -> bool
    requires { at ≤ length catalogue.now }
    ensures { result ≡ starts (entry_bytes (Entry.Field a b value)) (drop at catalogue.now) }
{
    if catalogue.len() - at < 11 {
        return false;
    }
    has_field(catalogue, at, a, b, value)
}

// Whether an entry is at `at`, where there are enough bytes for it. `End` has no bytes.
fn has_entry(s: &[u8], at: usize, e: Entry) -> bool
    requires { at + entry_size e ≤ length s.now }
    ensures { result ≡ starts (entry_bytes e) (drop at s.now) }
{
    let kind = catalogue_entries::kind_of(e);
    match e {
        Entry::End => true,
        Entry::Header(v, line) => has_lined(s, at, 1, v.major, v.minor, line),
        Entry::ReferenceSequence(p, n, line) => has_sequence(s, at, p, n, line),
        Entry::ReadGroup(p, line) | Entry::Program(p, line) | Entry::Comment(p, line) => {
            has_lined(s, at, kind, p.at, p.len, line)
        }
        Entry::Field(a, b, p) => has_field(s, at, a, b, p),
    }
}

// Whether the catalogue has an entry at `at`.
pub fn same_entry(catalogue: &[u8], at: usize, e: Entry) -> bool
    requires { at ≤ length catalogue.now }
    ensures { result ≡ starts (entry_bytes e) (drop at catalogue.now) }
{
    if catalogue.len() - at < catalogue_entries::size(e) {
        return false;
    }
    has_entry(catalogue, at, e)
}
