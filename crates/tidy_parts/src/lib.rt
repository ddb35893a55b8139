// The parts of a record's line: its kind, a field, a version.
#![tactic(auto)]

ghost use Rattle.std.specs.Prelude.{◌≡◌, [], ◌∷◌, ◌≤◌, ◌+◌, length, take, drop};
ghost use Rattle.format.specs.Tidy.{field_text};
ghost use Rattle.byte_slices.specs.Over.{over};
ghost use Rattle.accepted.specs.Spelled.{kind₀, kind₁};
ghost use Rattle.tidy_parts.specs.Parts.{prefix_text, version_text};

use format::{Kind, Version};

// The first byte of a kind.
pub fn kind_first(kind: Kind) -> u8
    ensures { result ≡ kind₀ kind }
{
    match kind {
        Kind::Header => b'H',
        Kind::ReferenceSequence => b'S',
        Kind::ReadGroup => b'R',
        Kind::Program => b'P',
        Kind::Comment => b'C',
    }
}

// The second byte of a kind.
pub fn kind_second(kind: Kind) -> u8
    ensures { result ≡ kind₁ kind }
{
    match kind {
        Kind::Header => b'D',
        Kind::ReferenceSequence => b'Q',
        Kind::ReadGroup => b'G',
        Kind::Program => b'G',
        Kind::Comment => b'O',
    }
}

// Writes the `@` and the two bytes of a kind.
pub fn put_prefix(out: &mut [u8], o: usize, kind: Kind) -> usize
    requires { o + 3 ≤ length out.old }
    ensures next { result ≡ o + 3 }
    ensures wrote { out.new ≡ over out.old o (prefix_text kind) }
{
    out[o] = b'@';
    out[o + 1] = kind_first(kind);
    out[o + 2] = kind_second(kind);
    o + 3
}

// Writes what comes before a value: a tab, a tag, a colon.
pub fn put_tag(out: &mut [u8], o: usize, a: u8, b: u8) -> usize
    requires { o + 4 ≤ length out.old }
    ensures next { result ≡ o + 4 }
    ensures wrote { out.new ≡ over out.old o (9 ∷ a ∷ b ∷ 58 ∷ []) }
{
    out[o] = b'\t';
    out[o + 1] = a;
    out[o + 2] = b;
    out[o + 3] = b':';
    o + 4
}

// Writes a field whose value is the `len` bytes of the line from `from` on.
pub fn put_field(
    out: &mut [u8],
    o: usize,
    a: u8,
    b: u8,
    line: &[u8],
    from: usize,
    len: usize,
) -> usize
    requires len_in_bounds { from + len ≤ length line.now }
    requires len_in_bounds_2 { o + 4 + len ≤ length out.old }
    ensures next { result ≡ o + length (field_text a b (take len (drop from line.now))) }
    ensures wrote { out.new ≡ over out.old o (field_text a b (take len (drop from line.now))) }
{
    let n = put_tag(out, o, a, b);
    byte_slices::put_bytes(out, n, &line[from..from + len]);
    n + len
}

// Writes the two numbers of a version with a dot between them.
pub fn put_version(out: &mut [u8], o: usize, v: Version) -> usize
    requires { o + length (version_text v) ≤ length out.old }
    ensures next { result ≡ o + length (version_text v) }
    ensures wrote { out.new ≡ over out.old o (version_text v) }
{
    let major = v.major;
    let minor = v.minor;
    let n = decimal::write_u32(out, o, major);
    out[n] = b'.';
    decimal::write_u32(out, n + 1, minor)
}

// How many bytes the two numbers of a version take with the dot between them.
pub fn version_len(v: Version) -> usize
    ensures { result ≡ length (version_text v) }
{
    let major = v.major;
    let minor = v.minor;
    decimal::len_u64(major as u64) + 1 + decimal::len_u64(minor as u64)
}
