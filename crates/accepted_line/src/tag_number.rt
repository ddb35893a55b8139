// A number for every tag of a letter and a letter or digit. There are 3,224 such tags, and no two have the same number.
ghost use Rattle.std.specs.Prelude.{◌≡◌};
ghost use Rattle.accepted_line.specs.Number.{byte_number, tag_number};

// The place of a byte of a tag among 62: A to Z, a to z, 0 to 9.
fn place_of(b: u8) -> u8
    ensures { result ≡ byte_number b }
{
    if b'a' <= b {
        return b - 71;
    }
    if b'A' <= b {
        return b - 65;
    }
    b + 4
}

// The number of the tag `a`, `b`: 62 for each letter before `a`, plus the place of `b`.
pub fn tag_number(a: u8, b: u8) -> usize
    ensures { result ≡ tag_number a b }
{
    (place_of(a) as usize) * 62 + (place_of(b) as usize)
}
