// The fields of an accepted line other than its keys, each tag at its first place with its last value: writes or measures them.
#![tactic(auto)]

ghost use Rattle.std.specs.Prelude.{◌≡◌, not, ◌&&◌, [], ◌∷◌, ◌++◌, ◌≤◌, ◌<◌, ◌+◌, length, get_or};
ghost use Rattle.format.specs.Bytes.{none?};
ghost use Rattle.byte_slices.specs.Over.{over};
ghost use Rattle.format.specs.Keys.{is_key};
ghost use Rattle.accepted_line.specs.Run.{AtField};
ghost use Rattle.accepted_line.specs.Next.{is_first};
ghost use Rattle.accepted_line.specs.Tables.{Walkable};
ghost use Rattle.tidy_fields.specs.Others.{others_text};

use format::Kind;

// Whether the field at `i` is not a key and is the first with its tag.
fn is_other(kind: Kind, line: &[u8], at: usize, i: usize, tables: &[u32]) -> bool
    requires walkable { Walkable at line.now tables.now }
    requires at_field { AtField (none? tables.now) at line.now i }
    requires i_in_bounds { i < length line.now }
    requires line_bound { at + length line.now ≤ 16777216 }
    ensures { result ≡ not (is_key kind (get_or line.now (i + 1) 0) (get_or line.now (i + 2) 0)) && is_first at line.now i }
{
    if record_tags::is_key(kind, line[i + 1], line[i + 2]) {
        return false;
    }
    accepted_line::fields::is_first_of_tag(line, at, i, tables)
}

// Writes the fields of an accepted line other than its keys, each tag at its first place with its last value, and the LF that ends the record.
pub fn put_rest(
    out: &mut [u8],
    o: usize,
    kind: Kind,
    line: &[u8],
    at: usize,
    tables: &[u32],
) -> usize
    requires walkable { Walkable at line.now tables.now }
    requires line_bound { at + length line.now ≤ 16777216 }
    requires line_in_bounds { o + length (others_text kind at line.now) + 1 ≤ length out.old }
    ensures next { result ≡ o + length (others_text kind at line.now ++ (10 ∷ [])) }
    ensures wrote { out.new ≡ over out.old o (others_text kind at line.now ++ (10 ∷ [])) }
{
    let mut n = o;
    let mut i: usize = 3;
    while i < line.len() {
        let end = accepted_line::fields::field_end(line, i);
        let a = line[i + 1];
        let b = line[i + 2];
        if is_other(kind, line, at, i, tables) {
            let v = accepted_line::fields::kept_value(line, at, i, end, tables);
            n = tidy_parts::put_field(out, n, a, b, line, v.at - at, v.len);
        }
        i = end;
    }
    out[n] = b'\n'; // after the last field
    n + 1
}

// How many bytes the other fields of an accepted line take, from its tables.
pub fn other_fields_len(kind: Kind, line: &[u8], at: usize, tables: &[u32]) -> usize
    requires walkable { Walkable at line.now tables.now }
    requires line_bound { at + length line.now ≤ 16777216 }
    ensures { result ≡ length (others_text kind at line.now) }
{
    let mut n: usize = 0;
    let mut i: usize = 3;
    while i < line.len() {
        let end = accepted_line::fields::field_end(line, i);
        if is_other(kind, line, at, i, tables) {
            let v = accepted_line::fields::kept_value(line, at, i, end, tables);
            n = n + 4 + v.len;
        }
        i = end;
    }
    n
}
