// Walks over the fields of an accepted line: which field is the first with its tag, and the last value of each tag.
ghost use Rattle.std.specs.Prelude.{◌≡◌, true, false, ◌||◌, List, ◌≤◌, ◌<◌, ◌+◌, length, drop, replicate};
ghost use Rattle.format.specs.Bytes.{none?};
ghost use Rattle.format.specs.Fields.{is_tag};
ghost use Rattle.byte_slices.specs.Stands.{Each};
ghost use Rattle.byte_slices.specs.Upto.{upto};
ghost use Rattle.accepted_line.specs.Run.{AtField, fields_from};
ghost use Rattle.accepted_line.specs.Next.{is_first, value_at, kept_at, last_in};
ghost use Rattle.accepted_line.specs.Tables.{HasTag, spread, marked, noted, Noted, Walkable};

use record::Stretch;

// Where the field that starts with the tab at `i` ends.
pub fn field_end(line: &[u8], i: usize) -> usize
    requires { i < length line.now }
    ensures { result ≡ i + 1 + upto 9 (drop (i + 1) line.now) }
{
    i + 1 + byte_slices::upto(&line[i + 1..], b'\t')
}

// The value of the field from the tab at `i` up to `end`, in a line at the offset `at`.
pub fn value_at(at: usize, i: usize, end: usize) -> Stretch
    requires { (i + 4 ≤ end) × (at + end ≤ 4294967295) }
    ensures { result ≡ value_at at i end }
{
    Stretch {
        at: at + i + 4,
        len: end - (i + 4),
    }
}

// Whether the tags of the accepted line at the offset `at` have different marks out of 112. If they do, no tag is repeated. So few marks are quickly
// cleared, and no two tags that the SAM specification has for one kind share a mark.
fn is_spread(line: &[u8], at: usize) -> bool
    requires at_field { AtField false at line.now 3 }
    requires line_bound { at + length line.now ≤ 4294967295 }
    ensures { result ≡ spread (replicate 112 false) (fields_from at line.now 3) }
{
    let mut seen = [false; 112];
    let mut i: usize = 3;
    while i < line.len() {
        let end = field_end(line, i);
        let n = super::tag_number::tag_number(line[i + 1], line[i + 2]) % 112;
        if seen[n] {
            return false;
        }
        seen[n] = true;
        i = end;
    }
    true
}

// Whether the accepted line at the offset `at` is known to repeat no tag: because that is forbidden, or because its tags have different marks.
pub fn is_once(line: &[u8], at: usize, strict: bool) -> bool
    requires at_field { AtField strict at line.now 3 }
    requires line_bound { at + length line.now ≤ 4294967295 }
    ensures { result ≡ strict || spread (replicate 112 false) (fields_from at line.now 3) }
{
    strict || is_spread(line, at)
}

// Notes that a field whose tag has the number `n` is at the offset `place`.
fn note_tag(tables: &mut [u32], n: usize, place: u32)
    requires { (n < 3224) × (length tables.old ≡ 6448) }
    ensures { tables.new ≡ marked tables.old n place }
{
    if tables[n] == 0 {
        tables[n] = place;
    }
    tables[3224 + n] = place;
}

// Notes where each tag of the accepted line at the offset `at` occurs first and last.
pub fn note_tags(line: &[u8], at: usize, tables: &mut [u32])
    requires at_field { AtField false at line.now 3 }
    requires each { Each HasTag (fields_from at line.now 3) }
    requires line_bound { at + length line.now ≤ 4294967295 }
    requires tables_len { length tables.old ≡ 6448 }
    ensures { tables.new ≡ noted tables.old (at + 3) (fields_from at line.now 3) }
{
    let mut i: usize = 3;
    while i < line.len() {
        let end = field_end(line, i);
        note_tag(
            tables,
            super::tag_number::tag_number(line[i + 1], line[i + 2]),
            (at + i) as u32,
        );
        i = end;
    }
}

// The last value of the tag `a`, `b`, from the tables of the line.
fn noted_value(line: &[u8], at: usize, a: u8, b: u8, tables: &[u32]) -> Stretch
    requires at_field { AtField false at line.now 3 }
    requires noted { Noted at line.now tables.now }
    requires b_value { is_tag a b ≡ true }
    requires line_bound { at + length line.now ≤ 4294967295 }
    ensures { result ≡ last_in at line.now a b }
{
    let place = tables[3224 + super::tag_number::tag_number(a, b)] as usize;
    if place == 0 {
        return Stretch { at: 0, len: 0 };
    }
    let i = place - at;
    value_at(at, i, field_end(line, i))
}

// Whether it is known that no tag is repeated in a line that is walked with these tables: then there are none.
fn has_no_repeat(tables: &[u32]) -> bool
    ensures { result ≡ none? tables.now }
{
    tables.is_empty()
}

// Whether the field at `i` is the first with its tag. It is if no tag is repeated.
pub fn is_first_of_tag(line: &[u8], at: usize, i: usize, tables: &[u32]) -> bool
    requires walkable { Walkable at line.now tables.now }
    requires at_field { AtField (none? tables.now) at line.now i }
    requires i_in_bounds { i < length line.now }
    requires line_bound { at + length line.now ≤ 4294967295 }
    ensures { result ≡ is_first at line.now i }
{
    if has_no_repeat(tables) {
        return true;
    }
    tables[super::tag_number::tag_number(line[i + 1], line[i + 2])] as usize == at + i
}

// The last value of the tag of the field from `i` up to `end`. It is the field's own value if no tag is repeated.
pub fn kept_value(line: &[u8], at: usize, i: usize, end: usize, tables: &[u32]) -> Stretch
    requires walkable { Walkable at line.now tables.now }
    requires at_field { AtField (none? tables.now) at line.now i }
    requires i_in_bounds { (i < length line.now) × (end ≡ i + 1 + upto 9 (drop (i + 1) line.now)) }
    requires line_bound { at + length line.now ≤ 4294967295 }
    ensures { result ≡ kept_at at line.now i end }
{
    if has_no_repeat(tables) {
        return value_at(at, i, end);
    }
    noted_value(line, at, line[i + 1], line[i + 2], tables)
}

// The first value of the tag `a`, `b` in a line that repeats no tag.
fn only_value(line: &[u8], at: usize, a: u8, b: u8) -> Stretch
    requires at_field { AtField true at line.now 3 }
    requires line_bound { at + length line.now ≤ 4294967295 }
    ensures { result ≡ last_in at line.now a b }
{
    let mut i: usize = 3;
    while i < line.len() {
        let end = field_end(line, i);
        if field_tag::is_same_tag(line[i + 1], line[i + 2], a, b) {
            return value_at(at, i, end);
        }
        i = end;
    }
    Stretch { at: 0, len: 0 }
}

// The last value of the tag `a`, `b` in the accepted line at the offset `at`.
pub fn find_value(line: &[u8], at: usize, a: u8, b: u8, tables: &[u32]) -> Stretch
    requires walkable { Walkable at line.now tables.now }
    requires b_value { is_tag a b ≡ true }
    requires line_bound { at + length line.now ≤ 4294967295 }
    ensures { result ≡ last_in at line.now a b }
{
    if has_no_repeat(tables) {
        return only_value(line, at, a, b);
    }
    noted_value(line, at, a, b, tables)
}
