// Compares the fields of two accepted PG lines: all but ID and PP, each tag with its last value, in order.
#![tactic(auto)]

ghost use Rattle.std.specs.Prelude.{◌≡◌, ◌≤◌, ◌+◌, length};
ghost use Rattle.format.specs.Bytes.{none?};
ghost use Rattle.accepted_line.specs.Run.{AtField};
ghost use Rattle.accepted_line.specs.Tables.{Walkable};
ghost use Rattle.format.specs.Merge.{same_field, keeps_fields};
ghost use Rattle.program_lines.specs.Line.{FieldsOf};
ghost use Rattle.merge_fields.specs.Kept.{is_passed, kept_from, told_field, told_fields, NextInLine};

// A field: its tag, where its value is in the line, and where the field after it starts.
#[derive(Clone, Copy)]
struct NextField {
    first: u8,
    second: u8,
    from: usize,
    len: usize,
    next: usize,
}

// Whether a field is passed over: ID or PP.
fn is_passed(a: u8, b: u8) -> bool
    ensures { result ≡ is_passed a b }
{
    if field_tag::is_same_tag(a, b, b'I', b'D') {
        return true;
    }
    field_tag::is_same_tag(a, b, b'P', b'P')
}

// The first field from the place `start` on that is neither ID nor PP and is the first with its tag, with the last value of that tag, if any is left.
fn next_field(line: &[u8], at: usize, start: usize, tables: &[u32]) -> Option<NextField>
    requires walkable { Walkable at line.now tables.now }
    requires at_field { AtField (none? tables.now) at line.now start }
    requires line_bound { at + length line.now ≤ 16777216 }
    ensures list { kept_from at line.now start ≡ told_fields at line.now result }
    ensures place { NextInLine (none? tables.now) at line.now start result }
{
    let mut i = start;
    while i < line.len() {
        let end = accepted_line::fields::field_end(line, i);
        let first = line[i + 1];
        let second = line[i + 2];
        if !is_passed(first, second) {
            if accepted_line::fields::is_first_of_tag(line, at, i, tables) {
                let v = accepted_line::fields::kept_value(line, at, i, end, tables);
                return Some(NextField {
                    first,
                    second,
                    from: v.at - at,
                    len: v.len,
                    next: end,
                });
            }
        }
        i = end;
    }
    None
}

// Whether two fields have the same tag and value.
fn same_field(a: &[u8], f: NextField, b: &[u8], g: NextField) -> bool
    requires len_in_bounds { f.from + f.len ≤ length a.now }
    requires len_in_bounds_2 { g.from + g.len ≤ length b.now }
    ensures { result ≡ same_field (told_field 0 a.now f) (told_field 0 b.now g) }
{
    if !field_tag::is_same_tag(g.first, g.second, f.first, f.second) {
        return false;
    }
    let from = f.from;
    let to = from + f.len;
    let start = g.from;
    let end = start + g.len;
    byte_slices::same(&a[from..to], &b[start..end])
}

// Whether two lines have the same fields, by a walk over both. Each starts at an offset of its own text.
fn same_walks(
    a: &[u8],
    at_a: usize,
    tables_a: &[u32],
    b: &[u8],
    at_b: usize,
    tables_b: &[u32],
) -> bool
    requires walkable { Walkable at_a a.now tables_a.now }
    requires a_bound { at_a + length a.now ≤ 16777216 }
    requires walkable_2 { Walkable at_b b.now tables_b.now }
    requires b_bound { at_b + length b.now ≤ 16777216 }
    ensures { result ≡ keeps_fields (kept_from at_a a.now 3) (kept_from at_b b.now 3) }
{
    let mut i: usize = 3;
    let mut j: usize = 3;
    while let Some(f) = next_field(a, at_a, i, tables_a) {
        let Some(g) = next_field(b, at_b, j, tables_b) else {
            return false;
        };
        if !same_field(a, f, b, g) {
            return false;
        }
        i = f.next;
        j = g.next;
    }
    next_field(b, at_b, j, tables_b).is_none()
}

// The same, if the tables of the second line still have to be made. It stands apart from `same_fields`, since one function for both lines would clear
// 50 KiB of tables at each call, also where no line needs them.
fn same_as_line(a: &[u8], at_a: usize, tables: &[u32], b: &[u8], at_b: usize, strict: bool) -> bool
    requires walkable { Walkable at_a a.now tables.now }
    requires a_bound { at_a + length a.now ≤ 16777216 }
    requires fields_of { FieldsOf strict at_b b.now }
    ensures { result ≡ keeps_fields (kept_from at_a a.now 3) (kept_from at_b b.now 3) }
{
    if accepted_line::fields::is_once(b, at_b, strict) {
        return same_walks(a, at_a, tables, b, at_b, &[]);
    }
    let mut tables_b = [0u32; 6448];
    accepted_line::fields::note_tags(b, at_b, &mut tables_b);
    same_walks(a, at_a, tables, b, at_b, &tables_b)
}

// Whether two accepted PG lines have the same fields in the same order, apart from ID and PP. Each line is at an offset of its own text, and `strict`
// is the rule of that text for repeated tags.
pub fn same_fields(
    a: &[u8],
    at_a: usize,
    strict_a: bool,
    b: &[u8],
    at_b: usize,
    strict_b: bool,
) -> bool
    requires fields_of { FieldsOf strict_a at_a a.now }
    requires fields_of_2 { FieldsOf strict_b at_b b.now }
    ensures { result ≡ keeps_fields (kept_from at_a a.now 3) (kept_from at_b b.now 3) }
{
    if accepted_line::fields::is_once(a, at_a, strict_a) {
        return same_as_line(a, at_a, &[], b, at_b, strict_b);
    }
    let mut tables_a = [0u32; 6448];
    accepted_line::fields::note_tags(a, at_a, &mut tables_a);
    same_as_line(a, at_a, &tables_a, b, at_b, strict_b)
}
