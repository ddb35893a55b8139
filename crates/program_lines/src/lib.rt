// The programs of an accepted text, gathered from its PG lines: where each line is, its ID and its PP.
#![tactic(auto)]

ghost use Rattle.std.specs.Prelude.{◌≡◌, true, map, ◌≤◌, ◌+◌, ◌<◌, ◌^◌, length, IfSome};
ghost use Rattle.format.specs.Reading.{read_text};
ghost use Rattle.accepted_rule.specs.Rule.{ReadsBy};
ghost use Rattle.accepted.specs.Read.{is_accepted};
ghost use Rattle.accepted_line.specs.Next.{last_in};
ghost use Rattle.accepted_line.specs.Tables.{Walkable};
ghost use Rattle.program_places.specs.Gathered.{gathered_of};
ghost use Rattle.program_lines.specs.Line.{FieldsOf};
ghost use Rattle.program_lines.specs.Found.{may_be_program, pg_from, told_lines, NextLineInText, place_of, previous_of, notes_of, lines_of};

use catalogue_entries::Place;
use program_places::{Places, Programs};
use record::Stretch;

// A PG line: where it is, and the offset of the line after it.
#[derive(Clone, Copy)]
struct NextLine {
    at: usize,
    len: usize,
    next: usize,
}

// Where the ID and the PP of a program are.
#[derive(Clone, Copy)]
pub struct Noted {
    pub id: Place,
    pub previous: Place,
}

// The programs of a text, and where their lines are.
#[derive(Clone, Copy)]
pub struct ProgramLines {
    pub programs: Programs,
    pub lines: Places,
}

// Whether a line is a program. The second byte of an accepted line determines its kind.
fn may_be_program(line: &[u8]) -> bool
    ensures { result ≡ may_be_program line.now }
{
    if line.len() < 2 {
        return false;
    }
    line[1] == b'P'
}

// The first PG line from the offset `start` on, at which a line starts, if one is left.
fn next_program(text: &[u8], start: usize) -> Option<NextLine>
    requires { start ≤ length text.now }
    ensures list { pg_from text.now start ≡ told_lines text.now result }
    ensures place { IfSome result (NextLineInText text.now start) }
{
    let mut at = start;
    while at < text.len() {
        let cut = byte_slices::first_line(&text[at..]);
        let end = at + cut.len;
        let next = at + cut.next;
        if may_be_program(&text[at..end]) {
            return Some(NextLine {
                at,
                len: cut.len,
                next,
            });
        }
        at = next;
    }
    None
}

// A place, in the numbers of an entry.
fn narrow(v: Stretch) -> Place
    requires { (v.at < 2 ^ 32) × (v.len < 2 ^ 32) }
    ensures { result ≡ place_of v }
{
    Place {
        at: v.at as u32,
        len: v.len as u32,
    }
}

// Where a PP is, or a place that is in no text if there is none.
fn narrow_previous(v: Stretch) -> Place
    requires { (v.at < 2 ^ 32) × (v.len < 2 ^ 32) }
    ensures { result ≡ previous_of v }
{
    if v.at == 0 {
        return Place {
            at: program_places::NOWHERE,
            len: 0,
        };
    }
    narrow(v)
}

// The ID and the PP of an accepted PG line, found by walking over it.
fn find_places(line: &[u8], at: usize, tables: &[u32]) -> Noted
    requires walkable { Walkable at line.now tables.now }
    requires line_bound { at + length line.now ≤ 16777216 }
    ensures { (result.id ≡ place_of (last_in at line.now 73 68)) × (result.previous ≡ previous_of (last_in at line.now 80 80)) }
{
    let id = narrow(accepted_line::fields::find_value(line, at, b'I', b'D', tables));
    let previous = narrow_previous(accepted_line::fields::find_value(line, at, b'P', b'P', tables));
    Noted { id, previous }
}

// The ID and the PP of an accepted PG line at the offset `at`.
pub fn places_of(line: &[u8], at: usize, strict: bool) -> Noted
    requires { FieldsOf strict at line.now }
    ensures { (result.id ≡ place_of (last_in at line.now 73 68)) × (result.previous ≡ previous_of (last_in at line.now 80 80)) }
{
    if accepted_line::fields::is_once(line, at, strict) {
        return find_places(line, at, &[]);
    }
    let mut tables = [0u32; 6448];
    accepted_line::fields::note_tags(line, at, &mut tables);
    find_places(line, at, &tables)
}

// The programs of an accepted text; `strict` is the rule for repeated tags that its lines are read by.
pub fn gather(text: &[u8], strict: bool) -> ProgramLines
    requires text_value { is_accepted (read_text text.now) ≡ true }
    requires reads_by { ReadsBy strict text.now }
    ensures programs { result.programs ≡ gathered_of (map notes_of (pg_from text.now 0)) }
    ensures lines { result.lines ≡ lines_of (pg_from text.now 0) }
{
    let mut starts: [u32; 1024] = [0; 1024];
    let mut sizes: [u32; 1024] = [0; 1024];
    let mut ats: [u32; 1024] = [0; 1024];
    let mut lens: [u32; 1024] = [0; 1024];
    let mut from: [u32; 1024] = [0; 1024];
    let mut widths: [u32; 1024] = [0; 1024];
    let mut count: usize = 0;
    let mut at: usize = 0;
    while let Some(p) = next_program(text, at) {
        let start = p.at;
        let end = start + p.len;
        let noted = places_of(&text[start..end], start, strict);
        starts[count] = start as u32;
        sizes[count] = p.len as u32;
        ats[count] = noted.id.at;
        lens[count] = noted.id.len;
        from[count] = noted.previous.at;
        widths[count] = noted.previous.len;
        count += 1;
        at = p.next;
    }
    let id = Places { at: ats, len: lens };
    let previous = Places {
        at: from,
        len: widths,
    };
    let programs = Programs {
        id,
        previous,
        count,
    };
    let lines = Places {
        at: starts,
        len: sizes,
    };
    ProgramLines { programs, lines }
}
