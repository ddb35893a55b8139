// The programs among the kept lines: finds their parents in one pass, and counts the faults that do not depend on parents.
#![tactic(auto)]

ghost use Rattle.std.specs.Prelude.{◌≡◌, true, map, ◌≤◌, ◌+◌, length};
ghost use Rattle.format.specs.Records.{line};
ghost use Rattle.format.specs.Programs.{links, programs};
ghost use Rattle.accepted.specs.Read.{is_read};
ghost use Rattle.program_chains.specs.Parents.{in_array};
ghost use Rattle.carry_early.specs.First.{First};
ghost use Rattle.carry_passes.specs.From.{Fresh, lines_kept_from, kept_from};
ghost use Rattle.program_parents.specs.Parents.{link_number};
ghost use Rattle.fault_programs.specs.Plain.{plain_at, one_if, plain_count};
ghost use Rattle.program_parents.specs.Placed.{PlacesOf};

use carry_early::Begin;
use carry_lines::Cursor;
use program_places::{Places, Programs};

// 0, or why a line is faulty for a reason that does not depend on parents. `n` is its refusal if it is skipped, and 0 if it is kept.
pub fn plain_fault(src: &[u8], at: usize, strict: bool, n: u8) -> u8
    requires src_value { n ≡ 0 → is_read (line strict (record { at = at; bytes = src.now })) ≡ true }
    requires src_bound { at + length src.now ≤ 16777216 }
    ensures { result ≡ plain_at n (line strict (record { at = at; bytes = src.now })) }
{
    if n != 0 {
        return n;
    }
    match tidy_line::line_size(src, at, strict) {
        None => 24,
        Some(_) => 0,
    }
}

// 1 for a fault, and 0 for none.
pub fn one_if(n: u8) -> usize
    ensures { result ≡ one_if n }
{
    if n == 0 {
        return 0;
    }
    1
}

// Where the ID and the PP of each kept program are, and how many faults do not depend on parents.
#[derive(Clone, Copy)]
struct Gathered {
    programs: Programs,
    plain: usize,
}

// Goes through the lines from the first kept line on, in one pass. `ids` is empty at the start.
fn gather(text: &[u8], b: Begin, area: &mut [u32], ids: &mut [u32]) -> Gathered
    requires text_len_bound { length text.now ≤ 16777216 }
    requires first { First text.now b }
    requires fresh { Fresh text.now area.old ids.old }
    ensures programs { PlacesOf text.now (programs (kept_from text.now b)) result.programs }
    ensures plain { result.plain ≡ plain_count (lines_kept_from text.now b) }
    ensures room { length area.new ≡ length area.old }
{
    let seed = key_look::plain();
    let mut ats: [u32; 1024] = [0; 1024];
    let mut lens: [u32; 1024] = [0; 1024];
    let mut from: [u32; 1024] = [0; 1024];
    let mut widths: [u32; 1024] = [0; 1024];
    let mut plain: usize = 0;
    let mut c = Cursor {
        at: b.at,
        line: 0,
        until: b.at,
        seed,
        kept: 0,
        programs: 0,
    };
    while c.at < text.len() {
        let step = carry_lines::next_line(text, b.strict, b.at, area, ids, c);
        let at = c.at;
        let end = step.end;
        let i = c.programs;
        plain += one_if(plain_fault(&text[at..end], at, b.strict, step.refusal));
        c = step.next;
        if c.programs == i {
            continue;
        }
        let noted = program_lines::places_of(&text[at..end], at, b.strict);
        ats[i] = noted.id.at;
        lens[i] = noted.id.len;
        from[i] = noted.previous.at;
        widths[i] = noted.previous.len;
    }
    let id = Places { at: ats, len: lens };
    let previous = Places {
        at: from,
        len: widths,
    };
    let programs = Programs {
        id,
        previous,
        count: c.programs,
    };
    Gathered { programs, plain }
}

// The parent of each kept program, in order, how many there are, and how many faults do not depend on parents.
#[derive(Clone, Copy)]
pub struct KeptLinks {
    pub parents: [u32; 1024],
    pub count: usize,
    pub plain: usize,
}

// Goes through the lines from the first kept line on, and searches the IDs once per PP.
pub fn link_kept(text: &[u8], b: Begin, area: &mut [u32]) -> KeptLinks
    requires text_len_bound { length text.now ≤ 16777216 }
    requires first { First text.now b }
    requires in_bounds { 4 ≤ length area.old }
    ensures parents { result.parents ≡ in_array (map link_number (links (programs (kept_from text.now b)))) }
    ensures count { result.count ≡ length (programs (kept_from text.now b)) }
    ensures plain { result.plain ≡ plain_count (lines_kept_from text.now b) }
    ensures room { length area.new ≡ length area.old }
{
    let mut ids = [0u32; 2048];
    let gathered = gather(text, b, area, &mut ids);
    let programs = gathered.programs;
    let found = program_parents::parents_in(text, programs);
    let parents = found.list;
    KeptLinks {
        parents,
        count: found.count,
        plain: gathered.plain,
    }
}
