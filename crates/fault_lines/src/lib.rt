// The faulty lines of a text from the first kept line on: counts the programs with a faulty parent, and writes the rows of all faults in one pass.
#![tactic(auto)]

ghost use Rattle.std.specs.Prelude.{◌≡◌, ◌≤◌, ◌<◌, ◌+◌, ◌*◌, length};
ghost use Rattle.format.specs.Programs.{programs};
ghost use Rattle.byte_slices.specs.Over.{over};
ghost use Rattle.format.specs.Carrying.{rows};
ghost use Rattle.carry_early.specs.First.{First};
ghost use Rattle.carry_passes.specs.From.{Fresh, lines_kept_from, kept_from};
ghost use Rattle.format.specs.Faults.{link_fault, faults_from};
ghost use Rattle.fault_lines.specs.Links.{links_in, Within, link_count, step_fault};

use carry_early::Begin;
use carry_lines::Cursor;

// 0, or why the program `i` is faulty: 22 if its PP names no program, 23 if it comes back to itself after 1 to n parent steps.
fn link_fault(parents: &[u32], i: usize) -> u8
    requires within { Within parents.now }
    requires i_in_bounds { i < length parents.now }
    ensures { result ≡ link_fault (links_in parents.now) i }
{
    let mut at: u32 = parents[i];
    if at == program_parents::STRANGER {
        return 22;
    }
    for _ in 0..parents.len() {
        if program_parents::STRANGER <= at {
            return 0;
        }
        let k = at as usize;
        if i == k {
            return 23;
        }
        at = parents[k];
    }
    0
}

// How many programs are faulty.
pub fn count_links(parents: &[u32]) -> usize
    requires within { Within parents.now }
    requires parents_len_bound { length parents.now ≤ 1024 }
    ensures { result ≡ link_count (links_in parents.now) 0 (length parents.now) }
{
    let mut n: usize = 0;
    for i in 0..parents.len() {
        n += fault_programs::one_if(link_fault(parents, i));
    }
    n
}

// 0, or why a line is faulty. `i` programs are kept before the line, and `next` including it. `n` is its fault that does not depend on parents, if it
// has one.
fn step_fault(parents: &[u32], i: usize, next: usize, n: u8) -> u8
    requires within { Within parents.now }
    requires i_in_bounds { (next ≡ i → ⊥) → i < length parents.now }
    ensures { result ≡ step_fault (links_in parents.now) i next n }
{
    if n != 0 {
        return n;
    }
    if next == i {
        return 0;
    }
    link_fault(parents, i)
}

// Writes the rows of the faulty lines from the first kept line on, after those of the lines before it. `ids` is empty at the start.
pub fn put_lines(
    text: &[u8],
    b: Begin,
    area: &mut [u32],
    ids: &mut [u32],
    parents: &[u32],
    table: &mut [u32],
)
    requires text_len_bound { length text.now ≤ 16777216 }
    requires first { First text.now b }
    requires fresh { Fresh text.now area.old ids.old }
    requires within { Within parents.now }
    requires parents_len { length parents.now ≡ length (programs (kept_from text.now b)) }
    requires b_in_bounds { b.line * 2 + length (rows (faults_from (links_in parents.now) b.line 0 (lines_kept_from text.now b))) ≤ length table.old }
    ensures { table.new ≡ over table.old (b.line * 2)
        (rows (faults_from (links_in parents.now) b.line 0 (lines_kept_from text.now b))) }
{
    let seed = key_look::plain();
    let mut row: usize = b.line as usize;
    let mut c = Cursor {
        at: b.at,
        line: 0,
        until: b.at,
        seed,
        kept: 0,
        programs: 0,
    };
    while c.at < text.len() {
        let step = carry_lines::next_line(text, b.strict, b.at, area, ids, c);
        let at = c.at;
        let end = step.end;
        let i = c.programs;
        let line = b.line + c.line as u32;
        let plain = fault_programs::plain_fault(&text[at..end], at, b.strict, step.refusal);
        c = step.next;
        let n = step_fault(parents, i, c.programs, plain);
        if n == 0 {
            continue;
        }
        carry_early::put_row(table, row, line, n);
        row += 1;
    }
}
