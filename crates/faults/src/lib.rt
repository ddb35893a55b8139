// The faults of a text: a table with the number of each faulty line and its fault.
#![tactic(auto)]

ghost use Rattle.std.specs.Prelude.{◌≡◌, map, ◌≤◌, length};
ghost use Rattle.read.specs.Answers.{output_of};
ghost use Rattle.carry_early.specs.First.{First};
ghost use Rattle.format.specs.Faults.{faulting};
ghost use Rattle.faults.specs.Answers.{IsLinks, faulty_lines};

use carry_early::Begin;
use fault_programs::KeptLinks;
use format::Refusal;
use read::CountAnswer;

// Once the programs are linked: refuses with 20 if the table is too short, or writes the rows.
fn write_faults(
    text: &[u8],
    b: Begin,
    area: &mut [u32],
    links: KeptLinks,
    table: &mut [u32],
) -> CountAnswer
    requires text_len_bound { length text.now ≤ 16777216 }
    requires first { First text.now b }
    requires in_bounds { 4 ≤ length area.old }
    requires links { IsLinks text.now b links }
    ensures answer { result ≡ faulty_lines (faulting text.now (length table.old)) }
    ensures listed { table.new ≡ output_of (faulting text.now (length table.old)) table.old }
{
    let parents = links.parents;
    let count = links.count;
    let lines = b.line as usize + (links.plain + fault_lines::count_links(&parents[..count]));
    if table.len() < lines * 2 {
        return Err(Refusal::of_text(20));
    }
    carry_early::put_early(text, b.line, table);
    let mut ids = [0u32; 2048];
    fault_lines::put_lines(text, b, area, &mut ids, &parents[..count], table);
    Ok(lines)
}

// The faults of a text that is not too long, with lent slots for the keys of a block of lines.
fn faults_indexed(text: &[u8], area: &mut [u32], table: &mut [u32]) -> CountAnswer
    requires text_len_bound { length text.now ≤ 16777216 }
    requires in_bounds { 4 ≤ length area.old }
    ensures answer { result ≡ faulty_lines (faulting text.now (length table.old)) }
    ensures listed { table.new ≡ output_of (faulting text.now (length table.old)) table.old }
{
    let b = carry_early::find_first(text);
    let links = fault_programs::link_kept(text, b, area);
    write_faults(text, b, area, links, table)
}

// The faults of a text with an area of this function's own, of so many slots: in blocks of three lines with a key for every four of them.
fn faults_own<const SLOTS: usize>(text: &[u8], table: &mut [u32]) -> CountAnswer
    requires text_len_bound { length text.now ≤ 16777216 }
    requires in_bounds { 4 ≤ SLOTS }
    requires slots_bound { SLOTS ≤ 196608 }
    ensures answer { result ≡ faulty_lines (faulting text.now (length table.old)) }
    ensures listed { table.new ≡ output_of (faulting text.now (length table.old)) table.old }
{
    let mut area = [0u32; SLOTS];
    faults_indexed(text, &mut area, table)
}

// Any text, in blocks of 147,456 lines with a key. It is compiled as a function of its own, so that its 768 KiB are on the stack only while it runs,
// and not in the frames of its callers, which serve short texts too.
#[inline(never)]
fn faults_long(text: &[u8], table: &mut [u32]) -> CountAnswer
    requires { length text.now ≤ 16777216 }
    ensures answer { result ≡ faulty_lines (faulting text.now (length table.old)) }
    ensures listed { table.new ≡ output_of (faulting text.now (length table.old)) table.old }
{
    faults_own::<{ read_judge::LONG_SLOTS }>(text, table)
}

// Picks the area by the length of a text that is not too long: a small area takes little clearing, and has blocks of 384 or of 4,608 lines.
fn faults_by_length(text: &[u8], table: &mut [u32]) -> CountAnswer
    requires { length text.now ≤ 16777216 }
    ensures answer { result ≡ faulty_lines (faulting text.now (length table.old)) }
    ensures listed { table.new ≡ output_of (faulting text.now (length table.old)) table.old }
{
    if text.len() <= read_judge::SHORT {
        return faults_own::<{ read_judge::SHORT_SLOTS }>(text, table);
    }
    if text.len() <= read_judge::MIDDLE {
        return faults_own::<{ read_judge::OWN_SLOTS }>(text, table);
    }
    faults_long(text, table)
}

// Writes the number and the fault of each faulty line of `text`, in order, to the front of `table`, and answers how many there are. Refuses with 1 if
// the text is too long, then with 20 if the table is too short. A refusal changes nothing.
pub fn faults(text: &[u8], table: &mut [u32]) -> CountAnswer
    ensures answer { result ≡ faulty_lines (faulting text.now (length table.old)) }
    ensures listed { table.new ≡ output_of (faulting text.now (length table.old)) table.old }
{
    if format::LONGEST < text.len() {
        return Err(Refusal::of_text(1));
    }
    faults_by_length(text, table)
}
