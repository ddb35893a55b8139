// Carrying on line by line, from the first kept line on: each line is judged after the lines that were kept before it.
#![tactic(auto)]

ghost use Rattle.std.specs.Prelude.{◌≡◌, ◌≤◌, ◌<◌, ◌+◌, length, drop, ltb};
ghost use Rattle.byte_slices.specs.First.{first_line};
ghost use Rattle.key_index.specs.Keyed.{KeyInText};
ghost use Rattle.carry_lines.specs.Kept.{head_at, used_by, ids_after, advanced, filled_at, until_at};
ghost use Rattle.carry_lines.specs.Going.{Going, judged_lines, refusal_at};

use carry_keys::Filled;
use key_look::Seed;
use record::Head;

// Where judging is: the offset of the next line, how many lines are judged, the offset where the block ends for which the area is
// filled and the numbers that it is filled by, and how many lines, and programs among them, are kept. Where judging begins no block has begun, and both offsets are the same.
#[derive(Clone, Copy)]
pub struct Cursor {
    pub at: usize,
    pub line: usize,
    pub until: usize,
    pub seed: Seed,
    pub kept: usize,
    pub programs: usize,
}

// The verdict on a line: where the line ends, 0 or the reason why it is skipped, and the cursor after it.
#[derive(Clone, Copy)]
pub struct Step {
    pub end: usize,
    pub refusal: u8,
    pub next: Cursor,
}

// Whether a line that was kept has the key of a head. Programs that are kept enter `ids`, by the plain numbers: they are so few that looking for one
// is never long. Where other keys came first is in `area`.
fn is_used(
    text: &[u8],
    area: &[u32],
    seed: Seed,
    ids: &mut [u32],
    head: Head,
    programs: usize,
) -> bool
    requires text_len_bound { length text.now ≤ 16777216 }
    requires area_nonzero { (0 < length area.now) × (0 < length ids.old) }
    requires key_in_text { KeyInText (length text.now) head }
    ensures used { result ≡ used_by seed text.now area.now ids.old head }
    ensures wrote { ids.new ≡ ids_after (ltb programs 1024) text.now ids.old head }
{
    match head {
        Head::Program(_, _) => {
            let room = programs < 1024;
            key_index::find_or_enter(text, ids, key_look::plain(), head, room).known
        }
        _ => !key_index::is_first_with_key(text, area, seed, head).first,
    }
}

// At the end of a block the next one begins, and the area is filled for it. The block that the line is in.
fn fill_at_block_end(text: &[u8], strict: bool, from: usize, area: &mut [u32], c: Cursor) -> Filled
    requires text_len_bound { length text.now ≤ 16777216 }
    requires in_bounds { 4 ≤ length area.old }
    requires at_in_bounds { c.at ≤ length text.now }
    ensures until { result.end ≡ until_at strict text.now (length area.old) c.at c.until }
    ensures seed { (c.at ≡ c.until → ⊥) → result.seed ≡ c.seed }
    ensures wrote { area.new ≡ filled_at result.seed strict text.now from area.old c.at c.until }
{
    if c.at != c.until {
        let end = c.until;
        let seed = c.seed;
        return Filled { end, seed };
    }
    carry_keys::fill(text, c.seed, strict, area, from, c.at)
}

// After a line with this head in a block, which ends before `next`; `n` is 0 where it is kept.
fn advance(c: Cursor, next: usize, block: Filled, head: Head, n: u8) -> Cursor
    requires { (c.line < 16777216) × (c.kept < 16777216) × (c.programs < 16777216) }
    ensures { result ≡ advanced c next block.end block.seed head n }
{
    let line = c.line + 1;
    let until = block.end;
    let seed = block.seed;
    let mut kept = c.kept;
    let mut programs = c.programs;
    if n == 0 {
        kept += 1;
        programs += read_admission::programs_of(head);
    }
    Cursor {
        at: next,
        line,
        until,
        seed,
        kept,
        programs,
    }
}

// Judges the next line. The first line that is kept starts at the offset `from`.
pub fn next_line(
    text: &[u8],
    strict: bool,
    from: usize,
    area: &mut [u32],
    ids: &mut [u32],
    c: Cursor,
) -> Step
    requires text_len_bound { length text.now ≤ 16777216 }
    requires going { Going strict text.now from area.old ids.old c }
    requires at_in_bounds { c.at < length text.now }
    ensures end { result.end ≡ c.at + (first_line (drop c.at text.now)).len }
    ensures refusal { result.refusal ≡ refusal_at c.line (judged_lines strict text.now from) }
    ensures at { result.next.at ≡ c.at + (first_line (drop c.at text.now)).next }
    ensures line { result.next.line ≡ c.line + 1 }
    ensures next { Going strict text.now from area.new ids.new result.next }
    ensures room { length area.new ≡ length area.old }
    ensures room2 { length ids.new ≡ length ids.old }
    ensures stands { result.next ≡ advanced c (c.at + (first_line (drop c.at text.now)).next)
        (until_at strict text.now (length area.old) c.at c.until) result.next.seed (head_at strict text.now c.at) result.refusal }
    ensures filled { area.new ≡ filled_at result.next.seed strict text.now from area.old c.at c.until }
    ensures entered { ids.new ≡ ids_after (ltb c.programs 1024) text.now ids.old
        (head_at strict text.now c.at) }
{
    let at = c.at;
    let block = fill_at_block_end(text, strict, from, area, c);
    let cut = byte_slices::first_line(&text[at..]);
    let end = at + cut.len;
    let head = record_parser::parse_record(&text[at..end], at, strict);
    let seed = block.seed;
    let used = is_used(text, area, seed, ids, head, c.programs);
    let n = read_admission::barred(head, used, c.kept, c.programs);
    Step {
        end,
        refusal: n,
        next: advance(c, at + cut.next, block, head, n),
    }
}
