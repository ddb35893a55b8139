// Carrying on after refused lines: they are skipped and listed in a table, and the tidy text of the other lines is written.
#![tactic(auto)]

ghost use Rattle.std.specs.Prelude.{◌≡◌, true, ◌≤◌, length};
ghost use Rattle.std.proofs.Math.Option.{none};
ghost use Rattle.format.specs.Reading.{read_text};
ghost use Rattle.format.specs.Work.{all_zeros};
ghost use Rattle.accepted.specs.Read.{is_accepted};
ghost use Rattle.accepted_rule.specs.Rule.{ReadsBy};
ghost use Rattle.tidy_text.specs.Sizes.{sizes_of};
ghost use Rattle.format.specs.Carrying.{carried_lines, unwritable_line};
ghost use Rattle.carry_early.specs.First.{First};
ghost use Rattle.carry_passes.specs.From.{kept_from, skipped_from};
ghost use Rattle.carry_passes.specs.Measured.{measured_from};
ghost use Rattle.carry_on.specs.Answers.{carried_answer, text_left, table_left};

use carry_early::Begin;
use carry_passes::KeptSizes;
use format::{LineNo, Refusal};
use tidy_sizes::PerKind;

// How many bytes were written, and how many lines were skipped.
#[derive(Clone, Copy, Debug, PartialEq, Eq)]
pub struct Written {
    pub size: usize,
    pub skipped: usize,
}

// What was written, or why nothing was.
pub type Carried = Result<Written, Refusal>;

// Once every name is known to be writable: answers 1 for a tidy text that is too long, then 20 for a short output, then 20 for a short table, or
// writes both.
fn write_kept(
    text: &[u8],
    b: Begin,
    area: &mut [u32],
    sizes: PerKind,
    skipped: usize,
    out: &mut [u8],
    table: &mut [u32],
) -> Carried
    requires text_len_bound { length text.now ≤ 16777216 }
    requires first { First text.now b }
    requires in_bounds { 4 ≤ length area.old }
    requires text_value { unwritable_line 0 (carried_lines text.now) ≡ none }
    requires sizes_value { sizes ≡ sizes_of (kept_from text.now b) }
    requires skipped_value { skipped ≡ length (skipped_from text.now b) }
    ensures answer { result ≡ carried_answer text.now out.old table.old }
    ensures wrote { out.new ≡ text_left text.now out.old table.old }
    ensures listed { table.new ≡ table_left text.now out.old table.old }
{
    let n = sizes.total();
    let unfit = tidy_sizes::fit(n, 0, 0, out.len());
    if unfit != 0 {
        return Err(Refusal::of_text(unfit));
    }
    let lines = b.line as usize + skipped;
    if table.len() < lines * 2 {
        return Err(Refusal::of_text(20));
    }
    carry_passes::writing::put_kept_and_table(text, b, area, sizes.starts(0), out, table);
    let written = Written {
        size: n,
        skipped: lines,
    };
    Ok(written)
}

// Once the lines from the first kept line on have been measured: answers 24, or what `write_kept` answers.
fn write_measured(
    text: &[u8],
    b: Begin,
    area: &mut [u32],
    measured: Result<KeptSizes, LineNo>,
    out: &mut [u8],
    table: &mut [u32],
) -> Carried
    requires text_len_bound { length text.now ≤ 16777216 }
    requires first { First text.now b }
    requires in_bounds { 4 ≤ length area.old }
    requires measured_value { measured ≡ measured_from text.now b }
    ensures answer { result ≡ carried_answer text.now out.old table.old }
    ensures wrote { out.new ≡ text_left text.now out.old table.old }
    ensures listed { table.new ≡ table_left text.now out.old table.old }
{
    match measured {
        Err(line) => Err(Refusal { number: 24, line }),
        Ok(kept) => write_kept(text, b, area, kept.sizes, kept.skipped, out, table),
    }
}

// Carries on over a text that is not too long, with lent slots for the keys of a block of lines.
fn carry_indexed(text: &[u8], area: &mut [u32], out: &mut [u8], table: &mut [u32]) -> Carried
    requires text_len_bound { length text.now ≤ 16777216 }
    requires in_bounds { 4 ≤ length area.old }
    ensures answer { result ≡ carried_answer text.now out.old table.old }
    ensures wrote { out.new ≡ text_left text.now out.old table.old }
    ensures listed { table.new ≡ table_left text.now out.old table.old }
{
    let b = carry_early::find_first(text);
    let measured = carry_passes::measure(text, b, area);
    write_measured(text, b, area, measured, out, table)
}

// A text with an area of this function's own, of so many slots: in blocks of three lines with a key for every four of them.
fn carry_own<const SLOTS: usize>(text: &[u8], out: &mut [u8], table: &mut [u32]) -> Carried
    requires text_len_bound { length text.now ≤ 16777216 }
    requires in_bounds { 4 ≤ SLOTS }
    requires slots_bound { SLOTS ≤ 196608 }
    ensures answer { result ≡ carried_answer text.now out.old table.old }
    ensures wrote { out.new ≡ text_left text.now out.old table.old }
    ensures listed { table.new ≡ table_left text.now out.old table.old }
{
    let mut area = [0u32; SLOTS];
    carry_indexed(text, &mut area, out, table)
}

// A short text, in blocks of 384 lines, or one of some thousands of lines, in blocks of 4,608: a small area takes little clearing. This is slow if
// the text has many more lines than a block takes.
fn carry_small(text: &[u8], out: &mut [u8], table: &mut [u32]) -> Carried
    requires { length text.now ≤ 16777216 }
    ensures answer { result ≡ carried_answer text.now out.old table.old }
    ensures wrote { out.new ≡ text_left text.now out.old table.old }
    ensures listed { table.new ≡ table_left text.now out.old table.old }
{
    if text.len() <= read_judge::SHORT {
        return carry_own::<{ read_judge::SHORT_SLOTS }>(text, out, table);
    }
    carry_own::<{ read_judge::OWN_SLOTS }>(text, out, table)
}

// Any text, in blocks of 147,456 lines with a key. It is compiled as a function of its own, so that its 768 KiB are on the stack only while it runs,
// and not in the frames of its callers, which serve short texts too.
#[inline(never)]
fn carry_long(text: &[u8], out: &mut [u8], table: &mut [u32]) -> Carried
    requires { length text.now ≤ 16777216 }
    ensures answer { result ≡ carried_answer text.now out.old table.old }
    ensures wrote { out.new ≡ text_left text.now out.old table.old }
    ensures listed { table.new ≡ table_left text.now out.old table.old }
{
    carry_own::<{ read_judge::LONG_SLOTS }>(text, out, table)
}

// Picks the area by the length of a text that is not too long.
fn carry_lines(text: &[u8], out: &mut [u8], table: &mut [u32]) -> Carried
    requires { length text.now ≤ 16777216 }
    ensures answer { result ≡ carried_answer text.now out.old table.old }
    ensures wrote { out.new ≡ text_left text.now out.old table.old }
    ensures listed { table.new ≡ table_left text.now out.old table.old }
{
    if text.len() <= read_judge::MIDDLE {
        return carry_small(text, out, table);
    }
    carry_long(text, out, table)
}

// A text that reading refuses, of any length.
fn carry_refused(text: &[u8], out: &mut [u8], table: &mut [u32]) -> Carried
    ensures answer { result ≡ carried_answer text.now out.old table.old }
    ensures wrote { out.new ≡ text_left text.now out.old table.old }
    ensures listed { table.new ≡ table_left text.now out.old table.old }
{
    if format::LONGEST < text.len() {
        return Err(Refusal::of_text(1));
    }
    carry_lines(text, out, table)
}

// A text that reading accepts: no line is skipped, so this is tidying, and the table stays as it is.
fn carry_accepted(text: &[u8], once: bool, out: &mut [u8], table: &mut [u32]) -> Carried
    requires text_value { is_accepted (read_text text.now) ≡ true }
    requires reads_by { ReadsBy once text.now }
    ensures answer { result ≡ carried_answer text.now out.old table.old }
    ensures wrote { out.new ≡ text_left text.now out.old table.old }
    ensures listed { table.new ≡ table_left text.now out.old table.old }
{
    let size = tidy::write_accepted(text, once, out)?;
    Ok(Written { size, skipped: 0 })
}

// Writes the tidy text of the lines of `text` that are not refused to the front of `out`, and for each line that is, its number and why, to
// the front of `table`. 1 for a text that is too long, then 24, 1 for a tidy text that is too long, 20 for a short output or a short table; a
// refusal changes nothing. The text is read first, up to its first refusal: most have none.
pub fn carry_on(text: &[u8], out: &mut [u8], table: &mut [u32]) -> Carried
    ensures answer { result ≡ carried_answer text.now out.old table.old }
    ensures wrote { out.new ≡ text_left text.now out.old table.old }
    ensures listed { table.new ≡ table_left text.now out.old table.old }
{
    match read_judge::judge(text) {
        Err(_) => carry_refused(text, out, table),
        Ok(accepted) => carry_accepted(text, accepted.once, out, table),
    }
}

// Carries on with the front of a lent area if that is longer than an area of this crate's own. One slot per eight bytes of the text is enough for all
// keys in one block.
fn carry_lent(text: &[u8], out: &mut [u8], table: &mut [u32], area: &mut [u32]) -> Carried
    requires { length text.now ≤ 16777216 }
    ensures answer { result ≡ carried_answer text.now out.old table.old }
    ensures wrote { out.new ≡ text_left text.now out.old table.old }
    ensures listed { table.new ≡ table_left text.now out.old table.old }
    ensures room { length area.new ≡ length area.old }
{
    if text.len() <= read_judge::MIDDLE {
        return carry_small(text, out, table);
    }
    let n = area.len().min(text.len() / 8);
    if n <= read_judge::OWN_SLOTS {
        return carry_small(text, out, table);
    }
    let front = &mut area[..n];
    carry_indexed(text, front, out, table)
}

// A text that reading refuses, of any length, by a lent area.
fn carry_refused_with(text: &[u8], out: &mut [u8], table: &mut [u32], work: &mut [u32]) -> Carried
    ensures answer { result ≡ carried_answer text.now out.old table.old }
    ensures wrote { out.new ≡ text_left text.now out.old table.old }
    ensures listed { table.new ≡ table_left text.now out.old table.old }
    ensures zeros { work.new ≡ all_zeros work.old }
{
    if format::LONGEST < text.len() {
        key_index::clear(work);
        return Err(Refusal::of_text(1));
    }
    let carried = carry_lent(text, out, table, work);
    key_index::clear(work);
    carried
}

// The same as `carry_on`, with a lent area of any length and any content. The area is all zeros afterwards.
pub fn carry_on_with(text: &[u8], out: &mut [u8], table: &mut [u32], work: &mut [u32]) -> Carried
    ensures answer { result ≡ carried_answer text.now out.old table.old }
    ensures wrote { out.new ≡ text_left text.now out.old table.old }
    ensures listed { table.new ≡ table_left text.now out.old table.old }
    ensures zeros { work.new ≡ all_zeros work.old }
{
    match read_judge::judge_with(text, work) {
        Err(_) => carry_refused_with(text, out, table, work),
        Ok(accepted) => carry_accepted(text, accepted.once, out, table),
    }
}
