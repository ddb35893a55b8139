// Carrying on, the pass that measures: the length of the tidy text of the kept lines, and the number of skipped lines.
#![tactic(auto)]

pub mod writing;

ghost use Rattle.std.specs.Prelude.{◌≡◌, true, ◌≤◌, ◌+◌, length};
ghost use Rattle.format.specs.Records.{line};
ghost use Rattle.format.specs.Work.{all_zeros};
ghost use Rattle.accepted.specs.Read.{is_read};
ghost use Rattle.tidy_sizes.specs.Numbers.{get};
ghost use Rattle.tidy_text.specs.Kinds.{line_kind, tidy_line};
ghost use Rattle.carry_early.specs.First.{First};
ghost use Rattle.carry_passes.specs.From.{Fresh};
ghost use Rattle.carry_passes.specs.Measured.{grown_at, measured_from, KeptTold};

use carry_early::Begin;
use carry_lines::Cursor;
use format::LineNo;
use tidy_sizes::PerKind;

// How many bytes of the tidy text the kept records of each kind take, and how many lines are skipped from the first kept line on.
#[derive(Clone, Copy)]
pub struct KeptSizes {
    pub sizes: PerKind,
    pub skipped: usize,
}

// The sizes with one more line, if its name can be written; `n` is 0 if the line is kept.
fn with_step(sizes: PerKind, src: &[u8], at: usize, strict: bool, n: u8) -> Option<PerKind>
    requires src_value { n ≡ 0 → is_read (line strict (record { at = at; bytes = src.now })) ≡ true }
    requires src_bound { at + length src.now ≤ 16777216 }
    requires src_bound_2 { n ≡ 0 → get (line_kind src.now) sizes + length (tidy_line strict at src.now) ≤ 18446744073709551615 }
    ensures { result ≡ grown_at n (line_kind src.now) (line strict (record { at = at; bytes = src.now })) sizes }
{
    if n != 0 {
        return Some(sizes);
    }
    tidy_text::with_line(sizes, src, at, strict)
}

// Measures the lines from the first kept line on, in one pass, or answers the line of the first kept SQ whose name can't be written. `ids` is empty at
// the start.
fn measure_lines(
    text: &[u8],
    b: Begin,
    area: &mut [u32],
    ids: &mut [u32],
) -> Result<KeptSizes, LineNo>
    requires text_len_bound { length text.now ≤ 16777216 }
    requires first { First text.now b }
    requires fresh { Fresh text.now area.old ids.old }
    ensures measured { result ≡ measured_from text.now b }
    ensures room { length area.new ≡ length area.old }
{
    let seed = key_look::plain();
    let mut sizes = PerKind::new();
    let mut c = Cursor {
        at: b.at,
        line: 0,
        until: b.at,
        seed,
        kept: 0,
        programs: 0,
    };
    while c.at < text.len() {
        let step = carry_lines::next_line(text, b.strict, b.at, area, ids, c);
        let at = c.at;
        let end = step.end;
        let grown = with_step(sizes, &text[at..end], at, b.strict, step.refusal);
        let Some(next) = grown else {
            return Err(LineNo(b.line + c.line as u32));
        };
        sizes = next;
        c = step.next;
    }
    let skipped = c.line - c.kept;
    Ok(KeptSizes { sizes, skipped })
}

// The same, with slots of its own for the IDs of the kept programs. The area is all zeros afterwards.
pub fn measure(text: &[u8], b: Begin, area: &mut [u32]) -> Result<KeptSizes, LineNo>
    requires text_len_bound { length text.now ≤ 16777216 }
    requires first { First text.now b }
    requires in_bounds { 4 ≤ length area.old }
    ensures measured { result ≡ measured_from text.now b }
    ensures refusal { KeptTold text.now b result }
    ensures zeros { area.new ≡ all_zeros area.old }
{
    let mut ids = [0u32; 2048];
    let measured = measure_lines(text, b, area, &mut ids);
    key_index::clear(area);
    measured
}
