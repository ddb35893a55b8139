// Carrying on, the part before the first line that is kept. All of these lines are skipped, and each one that announces a version sets the rule for
// repeated tags.
#![tactic(auto)]

ghost use Rattle.std.specs.Prelude.{◌≡◌, ◌∷◌, [], ◌≤◌, ◌<◌, ◌+◌, ◌*◌, length, drop};
ghost use Rattle.format.specs.Reading.{announced, admitted};
ghost use Rattle.byte_slices.specs.First.{first_line};
ghost use Rattle.byte_slices.specs.Over.{over};
ghost use Rattle.accepted.specs.First.{first_at};
ghost use Rattle.read_repeat_rule.specs.Rule.{strict_after};
ghost use Rattle.read_admission.specs.Admission.{line_refusal};
ghost use Rattle.carry_early.specs.Early.{early_of, rows_from};
ghost use Rattle.carry_early.specs.First.{First};

// Where the first kept line starts, its number, and whether repeated tags are refused from there on.
#[derive(Clone, Copy)]
pub struct Begin {
    pub at: usize,
    pub line: u32,
    pub strict: bool,
}

// The verdict on a line before which no line is kept: whether its repeated tags are refused, 0 or the reason why it is skipped, and where the next
// line starts.
#[derive(Clone, Copy)]
struct EarlyLine {
    strict: bool,
    refusal: u8,
    next: usize,
}

// Judges the line at the offset `at`, before which no line is kept. `strict` is the rule for repeated tags that the lines before it set.
fn judge_early(text: &[u8], at: usize, strict: bool) -> EarlyLine
    requires text_len_bound { length text.now ≤ 16777216 }
    requires at_in_bounds { at < length text.now }
    ensures strict { result.strict ≡ strict_after strict (announced (first_at at text.now ∷ [])) }
    ensures refusal { result.refusal ≡ line_refusal (admitted result.strict [] (first_at at text.now)) }
    ensures next { result.next ≡ at + (first_line (drop at text.now)).next }
{
    let cut = byte_slices::first_line(&text[at..]);
    let end = at + cut.len;
    let rule = read_repeat_rule::is_strict_after(strict, &text[at..end]);
    let head = record_parser::parse_record(&text[at..end], at, rule);
    EarlyLine {
        strict: rule,
        refusal: read_admission::barred(head, false, 0, 0),
        next: at + cut.next,
    }
}

// Finds the first line that is kept, or the end of the text.
pub fn find_first(text: &[u8]) -> Begin
    requires { length text.now ≤ 16777216 }
    ensures { First text.now result }
{
    let mut at: usize = 0;
    let mut line: u32 = 0;
    let mut strict = false;
    while at < text.len() {
        let early = judge_early(text, at, strict);
        strict = early.strict;
        if early.refusal == 0 {
            return Begin { at, line, strict };
        }
        at = early.next;
        line += 1;
    }
    Begin { at, line, strict }
}

// Writes a row of the table: the number of a skipped line, and why it was refused.
pub fn put_row(table: &mut [u32], row: usize, line: u32, n: u8)
    requires { row * 2 + 2 ≤ length table.old }
    ensures { table.new ≡ over table.old (row * 2) (line ∷ n ∷ []) }
{
    table[row * 2] = line;
    table[row * 2 + 1] = n as u32;
}

// Writes the rows of the `count` lines before the first line that is kept.
pub fn put_early(text: &[u8], count: u32, table: &mut [u32])
    requires text_len_bound { length text.now ≤ 16777216 }
    requires count_value { count ≡ length (early_of text.now).refusals }
    requires count_in_bounds { count * 2 ≤ length table.old }
    ensures { table.new ≡ over table.old 0 (rows_from 0 (early_of text.now).refusals) }
{
    let mut at: usize = 0;
    let mut strict = false;
    for line in 0..count {
        let early = judge_early(text, at, strict);
        put_row(table, line as usize, line, early.refusal);
        strict = early.strict;
        at = early.next;
    }
}
