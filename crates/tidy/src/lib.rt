// Tidying: writes the same records with the keys first and one LF after each line, kind by kind.
#![tactic(auto)]

ghost use Rattle.std.specs.Prelude.{◌≡◌, true, length};
ghost use Rattle.format.specs.Lines.{lines};
ghost use Rattle.format.specs.Reading.{read_text};
ghost use Rattle.accepted_rule.specs.Rule.{ReadsBy};
ghost use Rattle.format.specs.Calls.{tidying};
ghost use Rattle.format.specs.Work.{all_zeros};
ghost use Rattle.accepted.specs.Read.{is_accepted};
ghost use Rattle.read_judge.specs.Judged.{judgement};
ghost use Rattle.read.specs.Answers.{answer_of, output_of};
ghost use Rattle.tidy.specs.Written.{writing_tidy, writing_marked};

use format::Refusal;
use read::CountAnswer;
use read_judge::Judged;

// Writes the tidy text of an accepted text without the programs whose mark is false, or refuses with 24, then 1, then 20.
pub fn write_marked(text: &[u8], strict: bool, marks: &[bool], out: &mut [u8]) -> CountAnswer
    requires text_value { is_accepted (read_text text.now) ≡ true }
    requires reads_by { ReadsBy strict text.now }
    ensures answer { result ≡ answer_of (writing_marked text.now marks.now (length out.old)) }
    ensures wrote { out.new ≡ output_of
        (writing_marked text.now marks.now (length out.old))
        out.old }
{
    match tidy_text::measure_marked(text, strict, marks) {
        Err(line) => Err(Refusal { number: 24, line }),
        Ok(sizes) => {
            let n = sizes.total();
            let unfit = tidy_sizes::fit(n, 0, 0, out.len());
            if unfit != 0 {
                return Err(Refusal::of_text(unfit));
            }
            let n = tidy_text::put_marked(text, strict, marks, sizes, out);
            Ok(n)
        }
    }
}

// Writes the tidy text of an accepted text, or refuses with 24, then 1, then 20.
pub fn write_accepted(text: &[u8], strict: bool, out: &mut [u8]) -> CountAnswer
    requires text_value { is_accepted (read_text text.now) ≡ true }
    requires reads_by { ReadsBy strict text.now }
    ensures answer { result ≡ answer_of (writing_tidy text.now (length out.old)) }
    ensures wrote { out.new ≡ output_of (writing_tidy text.now (length out.old)) out.old }
{
    write_marked(text, strict, &[], out)
}

// Tidies a text that has been judged.
fn tidy_judged(text: &[u8], judged: Judged, out: &mut [u8]) -> CountAnswer
    requires { judged ≡ judgement text.now }
    ensures answer { result ≡ answer_of (tidying text.now (length out.old)) }
    ensures wrote { out.new ≡ output_of (tidying text.now (length out.old)) out.old }
{
    let accepted = judged?;
    write_accepted(text, accepted.once, out)
}

// Tidies `text` into the front of `out`, or answers the first refusal and changes nothing.
pub fn tidy(text: &[u8], out: &mut [u8]) -> CountAnswer
    ensures answer { result ≡ answer_of (tidying text.now (length out.old)) }
    ensures wrote { out.new ≡ output_of (tidying text.now (length out.old)) out.old }
{
    tidy_judged(text, read_judge::judge(text), out)
}

// The same as `tidy`, with a lent work area, which is all zeros afterwards.
pub fn tidy_with(text: &[u8], out: &mut [u8], work: &mut [u32]) -> CountAnswer
    ensures answer { result ≡ answer_of (tidying text.now (length out.old)) }
    ensures wrote { out.new ≡ output_of (tidying text.now (length out.old)) out.old }
    ensures zeros { work.new ≡ all_zeros work.old }
{
    let judged = read_judge::judge_with(text, work);
    tidy_judged(text, judged, out)
}
