// A whole text: judges it line by line, writes its catalogue, and compares a catalogue with it.
#![tactic(auto)]

ghost use Rattle.std.specs.Prelude.{◌≡◌, ◌≤◌, length};
ghost use Rattle.format.specs.Bytes.{same};
ghost use Rattle.format.specs.Catalogue.{catalogue};
ghost use Rattle.format.specs.Calls.{reading, fresh};
ghost use Rattle.format.specs.Work.{all_zeros, reading_with};
ghost use Rattle.byte_slices.specs.Over.{over};
ghost use Rattle.accepted.specs.Read.{records_of};
ghost use Rattle.accepted_rule.specs.Rule.{is_once};
ghost use Rattle.read_judge.specs.Judged.{judgement};
ghost use Rattle.read.specs.Accepted.{AcceptedText};
ghost use Rattle.read.specs.Answers.{answer_of, output_of, checked_of, checked_text_of};

use format::Refusal;
use read_judge::{Accepted, Judged};

// How many bytes or ordinals were written, or why none were.
pub type CountAnswer = Result<usize, Refusal>;

// That the catalogue is this text's, or why it is not.
pub type Checked = Result<(), Refusal>;

// The same, for those who go over the lines again: whether no tag is repeated in any of them.
pub type CheckedText = Result<bool, Refusal>;

// Writes the catalogue of an accepted text to the front of `out`.
fn put_catalogue(text: &[u8], strict: bool, out: &mut [u8])
    requires accepted_text { AcceptedText strict text.now }
    requires text_in_bounds { length (catalogue (records_of text.now)) ≤ length out.old }
    ensures { out.new ≡ over out.old 0 (catalogue (records_of text.now)) }
{
    let mut at: usize = 0;
    let mut o: usize = 0;
    let mut line: u32 = 0;
    while at < text.len() {
        let cut = byte_slices::first_line(&text[at..]);
        let end = at + cut.len;
        o = catalogue_lines::put_record(out, o, &text[at..end], at, line, strict);
        at += cut.next;
        line += 1;
    }
}

// Whether `kept` is the catalogue of an accepted text. Nothing in it is used before it has been compared.
fn is_catalogue(text: &[u8], strict: bool, kept: &[u8]) -> bool
    requires { AcceptedText strict text.now }
    ensures { result ≡ same kept.now (catalogue (records_of text.now)) }
{
    let mut at: usize = 0;
    let mut o: usize = 0;
    let mut line: u32 = 0;
    while at < text.len() {
        let cut = byte_slices::first_line(&text[at..]);
        let end = at + cut.len;
        let Some(next) = catalogue_lines::same_record(kept, o, &text[at..end], at, line, strict)
        else {
            return false;
        };
        o = next;
        at += cut.next;
        line += 1;
    }
    o == kept.len()
}

// Reads a text that has been judged.
fn read_judged(text: &[u8], judged: Judged, kept: &mut [u8]) -> CountAnswer
    requires { judged ≡ judgement text.now }
    ensures answer { result ≡ answer_of (reading text.now (length kept.old)) }
    ensures wrote { kept.new ≡ output_of (reading text.now (length kept.old)) kept.old }
{
    let Accepted { size, once } = judged?;
    if kept.len() < size {
        return Err(Refusal::of_text(20));
    }
    put_catalogue(text, once, kept);
    Ok(size)
}

// Reads `text`: writes its catalogue to the front of `kept`, or answers the first refusal and changes nothing.
pub fn read(text: &[u8], catalogue: &mut [u8]) -> CountAnswer
    ensures answer { result ≡ answer_of (reading text.now (length catalogue.old)) }
    ensures wrote { catalogue.new ≡ output_of (reading text.now (length catalogue.old)) catalogue.old }
{
    read_judged(text, read_judge::judge(text), catalogue)
}

// The same as `read`, with a lent work area, which is all zeros afterwards.
pub fn read_with(text: &[u8], catalogue: &mut [u8], work: &mut [u32]) -> CountAnswer
    ensures answer { result ≡ answer_of (reading_with text.now (length catalogue.old) work.old).0 }
    ensures wrote { catalogue.new
        ≡ output_of (reading_with text.now (length catalogue.old) work.old).0 catalogue.old }
    ensures zeros { work.new ≡ (reading_with text.now (length catalogue.old) work.old).1 }
{
    let judged = read_judge::judge_with(text, work);
    read_judged(text, judged, catalogue)
}

// Whether `kept` is the catalogue of a text that has been judged.
fn check_judged(text: &[u8], judged: Judged, kept: &[u8]) -> CheckedText
    requires { judged ≡ judgement text.now }
    ensures { result ≡ checked_text_of (is_once text.now) (fresh text.now kept.now) }
{
    let Accepted { size, once } = judged?;
    if size != kept.len() {
        return Err(Refusal::of_text(21));
    }
    if is_catalogue(text, once, kept) {
        return Ok(once);
    }
    Err(Refusal::of_text(21))
}

// Whether `catalogue` is that of `text`, for calls that go over its lines again.
pub fn check_text(text: &[u8], catalogue: &[u8]) -> CheckedText
    ensures { result ≡ checked_text_of (is_once text.now) (fresh text.now catalogue.now) }
{
    check_judged(text, read_judge::judge(text), catalogue)
}

// Whether `kept` is the catalogue of `text`. The refusals of reading come first, then 21.
pub fn check(text: &[u8], catalogue: &[u8]) -> Checked
    ensures { result ≡ checked_of (fresh text.now catalogue.now) }
{
    check_text(text, catalogue)?;
    Ok(())
}

// The same as `check`, with a lent work area, which is all zeros afterwards.
pub fn check_with(text: &[u8], catalogue: &[u8], work: &mut [u32]) -> Checked
    ensures checked { result ≡ checked_of (fresh text.now catalogue.now) }
    ensures zeros { work.new ≡ all_zeros work.old }
{
    let judged = read_judge::judge_with(text, work);
    check_judged(text, judged, catalogue)?;
    Ok(())
}
