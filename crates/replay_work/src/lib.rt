// Reading with a lent work area: whether the call answers as a line of stored answers says (the crate `replay` describes the lines).
#![tactic(auto)]

ghost use Rattle.std.specs.Prelude.{◌≡◌, eqb, length};
ghost use Rattle.format.specs.Bytes.{all};

use read::CountAnswer;

// Whether a list is all zeros.
fn is_cleared(list: &[u32]) -> bool
    ensures { result ≡ all (eqb 0) list.now }
{
    list.iter().all(|n| *n == 0)
}

// Reads a text. All that is promised here is that the output and the work area keep their lengths.
fn read(text: &[u8], out: &mut [u8], work: &mut [u32]) -> CountAnswer
    ensures room { length out.new ≡ length out.old }
    ensures slots { length work.new ≡ length work.old }
{
    read::read_with(text, out, work)
}

// Whether the first `n` numbers of an area are zeros and the others are as they were.
fn is_left(work: &[u32], n: usize) -> bool {
    if work.len() < n {
        return false;
    }
    is_cleared(&work[..n]) && replay_cases::is_unlisted(&work[n..])
}

// Whether the catalogue is the line's, with an output of the size that it says, and a work area of the size that it says is all zeros.
pub fn is_read_with(line: &[u8], text: &[u8], out: &mut [u8], work: &mut [u32]) -> bool {
    let room = replay_answers::byte_room(replay_cases::word(line, 2), out);
    let slots = replay_answers::ordinal_room(replay_cases::word(line, 3), work);
    match read(text, &mut out[..room], &mut work[..slots]) {
        Err(refusal) => {
            replay_answers::is_refusal(line, 4, refusal.number, refusal.line)
                && replay_cases::is_untouched(out)
                && is_left(work, slots)
        }
        Ok(n) => {
            replay_answers::is_ok(line, 4, 1)
                && replay_answers::is_text(replay_cases::word(line, 5), out, n)
                && is_left(work, slots)
        }
    }
}
