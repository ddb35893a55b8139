// The calls that write a text: whether each writes what a line of stored answers says (the crate `replay` describes the lines).
#![tactic(auto)]

ghost use Rattle.std.specs.Prelude.{◌≡◌, length};

use read::CountAnswer;

// Whether the text with programs added is the line's, with an output of the size that it says.
pub fn is_added(line: &[u8], text: &[u8], kept: &[u8], out: &mut [u8]) -> bool {
    let mut prefix = io::buffer();
    let p = replay_cases::decode(replay_cases::word(line, 4), &mut prefix);
    let mut fields = io::buffer();
    let f = replay_cases::decode(replay_cases::word(line, 5), &mut fields);
    let room = replay_answers::byte_room(replay_cases::word(line, 3), out);
    match add::add(text, kept, &prefix[..p], &fields[..f], &mut out[..room]) {
        Err(refusal) => replay_answers::is_refusal(line, 6, refusal.number, refusal.line)
            && replay_cases::is_untouched(out),
        Ok(n) => replay_answers::is_ok(line, 6, 1)
            && replay_answers::is_text(replay_cases::word(line, 7), out, n),
    }
}

// Whether the program on standard input would write the line's bytes.
pub fn is_program(line: &[u8], text: &[u8]) -> bool {
    let mut out = replay_answers::bytes();
    let n = tidy_answer::answer(text, &mut out);
    replay_answers::is_text(replay_cases::word(line, 2), &out, n)
        && replay_cases::word(line, 3).len() == 0
}

// Tidies a text. All that is promised here is that the output keeps its length.
fn tidied(text: &[u8], out: &mut [u8]) -> CountAnswer
    ensures { length out.new ≡ length out.old }
{
    tidy::tidy(text, out)
}

// Writes the binary header of a text. All that is promised here is that the output keeps its length.
fn written_out(text: &[u8], out: &mut [u8]) -> CountAnswer
    ensures { length out.new ≡ length out.old }
{
    binary_out::binary_out(text, out)
}

// Writes the tidy text of a binary header. All that is promised here is that the output keeps its length.
fn read_in(bytes: &[u8], out: &mut [u8]) -> CountAnswer
    ensures { length out.new ≡ length out.old }
{
    binary_in::binary_in(bytes, out)
}

// Whether the answer and what it left in the output are the line's.
fn is_answered(line: &[u8], answer: CountAnswer, out: &[u8]) -> bool {
    match answer {
        Err(refusal) => replay_answers::is_refusal(line, 3, refusal.number, refusal.line)
            && replay_cases::is_untouched(out),
        Ok(n) => replay_answers::is_ok(line, 3, 1)
            && replay_answers::is_text(replay_cases::word(line, 4), out, n),
    }
}

// Whether the tidy text is the line's, with an output of the size that it says.
pub fn is_tidied(line: &[u8], text: &[u8], out: &mut [u8]) -> bool {
    let room = replay_answers::byte_room(replay_cases::word(line, 2), out);
    let answer = tidied(text, &mut out[..room]);
    is_answered(line, answer, out)
}

// Whether the binary header of a text is the line's, with an output of the size that it says.
pub fn is_binary_out(line: &[u8], text: &[u8], out: &mut [u8]) -> bool {
    let room = replay_answers::byte_room(replay_cases::word(line, 2), out);
    let answer = written_out(text, &mut out[..room]);
    is_answered(line, answer, out)
}

// Whether the tidy text of a binary header is the line's, with an output of the size that it says.
pub fn is_binary_in(line: &[u8], bytes: &[u8], out: &mut [u8]) -> bool {
    let room = replay_answers::byte_room(replay_cases::word(line, 2), out);
    let answer = read_in(bytes, &mut out[..room]);
    is_answered(line, answer, out)
}

// Whether tidying refuses a text as reading does, and writes nothing.
pub fn is_tidy_refused(line: &[u8], text: &[u8], out: &mut [u8]) -> bool {
    match tidied(text, out) {
        Err(refusal) => replay_answers::is_refusal(line, 1, refusal.number, refusal.line)
            && replay_cases::is_untouched(out),
        Ok(_) => false,
    }
}

// Whether the tidy text is that of noodles-sam.
pub fn is_tidy(word: &[u8], text: &[u8], out: &mut [u8]) -> bool {
    match tidied(text, out) {
        Err(_) => false,
        Ok(n) => replay_answers::is_text(word, out, n),
    }
}

// Whether tidying refuses a name, on this line, and writes nothing.
pub fn is_unwritable(word: &[u8], text: &[u8], out: &mut [u8]) -> bool {
    match tidied(text, out) {
        Err(refusal) => {
            refusal.number == 24
                && replay_answers::is_number(word, refusal.line.0 as u64)
                && replay_cases::is_untouched(out)
        }
        Ok(_) => false,
    }
}
