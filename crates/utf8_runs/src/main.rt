// Reads sequences of bytes as DS of an SQ with `read::read`, and writes the answer for each: 0 if the text is accepted, or the number of the refusal.
//
// First come all sequences of up to 2 bytes. A line has the first byte in hex, its answer by itself, and then the answers with each second byte from
// 0 on, where equal answers in a row are written as `128x10`: 128 times 10. Then come the sequences of the input, one per line in hex, with one
// answer per line: those of 3 and 4 bytes around each edge of the table of RFC 3629, and some that a tab cuts short. The expected output was made by
// `oracle/characters` with Python's decoder, not by this program.
#![tactic(auto)]

ghost use Rattle.std.specs.Prelude.{◌≤◌, length};

// The number of the standard output.
const STDOUT_FILENO: i32 = 1;

// The answer if DS is `value`.
fn ask(value: &[u8]) -> u8
    requires { length value.now ≤ 64 }
{
    let mut text: [u8; 81] = [0; 81];
    let mut kept: [u8; 64] = [0; 64];
    byte_slices::put_bytes(&mut text, 0, b"@SQ\tSN:s\tLN:1\tDS:");
    byte_slices::put_bytes(&mut text, 17, value);
    match read::read(&text[..17 + value.len()], &mut kept) {
        Err(refusal) => refusal.number,
        Ok(_) => 0,
    }
}

fn ask_one(first: u8) -> u8 {
    let value = [first];
    ask(&value)
}

fn ask_two(first: u8, second: u8) -> u8 {
    let value = [first, second];
    ask(&value)
}

fn print_run(run: u64, answer: u8) {
    io::write_all(STDOUT_FILENO, b" ");
    io::print_decimal(STDOUT_FILENO, run);
    io::write_all(STDOUT_FILENO, b"x");
    io::print_decimal(STDOUT_FILENO, answer as u64);
}

// The sequences that start with `first` and have one more byte.
fn seconds(first: u8) {
    let mut answer = ask_two(first, 0);
    let mut run: u64 = 1;
    for second in 1..=255u8 {
        let next = ask_two(first, second);
        if next != answer {
            print_run(run, answer);
            answer = next;
            run = 0;
        }
        run += 1;
    }
    print_run(run, answer);
}

// The sequences that start with `first`.
fn row(first: u8) {
    io::print_hex(STDOUT_FILENO, first as u64, 2);
    print_run(1, ask_one(first));
    seconds(first);
    io::write_all(STDOUT_FILENO, b"\n");
}

fn rows() {
    for first in 0..=255u8 {
        row(first);
    }
}

// One line of the input.
fn case(hex: &[u8]) {
    let mut value: [u8; 64] = [0; 64];
    let n = replay_cases::decode(hex, &mut value);
    io::print_decimal(STDOUT_FILENO, ask(&value[..n]) as u64);
    io::write_all(STDOUT_FILENO, b"\n");
}

fn cases(input: &[u8]) {
    let mut at: usize = 0;
    while at < input.len() {
        let end = replay_cases::until(input, at, b'\n');
        case(&input[at..end]);
        at = end + 1;
    }
}

fn main() {
    let mut input = replay_cases::space();
    let n = io::read_full(0, &mut input);
    rows();
    cases(&input[..n]);
}
