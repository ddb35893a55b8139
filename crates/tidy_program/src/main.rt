// Reads a header from standard input and writes its tidy text, or `refused N line L` and LF.
//
// The buffer holds one byte more than the longest input that is taken, so that a longer input is noticed.
#![tactic(auto)]

// The numbers of the standard input and output.
const STDIN_FILENO: i32 = 0;

const STDOUT_FILENO: i32 = 1;

fn main() {
    let mut text = io::large_buffer();
    let mut out = io::large_buffer();
    let n = io::read_full(STDIN_FILENO, &mut text);
    let m = tidy_answer::answer(&text[..n], &mut out);
    io::write_all(STDOUT_FILENO, &out[..m]);
}
