// Runs files as the program `tidy` runs its standard input: writes a line with the name of the file, and then what `answer` gives for its bytes.
//
// The arguments name the files. `example` is document 01's own text, `crlf`, `no_last_lf` and `empty`
// are its variants, and `repeats` and `longest_ln` are corners of it. `refused_2` to `refused_27` have
// one refusal each, on a line other than 0 where that can be; `reading_first` has a 24 before a 5.
// `full` has 65,535 bytes and no last LF, so that its tidy text has 65,536; `full_refused` has 65,535
// bytes, and `over` and `over_refused` have 65,536, each a long comment. What is expected of all these
// was written by hand from document 01, the long ones by repeating a byte. The files `model_3` to
// `model_252`, and what is expected of them, come from a model written from document 01 alone. None
// of it was made by this program.
#![tactic(auto)]

use std::env;
use std::fs::File;

// The number of the standard output.
const STDOUT_FILENO: i32 = 1;

// Answers what an open file holds, read as `tidy` reads its input.
fn run(file: &mut File) {
    let mut text = io::large_buffer();
    let mut out = io::large_buffer();
    let n = case_files::read_full(file, &mut text);
    let m = tidy_answer::answer(&text[..n], &mut out);
    io::write_all(STDOUT_FILENO, &out[..m]);
}

// The file that an argument names.
fn case(rt: &HostRuntime, path: &str) {
    io::write_all(STDOUT_FILENO, path.as_bytes());
    io::write_all(STDOUT_FILENO, b"\n");
    match File::open(rt, path) {
        Ok(mut file) => run(&mut file),
        Err(error) => case_files::fail(rt, path, &error),
    }
}

fn main(rt: HostRuntime) -> std::io::Result<()> {
    for path in env::args(&rt)?.skip(1) {
        case(&rt, &path);
    }
    Ok(())
}
