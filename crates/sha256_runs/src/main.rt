// Hashes files and writes a line for each as `sha256sum` does: the digest in hexadecimal digits, two spaces and the name of the file.
//
// The arguments name the files: the empty file, the two examples of FIPS 180-4, and random bytes whose lengths are near the end of a block and of the
// padding. The expected output was written by `sha256sum` of GNU coreutils.
#![tactic(auto)]

use std::env;
use std::fs::File;

// The number of the standard output.
const STDOUT_FILENO: i32 = 1;

fn wide(b: u8) -> u64 {
    b as u64
}

// Writes a digest in hexadecimal digits.
fn show(digest: [u8; 32]) {
    for b in &digest {
        io::print_hex(STDOUT_FILENO, wide(*b), 2);
    }
}

// Hashes what an open file holds.
fn run(file: &mut File) {
    let mut text = io::large_buffer();
    let n = case_files::read_full(file, &mut text);
    show(sha256::hash(&text[..n]));
}

// The file that an argument names.
fn case(rt: &HostRuntime, path: &str) {
    let mut file = match File::open(rt, path) {
        Ok(file) => file,
        Err(error) => {
            case_files::fail(rt, path, &error);
            return;
        }
    };
    run(&mut file);
    io::write_all(STDOUT_FILENO, b"  ");
    io::write_all(STDOUT_FILENO, path.as_bytes());
    io::write_all(STDOUT_FILENO, b"\n");
}

fn main(rt: HostRuntime) -> std::io::Result<()> {
    for path in env::args(&rt)?.skip(1) {
        case(&rt, &path);
    }
    Ok(())
}
