// The files that a program's arguments name: reads the front of one, or what follows a place in it, and says which can't be opened.
#![tactic(auto)]

ghost use Rattle.std.specs.Prelude.{◌≡◌, ◌≤◌, length};

use std::fs::File;
use std::io::{Error, Read, Seek, SeekFrom};

// Fills `buf` from the file, from where it stands on, as far as the file goes. Answers how many bytes that is: a read that fails ends it.
pub fn read_full(file: &mut File, buf: &mut [u8]) -> usize
    ensures within { result ≤ length buf.new }
    ensures len { length buf.new ≡ length buf.old }
{
    let mut n: usize = 0;
    while n < buf.len() {
        let got = read_some(file, &mut buf[n..]);
        if got == 0 {
            return n;
        }
        n += got;
    }
    n
}

// Reads some bytes to the front of `buf`, and answers how many: 0 at the end of the file, and where the read fails.
fn read_some(file: &mut File, buf: &mut [u8]) -> usize
    ensures { result ≤ length buf.new }
{
    match file.read(buf) {
        Ok(got) => got,
        Err(_) => 0,
    }
}

// Fills `buf` from the place `at` of the file on; where the file has no places, from where it stands on.
pub fn read_full_at(file: &mut File, at: usize, buf: &mut [u8]) -> usize
    ensures within { result ≤ length buf.new }
    ensures len { length buf.new ≡ length buf.old }
{
    let _ = file.seek(SeekFrom::Start(at as u64));
    read_full(file, buf)
}

// Writes a line to standard error: the name of a file, and why it can't be opened.
pub fn fail(rt: &HostRuntime, name: &str, error: &Error) {
    let _ = eprintln!(rt; "{name}: {error}");
}
