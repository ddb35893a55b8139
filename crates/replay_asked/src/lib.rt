// What a line of stored answers asks, and how often each question was asked and answered wrongly (the crate `replay` describes the lines).
#![tactic(auto)]

ghost use Rattle.std.specs.Prelude.{◌≡◌, length};

// The number of the standard output.
const STDOUT_FILENO: i32 = 1;

// What a line asks, as the place of its count. The places after these count what went wrong.
pub const COUNT: usize = 0;

pub const KEY: usize = 1;

pub const LENGTH: usize = 2;

pub const LINE: usize = 3;

pub const FIELD: usize = 4;

pub const ROOTS: usize = 5;

pub const LEAVES: usize = 6;

pub const BY_TABLE: usize = 7;

pub const ADDED: usize = 8;

pub const NAMES: usize = 9;

pub const PRUNED: usize = 10;

pub const PROGRAM: usize = 11;

pub const TIDIED: usize = 12;

pub const CARRIED: usize = 13;

pub const READ: usize = 14;

pub const BINARY_OUT: usize = 15;

pub const BINARY_IN: usize = 16;

pub const READ_WITH: usize = 17;

pub const REFUSED: usize = 18;

pub const ACCEPTED: usize = 19;

pub const UNWRITABLE: usize = 20;

pub const UNKNOWN: usize = 21;

pub const WRONG: usize = 22;

pub const MARKED: usize = 23;

pub const FOUND: usize = 24;

pub const MERGED: usize = 25;

pub const TEXT_LEN: usize = 26;

pub const BINARY_LEN: usize = 27;

pub const FIND: usize = 28;

pub const REFERENCES: usize = 29;

pub const SEALED: usize = 30;

pub const CHECK_SEALED: usize = 31;

pub const FAULTS: usize = 32;

// What a line asks: its first word is a call, or its second word is what noodles-sam makes of the text.
pub fn asked_by(line: &[u8]) -> usize {
    let call = replay_cases::word(line, 0);
    if byte_slices::same(call, b"count") {
        return COUNT;
    }
    if byte_slices::same(call, b"key") {
        return KEY;
    }
    if byte_slices::same(call, b"ln") {
        return LENGTH;
    }
    if byte_slices::same(call, b"line") {
        return LINE;
    }
    if byte_slices::same(call, b"field") {
        return FIELD;
    }
    if byte_slices::same(call, b"roots") {
        return ROOTS;
    }
    if byte_slices::same(call, b"leaves") {
        return LEAVES;
    }
    if byte_slices::same(call, b"leaves_by_table") {
        return BY_TABLE;
    }
    if byte_slices::same(call, b"add") {
        return ADDED;
    }
    if byte_slices::same(call, b"names") {
        return NAMES;
    }
    if byte_slices::same(call, b"prune") {
        return PRUNED;
    }
    if byte_slices::same(call, b"judge_merge") {
        return MERGED;
    }
    found_by(line)
}

// What a line asks about a key, about all references, a seal or faults.
fn found_by(line: &[u8]) -> usize {
    let call = replay_cases::word(line, 0);
    if byte_slices::same(call, b"find") {
        return FIND;
    }
    if byte_slices::same(call, b"references") {
        return REFERENCES;
    }
    if byte_slices::same(call, b"seal") {
        return SEALED;
    }
    if byte_slices::same(call, b"check_sealed") {
        return CHECK_SEALED;
    }
    if byte_slices::same(call, b"faults") {
        return FAULTS;
    }
    written_by(line)
}

// What a line asks of only a text or a binary header.
fn written_by(line: &[u8]) -> usize {
    let call = replay_cases::word(line, 0);
    if byte_slices::same(call, b"program") {
        return PROGRAM;
    }
    if byte_slices::same(call, b"tidy") {
        return TIDIED;
    }
    if byte_slices::same(call, b"carry_on") {
        return CARRIED;
    }
    if byte_slices::same(call, b"read") {
        return READ;
    }
    if byte_slices::same(call, b"binary_out") {
        return BINARY_OUT;
    }
    if byte_slices::same(call, b"binary_in") {
        return BINARY_IN;
    }
    if byte_slices::same(call, b"read_with") {
        return READ_WITH;
    }
    if byte_slices::same(call, b"text_len") {
        return TEXT_LEN;
    }
    if byte_slices::same(call, b"binary_len") {
        return BINARY_LEN;
    }
    judged_by(replay_cases::word(line, 1))
}

// What noodles-sam makes of a text, from its name.
fn judged_by(word: &[u8]) -> usize {
    if byte_slices::same(word, b"refused") {
        return REFUSED;
    }
    if byte_slices::same(word, b"accepted") {
        return ACCEPTED;
    }
    if byte_slices::same(word, b"unwritable") {
        return UNWRITABLE;
    }
    UNKNOWN
}

// Adds one to a count.
pub fn tick(tally: &mut [u32], at: usize)
    ensures { length tally.new ≡ length tally.old }
{
    if at < tally.len() {
        if tally[at] < 1000000 {
            tally[at] += 1;
        }
    }
}

// Writes a count with its name.
fn print_number(name: &[u8], n: u32) {
    io::write_all(STDOUT_FILENO, name);
    io::print_decimal(STDOUT_FILENO, n as u64);
}

// Writes a count with its name, if it is not 0.
fn print_count(name: &[u8], n: u32) {
    if n != 0 {
        print_number(name, n);
    }
}

// Writes how many lines ask for a text or a table to be written.
fn print_written(tally: &[u32])
    requires { length tally.now ≡ 33 }
{
    print_count(b" add ", tally[ADDED]);
    print_count(b" names ", tally[NAMES]);
    print_count(b" prune ", tally[PRUNED]);
    print_count(b" program ", tally[PROGRAM]);
    print_count(b" tidy ", tally[TIDIED]);
    print_count(b" carry_on ", tally[CARRIED]);
    print_count(b" read ", tally[READ]);
    print_count(b" binary_out ", tally[BINARY_OUT]);
    print_count(b" binary_in ", tally[BINARY_IN]);
    print_count(b" read_with ", tally[READ_WITH]);
    print_count(b" judge_merge ", tally[MERGED]);
}

// Writes how many lines ask how long a header is.
fn print_lens(tally: &[u32])
    requires { length tally.now ≡ 33 }
{
    print_count(b" text_len ", tally[TEXT_LEN]);
    print_count(b" binary_len ", tally[BINARY_LEN]);
}

// Writes how many lines ask about a key, or about all references.
fn print_sought(tally: &[u32])
    requires { length tally.now ≡ 33 }
{
    print_count(b" find ", tally[FIND]);
    print_count(b" references ", tally[REFERENCES]);
}

// Writes how many lines ask for a seal, or for faults.
fn print_sealed(tally: &[u32])
    requires { length tally.now ≡ 33 }
{
    print_count(b" seal ", tally[SEALED]);
    print_count(b" check_sealed ", tally[CHECK_SEALED]);
    print_count(b" faults ", tally[FAULTS]);
}

// Writes how many lines ask each call.
pub fn print_asked(tally: &[u32])
    requires { length tally.now ≡ 33 }
{
    print_count(b" count ", tally[COUNT]);
    print_count(b" key ", tally[KEY]);
    print_count(b" ln ", tally[LENGTH]);
    print_count(b" line ", tally[LINE]);
    print_count(b" field ", tally[FIELD]);
    print_count(b" roots ", tally[ROOTS]);
    print_count(b" leaves ", tally[LEAVES]);
    print_count(b" leaves_by_table ", tally[BY_TABLE]);
    print_written(tally);
    print_lens(tally);
    print_sought(tally);
    print_sealed(tally);
}

// Writes how many texts noodles-sam judged in each way, and how many lines ask nothing.
pub fn print_judged(tally: &[u32])
    requires { length tally.now ≡ 33 }
{
    print_count(b" refused ", tally[REFUSED]);
    print_count(b" accepted ", tally[ACCEPTED]);
    print_count(b" unwritable ", tally[UNWRITABLE]);
    print_count(b" unknown ", tally[UNKNOWN]);
}

// Writes how many answers were wrong, and how many marked lines were found.
pub fn print_found(tally: &[u32])
    requires { length tally.now ≡ 33 }
{
    print_number(b" wrong ", tally[WRONG]);
    print_number(b", known wrong found ", tally[FOUND]);
    print_number(b" of ", tally[MARKED]);
    io::write_all(STDOUT_FILENO, b"\n");
}
