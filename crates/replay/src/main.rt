// Replays stored answers. Each line of the files that its arguments name is a question with its answer, and the library's answer is compared with it.
// One line of counts is written for each file.
//
// `vectors.txt`: 373 questions to `count`, `key`, `length`, `field`, `roots`, `leaves`, `add` and `answer`, answered by a model written from
// document 01 alone.
// `chains.txt`: chains, forests, dangling and looping headers, stale catalogues, the corners of each call and of adding, written by
// `oracle/chains` from the rules of documents 01 and 02; no answer in it comes from this library or from the crate.
// `oracle.txt`: 536 texts, answered by noodles-sam 0.93.0 (`oracle/README.md`, "The fixed sample").
// `readings.txt`: 316 texts to `read`. 128 are the corners of documents 01 and 02: each refusal of reading but 1, on both sides, 1,024 programs
// and one more; their answers were written by hand from these documents. 188 are longer, and answered by a model written from these alone.
// `names.txt`: questions to `names`, answered by a model written from document 02 alone.
// `requests.txt`: questions to every call, answered by that model, request by request.
// `more.txt`: questions to the calls that no document names, answered by a model written from what was asked of them, and their edges by hand.
// `faults.txt`: questions to `faults`, 58 answered by that model, the others by another written from the rule.
// `seal.txt`: questions to `seal` and `check_sealed`, 100 answered by that model, the others written by hand.
// `merges.txt`: merges that samtools, picard and sambamba made of small headers, judged by a model written from document 02 alone (`oracle/merges`).
// `lens.txt`: fronts of SAM files and of uncompressed BAM streams, to `text_len` and `binary_len`: answered by that model, written by samtools, and
// corners written by hand.
//
// Words are separated by one space; byte strings are in hex, `-` for none. A line is a call, its text, its catalogue (`=` for the one that
// `read::read` gives), its other arguments, and the answer:
//     count TEXT KEPT KIND ok COUNT
//     key TEXT KEPT KIND ORDINAL ok OFFSET LENGTH
//     ln TEXT KEPT ORDINAL ok LN
//     line TEXT KEPT KIND ORDINAL ok LINE
//     field TEXT KEPT KIND ORDINAL TAG STAND-IN BYTES
//     roots TEXT KEPT ROOM ok ORDINALS
//     leaves TEXT KEPT ROOM ok ORDINALS HOPS
//     leaves_by_table TEXT KEPT ROOM SEATS ok ORDINALS HOPS ROWS
//     add TEXT KEPT ROOM PREFIX FIELDS ok BYTES
//     names TEXT KEPT LIST WORK ROOM ok ORDINALS INDEX LOOKS
//     prune TEXT KEPT ROOM USED ok BYTES
//     find TEXT KEPT KIND KEY ok ORDINAL
//     references TEXT KEPT ROOM ok COUNT ROWS
//     check_sealed TEXT KEPT ROOM SEAL ok
// or `refused NUMBER LINE` in place of `ok ..`. ORDINALS have four hex digits each; those of names and of USED have eight, and so have the slots of
// INDEX, the parent and the depth of each program in ROWS, and each number of a row of references. SEATS is how many records the table has. LOOKS is
// `-` if it is not stored. Calls that take only a text:
//     program TEXT BYTES
//     tidy TEXT ROOM ok BYTES
//     carry_on TEXT ROOM TABLE ok BYTES ROWS
//     faults TEXT TABLE ok ROWS
//     read TEXT ROOM ok CATALOGUE
//     read_with TEXT ROOM SLOTS ok CATALOGUE
//     binary_out TEXT ROOM ok BYTES
//     binary_in BYTES ROOM ok BYTES
//     seal TEXT ROOM ok SEAL
// `program` has what the program on standard input writes, `tidy` the tidy text, `carry_on` the tidy text of what is kept and the table of what is
// skipped, eight digits per number, `faults` the table of the faulty lines, and `read` the catalogue. The check must take that catalogue, and refuse
// it with another last byte. `read_with` has the catalogue again, made with a work area of SLOTS numbers, which is all zeros afterwards. `binary_out`
// has the binary header, and `binary_in` the tidy text of a binary header. `seal` has the seal, made with a work area of ROOM bytes, which must be as
// tidying leaves it; so it must be after the check of a seal, unless that is refused before 33. A line of the oracle has its text first; each such
// text is read, tidied, and asked for its roots and leaves. Every element of a lent output is looked at: what is not the answer must be as it was. No
// program can see where the answer of `field` is; its contract says it. Calls that take three texts and two lists:
//     judge_merge A B MERGED LIST_A LIST_B ok
// or `refused NUMBER LINE ABOUT` in place of `ok`: ABOUT is `A`, `B` or `M` for the text that it is about, or `-`; each number of a list has eight
// hex digits. Calls that take the front of a file or of a stream:
//     text_len BYTES ok COUNT
//     binary_len BYTES ok whole COUNT
//     binary_len BYTES ok more COUNT
// or `refused 28 0`. The answer must be the same if as many bytes as are asked for are lent each time, with the cursor.
//
// A line that starts with `!` holds a wrong answer, and the program must find it wrong, which shows that each comparison can fail. A line that starts
// with `#` is a note.
#![tactic(auto)]

ghost use Rattle.std.specs.Prelude.{◌≡◌, ◌<◌, ◌≤◌, ◌+◌, length};

use replay_asked::{
    ACCEPTED, ADDED, BINARY_IN, BINARY_LEN, BINARY_OUT, BY_TABLE, CARRIED, CHECK_SEALED, COUNT,
    FAULTS, FIELD, FIND, FOUND, KEY, LEAVES, LENGTH, LINE, MARKED, MERGED, NAMES, PROGRAM, PRUNED,
    READ, READ_WITH, REFERENCES, REFUSED, ROOTS, SEALED, TEXT_LEN, UNKNOWN, UNWRITABLE, WRONG,
};
use std::env;
use std::fs::File;

// The number of the standard output.
const STDOUT_FILENO: i32 = 1;

// The comparison for each call.
fn is_call(line: &[u8], asked: usize, text: &[u8], kept: &[u8], out: &mut [u32]) -> bool {
    match asked {
        COUNT => replay_calls::is_count(line, text, kept),
        KEY => replay_calls::is_key(line, text, kept),
        LENGTH => replay_calls::is_length(line, text, kept),
        LINE => replay_calls::is_line(line, text, kept),
        FIELD => replay_calls::is_field(line, text, kept),
        ROOTS => replay_graphs::is_roots(line, text, kept, out),
        LEAVES => replay_graphs::is_leaves(line, text, kept, out),
        BY_TABLE => replay_table::is_leaves_by_table(line, text, kept, out),
        FIND => replay_found::is_found(line, text, kept),
        REFERENCES => replay_found::is_referenced(line, text, kept, out),
        _ => false,
    }
}

// Whether a call on a text and its catalogue answers as the line says.
fn is_answer(line: &[u8], asked: usize, text: &[u8]) -> bool {
    let mut kept = io::large_buffer();
    let n = replay_calls::keep(replay_cases::word(line, 2), text, &mut kept);
    if asked == ADDED {
        let mut out = replay_answers::bytes();
        return replay_texts::is_added(line, text, &kept[..n], &mut out);
    }
    if asked == PRUNED {
        let mut out = replay_answers::bytes();
        return replay_prune::is_pruned(line, text, &kept[..n], &mut out);
    }
    let mut out = replay_answers::ordinals();
    if asked == NAMES {
        let mut work = replay_answers::ordinals();
        return replay_names::is_names(line, text, &kept[..n], &mut work, &mut out);
    }
    is_call(line, asked, text, &kept[..n], &mut out)
}

// Whether a call on only a text or a binary header answers as the line says.
fn is_written(line: &[u8], asked: usize, text: &[u8]) -> bool {
    if asked == PROGRAM {
        return replay_texts::is_program(line, text);
    }
    let mut out = replay_answers::bytes();
    if asked == CARRIED {
        let mut table = replay_answers::ordinals();
        return replay_carried::is_carried(line, text, &mut out, &mut table);
    }
    if asked == FAULTS {
        let mut table = replay_answers::ordinals();
        return replay_faults::is_faults(line, text, &mut table);
    }
    if asked == READ_WITH {
        let mut work = replay_answers::ordinals();
        return replay_work::is_read_with(line, text, &mut out, &mut work);
    }
    match asked {
        READ => replay_graphs::is_reading(line, text, &mut out),
        BINARY_OUT => replay_texts::is_binary_out(line, text, &mut out),
        BINARY_IN => replay_texts::is_binary_in(line, text, &mut out),
        _ => replay_texts::is_tidied(line, text, &mut out),
    }
}

// Whether the library says the same of a text as noodles-sam.
fn is_sample(line: &[u8], asked: usize, text: &[u8]) -> bool {
    let mut kept = replay_answers::bytes();
    let mut out = replay_answers::bytes();
    match asked {
        REFUSED => replay_graphs::is_read_refused(line, text, &mut kept)
            && replay_texts::is_tidy_refused(line, text, &mut out),
        ACCEPTED => {
            replay_graphs::is_read(line, text, &mut kept)
                && replay_texts::is_tidy(replay_cases::word(line, 2), text, &mut out)
        }
        UNWRITABLE => {
            replay_graphs::is_read(line, text, &mut kept)
                && replay_texts::is_unwritable(replay_cases::word(line, 2), text, &mut out)
        }
        _ => false,
    }
}

// Whether the library's answer is the one in the line.
fn is_right(line: &[u8], asked: usize) -> bool {
    if asked == MERGED {
        return replay_merged::is_merged(line);
    }
    if asked == TEXT_LEN {
        return replay_lens::is_text_len(line);
    }
    if asked == BINARY_LEN {
        return replay_lens::is_binary_len(line);
    }
    if asked == SEALED {
        return replay_seal::is_sealed(line);
    }
    if asked == CHECK_SEALED {
        return replay_seal::is_check_sealed(line);
    }
    let mut text = io::large_buffer();
    if asked < PROGRAM || asked == FIND || asked == REFERENCES {
        let n = replay_cases::decode(replay_cases::word(line, 1), &mut text);
        return is_answer(line, asked, &text[..n]);
    }
    if asked < REFUSED || asked == FAULTS {
        let n = replay_cases::decode(replay_cases::word(line, 1), &mut text);
        return is_written(line, asked, &text[..n]);
    }
    let n = replay_cases::decode(replay_cases::word(line, 0), &mut text);
    is_sample(line, asked, &text[..n])
}

// One line of a file.
fn case(line: &[u8], tally: &mut [u32])
    ensures { length tally.new ≡ length tally.old }
{
    let asked = replay_asked::asked_by(line);
    replay_asked::tick(tally, asked);
    if !is_right(line, asked) {
        replay_asked::tick(tally, WRONG);
    }
}

// A marked line: it asks something, and its answer must be found wrong.
fn marked_case(line: &[u8], tally: &mut [u32])
    ensures { length tally.new ≡ length tally.old }
{
    replay_asked::tick(tally, MARKED);
    let asked = replay_asked::asked_by(line);
    if asked == UNKNOWN {
        return;
    }
    if !is_right(line, asked) {
        replay_asked::tick(tally, FOUND);
    }
}

// A line of a file: a case, a marked case, or a note.
fn any_case(line: &[u8], tally: &mut [u32])
    ensures { length tally.new ≡ length tally.old }
{
    if line.len() == 0 {
        case(line, tally);
        return;
    }
    if line[0] == b'#' {
        return;
    }
    if line[0] == b'!' {
        marked_case(&line[1..], tally);
        return;
    }
    case(line, tally);
}

// Replays the whole lines of `input`. Answers how many bytes they are.
fn block(input: &[u8], tally: &mut [u32]) -> usize
    ensures { (result ≤ length input.now) × (length tally.new ≡ length tally.old) }
{
    let mut at: usize = 0;
    while at < input.len() {
        let end = replay_cases::until(input, at, b'\n');
        if end == input.len() {
            return at;
        }
        any_case(&input[at..end], tally);
        at = end + 1;
    }
    at
}

// Replays the whole lines of the part of a file that starts at `at`, and answers how many bytes they are: 0 at the end of the file. A last line
// without LF, or a line that is longer than the buffer, is counted as wrong.
fn next_block(file: &mut File, at: usize, tally: &mut [u32]) -> usize
    requires { at < 16777216 }
    ensures { (result ≤ 131072) × (length tally.new ≡ length tally.old) }
{
    let mut input = replay_cases::space();
    let n = case_files::read_full_at(file, at, &mut input);
    if n == 0 {
        return 0;
    }
    let done = block(&input[..n], tally);
    if done == 0 {
        replay_asked::tick(tally, WRONG);
    }
    done
}

// Replays all lines of a file of less than 16,777,216 bytes. Nothing guarantees that a file ends, and a proved loop has to.
fn all_blocks(file: &mut File, tally: &mut [u32])
    ensures { length tally.new ≡ length tally.old }
{
    let mut at: usize = 0;
    while at < 16777216 {
        let done = next_block(file, at, tally);
        if done == 0 {
            return;
        }
        at += done;
    }
}

// Replays one file, which an argument names.
fn replay(rt: &HostRuntime, name: &str) {
    let mut file = match File::open(rt, name) {
        Ok(file) => file,
        Err(error) => {
            case_files::fail(rt, name, &error);
            return;
        }
    };
    let mut tally: [u32; 33] = [0; 33];
    all_blocks(&mut file, &mut tally);
    io::write_all(STDOUT_FILENO, name.as_bytes());
    io::write_all(STDOUT_FILENO, b":");
    replay_asked::print_asked(&tally);
    replay_asked::print_judged(&tally);
    replay_asked::print_found(&tally);
}

// Replays the file that each argument names.
fn main(rt: HostRuntime) -> std::io::Result<()> {
    for name in env::args(&rt)?.skip(1) {
        replay(&rt, &name);
    }
    Ok(())
}
