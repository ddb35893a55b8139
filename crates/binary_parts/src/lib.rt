// Takes a binary header apart: where its text and its reference list are, or that the bytes are not a binary header.
#![tactic(auto)]

ghost use Rattle.std.specs.Prelude.{◌≡◌, ◌+◌, ◌≤◌, eqb, length, drop, IfSome};
ghost use Rattle.format.specs.Programs.{last_or};
ghost use Rattle.format.specs.Binary.{take_number, take_sized, take_reference, take_list, take_both, binary_parts, unpadded};
ghost use Rattle.binary_parts.specs.Parts.{number_taken, run_from, reference_from, is_whole, parts_from, PartsStand};
ghost use Rattle.binary_parts.specs.Places.{number_at, run_at, reference_at, both_at, parts_at};

// A number, and where the bytes after it start.
#[derive(Clone, Copy)]
pub struct NumberAt {
    pub value: u32,
    pub next: usize,
}

// A run of bytes. The bytes after it start at its end.
#[derive(Clone, Copy)]
pub struct RunAt {
    pub at: usize,
    pub len: usize,
}

// A reference: where its name is, its length, and where the bytes after it start.
#[derive(Clone, Copy)]
pub struct ReferenceAt {
    pub name: usize,
    pub len: usize,
    pub size: u32,
    pub next: usize,
}

// Where the text is, where the reference list starts, and how many references it has.
#[derive(Clone, Copy)]
pub struct PartsAt {
    pub text: usize,
    pub len: usize,
    pub list: usize,
    pub count: u32,
}

// The number in the four bytes at `at`, if there are four.
fn take_number(bytes: &[u8], at: usize) -> Option<NumberAt>
    requires { at ≤ length bytes.now }
    ensures taken { take_number (drop at bytes.now) ≡ number_taken bytes.now result }
    ensures inside { IfSome result (λ n. n.next ≤ length bytes.now) }
    ensures is { result ≡ number_at bytes.now at }
{
    if bytes.len() - at < 4 {
        return None;
    }
    let value = little_endian::get_u32(bytes, at);
    Some(NumberAt {
        value,
        next: at + 4,
    })
}

// The run of bytes at `at`, which comes after its length.
fn take_sized(bytes: &[u8], at: usize) -> Option<RunAt>
    requires { at ≤ length bytes.now }
    ensures taken { take_sized (drop at bytes.now) ≡ run_from bytes.now result }
    ensures inside { IfSome result (λ r. r.at + r.len ≤ length bytes.now) }
    ensures is { result ≡ run_at bytes.now at }
{
    let number = take_number(bytes, at)?;
    let start = number.next;
    let len = number.value as usize;
    if bytes.len() - start < len {
        return None;
    }
    Some(RunAt { at: start, len })
}

// Whether a zero byte is at the end of the run. An empty run has none.
fn is_closed(run: &[u8]) -> bool
    ensures { result ≡ eqb (last_or 1 run.now) 0 }
{
    let n = run.len();
    if n == 0 {
        return false; // an empty run has no last byte
    }
    run[n - 1] == 0
}

// The reference at `at`, if there is one.
pub fn take_reference(bytes: &[u8], at: usize) -> Option<ReferenceAt>
    requires { at ≤ length bytes.now }
    ensures taken { take_reference (drop at bytes.now) ≡ reference_from bytes.now result }
    ensures inside { IfSome result (λ r. r.next ≤ length bytes.now) }
    ensures name { IfSome result (λ r. r.name + r.len ≤ length bytes.now) }
    ensures is { result ≡ reference_at bytes.now at }
{
    let run = take_sized(bytes, at)?;
    let start = run.at;
    let end = start + run.len;
    if !is_closed(&bytes[start..end]) {
        return None;
    }
    let size = take_number(bytes, end)?;
    Some(ReferenceAt {
        name: start,
        len: run.len - 1,
        size: size.value,
        next: size.next,
    })
}

// Whether `count` references start at `start` and nothing follows them.
fn is_whole_list(bytes: &[u8], start: usize, count: u32) -> bool
    requires { start ≤ length bytes.now }
    ensures { result ≡ is_whole (take_list count (drop start bytes.now)) }
{
    let mut at = start;
    for _ in 0..count {
        let Some(reference) = take_reference(bytes, at) else {
            return false;
        };
        at = reference.next;
    }
    at == bytes.len()
}

// The text and the reference list at `at`, if nothing follows them.
fn take_both(bytes: &[u8], at: usize) -> Option<PartsAt>
    requires { at ≤ length bytes.now }
    ensures taken { take_both (drop at bytes.now) ≡ parts_from bytes.now result }
    ensures stands { IfSome result (λ p. PartsStand bytes.now p) }
    ensures is { result ≡ both_at bytes.now at }
{
    let text = take_sized(bytes, at)?;
    let count = take_number(bytes, text.at + text.len)?;
    if !is_whole_list(bytes, count.next, count.value) {
        return None;
    }
    Some(PartsAt {
        text: text.at,
        len: text.len,
        list: count.next,
        count: count.value,
    })
}

// The parts of a binary header: `BAM` and the byte 1 at the start, then the text and the reference list.
pub fn parts(bytes: &[u8]) -> Option<PartsAt>
    ensures taken { binary_parts bytes.now ≡ parts_from bytes.now result }
    ensures stands { IfSome result (λ p. PartsStand bytes.now p) }
    ensures is { result ≡ parts_at bytes.now }
{
    if !byte_slices::starts(b"BAM\x01", bytes) {
        return None;
    }
    take_both(bytes, 4)
}

// The length of the run without the zero bytes at its end.
pub fn unpadded_len(run: &[u8]) -> usize
    ensures { result ≡ length (unpadded run.now) }
{
    for n in (0..run.len()).rev() {
        if run[n] != 0 {
            return n + 1;
        }
    }
    0
}
