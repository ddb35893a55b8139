// How much of an uncompressed BAM stream is its binary header.
#![tactic(auto)]

ghost use Rattle.std.specs.Prelude.{◌≡◌, ◌+◌, ◌≤◌, length};
ghost use Rattle.binary_len.specs.BinaryLen.{reference_at, references_at, binary_len};
ghost use Rattle.binary_len.specs.Step.{at_first, told, len_from, Resumes};

// The length of the binary header in bytes; or that it goes on, and how many bytes are needed to say more.
#[derive(Clone, Copy)]
pub enum Len {
    Whole(usize),
    More(usize),
}

// Where to go on. At first nothing has been passed; later the references before `at` have been passed, and `left` are still to come.
#[derive(Clone, Copy)]
pub struct Cursor {
    pub begun: bool,
    pub at: usize,
    pub left: u32,
}

// The same, and if the header goes on, the cursor for a longer front.
#[derive(Clone, Copy)]
pub enum Step {
    Whole(usize),
    More(usize, Cursor),
}

// Passes the reference at `at`: answers where the bytes after it start, where the part that is cut off ends, or a refusal.
fn pass_reference(bytes: &[u8], at: usize) -> Result<Len, u8>
    requires { at ≤ length bytes.now }
    ensures { result ≡ reference_at bytes.now at }
{
    let len = bytes.len();
    if len - at < 4 {
        return Ok(Len::More(at + 4));
    }
    let n = little_endian::get_u32(bytes, at) as usize;
    if n == 0 {
        return Err(28);
    }
    let end = at + 4 + n;
    if len < end {
        return Ok(Len::More(end));
    }
    if bytes[end - 1] != 0 {
        return Err(28); // no zero byte closes the name
    }
    if len - end < 4 {
        return Ok(Len::More(end + 4));
    }
    Ok(Len::Whole(end + 4))
}

// Passes `count` references from `start` on.
fn pass_references(bytes: &[u8], start: usize, count: u32) -> Result<Step, u8>
    requires { start ≤ length bytes.now }
    ensures answer { told result ≡ references_at bytes.now start count }
    ensures resumes { Resumes bytes.now result (λ s. references_at s start count) }
{
    let mut at = start;
    for passed in 0..count {
        match pass_reference(bytes, at)? {
            Len::Whole(next) => {
                at = next;
            }
            Len::More(n) => {
                let cursor = Cursor {
                    begun: true,
                    at,
                    left: count - passed,
                };
                return Ok(Step::More(n, cursor));
            }
        }
    }
    Ok(Step::Whole(at))
}

// Goes on at the cursor `from`. The bytes start with those of the call that returned the cursor, and more may have come since. No reference that an
// earlier call passed is passed again.
pub fn binary_len_from(bytes: &[u8], from: Cursor) -> Result<Step, u8>
    ensures answer { told result ≡ len_from from bytes.now }
    ensures resumes { Resumes bytes.now result (len_from from) }
{
    let len = bytes.len();
    if from.begun {
        let at = from.at;
        if len < at {
            return Ok(Step::More(at, from));
        }
        return pass_references(bytes, at, from.left);
    }
    if !byte_slices::starts(b"BAM\x01", bytes) {
        if byte_slices::starts(bytes, b"BAM\x01") {
            return Ok(Step::More(4, from));
        }
        return Err(28);
    }
    if len < 8 {
        return Ok(Step::More(8, from));
    }
    let end = 8 + little_endian::get_u32(bytes, 4) as usize;
    if len < end {
        return Ok(Step::More(end, from));
    }
    if len - end < 4 {
        return Ok(Step::More(end + 4, from));
    }
    let count = little_endian::get_u32(bytes, end);
    pass_references(bytes, end + 4, count)
}

// The cursor of the first call.
pub fn first_cursor() -> Cursor
    ensures { result ≡ at_first }
{
    Cursor {
        begun: false,
        at: 0,
        left: 0,
    }
}

// An answer without its cursor.
pub fn without_cursor(answer: Result<Step, u8>) -> Result<Len, u8>
    ensures { result ≡ told answer }
{
    match answer? {
        Step::Whole(n) => Ok(Len::Whole(n)),
        Step::More(n, _) => Ok(Len::More(n)),
    }
}

// The length of the binary header at the front of `bytes`. The text in it is passed over and not read.
pub fn binary_len(bytes: &[u8]) -> Result<Len, u8>
    ensures { result ≡ binary_len bytes.now }
{
    without_cursor(binary_len_from(bytes, first_cursor()))
}
