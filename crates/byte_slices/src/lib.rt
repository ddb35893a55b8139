// Bytes of a lent slice: finds the first place of a byte, compares slices, cuts off the first line, and copies bytes.
#![tactic(auto)]

ghost use Rattle.std.specs.Prelude.{◌≡◌, ◌≤◌, ◌+◌, ◌*◌, ◌/◌, leb, length, drop};
ghost use Rattle.format.specs.Bytes.{same, starts};
ghost use Rattle.byte_slices.specs.Upto.{upto, leads};
ghost use Rattle.byte_slices.specs.First.{first_line};
ghost use Rattle.byte_slices.specs.Over.{over};

// Whether none of the 16 bytes of `s` from `at` on is `d`. All 16 are always looked at, so that the processor can compare them at once.
fn is_free_block(s: &[u8], at: usize, d: u8) -> bool
    requires { at + 16 ≤ length s.now }
    ensures { result ≡ leb 16 (upto d (drop at s.now)) }
{
    let mut free = true;
    for i in 0..16 {
        if s[at + i] == d {
            free = false;
        }
    }
    free
}

// How many bytes are in the blocks of 16 at the front of `s` that come before the one with the first `d`.
fn pass_blocks(s: &[u8], d: u8) -> usize
    ensures { result ≡ upto d s.now / 16 * 16 }
{
    let blocks = s.len() / 16;
    for block in 0..blocks {
        if !is_free_block(s, block * 16, d) {
            return block * 16;
        }
    }
    blocks * 16
}

// How many bytes of `s` come before the first `d`: all if there is none. Goes block by block, and then byte by byte.
pub fn upto(s: &[u8], d: u8) -> usize
    ensures { result ≡ upto d s.now }
{
    for i in pass_blocks(s, d)..s.len() {
        if s[i] == d {
            return i;
        }
    }
    s.len()
}

// Whether `a` and `b` have the same bytes.
pub fn same(a: &[u8], b: &[u8]) -> bool
    ensures { result ≡ same a.now b.now }
{
    a == b
}

// Whether `s` starts with `p`.
pub fn starts(p: &[u8], s: &[u8]) -> bool
    ensures { result ≡ starts p.now s.now }
{
    s.starts_with(p)
}

// Whether the first byte of `s` is `b`.
pub fn leads(s: &[u8], b: u8) -> bool
    ensures { result ≡ leads b s.now }
{
    s.first() == Some(&b)
}

// A line at the front of a text: its length without the ending, and where the next line starts.
#[derive(Clone, Copy)]
pub struct Cut {
    pub len: usize,
    pub next: usize,
}

// The first line of `s`. It ends at LF, and one CR just before that LF belongs to the ending.
pub fn first_line(s: &[u8]) -> Cut
    ensures { result ≡ first_line s.now }
{
    let n = upto(s, b'\n');
    if n == s.len() {
        return Cut { len: n, next: n };
    }
    if n == 0 {
        return Cut { len: 0, next: 1 };
    }
    if s[n - 1] == b'\r' {
        return Cut {
            len: n - 1,
            next: n + 1,
        };
    }
    Cut {
        len: n,
        next: n + 1,
    }
}

// Copies all of `from` into `out`, starting at `at`.
pub fn put_bytes(out: &mut [u8], at: usize, from: &[u8])
    requires { at + length from.now ≤ length out.old }
    ensures { out.new ≡ over out.old at from.now }
{
    for i in 0..from.len() {
        out[at + i] = from[i];
    }
}
