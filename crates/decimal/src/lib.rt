// Decimal numbers: reads one at the front of a slice, and writes one into a slice.
#![tactic(auto)]

ghost use Rattle.std.specs.Prelude.{◌≡◌, suc, ◌≤◌, ◌+◌, ◌^◌, length};
ghost use Rattle.format.specs.Decimal.{written};
ghost use Rattle.byte_slices.specs.Over.{over};
ghost use Rattle.decimal.specs.Number.{number_at_front, NumberTold};

// A number at the front of a slice: its value and how many digits it has.
#[derive(Clone, Copy, Debug, PartialEq, Eq)]
pub struct Number {
    pub value: u64,
    pub len: usize,
}

// Why there is no number at the front of a slice.
#[derive(Clone, Copy, Debug, PartialEq, Eq)]
pub enum NumberError {
    NoDigit,
    TooLarge,
}

// Reads the digits at the front of `s` as a number of at most `max`. Leading zeros are allowed; a sign is not a digit.
pub fn read_up_to(s: &[u8], max: u64) -> Result<Number, NumberError>
    ensures { result ≡ number_at_front (suc max) s.now }
{
    let tenth = max / 10;
    let mut value: u64 = 0;
    let mut len: usize = 0;
    for b in s {
        if !b.is_ascii_digit() {
            break;
        }
        let digit = (*b - b'0') as u64;
        if tenth < value {
            return Err(NumberError::TooLarge);
        }
        let tens = value * 10;
        if max - tens < digit {
            return Err(NumberError::TooLarge);
        }
        value = tens + digit;
        len += 1;
    }
    if len == 0 {
        return Err(NumberError::NoDigit);
    }
    Ok(Number { value, len })
}

pub fn read_u32(s: &[u8]) -> Result<Number, NumberError>
    ensures { result ≡ number_at_front (2 ^ 32) s.now }
{
    read_up_to(s, u32::MAX as u64)
}

pub fn read_u64(s: &[u8]) -> Result<Number, NumberError>
    ensures is { result ≡ number_at_front (2 ^ 64) s.now }
    ensures refusal { NumberTold s.now result }
{
    read_up_to(s, u64::MAX)
}

// How many digits `v` has.
pub fn len_u64(v: u64) -> usize
    ensures { result ≡ length (written v) }
{
    let mut rest = v;
    let mut n: usize = 1;
    while 10 <= rest {
        rest /= 10;
        n += 1;
    }
    n
}

// Writes `v` at `at`, without leading zeros, and answers the place after it.
pub fn write_u64(out: &mut [u8], at: usize, v: u64) -> usize
    requires { at + length (written v) ≤ length out.old }
    ensures next { result ≡ at + length (written v) }
    ensures wrote { out.new ≡ over out.old at (written v) }
{
    let n = len_u64(v);
    let mut rest = v;
    for i in (0..n).rev() {
        out[at + i] = (rest % 10) as u8 + b'0';
        rest /= 10;
    }
    at + n
}

pub fn write_u32(out: &mut [u8], at: usize, v: u32) -> usize
    requires { at + length (written v) ≤ length out.old }
    ensures next { result ≡ at + length (written v) }
    ensures wrote { out.new ≡ over out.old at (written v) }
{
    write_u64(out, at, v as u64)
}
