// Reference names that can be written. The reader takes any value as a name; the writer takes only those that follow the specification's rule.
#![tactic(auto)]

ghost use Rattle.std.specs.Prelude.{◌≡◌};
ghost use Rattle.format.specs.Tidy.{is_name};
ghost use Rattle.tidy_name.specs.Runs.{name_run};

// The classes of bytes: 0 for a byte that no name has, 2 for one that may be anywhere in a name, and 1 for one that may be anywhere but at the start.
const NEVER: u8 = 0;

const ANYWHERE: u8 = 2;

// The class of each byte, from 0 on. A comment shows each byte that a name may have.
const CLASSES: [u8; 256] = [
    0, 0, 0, 0, 0, 0, 0, 0, 0, 0, 0, 0, 0, 0, 0, 0, 0, 0, 0, 0, 0, 0, 0, 0, 0, 0, 0, 0, 0, 0, 0, 0,
    0, 2, // !
    0, 2, // #
    2, // $
    2, // %
    2, // &
    0, 0, 0, 1, // *
    2, // +
    0, 2, // -
    2, // .
    2, // /
    2, // 0
    2, // 1
    2, // 2
    2, // 3
    2, // 4
    2, // 5
    2, // 6
    2, // 7
    2, // 8
    2, // 9
    2, // :
    2, // ;
    0, 1, // =
    0, 2, // ?
    2, // @
    2, // A
    2, // B
    2, // C
    2, // D
    2, // E
    2, // F
    2, // G
    2, // H
    2, // I
    2, // J
    2, // K
    2, // L
    2, // M
    2, // N
    2, // O
    2, // P
    2, // Q
    2, // R
    2, // S
    2, // T
    2, // U
    2, // V
    2, // W
    2, // X
    2, // Y
    2, // Z
    0, 0, 0, 2, // ^
    2, // _
    0, 2, // a
    2, // b
    2, // c
    2, // d
    2, // e
    2, // f
    2, // g
    2, // h
    2, // i
    2, // j
    2, // k
    2, // l
    2, // m
    2, // n
    2, // o
    2, // p
    2, // q
    2, // r
    2, // s
    2, // t
    2, // u
    2, // v
    2, // w
    2, // x
    2, // y
    2, // z
    0, 2, // |
    0, 2, // ~
    0, 0, 0, 0, 0, 0, 0, 0, 0, 0, 0, 0, 0, 0, 0, 0, 0, 0, 0, 0, 0, 0, 0, 0, 0, 0, 0, 0, 0, 0, 0, 0,
    0, 0, 0, 0, 0, 0, 0, 0, 0, 0, 0, 0, 0, 0, 0, 0, 0, 0, 0, 0, 0, 0, 0, 0, 0, 0, 0, 0, 0, 0, 0, 0,
    0, 0, 0, 0, 0, 0, 0, 0, 0, 0, 0, 0, 0, 0, 0, 0, 0, 0, 0, 0, 0, 0, 0, 0, 0, 0, 0, 0, 0, 0, 0, 0,
    0, 0, 0, 0, 0, 0, 0, 0, 0, 0, 0, 0, 0, 0, 0, 0, 0, 0, 0, 0, 0, 0, 0, 0, 0, 0, 0, 0, 0, 0, 0, 0,
    0,
];

// How many bytes at the front of `s` make a name that can be written, or 0 if its first byte can't start one. The table is put on the stack once for
// all bytes.
pub fn name_len(s: &[u8]) -> usize
    ensures { result ≡ name_run s.now }
{
    if s.is_empty() {
        return 0;
    }
    let classes = CLASSES;
    if classes[s[0] as usize] != ANYWHERE {
        return 0;
    }
    for i in 1..s.len() {
        if classes[s[i] as usize] == NEVER {
            return i;
        }
    }
    s.len()
}

// Whether `s` can be written as a reference name.
pub fn is_name(s: &[u8]) -> bool
    ensures { result ≡ is_name s.now }
{
    !s.is_empty() && name_len(s) == s.len()
}
