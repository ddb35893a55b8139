// SHA-256 (FIPS 180-4) of a lent text, which is read in place.
#![tactic(auto)]

ghost use Rattle.std.specs.Prelude.{◌≡◌, ◌+◌, ◌*◌, ◌/◌, ◌<◌, ◌≤◌, length, take, drop};
ghost use Rattle.format.specs.Sha256.{Ch, Maj, Σ0, Σ1, σ0, σ1, K as round_constants, H0, words, next, extend, round, rounds, sum, compress};
ghost use Rattle.format.specs.Sha256.{big, parse, hashed, digest, sha256};
ghost use Rattle.sha256.specs.Parts.{value_of, word_at, last_blocks};
ghost use Rattle.byte_slices.specs.Over.{over};

// A hash value, and the working variables of the rounds: eight words.
#[derive(Clone, Copy)]
pub struct State {
    pub a: u32,
    pub b: u32,
    pub c: u32,
    pub d: u32,
    pub e: u32,
    pub f: u32,
    pub g: u32,
    pub h: u32,
}

// Each bit of `y` where `x` has a 1, and each bit of `z` where `x` has a 0.
fn ch(x: u32, y: u32, z: u32) -> u32
    ensures { result ≡ Ch x y z }
{
    (x & y) ^ (!x & z)
}

// Each bit that at least two of the three have.
fn maj(x: u32, y: u32, z: u32) -> u32
    ensures { result ≡ Maj x y z }
{
    (x & y) ^ (x & z) ^ (y & z)
}

// Σ0, Σ1, σ0 and σ1 of the standard: the exclusive or of rotations of a word, or of two rotations and a shift.
fn upper0(x: u32) -> u32
    ensures { result ≡ Σ0 x }
{
    x.rotate_right(2) ^ x.rotate_right(13) ^ x.rotate_right(22)
}

fn upper1(x: u32) -> u32
    ensures { result ≡ Σ1 x }
{
    x.rotate_right(6) ^ x.rotate_right(11) ^ x.rotate_right(25)
}

fn lower0(x: u32) -> u32
    ensures { result ≡ σ0 x }
{
    x.rotate_right(7) ^ x.rotate_right(18) ^ (x >> 3)
}

fn lower1(x: u32) -> u32
    ensures { result ≡ σ1 x }
{
    x.rotate_right(17) ^ x.rotate_right(19) ^ (x >> 10)
}

// One round, for its constant and its word of the schedule.
fn round(s: State, k: u32, w: u32) -> State
    ensures { value_of result ≡ round (value_of s) k w }
{
    let t1 = s
        .h
        .wrapping_add(upper1(s.e))
        .wrapping_add(ch(s.e, s.f, s.g))
        .wrapping_add(k)
        .wrapping_add(w);
    let t2 = upper0(s.a).wrapping_add(maj(s.a, s.b, s.c));
    State {
        a: t1.wrapping_add(t2),
        b: s.a,
        c: s.b,
        d: s.c,
        e: s.d.wrapping_add(t1),
        f: s.e,
        g: s.f,
        h: s.g,
    }
}

// The sum of two hash values, word by word.
fn sum(s: State, t: State) -> State
    ensures { value_of result ≡ sum (value_of s) (value_of t) }
{
    State {
        a: s.a.wrapping_add(t.a),
        b: s.b.wrapping_add(t.b),
        c: s.c.wrapping_add(t.c),
        d: s.d.wrapping_add(t.d),
        e: s.e.wrapping_add(t.e),
        f: s.f.wrapping_add(t.f),
        g: s.g.wrapping_add(t.g),
        h: s.h.wrapping_add(t.h),
    }
}

// The constant of each round.
const K: [u32; 64] = [
    0x428a_2f98,
    0x7137_4491,
    0xb5c0_fbcf,
    0xe9b5_dba5,
    0x3956_c25b,
    0x59f1_11f1,
    0x923f_82a4,
    0xab1c_5ed5,
    0xd807_aa98,
    0x1283_5b01,
    0x2431_85be,
    0x550c_7dc3,
    0x72be_5d74,
    0x80de_b1fe,
    0x9bdc_06a7,
    0xc19b_f174,
    0xe49b_69c1,
    0xefbe_4786,
    0x0fc1_9dc6,
    0x240c_a1cc,
    0x2de9_2c6f,
    0x4a74_84aa,
    0x5cb0_a9dc,
    0x76f9_88da,
    0x983e_5152,
    0xa831_c66d,
    0xb003_27c8,
    0xbf59_7fc7,
    0xc6e0_0bf3,
    0xd5a7_9147,
    0x06ca_6351,
    0x1429_2967,
    0x27b7_0a85,
    0x2e1b_2138,
    0x4d2c_6dfc,
    0x5338_0d13,
    0x650a_7354,
    0x766a_0abb,
    0x81c2_c92e,
    0x9272_2c85,
    0xa2bf_e8a1,
    0xa81a_664b,
    0xc24b_8b70,
    0xc76c_51a3,
    0xd192_e819,
    0xd699_0624,
    0xf40e_3585,
    0x106a_a070,
    0x19a4_c116,
    0x1e37_6c08,
    0x2748_774c,
    0x34b0_bcb5,
    0x391c_0cb3,
    0x4ed8_aa4a,
    0x5b9c_ca4f,
    0x682e_6ff3,
    0x748f_82ee,
    0x78a5_636f,
    0x84c8_7814,
    0x8cc7_0208,
    0x90be_fffa,
    0xa450_6ceb,
    0xbef9_a3f7,
    0xc671_78f2,
];

// The word in the four bytes at `at`, the highest first.
fn word(s: &[u8], at: usize) -> u32
    requires { at + 4 ≤ length s.now }
    ensures { result ≡ word_at s.now at }
{
    u32::from_be_bytes([s[at], s[at + 1], s[at + 2], s[at + 3]])
}

// The sixteen words of the block at `at`, with room for the rest of the schedule after them.
fn words(s: &[u8], at: usize) -> [u32; 64]
    requires { at + 64 ≤ length s.now }
    ensures { take 16 result ≡ words (take 64 (drop at s.now)) }
{
    let mut w: [u32; 64] = [0; 64];
    for i in 0..16 {
        w[i] = word(s, at + 4 * i);
    }
    w
}

// The word of the schedule at `t`, from those before it.
fn next(w: &[u32; 64], t: usize) -> u32
    requires { (16 ≤ t) × ((t < 64) × (length w.now ≡ 64)) }
    ensures { result ≡ next (take t w.now) }
{
    lower1(w[t - 2])
        .wrapping_add(w[t - 7])
        .wrapping_add(lower0(w[t - 15]))
        .wrapping_add(w[t - 16])
}

// The schedule: the sixteen words and 48 more.
fn extended(words: [u32; 64]) -> [u32; 64]
    ensures { result ≡ extend 48 (take 16 words) }
{
    let mut w = words;
    for t in 16..64 {
        w[t] = next(&w, t);
    }
    w
}

// All rounds, four in each step of the loop.
fn rounds(w: &[u32; 64], start: State) -> State
    requires { length w.now ≡ 64 }
    ensures { value_of result ≡ rounds round_constants w.now (value_of start) }
{
    let k = K;
    let mut s = start;
    for step in 0..16 {
        let t = 4 * step;
        s = round(s, k[t], w[t]);
        s = round(s, k[t + 1], w[t + 1]);
        s = round(s, k[t + 2], w[t + 2]);
        s = round(s, k[t + 3], w[t + 3]);
    }
    s
}

// The hash value after the block at `at`.
fn compress(s: State, text: &[u8], at: usize) -> State
    requires { at + 64 ≤ length text.now }
    ensures { value_of result ≡ compress (value_of s) (take 64 (drop at text.now)) }
{
    let w = extended(words(text, at));
    sum(rounds(&w, s), s)
}

// The initial hash value.
fn initial() -> State
    ensures { value_of result ≡ H0 }
{
    State {
        a: 0x6a09_e667,
        b: 0xbb67_ae85,
        c: 0x3c6e_f372,
        d: 0xa54f_f53a,
        e: 0x510e_527f,
        f: 0x9b05_688c,
        g: 0x1f83_d9ab,
        h: 0x5be0_cd19,
    }
}

// The hash value after the whole blocks of `text`.
fn whole(text: &[u8]) -> State
    ensures { value_of result ≡ hashed H0 (parse (length text.now / 64) text.now) }
{
    let blocks = text.len() / 64;
    let mut s = initial();
    for i in 0..blocks {
        s = compress(s, text, 64 * i);
    }
    s
}

// Writes `v` in four bytes at `at`, the highest first.
fn put_big(out: &mut [u8], at: usize, v: u32)
    requires { at + 4 ≤ length out.old }
    ensures { out.new ≡ over out.old at (big 4 v) }
{
    out[at..at + 4].copy_from_slice(&v.to_be_bytes());
}

// Writes the number of bits of `n` bytes in eight bytes at `at`, the highest first.
fn put_bits(out: &mut [u8], at: usize, n: usize)
    requires { at + 8 ≤ length out.old }
    ensures { out.new ≡ over out.old at (big 8 (8 * n)) }
{
    put_big(out, at, (n / 536870912 % 4294967296) as u32);
    put_big(out, at + 4, (n % 536870912 * 8) as u32);
}

// What follows the whole blocks of `s`, padded, and zeros after it.
fn ending(s: &[u8]) -> [u8; 128]
    ensures { take (length (last_blocks s.now)) result ≡ last_blocks s.now }
{
    let n = s.len();
    let rest = n % 64;
    let start = n - rest;
    let mut out: [u8; 128] = [0; 128];
    byte_slices::put_bytes(&mut out, 0, &s[start..]);
    out[rest] = 0x80;
    if rest < 56 {
        put_bits(&mut out, 56, n);
    } else {
        put_bits(&mut out, 120, n);
    }
    out
}

// A hash value as bytes, the highest of each word first.
fn bytes(s: State) -> [u8; 32]
    ensures { result ≡ digest (value_of s) }
{
    let mut out: [u8; 32] = [0; 32];
    put_big(&mut out, 0, s.a);
    put_big(&mut out, 4, s.b);
    put_big(&mut out, 8, s.c);
    put_big(&mut out, 12, s.d);
    put_big(&mut out, 16, s.e);
    put_big(&mut out, 20, s.f);
    put_big(&mut out, 24, s.g);
    put_big(&mut out, 28, s.h);
    out
}

// SHA-256 of `text`.
pub fn hash(text: &[u8]) -> [u8; 32]
    ensures { result ≡ sha256 text.now }
{
    let s = whole(text);
    let last = ending(text);
    let t = compress(s, &last, 0);
    if text.len() % 64 < 56 {
        return bytes(t);
    }
    bytes(compress(t, &last, 64))
}

// SHA-256 of `text`, into a lent array.
pub fn hash_into(text: &[u8], out: &mut [u8; 32])
    ensures { out.new ≡ sha256 text.now }
{
    *out = hash(text);
}
