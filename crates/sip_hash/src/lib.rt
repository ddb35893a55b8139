// SipHash (Aumasson and Bernstein, 2012) of a lent text under a key of two words.
#![tactic(auto)]

ghost use Rattle.std.specs.Prelude.{◌≡◌, ◌+◌, ◌-◌, ◌*◌, ◌/◌, ◌<◌, ◌≤◌, length, drop};
ghost use Rattle.format.specs.Little.{of_little};
ghost use Rattle.format.specs.SipHash.{round, rounds, initial, absorb, absorbed, words, finish, sip, key_of};
ghost use Rattle.sip_hash.specs.Parts.{state_of};

// The four words that the rounds mix.
#[derive(Clone, Copy)]
struct State {
    v0: u64,
    v1: u64,
    v2: u64,
    v3: u64,
}

// A key of 128 bits.
#[derive(Clone, Copy)]
pub struct Key {
    pub k0: u64,
    pub k1: u64,
}

impl State {
    // One round.
    fn round(self) -> State
        ensures { state_of result ≡ round (state_of self) }
    {
        let a = self.v0.wrapping_add(self.v1);
        let b = self.v2.wrapping_add(self.v3);
        let v1 = self.v1.rotate_left(13) ^ a;
        let v3 = self.v3.rotate_left(16) ^ b;
        let v0 = a.rotate_left(32).wrapping_add(v3);
        let v2 = b.wrapping_add(v1);
        State {
            v0,
            v1: v1.rotate_left(17) ^ v2,
            v2: v2.rotate_left(32),
            v3: v3.rotate_left(21) ^ v0,
        }
    }

    // Some rounds.
    fn rounds(self, n: usize) -> State
        ensures { state_of result ≡ rounds n (state_of self) }
    {
        let mut s = self;
        for _ in 0..n {
            s = s.round();
        }
        s
    }

    // A word of the message, with `c` rounds.
    fn absorb(self, c: usize, m: u64) -> State
        ensures { state_of result ≡ absorb c (state_of self) m }
    {
        let s = State {
            v0: self.v0,
            v1: self.v1,
            v2: self.v2,
            v3: self.v3 ^ m,
        };
        let t = s.rounds(c);
        State {
            v0: t.v0 ^ m,
            v1: t.v1,
            v2: t.v2,
            v3: t.v3,
        }
    }

    // The hash, after `d` rounds more.
    fn finish(self, d: usize) -> u64
        ensures { result ≡ finish d (state_of self) }
    {
        let s = State {
            v0: self.v0,
            v1: self.v1,
            v2: self.v2 ^ 0xff,
            v3: self.v3,
        };
        let t = s.rounds(d);
        t.v0 ^ t.v1 ^ t.v2 ^ t.v3
    }
}

// The state at first.
fn initial(k0: u64, k1: u64) -> State
    ensures { state_of result ≡ initial k0 k1 }
{
    State {
        v0: k0 ^ 0x736f_6d65_7073_6575,
        v1: k1 ^ 0x646f_7261_6e64_6f6d,
        v2: k0 ^ 0x6c79_6765_6e65_7261,
        v3: k1 ^ 0x7465_6462_7974_6573,
    }
}

// The state after the whole words of `bytes`.
fn whole(c: usize, start: State, bytes: &[u8]) -> State
    ensures { state_of result ≡ absorbed c (state_of start) (words (length bytes.now / 8) bytes.now) }
{
    let n = bytes.len() / 8;
    let mut s = start;
    for i in 0..n {
        s = s.absorb(c, little_endian::get_u64(bytes, 8 * i));
    }
    s
}

// The number in the bytes from `start` on, the lowest first.
fn tail(bytes: &[u8], start: usize) -> u64
    requires { (start ≤ length bytes.now) × (length bytes.now - start < 8) }
    ensures { (result ≡ of_little (drop start bytes.now)) × (result < 72057594037927936) }
{
    let mut w: u64 = 0;
    for i in (start..bytes.len()).rev() {
        w = w * 256 + bytes[i] as u64;
    }
    w
}

// SipHash-c-d.
pub fn sip_hash_with(c: usize, d: usize, k0: u64, k1: u64, bytes: &[u8]) -> u64
    ensures { result ≡ sip c d k0 k1 bytes.now }
{
    let n = bytes.len();
    let rest = tail(bytes, n - n % 8);
    let last = rest + (n % 256) as u64 * 72057594037927936;
    let s = whole(c, initial(k0, k1), bytes);
    s.absorb(c, last).finish(d)
}

// SipHash-1-3.
pub fn sip_hash(k0: u64, k1: u64, bytes: &[u8]) -> u64
    ensures { result ≡ sip 1 3 k0 k1 bytes.now }
{
    sip_hash_with(1, 3, k0, k1, bytes)
}

// The key in the first sixteen bytes of a digest.
pub fn key_of(digest: [u8; 32]) -> Key
    ensures { (result.k0, result.k1) ≡ key_of digest }
{
    Key {
        k0: little_endian::get_u64(&digest, 0),
        k1: little_endian::get_u64(&digest, 8),
    }
}
