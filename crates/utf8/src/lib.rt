// Characters in UTF-8, by the table of RFC 3629, without 127 and those below 32. Bytes are read one by one, keeping what the current character still
// needs.
#![tactic(auto)]

ghost use Rattle.std.specs.Prelude.{◌≡◌, []};
ghost use Rattle.format.specs.Utf8.{due, forms, characters};
ghost use Rattle.utf8.specs.Pending.{pending_of, due_of, due_after};

// What the current character still needs: `left` bytes, the next of them from `lo` to `hi`.
#[derive(Clone, Copy)]
struct Pending {
    left: u8,
    lo: u8,
    hi: u8,
}

impl Pending {
    fn new(left: u8, lo: u8, hi: u8) -> Self
        ensures { result ≡ record { left = left; lo = lo; hi = hi } }
    {
        Pending { left, lo, hi }
    }

    // What must follow the first byte `b`. If no character starts with `b`, it is a byte from an empty range, so nothing can follow.
    fn first(b: u8) -> Self
        ensures { result ≡ pending_of (due b forms) }
    {
        match b {
            32..=126 => Pending::new(0, 128, 191),
            194..=223 => Pending::new(1, 128, 191),
            224 => Pending::new(2, 160, 191),
            237 => Pending::new(2, 128, 159),
            225..=239 => Pending::new(2, 128, 191),
            240 => Pending::new(3, 144, 191),
            241..=243 => Pending::new(3, 128, 191),
            244 => Pending::new(3, 128, 143),
            _ => Pending::new(1, 1, 0),
        }
    }

    // What is still needed after the byte `b`: the first byte of a character, or the next byte of the current one.
    fn with(self, b: u8) -> Self
        ensures { result ≡ pending_of (due_after (due_of self) b) }
    {
        if self.left == 0 {
            return Pending::first(b);
        }
        if b < self.lo || self.hi < b {
            return Pending::new(1, 1, 0);
        }
        Pending::new(self.left - 1, 128, 191)
    }
}

// Whether `s` consists of whole characters.
pub fn is_whole(s: &[u8]) -> bool
    ensures { result ≡ characters [] s.now }
{
    let mut pending = Pending::new(0, 128, 191);
    for b in s {
        pending = pending.with(*b);
    }
    pending.left < 1
}
