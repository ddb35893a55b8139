// Numbers of four or eight bytes, lowest byte first: writes them into a lent slice and reads them from one.
#![tactic(auto)]

ghost use Rattle.std.specs.Prelude.{◌≡◌, ◌≤◌, ◌+◌, length, take, drop};
ghost use Rattle.format.specs.Catalogue.{little};
ghost use Rattle.byte_slices.specs.Over.{over};
ghost use Rattle.format.specs.Little.{of_little};

// Writes `v` in four bytes at `at`, the lowest first.
pub fn put_u32(out: &mut [u8], at: usize, v: u32)
    requires { at + 4 ≤ length out.old }
    ensures { out.new ≡ over out.old at (little 4 v) }
{
    out[at..at + 4].copy_from_slice(&v.to_le_bytes());
}

// Writes `v` in eight bytes at `at`, the lowest first.
pub fn put_u64(out: &mut [u8], at: usize, v: u64)
    requires { at + 8 ≤ length out.old }
    ensures { out.new ≡ over out.old at (little 8 v) }
{
    out[at..at + 8].copy_from_slice(&v.to_le_bytes());
}

// The number in the four bytes at `at`, the lowest first.
pub fn get_u32(s: &[u8], at: usize) -> u32
    requires { at + 4 ≤ length s.now }
    ensures { result ≡ of_little (take 4 (drop at s.now)) }
{
    let mut bytes = [0; 4];
    bytes.copy_from_slice(&s[at..at + 4]);
    u32::from_le_bytes(bytes)
}

// The number in the eight bytes at `at`, the lowest first.
pub fn get_u64(s: &[u8], at: usize) -> u64
    requires { at + 8 ≤ length s.now }
    ensures { result ≡ of_little (take 8 (drop at s.now)) }
{
    let mut bytes = [0; 8];
    bytes.copy_from_slice(&s[at..at + 8]);
    u64::from_le_bytes(bytes)
}
