// SipHash of the 64 messages of the reference implementation's test: no byte, 0, then 0 and 1, and on, under the key of the bytes 0 to 15.
// A line for each: SipHash-2-4, whose values the authors publish, and SipHash-1-3, whose values an independent program wrote.
#![tactic(auto)]

use sip_hash::Key;

// The number of the standard output.
const STDOUT_FILENO: i32 = 1;

fn show(key: Key, message: &[u8]) {
    io::print_hex(
        STDOUT_FILENO,
        sip_hash::sip_hash_with(2, 4, key.k0, key.k1, message),
        16,
    );
    io::write_all(STDOUT_FILENO, b" ");
    io::print_hex(
        STDOUT_FILENO,
        sip_hash::sip_hash(key.k0, key.k1, message),
        16,
    );
    io::write_all(STDOUT_FILENO, b"\n");
}

// The key of the bytes 0 to 15: the other half of a digest does not count.
fn key() -> Key {
    let digest =
        b"\x00\x01\x02\x03\x04\x05\x06\x07\x08\x09\x0a\x0b\x0c\x0d\x0e\x0f0123456789abcdef";
    sip_hash::key_of(*digest)
}

fn main() {
    let k = key();
    let mut message: [u8; 64] = [0; 64];
    for i in 0..64 {
        show(k, &message[..i]);
        message[i] = i as u8;
    }
}
