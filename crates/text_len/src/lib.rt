// How much of a SAM file is its header.
#![tactic(auto)]

ghost use Rattle.std.specs.Prelude.{◌≡◌};
ghost use Rattle.format.specs.TextLen.{text_len};

// How many bytes at the front of `bytes` are lines that start with `@`, including their endings. Nothing else is judged, and the call never refuses.
pub fn text_len(bytes: &[u8]) -> usize
    ensures { result ≡ text_len bytes.now }
{
    let mut at: usize = 0;
    while at < bytes.len() {
        if bytes[at] != b'@' {
            return at;
        }
        let cut = byte_slices::first_line(&bytes[at..]);
        at += cut.next;
    }
    at
}
