// Walks over the SQ list of a text, one reference at a time: where the name is in the text, and the LN.
#![tactic(auto)]

ghost use Rattle.std.specs.Prelude.{◌≡◌, ◌≤◌, length};
ghost use Rattle.binary_references.specs.Next.{may_be_sq, sq_from, told_list, NextInText};

use record::{Head, Stretch};

// A reference, and the offset of the line after its own.
#[derive(Clone, Copy)]
pub struct NextReference {
    pub name: Stretch,
    pub length: u32,
    pub next: usize,
}

// Whether a line may be an SQ. The second byte of an accepted line determines its kind.
fn may_be_sq(line: &[u8]) -> bool
    ensures { result ≡ may_be_sq line.now }
{
    if line.len() < 2 {
        return false;
    }
    line[1] == b'S'
}

// The first SQ of the lines from the offset `start` on, where a line starts, if any is left; `strict` is the rule for repeated tags that they are
// read by.
pub fn next_reference(text: &[u8], strict: bool, start: usize) -> Option<NextReference>
    requires text_len_bound { length text.now ≤ 16777216 }
    requires start_in_bounds { start ≤ length text.now }
    ensures list { sq_from strict text.now start ≡ told_list strict text.now result }
    ensures place { NextInText strict text.now start result }
{
    let mut at = start;
    while at < text.len() {
        let cut = byte_slices::first_line(&text[at..]);
        let end = at + cut.len;
        let next = at + cut.next;
        if may_be_sq(&text[at..end]) {
            let head = record_parser::parse_record(&text[at..end], at, strict);
            if let Head::ReferenceSequence(name, n, _) = head {
                return Some(NextReference {
                    name,
                    length: n as u32,
                    next,
                });
            }
        }
        at = next;
    }
    None
}
