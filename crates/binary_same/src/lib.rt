// Compares the reference list of a binary header with the SQ list of a text.
#![tactic(auto)]

ghost use Rattle.std.specs.Prelude.{◌≡◌, true, ◌≤◌, ◌+◌, length, drop};
ghost use Rattle.format.specs.References.{same_reference, same_references};
ghost use Rattle.format.specs.Binary.{take_list};
ghost use Rattle.binary_parts.specs.Parts.{reference_in, is_whole, listed};
ghost use Rattle.binary_references.specs.Next.{sq_from, told_reference};

use binary_parts::ReferenceAt;
use binary_references::NextReference;

// Whether a reference of the binary header and one of the text have the same name and length.
fn is_same(bytes: &[u8], reference: ReferenceAt, text: &[u8], next: NextReference) -> bool
    requires len_in_bounds { reference.name + reference.len ≤ length bytes.now }
    requires len_in_bounds_2 { next.name.at + next.name.len ≤ length text.now }
    ensures { result ≡ same_reference (reference_in bytes.now reference) (told_reference text.now next) }
{
    if reference.size != next.length {
        return false; // whatever the names are
    }
    let start = reference.name;
    let end = start + reference.len;
    let from = next.name.at;
    let to = from + next.name.len;
    byte_slices::same(&bytes[start..end], &text[from..to])
}

// Whether the `count` references at `list` are the text's SQ list, in order; `strict` is the rule for repeated tags that its
// lines are read by.
pub fn is_sq_list(bytes: &[u8], list: usize, count: u32, text: &[u8], strict: bool) -> bool
    requires list_in_bounds { list ≤ length bytes.now }
    requires bytes_value { is_whole (take_list count (drop list bytes.now)) ≡ true }
    requires text_len_bound { length text.now ≤ 16777216 }
    ensures { result ≡ same_references (listed (take_list count (drop list bytes.now))) (sq_from strict text.now 0) }
{
    let mut at = list;
    let mut line: usize = 0;
    for _ in 0..count {
        let reference = binary_parts::take_reference(bytes, at).unwrap(); // the list is whole
        let Some(next) = binary_references::next_reference(text, strict, line) else {
            return false;
        };
        if !is_same(bytes, reference, text, next) {
            return false;
        }
        at = reference.next;
        line = next.next;
    }
    binary_references::next_reference(text, strict, line).is_none()
}
