// Measures the SQ list of a text, and writes it as the reference list of a binary header.
#![tactic(auto)]

ghost use Rattle.std.specs.Prelude.{◌≡◌, ◌≤◌, ◌+◌, ◌*◌, length};
ghost use Rattle.byte_slices.specs.Over.{over};
ghost use Rattle.format.specs.Binary.{reference_bytes, list_bytes};
ghost use Rattle.binary_references.specs.Next.{sq_from};
ghost use Rattle.binary_put.specs.Size.{list_size};

// How many references a list has, and how many bytes they take.
#[derive(Clone, Copy)]
pub struct ListSize {
    pub count: u32,
    pub bytes: usize,
}

// The size of a text's SQ list; `strict` is the rule for repeated tags that its lines are read by. There are no more references than bytes of
// the text, and no name is longer than it.
pub fn measure_list(text: &[u8], strict: bool) -> ListSize
    requires { length text.now ≤ 16777216 }
    ensures size { result ≡ list_size (sq_from strict text.now 0) }
    ensures small { result.bytes ≤ 16777216 * 16777225 }
{
    let mut count: u32 = 0;
    let mut bytes: usize = 0;
    let mut at: usize = 0;
    while let Some(r) = binary_references::next_reference(text, strict, at) {
        count += 1;
        bytes += r.name.len + 9;
        at = r.next;
    }
    ListSize { count, bytes }
}

// Writes a reference at `at` and returns the place after it: the length of the name with its closing zero, the name, that zero, and the LN.
fn put_reference(out: &mut [u8], at: usize, name: &[u8], size: u32) -> usize
    requires name_len_bound { length name.now ≤ 16777216 }
    requires name_in_bounds { at + length name.now + 9 ≤ length out.old }
    ensures next { result ≡ at + length name.now + 9 }
    ensures wrote { out.new ≡ over out.old at (reference_bytes (record { name = name.entry.now; size = size })) }
{
    let n = name.len();
    little_endian::put_u32(out, at, n as u32 + 1);
    byte_slices::put_bytes(out, at + 4, name);
    out[at + 4 + n] = 0;
    little_endian::put_u32(out, at + 5 + n, size);
    at + n + 9
}

// Writes the SQ list of a text from the place `start` on.
pub fn put_list(text: &[u8], strict: bool, out: &mut [u8], start: usize)
    requires text_len_bound { length text.now ≤ 16777216 }
    requires text_in_bounds { start + length (list_bytes (sq_from strict text.now 0)) ≤ length out.old }
    ensures { out.new ≡ over out.old start (list_bytes (sq_from strict text.now 0)) }
{
    let mut o = start;
    let mut at: usize = 0;
    while let Some(r) = binary_references::next_reference(text, strict, at) {
        let from = r.name.at;
        o = put_reference(out, o, &text[from..from + r.name.len], r.length);
        at = r.next;
    }
}
