// The answer for many names at once, if nothing refuses: an index of the SQ names, and from it the ordinal of each name of a list.
ghost use Rattle.std.specs.Prelude.{◌≡◌};
ghost use Rattle.names.specs.Answering.{Answerable, name_index_in, ordinals_in, looks_in};

// For texts of at most so many bytes there is little room for notes.
const MIDDLE: usize = 262144;

// If nothing refuses: writes the ordinal of each name to `out` and the index to `slots`, and counts the slots that were looked at. During the search
// the slots hold where names are, so that the name of a slot is found at once; afterwards they hold ordinals. Each of the `m` SQ names keeps its
// slot, and `notes` records which it is.
fn answer_noting(
    text: &[u8],
    catalogue: &[u8],
    m: usize,
    list: &[u8],
    slots: &mut [u32],
    out: &mut [u32],
    notes: &mut [u32],
) -> u64
    requires { Answerable text.now catalogue.now m list.now slots.old out.old }
    ensures slots { slots.new ≡ name_index_in text.now catalogue.now }
    ensures found { out.new ≡ ordinals_in text.now catalogue.now list.now }
    ensures looks { result ≡ looks_in text.now catalogue.now list.now }
{
    name_slots::fill(text, catalogue, slots, notes, false);
    let looks = name_search::find_slots(text, slots, list, out);
    name_slots::refill(text, catalogue, m, slots, notes);
    name_lookup::to_ordinals(slots, out);
    looks
}

// The same for a text of any length, with 65,536 notes, done `more` times again. Nobody asks for more than once. The function calls itself so that it
// is compiled as a function of its own: its 256 KiB are not in the frame of its caller, which serves short texts too.
#[inline(never)]
fn answer_long(
    text: &[u8],
    catalogue: &[u8],
    m: usize,
    list: &[u8],
    slots: &mut [u32],
    out: &mut [u32],
    more: usize,
) -> u64
    requires { Answerable text.now catalogue.now m list.now slots.old out.old }
    ensures slots { slots.new ≡ name_index_in text.now catalogue.now }
    ensures found { out.new ≡ ordinals_in text.now catalogue.now list.now }
    ensures looks { result ≡ looks_in text.now catalogue.now list.now }
{
    let mut notes = [0u32; 65536];
    let looks = answer_noting(text, catalogue, m, list, slots, out, &mut notes);
    if 0 < more {
        return answer_long(text, catalogue, m, list, slots, out, more - 1);
    }
    looks
}

// The same with room for notes: little is cleared if there are few SQ lines, and 16 KiB if the text is not long.
pub fn answer(
    text: &[u8],
    catalogue: &[u8],
    m: usize,
    list: &[u8],
    slots: &mut [u32],
    out: &mut [u32],
) -> u64
    requires { Answerable text.now catalogue.now m list.now slots.old out.old }
    ensures slots { slots.new ≡ name_index_in text.now catalogue.now }
    ensures found { out.new ≡ ordinals_in text.now catalogue.now list.now }
    ensures looks { result ≡ looks_in text.now catalogue.now list.now }
{
    if m <= 512 {
        let mut notes = [0u32; 512];
        return answer_noting(text, catalogue, m, list, slots, out, &mut notes);
    }
    if text.len() <= MIDDLE {
        let mut notes = [0u32; 4096];
        return answer_noting(text, catalogue, m, list, slots, out, &mut notes);
    }
    answer_long(
        text,
        catalogue,
        m,
        list,
        slots,
        out,
        text.len() / (format::LONGEST + 1),
    )
}
