// The IDs of programs in one list of numbers, and the search for the program with an ID among them.
#![tactic(auto)]

ghost use Rattle.std.specs.Prelude.{◌≡◌, ◌≤◌, ◌<◌, ◌+◌, ◌*◌, ◌/◌, [], length, get_or};
ghost use Rattle.byte_slices.specs.Over.{over};
ghost use Rattle.program_ids.specs.Places.{places_of, PlacesInText};
ghost use Rattle.program_ids.specs.Ids.{id_number, id_list, ids_at, IdsInText};
ghost use Rattle.program_ids.specs.Search.{id_ordinal_from, named_of};

use format::ProgramNo;

// How many numbers a list of IDs has for each: its offset, its length, and its number.
pub const ROW: usize = 3;

// The number of an ID: where two IDs have different numbers, they differ.
fn number_of(id: &[u8]) -> u32
    ensures { result ≡ id_number id.now }
{
    (key_look::hash::hash(format::PROGRAM, id) % 4294967296) as u32
}

// Lists the IDs that stand at these offsets and have these lengths, at the front of `list`.
pub fn list_ids(text: &[u8], ats: &[u32], lens: &[u32], list: &mut [u32])
    requires places_in_text { PlacesInText text.now ats.now lens.now }
    requires ats_in_bounds { length ats.now * 3 ≤ length list.old }
    ensures { list.new ≡ over list.old 0 (id_list text.now (places_of ats.now lens.now)) }
{
    for k in 0..ats.len() {
        let at = ats[k];
        let len = lens[k];
        let start = at as usize;
        let end = start + len as usize;
        let row = k * ROW;
        list[row] = at;
        list[row + 1] = len;
        list[row + 2] = number_of(&text[start..end]);
    }
}

// The ID of program `k`, as a part of the text.
pub fn id_at<'a>(text: &'a [u8], ids: &[u32], k: usize) -> &'a [u8]
    requires ids_in_text { IdsInText text.now ids.now }
    requires k_in_bounds { k < length ids.now / 3 }
    ensures value { result.now ≡ get_or (ids_at text.now ids.now) k [] }
    ensures place { result.ref_ptr ≡ (text.entry.ref_ptr.0, get_or ids.now (k * 3) 0 + text.entry.ref_ptr.1) }
{
    let row = k * ROW;
    let start = ids[row] as usize;
    let end = start + ids[row + 1] as usize;
    &text[start..end]
}

// The program whose ID is `id`, if there is one: the search stops at the first. Bytes are compared only where the numbers are equal.
pub fn find_program(text: &[u8], ids: &[u32], id: &[u8]) -> Option<ProgramNo>
    requires { IdsInText text.now ids.now }
    ensures { result ≡ named_of (id_ordinal_from id.now 0 (ids_at text.now ids.now)) }
{
    let number = number_of(id);
    for k in 0..ids.len() / ROW {
        if ids[k * ROW + 2] == number && byte_slices::same(id, id_at(text, ids, k)) {
            return Some(ProgramNo(k as u32));
        }
    }
    None
}
