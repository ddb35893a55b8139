// Looks for each name of a list among the SQ names whose places are in slots.
#![tactic(auto)]

ghost use Rattle.std.specs.Prelude.{◌≡◌, map, ℕ, ◌≤◌, ◌^◌, length};
ghost use Rattle.byte_slices.specs.Over.{over};
ghost use Rattle.format.specs.Asked.{asked};
ghost use Rattle.name_lookup.specs.Looking.{slot_of, looks_of};
ghost use Rattle.format.specs.Summed.{summed};

// Looks for each name of a list: puts the slot that holds it into `out`, and sums the numbers of slots that were looked at.
pub fn find_slots(text: &[u8], slots: &[u32], list: &[u8], out: &mut [u32]) -> u64
    requires slots_len_bound { length slots.now ≤ 33554432 }
    requires by_index { (e : ℕ) × (length slots.now ≡ 2 ^ e) }
    requires list_len_bound { length list.now ≤ 16777216 }
    requires list_in_bounds { length (asked list.now) ≤ length out.old }
    ensures wrote { out.new ≡ over out.old 0 (map (slot_of text.now slots.now) (asked list.now)) }
    ensures looks { result ≡ summed (looks_of text.now slots.now) (asked list.now) }
{
    let mut at: usize = 0;
    let mut j: usize = 0;
    let mut looks: u64 = 0;
    while at < list.len() {
        let end = at + byte_slices::upto(&list[at..], b'\n');
        let found = name_lookup::find_slot(text, slots, &list[at..end]);
        out[j] = found.slot;
        looks += found.looks as u64;
        j += 1;
        at = end + 1; // an empty name may follow
    }
    looks
}
