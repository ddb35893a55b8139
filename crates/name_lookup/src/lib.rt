// Looks for names in slots that hold their offsets in the text and some bits of their hashes, and replaces slots by the ordinals in them.
#![tactic(auto)]

ghost use Rattle.std.specs.Prelude.{◌≡◌, ◌&&◌, map, ℕ, ◌≤◌, ◌<◌, ◌-◌, ◌/◌, ◌%◌, ◌^◌, eqb, length, drop};
ghost use Rattle.format.specs.Bytes.{same};
ghost use Rattle.key_at.specs.Word.{word};
ghost use Rattle.name_lookup.specs.Looking.{slot_of, looks_of, ordinal_at};

// The answer for a name that no SQ has.
pub const ABSENT: u32 = 4294967295;

// Whether a slot holds a name with these bits of its hash. The text is looked at only if the bits are equal.
fn is_slot_of(text: &[u8], v: u32, told: u32, name: &[u8]) -> bool
    requires v_nonzero { 0 < v }
    requires name_len_bound { length name.now ≤ 16777216 }
    ensures { result ≡ (eqb told ((v - 1) % 128) && same name.now (word (drop ((v - 1) / 128) text.now))) }
{
    let code = v - 1;
    if code % 128 != told {
        return false;
    }
    key_at::is_at(text, (code / 128) as usize, name)
}

// The slot that holds a name, or ABSENT, and how many slots were looked at.
#[derive(Clone, Copy)]
pub struct Looked {
    pub slot: u32,
    pub looks: u32,
}

// Looks for a name in slots that hold offsets, from its first slot on up to the one that holds it or the first empty one.
pub fn find_slot(text: &[u8], slots: &[u32], name: &[u8]) -> Looked
    requires slots_len_bound { length slots.now ≤ 33554432 }
    requires by_index { (e : ℕ) × (length slots.now ≡ 2 ^ e) }
    requires name_len_bound { length name.now ≤ 16777216 }
    ensures slot { result.slot ≡ slot_of text.now slots.now name.now }
    ensures looks { result.looks ≡ looks_of text.now slots.now name.now }
{
    let n = slots.len();
    let number = name_index::hash(name);
    let told = name_slots::check_bits(number);
    let first = name_index::first_slot(number, n);
    for i in 0..n {
        let at = name_index::turned(first, i, n);
        let v = slots[at];
        if v == 0 {
            return Looked {
                slot: ABSENT,
                looks: (i + 1) as u32, // the empty slot too
            };
        }
        if is_slot_of(text, v, told, name) {
            return Looked {
                slot: at as u32,
                looks: (i + 1) as u32, // and no slot after it
            };
        }
    }
    Looked {
        slot: ABSENT,
        looks: n as u32,
    }
}

// The ordinal in a slot, which holds it plus one; ABSENT if the slot is empty or there is no such slot.
fn ordinal_at(slots: &[u32], p: u32) -> u32
    ensures { result ≡ ordinal_at slots.now p }
{
    let at = p as usize;
    if slots.len() <= at {
        return ABSENT;
    }
    let v = slots[at];
    if v == 0 {
        return ABSENT;
    }
    v - 1
}

// Replaces slots by the ordinals in them.
pub fn to_ordinals(slots: &[u32], out: &mut [u32])
    ensures { out.new ≡ map (ordinal_at slots.now) out.old }
{
    for p in out.iter_mut() {
        *p = ordinal_at(slots, *p);
    }
}
