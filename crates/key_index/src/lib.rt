// An exact index of the keys seen so far. A slot is 0, or holds a key: its kind and its offset in the text. A key ends before the first byte below 32
// or at the end of the text, so no length is kept.
#![tactic(auto)]

pub mod counting;

ghost use Rattle.std.specs.Prelude.{◌≡◌, ◌≤◌, ◌<◌, ◌+◌, length, replicate};
ghost use Rattle.key_index.specs.KeySlots.{is_found, looks_of, after_entering, after_pointing, is_first_key};
ghost use Rattle.key_index.specs.Keyed.{KeyInText, key_of};

use key_at::OFFSETS;
use key_look::{Seed, Sought};
use record::{Head, Stretch};

// Whether a key was found, and how many slots were looked at for it.
#[derive(Clone, Copy)]
pub struct Found {
    pub known: bool,
    pub slots: usize,
}

// Whether a line is the first with its key, and how many slots were looked at to know it.
#[derive(Clone, Copy)]
pub struct Standing {
    pub first: bool,
    pub slots: usize,
}

// The key of a head: its kind, and where it is in the text.
#[derive(Clone, Copy)]
struct Key {
    kind: u8,
    place: Stretch,
}

// The key of a head, if it has one.
#[tactic(auto, unfolding(crate::specs::Keyed::key_of))]
fn key_of(head: Head) -> Option<Key>
    ensures { result ≡ key_of head }
{
    match head {
        Head::ReferenceSequence(place, _, _) => Some(Key {
            kind: format::REFERENCE_SEQUENCE,
            place,
        }),
        Head::ReadGroup(place, _) => Some(Key {
            kind: format::READ_GROUP,
            place,
        }),
        Head::Program(place, _) => Some(Key {
            kind: format::PROGRAM,
            place,
        }),
        Head::Refused(_) | Head::Header(_, _) | Head::Comment(_) => None,
    }
}

// Whether the area holds the key of a head. If not, the key is put in where there is `room`. A head without a key changes nothing.
pub fn find_or_enter(text: &[u8], area: &mut [u32], seed: Seed, head: Head, room: bool) -> Found
    requires text_len_bound { length text.now ≤ 16777216 }
    requires area_nonzero { 0 < length area.old }
    requires key_in_text { KeyInText (length text.now) head }
    ensures known { result.known ≡ is_found seed text.now area.old head }
    ensures slots { result.slots ≡ looks_of seed text.now area.old head }
    ensures wrote { area.new ≡ after_entering seed room text.now area.old head }
{
    let Some(key) = key_of(head) else {
        return Found {
            known: false,
            slots: 0,
        };
    };
    let looked = key_look::look_at(text, area, seed, key.kind, key.place);
    let slots = looked.slots;
    match looked.sought {
        Sought::Known(_) => Found { known: true, slots },
        Sought::Free(i) => {
            if room {
                area[i] = looked.print * OFFSETS + (key.place.at as u32);
            }
            Found {
                known: false,
                slots,
            }
        }
        Sought::Full => Found {
            known: false,
            slots,
        },
    }
}

// Puts the head's own offset into the slot that holds the head's key, if there is one. Answers how many slots were looked at.
pub fn point_to_head(text: &[u8], area: &mut [u32], seed: Seed, head: Head) -> usize
    requires text_len_bound { length text.now ≤ 16777216 }
    requires area_nonzero { 0 < length area.old }
    requires key_in_text { KeyInText (length text.now) head }
    ensures slots { result ≡ looks_of seed text.now area.old head }
    ensures wrote { area.new ≡ after_pointing seed text.now area.old head }
{
    let Some(key) = key_of(head) else {
        return 0;
    };
    let looked = key_look::look_at(text, area, seed, key.kind, key.place);
    if let Sought::Known(i) = looked.sought {
        area[i] = area[i] / OFFSETS * OFFSETS + (key.place.at as u32);
    }
    looked.slots
}

// Whether no slot holds the key of a head with an offset other than the head's own.
pub fn is_first_with_key(text: &[u8], area: &[u32], seed: Seed, head: Head) -> Standing
    requires text_len_bound { length text.now ≤ 16777216 }
    requires area_nonzero { 0 < length area.now }
    requires key_in_text { KeyInText (length text.now) head }
    ensures first { result.first ≡ is_first_key seed text.now area.now head }
    ensures slots { result.slots ≡ looks_of seed text.now area.now head }
{
    let Some(key) = key_of(head) else {
        return Standing {
            first: true,
            slots: 0,
        };
    };
    let looked = key_look::look_at(text, area, seed, key.kind, key.place);
    let slots = looked.slots;
    match looked.sought {
        Sought::Known(i) => Standing {
            first: (area[i] % OFFSETS) as usize == key.place.at,
            slots,
        },
        Sought::Free(_) | Sought::Full => Standing { first: true, slots },
    }
}

// Empties the area.
pub fn clear(area: &mut [u32])
    ensures { area.new ≡ replicate (length area.old) 0 }
{
    area.fill(0);
}
