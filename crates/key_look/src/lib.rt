// Looks for a key in the slots of an exact index. A slot is 0, or holds a key: its kind and its offset in the text.
#![tactic(auto)]

pub mod hash;

ghost use Rattle.std.specs.Prelude.{◌≡◌, ◌&&◌, ◌≤◌, ◌<◌, ◌+◌, ◌*◌, ◌/◌, ◌%◌, eqb, length};
ghost use Rattle.format.specs.Bytes.{same};
ghost use Rattle.key_look.specs.Seed.{key_number, plain_seed, seed_of};
ghost use Rattle.key_look.specs.Sought.{key_told, key_at, sought_from, looks_from, fingerprint, sought, sought_at, looks, looks_at};

use key_at::OFFSETS;
use record::Stretch;

// How keys are numbered: by a public function, or by a keyed one, with this key.
#[derive(Clone, Copy)]
pub struct Seed {
    pub keyed: bool,
    pub k0: u64,
    pub k1: u64,
}

// How a search for a key ends: at a slot that holds it, at an empty slot, or after all slots.
#[derive(Clone, Copy)]
pub enum Sought {
    Known(usize),
    Free(usize),
    Full,
}

// How looking for a key ended, how many slots were looked at for it, and the key's fingerprint.
#[derive(Clone, Copy)]
pub struct Looked {
    pub sought: Sought,
    pub slots: usize,
    pub print: u32,
}

// The public numbers, which every text gets at first.
pub fn plain() -> Seed
    ensures { result ≡ plain_seed }
{
    Seed {
        keyed: false,
        k0: 0,
        k1: 0,
    }
}

// The keyed numbers for a text: their key is taken from the text's SHA-256, so that whoever makes the text has to choose its names before he knows
// where they start.
pub fn seed_of(text: &[u8]) -> Seed
    ensures { result ≡ seed_of text.now }
{
    let key = sip_hash::key_of(sha256::hash(text));
    Seed {
        keyed: true,
        k0: key.k0,
        k1: key.k1,
    }
}

// The number of a key of this kind.
pub fn number(seed: Seed, kind: u8, id: &[u8]) -> usize
    ensures { result ≡ key_number seed kind id.now }
{
    if seed.keyed {
        return sip_hash::sip_hash(seed.k0, seed.k1, id) as usize;
    }
    hash::hash(kind, id)
}

// What a slot keeps of a key besides its place, from the key's hash.
pub fn fingerprint(kind: u8, number: usize) -> u32
    ensures { result ≡ kind * 32 + number / 134217728 % 32 }
{
    (kind as u32) * 32 + (number / 134217728 % 32) as u32
}

// Whether a slot holds the key `id` with this fingerprint. The text is looked at only where the fingerprints are equal.
fn slot_tells(text: &[u8], slot: u32, print: u32, id: &[u8]) -> bool
    requires { length id.now ≤ 16777216 }
    ensures { result ≡ (eqb print (slot / 16777216) && same id.now (key_told text.now slot)) }
{
    if slot / OFFSETS != print {
        return false;
    }
    key_at::is_at(text, (slot % OFFSETS) as usize, id)
}

// The slot after `at` of `n` slots; the first slot comes after the last.
fn next(at: usize, n: usize) -> usize
    requires { at < n }
    ensures { result ≡ (at + 1) % n }
{
    if n - at == 1 {
        return 0;
    }
    at + 1
}

// Looks for the key `id` with this number and fingerprint: from the slot of its number on, round the end.
fn look_from(text: &[u8], area: &[u32], number: usize, print: u32, id: &[u8]) -> Looked
    requires id_len_bound { length id.now ≤ 16777216 }
    requires area_nonzero { 0 < length area.now }
    ensures sought { result.sought ≡ sought_from text.now area.now number print id.now }
    ensures slots { result.slots ≡ looks_from text.now area.now number print id.now }
    ensures print { result.print ≡ print }
{
    let mut at: usize = number % area.len();
    for passed in 0..area.len() {
        let slot = area[at];
        let slots = passed + 1;
        if slot == 0 {
            let sought = Sought::Free(at);
            return Looked {
                sought,
                slots,
                print,
            };
        }
        if slot_tells(text, slot, print, id) {
            let sought = Sought::Known(at);
            return Looked {
                sought,
                slots,
                print,
            };
        }
        at = next(at, area.len());
    }
    Looked {
        sought: Sought::Full,
        slots: area.len(),
        print,
    }
}

// Looks for the key `id` of this kind.
pub fn look(text: &[u8], area: &[u32], seed: Seed, kind: u8, id: &[u8]) -> Looked
    requires id_len_bound { length id.now ≤ 16777216 }
    requires area_nonzero { 0 < length area.now }
    ensures sought { result.sought ≡ sought seed text.now area.now kind id.now }
    ensures slots { result.slots ≡ looks seed text.now area.now kind id.now }
    ensures print { result.print ≡ fingerprint seed kind id.now }
{
    let n = number(seed, kind, id);
    look_from(text, area, n, fingerprint(kind, n), id)
}

// Looks for the key of this kind at a place of the text.
pub fn look_at(text: &[u8], area: &[u32], seed: Seed, kind: u8, place: Stretch) -> Looked
    requires text_len_bound { length text.now ≤ 16777216 }
    requires area_nonzero { 0 < length area.now }
    requires len_in_bounds { place.at + place.len ≤ length text.now }
    ensures sought { result.sought ≡ sought_at seed text.now area.now kind place }
    ensures slots { result.slots ≡ looks_at seed text.now area.now kind place }
    ensures print { result.print ≡ fingerprint seed kind (key_at text.now place) }
{
    let start = place.at;
    let end = start + place.len;
    let id = &text[start..end];
    look(text, area, seed, kind, id)
}
