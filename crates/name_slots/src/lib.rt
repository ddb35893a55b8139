// Fills slots with the SQ names of a catalogue. A slot holds the ordinal of a name, or its offset in the text and some bits of its hash.
#![tactic(auto)]

ghost use Rattle.std.specs.Prelude.{◌≡◌, true, cond, ℕ, ◌≤◌, ◌<◌, ◌^◌, length, take, ltb};
ghost use Rattle.format.specs.Slots.{seat};
ghost use Rattle.format.specs.NameIndex.{first};
ghost use Rattle.name_entries.specs.Names.{name_at};
ghost use Rattle.name_slots.specs.Filled.{mark_of, value_of, with_ordinals, name_entered, names_entered, seats_noted, filled_anew, seats_anew, noted_anew};

use catalogue_entries::{Entry, Place};
use key_at::OFFSETS;

// The bytes of a text at a place, as far as the text has them.
fn bytes_at<'a>(text: &'a [u8], p: Place) -> &'a [u8]
    ensures { result.now ≡ name_at text.now p }
{
    let n = text.len();
    let start = p.at as usize;
    if n < start {
        return &text[n..];
    }
    let len = p.len as usize;
    if n - start < len {
        return &text[start..];
    }
    let end = start + len;
    &text[start..end]
}

// What a slot keeps of a name besides its place: seven bits of its hash, which tell most other names apart.
pub fn check_bits(number: u32) -> u32
    ensures { result ≡ mark_of number }
{
    (number % 65536 + number / 65536) % 128
}

// The value of the slot for the name at `at` with this hash: the ordinal plus one, or the offset with the seven bits below it, plus one.
fn value(ordinals: bool, k: usize, number: u32, at: u32) -> u32
    requires k_bound { k ≤ 4294967294 }
    requires at_bound { at < 16777216 }
    ensures { result ≡ value_of ordinals k number at }
{
    if ordinals {
        return (k + 1) as u32;
    }
    at * 128 + check_bits(number) + 1
}

// Enters the name at a place. Returns the slot that it went into.
fn put_name(text: &[u8], p: Place, k: usize, slots: &mut [u32], ordinals: bool) -> usize
    requires k_bound { k ≤ 4294967294 }
    requires slots_len_bound { length slots.old ≤ 33554432 }
    requires by_index { (e : ℕ) × (length slots.old ≡ 2 ^ e) }
    ensures at { result ≡ seat (first (length slots.old) (name_at text.now p)) slots.old }
    ensures wrote { slots.new ≡ name_entered ordinals text.now p k slots.old }
{
    let number = name_index::hash(bytes_at(text, p));
    let first = name_index::first_slot(number, slots.len());
    let v = value(ordinals, k, number, p.at % OFFSETS);
    name_index::enter(slots, first, v)
}

// Enters the names of the SQ entries in order, each with its ordinal plus one, or with its offset and seven bits. The slot of each is noted as long
// as there is room for notes.
fn put_names(text: &[u8], catalogue: &[u8], slots: &mut [u32], notes: &mut [u32], ordinals: bool)
    requires slots_len_bound { length slots.old ≤ 33554432 }
    requires by_index { (e : ℕ) × (length slots.old ≡ 2 ^ e) }
    requires catalogue_len_bound { length catalogue.now ≤ 4294967294 }
    ensures wrote { slots.new ≡ names_entered ordinals text.now catalogue.now slots.old }
    ensures noted { notes.new ≡ seats_noted ordinals text.now catalogue.now slots.old notes.old }
{
    let mut at: usize = 0;
    let mut k: usize = 0;
    loop {
        at = name_entries::next_sq(catalogue, at);
        let e = catalogue_entries::entry_at(catalogue, at);
        match e {
            Entry::ReferenceSequence(p, _, _) => {
                let slot = put_name(text, p, k, slots, ordinals);
                if k < notes.len() {
                    notes[k] = slot as u32;
                }
                k += 1;
                at += 21;
            }
            _ => return,
        }
    }
}

// Empties the slots and enters the names of the SQ entries.
pub fn fill(text: &[u8], catalogue: &[u8], slots: &mut [u32], notes: &mut [u32], ordinals: bool)
    requires slots_len_bound { length slots.old ≤ 33554432 }
    requires by_index { (e : ℕ) × (length slots.old ≡ 2 ^ e) }
    requires catalogue_len_bound { length catalogue.now ≤ 4294967294 }
    ensures wrote { slots.new ≡ filled_anew ordinals text.now catalogue.now slots.old }
    ensures noted { notes.new ≡ noted_anew ordinals text.now catalogue.now slots.old notes.old }
{
    key_index::clear(slots);
    put_names(text, catalogue, slots, notes, ordinals);
}

// Puts ordinals plus one into the slots that are noted, in order.
fn put_ordinals(notes: &[u32], slots: &mut [u32])
    requires { length notes.now ≤ 4294967294 }
    ensures { slots.new ≡ with_ordinals 0 notes.now slots.old }
{
    for k in 0..notes.len() {
        let at = notes[k] as usize;
        if at < slots.len() {
            slots[at] = (k + 1) as u32;
        }
    }
}

// Fills the slots with ordinals. If the slots of all `m` names are noted, these are used; otherwise the names are entered again.
pub fn refill(text: &[u8], catalogue: &[u8], m: usize, slots: &mut [u32], notes: &mut [u32])
    requires slots_len_bound { length slots.old ≤ 33554432 }
    requires by_index { (e : ℕ) × (length slots.old ≡ 2 ^ e) }
    requires catalogue_len_bound { length catalogue.now ≤ 4294967294 }
    requires m_bound { m ≤ 4294967294 }
    requires notes_value { m ≤ length notes.old → take m notes.old ≡ seats_anew true text.now catalogue.now slots.old }
    ensures wrote { slots.new ≡ filled_anew true text.now catalogue.now slots.old }
    ensures noted { notes.new ≡ cond (ltb (length notes.old) m)
        (noted_anew true text.now catalogue.now slots.old notes.old) notes.old }
{
    if notes.len() < m {
        fill(text, catalogue, slots, notes, true);
        return;
    }
    key_index::clear(slots);
    put_ordinals(&notes[..m], slots);
}
