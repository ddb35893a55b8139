// Slots that hold some references of B, found by their names, and marks at those that A has with the same length. A slot is 0, or holds the offset
// from which a reference of B is the next one, plus one, with six bits of the hash of its name above it, which tell most other names apart. A marked
// slot has its highest bit set. Only the marks are trusted: no answer depends on which slots are filled, or with what.
#![tactic(auto)]

ghost use Rattle.std.specs.Prelude.{◌≡◌, Bool, true, List, ℕ, ◌≤◌, ◌<◌, ◌+◌, ◌*◌, length};
ghost use Rattle.format.specs.References.{Reference};
ghost use Rattle.binary_references.specs.Next.{sq_from, told_reference};
ghost use Rattle.key_look.specs.Hash.{key_hash};
ghost use Rattle.merge_references.specs.Joining.{Apart};
ghost use Rattle.merge_hints.specs.Hints.{Agreed, Known, Placed, Marked};

use binary_references::NextReference;

// How many offsets a slot can hold. The bits of the hash are above them.
const OFFSETS: u32 = 33554432;

// What is added to a marked slot.
const MARK: u32 = 2147483648;

// The hash of the name of a reference, which says at which slot the search starts.
fn number(text: &[u8], r: NextReference) -> usize
    requires { r.name.at + r.name.len ≤ length text.now }
    ensures { result ≡ key_hash 2 (told_reference text.now r).name }
{
    let from = r.name.at;
    let to = from + r.name.len;
    key_look::hash::hash(2, &text[from..to])
}

// The bits of a name's hash that a slot keeps, at their place.
fn tag(number: usize) -> u32
    ensures { (t : ℕ) × (result ≡ t * 33554432) × (t < 64) }
{
    (number / 67108864 % 64) as u32 * OFFSETS
}

// Enters the references of B from the offset `start` on, three for every four slots.
pub fn enter_block(b: &[u8], strict: bool, start: usize, area: &mut [u32])
    requires b_len_bound { length b.now ≤ 16777216 }
    requires start_in_bounds { start ≤ length b.now }
    requires area_nonzero { (0 < length area.old) × (length area.old ≤ 33554432) }
    requires placed_2 { Placed b.now area.old }
    ensures placed { Placed b.now area.new }
    ensures marked { (rs : List Reference) → Marked strict b.now rs area.old
        → Marked strict b.now rs area.new }
{
    let mut at = start;
    for _ in 0..area.len() / 4 * 3 {
        let Some(r) = binary_references::next_reference(b, strict, at) else {
            return;
        };
        let h = number(b, r);
        name_index::enter(area, h % area.len(), (at + 1) as u32 + tag(h));
        at = r.next;
    }
}

// The slot after `at` of `n` slots; the first slot comes after the last.
fn after(at: usize, n: usize) -> usize
    requires { at < n }
    ensures { result < n }
{
    if n - at == 1 {
        return 0;
    }
    at + 1
}

// Marks the slot of the reference of B that has the name and the length of a reference of A.
fn mark_one(area: &mut [u32], b: &[u8], strict: bool, a: &[u8], r: NextReference)
    requires area_nonzero { 0 < length area.old }
    requires b_len_bound { length b.now ≤ 16777216 }
    requires len_in_bounds { r.name.at + r.name.len ≤ length a.now }
    requires placed_2 { Placed b.now area.old }
    ensures placed { Placed b.now area.new }
    ensures marked { (rs : List Reference) → Marked strict b.now rs area.old → Agreed (told_reference a.now r) rs
        → Marked strict b.now rs area.new }
{
    let n = area.len();
    let h = number(a, r);
    let own = tag(h);
    let mut at = h % n;
    for _ in 0..n {
        let v = area[at];
        let place = v % OFFSETS;
        if place == 0 {
            return;
        }
        if v - place == own {
            if let Some(q) = binary_references::next_reference(b, strict, (place - 1) as usize) {
                if merge_references::same_reference(b, q, a, r) {
                    area[at] = v + MARK;
                    return;
                }
            }
        }
        at = after(at, n);
    }
}

// Marks the slots of those references of B that A has.
pub fn mark_all(a: &[u8], strict_a: bool, b: &[u8], strict_b: bool, area: &mut [u32])
    requires a_len_bound { (length a.now ≤ 16777216) × Apart (sq_from strict_a a.now 0) }
    requires b_len_bound { length b.now ≤ 16777216 }
    requires area_nonzero { 0 < length area.old }
    requires placed { Placed b.now area.old }
    requires marked { Marked strict_b b.now (sq_from strict_a a.now 0) area.old }
    ensures { Marked strict_b b.now (sq_from strict_a a.now 0) area.new }
{
    let mut at: usize = 0;
    while let Some(r) = binary_references::next_reference(a, strict_a, at) {
        mark_one(area, b, strict_b, a, r);
        at = r.next;
    }
}

// Whether the slot of the next reference of B from the offset `at` on is marked.
pub fn is_marked(area: &[u32], b: &[u8], at: usize, q: NextReference) -> bool
    requires area_nonzero { 0 < length area.now }
    requires at_bound { at ≤ 16777216 }
    requires len_in_bounds { q.name.at + q.name.len ≤ length b.now }
    ensures { result ≡ true → (strict : Bool) (rs : List Reference) → Marked strict b.now rs area.now
        → Known strict b.now rs at }
{
    let n = area.len();
    let h = number(b, q);
    let own = (at + 1) as u32 + tag(h);
    let mut p = h % n;
    for _ in 0..n {
        let v = area[p];
        if v == own + MARK {
            return true;
        }
        if v == 0 || v == own {
            return false;
        }
        p = after(p, n);
    }
    false
}
