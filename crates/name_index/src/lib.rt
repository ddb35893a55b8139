// The index of names: how many slots it has, which slot is a name's first, and how a name enters.
#![tactic(auto)]

ghost use Rattle.std.specs.Prelude.{◌≡◌, ℕ, ◌+◌, ◌*◌, ◌%◌, ◌^◌, ◌<◌, ◌≤◌, length, slice_set};
ghost use Rattle.format.specs.Slots.{seat};
ghost use Rattle.format.specs.NameIndex.{slot_count, hash_from};

// How many slots the index of `m` names has: the smallest power of two that is at least twice `m`, and at least 2.
pub fn slot_count(m: u32) -> u32
    requires { m ≤ 16777216 }
    ensures { result ≡ slot_count m }
{
    if m == 0 {
        return 2;
    }
    1u32 << (32 - u32::leading_zeros(2 * m - 1))
}

// The hash of a name with one more byte: 33 times the hash plus the byte, modulo 2 ^ 32.
fn with_byte(h: u32, b: u8) -> u32
    ensures { result ≡ (33 * h + b) % 2 ^ 32 }
{
    let two = h.wrapping_add(h);
    let four = two.wrapping_add(two);
    let eight = four.wrapping_add(four);
    let sixteen = eight.wrapping_add(eight);
    let thirty_two = sixteen.wrapping_add(sixteen);
    let thirty_three = thirty_two.wrapping_add(h);
    thirty_three.wrapping_add(b as u32)
}

// The hash of a name.
pub fn hash(name: &[u8]) -> u32
    ensures { result ≡ hash_from 0 name.now }
{
    let mut h: u32 = 0;
    for b in name {
        h = with_byte(h, *b);
    }
    h
}

// The slot, of `n`, at which the search for a name with this hash starts. `n` is a power of two, so a mask gives the remainder.
pub fn first_slot(number: u32, n: usize) -> usize
    requires n_bound { n ≤ 33554432 }
    requires by_index { (e : ℕ) × (n ≡ 2 ^ e) }
    ensures { result ≡ number % n }
{
    let size = 1u32 << (31 - u32::leading_zeros(n as u32));
    (number % size) as usize
}

// The slot `i` places after the slot `first` of `n`; the first slot comes after the last.
pub fn turned(first: usize, i: usize, n: usize) -> usize
    requires first_lt_n { first < n }
    requires i_le_n { i ≤ n }
    requires n_bound { n ≤ 33554432 }
    ensures { result ≡ (first + i) % n }
{
    let at = first + i;
    if at < n {
        return at;
    }
    at - n
}

// The first empty slot from the slot `first` on, going round the end; the slot `first` if none is empty.
fn free_slot(slots: &[u32], first: usize) -> usize
    requires first_in_bounds { first < length slots.now }
    requires slots_len_bound { length slots.now ≤ 33554432 }
    ensures { result ≡ seat first slots.now }
{
    let n = slots.len();
    for i in 0..n {
        let at = turned(first, i, n);
        if slots[at] == 0 {
            return at;
        }
    }
    turned(first, n, n)
}

// Puts a value into the first empty slot for a name whose first slot is `first`. Returns the slot that it went into.
pub fn enter(slots: &mut [u32], first: usize, value: u32) -> usize
    requires first_in_bounds { first < length slots.old }
    requires slots_len_bound { length slots.old ≤ 33554432 }
    ensures at { result ≡ seat first slots.old }
    ensures wrote { slots.new ≡ slice_set slots.old (seat first slots.old) value }
{
    let at = free_slot(slots, first);
    slots[at] = value;
    at
}
