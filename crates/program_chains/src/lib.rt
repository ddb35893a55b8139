// Chains of programs: roots and leaves, from a list of parents. A program without PP has the parent 4,294,967,295.
#![tactic(auto)]

ghost use Rattle.std.specs.Prelude.{◌≡◌, true, ◌≤◌, ◌<◌, length};
ghost use Rattle.format.specs.Programs.{numbers_from, leaves, roots};
ghost use Rattle.program_chains.specs.Parents.{links_of, are_parents, in_array, index_in, HasPlaces};

pub const NOBODY: u32 = 4294967295;

// Ordinals in an array, and how many there are.
#[derive(Clone, Copy)]
pub struct Ordinals {
    pub list: [u32; 1024],
    pub count: usize,
}

// The first `n` ordinals.
fn counting(n: usize) -> [u32; 1024]
    requires { n ≤ 1024 }
    ensures { result ≡ in_array (numbers_from 0 n) }
{
    let mut list = [0u32; 1024];
    for i in 0..n {
        list[i] = i as u32;
    }
    list
}

// A number as a `usize`.
fn size(x: u32) -> usize
    ensures { result ≡ x }
{
    x as usize
}

// The place of `x` in a list, or the list's length if it is not there. `places` has the place of each number in the list.
fn place(list: &[u32], places: &[u32; 1024], x: u32) -> usize
    requires has_places { HasPlaces places.now list.now }
    requires x_bound { x < 1024 }
    ensures { result ≡ index_in x list.now }
{
    let at = size(places[x as usize]);
    if at < list.len() {
        if x == list[at] {
            return at;
        }
    }
    list.len()
}

// The leaves in the order of noodles-sam: for each program that has a PP, in order, the last of the list takes the place of its parent. No list is
// searched.
#[inline(never)]
pub fn leaves(parents: &[u32]) -> Ordinals
    requires parents_value { are_parents (length parents.now) parents.now ≡ true }
    requires parents_len_bound { length parents.now ≤ 1024 }
    ensures { (result.list ≡ in_array (leaves (links_of parents.now))) × (result.count ≡ length (leaves (links_of parents.now))) }
{
    let mut list = counting(parents.len());
    let mut places = counting(parents.len());
    let mut count = parents.len();
    for &k in parents {
        if k != NOBODY {
            let at = place(&list[..count], &places, k);
            if at < count {
                count -= 1;
                let last = list[count];
                list[at] = last;
                list[count] = 0;
                places[last as usize] = at as u32;
            }
        }
    }
    Ordinals { list, count }
}

// The programs without PP, in order.
pub fn roots(parents: &[u32]) -> Ordinals
    requires { length parents.now ≤ 1024 }
    ensures { (result.list ≡ in_array (roots (links_of parents.now))) × (result.count ≡ length (roots (links_of parents.now))) }
{
    let mut list = [0u32; 1024];
    let mut count: usize = 0;
    for (i, &parent) in parents.iter().enumerate() {
        if parent == NOBODY {
            list[count] = i as u32;
            count += 1;
        }
    }
    Ordinals { list, count }
}
