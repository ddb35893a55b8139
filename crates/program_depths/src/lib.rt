// The depth of every program, from a list of parents. Each program takes it from its parent, so every link is followed at most twice.
#![tactic(auto)]

ghost use Rattle.std.specs.Prelude.{◌≡◌, true, false, ◌≤◌, ◌<◌, length, get_or, replicate};
ghost use Rattle.program_chains.specs.Parents.{links_of, are_parents, in_array};
ghost use Rattle.program_depths.specs.Depths.{deep, KnownRight, KnownStay, depths_of};

// The depth of a program whose depth is not known yet. Not an `Option`, which would double the array's memory on the stack.
pub const UNKNOWN: u32 = 4294967295;

// The number of parent links from program `i` to its root, at most n. The walk stops early at a program whose depth is known.
fn climb(parents: &[u32], depths: &[u32; 1024], i: usize) -> u32
    requires parents_value { are_parents (length parents.now) parents.now ≡ true }
    requires parents_len_bound { length parents.now ≤ 1024 }
    requires i_in_bounds { i < length parents.now }
    requires known_right { KnownRight parents.now depths.now }
    ensures { result ≡ deep parents.now i }
{
    let most = parents.len() as u32;
    let mut at = parents[i];
    for steps in 0..most {
        if at == program_chains::NOBODY {
            return steps;
        }
        let k = at as usize;
        let known = depths[k];
        if known != UNKNOWN {
            return most.min(steps + 1 + known);
        }
        at = parents[k];
    }
    most
}

// Notes the depths of the programs above `i`, whose own depth is `d`, up to one whose depth is known.
fn settle(parents: &[u32], depths: &mut [u32; 1024], i: usize, d: u32)
    requires parents_value { are_parents (length parents.now) parents.now ≡ true }
    requires parents_len_bound { length parents.now ≤ 1024 }
    requires i_in_bounds { (i < length parents.now) × (d ≡ deep parents.now i) × (d < length parents.now) }
    requires known_right { KnownRight parents.now depths.old }
    ensures noted { KnownRight parents.now depths.new }
    ensures kept { KnownStay depths.old depths.new }
    ensures sized { length depths.new ≡ length depths.old }
{
    let mut at = i;
    for depth in (0..d).rev() {
        let k = parents[at] as usize;
        if depths[k] != UNKNOWN {
            return;
        }
        depths[k] = depth;
        at = k;
    }
}

// Finds the depths of program `i` and of those above it. False if the parents never end, because there is a cycle.
fn learn(parents: &[u32], depths: &mut [u32; 1024], i: usize) -> bool
    requires parents_value { are_parents (length parents.now) parents.now ≡ true }
    requires parents_len_bound { length parents.now ≤ 1024 }
    requires i_in_bounds { i < length parents.now }
    requires known_right { KnownRight parents.now depths.old }
    ensures endless { result ≡ false → deep parents.now i ≡ length parents.now }
    ensures known { result ≡ true → get_or depths.new i 0 ≡ 4294967295 → ⊥ }
    ensures noted { KnownRight parents.now depths.new }
    ensures kept { KnownStay depths.old depths.new }
    ensures sized { length depths.new ≡ length depths.old }
{
    if depths[i] != UNKNOWN {
        return true;
    }
    let d = climb(parents, depths, i);
    if d as usize == parents.len() {
        return false;
    }
    depths[i] = d;
    settle(parents, depths, i, d);
    true
}

// `n` depths that are not known yet, and zeros after them.
fn unknown(n: usize) -> [u32; 1024]
    requires { n ≤ 1024 }
    ensures { result ≡ in_array (replicate n 4294967295) }
{
    let mut list = [0u32; 1024];
    for at in 0..n {
        list[at] = UNKNOWN;
    }
    list
}

// The depth of each program in order, and their sum.
#[derive(Clone, Copy)]
pub struct Depths {
    pub list: [u32; 1024],
    pub hops: u32,
}

// The depths of all programs. None if some program comes back to itself.
#[inline(never)]
pub fn find_depths(parents: &[u32]) -> Option<Depths>
    requires parents_value { are_parents (length parents.now) parents.now ≡ true }
    requires parents_len_bound { length parents.now ≤ 1024 }
    ensures { result ≡ depths_of (links_of parents.now) }
{
    let mut list = unknown(parents.len());
    let mut hops: u32 = 0;
    for i in 0..parents.len() {
        if !learn(parents, &mut list, i) {
            return None;
        }
        hops += list[i];
    }
    Some(Depths { list, hops })
}
