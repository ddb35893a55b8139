// Chains of programs, walked from parent to parent: cycles and hops, from a list of parents.
#![tactic(auto)]

ghost use Rattle.std.specs.Prelude.{◌≡◌, true, ◌≤◌, ◌<◌, length, get_or};
ghost use Rattle.format.specs.Programs.{reaches, loops_from, depth, hops};
ghost use Rattle.program_chains.specs.Parents.{link_of, links_of, are_parents};

// Whether program `i` comes back to itself after 1 to n parent steps.
fn comes_back(parents: &[u32], i: usize) -> bool
    requires parents_value { are_parents (length parents.now) parents.now ≡ true }
    requires i_in_bounds { i < length parents.now }
    ensures { result ≡ reaches (links_of parents.now) i (length parents.now) (link_of (get_or parents.now i 0)) }
{
    let mut at = parents[i];
    for _ in 0..parents.len() {
        if at == program_chains::NOBODY {
            return false;
        }
        let k = at as usize;
        if i == k {
            return true;
        }
        at = parents[k];
    }
    false
}

// Whether some program comes back to itself after 1 to n parent steps. Every program is tried, with at most n steps each.
pub fn has_cycle(parents: &[u32]) -> bool
    requires { are_parents (length parents.now) parents.now ≡ true }
    ensures { result ≡ loops_from (links_of parents.now) 0 (links_of parents.now) }
{
    for i in 0..parents.len() {
        if comes_back(parents, i) {
            return true;
        }
    }
    false
}

// The number of parent links from program `i` to its root.
fn depth(parents: &[u32], i: usize) -> u32
    requires parents_value { are_parents (length parents.now) parents.now ≡ true }
    requires parents_len_bound { length parents.now ≤ 1024 }
    requires i_in_bounds { i < length parents.now }
    ensures { result ≡ depth (links_of parents.now) (length parents.now) (link_of (get_or parents.now i 0)) }
{
    let most = parents.len() as u32;
    let mut at = parents[i];
    for steps in 0..most {
        if at == program_chains::NOBODY {
            return steps;
        }
        at = parents[at as usize];
    }
    most
}

// The sum of the numbers of parent links from every program to its root.
pub fn hops(parents: &[u32]) -> u32
    requires parents_value { are_parents (length parents.now) parents.now ≡ true }
    requires parents_len_bound { length parents.now ≤ 1024 }
    ensures { result ≡ hops (links_of parents.now) }
{
    let mut sum: u32 = 0;
    for i in 0..parents.len() {
        sum += depth(parents, i);
    }
    sum
}
