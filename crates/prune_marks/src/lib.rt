// Which programs stay when those that nobody uses are dropped: those in use, and all their ancestors.
#![tactic(auto)]

ghost use Rattle.std.specs.Prelude.{◌≡◌, true, false, ◌≤◌, ◌<◌, length, leb};
ghost use Rattle.format.specs.Bytes.{any};
ghost use Rattle.format.specs.Programs.{loops_from};
ghost use Rattle.program_chains.specs.Parents.{links_of, are_parents};
ghost use Rattle.prune_marks.specs.Marks.{needed_marks, Closed, Up};

// Marks the program `u` and its ancestors, from parent to parent, up to one that is marked already. All above that one are marked too.
fn mark_up(parents: &[u32], marks: &mut [bool], u: u32)
    requires parents_value { are_parents (length parents.now) parents.now ≡ true }
    requires parents_value_2 { loops_from (links_of parents.now) 0 (links_of parents.now) ≡ false }
    requires parents_in_bounds { length parents.now ≤ length marks.old }
    requires u_in_bounds { (u < length parents.now) × (u < 4294967295) }
    requires closed { Closed (links_of parents.now) marks.old }
    ensures { Up (links_of parents.now) u marks.old marks.new }
{
    let mut at: u32 = u;
    while at != program_chains::NOBODY {
        let k = at as usize;
        if marks[k] {
            return;
        }
        marks[k] = true;
        at = parents[k];
    }
}

// Marks the programs in use, `used`, and all their ancestors. Each program is marked once.
pub fn mark_needed(parents: &[u32], used: &[u32]) -> [bool; 1024]
    requires parents_value { are_parents (length parents.now) parents.now ≡ true }
    requires parents_value_2 { loops_from (links_of parents.now) 0 (links_of parents.now) ≡ false }
    requires parents_len_bound { length parents.now ≤ 1024 }
    requires used_value { any (leb (length parents.now)) used.now ≡ false }
    ensures { result ≡ needed_marks (links_of parents.now) used.now }
{
    let mut marks: [bool; 1024] = [false; 1024];
    for &u in used {
        mark_up(parents, &mut marks, u);
    }
    marks
}
