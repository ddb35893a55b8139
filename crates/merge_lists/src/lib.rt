// The two lists of a merge: the ordinal in the merged header of each program of A and of B.
#![tactic(auto)]

ghost use Rattle.std.specs.Prelude.{◌≡◌, true, false, ◌≤◌, length, replicate, is_some, IfSome};
ghost use Rattle.format.specs.Merge.{assigned};
ghost use Rattle.merge_lists.specs.Marks.{fresh_by, marked_by, hit_from};

// Marks the ordinals of a list one after another, if each is below `count` and none comes twice.
fn mark_list(list: &[u32], count: usize) -> Option<[bool; 1024]>
    requires { count ≤ 1024 }
    ensures good { is_some result ≡ fresh_by count (replicate 1024 false) list.now }
    ensures hits { IfSome result (λ hits. hits ≡ marked_by (replicate 1024 false) list.now) }
{
    let mut hits = [false; 1024];
    for ordinal in list {
        let k = *ordinal as usize;
        if count <= k || hits[k] {
            return None;
        }
        hits[k] = true;
    }
    Some(hits)
}

// Whether each of the first `count` ordinals is hit by one list or the other.
fn is_covered(a: &[bool; 1024], b: &[bool; 1024], count: usize) -> bool
    requires { count ≤ 1024 }
    ensures { result ≡ hit_from a.now b.now 0 count }
{
    for i in 0..count {
        if !a[i] && !b[i] {
            return false;
        }
    }
    true
}

// Whether both lists are valid if A has `a` programs, B has `b` and the merged header has `count`: one ordinal below `count` per program, none twice
// in a list, and every program of the merged header hit. It is compiled as a function of its own: its marks are not on the stack while the references are
// compared.
#[inline(never)]
pub fn is_assigned(a: usize, b: usize, count: usize, list_a: &[u32], list_b: &[u32]) -> bool
    requires { count ≤ 1024 }
    ensures { result ≡ assigned a b count list_a.now list_b.now }
{
    if list_a.len() != a || list_b.len() != b {
        return false;
    }
    let Some(hits_a) = mark_list(list_a, count) else {
        return false;
    };
    let Some(hits_b) = mark_list(list_b, count) else {
        return false;
    };
    is_covered(&hits_a, &hits_b, count)
}
