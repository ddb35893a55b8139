// Compares the references of a merge by name and length, and checks that A's references are the front of the merged list.
#![tactic(auto)]

ghost use Rattle.std.specs.Prelude.{◌≡◌, List, ◌++◌, ◌≤◌, ◌+◌, length, IfSome, option_map};
ghost use Rattle.format.specs.References.{Reference, same_reference, same_references};
ghost use Rattle.binary_references.specs.Next.{sq_from, told_reference};
ghost use Rattle.format.specs.Merge.{same_name};
ghost use Rattle.merge_references.specs.Joining.{met_in, From, after_front};

use binary_references::NextReference;

// Whether two references have the same name.
pub fn same_name(a: &[u8], r: NextReference, b: &[u8], q: NextReference) -> bool
    requires len_in_bounds { r.name.at + r.name.len ≤ length a.now }
    requires len_in_bounds_2 { q.name.at + q.name.len ≤ length b.now }
    ensures { result ≡ same_name (told_reference a.now r) (told_reference b.now q) }
{
    let from = r.name.at;
    let to = from + r.name.len;
    let start = q.name.at;
    let end = start + q.name.len;
    byte_slices::same(&a[from..to], &b[start..end])
}

// Whether two references have the same name and length.
pub fn same_reference(a: &[u8], r: NextReference, b: &[u8], q: NextReference) -> bool
    requires len_in_bounds { r.name.at + r.name.len ≤ length a.now }
    requires len_in_bounds_2 { q.name.at + q.name.len ≤ length b.now }
    ensures { result ≡ same_reference (told_reference a.now r) (told_reference b.now q) }
{
    if r.length != q.length {
        return false; // whatever the names are
    }
    same_name(a, r, b, q)
}

// A reference found by its name: whether it has the length too, and where the references after it start.
#[derive(Clone, Copy)]
pub struct Look {
    pub same: bool,
    pub next: usize,
}

// The first of the references of A from the offset `start` on with the name of a reference of B.
pub fn look_from(a: &[u8], strict: bool, start: usize, b: &[u8], q: NextReference) -> Option<Look>
    requires a_len_bound { length a.now ≤ 16777216 }
    requires from { From strict a.now start }
    requires len_in_bounds { q.name.at + q.name.len ≤ length b.now }
    ensures met { option_map (λ l. l.same) result ≡ met_in (told_reference b.now q) (sq_from strict a.now start) }
    ensures behind { IfSome result (λ l. From strict a.now l.next) }
{
    let mut at = start;
    while let Some(r) = binary_references::next_reference(a, strict, at) {
        if same_name(b, q, a, r) {
            return Some(Look {
                same: q.length == r.length,
                next: r.next,
            });
        }
        at = r.next;
    }
    None
}

// Passes the references of A at the front of the merged list, if they are there. Answers where the walk over the merged list goes on.
pub fn pass_front(a: &[u8], strict_a: bool, m: &[u8], strict_m: bool) -> Option<usize>
    requires a_len_bound { length a.now ≤ 16777216 }
    requires m_len_bound { length m.now ≤ 16777216 }
    ensures rest { (l : List Reference) → same_references (sq_from strict_m m.now 0) (sq_from strict_a a.now 0 ++ l)
        ≡ after_front strict_m m.now result l }
    ensures within { IfSome result (λ next. next ≤ length m.now) }
{
    let mut at: usize = 0;
    let mut next: usize = 0;
    while let Some(r) = binary_references::next_reference(a, strict_a, at) {
        let n = binary_references::next_reference(m, strict_m, next)?;
        if !same_reference(m, n, a, r) {
            return None;
        }
        at = r.next;
        next = n.next;
    }
    Some(next)
}
