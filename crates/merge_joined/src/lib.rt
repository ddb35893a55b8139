// Compares the SQ lists of a merge. A's list must be the front of the merged list, and each reference of B must be the next of the merged list or one
// of A's. Merging tools keep the order, so a reference of B that A has is looked for after the one found before it. Once one is not found there, B is
// taken in blocks: the references of a block are put into slots, and a walk over A marks those that A has.
#![tactic(auto)]

ghost use Rattle.std.specs.Prelude.{◌≡◌, true, false, ◌≤◌, ◌<◌, length, IfSome};
ghost use Rattle.format.specs.Merge.{is_joined};
ghost use Rattle.binary_references.specs.Next.{sq_from};
ghost use Rattle.merge_references.specs.Joining.{Apart, From};
ghost use Rattle.merge_hints.specs.Hints.{Placed, Marked};
ghost use Rattle.merge_joined.specs.Passing.{Readable, Ahead, Reached, Passed, IsNext};

use binary_references::NextReference;

// If A and B together have at most so many bytes, they are compared with a small area of slots.
const SHORT: usize = 524288;

// The rule for repeated tags that the lines of each of the three texts are read by.
#[derive(Clone, Copy)]
pub struct Rules {
    pub a: bool,
    pub b: bool,
    pub merged: bool,
}

// Where B and the merged list go on, whether everything agrees so far, and whether B has more references.
#[derive(Clone, Copy)]
struct Left {
    good: bool,
    more: bool,
    at: usize,
    ahead: Option<NextReference>,
}

// The next reference of B: what is left after it, if B has none or it is the next of the merged list too, or else the reference itself.
#[derive(Clone, Copy)]
enum Turn {
    Settled(Left),
    Open(NextReference),
}

// Passes the next reference of B if it is the next of the merged list.
fn pass_new(b: &[u8], m: &[u8], of: Rules, left: Left) -> Turn
    requires b_len_bound { (length b.now ≤ 16777216) × (left.at ≤ length b.now) }
    requires m_len_bound { (length m.now ≤ 16777216) × Ahead m.now left.ahead }
    requires apart { Apart (sq_from of.merged m.now 0) }
    ensures { IsNext of.b b.now of.merged m.now left result }
{
    let Some(q) = binary_references::next_reference(b, of.b, left.at) else {
        return Turn::Settled(Left {
            good: true,
            more: false,
            at: left.at,
            ahead: left.ahead,
        });
    };
    let Some(n) = left.ahead else {
        return Turn::Open(q);
    };
    if !merge_references::same_name(b, q, m, n) {
        return Turn::Open(q);
    }
    let good = n.length == q.length;
    Turn::Settled(Left {
        good,
        more: good,
        at: q.next,
        ahead: binary_references::next_reference(m, of.merged, n.next),
    })
}

// What is left after a reference of B that A has with the same length.
fn pass_known(left: Left, q: NextReference) -> Left
    ensures { result ≡ record { good = true; more = true; at = q.next; ahead = left.ahead } }
{
    Left {
        good: true,
        more: true,
        at: q.next,
        ahead: left.ahead,
    }
}

// What is left after a reference that is neither the next of the merged list nor one of A's with the same length.
fn pass_bad(left: Left, q: NextReference) -> Left
    ensures { result ≡ record { good = false; more = false; at = q.next; ahead = left.ahead } }
{
    Left {
        good: false,
        more: false,
        at: q.next,
        ahead: left.ahead,
    }
}

// What is left after the next reference of B, and where A goes on after the reference found.
#[derive(Clone, Copy)]
struct Near {
    left: Left,
    cursor: usize,
}

// Passes the next reference of B if it is the next of the merged list, or if A has its name from the cursor on.
fn pass_near(a: &[u8], b: &[u8], m: &[u8], of: Rules, left: Left, cursor: usize) -> Option<Near>
    requires readable { Readable of a.now b.now m.now }
    requires reached { Reached (sq_from of.a a.now 0) b.now of.merged m.now left }
    requires from { From of.a a.now cursor }
    ensures passed { IfSome result (λ x. Passed
        (sq_from of.a a.now 0) of.b b.now of.merged m.now left x.left) }
    ensures ahead { IfSome result (λ x. x.left.more ≡ true → left.at < x.left.at) }
    ensures behind { IfSome result (λ x. From of.a a.now x.cursor) }
{
    match pass_new(b, m, of, left) {
        Turn::Settled(passed) => Some(Near {
            left: passed,
            cursor,
        }),
        Turn::Open(q) => {
            let look = merge_references::look_from(a, of.a, cursor, b, q)?;
            if look.same {
                return Some(Near {
                    left: pass_known(left, q),
                    cursor: look.next,
                });
            }
            Some(Near {
                left: pass_bad(left, q),
                cursor,
            })
        }
    }
}

// Passes the references of B as long as each is the next of the merged list or comes in A after those found before.
fn pass_ordered(a: &[u8], b: &[u8], m: &[u8], of: Rules, from: Left) -> Left
    requires readable { Readable of a.now b.now m.now }
    requires reached { Reached (sq_from of.a a.now 0) b.now of.merged m.now from }
    requires good_value { (from.good ≡ true) × (from.more ≡ true) }
    ensures { Passed (sq_from of.a a.now 0) of.b b.now of.merged m.now from result }
{
    let mut left = from;
    let mut cursor: usize = 0;
    while left.more {
        let Some(near) = pass_near(a, b, m, of, left, cursor) else {
            return left;
        };
        left = near.left;
        cursor = near.cursor;
    }
    left
}

// Passes the next reference of B if it is the next of the merged list or one of A's. A mark shows the latter, or else a search through all of A.
fn pass_marked(a: &[u8], b: &[u8], m: &[u8], of: Rules, left: Left, area: &[u32]) -> Left
    requires readable { Readable of a.now b.now m.now }
    requires reached { Reached (sq_from of.a a.now 0) b.now of.merged m.now left }
    requires area_nonzero { (0 < length area.now) × Marked of.b b.now (sq_from of.a a.now 0) area.now }
    ensures passed { Passed (sq_from of.a a.now 0) of.b b.now of.merged m.now left result }
    ensures ahead { result.more ≡ true → left.at < result.at }
{
    match pass_new(b, m, of, left) {
        Turn::Settled(passed) => passed,
        Turn::Open(q) => {
            if merge_hints::is_marked(area, b, left.at, q) {
                return pass_known(left, q);
            }
            match merge_references::look_from(a, of.a, 0, b, q) {
                Some(look) => {
                    if look.same {
                        return pass_known(left, q);
                    }
                    pass_bad(left, q)
                }
                None => pass_bad(left, q),
            }
        }
    }
}

// Passes as many references of B as the slots were filled with, three for every four slots.
fn pass_slots(a: &[u8], b: &[u8], m: &[u8], of: Rules, from: Left, area: &[u32]) -> Left
    requires readable { Readable of a.now b.now m.now }
    requires reached { Reached (sq_from of.a a.now 0) b.now of.merged m.now from }
    requires good_value { (from.good ≡ true) × (from.more ≡ true) }
    requires in_bounds { (4 ≤ length area.now) × Marked of.b b.now (sq_from of.a a.now 0) area.now }
    ensures passed { Passed (sq_from of.a a.now 0) of.b b.now of.merged m.now from result }
    ensures ahead { result.more ≡ true → from.at < result.at }
{
    let mut left = from;
    let mut room = area.len() / 4 * 3;
    while left.more {
        if room == 0 {
            return left;
        }
        left = pass_marked(a, b, m, of, left, area);
        room -= 1;
    }
    left
}

// Passes a block of B's references with slots that are still empty.
fn pass_by(a: &[u8], b: &[u8], m: &[u8], of: Rules, from: Left, area: &mut [u32]) -> Left
    requires readable { Readable of a.now b.now m.now }
    requires reached { Reached (sq_from of.a a.now 0) b.now of.merged m.now from }
    requires good_value { (from.good ≡ true) × (from.more ≡ true) }
    requires in_bounds { (4 ≤ length area.old) × (length area.old ≤ 33554432) }
    requires placed { Placed b.now area.old × Marked of.b b.now (sq_from of.a a.now 0) area.old }
    ensures passed { Passed (sq_from of.a a.now 0) of.b b.now of.merged m.now from result }
    ensures ahead { result.more ≡ true → from.at < result.at }
{
    merge_hints::enter_block(b, of.b, from.at, area);
    merge_hints::mark_all(a, of.a, b, of.b, area);
    pass_slots(a, b, m, of, from, area)
}

// Passes a block of B's references with `N` slots. It is compiled apart, so that the slots are on the stack only while it runs, and not in the frames of
// its callers.
#[inline(never)]
fn pass_with<const N: usize>(a: &[u8], b: &[u8], m: &[u8], of: Rules, from: Left) -> Left
    requires readable { Readable of a.now b.now m.now }
    requires reached { Reached (sq_from of.a a.now 0) b.now of.merged m.now from }
    requires good_value { (from.good ≡ true) × (from.more ≡ true) }
    requires slots { (4 ≤ N) × (N ≤ 33554432) }
    ensures passed { Passed (sq_from of.a a.now 0) of.b b.now of.merged m.now from result }
    ensures ahead { result.more ≡ true → from.at < result.at }
{
    let mut area = [0u32; N];
    pass_by(a, b, m, of, from, &mut area)
}

// Passes a block of B's references. The block is small if A and B together are short, because every block costs a walk over A.
fn pass_block(a: &[u8], b: &[u8], m: &[u8], of: Rules, from: Left) -> Left
    requires readable { Readable of a.now b.now m.now }
    requires reached { Reached (sq_from of.a a.now 0) b.now of.merged m.now from }
    requires good_value { (from.good ≡ true) × (from.more ≡ true) }
    ensures passed { Passed (sq_from of.a a.now 0) of.b b.now of.merged m.now from result }
    ensures ahead { result.more ≡ true → from.at < result.at }
{
    if a.len() + b.len() <= SHORT {
        return pass_with::<24576>(a, b, m, of, from);
    }
    pass_with::<131072>(a, b, m, of, from)
}

// Whether the merged SQ list is A's followed by those of B whose name A lacks, and shared names have equal lengths. No name occurs twice in A's list
// or in the merged list.
pub fn is_joined(a: &[u8], b: &[u8], m: &[u8], of: Rules) -> bool
    requires { Readable of a.now b.now m.now }
    ensures { result ≡ is_joined (sq_from of.a a.now 0) (sq_from of.b b.now 0) (sq_from of.merged m.now 0) }
{
    let Some(front) = merge_references::pass_front(a, of.a, m, of.merged) else {
        return false;
    };
    let ahead = binary_references::next_reference(m, of.merged, front);
    let start = Left {
        good: true,
        more: true,
        at: 0,
        ahead,
    };
    let mut left = pass_ordered(a, b, m, of, start);
    while left.more {
        left = pass_block(a, b, m, of, left);
    }
    left.good && left.ahead.is_none()
}
