// Counts the names of a list. Each LF ends a name, and bytes after the last LF are one more name.
#![tactic(auto)]

ghost use Rattle.std.specs.Prelude.{◌≡◌, ◌≤◌, ◌+◌, length, drop};
ghost use Rattle.name_list.specs.Ends.{ends};
ghost use Rattle.format.specs.Asked.{asked};

// How many LFs are among the 128 bytes from `at` on. The count has eight bits, so that the processor can take many bytes at once.
fn count_block(list: &[u8], at: usize) -> u8
    requires { at + 128 ≤ length list.now }
    ensures { (result ≤ 128) × (ends (drop at list.now) ≡ result + ends (drop (at + 128) list.now)) }
{
    let mut n: u8 = 0;
    for i in 0..128 {
        if list[at + i] == b'\n' {
            n += 1;
        }
    }
    n
}

// How many LFs a list has from `from` on.
fn count_rest(list: &[u8], from: usize) -> u32
    requires list_len_bound { length list.now ≤ 16777216 }
    requires from_in_bounds { from ≤ length list.now }
    ensures { (result ≤ length list.now) × (result ≡ ends (drop from list.now)) }
{
    list[from..].iter().filter(|b| **b == b'\n').count() as u32
}

// How many LFs a list has. Whole blocks come first.
fn count_ends(list: &[u8]) -> u32
    requires { length list.now ≤ 16777216 }
    ensures { result ≡ ends list.now }
{
    let blocks = list.len() / 128;
    let mut n: u32 = 0;
    for block in 0..blocks {
        n += count_block(list, block * 128) as u32;
    }
    n + count_rest(list, blocks * 128)
}

// How many names a list has. Each LF ends a name, and bytes after the last LF are one more name.
pub fn count_names(list: &[u8]) -> usize
    requires { length list.now ≤ 16777216 }
    ensures { result ≡ length (asked list.now) }
{
    let n = count_ends(list) as usize;
    let Some(last) = list.last() else {
        return n;
    };
    if *last == b'\n' {
        return n;
    }
    n + 1 // no LF ends the last
}
