// The IDs that adding makes, and whether a program has one of them already. They are not built: each is compared part by part.
#![tactic(auto)]

ghost use Rattle.std.specs.Prelude.{◌≡◌};
ghost use Rattle.format.specs.Bytes.{same};
ghost use Rattle.program_ids.specs.Ids.{ids_at, IdsInText};
ghost use Rattle.add_ids.specs.Taken.{joined, is_among, id_in, id_standing, taken};

use format::ProgramNo;

// Whether an ID is the prefix, `-` and another ID: compares the lengths first, and then part by part.
fn is_joined(id: &[u8], prefix: &[u8], other: &[u8]) -> bool
    ensures { result ≡ same (joined prefix.now other.now) id.now }
{
    let dash = prefix.len();
    if id.len() <= dash {
        return false;
    }
    if id.len() - dash - 1 != other.len() {
        return false;
    }
    if id[dash] != b'-' {
        return false;
    }
    if !byte_slices::starts(prefix, id) {
        return false;
    }
    let from = dash + 1;
    let rest = &id[from..];
    byte_slices::same(other, rest)
}

// The ID of the program with an ordinal, as a part of the text. It is empty if there is no such program.
pub fn find_id<'a>(text: &'a [u8], ids: &[u32], program: ProgramNo) -> &'a [u8]
    requires { IdsInText text.now ids.now }
    ensures value { result.now ≡ id_in (ids_at text.now ids.now) program.0 }
    ensures place { result.ref_ptr ≡ id_standing ids.now program.0 text.entry.ref_ptr }
{
    let k = program.0 as usize;
    if ids.len() / program_ids::ROW <= k {
        return &text[..0];
    }
    program_ids::id_at(text, ids, k)
}

// Whether the ID of some program is the prefix, `-` and another ID. The search stops at the first.
fn is_known(text: &[u8], ids: &[u32], prefix: &[u8], other: &[u8]) -> bool
    requires { IdsInText text.now ids.now }
    ensures { result ≡ is_among (joined prefix.now other.now) (ids_at text.now ids.now) }
{
    for k in 0..ids.len() / program_ids::ROW {
        let id = program_ids::id_at(text, ids, k);
        if is_joined(id, prefix, other) {
            return true;
        }
    }
    false
}

// Whether a program has an ID that is made of the prefix and the ID of a leaf.
pub fn is_taken(text: &[u8], ids: &[u32], prefix: &[u8], leaves: &[u32]) -> bool
    requires { IdsInText text.now ids.now }
    ensures { result ≡ taken (ids_at text.now ids.now) prefix.now leaves.now }
{
    for &leaf in leaves {
        let id = find_id(text, ids, ProgramNo(leaf));
        if is_known(text, ids, prefix, id) {
            return true;
        }
    }
    false
}
