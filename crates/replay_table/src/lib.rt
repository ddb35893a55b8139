// The leaves found by the second engine: whether the call answers as a line of stored answers says (the crate `replay` describes the lines). A
// program in Rattle can't lend a table without a proof by hand, so `make_plan` is asked: the call writes its parents and depths into the table, and
// nothing else.
#![tactic(auto)]

ghost use Rattle.std.specs.Prelude.{◌≤◌};

use programs_by_table::TablePlan;

// The numbers of a table, two per record, as they are after a call that leaves `count` records in it.
fn rows(parents: [u32; 1024], depths: [u32; 1024], count: usize) -> [u32; 2048]
    requires { count ≤ 1024 }
{
    let mut table = replay_answers::ordinals();
    for i in 0..count {
        table[2 * i] = parents[i];
        table[2 * i + 1] = depths[i];
    }
    table
}

// Whether the answer is the line's, the leaves are at the front of `out`, and the table's records are the line's; the records after them are as they
// were.
fn is_plan(line: &[u8], plan: TablePlan, out: &[u32]) -> bool
    requires { plan.count ≤ 1024 }
{
    let parents = plan.parents;
    let depths = plan.depths;
    let count = plan.count;
    let table = rows(parents, depths, count);
    let answer = plan.answer;
    match answer {
        Err(refusal) => {
            replay_answers::is_refusal(line, 5, refusal.number, refusal.line)
                && replay_cases::is_unlisted(out)
                && replay_cases::is_unlisted(&table)
        }
        Ok(found) => {
            replay_answers::is_ok(line, 5, 3)
                && replay_answers::is_list(replay_cases::word(line, 6), out, found.leaves, 4)
                && replay_answers::is_number(replay_cases::word(line, 7), found.hops as u64)
                && replay_answers::is_list(replay_cases::word(line, 8), &table, 2 * count, 8)
        }
    }
}

// Whether the leaves, the hops and the table are the line's, with an output and a table of the sizes that it says.
pub fn is_leaves_by_table(line: &[u8], text: &[u8], kept: &[u8], out: &mut [u32]) -> bool {
    let room = replay_answers::ordinal_room(replay_cases::word(line, 3), out);
    let seats = replay_cases::number(replay_cases::word(line, 4));
    let plan = programs_by_table::make_plan(text, kept, seats, &mut out[..room]);
    is_plan(line, plan, out)
}
