// The leaves of a text and its catalogue, found by a second engine: each program takes its depth from its parent, and a lent table gets the parent
// and the depth of each. The answers are those of the first engine (`programs`).
#![tactic(auto)]

ghost use Rattle.std.specs.Prelude.{◌≡◌, true, length};
ghost use Rattle.format.specs.Reading.{read_text};
ghost use Rattle.format.specs.Catalogue.{catalogue};
ghost use Rattle.format.specs.Programs.{programs, links};
ghost use Rattle.format.specs.Table.{leafing_table};
ghost use Rattle.accepted.specs.Read.{is_accepted, records_of};
ghost use Rattle.programs_by_table.specs.Answers.{seated_answer, seated_leaves, nodes_left};
ghost use Rattle.programs_by_table.specs.Plans.{no_graph_of, DeepGraphOf, stopped_plan_of, table_plan_of, plan_for};

use format::{Node, Refusal};
use program_chains::Ordinals;
use programs::{Counted, LeavesAnswer};
use read::CountAnswer;

// What is found from the parents: 0, 22 or 23 (the last two with nothing else); the parents, the depths and the number of programs; and the leaves.
#[derive(Clone, Copy)]
struct DeepGraph {
    refusal: u8,
    parents: [u32; 1024],
    depths: [u32; 1024],
    count: usize,
    hops: u32,
    leaves: Ordinals,
}

// Nothing found, because of a refusal.
fn nothing(refusal: u8) -> DeepGraph
    ensures { result ≡ no_graph_of refusal }
{
    let none: [u32; 1024] = [0; 1024];
    let leaves = Ordinals {
        list: none,
        count: 0,
    };
    DeepGraph {
        refusal,
        parents: none,
        depths: none,
        count: 0,
        hops: 0,
        leaves,
    }
}

// The leaves and the depths of an accepted text's programs. Refuses with 22 if a PP dangles, then with 23 if there is a cycle.
fn find(text: &[u8], kept: &[u8]) -> DeepGraph
    requires text_value { is_accepted (read_text text.now) ≡ true }
    requires kept_value { kept.now ≡ catalogue (records_of text.now) }
    ensures { DeepGraphOf (links (programs (records_of text.now))) result }
{
    let parents = program_parents::parents_of(text, kept);
    if parents.dangling {
        return nothing(22);
    }
    let list = parents.list;
    let count = parents.count;
    let links = &list[..count];
    let Some(known) = program_depths::find_depths(links) else {
        return nothing(23);
    };
    let leaves = program_chains::leaves(links);
    let depths = known.list;
    DeepGraph {
        refusal: 0,
        parents: list,
        depths,
        count,
        hops: known.hops,
        leaves,
    }
}

// The answer, and what goes into the table; for a refusal nothing does.
#[derive(Clone, Copy)]
pub struct TablePlan {
    pub answer: LeavesAnswer,
    pub parents: [u32; 1024],
    pub depths: [u32; 1024],
    pub count: usize,
}

// A refusal, with nothing for the table.
fn stopped(refusal: Refusal) -> TablePlan
    ensures { result ≡ stopped_plan_of refusal }
{
    let none: [u32; 1024] = [0; 1024];
    TablePlan {
        answer: Err(refusal),
        parents: none,
        depths: none,
        count: 0,
    }
}

// The plan that follows from what was written to the output.
fn planned(a: CountAnswer, found: DeepGraph) -> TablePlan
    ensures { result ≡ table_plan_of a found }
{
    match a {
        Err(refusal) => stopped(refusal),
        Ok(leaves) => {
            let answer = Ok(Counted {
                leaves,
                hops: found.hops,
            });
            let parents = found.parents;
            let depths = found.depths;
            TablePlan {
                answer,
                parents,
                depths,
                count: found.count,
            }
        }
    }
}

// All but filling the table, which has `seats` records: writes the leaves to the front of `out`. A program in Rattle that only compares answers calls
// this, because it can't lend a table without a proof by hand.
pub fn make_plan(text: &[u8], catalogue: &[u8], seats: usize, out: &mut [u32]) -> TablePlan
    ensures plan { result ≡ plan_for (leafing_table text.now catalogue.now (length out.old) seats) }
    ensures wrote { out.new ≡ seated_leaves text.now catalogue.now seats out.old }
{
    if let Err(refusal) = read::check(text, catalogue) { // 21 comes before 22
        return stopped(refusal);
    }
    let found = find(text, catalogue);
    if found.refusal != 0 {
        return stopped(Refusal::of_text(found.refusal));
    }
    if seats < found.count {
        return stopped(Refusal::of_text(20));
    }
    let leaves = found.leaves;
    let ordinals = leaves.list;
    let written = programs::put_ordinals(out, &ordinals[..leaves.count]);
    planned(written, found)
}

// Writes the leaves to the front of `out`, in the order of noodles-sam, and the parent and the depth of each program to the front of `table`; answers
// the hops. Refuses with 22 if a PP dangles, with 23 if there is a cycle, with 20 if `out` or `table` is too short.
pub fn leaves_by_table(
    text: &[u8],
    catalogue: &[u8],
    table: &mut [Node],
    out: &mut [u32],
) -> LeavesAnswer
    ensures answer { result ≡ seated_answer text.now catalogue.now (length table.old) out.old }
    ensures wrote { out.new ≡ seated_leaves text.now catalogue.now (length table.old) out.old }
    ensures tabled { table.new ≡ nodes_left text.now catalogue.now table.old out.old }
{
    let seats = table.len();
    let plan = make_plan(text, catalogue, seats, out);
    program_table::put_nodes(table, plan.parents, plan.depths, plan.count);
    plan.answer
}
