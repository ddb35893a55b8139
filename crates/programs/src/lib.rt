// The roots and the leaves of the programs of a text and its catalogue. Each call first judges the text and the catalogue.
#![tactic(auto)]

ghost use Rattle.std.specs.Prelude.{◌≡◌, length};
ghost use Rattle.format.specs.Calls.{fitting, rooting, leafing};
ghost use Rattle.read.specs.Answers.{answer_of, output_of};
ghost use Rattle.programs.specs.Answers.{leaves_answer_of, list_of};

use format::Refusal;
use read::CountAnswer;

// How many leaves were written, and the hops.
#[derive(Clone, Copy, Debug, PartialEq, Eq)]
pub struct Counted {
    pub leaves: usize,
    pub hops: u32,
}

// The leaves and the hops, or why none were written.
pub type LeavesAnswer = Result<Counted, Refusal>;

// Writes ordinals to the front of `out` and answers how many, or refuses with 20 if `out` is too short.
pub fn put_ordinals(out: &mut [u32], from: &[u32]) -> CountAnswer
    ensures answer { result ≡ answer_of (fitting (length out.old) from.now) }
    ensures wrote { out.new ≡ output_of (fitting (length out.old) from.now) out.old }
{
    if out.len() < from.len() {
        return Err(Refusal::of_text(20));
    }
    out[..from.len()].copy_from_slice(from);
    Ok(from.len())
}

// Writes the programs without PP to the front of `out`. The chains are not checked.
pub fn roots(text: &[u8], catalogue: &[u8], out: &mut [u32]) -> CountAnswer
    ensures answer { result ≡ answer_of (rooting text.now catalogue.now (length out.old)) }
    ensures wrote { out.new ≡ output_of (rooting text.now catalogue.now (length out.old)) out.old }
{
    read::check(text, catalogue)?;
    let parents = program_parents::parents_of(text, catalogue);
    let list = parents.list;
    let found = program_chains::roots(&list[..parents.count]);
    let ordinals = found.list;
    put_ordinals(out, &ordinals[..found.count])
}

// Writes the leaves to the front of `out`, in the order of noodles-sam, and answers the hops. Refuses with 22 if a PP dangles, with 23 if there is a
// cycle.
pub fn leaves(text: &[u8], catalogue: &[u8], out: &mut [u32]) -> LeavesAnswer
    ensures answer { result ≡ leaves_answer_of (leafing text.now catalogue.now (length out.old)) }
    ensures wrote { out.new ≡ output_of (list_of (leafing text.now catalogue.now (length out.old)))
        out.old }
{
    read::check(text, catalogue)?; // 21 comes before 22
    let parents = program_parents::parents_of(text, catalogue);
    let found = match program_parents::find_leaves(&parents) {
        Err(number) => return Err(Refusal::of_text(number)),
        Ok(found) => found,
    };
    let hops = program_walks::hops(&parents.list[..parents.count]);
    let leaves = put_ordinals(out, &found.list[..found.count])?;
    Ok(Counted { leaves, hops })
}
