// Many names at once: makes an index of the SQ names in a lent work area, finds the ordinal of each name of a list with it, and counts the slots
// looked at.
#![tactic(auto)]

pub mod answer;

ghost use Rattle.std.specs.Prelude.{◌≡◌, length};
ghost use Rattle.read.specs.Answers.{output_of};
ghost use Rattle.format.specs.Batch.{batching};
ghost use Rattle.names.specs.Answers.{names_of, results_of, slots_of};

use format::Refusal;

// How many names were answered, and how many slots were looked at.
#[derive(Clone, Copy, Debug, PartialEq, Eq)]
pub struct Counted {
    pub names: usize,
    pub looks: u64,
}

// What was counted, or why nothing was answered.
pub type NamesAnswer = Result<Counted, Refusal>;

// Writes the ordinal among the SQ lines of each name of a list to the front of `out`, or 4294967295, and the index of the SQ names to the front of
// `work`. The slots that the searches looked at are counted. The refusals, in this order: those of reading, 21, 1 for a list that is too long, 20 for
// a work area or a result list that is too short.
pub fn names(
    text: &[u8],
    catalogue: &[u8],
    list: &[u8],
    work: &mut [u32],
    out: &mut [u32],
) -> NamesAnswer
    ensures answer { result ≡ names_of
        (batching text.now catalogue.now list.now (length work.old) (length out.old)) }
    ensures slots { work.new ≡ output_of
        (slots_of (batching text.now catalogue.now list.now (length work.old) (length out.old)))
        work.old }
    ensures found { out.new ≡ output_of
        (results_of (batching text.now catalogue.now list.now (length work.old) (length out.old)))
        out.old }
{
    read::check(text, catalogue)?;
    if format::LONGEST < list.len() {
        return Err(Refusal::of_text(1));
    }
    let room = work.len();
    let m = name_entries::count(catalogue);
    let n = name_index::slot_count(m as u32) as usize;
    if room < n {
        return Err(Refusal::of_text(20));
    }
    let names = name_list::count_names(list);
    if out.len() < names {
        return Err(Refusal::of_text(20));
    }
    let looks = answer::answer(text, catalogue, m, list, &mut work[..n], &mut out[..names]);
    Ok(Counted { names, looks })
}
