// Pruning: writes the tidy text with only the programs in use and all their ancestors, in the old order. Nothing else is changed.
#![tactic(auto)]

ghost use Rattle.std.specs.Prelude.{◌≡◌, length, leb};
ghost use Rattle.format.specs.Bytes.{any};
ghost use Rattle.read.specs.Answers.{answer_of, output_of};
ghost use Rattle.format.specs.Prune.{pruning};

use format::Refusal;
use read::CountAnswer;

// Whether some ordinal in a list is `count` or more, so that no program has it.
fn has_high(used: &[u32], count: usize) -> bool
    ensures { result ≡ any (leb count) used.now }
{
    for k in used {
        if count <= *k as usize {
            return true;
        }
    }
    false
}

// Writes the tidy text with only the programs `used`, given by their ordinals, and all their ancestors to the front of `out`. The refusals, in this
// order: those of reading, 21, 25 for an ordinal that no program has, 22, 23, 24, 1, 20.
pub fn prune(text: &[u8], catalogue: &[u8], used: &[u32], out: &mut [u8]) -> CountAnswer
    ensures answer { result ≡ answer_of (pruning text.now catalogue.now used.now (length out.old)) }
    ensures wrote { out.new ≡ output_of
        (pruning text.now catalogue.now used.now (length out.old))
        out.old }
{
    let once = read::check_text(text, catalogue)?;
    let found = program_parents::parents_of(text, catalogue);
    let high = has_high(used, found.count);
    if high {
        return Err(Refusal::of_text(25));
    }
    if found.dangling {
        return Err(Refusal::of_text(22));
    }
    let list = found.list;
    let links = &list[..found.count];
    if program_depths::find_depths(links).is_none() {
        return Err(Refusal::of_text(23));
    }
    let marks = prune_marks::mark_needed(links, used);
    tidy::write_marked(text, once, &marks, out)
}
