// The programs of a merge: what is known of those of an accepted text, and whether each has its image in the merged text, given by a list of
// ordinals.
#![tactic(auto)]

ghost use Rattle.std.specs.Prelude.{◌≡◌, true, ◌||◌, ◌<◌, ◌≤◌, length, eqb, ltb};
ghost use Rattle.format.specs.Bytes.{all};
ghost use Rattle.format.specs.Reading.{read_text};
ghost use Rattle.format.specs.Merge.{shapes, keeps_parent, is_image, images};
ghost use Rattle.accepted.specs.Read.{is_accepted, records_of};
ghost use Rattle.accepted_rule.specs.Rule.{ReadsBy};
ghost use Rattle.program_chains.specs.Parents.{nobody, link_of};
ghost use Rattle.merge_programs.specs.Opened.{IsOpened, Untangled};
ghost use Rattle.merge_programs.specs.Members.{member_of, shape_at, IsMember};

use program_parents::Parents;
use program_places::Places;

// What an accepted text is judged by: the rule for repeated tags that its lines are read by, whether it is refused with 22 or 23, where
// the lines of its programs are, and their parents.
#[derive(Clone, Copy)]
pub struct Opened {
    pub strict: bool,
    pub tangle: Result<(), u8>,
    pub lines: Places,
    pub parents: Parents,
}

pub fn open_text(text: &[u8], strict: bool) -> Opened
    requires text_value { is_accepted (read_text text.now) ≡ true }
    requires reads_by { ReadsBy strict text.now }
    ensures { IsOpened text.now result }
{
    let gathered = program_lines::gather(text, strict);
    let programs = gathered.programs;
    let lines = gathered.lines;
    let parents = program_parents::parents_in(text, programs);
    let tangle = program_parents::tangle(&parents);
    Opened {
        strict,
        tangle,
        lines,
        parents,
    }
}

// A program of a text: the rule for repeated tags that the text's lines are read by, where the program's line is, and its parent.
#[derive(Clone, Copy)]
struct Member {
    strict: bool,
    at: u32,
    len: u32,
    parent: u32,
}

// The program `i` of a text, from the arrays of all.
fn member_at(
    strict: bool,
    ats: &[u32; 1024],
    lens: &[u32; 1024],
    parents: &[u32; 1024],
    i: usize,
) -> Member
    requires { i < 1024 }
    ensures { result ≡ member_of strict ats.now lens.now parents.now i }
{
    Member {
        strict,
        at: ats[i],
        len: lens[i],
        parent: parents[i],
    }
}

// Whether the parent of the image is the image of the parent, or neither has a parent.
fn keeps_parent(list: &[u32], parent: u32, image: u32) -> bool
    requires { (eqb parent nobody || ltb parent (length list.now)) ≡ true }
    ensures { result ≡ keeps_parent list.now (link_of parent) (link_of image) }
{
    if parent == program_chains::NOBODY {
        return image == program_chains::NOBODY;
    }
    if image == program_chains::NOBODY {
        return false;
    }
    list[parent as usize] == image
}

// Whether a program of the merged text is an image of a program of a text.
fn is_image(a: &[u8], p: Member, m: &[u8], image: Member, list: &[u32]) -> bool
    requires member { IsMember a.now p }
    requires member_2 { IsMember m.now image }
    requires list_value { (eqb p.parent nobody || ltb p.parent (length list.now)) ≡ true }
    ensures { result ≡ is_image list.now (shape_at a.now p) (shape_at m.now image) }
{
    let start = p.at as usize;
    let end = start + p.len as usize;
    let from = image.at as usize;
    let to = from + image.len as usize;
    if !merge_fields::same_fields(
        &a[start..end],
        start,
        p.strict,
        &m[from..to],
        from,
        image.strict,
    ) {
        return false;
    }
    keeps_parent(list, p.parent, image.parent)
}

// Whether each program of a text has its image in the merged text. The list has one ordinal for each, and none is too high.
pub fn has_images(a: &[u8], of_a: Opened, m: &[u8], of_m: Opened, list: &[u32]) -> bool
    requires untangled { Untangled a.now of_a }
    requires untangled_2 { Untangled m.now of_m }
    requires list_len { length list.now ≡ of_a.parents.count }
    requires list_value { all (λ k. ltb k of_m.parents.count) list.now ≡ true }
    ensures { result ≡ images list.now (shapes (records_of a.now)) (shapes (records_of m.now)) }
{
    let lines_a = of_a.lines;
    let ats_a = lines_a.at;
    let lens_a = lines_a.len;
    let parents_a = of_a.parents;
    let links_a = parents_a.list;
    let lines_m = of_m.lines;
    let ats_m = lines_m.at;
    let lens_m = lines_m.len;
    let parents_m = of_m.parents;
    let links_m = parents_m.list;
    for (i, k) in list.iter().enumerate() {
        let p = member_at(of_a.strict, &ats_a, &lens_a, &links_a, i);
        let image = member_at(of_m.strict, &ats_m, &lens_m, &links_m, *k as usize);
        if !is_image(a, p, m, image, list) {
            return false;
        }
    }
    true
}
