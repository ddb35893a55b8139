// The parents of the programs that were gathered from a catalogue, and from the parents the leaves.
#![tactic(auto)]

ghost use Rattle.std.specs.Prelude.{◌≡◌, true, List, ◌≤◌, length};
ghost use Rattle.format.specs.Reading.{read_text};
ghost use Rattle.format.specs.Catalogue as format;
ghost use Rattle.format.specs.Programs.{Program, programs, links, tangled};
ghost use Rattle.accepted.specs.Read.{is_accepted, records_of};
ghost use Rattle.program_places.specs.Gathered.{programs_in};
ghost use Rattle.program_ids.specs.Ids.{ids_at, IdsInText};
ghost use Rattle.program_parents.specs.Parents.{Somewhere, parent_of, parents_of, AreParents, tangle_of, graph_of};
ghost use Rattle.program_parents.specs.Placed.{PlacesOf, ArePlaces, ListsIds};

use catalogue_entries::Place;
use program_chains::Ordinals;
use program_places::Programs;

// The parent of a program whose PP equals no ID. It is neither an ordinal nor `NOBODY`.
pub const STRANGER: u32 = 4294967294;

// The parent of a program, from the place of its PP: `NOBODY` without a PP, `STRANGER` if the PP equals no ID.
fn find_parent(text: &[u8], ids: &[u32], previous: Place) -> u32
    requires ids_in_text { IdsInText text.now ids.now }
    requires somewhere { Somewhere (length text.now) previous }
    ensures { result ≡ parent_of text.now (ids_at text.now ids.now) previous }
{
    if previous.at == program_places::NOWHERE {
        return program_chains::NOBODY;
    }
    let start = previous.at as usize;
    let end = start + previous.len as usize;
    match program_ids::find_program(text, ids, &text[start..end]) {
        None => STRANGER,
        Some(k) => k.0,
    }
}

// The parent of each program in order, how many there are, and whether some PP equals no ID. That is no `Err`: pruning refuses with 25, by the count,
// before it refuses with 22.
#[derive(Clone, Copy)]
pub struct Parents {
    pub list: [u32; 1024],
    pub count: usize,
    pub dangling: bool,
}

// The parents of programs by the places of their IDs and PPs, which are gathered in arrays: one search among the IDs for each PP.
fn find_parents(
    text: &[u8],
    ats: &[u32],
    lens: &[u32],
    from: &[u32],
    widths: &[u32],
    count: usize,
) -> Parents
    requires { ArePlaces text.now (programs_in ats.now lens.now from.now widths.now count) }
    ensures { (ps : List Program)
        → PlacesOf text.now ps (programs_in ats.now lens.now from.now widths.now count)
        → result ≡ parents_of (links ps) }
{
    let mut ids: [u32; 3072] = [0; 3072];
    program_ids::list_ids(text, &ats[..count], &lens[..count], &mut ids);
    let end = count * program_ids::ROW;
    let mut list = [0u32; 1024];
    let mut dangling = false;
    for i in 0..count {
        let place = Place {
            at: from[i],
            len: widths[i],
        };
        let parent = find_parent(text, &ids[..end], place);
        if parent == STRANGER {
            dangling = true;
        }
        list[i] = parent;
    }
    Parents {
        list,
        count,
        dangling,
    }
}

// The same, by places that are held together.
pub fn parents_in(text: &[u8], programs: Programs) -> Parents
    requires { ArePlaces text.now programs }
    ensures { (ps : List Program) → PlacesOf text.now ps programs → result ≡ parents_of (links ps) }
{
    let id = programs.id;
    let ats = id.at;
    let lens = id.len;
    let previous = programs.previous;
    let from = previous.at;
    let widths = previous.len;
    find_parents(text, &ats, &lens, &from, &widths, programs.count)
}

// The parents of an accepted text's programs by its own catalogue, and `more` times again. Nobody asks for more than once: a function that calls itself is compiled by itself, so
// that its four arrays are on the stack only while it runs, and not while a text is checked.
fn parents_again(text: &[u8], catalogue: &[u8], more: usize) -> Parents
    requires text_value { is_accepted (read_text text.now) ≡ true }
    requires catalogue_value { catalogue.now ≡ format.catalogue (records_of text.now) }
    ensures { result ≡ parents_of (links (programs (records_of text.now))) }
{
    let mut ats: [u32; 1024] = [0; 1024];
    let mut lens: [u32; 1024] = [0; 1024];
    let mut from: [u32; 1024] = [0; 1024];
    let mut widths: [u32; 1024] = [0; 1024];
    let count = program_places::gather(catalogue, &mut ats, &mut lens, &mut from, &mut widths);
    if 0 < more {
        return parents_again(text, catalogue, more - 1);
    }
    find_parents(text, &ats, &lens, &from, &widths, count)
}

// The parents of the programs of an accepted text, from its own catalogue. No catalogue is long enough for a second time.
pub fn parents_of(text: &[u8], catalogue: &[u8]) -> Parents
    requires text_value { is_accepted (read_text text.now) ≡ true }
    requires catalogue_value { catalogue.now ≡ format.catalogue (records_of text.now) }
    ensures { result ≡ parents_of (links (programs (records_of text.now))) }
{
    parents_again(text, catalogue, catalogue.len() / 4294967296)
}

// Lists the IDs of the programs of an accepted text, by its own catalogue, and `more` times again, as `parents_again`.
fn list_again(text: &[u8], catalogue: &[u8], ids: &mut [u32], more: usize) -> usize
    requires text_value { is_accepted (read_text text.now) ≡ true }
    requires catalogue_value { catalogue.now ≡ format.catalogue (records_of text.now) }
    requires in_bounds { 3072 ≤ length ids.old }
    ensures { ListsIds text.now ids.new result }
{
    let mut ats: [u32; 1024] = [0; 1024];
    let mut lens: [u32; 1024] = [0; 1024];
    let mut from: [u32; 1024] = [0; 1024];
    let mut widths: [u32; 1024] = [0; 1024];
    let count = program_places::gather(catalogue, &mut ats, &mut lens, &mut from, &mut widths);
    if 0 < more {
        return list_again(text, catalogue, ids, more - 1);
    }
    program_ids::list_ids(text, &ats[..count], &lens[..count], ids);
    count
}

// The list of the IDs of the programs of an accepted text, at the front of `ids`. Answers how many there are.
pub fn list_ids(text: &[u8], catalogue: &[u8], ids: &mut [u32]) -> usize
    requires text_value { is_accepted (read_text text.now) ≡ true }
    requires catalogue_value { catalogue.now ≡ format.catalogue (records_of text.now) }
    requires in_bounds { 3072 ≤ length ids.old }
    ensures { ListsIds text.now ids.new result }
{
    list_again(text, catalogue, ids, catalogue.len() / 4294967296)
}

// Refuses with 22 if a PP dangles, then with 23 if there is a cycle.
pub fn tangle(parents: &Parents) -> Result<(), u8>
    requires { AreParents parents.now }
    ensures { (ps : List Program) → length ps ≤ 1024 → parents.now ≡ parents_of (links ps) → result ≡ tangle_of (links ps) }
{
    if parents.dangling {
        return Err(22);
    }
    if program_walks::has_cycle(&parents.list[..parents.count]) {
        return Err(23);
    }
    Ok(())
}

// The leaves, from the parents, in the order of noodles-sam. Refuses as `tangle`.
pub fn find_leaves(parents: &Parents) -> Result<Ordinals, u8>
    requires { AreParents parents.now }
    ensures { (ps : List Program) → length ps ≤ 1024 → parents.now ≡ parents_of (links ps) → result ≡ graph_of (links ps) }
{
    tangle(parents)?;
    Ok(program_chains::leaves(&parents.list[..parents.count]))
}
