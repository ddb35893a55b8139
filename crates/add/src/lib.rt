// Adds programs: one after each leaf, written in the tidy text after the old programs.
#![tactic(auto)]

ghost use Rattle.std.specs.Prelude.{◌≡◌, true, false, not, ◌||◌, cond, ◌≤◌, ◌<◌, min, length, ltb};
ghost use Rattle.format.specs.Fields.{last_of};
ghost use Rattle.format.specs.Reading.{read_text};
ghost use Rattle.format.specs.Programs.{programs, links, leaves};
ghost use Rattle.format.specs.Catalogue as format;
ghost use Rattle.program_parents.specs.Parents.{graph_of};
ghost use Rattle.format.specs.Adding.{given};
ghost use Rattle.format.specs.Calls.{yes, fresh, adding};
ghost use Rattle.byte_slices.specs.Over.{over};
ghost use Rattle.accepted.specs.Read.{is_accepted, records_of};
ghost use Rattle.accepted_rule.specs.Rule.{ReadsBy};
ghost use Rattle.program_ids.specs.Ids.{ids_at, IdsInText};
ghost use Rattle.program_ids.specs.Search.{ids_of};
ghost use Rattle.read.specs.Answers.{answer_of, output_of};
ghost use Rattle.add_ids.specs.Taken.{is_among};
ghost use Rattle.add_input.specs.Given.{given_of};
ghost use Rattle.tidy_text.specs.Sizes.{sizes_of};
ghost use Rattle.add_lines.specs.Lines.{new_text};
ghost use Rattle.add.specs.Added.{grown_text, writing_grown, planning, is_none, is_nothing, stray, leaves_of, adding_on};

use add_lines::Shape;
use format::Refusal;
use program_chains::Ordinals;
use read::CountAnswer;
use record::Stretch;
use tidy_sizes::PerKind;

// What the new programs are like, and the rule for repeated tags that the text's lines are read by.
#[derive(Clone, Copy)]
struct Ways {
    shape: Shape,
    strict: bool,
}

// What is known before a byte is written: the ways, the bytes of each kind, and those of the new programs.
#[derive(Clone, Copy)]
struct Plan {
    ways: Ways,
    sizes: PerKind,
    more: usize,
}

// Whether no PP is given, and the rule.
#[derive(Clone, Copy)]
struct Known {
    linked: bool,
    strict: bool,
}

// Writes the tidy text with the new programs after the old ones, and answers its length. The new programs go into a gap that is left before the
// comments.
fn put_grown_text(
    text: &[u8],
    ids: &[u32],
    prefix: &[u8],
    fields: &[u8],
    leaves: &[u32],
    plan: Plan,
    out: &mut [u8],
) -> usize
    requires text_value { is_accepted (read_text text.now) ≡ true }
    requires reads_by { ReadsBy plan.ways.strict text.now }
    requires sizes_value { plan.sizes ≡ sizes_of (records_of text.now) }
    requires more_value { (plan.more ≡ length (new_text text.now ids.now plan.ways.shape prefix.now fields.now leaves.now)) × (plan.more ≤ 16777216) }
    requires ids_in_text { IdsInText text.now ids.now }
    requires leaves_in_bounds { length (grown_text text.now ids.now plan.ways.shape prefix.now fields.now leaves.now) ≤ length out.old }
    ensures next { result ≡ length (grown_text text.now ids.now plan.ways.shape
        prefix.now fields.now leaves.now) }
    ensures wrote { out.new ≡ over out.old 0
        (grown_text text.now ids.now plan.ways.shape
        prefix.now fields.now leaves.now) }
{
    let ways = plan.ways;
    let sizes = plan.sizes;
    tidy_text::put_around(text, ways.strict, sizes, plan.more, out);
    let n = add_lines::put_added(
        out,
        sizes.front(),
        text,
        ids,
        prefix,
        fields,
        leaves,
        ways.shape,
    );
    n + sizes.co
}

// Whether the prefix or the fields by themselves are longer than a text may be.
fn is_too_long(prefix: &[u8], fields: &[u8]) -> bool
    ensures { result ≡ (ltb 16777216 (length prefix.now) || ltb 16777216 (length fields.now)) }
{
    format::LONGEST < prefix.len() || format::LONGEST < fields.len()
}

// Measures what is to be written to an output of `room` bytes, or refuses with 24, then 1, then 20.
fn measure_all(
    text: &[u8],
    ids: &[u32],
    prefix: &[u8],
    fields: &[u8],
    leaves: &[u32],
    ways: Ways,
    room: usize,
) -> Result<Plan, Refusal>
    requires text_value { is_accepted (read_text text.now) ≡ true }
    requires reads_by { ReadsBy ways.strict text.now }
    requires ids_in_text { IdsInText text.now ids.now }
    requires leaves_len_bound { (length leaves.now ≤ 1024) × (ways.shape.empty ≡ false → 0 < length leaves.now) }
    ensures { result ≡ planning text.now ids.now ways
        prefix.now fields.now leaves.now room }
{
    match tidy_text::measure(text, ways.strict) {
        Err(line) => Err(Refusal { number: 24, line }),
        Ok(sizes) => {
            let n = sizes.total();
            if is_too_long(prefix, fields) {
                return Err(Refusal::of_text(1));
            }
            let more = add_lines::added_len(text, ids, prefix, fields, leaves, ways.shape);
            let unfit = tidy_sizes::fit(n, more, 0, room);
            if unfit != 0 {
                return Err(Refusal::of_text(unfit));
            }
            Ok(Plan { ways, sizes, more })
        }
    }
}

// Writes the tidy text with the new programs, or answers a refusal and changes nothing.
fn write_added(
    text: &[u8],
    ids: &[u32],
    prefix: &[u8],
    fields: &[u8],
    leaves: &[u32],
    ways: Ways,
    out: &mut [u8],
) -> CountAnswer
    requires text_value { is_accepted (read_text text.now) ≡ true }
    requires reads_by { ReadsBy ways.strict text.now }
    requires ids_in_text { IdsInText text.now ids.now }
    requires leaves_len_bound { (length leaves.now ≤ 1024) × (ways.shape.empty ≡ false → 0 < length leaves.now) }
    ensures answer { result ≡ answer_of
        (writing_grown text.now ids.now ways.shape
        prefix.now fields.now leaves.now (length out.old)) }
    ensures wrote { out.new ≡ output_of
        (writing_grown text.now ids.now ways.shape
        prefix.now fields.now leaves.now (length out.old))
        out.old }
{
    let plan = measure_all(text, ids, prefix, fields, leaves, ways, out.len())?;
    let n = put_grown_text(text, ids, prefix, fields, leaves, plan, out);
    Ok(n)
}

// Whether no program has this ID yet.
fn is_free(text: &[u8], ids: &[u32], id: &[u8]) -> bool
    requires { IdsInText text.now ids.now }
    ensures { result ≡ not (is_among id.now (ids_at text.now ids.now)) }
{
    program_ids::find_program(text, ids, id).is_none()
}

// Whether no PP is given, so that the PP of a new program is the ID of its leaf.
fn is_linked(previous: Option<Stretch>) -> bool
    ensures { result ≡ is_nothing previous }
{
    previous.is_none()
}

// Whether a PP is given and it equals no ID.
fn is_stray(text: &[u8], ids: &[u32], fields: &[u8], previous: Option<Stretch>) -> bool
    requires ids_in_text { IdsInText text.now ids.now }
    requires previous_value { previous ≡ given_of (last_of 80 80 (given fields.now).fields) }
    ensures { result ≡ stray (ids_at text.now ids.now) (last_of 80 80 (given fields.now).fields) }
{
    match previous {
        None => false,
        Some(p) => is_free(text, ids, &fields[p.at..p.at + p.len]),
    }
}

// The first leaf whose ID is joined to the prefix. If the prefix is free, it is by itself the first new ID, and joining starts at the second leaf.
fn first_joined(count: usize, alone: bool) -> usize
    ensures { result ≡ cond alone (min 1 count) 0 }
{
    if !alone {
        return 0;
    }
    if count == 0 {
        return 0;
    }
    1
}

// How many programs are added: one after each leaf, or one if there are no programs.
fn new_count(leaves: usize, empty: bool) -> usize
    ensures { result ≡ cond empty 1 leaves }
{
    if empty {
        return 1;
    }
    leaves
}

// What is left to do once the leaves are known: refuses with 18, 19, 24, 1 or 20, or writes the text.
fn add_after(
    text: &[u8],
    ids: &[u32],
    prefix: &[u8],
    fields: &[u8],
    leaves: &[u32],
    known: Known,
    out: &mut [u8],
) -> CountAnswer
    requires text_value { is_accepted (read_text text.now) ≡ true }
    requires reads_by { ReadsBy known.strict text.now }
    requires ids_in_text { IdsInText text.now ids.now × (ids_at text.now ids.now ≡ ids_of (programs (records_of text.now))) }
    requires fields_value { ((given fields.now).stop ≡ 0) × (known.linked ≡ is_none (last_of 80 80 (given fields.now).fields)) }
    requires leaves_value { (leaves.now ≡ leaves_of (records_of text.now)) × (0 < length ids.now → 0 < length leaves.now) }
    ensures answer { result ≡ answer_of (adding_on (records_of text.now) prefix.now (given fields.now).fields (length out.old)) }
    ensures wrote { out.new ≡ output_of
        (adding_on (records_of text.now) prefix.now (given fields.now).fields (length out.old))
        out.old }
{
    let alone = is_free(text, ids, prefix);
    let first = first_joined(leaves.len(), alone);
    if add_ids::is_taken(text, ids, prefix, &leaves[first..]) {
        return Err(Refusal::of_text(18));
    }
    let count = ids.len() / program_ids::ROW;
    let empty = count == 0;
    if 1024 < count + new_count(leaves.len(), empty) {
        return Err(Refusal::of_text(19));
    }
    let shape = Shape {
        empty,
        alone,
        linked: known.linked,
    };
    let strict = known.strict;
    let ways = Ways { shape, strict };
    write_added(text, ids, prefix, fields, leaves, ways, out)
}

// The leaves of an accepted text, from its own catalogue; refuses with 22 or 23.
fn find_own_leaves(text: &[u8], catalogue: &[u8]) -> Result<Ordinals, u8>
    requires text_value { is_accepted (read_text text.now) ≡ true }
    requires catalogue_value { catalogue.now ≡ format.catalogue (records_of text.now) }
    ensures { result ≡ graph_of (links (programs (records_of text.now))) }
{
    let parents = program_parents::parents_of(text, catalogue);
    program_parents::find_leaves(&parents)
}

// Adds programs to a text whose catalogue is fresh: 26, 22, 23, 18, 19, 24, 1, 20.
fn add_fresh(
    text: &[u8],
    catalogue: &[u8],
    prefix: &[u8],
    fields: &[u8],
    strict: bool,
    out: &mut [u8],
) -> CountAnswer
    requires catalogue_value { fresh text.now catalogue.now ≡ yes (records_of text.now) }
    requires reads_by { ReadsBy strict text.now }
    ensures answer { result ≡ answer_of (adding text.now catalogue.now prefix.now fields.now (length out.old)) }
    ensures wrote { out.new ≡ output_of
        (adding text.now catalogue.now prefix.now fields.now (length out.old))
        out.old }
{
    if !add_input::is_in_form(prefix, fields) {
        return Err(Refusal::of_text(26));
    }
    let previous = add_input::find_previous(fields);
    let mut list: [u32; 3072] = [0; 3072];
    let count = program_parents::list_ids(text, catalogue, &mut list);
    let end = count * program_ids::ROW;
    let ids = &list[..end];
    if is_stray(text, ids, fields, previous) {
        return Err(Refusal::of_text(22)); // the given PP
    }
    let linked = is_linked(previous);
    let known = Known { linked, strict };
    let own = find_own_leaves(text, catalogue);
    match &own { // not moved out: a copy takes 4 KiB of stack
        Err(refusal) => Err(Refusal::of_text(*refusal)),
        Ok(found) => {
            let leaves = &found.list[..found.count];
            add_after(text, ids, prefix, fields, leaves, known, out)
        }
    }
}

// Adds a program after each leaf, and writes the tidy text to the front of `out`. The refusals, in this order: those of reading, 21, 26, 22, 23, 18,
// 19, 24, 1, 20.
pub fn add(
    text: &[u8],
    catalogue: &[u8],
    prefix: &[u8],
    fields: &[u8],
    out: &mut [u8],
) -> CountAnswer
    ensures answer { result ≡ answer_of (adding text.now catalogue.now prefix.now fields.now (length out.old)) }
    ensures wrote { out.new ≡ output_of
        (adding text.now catalogue.now prefix.now fields.now (length out.old))
        out.old }
{
    let once = read::check_text(text, catalogue)?;
    add_fresh(text, catalogue, prefix, fields, once, out)
}
