// The lines of new programs in a tidy text.
#![tactic(auto)]

ghost use Rattle.std.specs.Prelude.{◌≡◌, ◌≤◌, ◌+◌, length};
ghost use Rattle.byte_slices.specs.Over.{over};
ghost use Rattle.program_ids.specs.Ids.{IdsInText};
ghost use Rattle.add_lines.specs.Line.{joining, linking, ending, new_line};
ghost use Rattle.add_lines.specs.Lines.{new_text};

use format::{Kind, ProgramNo};

// How new programs look: whether there are no programs yet, whether the first new ID is the prefix by itself, and whether a PP with the ID of the
// leaf is added.
#[derive(Clone, Copy)]
pub struct Shape {
    pub empty: bool,
    pub alone: bool,
    pub linked: bool,
}

// How one of them looks: its ID is the prefix alone; PP with the leaf's ID is added.
#[derive(Clone, Copy)]
pub struct Look {
    pub alone: bool,
    pub linked: bool,
}

// Writes bytes, and returns the place after them.
fn put_slice(out: &mut [u8], o: usize, from: &[u8]) -> usize
    requires { o + length from.now ≤ length out.old }
    ensures next { result ≡ o + length from.now }
    ensures wrote { out.new ≡ over out.old o from.now }
{
    byte_slices::put_bytes(out, o, from);
    o + from.len()
}

// Writes what follows the prefix in an ID: nothing, or `-` and the ID of the leaf.
fn put_joining(out: &mut [u8], o: usize, id: &[u8], alone: bool) -> usize
    requires { o + length (joining alone id.now) ≤ length out.old }
    ensures next { result ≡ o + length (joining alone id.now) }
    ensures wrote { out.new ≡ over out.old o (joining alone id.now) }
{
    if alone {
        return o;
    }
    out[o] = b'-';
    put_slice(out, o + 1, id)
}

// Writes a PP with the ID of the leaf, if no PP is given.
fn put_linking(out: &mut [u8], o: usize, id: &[u8], linked: bool) -> usize
    requires { o + length (linking linked id.now) ≤ length out.old }
    ensures next { result ≡ o + length (linking linked id.now) }
    ensures wrote { out.new ≡ over out.old o (linking linked id.now) }
{
    if linked {
        return tidy_parts::put_field(out, o, b'P', b'P', id, 0, id.len());
    }
    o
}

// Writes what follows the ID: the given fields, the PP, and the LF.
fn put_ending(out: &mut [u8], o: usize, fields: &[u8], id: &[u8], linked: bool) -> usize
    requires { o + length (ending linked fields.now id.now) ≤ length out.old }
    ensures next { result ≡ o + length (ending linked fields.now id.now) }
    ensures wrote { out.new ≡ over out.old o (ending linked fields.now id.now) }
{
    let n = put_slice(out, o, fields);
    let n = put_linking(out, n, id, linked);
    out[n] = b'\n';
    n + 1
}

// Writes the line of a new program after the leaf `id`, and returns the place after it.
fn put_program_line(
    out: &mut [u8],
    o: usize,
    prefix: &[u8],
    fields: &[u8],
    id: &[u8],
    look: Look,
) -> usize
    requires { o + length (new_line look.alone look.linked prefix.now fields.now id.now) ≤ length out.old }
    ensures next { result ≡ o + length (new_line look.alone look.linked prefix.now fields.now id.now) }
    ensures wrote { out.new ≡ over out.old o (new_line look.alone look.linked prefix.now fields.now id.now) }
{
    let n = tidy_parts::put_prefix(out, o, Kind::Program);
    let n = tidy_parts::put_tag(out, n, b'I', b'D');
    let n = put_slice(out, n, prefix);
    let n = put_joining(out, n, id, look.alone);
    put_ending(out, n, fields, id, look.linked)
}

// How many bytes follow the prefix in an ID.
fn joining_len(id: &[u8], alone: bool) -> usize
    requires { length id.now ≤ 16777216 }
    ensures { result ≡ length (joining alone id.now) }
{
    if alone {
        return 0;
    }
    1 + id.len()
}

// How many bytes a PP with the ID of the leaf takes, if no PP is given.
fn linking_len(id: &[u8], linked: bool) -> usize
    requires { length id.now ≤ 16777216 }
    ensures { result ≡ length (linking linked id.now) }
{
    if linked {
        return 4 + id.len();
    }
    0
}

// How many bytes the line of a new program takes.
pub fn line_len(prefix: &[u8], fields: &[u8], id: &[u8], alone: bool, linked: bool) -> usize
    requires { (length prefix.now ≤ 16777216) × (length fields.now ≤ 16777216) × (length id.now ≤ 16777216) }
    ensures { result ≡ length (new_line alone linked prefix.now fields.now id.now) }
{
    let joined = joining_len(id, alone);
    let previous = linking_len(id, linked);
    8 + prefix.len() + fields.len() + joined + previous
}

// How many bytes the new programs take: one line after each leaf. If there are no programs, one is added, whose ID is the prefix and which gets no
// PP.
pub fn added_len(
    text: &[u8],
    ids: &[u32],
    prefix: &[u8],
    fields: &[u8],
    leaves: &[u32],
    shape: Shape,
) -> usize
    requires ids_in_text { IdsInText text.now ids.now }
    requires text_len_bound { (length text.now ≤ 16777216) × (length prefix.now ≤ 16777216) × (length fields.now ≤ 16777216) × (length leaves.now ≤ 1024) }
    ensures { result ≡ length (new_text text.now ids.now shape
        prefix.now fields.now leaves.now) }
{
    if shape.empty {
        return line_len(prefix, fields, &text[..0], true, false);
    }
    let mut n = 0usize;
    let mut first = shape.alone;
    for &leaf in leaves {
        let id = add_ids::find_id(text, ids, ProgramNo(leaf));
        n += line_len(prefix, fields, id, first, shape.linked);
        first = false;
    }
    n
}

// Writes the new programs, and returns the place after them.
pub fn put_added(
    out: &mut [u8],
    o: usize,
    text: &[u8],
    ids: &[u32],
    prefix: &[u8],
    fields: &[u8],
    leaves: &[u32],
    shape: Shape,
) -> usize
    requires ids_in_text { IdsInText text.now ids.now }
    requires leaves_in_bounds { o + length (new_text text.now ids.now shape prefix.now fields.now leaves.now) ≤ length out.old }
    ensures next { result ≡ o + length (new_text text.now ids.now shape
        prefix.now fields.now leaves.now) }
    ensures wrote { out.new ≡ over out.old o
        (new_text text.now ids.now shape
        prefix.now fields.now leaves.now) }
{
    if shape.empty {
        let look = Look {
            alone: true,
            linked: false,
        };
        return put_program_line(out, o, prefix, fields, &text[..0], look);
    }
    let mut n = o;
    let mut first = shape.alone;
    for &leaf in leaves {
        let id = add_ids::find_id(text, ids, ProgramNo(leaf));
        let look = Look {
            alone: first,
            linked: shape.linked,
        };
        n = put_program_line(out, n, prefix, fields, id, look);
        first = false;
    }
    n
}
