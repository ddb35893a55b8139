// One line of a text in its catalogue: measures, writes and compares its entries.
#![tactic(auto)]

ghost use Rattle.std.specs.Prelude.{◌≡◌, true, false, ◌≤◌, ◌<◌, ◌+◌, ◌^◌, length, drop};
ghost use Rattle.format.specs.Bytes.{starts};
ghost use Rattle.format.specs.Records.{line};
ghost use Rattle.format.specs.declared.Kind.TheVariants.{Comment};
ghost use Rattle.byte_slices.specs.Over.{over};
ghost use Rattle.accepted.specs.Read.{is_read};
ghost use Rattle.record.specs.Head.{head_of};
ghost use Rattle.accepted_line.specs.Run.{fields_from};
ghost use Rattle.accepted_line.specs.Tables.{Walkable};
ghost use Rattle.accepted_line.specs.Found.{is_comment};
ghost use Rattle.accepted_line.specs.Form.{LineOf, IsForm};
ghost use Rattle.accepted_line.specs.Keys.{keys_in};
ghost use Rattle.catalogue_entries.specs.Entries.{entry_size, entry_bytes, FitsEntry};
ghost use Rattle.catalogue_lines.specs.Line.{line_bytes};
ghost use Rattle.catalogue_lines.specs.Parts.{entry_place, own_entry, plain_head, others_of, size_of_head, own_size, field_bytes};
ghost use Rattle.catalogue_lines.specs.Matched.{met_in, compared_of, matched};

use accepted_line::{Form, KeyValues};
use catalogue_entries::{Entry, Place};
use format::Kind;
use record::{Head, Stretch};

// Where a line is: its offset in the text, and its number.
#[derive(Clone, Copy)]
struct LinePlace {
    at: usize,
    number: u32,
}

// Where a walk over a line found its keys, and the place after the entries of its other fields.
#[derive(Clone, Copy)]
struct Met {
    next: usize,
    keys: KeyValues,
}

// Where the name of an SQ with SN and LN alone is, and the length of its sequence.
#[derive(Clone, Copy)]
struct PlainLine {
    name: Place,
    length: u64,
}

// How many other fields a record has.
#[tactic(auto, unfolding(crate::specs::Parts::others_of))]
fn others_of(head: Head) -> usize
    ensures { result ≡ others_of head }
{
    match head {
        Head::Refused(_) | Head::Comment(_) => 0,
        Head::Header(_, n)
        | Head::ReferenceSequence(_, _, n)
        | Head::ReadGroup(_, n)
        | Head::Program(_, n) => n,
    }
}

// An entry of the same kind as a record's own entry, with no place and no line in it. It has the same length.
fn blank_entry(head: Head) -> Entry
    ensures { entry_size result ≡ entry_size (own_entry 0 head) }
{
    let nowhere = Place { at: 0, len: 0 };
    match head {
        Head::Refused(_) => Entry::End,
        Head::Header(v, _) => Entry::Header(v, 0),
        Head::ReferenceSequence(_, n, _) => Entry::ReferenceSequence(nowhere, n, 0),
        Head::ReadGroup(_, _) => Entry::ReadGroup(nowhere, 0),
        Head::Program(_, _) => Entry::Program(nowhere, 0),
        Head::Comment(_) => Entry::Comment(nowhere, 0),
    }
}

// How many bytes the entries of a record take: its own entry, and one entry per other field.
pub fn entries_size(head: Head) -> usize
    requires { others_of head < 2 ^ 32 }
    ensures { result ≡ size_of_head head }
{
    let nowhere = Place { at: 0, len: 0 };
    let field = catalogue_entries::size(Entry::Field(0, 0, nowhere));
    catalogue_entries::size(blank_entry(head)) + others_of(head) * field
}

// A place, in the numbers of an entry.
fn narrow(p: Stretch) -> Place
    requires { (p.at < 2 ^ 32) × (p.len < 2 ^ 32) }
    ensures { result ≡ entry_place p }
{
    Place {
        at: p.at as u32,
        len: p.len as u32,
    }
}

// The own entry of a record on the line `number`.
fn own_entry(head: Head, number: u32) -> Entry
    requires { FitsEntry (own_entry number head) }
    ensures { result ≡ own_entry number head }
{
    match head {
        Head::Refused(_) => Entry::End,
        Head::Header(v, _) => Entry::Header(v, number),
        Head::ReferenceSequence(p, n, _) => Entry::ReferenceSequence(narrow(p), n, number),
        Head::ReadGroup(p, _) => Entry::ReadGroup(narrow(p), number),
        Head::Program(p, _) => Entry::Program(narrow(p), number),
        Head::Comment(p) => Entry::Comment(narrow(p), number),
    }
}

// How long the own entry of a record of this kind is.
fn own_size(kind: Kind) -> usize
    ensures { result ≡ own_size kind }
{
    match kind {
        Kind::ReferenceSequence => 21,
        Kind::Header | Kind::ReadGroup | Kind::Program | Kind::Comment => 13,
    }
}

// The own entry of an accepted line, from its keys; `number` is the number of the line.
fn line_entry(kind: Kind, src: &[u8], at: usize, number: u32, keys: KeyValues) -> Entry
    requires line_of { LineOf kind at src.now }
    requires keys_value { keys ≡ keys_in kind (fields_from at src.now 3) }
    ensures { result ≡ own_entry number (head_of (line false (record { at = at; bytes = src.now }))) }
{
    own_entry(accepted_line::head_of(kind, src, at, keys), number)
}

// The entry of a comment.
fn comment_entry(src: &[u8], at: usize, number: u32) -> Entry
    requires { LineOf Comment at src.now }
    ensures { entry_bytes result ≡ line_bytes false number at src.now }
{
    line_entry(Kind::Comment, src, at, number, KeyValues::new())
}

// The parts of an accepted line that is an SQ with SN and LN alone, as most lines are. It is recognised whole, without a walk over its fields.
fn plain_line(src: &[u8], at: usize) -> Option<PlainLine>
    requires src_value { is_read (line false (record { at = at; bytes = src.now })) ≡ true }
    requires src_bound { at + length src.now ≤ 16777216 }
    ensures { plain_head (head_of (line false (record { at = at; bytes = src.now }))) result ≡ head_of (line false (record { at = at; bytes = src.now })) }
{
    if src[1] != b'S' {
        return None;
    }
    let plain = record_parser::plain::parse_plain(src)?;
    let name = narrow(Stretch {
        at: at + 7,
        len: plain.name_len,
    });
    Some(PlainLine {
        name,
        length: plain.length,
    })
}

// Writes the entries of an accepted line's other fields from `o` on. The same walk finds the keys.
fn put_fields(out: &mut [u8], o: usize, kind: Kind, src: &[u8], at: usize, tables: &[u32]) -> Met
    requires walkable { Walkable at src.now tables.now }
    requires src_bound { at + length src.now ≤ 16777216 }
    requires src_in_bounds { o + length (field_bytes kind at src.now 3) ≤ length out.old }
    ensures met { result ≡ met_in kind at src.now o }
    ensures wrote { out.new ≡ over out.old o (field_bytes kind at src.now 3) }
{
    let mut keys = KeyValues::new();
    let mut next = o;
    let mut i: usize = 3;
    while i < src.len() {
        let end = accepted_line::fields::field_end(src, i);
        let a = src[i + 1];
        let b = src[i + 2];
        if record_tags::is_key(kind, a, b) {
            keys = keys.with(a, accepted_line::fields::value_at(at, i, end));
        } else if accepted_line::fields::is_first_of_tag(src, at, i, tables) {
            let v = accepted_line::fields::kept_value(src, at, i, end, tables);
            catalogue_put::put_field(out, next, a, b, narrow(v));
            next += 11;
        }
        i = end;
    }
    Met { next, keys }
}

// Writes the entries of an accepted line of fields from `o` on, and returns the place after them. The own entry is written last, once its keys are
// found.
fn put_line_entries(
    out: &mut [u8],
    o: usize,
    kind: Kind,
    src: &[u8],
    place: LinePlace,
    tables: &[u32],
) -> usize
    requires line_of { LineOf kind place.at src.now }
    requires kind_value { is_comment kind ≡ false }
    requires walkable { Walkable place.at src.now tables.now }
    requires src_in_bounds { o + length (line_bytes false place.number place.at src.now) ≤ length out.old }
    ensures next { result ≡ o + length (line_bytes false place.number place.at src.now) }
    ensures wrote { out.new ≡ over out.old o (line_bytes false place.number place.at src.now) }
{
    let met = put_fields(out, o + own_size(kind), kind, src, place.at, tables);
    catalogue_put::put_entry(
        out,
        o,
        line_entry(kind, src, place.at, place.number, met.keys),
    );
    met.next
}

// Writes the entries of an accepted line of a form from `o` on, and returns the place after them.
fn put_formed(out: &mut [u8], o: usize, form: Form, src: &[u8], place: LinePlace) -> usize
    requires form { IsForm place.at src.now form }
    requires src_in_bounds { o + length (line_bytes false place.number place.at src.now) ≤ length out.old }
    ensures next { result ≡ o + length (line_bytes false place.number place.at src.now) }
    ensures wrote { out.new ≡ over out.old o (line_bytes false place.number place.at src.now) }
{
    match form {
        Form::Comment => {
            catalogue_put::put_entry(out, o, comment_entry(src, place.at, place.number))
        }
        Form::Once(kind) => put_line_entries(out, o, kind, src, place, &[]),
        Form::Repeating(kind) => {
            let mut tables = [0u32; 6448];
            accepted_line::fields::note_tags(src, place.at, &mut tables);
            put_line_entries(out, o, kind, src, place, &tables)
        }
    }
}

// Writes the entries of the accepted line `src` from `o` on, and returns the place after them. The line has the number `number` and starts at the
// offset `at`.
pub fn put_record(
    out: &mut [u8],
    o: usize,
    src: &[u8],
    at: usize,
    number: u32,
    strict: bool,
) -> usize
    requires src_value { is_read (line strict (record { at = at; bytes = src.now })) ≡ true }
    requires src_bound { at + length src.now ≤ 16777216 }
    requires src_in_bounds { o + length (line_bytes strict number at src.now) ≤ length out.old }
    ensures next { result ≡ o + length (line_bytes strict number at src.now) }
    ensures wrote { out.new ≡ over out.old o (line_bytes strict number at src.now) }
{
    let Some(plain) = plain_line(src, at) else {
        let form = accepted_line::form_of(src, at, strict);
        return put_formed(out, o, form, src, LinePlace { at, number });
    };
    let entry = Entry::ReferenceSequence(plain.name, plain.length, number);
    catalogue_put::put_entry(out, o, entry)
}

// What a walk over an accepted line's other fields finds, if the catalogue has their entries at `o`; none if it has others.
fn same_fields(
    catalogue: &[u8],
    o: usize,
    kind: Kind,
    src: &[u8],
    at: usize,
    tables: &[u32],
) -> Option<Met>
    requires walkable { Walkable at src.now tables.now }
    requires src_bound { at + length src.now ≤ 16777216 }
    requires o_in_bounds { o ≤ length catalogue.now }
    ensures { result ≡ compared_of (starts (field_bytes kind at src.now 3) (drop o catalogue.now))
        (met_in kind at src.now o) }
{
    let mut keys = KeyValues::new();
    let mut next = o;
    let mut i: usize = 3;
    while i < src.len() {
        let end = accepted_line::fields::field_end(src, i);
        let a = src[i + 1];
        let b = src[i + 2];
        if record_tags::is_key(kind, a, b) {
            keys = keys.with(a, accepted_line::fields::value_at(at, i, end));
        } else if accepted_line::fields::is_first_of_tag(src, at, i, tables) {
            let v = accepted_line::fields::kept_value(src, at, i, end, tables);
            if !catalogue_same::same_field(catalogue, next, a, b, narrow(v)) {
                return None;
            }
            next += 11;
        }
        i = end;
    }
    Some(Met { next, keys })
}

// The place after the entries of an accepted line of fields, if the catalogue has them at `o`. The own entry is compared last, once its keys are
// found.
fn same_line(
    catalogue: &[u8],
    o: usize,
    kind: Kind,
    src: &[u8],
    place: LinePlace,
    tables: &[u32],
) -> Option<usize>
    requires line_of { LineOf kind place.at src.now }
    requires kind_value { is_comment kind ≡ false }
    requires walkable { Walkable place.at src.now tables.now }
    requires o_in_bounds { o ≤ length catalogue.now }
    ensures { result ≡ matched o (drop o catalogue.now) (line_bytes false place.number place.at src.now) }
{
    let n = own_size(kind);
    if catalogue.len() - o < n {
        return None;
    }
    let met = same_fields(catalogue, o + n, kind, src, place.at, tables)?;
    let entry = line_entry(kind, src, place.at, place.number, met.keys);
    catalogue_same::same_entry(catalogue, o, entry).then_some(met.next)
}

// The place after the entries of an accepted line of a form, if the catalogue has them at `o`.
fn same_formed(
    catalogue: &[u8],
    o: usize,
    form: Form,
    src: &[u8],
    place: LinePlace,
) -> Option<usize>
    requires form { IsForm place.at src.now form }
    requires o_in_bounds { o ≤ length catalogue.now }
    ensures { result ≡ matched o (drop o catalogue.now) (line_bytes false place.number place.at src.now) }
{
    match form {
        Form::Comment => {
            let entry = comment_entry(src, place.at, place.number);
            catalogue_same::same_entry(catalogue, o, entry).then_some(o + 13)
        }
        Form::Once(kind) => same_line(catalogue, o, kind, src, place, &[]),
        Form::Repeating(kind) => {
            let mut tables = [0u32; 6448];
            accepted_line::fields::note_tags(src, place.at, &mut tables);
            same_line(catalogue, o, kind, src, place, &tables)
        }
    }
}

// The place after the entries of the accepted line `src`, if the catalogue has them at `o`. The line has the number `number` and starts at the offset
// `at`.
pub fn same_record(
    catalogue: &[u8],
    o: usize,
    src: &[u8],
    at: usize,
    number: u32,
    strict: bool,
) -> Option<usize>
    requires src_value { is_read (line strict (record { at = at; bytes = src.now })) ≡ true }
    requires src_bound { at + length src.now ≤ 16777216 }
    requires o_in_bounds { o ≤ length catalogue.now }
    ensures { result ≡ matched o (drop o catalogue.now) (line_bytes strict number at src.now) }
{
    let Some(plain) = plain_line(src, at) else {
        let form = accepted_line::form_of(src, at, strict);
        return same_formed(catalogue, o, form, src, LinePlace { at, number });
    };
    let entry = Entry::ReferenceSequence(plain.name, plain.length, number);
    catalogue_same::same_entry(catalogue, o, entry).then_some(o + 21)
}
