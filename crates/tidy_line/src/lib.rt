// One record of the tidy text: writes it from its accepted line, or measures it.
#![tactic(auto)]

ghost use Rattle.std.specs.Prelude.{◌≡◌, true, false, [], ◌∷◌, ◌++◌, ◌≤◌, ◌+◌, length};
ghost use Rattle.format.specs.Records.{line};
ghost use Rattle.byte_slices.specs.Over.{over};
ghost use Rattle.accepted.specs.Read.{is_read};
ghost use Rattle.accepted_line.specs.Run.{AtField, fields_from};
ghost use Rattle.accepted_line.specs.Tables.{Walkable};
ghost use Rattle.accepted_line.specs.Found.{is_comment};
ghost use Rattle.accepted_line.specs.Form.{LineOf};
ghost use Rattle.accepted_line.specs.Keys.{keys_in};
ghost use Rattle.tidy_line.specs.Line.{line_text, line_writable, line_size};
ghost use Rattle.tidy_fields.specs.Others.{others_text};
ghost use Rattle.tidy_line.specs.Heads.{place_length, head_length, keys_length};
ghost use Rattle.tidy_line.specs.Texts.{InsideLine, header_text, sequence_text, map_text};

use accepted_line::{Form, KeyValues};
use format::{Kind, Version};
use record::{Head, Stretch};

// The keys of an SQ: where its name is in the text, and its length.
#[derive(Clone, Copy)]
struct SequenceKeys {
    name: Stretch,
    ln: u64,
}

// The key of an RG or a PG: which of both it is, and where its ID is in the text.
#[derive(Clone, Copy)]
struct MapKey {
    kind: Kind,
    id: Stretch,
}

// Writes an HD: its version, then the other fields of its line.
fn put_header(out: &mut [u8], o: usize, v: Version, line: &[u8], at: usize, tables: &[u32]) -> usize
    requires walkable { Walkable at line.now tables.now }
    requires line_bound { at + length line.now ≤ 16777216 }
    requires line_in_bounds { o + length (header_text v at line.now) ≤ length out.old }
    ensures next { result ≡ o + length (header_text v at line.now) }
    ensures wrote { out.new ≡ over out.old o (header_text v at line.now) }
{
    let n = tidy_parts::put_prefix(out, o, Kind::Header);
    let n = tidy_parts::put_tag(out, n, b'V', b'N');
    let n = tidy_parts::put_version(out, n, v);
    tidy_fields::put_rest(out, n, Kind::Header, line, at, tables)
}

// Writes an SQ: the name from its line, its length, then the other fields.
fn put_reference_sequence(
    out: &mut [u8],
    o: usize,
    keys: SequenceKeys,
    line: &[u8],
    at: usize,
    tables: &[u32],
) -> usize
    requires walkable { Walkable at line.now tables.now }
    requires line_bound { at + length line.now ≤ 16777216 }
    requires inside_line { InsideLine at line.now keys.name }
    requires line_in_bounds { o + length (sequence_text keys.name keys.ln at line.now) ≤ length out.old }
    ensures next { result ≡ o + length (sequence_text keys.name keys.ln at line.now) }
    ensures wrote { out.new ≡ over out.old o (sequence_text keys.name keys.ln at line.now) }
{
    let from = keys.name.at - at;
    let len = keys.name.len;
    let n = tidy_parts::put_prefix(out, o, Kind::ReferenceSequence);
    let n = tidy_parts::put_field(out, n, b'S', b'N', line, from, len);
    let n = tidy_parts::put_tag(out, n, b'L', b'N');
    let n = decimal::write_u64(out, n, keys.ln);
    tidy_fields::put_rest(out, n, Kind::ReferenceSequence, line, at, tables)
}

// Writes an RG or a PG: the ID from its line, then the other fields.
fn put_map(out: &mut [u8], o: usize, key: MapKey, line: &[u8], at: usize, tables: &[u32]) -> usize
    requires walkable { Walkable at line.now tables.now }
    requires line_bound { at + length line.now ≤ 16777216 }
    requires inside_line { InsideLine at line.now key.id }
    requires line_in_bounds { o + length (map_text key.kind key.id at line.now) ≤ length out.old }
    ensures next { result ≡ o + length (map_text key.kind key.id at line.now) }
    ensures wrote { out.new ≡ over out.old o (map_text key.kind key.id at line.now) }
{
    let kind = key.kind;
    let from = key.id.at - at;
    let len = key.id.len;
    let n = tidy_parts::put_prefix(out, o, kind);
    let n = tidy_parts::put_field(out, n, b'I', b'D', line, from, len);
    tidy_fields::put_rest(out, n, kind, line, at, tables)
}

// Writes the record of an accepted line of fields part by part.
fn put_parts(out: &mut [u8], o: usize, kind: Kind, src: &[u8], at: usize, tables: &[u32]) -> usize
    requires line_of { LineOf kind at src.now }
    requires kind_value { is_comment kind ≡ false }
    requires walkable { Walkable at src.now tables.now }
    requires src_in_bounds { o + length (line_text (line false (record { at = at; bytes = src.now }))) ≤ length out.old }
    ensures next { result ≡ o + length (line_text (line false (record { at = at; bytes = src.now }))) }
    ensures wrote { out.new ≡ over out.old o (line_text (line false (record { at = at; bytes = src.now }))) }
{
    let keys = accepted_line::find_keys(kind, src, at, tables);
    let head = accepted_line::head_of(kind, src, at, keys);
    match head {
        Head::Refused(_) => o,
        Head::Header(v, _) => put_header(out, o, v, src, at, tables),
        Head::ReferenceSequence(name, ln, _) => {
            put_reference_sequence(out, o, SequenceKeys { name, ln }, src, at, tables)
        }
        Head::ReadGroup(id, _) => {
            let kind = Kind::ReadGroup;
            put_map(out, o, MapKey { kind, id }, src, at, tables)
        }
        Head::Program(id, _) => {
            let kind = Kind::Program;
            put_map(out, o, MapKey { kind, id }, src, at, tables)
        }
        Head::Comment(_) => o,
    }
}

// Writes a line as it is, and the LF.
fn put_whole(out: &mut [u8], o: usize, line: &[u8]) -> usize
    requires { o + length line.now + 1 ≤ length out.old }
    ensures next { result ≡ o + length (line.now ++ (10 ∷ [])) }
    ensures wrote { out.new ≡ over out.old o (line.now ++ (10 ∷ [])) }
{
    let n = o + line.len();
    byte_slices::put_bytes(out, o, line);
    out[n] = b'\n';
    n + 1
}

// Writes the record of a line that repeats no tag: the line as it is, if that is tidy.
fn put_once(out: &mut [u8], o: usize, kind: Kind, src: &[u8], at: usize) -> usize
    requires line_of { LineOf kind at src.now }
    requires kind_value { is_comment kind ≡ false }
    requires at_field { AtField true at src.now 3 }
    requires src_in_bounds { o + length (line_text (line false (record { at = at; bytes = src.now }))) ≤ length out.old }
    ensures next { result ≡ o + length (line_text (line false (record { at = at; bytes = src.now }))) }
    ensures wrote { out.new ≡ over out.old o (line_text (line false (record { at = at; bytes = src.now }))) }
{
    if tidy_neat::is_neat(kind, src) {
        return put_whole(out, o, src);
    }
    put_parts(out, o, kind, src, at, &[])
}

// Writes the record of an accepted line, which starts at the offset `at` and is given without its ending. Returns the place after the record.
pub fn put_record(out: &mut [u8], o: usize, src: &[u8], at: usize, strict: bool) -> usize
    requires src_value { is_read (line strict (record { at = at; bytes = src.now })) ≡ true }
    requires src_bound { at + length src.now ≤ 16777216 }
    requires src_in_bounds { o + length (line_text (line strict (record { at = at; bytes = src.now }))) ≤ length out.old }
    ensures next { result ≡ o + length (line_text (line strict (record { at = at; bytes = src.now }))) }
    ensures wrote { out.new ≡ over out.old o (line_text (line strict (record { at = at; bytes = src.now }))) }
{
    match accepted_line::form_of(src, at, strict) {
        Form::Comment => put_whole(out, o, src),
        Form::Once(kind) => put_once(out, o, kind, src, at),
        Form::Repeating(kind) => {
            let mut tables = [0u32; 6448];
            accepted_line::fields::note_tags(src, at, &mut tables);
            put_parts(out, o, kind, src, at, &tables)
        }
    }
}

// How many bytes the key fields of a line of this kind take: four before each value.
fn keys_len(kind: Kind, keys: KeyValues) -> usize
    requires { keys_length kind keys ≤ 16777216 }
    ensures { result ≡ keys_length kind keys }
{
    let key = keys.key.len;
    let number = keys.number.len;
    match kind {
        Kind::Header | Kind::ReadGroup | Kind::Program => 4 + key,
        Kind::ReferenceSequence => 8 + key + number,
        Kind::Comment => 0,
    }
}

// How many bytes the record with this head takes if its other fields take `others`: a prefix of three, four before each value, and the LF.
fn head_len(head: Head, others: usize) -> usize
    requires { (others ≤ 16777216) × (place_length head ≤ 16777216) }
    ensures { result ≡ head_length head others }
{
    match head {
        Head::Refused(_) | Head::Comment(_) => 0,
        Head::Header(v, _) => 8 + tidy_parts::version_len(v) + others,
        Head::ReferenceSequence(p, n, _) => {
            let name = p.len;
            12 + name + decimal::len_u64(n) + others
        }
        Head::ReadGroup(p, _) | Head::Program(p, _) => {
            let id = p.len;
            8 + id + others
        }
    }
}

// Whether the record of an accepted line of fields can be written: an SQ only if its name follows the specification's rule.
fn is_writable(kind: Kind, src: &[u8], at: usize, tables: &[u32]) -> bool
    requires line_of { LineOf kind at src.now }
    requires kind_value { is_comment kind ≡ false }
    requires walkable { Walkable at src.now tables.now }
    ensures { result ≡ line_writable (line false (record { at = at; bytes = src.now })) }
{
    match kind {
        Kind::ReferenceSequence => {
            let name = accepted_line::fields::find_value(src, at, b'S', b'N', tables);
            let from = name.at - at;
            let len = name.len;
            tidy_name::is_name(&src[from..from + len])
        }
        _ => true,
    }
}

// How many bytes the record of an accepted line of fields takes if its other fields take `others`.
fn parts_len(kind: Kind, src: &[u8], at: usize, keys: KeyValues, others: usize) -> usize
    requires line_of { LineOf kind at src.now }
    requires kind_value { is_comment kind ≡ false }
    requires keys_value { keys ≡ keys_in kind (fields_from at src.now 3) }
    requires others_value { others ≡ length (others_text kind at src.now) }
    ensures { result ≡ length (line_text (line false (record { at = at; bytes = src.now }))) }
{
    head_len(accepted_line::head_of(kind, src, at, keys), others)
}

// How many bytes the record of a line that repeats no tag takes, if it can be written. Only the key fields are looked at.
fn once_size(kind: Kind, src: &[u8], at: usize) -> Option<usize>
    requires line_of { LineOf kind at src.now }
    requires kind_value { is_comment kind ≡ false }
    requires at_field { AtField true at src.now 3 }
    ensures { result ≡ line_size (line false (record { at = at; bytes = src.now })) }
{
    if tidy_neat::is_ready(kind, src) {
        return Some(src.len() + 1);
    }
    if !is_writable(kind, src, at, &[]) {
        return None;
    }
    let keys = accepted_line::find_keys(kind, src, at, &[]);
    let others = src.len() - 3 - keys_len(kind, keys);
    Some(parts_len(kind, src, at, keys, others))
}

// How many bytes the record of a line that may repeat a tag takes, if it can be written. Its tables are made first.
fn noted_size(kind: Kind, src: &[u8], at: usize) -> Option<usize>
    requires line_of { LineOf kind at src.now }
    requires kind_value { is_comment kind ≡ false }
    ensures { result ≡ line_size (line false (record { at = at; bytes = src.now })) }
{
    let mut tables = [0u32; 6448];
    accepted_line::fields::note_tags(src, at, &mut tables);
    if !is_writable(kind, src, at, &tables) {
        return None;
    }
    let keys = accepted_line::find_keys(kind, src, at, &tables);
    let others = tidy_fields::other_fields_len(kind, src, at, &tables);
    Some(parts_len(kind, src, at, keys, others))
}

// How many bytes the record of an accepted line takes, if it can be written.
pub fn line_size(src: &[u8], at: usize, strict: bool) -> Option<usize>
    requires src_value { is_read (line strict (record { at = at; bytes = src.now })) ≡ true }
    requires src_bound { at + length src.now ≤ 16777216 }
    ensures { result ≡ line_size (line strict (record { at = at; bytes = src.now })) }
{
    match accepted_line::form_of(src, at, strict) {
        Form::Comment => Some(src.len() + 1),
        Form::Once(kind) => once_size(kind, src, at),
        Form::Repeating(kind) => noted_size(kind, src, at),
    }
}
