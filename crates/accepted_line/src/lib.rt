// The head of an accepted line: its kind, its key and its number, found from where their values are. Nothing is judged again.
#![tactic(auto)]

pub mod fields;
pub mod tag_number;

ghost use Rattle.std.specs.Prelude.{◌≡◌, true, false, ◌≤◌, ◌+◌, length, get_or};
ghost use Rattle.format.specs.Records.{line};
ghost use Rattle.format.specs.declared.Kind.TheVariants.{Header, ReferenceSequence};
ghost use Rattle.accepted.specs.Read.{is_read};
ghost use Rattle.record.specs.Head.{head_of};
ghost use Rattle.accepted_line.specs.Run.{fields_from};
ghost use Rattle.accepted_line.specs.Tables.{Walkable};
ghost use Rattle.accepted_line.specs.Found.{kind_by, is_comment, uncounted};
ghost use Rattle.accepted_line.specs.Keys.{no_key_values, with_key, keys_in};
ghost use Rattle.accepted_line.specs.Form.{LineOf, IsForm, form_of};

use format::Kind;
use record::{Head, Stretch};

// The form of an accepted line: a comment, fields that repeat no tag, or fields that may repeat one.
#[derive(Clone, Copy)]
pub enum Form {
    Comment,
    Once(Kind),
    Repeating(Kind),
}

// Where the last values of a line's keys are: VN, SN or ID, and LN of SQ.
#[derive(Clone, Copy)]
pub struct KeyValues {
    pub key: Stretch,
    pub number: Stretch,
}

impl KeyValues {
    pub fn new() -> Self
        ensures { result ≡ no_key_values }
    {
        KeyValues {
            key: Stretch { at: 0, len: 0 },
            number: Stretch { at: 0, len: 0 },
        }
    }

    // With the value of a key whose tag starts with `a`. Of the keys, only LN starts with L.
    pub fn with(self, a: u8, v: Stretch) -> KeyValues
        ensures { result ≡ with_key self a v }
    {
        let mut key_at = self.key.at;
        let mut key_len = self.key.len;
        let mut number_at = self.number.at;
        let mut number_len = self.number.len;
        if a == b'L' {
            number_at = v.at;
            number_len = v.len;
        } else {
            key_at = v.at;
            key_len = v.len;
        }
        KeyValues {
            key: Stretch {
                at: key_at,
                len: key_len,
            },
            number: Stretch {
                at: number_at,
                len: number_len,
            },
        }
    }
}

// The kind of an accepted line, from its second byte.
#[tactic(auto, using(std::proofs::lemmas::Bool::Decides::nat_tests), unfolding(crate::specs::Found::kind_by))]
pub fn kind_of(src: &[u8]) -> Kind
    requires { 3 ≤ length src.now }
    ensures { result ≡ kind_by (get_or src.now 1 0) }
{
    match src[1] {
        b'H' => Kind::Header,
        b'S' => Kind::ReferenceSequence,
        b'R' => Kind::ReadGroup,
        b'P' => Kind::Program,
        _ => Kind::Comment,
    }
}

// Whether a line of this kind has no fields.
fn is_comment(kind: Kind) -> bool
    ensures { result ≡ is_comment kind }
{
    matches!(kind, Kind::Comment)
}

// The form of an accepted line at the offset `at`.
pub fn form_of(src: &[u8], at: usize, strict: bool) -> Form
    requires src_value { is_read (line strict (record { at = at; bytes = src.now })) ≡ true }
    requires src_bound { at + length src.now ≤ 16777216 }
    ensures right { IsForm at src.now result }
    ensures is { result ≡ form_of strict at src.now }
{
    let kind = kind_of(src);
    if is_comment(kind) {
        return Form::Comment;
    }
    if fields::is_once(src, at, strict) {
        return Form::Once(kind);
    }
    Form::Repeating(kind)
}

// The keys of an accepted line of fields.
pub fn find_keys(kind: Kind, src: &[u8], at: usize, tables: &[u32]) -> KeyValues
    requires walkable { Walkable at src.now tables.now }
    requires src_bound { at + length src.now ≤ 4294967295 }
    ensures { result ≡ keys_in kind (fields_from at src.now 3) }
{
    let nowhere = Stretch { at: 0, len: 0 };
    match kind {
        Kind::Header => KeyValues {
            key: fields::find_value(src, at, b'V', b'N', tables),
            number: nowhere,
        },
        Kind::ReferenceSequence => KeyValues {
            key: fields::find_value(src, at, b'S', b'N', tables),
            number: fields::find_value(src, at, b'L', b'N', tables),
        },
        Kind::ReadGroup | Kind::Program => KeyValues {
            key: fields::find_value(src, at, b'I', b'D', tables),
            number: nowhere,
        },
        Kind::Comment => KeyValues::new(),
    }
}

// The head of an accepted HD: the version in its VN. An accepted line has one; the other arm is there because a `match` needs an arm for every case.
fn header_of(src: &[u8], at: usize, version: Stretch) -> Head
    requires line_of { LineOf Header at src.now }
    requires version_value { version ≡ (keys_in Header (fields_from at src.now 3)).key }
    ensures { result ≡ uncounted (head_of (line false (record { at = at; bytes = src.now }))) }
{
    let from = version.at - at;
    let len = version.len;
    match field::version::parse_version(&src[from..from + len]) {
        Some(v) => Head::Header(v, 0),
        None => Head::Refused(11),
    }
}

// The head of an accepted SQ: where its SN is, and the number in its LN. An accepted line has one; the other arm is there because a `match` needs
// an arm for every case.
fn sequence_of(src: &[u8], at: usize, keys: KeyValues) -> Head
    requires line_of { LineOf ReferenceSequence at src.now }
    requires keys_value { keys ≡ keys_in ReferenceSequence (fields_from at src.now 3) }
    ensures { result ≡ uncounted (head_of (line false (record { at = at; bytes = src.now }))) }
{
    let number = keys.number;
    let from = number.at - at;
    let len = number.len;
    match decimal::read_u64(&src[from..from + len]) {
        Ok(n) => Head::ReferenceSequence(keys.key, n.value, 0),
        Err(_) => Head::Refused(12),
    }
}

// The head of an accepted line at the offset `at`, from its keys. The number of other fields is left out.
pub fn head_of(kind: Kind, src: &[u8], at: usize, keys: KeyValues) -> Head
    requires line_of { LineOf kind at src.now }
    requires keys_value { keys ≡ keys_in kind (fields_from at src.now 3) }
    ensures { result ≡ uncounted (head_of (line false (record { at = at; bytes = src.now }))) }
{
    match kind {
        Kind::Header => header_of(src, at, keys.key),
        Kind::ReferenceSequence => sequence_of(src, at, keys),
        Kind::ReadGroup => Head::ReadGroup(keys.key, 0),
        Kind::Program => Head::Program(keys.key, 0),
        Kind::Comment => Head::Comment(Stretch {
            at: at + 4,
            len: src.len() - 4,
        }),
    }
}
