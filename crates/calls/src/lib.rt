// The calls that look up a record in a text and its catalogue: counts, keys, lengths, lines and fields. Each first judges the text and the catalogue.
#![tactic(auto)]

ghost use Rattle.std.specs.Prelude.{◌≡◌};
ghost use Rattle.format.specs.Calls.{counting, keying, sizing, locating, valuing, looking};
ghost use Rattle.calls.specs.Answers.{count_of, key_answer_of, length_answer_of, line_answer_of, value_place_of, part_standing};

use catalogue_entries::Place;
use format::{LineNo, Refusal};
use read::CountAnswer;

// Where the key of a record is, or why there is none.
pub type KeyAnswer = Result<Place, Refusal>;

// The LN of an SQ, or why there is none.
pub type LengthAnswer = Result<u64, Refusal>;

// The line of a record, or why there is none.
pub type LineAnswer = Result<LineNo, Refusal>;

// How many records of a kind, 1 to 5, the text has.
pub fn count(text: &[u8], catalogue: &[u8], kind: u8) -> CountAnswer
    ensures { result ≡ count_of (counting text.now catalogue.now kind) }
{
    read::check(text, catalogue)?;
    if kind < 1 {
        return Err(Refusal::of_text(25));
    }
    if 5 < kind {
        return Err(Refusal::of_text(25));
    }
    Ok(catalogue_kinds::count_kind(catalogue, kind))
}

// Where the key of a record is. SQ, RG and PG have one.
pub fn key(text: &[u8], catalogue: &[u8], kind: u8, ordinal: u32) -> KeyAnswer
    ensures { result ≡ key_answer_of (keying text.now catalogue.now kind ordinal) }
{
    read::check(text, catalogue)?; // 21 comes before 25
    catalogue_lookup::find_key(catalogue, kind, ordinal).ok_or(Refusal::of_text(25))
}

// The LN of the SQ with an ordinal.
pub fn length(text: &[u8], catalogue: &[u8], ordinal: u32) -> LengthAnswer
    ensures { result ≡ length_answer_of (sizing text.now catalogue.now ordinal) }
{
    read::check(text, catalogue)?;
    catalogue_lookup::find_length(catalogue, ordinal).ok_or(Refusal::of_text(25))
}

// The line of the record with an ordinal among those of a kind, 1 to 5.
pub fn line(text: &[u8], catalogue: &[u8], kind: u8, ordinal: u32) -> LineAnswer
    ensures { result ≡ line_answer_of (locating text.now catalogue.now kind ordinal) }
{
    read::check(text, catalogue)?;
    catalogue_lookup::find_line(catalogue, kind, ordinal).ok_or(Refusal::of_text(25))
}

// Where the value of a field is in the text. `None` stands for the stand-in: the call is refused, or there is no such field.
pub fn place(text: &[u8], catalogue: &[u8], kind: u8, ordinal: u32, a: u8, b: u8) -> Option<Place>
    ensures { result ≡ value_place_of (valuing text.now catalogue.now kind ordinal a b) }
{
    read::check(text, catalogue).ok()?;
    catalogue_lookup::find_field(catalogue, kind, ordinal, a, b)
}

// The value of a field as a part of the text, or the whole stand-in if the call is refused or there is no such field.
pub fn field<'a>(
    text: &'a [u8],
    catalogue: &[u8],
    kind: u8,
    ordinal: u32,
    a: u8,
    b: u8,
    stand_in: &'a [u8],
) -> &'a [u8]
    ensures value { result.now ≡ looking text.now catalogue.now kind ordinal a b stand_in.now }
    ensures place { result.ref_ptr ≡ part_standing (valuing text.now catalogue.now kind ordinal a b) text.entry.ref_ptr
        stand_in.entry.ref_ptr }
{
    let Some(p) = place(text, catalogue, kind, ordinal, a, b) else {
        return stand_in;
    };
    let start = p.at as usize;
    let end = start + p.len as usize;
    &text[start..end]
}
