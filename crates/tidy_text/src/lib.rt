// The tidy text of an accepted text: HD, then all SQ, RG, PG and CO, each kind in text order. One pass measures each kind, and one puts each record
// at the place of its kind. Marks can be given, one per program in text order: a program whose mark is false is left out. A program after the last
// mark stays, so with no marks all programs stay.
#![tactic(auto)]

ghost use Rattle.std.specs.Prelude.{◌≡◌, true, ◌≤◌, ◌<◌, ◌+◌, length};
ghost use Rattle.format.specs.Records.{line};
ghost use Rattle.format.specs.Reading.{read_text};
ghost use Rattle.accepted_rule.specs.Rule.{ReadsBy};
ghost use Rattle.format.specs.Tidy.{tidy, unwritable};
ghost use Rattle.byte_slices.specs.Over.{over};
ghost use Rattle.accepted.specs.Read.{is_accepted, is_read, records_of};
ghost use Rattle.tidy_text.specs.Accepted.{measured_of, MeasuredTold};
ghost use Rattle.tidy_text.specs.Kinds.{line_kind, tidy_line};
ghost use Rattle.tidy_sizes.specs.Numbers.{get, plus};
ghost use Rattle.tidy_text.specs.Sizes.{grown_by, sizes_of};
ghost use Rattle.tidy_text.specs.Placed.{with_parts, parts, Apart, with_gap};
ghost use Rattle.tidy_text.specs.Sifted.{is_marked, sifted, stay_by, is_program_line, grown_if, places_if, written_if};

use format::LineNo;
use tidy_sizes::PerKind;

// Whether the record of a line stays, and the ordinal of the next program.
#[derive(Clone, Copy)]
struct Stay {
    stays: bool,
    next: usize,
}

// Whether the record of an accepted line stays, if the next program has the ordinal `k`.
fn stay_of(src: &[u8], marks: &[bool], k: usize) -> Stay
    requires in_bounds { 3 ≤ length src.now }
    requires k_bound { k < 18446744073709551615 }
    ensures { result ≡ stay_by (is_program_line src.now) marks.now k }
{
    if src[1] != b'P' {
        return Stay {
            stays: true,
            next: k,
        };
    }
    if k < marks.len() {
        let stays = marks[k];
        return Stay { stays, next: k + 1 };
    }
    Stay {
        stays: true,
        next: k + 1,
    }
}

// The sizes with one more accepted line, if its record stays and can be written.
fn with_line_if(sizes: PerKind, src: &[u8], at: usize, strict: bool, stays: bool) -> Option<PerKind>
    requires src_value { is_read (line strict (record { at = at; bytes = src.now })) ≡ true }
    requires src_bound { at + length src.now ≤ 16777216 }
    requires src_bound_2 { stays ≡ true → get (line_kind src.now) sizes + length (tidy_line strict at src.now) ≤ 18446744073709551615 }
    ensures { result ≡ grown_if stays (line_kind src.now) (line strict (record { at = at; bytes = src.now })) sizes }
{
    if !stays {
        return Some(sizes);
    }
    let size = tidy_line::line_size(src, at, strict)?;
    Some(sizes.plus(accepted_line::kind_of(src), size))
}

// The same for a line that stays.
pub fn with_line(sizes: PerKind, src: &[u8], at: usize, strict: bool) -> Option<PerKind>
    requires src_value { is_read (line strict (record { at = at; bytes = src.now })) ≡ true }
    requires src_bound { at + length src.now ≤ 16777216 }
    requires src_bound_2 { get (line_kind src.now) sizes + length (tidy_line strict at src.now) ≤ 18446744073709551615 }
    ensures { result ≡ grown_by (line_kind src.now) (line strict (record { at = at; bytes = src.now })) sizes }
{
    with_line_if(sizes, src, at, strict, true)
}

// How many bytes the records of each kind that stay have in the tidy text, or the line of the first SQ whose name can't be written, in one
// pass over an accepted text. `strict` is the rule for repeated tags that its lines are read by.
pub fn measure_marked(text: &[u8], strict: bool, marks: &[bool]) -> Result<PerKind, LineNo>
    requires text_value { is_accepted (read_text text.now) ≡ true }
    requires reads_by { ReadsBy strict text.now }
    ensures is { result ≡ measured_of (unwritable 0 (records_of text.now))
        (sizes_of (sifted (is_marked marks.now) 0 (records_of text.now))) }
    ensures refusal { MeasuredTold (unwritable 0 (records_of text.now)) result }
{
    let mut l: u32 = 0;
    let mut k: usize = 0;
    let mut sizes = PerKind::new();
    let mut at: usize = 0;
    while at < text.len() {
        let cut = byte_slices::first_line(&text[at..]);
        let s = stay_of(&text[at..at + cut.len], marks, k);
        let grown = with_line_if(sizes, &text[at..at + cut.len], at, strict, s.stays);
        let Some(next) = grown else {
            return Err(LineNo(l));
        };
        l += 1;
        k = s.next;
        sizes = next;
        at += cut.next;
    }
    Ok(sizes)
}

// How many bytes the records of each kind take in the tidy text, or the line of the first SQ whose name can't be written.
pub fn measure(text: &[u8], strict: bool) -> Result<PerKind, LineNo>
    requires text_value { is_accepted (read_text text.now) ≡ true }
    requires reads_by { ReadsBy strict text.now }
    ensures is { result ≡ measured_of (unwritable 0 (records_of text.now)) (sizes_of (records_of text.now)) }
    ensures refusal { MeasuredTold (unwritable 0 (records_of text.now)) result }
{
    measure_marked(text, strict, &[])
}

// Writes the record of an accepted line at the place of its kind, if it stays. Returns the places after it.
fn put_at_kind_if(
    out: &mut [u8],
    places: PerKind,
    src: &[u8],
    at: usize,
    strict: bool,
    stays: bool,
) -> PerKind
    requires src_value { is_read (line strict (record { at = at; bytes = src.now })) ≡ true }
    requires src_bound { at + length src.now ≤ 16777216 }
    requires src_in_bounds { stays ≡ true → get (line_kind src.now) places + length (tidy_line strict at src.now) ≤ length out.old }
    ensures next { result ≡ places_if stays (line_kind src.now) (tidy_line strict at src.now) places }
    ensures wrote { out.new ≡ written_if stays (line_kind src.now) (tidy_line strict at src.now) places out.old }
{
    if !stays {
        return places;
    }
    let kind = accepted_line::kind_of(src);
    let o = places.get(kind);
    let n = tidy_line::put_record(out, o, src, at, strict);
    places.plus(kind, n - o)
}

// The same for a line that stays.
pub fn put_at_kind(out: &mut [u8], places: PerKind, src: &[u8], at: usize, strict: bool) -> PerKind
    requires src_value { is_read (line strict (record { at = at; bytes = src.now })) ≡ true }
    requires src_bound { at + length src.now ≤ 16777216 }
    requires src_in_bounds { get (line_kind src.now) places + length (tidy_line strict at src.now) ≤ length out.old }
    ensures next { result ≡ plus (line_kind src.now) (length (tidy_line strict at src.now)) places }
    ensures wrote { out.new ≡ over out.old (get (line_kind src.now) places) (tidy_line strict at src.now) }
{
    put_at_kind_if(out, places, src, at, strict, true)
}

// Writes the records that stay, each kind in text order from its place on, in one pass.
fn put_lines(text: &[u8], strict: bool, marks: &[bool], places: PerKind, out: &mut [u8])
    requires text_value { is_accepted (read_text text.now) ≡ true }
    requires reads_by { ReadsBy strict text.now }
    requires apart { Apart (parts places (sifted (is_marked marks.now) 0 (records_of text.now))) (length out.old) }
    ensures { out.new ≡ with_parts out.old
        (parts places (sifted (is_marked marks.now) 0 (records_of text.now))) }
{
    let mut next = places;
    let mut k: usize = 0;
    let mut at: usize = 0; // from the first line on
    while at < text.len() {
        let cut = byte_slices::first_line(&text[at..]);
        let s = stay_of(&text[at..at + cut.len], marks, k);
        next = put_at_kind_if(out, next, &text[at..at + cut.len], at, strict, s.stays);
        k = s.next;
        at += cut.next;
    }
}

// Writes the tidy text with a gap of `gap` bytes before the comments, which are left as they were: other records go there. `sizes` are those that
// measuring gives.
pub fn put_around(text: &[u8], strict: bool, sizes: PerKind, gap: usize, out: &mut [u8])
    requires text_value { is_accepted (read_text text.now) ≡ true }
    requires reads_by { ReadsBy strict text.now }
    requires sizes_value { sizes ≡ sizes_of (records_of text.now) }
    requires gap_bound { gap ≤ 16777216 }
    requires gap_in_bounds { length (tidy (records_of text.now)) + gap ≤ length out.old }
    ensures { out.new ≡ with_gap out.old gap (records_of text.now) }
{
    put_lines(text, strict, &[], sizes.starts(gap), out);
}

// Writes the tidy text of the records that stay, and answers its length. `sizes` are those that measuring with the same marks gives.
pub fn put_marked(
    text: &[u8],
    strict: bool,
    marks: &[bool],
    sizes: PerKind,
    out: &mut [u8],
) -> usize
    requires text_value { is_accepted (read_text text.now) ≡ true }
    requires reads_by { ReadsBy strict text.now }
    requires sizes_value { sizes ≡ sizes_of (sifted (is_marked marks.now) 0 (records_of text.now)) }
    requires text_in_bounds { length (tidy (sifted (is_marked marks.now) 0 (records_of text.now))) ≤ length out.old }
    ensures next { result ≡ length (tidy (sifted (is_marked marks.now) 0 (records_of text.now))) }
    ensures wrote { out.new ≡ over out.old 0 (tidy (sifted (is_marked marks.now) 0 (records_of text.now))) }
{
    put_lines(text, strict, marks, sizes.starts(0), out);
    sizes.total()
}

// Writes the tidy text of an accepted text, and answers its length. `sizes` are those that measuring gives.
pub fn put_tidy(text: &[u8], strict: bool, sizes: PerKind, out: &mut [u8]) -> usize
    requires text_value { is_accepted (read_text text.now) ≡ true }
    requires reads_by { ReadsBy strict text.now }
    requires sizes_value { sizes ≡ sizes_of (records_of text.now) }
    requires text_in_bounds { length (tidy (records_of text.now)) ≤ length out.old }
    ensures next { result ≡ length (tidy (records_of text.now)) }
    ensures wrote { out.new ≡ over out.old 0 (tidy (records_of text.now)) }
{
    put_marked(text, strict, &[], sizes, out)
}
