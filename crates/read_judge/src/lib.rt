// Judges a whole text line by line: answers its first refusal, or the size of its catalogue.
#![tactic(auto)]

ghost use Rattle.std.specs.Prelude.{◌≡◌, ◌||◌, true, false, [], ◌+◌, ◌*◌, ◌≤◌, ◌<◌, length, drop};
ghost use Rattle.format.specs.Lines.{lines_from};
ghost use Rattle.format.specs.Work.{all_zeros};
ghost use Rattle.format.specs.Slots.{Held};
ghost use Rattle.read_admission.specs.Admission.{barring};
ghost use Rattle.key_look.specs.Seed.{plain_seed, Seeded};
ghost use Rattle.key_index.specs.KeySlots.{start};
ghost use Rattle.read_judge.specs.Busy.{kept_busy};
ghost use Rattle.read_judge.specs.Blocks.{clash_of, turned, emptied};
ghost use Rattle.read_judge.specs.Judged.{judged_by, judgement};
ghost use Rattle.read_judge.specs.Parsed.{parsed_by};

use format::{LineNo, Refusal};
use key_index::counting;
use key_look::Seed;
use record::Head;

// Texts of at most `SHORT` bytes are judged with a small area, and texts of at most `MIDDLE` bytes with one of 24 KiB.
pub const SHORT: usize = 8192;

pub const MIDDLE: usize = 262144;

// How many slots the small area has, that one, and the area for longer texts.
pub const SHORT_SLOTS: usize = 512;

pub const OWN_SLOTS: usize = 6144;

pub const LONG_SLOTS: usize = 196608;

// An accepted text: how many bytes its catalogue has, and whether no tag is repeated in any line.
#[derive(Clone, Copy, Debug, PartialEq, Eq)]
pub struct Accepted {
    pub size: usize,
    pub once: bool,
}

// What a text is, or its first refusal.
pub type Judged = Result<Accepted, Refusal>;

// What looking ahead answers where it is given up: no line has this number.
const GIVEN_UP: usize = 16777218;

// What judging came to: what the text is, unless it was given up, since the numbers of its keys keep it `busy`; and how many slots were looked at, for
// the keys of so many lines.
#[derive(Clone, Copy)]
struct Tried {
    busy: bool,
    judged: Judged,
    lines: usize,
    slots: usize,
}

// How a text is judged: whether a tag is refused that is repeated, and how keys are numbered.
#[derive(Clone, Copy)]
struct Way {
    strict: bool,
    seed: Seed,
}

// The line at which the next block begins, and the first later line whose key an earlier block has.
#[derive(Clone, Copy)]
struct Block {
    until: usize,
    clash: usize,
}

// Whether judging is given up after so many lines: so many slots are too many for their keys, or looking ahead was given up.
fn is_busy(seed: Seed, clash: usize, lines: usize, slots: usize) -> bool
    requires { lines ≤ 16777216 }
    ensures { result ≡ kept_busy seed.keyed clash lines slots }
{
    if seed.keyed {
        return false;
    }
    if clash == GIVEN_UP {
        return true;
    }
    counting::is_busy(seed, lines, slots)
}

// Judging that was given up after so many lines.
fn given_up(lines: usize, slots: usize) -> Tried
    ensures busy { result.busy ≡ true }
    ensures lines { result.lines ≡ lines }
    ensures slots { result.slots ≡ slots }
{
    let judged = Err(Refusal::of_text(0));
    Tried {
        busy: true,
        judged,
        lines,
        slots,
    }
}

// Judging that came to its end after so many lines.
fn ended(judged: Judged, lines: usize, slots: usize) -> Tried
    ensures busy { result.busy ≡ false }
    ensures judged { result.judged ≡ judged }
    ensures lines { result.lines ≡ lines }
    ensures slots { result.slots ≡ slots }
{
    Tried {
        busy: false,
        judged,
        lines,
        slots,
    }
}

// The first line from `from` on, the line number `first`, that is `clash` or has a key that is in the area; `clash` where none is. Looking ahead is
// given up where too many slots are looked at.
fn first_met(
    text: &[u8],
    way: Way,
    area: &mut [u32],
    from: usize,
    first: usize,
    clash: usize,
) -> usize
    requires text_len_bound { length text.now ≤ 16777216 }
    requires area_nonzero { 0 < length area.old }
    requires first_le_from { first ≤ from }
    requires from_in_bounds { from ≤ length text.now }
    ensures met { (way.seed.keyed ≡ false → result ≡ 16777218 → ⊥)
        → result ≡ clash_of way.seed way.strict text.now area.old clash first (lines_from from (drop from text.now)) }
    ensures kept { area.new ≡ area.old }
{
    let seed = way.seed;
    let mut at = from;
    let mut line = first;
    let mut slots: usize = 0;
    while at < text.len() {
        if line == clash {
            return clash;
        }
        let cut = byte_slices::first_line(&text[at..]);
        let end = at + cut.len;
        let head = record_parser::parse_record(&text[at..end], at, way.strict);
        let found = key_index::find_or_enter(text, area, seed, head, false);
        slots = counting::counted(seed, slots, found.slots);
        if counting::is_busy(seed, line - first, slots) {
            return GIVEN_UP;
        }
        if found.known {
            return line;
        }
        at += cut.next;
        line += 1;
    }
    clash
}

// The block that a line is in. If the line begins a new block, the lines ahead are searched for keys of the block before it, and the area is emptied.
fn next_block(
    text: &[u8],
    way: Way,
    area: &mut [u32],
    at: usize,
    line: usize,
    block: Block,
) -> Block
    requires text_len_bound { length text.now ≤ 16777216 }
    requires area_nonzero { 0 < length area.old }
    requires line_le_at { line ≤ at }
    requires at_in_bounds { at ≤ length text.now }
    ensures block { (way.seed.keyed ≡ false → result.clash ≡ 16777218 → ⊥)
        → result ≡ turned way.seed way.strict text.now area.old at line block }
    ensures wrote { area.new ≡ emptied area.old line block }
{
    if line < block.until {
        return block;
    }
    let clash = first_met(text, way, area, at, line, block.clash);
    key_index::clear(area);
    let until = line + area.len() / 4 * 3;
    Block { until, clash }
}

// 0, or the refusal of a line with this head. An earlier line has its key if one of this block does, `known`, or one of an earlier block, `clashes`.
fn barred(count: usize, programs: usize, head: Head, known: bool, clashes: bool) -> u8
    ensures { result ≡ barring (known || clashes) count programs head }
{
    read_admission::barred(head, known || clashes, count, programs)
}

// What a line is, and whether no tag is repeated up to its end.
#[derive(Clone, Copy)]
struct Parsed {
    head: Head,
    once: bool,
}

// A line of a text that allows repeated tags: as long as none is, `once`, the line is parsed as if they were forbidden, and once more where that
// refuses it.
fn parse_lenient(line: &[u8], at: usize, once: bool) -> Parsed
    requires { at + length line.now ≤ 4294967295 }
    ensures { result ≡ parsed_by false once (record { at = at; bytes = line.now }) }
{
    let head = record_parser::parse_record(line, at, once);
    if !once {
        return Parsed { head, once };
    }
    let Head::Refused(_) = head else {
        return Parsed { head, once };
    };
    Parsed {
        head: record_parser::parse_record(line, at, false),
        once: false,
    }
}

// The line at the offset `at`, after lines in which no tag is repeated where `once` says so.
fn parse_line(line: &[u8], at: usize, strict: bool, once: bool) -> Parsed
    requires { at + length line.now ≤ 4294967295 }
    ensures { result ≡ parsed_by strict once (record { at = at; bytes = line.now }) }
{
    if strict {
        return Parsed {
            head: record_parser::parse_record(line, at, true),
            once,
        };
    }
    parse_lenient(line, at, once)
}

// Judges line by line: first a line's own refusal, then 17, 18 and 19. `area` holds the keys of one block of lines, three for every four slots.
fn judge_along(text: &[u8], way: Way, area: &mut [u32]) -> Tried
    requires text_len_bound { length text.now ≤ 16777216 }
    requires in_bounds { 4 ≤ length area.old }
    requires held { Held (start way.seed text.now (length area.old)) area.old [] }
    requires seeded { Seeded text.now way.seed }
    ensures judged { result.busy ≡ false → result.judged ≡ judged_by way.strict text.now }
    ensures busy { result.busy ≡ true → way.seed.keyed ≡ false }
    ensures looks { result.slots ≤ 65536 + 16 * result.lines + length area.old }
{
    let seed = way.seed;
    let until = area.len() / 4 * 3;
    let mut block = Block {
        until,
        clash: 16777217,
    };
    let mut at: usize = 0;
    let mut line: usize = 0;
    let mut programs: usize = 0;
    let mut size: usize = 0;
    let mut once = true;
    let mut slots: usize = 0;
    loop {
        let cut = byte_slices::first_line(&text[at..]);
        let next = at + cut.next;
        if at == text.len() {
            return ended(Ok(Accepted { size, once }), line, slots);
        }
        let end = at + cut.len;
        let parsed = parse_line(&text[at..end], at, way.strict, once);
        let head = parsed.head;
        once = parsed.once;
        block = next_block(text, way, area, at, line, block);
        let found = key_index::find_or_enter(text, area, seed, head, true);
        slots = counting::counted(seed, slots, found.slots);
        if is_busy(seed, block.clash, line, slots) {
            return given_up(line, slots);
        }
        let n = barred(line, programs, head, found.known, line == block.clash);
        if n != 0 {
            let refusal = Refusal {
                number: n,
                line: LineNo(line as u32),
            };
            return ended(Err(refusal), line, slots);
        }
        programs += read_admission::programs_of(head);
        size += catalogue_lines::entries_size(head);
        at = next;
        line += 1;
    }
}

// The same, first by plain numbers. Where they keep judging busy, the text is judged anew by keyed ones, whose key is taken from the text itself.
fn judge_indexed(text: &[u8], strict: bool, area: &mut [u32]) -> Judged
    requires text_len_bound { length text.now ≤ 16777216 }
    requires in_bounds { 4 ≤ length area.old }
    requires held { Held (start plain_seed text.now (length area.old)) area.old [] }
    ensures { result ≡ judged_by strict text.now }
{
    let plain = key_look::plain();
    let first = judge_along(
        text,
        Way {
            strict,
            seed: plain,
        },
        area,
    );
    if !first.busy {
        let judged = first.judged;
        return judged;
    }
    key_index::clear(area);
    let seed = key_look::seed_of(text);
    let second = judge_along(text, Way { strict, seed }, area);
    let judged = second.judged;
    judged
}

// A text with an area of this function's own, of so many slots: in blocks of three lines for every four of them.
fn judge_own<const SLOTS: usize>(text: &[u8], strict: bool) -> Judged
    requires text_len_bound { length text.now ≤ 16777216 }
    requires in_bounds { 4 ≤ SLOTS }
    requires slots_bound { SLOTS ≤ 196608 }
    ensures { result ≡ judged_by strict text.now }
{
    let mut area = [0u32; SLOTS];
    judge_indexed(text, strict, &mut area)
}

// Any text, in blocks of 147,456 lines. It is compiled as a function of its own, so that its 768 KiB are on the stack only while it runs, and not in the
// frames of its callers, which serve short texts too.
#[inline(never)]
fn judge_long(text: &[u8], strict: bool) -> Judged
    requires { length text.now ≤ 16777216 }
    ensures { result ≡ judged_by strict text.now }
{
    judge_own::<LONG_SLOTS>(text, strict)
}

// A short text, in blocks of 384 lines, or one of some thousands of lines, in blocks of 4,608: a small area takes little clearing. This is slow if
// the text has many more lines than a block takes.
fn judge_small(text: &[u8], strict: bool) -> Judged
    requires { length text.now ≤ 16777216 }
    ensures { result ≡ judged_by strict text.now }
{
    if text.len() <= SHORT {
        return judge_own::<SHORT_SLOTS>(text, strict);
    }
    judge_own::<OWN_SLOTS>(text, strict)
}

// Judges the lines of a text: answers the first refusal, or the size of the text's catalogue.
fn judge_lines(text: &[u8], strict: bool) -> Judged
    requires { length text.now ≤ 16777216 }
    ensures { result ≡ judged_by strict text.now }
{
    if text.len() <= MIDDLE {
        return judge_small(text, strict);
    }
    judge_long(text, strict)
}

// Judges any bytes: answers 1 if there are too many, the first refusal of their lines, or the size of their catalogue.
pub fn judge(text: &[u8]) -> Judged
    ensures { result ≡ judgement text.now }
{
    if format::LONGEST < text.len() {
        return Err(Refusal::of_text(1));
    }
    judge_lines(text, read_repeat_rule::is_strict(text))
}

// Judges the lines of a text with the front of a lent area if that is longer than an area of this crate's own. One slot per eight bytes of the text
// is enough for all keys in one block.
fn judge_lent(text: &[u8], strict: bool, area: &mut [u32]) -> Judged
    requires { length text.now ≤ 16777216 }
    ensures value { result ≡ judged_by strict text.now }
    ensures length { length area.new ≡ length area.old }
{
    if text.len() <= MIDDLE {
        return judge_small(text, strict);
    }
    let n = area.len().min(text.len() / 8);
    if n <= OWN_SLOTS {
        return judge_small(text, strict);
    }
    let front = &mut area[..n];
    key_index::clear(front);
    judge_indexed(text, strict, front)
}

// The same as `judge`, with a lent area of any length and any content. The area is all zeros afterwards.
pub fn judge_with(text: &[u8], area: &mut [u32]) -> Judged
    ensures judged { result ≡ judgement text.now }
    ensures zeros { area.new ≡ all_zeros area.old }
{
    if format::LONGEST < text.len() {
        key_index::clear(area);
        return Err(Refusal::of_text(1));
    }
    let judged = judge_lent(text, read_repeat_rule::is_strict(text), area);
    key_index::clear(area);
    judged
}
