// Finds where each key of a block of lines occurs first. The slots hold one offset for each key of the block: that of its first line in the block, or
// of an earlier line if the key occurs before the block.
#![tactic(auto)]

ghost use Rattle.std.specs.Prelude.{◌≡◌, true, false, ◌≤◌, ◌<◌, ◌+◌, ◌*◌, ◌/◌, length, drop, IfOk, IfErr, OnOk, OnErr, MatchResult};
ghost use Rattle.format.specs.Records.{line};
ghost use Rattle.byte_slices.specs.First.{first_line};
ghost use Rattle.accepted.specs.First.{first_at};
ghost use Rattle.record.specs.Head.{head_of};
ghost use Rattle.carry_keys.specs.Blocks.{head_keys, after_keyed, entered_from, pointed_from, filled_for};

use key_index::counting;
use key_look::Seed;
use record::Head;

// Where a block of lines ends, and how the keys are numbered that the area is filled with.
#[derive(Clone, Copy)]
pub struct Filled {
    pub end: usize,
    pub seed: Seed,
}

// How many slots were looked at for the keys of so many lines. Where that was given up, since they are too many, they are also those of the key of the
// line after these.
#[derive(Clone, Copy)]
struct Looks {
    lines: usize,
    slots: usize,
}

impl Looks {
    // With the slots looked at for the key of one line more, unless they are too many.
    fn with_line(self, seed: Seed, more: usize) -> Result<Looks, Looks>
        requires lines_bound { self.lines < 16777216 }
        requires slots_bound { self.slots ≤ 65536 + 16 * self.lines }
        ensures ok { IfOk result (λ l. (l.lines ≡ self.lines + 1) × (l.slots ≤ 65536 + 16 * l.lines)) }
        ensures busy { OnErr result (seed.keyed ≡ false) }
        ensures err { IfErr result (λ l. l.slots ≤ 65536 + 16 * l.lines + more) }
    {
        let lines = self.lines;
        let slots = counting::counted(seed, self.slots, more);
        if counting::is_busy(seed, lines, slots) {
            return Err(Looks { lines, slots });
        }
        Ok(Looks {
            lines: lines + 1,
            slots,
        })
    }
}

// The offset after the lines whose keys were put in, and what was looked at for these keys.
#[derive(Clone, Copy)]
struct Entered {
    end: usize,
    looks: Looks,
}

// The head of a line, and the offset of the line after it.
#[derive(Clone, Copy)]
struct Parsed {
    head: Head,
    next: usize,
}

// Parses the line at the offset `at`.
fn parse_at(text: &[u8], strict: bool, at: usize) -> Parsed
    requires text_len_bound { length text.now ≤ 16777216 }
    requires at_in_bounds { at < length text.now }
    ensures head { result.head ≡ head_of (line strict (first_at at text.now)) }
    ensures next { result.next ≡ at + (first_line (drop at text.now)).next }
{
    let cut = byte_slices::first_line(&text[at..]);
    let end = at + cut.len;
    let head = record_parser::parse_record(&text[at..end], at, strict);
    Parsed {
        head,
        next: at + cut.next,
    }
}

// How many keys a head puts into the index: one or none.
#[tactic(auto, unfolding(crate::specs::Blocks::head_keys))]
fn keys_in(head: Head) -> usize
    ensures { result ≡ head_keys head }
{
    match head {
        Head::ReferenceSequence(_, _, _) | Head::ReadGroup(_, _) | Head::Program(_, _) => 1,
        Head::Refused(_) | Head::Header(_, _) | Head::Comment(_) => 0,
    }
}

// Puts the keys of the lines from the offset `at` on into the area, up to the line with the `many`-th key. Of equal keys only the first is put in.
// Answers the offset after these lines. This is given up where too many slots are looked at.
fn enter(
    text: &[u8],
    seed: Seed,
    strict: bool,
    area: &mut [u32],
    at: usize,
    many: usize,
) -> Result<Entered, Looks>
    requires text_len_bound { length text.now ≤ 16777216 }
    requires area_nonzero { 0 < length area.old }
    requires at_in_bounds { at ≤ length text.now }
    ensures end { IfOk result (λ e. e.end ≡ after_keyed strict many at text.now) }
    ensures wrote { OnOk result (area.new ≡ entered_from seed strict text.now area.old at many) }
    ensures busy { OnErr result (seed.keyed ≡ false) }
    ensures looks { MatchResult result (λ e. e.looks.slots ≤ 65536 + 16 * e.looks.lines + length area.old)
        (λ l. l.slots ≤ 65536 + 16 * l.lines + length area.old) }
{
    let mut end = at;
    let mut n: usize = 0;
    let mut looks = Looks { lines: 0, slots: 0 };
    while n < many {
        if end == text.len() {
            return Ok(Entered { end, looks });
        }
        let parsed = parse_at(text, strict, end);
        let head = parsed.head;
        let found = key_index::find_or_enter(text, area, seed, head, true);
        looks = looks.with_line(seed, found.slots)?;
        end = parsed.next;
        n += keys_in(head);
    }
    Ok(Entered { end, looks })
}

// Goes through the lines that start at `from` or later and before `to`. A slot that holds the key of such a line gets the offset of that line. This is
// given up where too many slots are looked at.
fn point_back(
    text: &[u8],
    seed: Seed,
    strict: bool,
    area: &mut [u32],
    from: usize,
    to: usize,
) -> Result<Looks, Looks>
    requires text_len_bound { length text.now ≤ 16777216 }
    requires area_nonzero { 0 < length area.old }
    requires to_in_bounds { to ≤ length text.now }
    ensures wrote { OnOk result (area.new ≡ pointed_from seed strict text.now area.old from to) }
    ensures busy { OnErr result (seed.keyed ≡ false) }
    ensures looks { MatchResult result (λ l. l.slots ≤ 65536 + 16 * l.lines + length area.old)
        (λ l. l.slots ≤ 65536 + 16 * l.lines + length area.old) }
{
    let mut at = from;
    let mut looks = Looks { lines: 0, slots: 0 };
    while at < to {
        let parsed = parse_at(text, strict, at);
        let head = parsed.head;
        let more = key_index::point_to_head(text, area, seed, head);
        looks = looks.with_line(seed, more)?;
        at = parsed.next;
    }
    Ok(looks)
}

// Fills the area for the block of lines from the offset `at` on, three with a key for each four slots, after the lines from `from` on:
// whether a line of the block has its key for the first time is then answered by `key_index::is_first_with_key`. The slots for that are not counted:
// for each line they are as many as were looked at when its key was put in. Answers where the block ends, unless filling was given up, since the
// numbers of the keys keep it busy.
fn fill_by(
    text: &[u8],
    seed: Seed,
    strict: bool,
    area: &mut [u32],
    from: usize,
    at: usize,
) -> Result<usize, Looks>
    requires text_len_bound { length text.now ≤ 16777216 }
    requires area_nonzero { 0 < length area.old }
    requires at_in_bounds { at ≤ length text.now }
    ensures end { IfOk result (λ e. e ≡ after_keyed strict (length area.old / 4 * 3) at text.now) }
    ensures wrote { OnOk result (area.new ≡ filled_for seed strict text.now (length area.old) from at) }
    ensures busy { OnErr result (seed.keyed ≡ false) }
{
    key_index::clear(area);
    let many = area.len() / 4 * 3;
    let entered = enter(text, seed, strict, area, at, many)?;
    // no `?`: must-fail/given_up_taken_as_filled.edit turns the second arm
    match point_back(text, seed, strict, area, from, at) {
        Ok(_) => Ok(entered.end),
        Err(looks) => Err(looks),
    }
}

// The same, first by the numbers `seed`. Where they keep it busy, the area is filled anew by keyed numbers, whose key is taken from the text itself.
pub fn fill(
    text: &[u8],
    seed: Seed,
    strict: bool,
    area: &mut [u32],
    from: usize,
    at: usize,
) -> Filled
    requires text_len_bound { length text.now ≤ 16777216 }
    requires area_nonzero { 0 < length area.old }
    requires at_in_bounds { at ≤ length text.now }
    ensures end { result.end ≡ after_keyed strict (length area.old / 4 * 3) at text.now }
    ensures wrote { area.new ≡ filled_for result.seed strict text.now (length area.old) from at }
{
    if let Ok(end) = fill_by(text, seed, strict, area, from, at) {
        return Filled { end, seed };
    }
    let keyed = key_look::seed_of(text);
    let end = fill_by(text, keyed, strict, area, from, at).unwrap(); // keyed numbers never keep it busy
    Filled { end, seed: keyed }
}
