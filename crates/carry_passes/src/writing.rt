// Carrying on, the pass that writes: the tidy text of the kept lines, and the table of the skipped lines.
ghost use Rattle.std.specs.Prelude.{◌≡◌, ◌≤◌, ◌+◌, ◌*◌, length};
ghost use Rattle.format.specs.Tidy.{tidy};
ghost use Rattle.format.specs.Work.{all_zeros};
ghost use Rattle.byte_slices.specs.Over.{over};
ghost use Rattle.tidy_sizes.specs.Numbers.{kind_starts};
ghost use Rattle.tidy_text.specs.Sizes.{sizes_of};
ghost use Rattle.tidy_text.specs.Placed.{with_parts, parts, Apart};
ghost use Rattle.format.specs.Carrying.{kept_of, carried_lines, skips, rows};
ghost use Rattle.carry_early.specs.First.{First};
ghost use Rattle.carry_passes.specs.From.{Fresh, kept_from, rows_of};
ghost use Rattle.carry_passes.specs.NextLine.{Turn};
ghost use Rattle.carry_passes.specs.Steps.{RoomFor, places_after, out_after, table_after};

use carry_early::Begin;
use carry_lines::{Cursor, Step};
use tidy_sizes::PerKind;

// Writes the record of the line at the cursor `c` at the place of its kind if the line is kept, and its row if it is skipped. Returns the places
// after it.
fn put_step(
    text: &[u8],
    b: Begin,
    c: Cursor,
    step: Step,
    places: PerKind,
    out: &mut [u8],
    table: &mut [u32],
) -> PerKind
    requires text_len_bound { length text.now ≤ 16777216 }
    requires first { First text.now b }
    requires turn { Turn b.strict text.now b.at c step.end step.refusal }
    requires room_for { RoomFor text.now b c step places out.old table.old }
    ensures next { result ≡ places_after text.now b c step places }
    ensures wrote { out.new ≡ out_after text.now b c step places out.old }
    ensures listed { table.new ≡ table_after b c step table.old }
{
    let n = step.refusal;
    if n != 0 {
        let row = b.line as usize + (c.line - c.kept);
        carry_early::put_row(table, row, b.line + c.line as u32, n);
        return places;
    }
    let at = c.at;
    let end = step.end;
    tidy_text::put_at_kind(out, places, &text[at..end], at, b.strict)
}

// Writes the kept records, each kind from its place on, and the rows of the skipped lines, in one pass from the first kept line on.
fn put_lines(
    text: &[u8],
    b: Begin,
    area: &mut [u32],
    ids: &mut [u32],
    places: PerKind,
    out: &mut [u8],
    table: &mut [u32],
)
    requires text_len_bound { length text.now ≤ 16777216 }
    requires first { First text.now b }
    requires fresh { Fresh text.now area.old ids.old }
    requires apart { Apart (parts places (kept_from text.now b)) (length out.old) }
    requires b_in_bounds { b.line * 2 + length (rows_of text.now b) ≤ length table.old }
    ensures wrote { out.new ≡ with_parts out.old (parts places (kept_from text.now b)) }
    ensures listed { table.new ≡ over table.old (b.line * 2) (rows_of text.now b) }
{
    let seed = key_look::plain();
    let mut next = places;
    let mut c = Cursor {
        at: b.at,
        line: 0,
        until: b.at,
        seed,
        kept: 0,
        programs: 0,
    };
    while c.at < text.len() {
        let step = carry_lines::next_line(text, b.strict, b.at, area, ids, c);
        next = put_step(text, b, c, step, next, out, table);
        c = step.next;
    }
}

// Writes the tidy text of the kept lines and the whole table. The area is all zeros afterwards.
pub fn put_kept_and_table(
    text: &[u8],
    b: Begin,
    area: &mut [u32],
    places: PerKind,
    out: &mut [u8],
    table: &mut [u32],
)
    requires text_len_bound { length text.now ≤ 16777216 }
    requires first { First text.now b }
    requires in_bounds { 4 ≤ length area.old }
    requires places_value { places ≡ kind_starts 0 (sizes_of (kept_from text.now b)) }
    requires b_in_bounds { length (tidy (kept_from text.now b)) ≤ length out.old }
    requires b_in_bounds_2 { b.line * 2 + length (rows_of text.now b) ≤ length table.old }
    ensures wrote { out.new ≡ over out.old 0 (tidy (kept_of (carried_lines text.now))) }
    ensures listed { table.new ≡ over table.old 0 (rows (skips 0 (carried_lines text.now))) }
    ensures zeros { area.new ≡ all_zeros area.old }
{
    carry_early::put_early(text, b.line, table);
    let mut ids = [0u32; 2048];
    put_lines(text, b, area, &mut ids, places, out, table);
    key_index::clear(area);
}
