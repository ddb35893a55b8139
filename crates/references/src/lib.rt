// The references of a header in one call, from a text and its catalogue: where the SN of each SQ is, how long it is, and the LN.
#![tactic(auto)]

ghost use Rattle.std.specs.Prelude.{◌≡◌, [], ◌∷◌, ◌≤◌, ◌+◌, length};
ghost use Rattle.byte_slices.specs.Over.{over};
ghost use Rattle.catalogue_entries.specs.Entries.{entries_in};
ghost use Rattle.read.specs.Answers.{output_of};
ghost use Rattle.format.specs.Referencing.{referencing};
ghost use Rattle.references.specs.Answers.{row_count_of, numbers_of};
ghost use Rattle.references.specs.Rows.{rows_in, RowsFit};

use catalogue_entries::{Entry, Place};
use format::Refusal;
use read::CountAnswer;

// Writes the row of one SQ at `at`.
fn put_row(table: &mut [u32], at: usize, name: Place, ln: u32)
    requires { at + 3 ≤ length table.old }
    ensures { table.new ≡ over table.old at (name.at ∷ name.len ∷ ln ∷ []) }
{
    table[at] = name.at;
    table[at + 1] = name.len;
    table[at + 2] = ln;
}

// Writes a row for each SQ entry of a catalogue to the front of a table, in one walk.
fn put_rows(catalogue: &[u8], table: &mut [u32])
    requires { RowsFit (entries_in catalogue.now) (length table.old) }
    ensures { table.new ≡ over table.old 0 (rows_in (entries_in catalogue.now)) }
{
    let mut at: usize = 0;
    let mut end: usize = 0;
    loop {
        at = name_entries::next_sq(catalogue, at);
        match catalogue_entries::entry_at(catalogue, at) {
            Entry::ReferenceSequence(name, ln, _) => {
                put_row(table, end, name, ln as u32);
                end += 3;
                at += 21;
            }
            _ => return,
        }
    }
}

// Writes three numbers for each SQ, in order, to the front of `table`: the offset of SN, its length, and LN. Answers how many SQ lines there are, or
// refuses with 20 if the table has fewer than three numbers for each.
pub fn references(text: &[u8], catalogue: &[u8], table: &mut [u32]) -> CountAnswer
    ensures answer { result ≡ row_count_of (referencing text.now catalogue.now (length table.old)) }
    ensures wrote { table.new ≡ output_of
        (numbers_of (referencing text.now catalogue.now (length table.old))) table.old }
{
    read::check(text, catalogue)?;
    let count = name_entries::count(catalogue);
    if table.len() < 3 * count {
        return Err(Refusal::of_text(20));
    }
    put_rows(catalogue, table);
    Ok(count)
}
