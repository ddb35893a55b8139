// Carrying on after refused lines: whether the call answers as a line of stored answers says (the crate `replay` describes the lines).
#![tactic(auto)]

ghost use Rattle.std.specs.Prelude.{◌≡◌, length};

use carry_on::Carried;

// Carries on over a text. All that is promised here is that the output and the table keep their lengths.
fn carried(text: &[u8], out: &mut [u8], table: &mut [u32]) -> Carried
    ensures out_len_unchanged { length out.new ≡ length out.old }
    ensures room { length table.new ≡ length table.old }
{
    carry_on::carry_on(text, out, table)
}

// Whether the rows of so many skipped lines are these, eight digits per number, and the rest of the table is as it was.
fn is_table(word: &[u8], table: &[u32], skipped: usize) -> bool {
    if format::LONGEST < skipped {
        return false;
    }
    replay_answers::is_list(word, table, 2 * skipped, 8)
}

// Whether the tidy text and the table of the skipped lines are the line's, with an output and a table of the sizes that it says.
pub fn is_carried(line: &[u8], text: &[u8], out: &mut [u8], table: &mut [u32]) -> bool {
    let room = replay_answers::byte_room(replay_cases::word(line, 2), out);
    let rows = replay_answers::ordinal_room(replay_cases::word(line, 3), table);
    match carried(text, &mut out[..room], &mut table[..rows]) {
        Err(refusal) => {
            replay_answers::is_refusal(line, 4, refusal.number, refusal.line)
                && replay_cases::is_untouched(out)
                && replay_cases::is_unlisted(table)
        }
        Ok(written) => {
            replay_answers::is_ok(line, 4, 2)
                && replay_answers::is_text(replay_cases::word(line, 5), out, written.size)
                && is_table(replay_cases::word(line, 6), table, written.skipped)
        }
    }
}
