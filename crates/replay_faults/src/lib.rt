// The faults of a text: whether the call answers as a line of stored answers says (the crate `replay` describes the lines).
#![tactic(auto)]

ghost use Rattle.std.specs.Prelude.{◌≡◌, length};

use read::CountAnswer;

// Finds the faults of a text. All that is promised here is that the table keeps its length.
fn found(text: &[u8], table: &mut [u32]) -> CountAnswer
    ensures { length table.new ≡ length table.old }
{
    faults::faults(text, table)
}

// Whether the rows are the line's, with a table of the size that it says.
pub fn is_faults(line: &[u8], text: &[u8], table: &mut [u32]) -> bool {
    let room = replay_answers::ordinal_room(replay_cases::word(line, 2), table);
    match found(text, &mut table[..room]) {
        Err(refusal) => {
            replay_answers::is_refusal(line, 3, refusal.number, refusal.line)
                && replay_cases::is_unlisted(table)
        }
        Ok(lines) => {
            if format::LONGEST < lines {
                return false;
            }
            replay_answers::is_ok(line, 3, 1)
                && replay_answers::is_list(replay_cases::word(line, 4), table, 2 * lines, 8)
        }
    }
}
