// Counts the slots that are looked at for keys. Plain numbers are public, so that a text can be made whose keys all start at one slot: where the slots
// are too many for the lines, looking is given up, and starts anew by keyed numbers.
ghost use Rattle.std.specs.Prelude.{◌≡◌, ◌≤◌};
ghost use Rattle.key_index.specs.Counting.{counted_slots, too_many};

use key_look::Seed;

// No more slots are counted for a key: they are too many for any text.
const MOST_COUNTED: usize = 4294967296;

// How many slots were looked at, with those for one key more, as far as that is counted. By keyed numbers none is.
pub fn counted(seed: Seed, slots: usize, more: usize) -> usize
    requires { slots ≤ 4294967296 }
    ensures { result ≡ counted_slots seed.keyed slots more }
{
    if seed.keyed {
        return slots;
    }
    if MOST_COUNTED < more {
        return MOST_COUNTED;
    }
    slots + more
}

// Whether so many slots for the keys of so many lines are too many: more than 16 for each line, beyond the first 65,536. Keyed numbers never are.
pub fn is_busy(seed: Seed, lines: usize, slots: usize) -> bool
    requires { lines ≤ 16777216 }
    ensures { result ≡ too_many seed.keyed lines slots }
{
    if seed.keyed {
        return false;
    }
    65536 + 16 * lines < slots
}
