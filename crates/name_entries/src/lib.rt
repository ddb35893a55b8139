// The SQ entries of a catalogue: where the next one is, and how many there are.
#![tactic(auto)]

ghost use Rattle.std.specs.Prelude.{◌≡◌, ◌≤◌, length};
ghost use Rattle.catalogue_entries.specs.Entries.{entries_in, counted};
ghost use Rattle.name_entries.specs.Next.{next_sq};

// Passes the field entries from `start` on. The next SQ entry stays the same.
fn pass_fields(catalogue: &[u8], start: usize) -> usize
    requires { start ≤ length catalogue.now }
    ensures { (start ≤ result) × (result ≤ length catalogue.now) × (next_sq catalogue.now start ≡ next_sq catalogue.now result) }
{
    let mut at = start;
    while 11 <= catalogue.len() - at {
        if catalogue[at] != 6 {
            return at;
        }
        at += 11;
    }
    at
}

// Where the next SQ entry from `start` on is; the place after the last entry if there is none.
pub fn next_sq(catalogue: &[u8], start: usize) -> usize
    requires { start ≤ length catalogue.now }
    ensures { result ≡ next_sq catalogue.now start }
{
    let mut at = start;
    loop {
        at = pass_fields(catalogue, at);
        let e = catalogue_entries::entry_at(catalogue, at);
        let len = catalogue_entries::size(e);
        if len == 0 {
            return at;
        }
        if catalogue_entries::kind_of(e) == format::REFERENCE_SEQUENCE {
            return at;
        }
        at += len;
    }
}

// How many SQ entries a catalogue has.
pub fn count(catalogue: &[u8]) -> usize
    ensures { result ≡ counted 2 (entries_in catalogue.now) }
{
    let mut at: usize = 0;
    let mut n: usize = 0;
    loop {
        at = next_sq(catalogue, at);
        let e = catalogue_entries::entry_at(catalogue, at);
        if catalogue_entries::kind_of(e) != format::REFERENCE_SEQUENCE {
            return n;
        }
        n += 1;
        at += 21;
    }
}
