// The entries of the records of one kind: how many a catalogue has, and where the one with an ordinal is.
#![tactic(auto)]

ghost use Rattle.std.specs.Prelude.{◌≡◌};
ghost use Rattle.catalogue_entries.specs.Entries.{entries_in, counted, entries_before, sizes};
ghost use Rattle.catalogue_kinds.specs.Passing.{passing};

// How far a walk over entries went, and how many entries of a kind it passed.
#[derive(Clone, Copy)]
struct Passed {
    at: usize,
    count: usize,
}

// Passes the entries before the record entry with an ordinal among those of a kind; all entries if there is none.
fn pass_before(catalogue: &[u8], kind: u8, ordinal: usize) -> Passed
    ensures { result ≡ passing kind (entries_before kind ordinal (entries_in catalogue.now)) }
{
    let mut at: usize = 0;
    let mut count: usize = 0;
    loop {
        let e = catalogue_entries::entry_at(catalogue, at);
        let len = catalogue_entries::size(e);
        if len == 0 {
            return Passed { at, count };
        }
        if catalogue_entries::kind_of(e) == kind { // no other record takes an ordinal
            if count == ordinal {
                return Passed { at, count };
            }
            count += 1;
        }
        at += len;
    }
}

// How many entries of a kind a catalogue has. Every ordinal among them is below this number.
pub fn count_kind(catalogue: &[u8], kind: u8) -> usize
    ensures { result ≡ counted kind (entries_in catalogue.now) }
{
    let all = pass_before(catalogue, kind, 18446744073709551615);
    all.count
}

// Where the record entry with an ordinal among those of a kind is; the place after the last entry if there is none.
pub fn find_record(catalogue: &[u8], kind: u8, ordinal: usize) -> usize
    ensures { result ≡ sizes (entries_before kind ordinal (entries_in catalogue.now)) }
{
    let before = pass_before(catalogue, kind, ordinal);
    before.at
}
