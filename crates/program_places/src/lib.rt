// The programs of a catalogue, gathered in one walk: where the ID and the PP of each are.
#![tactic(auto)]

ghost use Rattle.std.specs.Prelude.{◌≡◌, ◌≤◌, drop, replicate};
ghost use Rattle.catalogue_entries.specs.Entries.{entries_in, counted};
ghost use Rattle.catalogue_lookup.specs.Lookup.{value_in};
ghost use Rattle.program_places.specs.Gathered.{or_nowhere, noted_in, programs_in, gathered_of};

use catalogue_entries::{Entry, Place};

// The offset that stands for a missing PP. No text is so long.
pub const NOWHERE: u32 = 4294967295;

// Places in the text: their offsets and their lengths.
#[derive(Clone, Copy)]
pub struct Places {
    pub at: [u32; 1024],
    pub len: [u32; 1024],
}

// Where the ID and the PP of each program are, in order, and how many programs there are.
#[derive(Clone, Copy)]
pub struct Programs {
    pub id: Places,
    pub previous: Places,
    pub count: usize,
}

// Where the PP of a program is whose field entries start at `from`.
fn find_previous(catalogue: &[u8], from: usize) -> Place
    ensures { result ≡ or_nowhere (value_in 80 80 (entries_in (drop from catalogue.now))) }
{
    let nowhere = Place {
        at: NOWHERE,
        len: 0,
    };
    catalogue_lookup::field_from(catalogue, from, b'P', b'P').unwrap_or(nowhere)
}

// Gathers the programs of a catalogue into four arrays of zeros: the offsets and lengths of their IDs, and those of their PPs. It walks from entry to
// entry and looks at the fields of each program once more. Answers how many programs there are.
pub fn gather(
    catalogue: &[u8],
    ats: &mut [u32; 1024],
    lens: &mut [u32; 1024],
    from: &mut [u32; 1024],
    widths: &mut [u32; 1024],
) -> usize
    requires catalogue_bound { counted 4 (entries_in catalogue.now) ≤ 1024 }
    requires ats_value { (ats.old ≡ replicate 1024 0) × (lens.old ≡ replicate 1024 0) × (from.old ≡ replicate 1024 0) × (widths.old ≡ replicate 1024 0) }
    ensures { programs_in ats.new lens.new from.new widths.new result
        ≡ gathered_of (noted_in (entries_in catalogue.now)) }
{
    let mut count: usize = 0;
    let mut at: usize = 0;
    loop {
        let e = catalogue_entries::entry_at(catalogue, at);
        let len = catalogue_entries::size(e);
        if len == 0 {
            return count;
        }
        at += len;
        if let Entry::Program(id, _) = e {
            let previous = find_previous(catalogue, at);
            ats[count] = id.at;
            lens[count] = id.len;
            from[count] = previous.at;
            widths[count] = previous.len;
            count += 1;
        }
    }
}
