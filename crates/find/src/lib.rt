// Finds a record by its key, in a text and its catalogue: the inverse of `calls::key`.
#![tactic(auto)]

ghost use Rattle.std.specs.Prelude.{◌≡◌};
ghost use Rattle.catalogue_entries.specs.Entries.{entries_in};
ghost use Rattle.program_ids.specs.Search.{id_ordinal_from};
ghost use Rattle.format.specs.Finding.{finding};
ghost use Rattle.find.specs.Answers.{find_answer_of};
ghost use Rattle.find.specs.Keys.{key_place, keys_in, KeysInText, found_of};

use catalogue_entries::{Entry, Place};
use format::Refusal;

// The ordinal of a record among those of its kind, or why there is none.
pub type FindAnswer = Result<u32, Refusal>;

// Where the key in an entry is: SN of SQ, ID of RG and PG.
fn key_place(e: Entry) -> Place
    ensures { result ≡ key_place e }
{
    match e {
        Entry::ReferenceSequence(p, _, _) => p,
        Entry::ReadGroup(p, _) => p,
        Entry::Program(p, _) => p,
        _ => Place { at: 0, len: 0 },
    }
}

// The ordinal of the first record of a kind whose key is `key`. Bytes are compared from the last to the first, because long keys often begin alike.
fn search(text: &[u8], catalogue: &[u8], kind: u8, key: &[u8]) -> Option<u32>
    requires { KeysInText text.now kind (entries_in catalogue.now) }
    ensures { result ≡ found_of (id_ordinal_from key.now 0 (keys_in text.now kind (entries_in catalogue.now))) }
{
    let mut at: usize = 0;
    let mut ordinal: u32 = 0;
    let found = 'search: loop {
        let e = catalogue_entries::entry_at(catalogue, at);
        let len = catalogue_entries::size(e);
        if len == 0 {
            break 'search None;
        }
        if catalogue_entries::kind_of(e) == kind { // no other record takes an ordinal
            let place = key_place(e);
            if place.len as usize == key.len() {
                let start = place.at as usize;
                let mut i: usize = key.len();
                loop {
                    if i == 0 {
                        break 'search Some(ordinal);
                    }
                    i -= 1;
                    if text[start + i] != key[i] {
                        break;
                    }
                }
            }
            ordinal += 1;
        }
        at += len;
    };
    found
}

// The ordinal of the record of a kind whose key is `key`: SQ by its SN, RG and PG by their ID. Refuses with 25 if there is none, and for any other
// kind.
pub fn find(text: &[u8], catalogue: &[u8], kind: u8, key: &[u8]) -> FindAnswer
    ensures { result ≡ find_answer_of (finding text.now catalogue.now kind key.now) }
{
    read::check(text, catalogue)?;
    if kind < format::REFERENCE_SEQUENCE {
        return Err(Refusal::of_text(25));
    }
    if format::PROGRAM < kind {
        return Err(Refusal::of_text(25));
    }
    search(text, catalogue, kind, key).ok_or(Refusal::of_text(25))
}
