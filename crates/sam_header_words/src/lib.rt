// Answers as one number, for programs in C and Rust (include/sam_header.h).
#![tactic(auto)]

ghost use Rattle.std.specs.Prelude.{◌≡◌, ◌≤◌, Err};
ghost use Rattle.sam_header_words.specs.Words.{refusal_word, answer_word, checked_word, pair_word, FitsHalves, carried_word, key_word, line_word, field_word};
ghost use Rattle.sam_header_words.specs.Words.{FewLeaves, leaves_word, about_number, unfit_word, verdict_word, short_word, len_word};
ghost use Rattle.sam_header_words.specs.Words.{find_word};

use binary_len::Len;
use calls::{KeyAnswer, LineAnswer};
use carry_on::Carried;
use catalogue_entries::Place;
use find::FindAnswer;
use format::Refusal;
use merge_judge::{MergeRefusal, Verdict, Which};
use programs::LeavesAnswer;
use read::{Checked, CountAnswer};

// A refusal: bit 63, its number and its line.
pub fn refusal_word(refusal: Refusal) -> u64
    ensures { result ≡ refusal_word refusal.number refusal.line.0 }
{
    9223372036854775808 + (refusal.number as u64) * 4294967296 + (refusal.line.0 as u64)
}

// How many bytes or ordinals were written, or records counted.
pub fn answer_word(answer: CountAnswer) -> u64
    ensures { result ≡ answer_word answer }
{
    match answer {
        Err(refusal) => refusal_word(refusal),
        Ok(n) => n as u64,
    }
}

// 0 if the catalogue is this text's.
pub fn checked_word(checked: Checked) -> u64
    ensures { result ≡ checked_word checked }
{
    match checked {
        Err(refusal) => refusal_word(refusal),
        Ok(()) => 0, // fresh
    }
}

// Two numbers: the offset and length of a place, or the hops and the number of leaves.
pub fn pair_word(high: u32, low: u32) -> u64
    ensures { result ≡ pair_word high low }
{
    (high as u64) * 4294967296 + (low as u64)
}

// The hops and the number of leaves, which is small.
pub fn leaves_word(answer: LeavesAnswer) -> u64
    requires { FewLeaves answer }
    ensures { result ≡ leaves_word answer }
{
    match answer {
        Err(refusal) => refusal_word(refusal),
        Ok(found) => pair_word(found.hops, found.leaves as u32),
    }
}

// How many lines were skipped and how many bytes were written.
pub fn carried_word(carried: Carried) -> u64
    requires { FitsHalves carried }
    ensures { result ≡ carried_word carried }
{
    match carried {
        Err(refusal) => refusal_word(refusal),
        Ok(written) => pair_word(written.skipped as u32, written.size as u32),
    }
}

// Where a key is.
pub fn key_word(answer: KeyAnswer) -> u64
    ensures { result ≡ key_word answer }
{
    match answer {
        Err(refusal) => refusal_word(refusal),
        Ok(place) => pair_word(place.at, place.len),
    }
}

// The line of a record.
pub fn line_word(answer: LineAnswer) -> u64
    ensures { result ≡ line_word answer }
{
    match answer {
        Err(refusal) => refusal_word(refusal),
        Ok(line) => line.0 as u64,
    }
}

// The ordinal of a record.
pub fn find_word(answer: FindAnswer) -> u64
    ensures { result ≡ find_word answer }
{
    match answer {
        Err(refusal) => refusal_word(refusal),
        Ok(ordinal) => ordinal as u64,
    }
}

// Where a value is, or that the stand-in is used.
pub fn field_word(place: Option<Place>) -> u64
    ensures { result ≡ field_word place }
{
    match place {
        None => 18446744073709551615, // all ones
        Some(place) => pair_word(place.at, place.len),
    }
}

// Which of the three texts of a merge a refusal is about.
pub fn about_number(which: Which) -> u64
    ensures { result ≡ about_number which }
{
    match which {
        Which::A => 1,
        Which::B => 2,
        Which::Merged => 3,
    }
}

// A refusal because of one of the three texts of a merge. Bits 48 to 55 say which one.
pub fn unfit_word(which: Which, refusal: Refusal) -> u64
    ensures { result ≡ unfit_word which refusal.number refusal.line.0 }
{
    refusal_word(refusal) + about_number(which) * 281474976710656
}

// Why a merge is refused.
fn misfit_word(refusal: MergeRefusal) -> u64
    ensures { result ≡ verdict_word (Err refusal) }
{
    match refusal {
        MergeRefusal::Unfit(which, refusal) => unfit_word(which, refusal),
        MergeRefusal::Unmerged(n) => refusal_word(Refusal::of_text(n)),
    }
}

// 0 for an accepted merge.
pub fn verdict_word(verdict: Verdict) -> u64
    ensures { result ≡ verdict_word verdict }
{
    match verdict {
        Ok(()) => 0,
        Err(refusal) => misfit_word(refusal),
    }
}

// A number with the bits of its kind above it; refusal 1 if it reaches bit 62.
fn short_word(kind: u64, n: usize) -> u64
    requires { kind ≤ 4611686018427387904 }
    ensures { result ≡ short_word kind n }
{
    if n < 4611686018427387904 {
        kind + n as u64
    } else {
        refusal_word(Refusal::of_text(1))
    }
}

// The length of a binary header in bytes; or bit 62, and how many bytes are needed to say more.
pub fn len_word(len: Result<Len, u8>) -> u64
    ensures { result ≡ len_word len }
{
    match len {
        Err(n) => refusal_word(Refusal::of_text(n)),
        Ok(known) => match known {
            Len::Whole(n) => short_word(0, n),
            Len::More(n) => short_word(4611686018427387904, n),
        },
    }
}
