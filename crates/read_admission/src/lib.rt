// Whether a line may follow the lines before it: refusals 17, 18 and 19.
#![tactic(auto)]

ghost use Rattle.std.specs.Prelude.{◌≡◌};
ghost use Rattle.read_admission.specs.Admission.{barring, programs_of};

use record::Head;

// 0, or the refusal of a line with this head after `count` lines, `programs` of which are programs. `taken` says whether one of these lines has the
// same key.
pub fn barred(head: Head, taken: bool, count: usize, programs: usize) -> u8
    ensures { result ≡ barring taken count programs head }
{
    match head {
        Head::Refused(n) => n,
        Head::Header(_, _) => {
            if count == 0 {
                return 0;
            }
            17
        }
        Head::ReferenceSequence(_, _, _) => {
            if taken {
                return 18;
            }
            0
        }
        Head::ReadGroup(_, _) => {
            if taken {
                return 18;
            }
            0
        }
        Head::Program(_, _) => {
            if taken {
                return 18;
            }
            if 1024 <= programs {
                return 19;
            }
            0
        }
        Head::Comment(_) => 0,
    }
}

// How many programs a head adds: 1 for a program, and otherwise 0.
pub fn programs_of(head: Head) -> usize
    ensures { result ≡ programs_of head }
{
    match head {
        Head::Program(_, _) => 1,
        _ => 0,
    }
}
