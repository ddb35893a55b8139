// The front of a line: the `@` and the two kind bytes.
#![tactic(auto)]

ghost use Rattle.std.specs.Prelude.{◌≡◌};
ghost use Rattle.format.specs.Records.{kind_of};
ghost use Rattle.record_kind.specs.Kind.{kind_at, parsed_kind_of, KindTold};

use format::Kind;

// Why no kind is read: there is no byte after the `@`, or what is there names no kind.
#[derive(Clone, Copy, Debug, PartialEq, Eq)]
pub enum KindError {
    Empty,
    Invalid,
}

// The kind that the two bytes after the `@` name.
pub fn parse_kind(src: &[u8]) -> Result<Kind, KindError>
    ensures is { result ≡ kind_at src.now }
    ensures refusal { KindTold src.now result }
{
    match src {
        [] => Err(KindError::Empty),
        [_] => Err(KindError::Invalid),
        [a, b, ..] => kind_of(*a, *b),
    }
}

// The kind that the bytes `a`, `b` name.
#[tactic(auto, using(std::proofs::lemmas::Bool::Decides::nat_tests), unfolding(format::specs::Records::kind_of, crate::specs::Kind::parsed_kind_of))]
fn kind_of(a: u8, b: u8) -> Result<Kind, KindError>
    ensures { result ≡ parsed_kind_of (kind_of a b) }
{
    match (a, b) {
        (b'H', b'D') => Ok(Kind::Header),
        (b'S', b'Q') => Ok(Kind::ReferenceSequence),
        (b'R', b'G') => Ok(Kind::ReadGroup),
        (b'P', b'G') => Ok(Kind::Program),
        (b'C', b'O') => Ok(Kind::Comment),
        _ => Err(KindError::Invalid),
    }
}
