// The length in LN of SQ.
#![tactic(auto)]

ghost use Rattle.std.specs.Prelude.{◌≡◌};
ghost use Rattle.format.specs.Decimal.{span};
ghost use Rattle.format.specs.Fields.{length_field};
ghost use Rattle.byte_slices.specs.Upto.{before};
ghost use Rattle.field_length.specs.declared.LengthError.TheVariants.{Invalid};
ghost use Rattle.field_length.specs.Parsed.{parsed_length_of, piece_refusal, length_refusal};

use decimal::{Number, NumberError};

// The longest length that is allowed.
const LONGEST: u64 = 2147483647;

// Why there is no length: there is no number of 64 bits, it is 0, or it is above the longest.
#[derive(Clone, Copy, Debug, PartialEq, Eq)]
pub enum LengthError {
    Invalid,
    Zero,
    Long,
}

impl From<NumberError> for LengthError {
    ghost from_gives = { λ _ e. e ≡ Invalid };

    fn from(error: NumberError) -> LengthError {
        match error {
            NumberError::NoDigit | NumberError::TooLarge => LengthError::Invalid,
        }
    }
}

// Reads LN of SQ at the front of `src`. It is not read as a value, so what follows its digits is not judged here.
pub fn parse_length(src: &[u8]) -> Result<Number, LengthError>
    ensures is { result ≡ parsed_length_of (length_field 0 (span (before 9 src.now))) }
    ensures refusal { length_refusal result ≡ piece_refusal (length_field 0 (span (before 9 src.now))) }
{
    let number = decimal::read_u64(src)?;
    if number.value == 0 {
        return Err(LengthError::Zero);
    }
    if LONGEST < number.value {
        return Err(LengthError::Long);
    }
    Ok(number)
}
