// Reads a binary header: answers the tidy text of its text, if its reference list is that text's SQ list.
#![tactic(auto)]

ghost use Rattle.std.specs.Prelude.{◌≡◌, length};
ghost use Rattle.format.specs.Binary.{binary_in};
ghost use Rattle.read.specs.Answers.{answer_of, output_of};

use format::Refusal;
use read::CountAnswer;

// Reads a binary header: writes the tidy text to the front of `out`, or answers the first refusal and changes nothing.
pub fn binary_in(bytes: &[u8], out: &mut [u8]) -> CountAnswer
    ensures answer { result ≡ answer_of (binary_in bytes.now (length out.old)) }
    ensures wrote { out.new ≡ output_of (binary_in bytes.now (length out.old)) out.old }
{
    let Some(parts) = binary_parts::parts(bytes) else {
        return Err(Refusal::of_text(28));
    };
    let start = parts.text;
    let end = start + parts.len;
    let kept = start + binary_parts::unpadded_len(&bytes[start..end]);
    let text = &bytes[start..kept];
    let accepted = read_judge::judge(text)?;
    if !binary_same::is_sq_list(bytes, parts.list, parts.count, text, accepted.once) {
        return Err(Refusal::of_text(29));
    }
    tidy::write_accepted(text, accepted.once, out)
}
