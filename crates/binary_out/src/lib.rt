// Writes the binary header of the SAM specification from an accepted text: its tidy text and its SQ list.
#![tactic(auto)]

ghost use Rattle.std.specs.Prelude.{◌≡◌, true, ◌++◌, ◌≤◌, ◌+◌, length};
ghost use Rattle.format.specs.Lines.{lines};
ghost use Rattle.format.specs.Reading.{read_text};
ghost use Rattle.accepted_rule.specs.Rule.{ReadsBy};
ghost use Rattle.format.specs.Catalogue.{little};
ghost use Rattle.format.specs.Tidy.{tidy};
ghost use Rattle.byte_slices.specs.Over.{over};
ghost use Rattle.accepted.specs.Read.{is_accepted, records_of};
ghost use Rattle.format.specs.References.{sq_list};
ghost use Rattle.format.specs.Binary.{magic, binary_out};
ghost use Rattle.read.specs.Answers.{answer_of, output_of};
ghost use Rattle.tidy_text.specs.Sizes.{sizes_of};
ghost use Rattle.binary_out.specs.Written.{binary_of, writing_binary};

use format::Refusal;
use read::CountAnswer;
use tidy_sizes::PerKind;

// Writes what comes before the text: the magic bytes, and the length `n` of the text.
fn put_front(out: &mut [u8], n: usize)
    requires n_bound { n ≤ 16777216 }
    requires in_bounds { 8 ≤ length out.old }
    ensures { out.new ≡ over out.old 0 (magic ++ little 4 n) }
{
    byte_slices::put_bytes(out, 0, b"BAM\x01");
    little_endian::put_u32(out, 4, n as u32);
}

// Writes the tidy text of an accepted text after that. `sizes` are those that measuring gives, and `n` is the length of the tidy text.
fn put_text(text: &[u8], strict: bool, sizes: PerKind, n: usize, out: &mut [u8])
    requires text_value { is_accepted (read_text text.now) ≡ true }
    requires reads_by { ReadsBy strict text.now }
    requires sizes_value { sizes ≡ sizes_of (records_of text.now) }
    requires n_value { n ≡ length (tidy (records_of text.now)) }
    requires n_in_bounds { 8 + n ≤ length out.old }
    ensures { out.new ≡ over out.old 8 (tidy (records_of text.now)) }
{
    tidy_text::put_tidy(text, strict, sizes, &mut out[8..8 + n]);
}

// Writes the binary header of an accepted text. `sizes` are those that measuring gives, `n` is the length of the tidy text, and `count` is the number
// of SQ lines.
fn put_binary(text: &[u8], strict: bool, sizes: PerKind, n: usize, count: u32, out: &mut [u8])
    requires text_value { is_accepted (read_text text.now) ≡ true }
    requires reads_by { ReadsBy strict text.now }
    requires sizes_value { sizes ≡ sizes_of (records_of text.now) }
    requires n_value { n ≡ length (tidy (records_of text.now)) }
    requires count_value { count ≡ length (sq_list (records_of text.now)) }
    requires n_bound { n ≤ 16777216 }
    requires text_in_bounds { length (binary_of text.now) ≤ length out.old }
    ensures { out.new ≡ over out.old 0 (binary_of text.now) }
{
    put_front(out, n);
    put_text(text, strict, sizes, n, out);
    little_endian::put_u32(out, 8 + n, count);
    binary_put::put_list(text, strict, out, 12 + n);
}

// Writes the binary header of an accepted text, or refuses with 24, then 1, then 20.
fn write_accepted(text: &[u8], strict: bool, out: &mut [u8]) -> CountAnswer
    requires text_value { is_accepted (read_text text.now) ≡ true }
    requires reads_by { ReadsBy strict text.now }
    ensures answer { result ≡ answer_of (writing_binary text.now (length out.old)) }
    ensures wrote { out.new ≡ output_of (writing_binary text.now (length out.old)) out.old }
{
    match tidy_text::measure(text, strict) {
        Err(line) => Err(Refusal { number: 24, line }),
        Ok(sizes) => {
            let n = sizes.total();
            let list = binary_put::measure_list(text, strict);
            let besides = 12 + list.bytes;
            let unfit = tidy_sizes::fit(n, 0, besides, out.len());
            if unfit != 0 {
                return Err(Refusal::of_text(unfit));
            }
            let whole = n + besides;
            put_binary(text, strict, sizes, n, list.count, out);
            Ok(whole)
        }
    }
}

// Writes the binary header of `text` to the front of `out`, or answers the first refusal and changes nothing.
pub fn binary_out(text: &[u8], out: &mut [u8]) -> CountAnswer
    ensures answer { result ≡ answer_of (binary_out text.now (length out.old)) }
    ensures wrote { out.new ≡ output_of (binary_out text.now (length out.old)) out.old }
{
    let accepted = read_judge::judge(text)?;
    write_accepted(text, accepted.once, out)
}
