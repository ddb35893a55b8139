// The rule for repeated tags: a header that announces version 1.6 or later may not repeat a tag in a line. Any other header may.
#![tactic(auto)]

ghost use Rattle.std.specs.Prelude.{◌≡◌, [], ◌∷◌};
ghost use Rattle.format.specs.Bytes.{starts};
ghost use Rattle.format.specs.Lines.{lines, cut};
ghost use Rattle.format.specs.Reading.{first_version, announced, is_strict};
ghost use Rattle.field.specs.Spelled.{parsed_version_of};
ghost use Rattle.read_repeat_rule.specs.Rule.{strict_after};

use format::Version;

// Whether a piece starts with `VN:`.
fn is_version(piece: &[u8]) -> bool
    ensures { result ≡ starts (86 ∷ 78 ∷ 58 ∷ []) piece.now }
{
    byte_slices::starts(b"VN:", piece)
}

// The version in the first piece of `src`, between tabs, that starts with `VN:`. The search ends at that piece even if its version can't be read.
fn first_version(src: &[u8]) -> Option<Version>
    ensures { result ≡ parsed_version_of (first_version (cut 9 src.now)) }
{
    let mut at: usize = 0;
    let mut from = src.len();
    let mut stop = src.len();
    loop {
        let end = at + byte_slices::upto(&src[at..], b'\t');
        if is_version(&src[at..end]) {
            from = at + 3;
            stop = end;
        }
        if end == stop {
            break;
        }
        at = end + 1;
    }
    field::version::parse_version(&src[from..stop])
}

// The version that line 0, given without its ending, announces.
fn announced(line: &[u8]) -> Option<Version>
    ensures { result ≡ parsed_version_of (announced (record { at = 0; bytes = line.now } ∷ [])) }
{
    if byte_slices::starts(b"@HD\t", line) {
        return first_version(&line[4..]);
    }
    None
}

// Whether repeated tags are refused in `line` and after it, given whether they were before. A version that the line announces decides.
pub fn is_strict_after(strict: bool, line: &[u8]) -> bool
    ensures { result ≡ strict_after strict (announced (record { at = 0; bytes = line.now } ∷ [])) }
{
    match announced(line) {
        None => strict,
        Some(version) => !version.is_below(Version::default()),
    }
}

// Whether repeated tags are refused in a text. They are not if it announces no version.
pub fn is_strict(text: &[u8]) -> bool
    ensures { result ≡ is_strict (announced (lines text.now)) }
{
    let line = byte_slices::first_line(text);
    let len = line.len;
    is_strict_after(false, &text[..len])
}
