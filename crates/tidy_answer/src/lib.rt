// What the program on standard input writes: the tidy text, or the refusal as a line.
#![tactic(auto)]

ghost use Rattle.std.specs.Prelude.{◌≡◌, ◌≤◌, length};
ghost use Rattle.byte_slices.specs.Over.{over};
ghost use Rattle.format.specs.Program.{refusal, program};

use format::Refusal;

// Writes `refused N line L` and LF to the front of `out`, and answers how many bytes it wrote.
fn put_refusal(out: &mut [u8], why: Refusal) -> usize
    requires { length (refusal why.number why.line.0) ≤ length out.old }
    ensures next { result ≡ length (refusal why.number why.line.0) }
    ensures wrote { out.new ≡ over out.old 0 (refusal why.number why.line.0) }
{
    byte_slices::put_bytes(out, 0, b"refused ");
    let at = decimal::write_u32(out, 8, why.number as u32);
    byte_slices::put_bytes(out, at, b" line ");
    let at = decimal::write_u32(out, at + 6, why.line.0);
    out[at] = b'\n';
    at + 1
}

// Writes the program's answer for the input `text` to the front of `out`, and answers how many bytes it wrote.
pub fn answer(text: &[u8], out: &mut [u8; 65536]) -> usize
    ensures next { result ≡ length (program text.now) }
    ensures wrote { out.new ≡ over out.old 0 (program text.now) }
{
    if 65535 < text.len() {
        return put_refusal(out, Refusal::of_text(1));
    }
    match tidy::tidy(text, out) {
        Ok(n) => n,
        Err(why) => put_refusal(out, why),
    }
}
