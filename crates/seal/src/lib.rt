// Seals: the SHA-256 of a header's tidy text, which a plan keeps next to the catalogue so that an edited name is noticed too.
#![tactic(auto)]

ghost use Rattle.std.specs.Prelude.{◌≡◌, length};
ghost use Rattle.format.specs.Bytes.{same};
ghost use Rattle.format.specs.Calls.{tidying};
ghost use Rattle.read.specs.Answers.{answer_of, output_of, checked_of};
ghost use Rattle.format.specs.Sha256.{sha256};
ghost use Rattle.format.specs.Seal.{sealing, tidying_fresh, checking_sealed};
ghost use Rattle.seal.specs.Answers.{seal_left};

use format::Refusal;
use read::{Checked, CountAnswer};

// Seals `text`: writes its tidy text to the front of `work`, as tidying does, and the SHA-256 of that to `seal`; or refuses as tidying does and
// changes neither. The answer is the length of the tidy text.
pub fn seal(text: &[u8], work: &mut [u8], seal: &mut [u8; 32]) -> CountAnswer
    ensures answer { result ≡ answer_of (tidying text.now (length work.old)) }
    ensures wrote { work.new ≡ output_of (tidying text.now (length work.old)) work.old }
    ensures sealed { seal.new ≡ seal_left (sealing text.now (length work.old)) seal.old }
{
    let n = tidy::tidy(text, work)?;
    let written = &work[..n];
    sha256::hash_into(written, seal);
    Ok(n)
}

// Writes the tidy text of a text whose catalogue is fresh.
fn tidy_fresh(text: &[u8], catalogue: &[u8], work: &mut [u8]) -> CountAnswer
    ensures answer { result ≡ answer_of (tidying_fresh text.now catalogue.now (length work.old)) }
    ensures wrote { work.new
        ≡ output_of (tidying_fresh text.now catalogue.now (length work.old)) work.old }
{
    let once = read::check_text(text, catalogue)?;
    tidy::write_accepted(text, once, work)
}

// Whether `seal` is the SHA-256 of a text. All 32 bytes are compared.
fn is_seal(seal: &[u8; 32], text: &[u8]) -> bool
    ensures { result ≡ same seal.now (sha256 text.now) }
{
    let own = sha256::hash(text);
    byte_slices::same(&seal[..32], &own[..32])
}

// Whether `catalogue` and `seal` are those of `text`. The refusals, in this order: those of reading, 21, those of tidying into `work`, 33 if the seal
// is another header's. After 33, as after success, the tidy text is at the front of `work`; any other refusal changes nothing.
pub fn check_sealed(text: &[u8], catalogue: &[u8], seal: &[u8; 32], work: &mut [u8]) -> Checked
    ensures checked { result
        ≡ checked_of (checking_sealed text.now catalogue.now seal.now (length work.old)) }
    ensures wrote { work.new
        ≡ output_of (tidying_fresh text.now catalogue.now (length work.old)) work.old }
{
    let n = tidy_fresh(text, catalogue, work)?;
    let written = &work[..n];
    if is_seal(seal, written) {
        return Ok(());
    }
    Err(Refusal::of_text(33))
}
