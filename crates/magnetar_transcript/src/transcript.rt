// The transcript changed in place. Each function calls the function of `magnetar_hash::transcript` that has its name, which takes
// and hands back a transcript by value. Where it refuses, the transcript stays as it was.
ghost use Rattle.std.specs.Prelude.{◌≡◌, length};
ghost use Rattle.magnetar_field.specs.Number.{number_of};
ghost use Rattle.magnetar_hash.specs.Bytes.{le_bytes};
ghost use Rattle.magnetar_hash.specs.Transcript.{absorb_answer, field_answer, draw_answer, draws_answer, draws_out};
ghost use Rattle.magnetar_transcript.specs.Drawn.{drawn_of, drawn_answer_of};

use magnetar_field::gf128::Gf128;
use magnetar_field::refusal::Refusal;
use magnetar_hash::transcript;
use magnetar_hash::transcript::Transcript;

// Bytes are absorbed under a label. Refuses 14.
pub fn absorb_bytes(t: &mut Transcript, label: &[u8], bytes: &[u8]) -> Result<(), Refusal>
    ensures { (number_of result ≡ (absorb_answer t.old label.now bytes.now).code)
        × (t.new ≡ (absorb_answer t.old label.now bytes.now).transcript) }
{
    *t = transcript::absorb_bytes(*t, label, bytes)?;
    Ok(())
}

// A word is absorbed under a label. Refuses 14.
pub fn absorb_u64(t: &mut Transcript, label: &[u8], v: u64) -> Result<(), Refusal>
    ensures { (number_of result ≡ (absorb_answer t.old label.now (le_bytes 8 v)).code)
        × (t.new ≡ (absorb_answer t.old label.now (le_bytes 8 v)).transcript) }
{
    *t = transcript::absorb_u64(*t, label, v)?;
    Ok(())
}

// A hash is absorbed under a label. Refuses 14.
pub fn absorb_digest(t: &mut Transcript, label: &[u8], d: &[u8; 32]) -> Result<(), Refusal>
    ensures { (number_of result ≡ (absorb_answer t.old label.now d.now).code)
        × (t.new ≡ (absorb_answer t.old label.now d.now).transcript) }
{
    *t = transcript::absorb_digest(*t, label, d)?;
    Ok(())
}

// Elements are absorbed under a label. Refuses 11, then 14.
pub fn absorb_field(t: &mut Transcript, label: &[u8], words: &[u64]) -> Result<(), Refusal>
    ensures { (number_of result ≡ (field_answer t.old label.now words.now).code)
        × (t.new ≡ (field_answer t.old label.now words.now).transcript) }
{
    *t = transcript::absorb_field(*t, label, words)?;
    Ok(())
}

// An element is drawn under a label. Refuses 14.
pub fn challenge_field(t: &mut Transcript, label: &[u8]) -> Result<Gf128, Refusal>
    ensures { (drawn_answer_of result ≡ drawn_of (draw_answer t.old label.now))
        × (t.new ≡ (draw_answer t.old label.now).transcript) }
{
    let drawn = transcript::challenge_field(*t, label)?;
    *t = drawn.transcript;
    Ok(drawn.element)
}

// n elements are drawn under a label into the first words of `out`. Refuses 14, then 15.
pub fn challenge_field_vec(
    t: &mut Transcript,
    label: &[u8],
    n: usize,
    out: &mut [u64],
) -> Result<(), Refusal>
    ensures { (number_of result ≡ (draws_answer t.old label.now n (length out.old)).code)
        × (t.new ≡ (draws_answer t.old label.now n (length out.old)).transcript)
        × (out.new ≡ draws_out t.old label.now n out.old) }
{
    *t = transcript::challenge_field_vec(*t, label, n, out)?;
    Ok(())
}
