// The verifier's side of a round that draws its challenge for itself.
ghost use Rattle.std.specs.Prelude.{◌≡◌};
ghost use Rattle.magnetar_field.specs.Gf128.{value};
ghost use Rattle.magnetar_prover.specs.Capture.{captured_by, capture_outcome};

use magnetar_field::gf128::{Gf128, ZERO};
use magnetar_field::refusal::{Refusal, require};
use magnetar_hash::transcript::{self, Transcript};
use magnetar_sumcheck_verifier::verify;

// What a round leaves that draws for itself: whether the message was right, the running claim, the challenge (0 where nothing was drawn),
// and the transcript.
#[derive(Clone, Copy)]
pub struct Captured {
    pub holds: bool,
    pub claim: Gf128,
    pub challenge: Gf128,
    pub transcript: Transcript,
}

// A round that draws its challenge, whose message has n coefficients: the check first, which no challenge is needed for; then the message is
// absorbed and the challenge drawn, both under the label. A wrong message leaves the claim and the transcript, and so does one that is
// refused with 11, and a counter of 2^32 or more (14).
#[tactic(auto, using(crate::proofs::Captured::capturing))]
pub fn round_capturing(
    msg: &[u64],
    n: usize,
    claim: Gf128,
    t: Transcript,
    label: &[u8],
) -> Result<Captured, Refusal>
    ensures { captured_by (value claim) t result ≡ capture_outcome n msg.now (value claim) t label.now }
{
    let first = verify::round_external(msg, n, claim, ZERO)?;
    require(t.squeeze_ctr < 0x100000000, Refusal::Counter)?;
    if !first.holds {
        return Ok(Captured {
            holds: false,
            claim,
            challenge: ZERO,
            transcript: t,
        });
    }
    let transcript = transcript::draw(transcript::absorb_words(t, label, msg), label);
    let challenge = transcript::element(transcript);
    let round = verify::round_external(msg, n, claim, challenge)?;
    Ok(Captured {
        holds: true,
        claim: round.claim,
        challenge,
        transcript,
    })
}
