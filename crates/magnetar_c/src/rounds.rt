// The rounds of both sum-checks: the prover's messages and the verifier's checks.
ghost use Rattle.std.specs.Prelude.{◌≡◌, length};
ghost use Rattle.magnetar_field.specs.Gf128.{value};
ghost use Rattle.magnetar_sumcheck_prover.specs.Entries.{outer_refusal, outer_out, inner_refusal, inner_out};
ghost use Rattle.magnetar_sumcheck_verifier.specs.Outcome.{round_outcome};
ghost use Rattle.magnetar_prover.specs.Capture.{capture_outcome};
ghost use Rattle.magnetar_c.specs.CStructs as across;

use crate::across;
use crate::across::{MagnetarCapture, MagnetarElement, MagnetarRound, MagnetarTranscript};
use magnetar_prover::capture;
use magnetar_sumcheck_prover::engine;
use magnetar_sumcheck_verifier::verify;

// The message of a round of the outer sum-check.
#[unsafe(no_mangle)]
pub extern "C" fn magnetar_outer_message(
    out: &mut [u64],
    e: &[u64],
    a: &[u64],
    b: &[u64],
    c: &[u64],
    v: usize,
    k: MagnetarElement,
    t: MagnetarElement,
) -> u32
    ensures refusal { result ≡
        outer_refusal (length out.old) (length e.now) (length a.now) (length b.now) (length c.now) v }
    ensures message { out.new ≡
        outer_out out.old e.now a.now b.now c.now v (value (across.element k)) (value (across.element t)) }
{
    across::number_out(engine::outer_message(
        out,
        e,
        a,
        b,
        c,
        v,
        across::element_in(k),
        across::element_in(t),
    ))
}

// The message of a round of the inner sum-check.
#[unsafe(no_mangle)]
pub extern "C" fn magnetar_inner_message(out: &mut [u64], t: &[u64], z: &[u64], v: usize) -> u32
    ensures refusal { result ≡ inner_refusal (length out.old) (length t.now) (length z.now) v }
    ensures message { out.new ≡ inner_out out.old t.now z.now v }
{
    across::number_out(engine::inner_message(out, t, z, v))
}

// A round of the verifier with the challenge r: the check, and the next running claim.
#[unsafe(no_mangle)]
pub extern "C" fn magnetar_round_external(
    msg: &[u64],
    n: usize,
    claim: MagnetarElement,
    r: MagnetarElement,
) -> MagnetarRound
    ensures { across.round result ≡
        round_outcome n msg.now (value (across.element claim)) (value (across.element r)) }
{
    across::round_out(
        claim,
        verify::round_external(msg, n, across::element_in(claim), across::element_in(r)),
    )
}

// A round of the verifier that absorbs a right message and draws the challenge for itself.
#[unsafe(no_mangle)]
pub extern "C" fn magnetar_round_capturing(
    msg: &[u64],
    n: usize,
    claim: MagnetarElement,
    t: MagnetarTranscript,
    label: &[u8],
) -> MagnetarCapture
    ensures { across.captured result ≡
        capture_outcome n msg.now (value (across.element claim)) (across.transcript t) label.now }
{
    across::capture_out(
        claim,
        t,
        capture::round_capturing(
            msg,
            n,
            across::element_in(claim),
            across::transcript_in(t),
            label,
        ),
    )
}
