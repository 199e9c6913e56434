// What one check finds, and rounds of a sum-check whose messages and challenges stand in slices.
ghost use Rattle.std.specs.Prelude.{◌≡◌, ◌+◌, ◌*◌, ◌/◌, ◌≤◌, length, IfOk};
ghost use Rattle.magnetar_field.specs.Gf128.{value};
ghost use Rattle.magnetar_field.specs.Number.{number};
ghost use Rattle.magnetar_field.specs.Polynomial.{eval};
ghost use Rattle.magnetar_field.specs.Words.{elements};
ghost use Rattle.magnetar_sumcheck_verifier.specs.Round.{holds, running};
ghost use Rattle.magnetar_protocol.specs.Proof.{part};
ghost use Rattle.magnetar_protocol.specs.Found.{check, nothing, found, next_found, after};
ghost use Rattle.magnetar_verifier.specs.Steps.{messages, round_checks};

use magnetar_field::gf128::Gf128;
use magnetar_field::refusal::Refusal;
use magnetar_field::words;
use magnetar_protocol::first::Failure;
use magnetar_sumcheck_verifier::verify;

// Nothing where a check passes, else its failure, which so many events come before.
#[tactic(auto, unfolding(magnetar_protocol::specs::Found::next_found))]
pub(crate) fn pass(passes: bool, refusal: Refusal, events: usize) -> Result<(), Failure>
    ensures { found result ≡ next_found nothing (check (number refusal) passes events) }
{
    if passes {
        return Ok(());
    }
    Err(Failure {
        check: refusal,
        events: events,
    })
}

// n elements from place i on.
pub(crate) fn piece<'a>(s: &'a [u64], i: usize, n: usize) -> &'a [u64]
    requires { 2 * i + 2 * n ≤ length s.now }
    ensures part { elements result.now ≡ part i n (elements s.now) }
    ensures size { length result.now ≡ 2 * n }
{
    let a = 2 * i;
    let e = a + 2 * n;
    &s[a..e]
}

// The sum of a message of n elements is checked; the next claim is its value at the challenge.
pub(crate) fn round(
    claim: Gf128,
    msg: &[u64],
    n: usize,
    r: Gf128,
    refusal: Refusal,
    events: usize,
) -> Result<Gf128, Failure>
    requires { length msg.now ≡ 2 * n }
    ensures found { found result ≡ next_found nothing (check (number refusal) (holds (elements msg.now) (value claim)) events) }
    ensures claim { IfOk result (λ c. value c ≡ eval (elements msg.now) (value r)) }
{
    let next = verify::check_round(msg, n, claim, r)?;
    pass(next.holds, refusal, events)?;
    Ok(next.claim)
}

// A round for each challenge, with messages of `width` elements: the claim after them.
pub(crate) fn rounds(
    claim: Gf128,
    msgs: &[u64],
    width: usize,
    challenges: &[u64],
    refusal: Refusal,
    events: usize,
) -> Result<Gf128, Failure>
    requires { let n = length challenges.now / 2 in (width ≤ 4) × (n ≤ 64) × (events ≤ 4096) × (length msgs.now ≡ 2 * (width * n)) }
    ensures found { let n = length challenges.now / 2 in found result ≡ after nothing (round_checks (number refusal) events (value claim) (messages 0 width n (elements msgs.now)) (elements challenges.now) n) }
    ensures claim { let n = length challenges.now / 2 in IfOk result (λ c. value c ≡ running (value claim) (messages 0 width n (elements msgs.now)) (elements challenges.now)) }
{
    let mut claim = claim;
    for j in 0..challenges.len() / 2 {
        claim = round(
            claim,
            piece(msgs, width * j, width),
            width,
            words::get(challenges, j),
            refusal,
            events + 2 * j,
        )?;
    }
    Ok(claim)
}
