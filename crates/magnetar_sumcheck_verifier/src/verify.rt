// The verifier's side of a round: the sum of a message is checked, and the next running claim is the message's value at the challenge.
ghost use Rattle.std.specs.Prelude.{◌≡◌, eqb};
ghost use Rattle.magnetar_field.specs.Gf128.{value, ◌⊕◌, ◌⊗◌};
ghost use Rattle.magnetar_field.specs.Polynomial.{eval};
ghost use Rattle.magnetar_field.specs.Words.{elements};
ghost use Rattle.magnetar_sumcheck_verifier.specs.Round.{check_sum, holds};
ghost use Rattle.magnetar_sumcheck_verifier.specs.Outcome.{is_message, left_by, check_outcome, round_outcome};
ghost use Rattle.magnetar_sumcheck_verifier.specs.Outer.{outer_end};
ghost use Rattle.magnetar_sumcheck_verifier.specs.Inner.{inner_end};

use magnetar_field::gf128::{self, Gf128};
use magnetar_field::refusal::{Refusal, require};
use magnetar_field::words;

// acc + t z.
fn multiply_add(acc: Gf128, t: Gf128, z: Gf128) -> Gf128
    ensures { value result ≡ value acc ⊕ value t ⊗ value z }
{
    acc + gf128::mul(t, z)
}

// What a round leaves: whether the message was right, and the running claim.
#[derive(Clone, Copy)]
pub struct Round {
    pub holds: bool,
    pub claim: Gf128,
}

// The sum of the coefficients but the first: the message's value at 0 plus its value at 1.
fn check_sum(msg: &[u64]) -> Gf128
    ensures { value result ≡ check_sum (elements msg.now) }
{
    let mut acc = gf128::ZERO;
    for i in (1..msg.len() / 2).rev() {
        acc = words::get(msg, i) + acc;
    }
    acc
}

// Whether the message is of n coefficients.
fn is_message(msg: &[u64], n: usize) -> bool
    ensures { result ≡ is_message n msg.now }
{
    msg.len() % 2 == 0 && msg.len() / 2 == n
}

// Whether the message is right for the running claim.
#[tactic(auto, unfolding(crate::specs::Round::holds))]
fn sum_holds(msg: &[u64], claim: Gf128) -> bool
    ensures { result ≡ holds (elements msg.now) (value claim) }
{
    check_sum(msg) == claim
}

// The message's value at r: the next running claim. A product for each coefficient.
fn eval_message(msg: &[u64], r: Gf128) -> Gf128
    ensures { value result ≡ eval (elements msg.now) (value r) }
{
    let mut acc = gf128::ZERO;
    for i in (0..msg.len() / 2).rev() {
        acc = multiply_add(words::get(msg, i), r, acc);
    }
    acc
}

// A round of a run whose checks go on behind one that does not pass: whether the message of n coefficients is right, and its value at the
// challenge r as the next running claim, right or wrong. One that is refused with 11 leaves the claim.
pub fn check_round(msg: &[u64], n: usize, claim: Gf128, r: Gf128) -> Result<Round, Refusal>
    ensures { left_by (value claim) result ≡ check_outcome n msg.now (value claim) (value r) }
{
    require(is_message(msg, n), Refusal::Length)?;
    Ok(Round {
        holds: sum_holds(msg, claim),
        claim: eval_message(msg, r),
    })
}

// A round with the challenge r from outside, whose message has n coefficients: the check, and the next running claim. A wrong message
// leaves the claim, and so does one that is refused with 11.
pub fn round_external(msg: &[u64], n: usize, claim: Gf128, r: Gf128) -> Result<Round, Refusal>
    ensures { left_by (value claim) result ≡ round_outcome n msg.now (value claim) (value r) }
{
    let next = check_round(msg, n, claim, r)?;
    if next.holds {
        return Ok(next);
    }
    Ok(Round {
        holds: false,
        claim: claim,
    })
}

// The terminal identity of the outer sum-check: the running claim is e (a b + c), with eq(tau, r) for e. Two products.
#[tactic(auto, unfolding(crate::specs::Outer::outer_end))]
pub fn outer_finish(running: Gf128, e: Gf128, a: Gf128, b: Gf128, c: Gf128) -> bool
    ensures { result ≡ eqb (outer_end (value e) (value a) (value b) (value c)) (value running) }
{
    gf128::mul(e, gf128::mul(a, b) + c) == running
}

// The terminal identity of the inner sum-check: the running claim is t z. One product.
#[tactic(auto, unfolding(crate::specs::Inner::inner_end))]
pub fn inner_finish(running: Gf128, t: Gf128, z: Gf128) -> bool
    ensures { result ≡ eqb (inner_end (value t) (value z)) (value running) }
{
    gf128::mul(t, z) == running
}
