// The checks of the outer sum-checks: 21 and 22 of the shared rounds, 23 and 24 of the row rounds, 25 and 26 of the terminals.
ghost use Rattle.std.specs.Prelude.{◌≡◌, reverse, ◌++◌, suc, ◌+◌, ◌*◌, ◌/◌, ◌%◌, ◌<◌, ◌≤◌, length, get_or, IfOk};
ghost use Rattle.magnetar_field.specs.Gf128.{value};
ghost use Rattle.magnetar_field.specs.Number.{number_of};
ghost use Rattle.magnetar_field.specs.Polynomial.{eval};
ghost use Rattle.magnetar_field.specs.Words.{elements};
ghost use Rattle.magnetar_sumcheck_verifier.specs.Round.{holds, running};
ghost use Rattle.magnetar_sumcheck_verifier.specs.Order.{eq_points, point};
ghost use Rattle.magnetar_protocol.specs.Proof.{part};
ghost use Rattle.magnetar_protocol.specs.Rounds.{rounds_of, Few};
ghost use Rattle.magnetar_protocol.specs.Shape.{sizes_only};
ghost use Rattle.magnetar_protocol.specs.Found.{check, nothing, found, next_found, after};
ghost use Rattle.magnetar_verifier.specs.Steps.{shared_bin, shared_fld, both_checks, terminal_holds, outer_phases};
ghost use Rattle.magnetar_verifier.specs.Outer.{checks_refusal, outer_found};
ghost use Rattle.magnetar_verifier.specs.EndSteps.{EndFits};

use crate::found::{pass, piece, round, rounds};
use magnetar_field::gf128::{self, Gf128, ZERO};
use magnetar_field::refusal::{Refusal, require};
use magnetar_field::words;
use magnetar_protocol::first::Failure;
use magnetar_protocol::refusal;
use magnetar_protocol::rounds::Rounds;
use magnetar_sumcheck_prover::public;
use magnetar_sumcheck_verifier::verify;

// The running claims of both systems.
#[derive(Clone, Copy)]
struct Both {
    bin: Gf128,
    fld: Gf128,
}

// Shared round j with the challenge r, bin before fld: their messages stand side by side.
fn shared_round(
    both: Both,
    proof: &[u64],
    r: Gf128,
    j: usize,
    events: usize,
) -> Result<Both, Failure>
    requires { (j < 64) × (16 * j + 16 ≤ length proof.now) }
    ensures found { found result ≡ next_found (next_found nothing (check 21 (holds (part (8 * j) 4 (elements proof.now)) (value both.bin)) events)) (check 22 (holds (part (8 * j + 4) 4 (elements proof.now)) (value both.fld)) events) }
    ensures claims { IfOk result (λ c. (value c.bin ≡ eval (part (8 * j) 4 (elements proof.now)) (value r)) × (value c.fld ≡ eval (part (8 * j + 4) 4 (elements proof.now)) (value r))) }
{
    let bin = round(
        both.bin,
        piece(proof, 8 * j, 4),
        4,
        r,
        Refusal::SharedBin,
        events,
    )?;
    let fld = round(
        both.fld,
        piece(proof, 8 * j + 4, 4),
        4,
        r,
        Refusal::SharedFld,
        events,
    )?;
    Ok(Both { bin: bin, fld: fld })
}

// The shared rounds, behind k events: the messages stand at the front of the proof.
fn shared_rounds(proof: &[u64], challenges: &[u64], k: usize) -> Result<Both, Failure>
    requires { let s = length challenges.now / 2 in (s ≤ 64) × (k ≤ 4096) × (16 * s ≤ length proof.now) }
    ensures found { let s = length challenges.now / 2 in found result ≡ after nothing (both_checks k (shared_bin s (elements proof.now)) (shared_fld s (elements proof.now)) (elements challenges.now) 0 s) }
    ensures claims { let s = length challenges.now / 2 in IfOk result (λ c. (value c.bin ≡ running 0 (shared_bin s (elements proof.now)) (elements challenges.now)) × (value c.fld ≡ running 0 (shared_fld s (elements proof.now)) (elements challenges.now))) }
{
    let mut both = Both {
        bin: ZERO,
        fld: ZERO,
    };
    for j in 0..challenges.len() / 2 {
        both = shared_round(both, proof, words::get(challenges, j), j, k + 2 * (j + 1))?;
    }
    Ok(both)
}

// eq of tau and a point of as many elements, given by challenges of which the first `high` are the highest variables.
fn eq_at(tau: &[u64], challenges: &[u64], high: usize) -> Gf128
    requires { (length tau.now % 2 ≡ 0) × (length challenges.now ≡ length tau.now) × (2 * high ≤ length tau.now) }
    ensures { value result ≡ eq_points (elements tau.now) (point high (elements challenges.now)) }
{
    public::eq_points(tau, challenges, high).unwrap_or(ZERO)
}

// eq of tau and the point of a system: its row challenges, then the shared ones reversed.
fn eq_of(tau: &[u64], rows: &[u64], shared: &[u64]) -> Gf128
    requires { (length rows.now % 2 ≡ 0) × (length shared.now % 2 ≡ 0) × (length tau.now ≡ length rows.now + length shared.now) }
    ensures { value result ≡ eq_points (elements tau.now) (elements rows.now ++ reverse (elements shared.now)) }
{
    let b = rows.len();
    let low = eq_at(&tau[..b], rows, 0);
    let high = eq_at(&tau[b..], shared, shared.len() / 2);
    gf128::mul(low, high)
}

// The running claim is eq of tau and the point times (a b + c), with the three elements of the proof from place i on.
#[tactic(auto, unfolding(crate::specs::Steps::terminal_holds))]
fn terminal_holds(
    claim: Gf128,
    tau: &[u64],
    rows: &[u64],
    shared: &[u64],
    proof: &[u64],
    i: usize,
) -> bool
    requires { (i ≤ 4096) × (length rows.now % 2 ≡ 0) × (length shared.now % 2 ≡ 0) × (length tau.now ≡ length rows.now + length shared.now) }
    ensures { result ≡ terminal_holds (value claim) (elements tau.now) (elements rows.now) (elements shared.now) (elements proof.now) i }
{
    let e = eq_of(tau, rows, shared);
    let a = words::get(proof, i);
    let b = words::get(proof, i + 1);
    let c = words::get(proof, i + 2);
    verify::outer_finish(claim, e, a, b, c)
}

// Both terminals: the claims of bin and of fld.
fn terminals(bin: Gf128, fld: Gf128, proof: &[u64], draws: &[u64], r: Rounds) -> Result<(), Failure>
    requires few { Few r }
    requires drawn { 2 * (r.shared + r.bin + (r.shared + r.fld) + r.shared + r.bin + r.fld) ≤ length draws.now }
    ensures { let s = r.shared in let b = r.bin in let f = r.fld in found result ≡ next_found (next_found nothing (check 25 (terminal_holds (value bin) (part 0 (s + b) (elements draws.now)) (part (s + b + (s + f) + s) b (elements draws.now)) (part (s + b + (s + f)) s (elements draws.now)) (elements proof.now) (8 * s + 4 * b + 4 * f)) (s + b + (s + f) + 2 * s + 2 * b + 2 * f))) (check 26 (terminal_holds (value fld) (part (s + b) (s + f) (elements draws.now)) (part (s + b + (s + f) + s + b) f (elements draws.now)) (part (s + b + (s + f)) s (elements draws.now)) (elements proof.now) (8 * s + 4 * b + 4 * f + 3)) (s + b + (s + f) + 2 * s + 2 * b + 2 * f)) }
{
    let k = r.taus();
    let i = r.terminals();
    let shared = piece(draws, k, r.shared as usize);
    let x = terminal_holds(
        bin,
        piece(draws, 0, r.shared as usize + r.bin as usize),
        piece(draws, k + r.shared as usize, r.bin as usize),
        shared,
        proof,
        i,
    );
    pass(x, Refusal::TerminalBin, r.outer_events())?;
    let y = terminal_holds(
        fld,
        piece(
            draws,
            r.shared as usize + r.bin as usize,
            r.shared as usize + r.fld as usize,
        ),
        piece(
            draws,
            k + r.shared as usize + r.bin as usize,
            r.fld as usize,
        ),
        shared,
        proof,
        i + 3,
    );
    pass(y, Refusal::TerminalFld, r.outer_events())
}

// The checks of all phases.
fn outer_phases(proof: &[u64], draws: &[u64], r: Rounds) -> Result<(), Failure>
    requires few { Few r }
    requires sent { 2 * (8 * r.shared + 4 * r.bin + 4 * r.fld) ≤ length proof.now }
    requires drawn { 2 * (r.shared + r.bin + (r.shared + r.fld) + r.shared + r.bin + r.fld) ≤ length draws.now }
    ensures { found result ≡ after nothing (outer_phases r.shared r.bin r.fld (elements proof.now) (elements draws.now)) }
{
    let k = r.taus();
    let rows = k + r.shared as usize;
    let e = k + 2 * r.shared as usize;
    let both = shared_rounds(proof, piece(draws, k, r.shared as usize), k)?;
    let bin = rounds(
        both.bin,
        piece(proof, 8 * r.shared as usize, 4 * r.bin as usize),
        4,
        piece(draws, rows, r.bin as usize),
        Refusal::RowBin,
        e + 2,
    )?;
    let fld = rounds(
        both.fld,
        piece(
            proof,
            8 * r.shared as usize + 4 * r.bin as usize,
            4 * r.fld as usize,
        ),
        4,
        piece(draws, rows + r.bin as usize, r.fld as usize),
        Refusal::RowFld,
        e + 2 * r.bin as usize + 2,
    )?;
    terminals(bin, fld, proof, draws, r)
}

// The rounds of a run with these sizes, segments, and words of a proof and of draws, unless a refusal stops it before any event.
pub(crate) fn sized(
    m: usize,
    q: usize,
    rb: usize,
    rf: usize,
    lens: &[usize],
    proof: &[u64],
    draws: &[u64],
) -> Result<Rounds, Refusal>
    ensures refusal { number_of result ≡ checks_refusal (sizes_only m q rb rf lens.now) proof.now draws.now }
    ensures rounds { IfOk result (λ r. r ≡ rounds_of m q rb rf) }
    ensures few { IfOk result (λ r. Few r) }
    ensures fits { IfOk result (λ r. EndFits m r.shared r.bin r.fld r.inner lens.now (length proof.now) (length draws.now)) }
{
    refusal::outline_refusal(m, q, rb, rf, lens)?;
    let r = Rounds::of(m, q, rb, rf);
    require(draws.len() == r.draw_words(), Refusal::Length)?;
    let l = lens.len() as u8;
    require(proof.len() == r.proof_words(l), Refusal::ProofWords)?;
    Ok(r)
}

// The checks 21 to 26 of a run over q logins with m columns, rb rows of bin and rf rows of fld, and these segment lengths: the
// first that does not pass, in the order of the run.
// 1: no such columns or logins; 4: no such rows; 8, 9, 10: no such layout over m / 2 columns; 11: not the words of as many draws as a run
// makes; 16: not the words of a proof. These stop it before any event. So the sizes stay numbers: none that is refused has a Rounds.
pub fn outer_checks(
    m: usize,
    q: usize,
    rb: usize,
    rf: usize,
    lens: &[usize],
    proof: &[u64],
    draws: &[u64],
) -> Result<(), Failure>
    ensures { found result ≡ outer_found m q rb rf lens.now proof.now draws.now }
{
    let r = sized(m, q, rb, rf, lens, proof, draws)?;
    outer_phases(proof, draws, r)
}
