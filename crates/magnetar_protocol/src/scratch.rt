// How many words of scratch both ends of a run ask for. C gives m, q, rb and rf one by one, and the words are counted by them, not by their
// logarithms.
ghost use Rattle.std.specs.Prelude.{◌≡◌, ◌+◌, ◌*◌, ◌≤◌};
ghost use Rattle.magnetar_protocol.specs.Scratch.{verifier_scratch, prover_scratch, verifier_scratch_words, prover_scratch_words, asked};

use crate::refusal;
use magnetar_field::refusal::Refusal;

// The verifier's words.
fn verifier_words(m: usize, q: usize, rb: usize, rf: usize) -> usize
    requires { (m ≤ 65536) × (q ≤ 4096) × (rb ≤ 65536) × (rf ≤ 65536) }
    ensures { result ≡ verifier_scratch m q rb rf }
{
    2 * m + 2 * rb.max(rf) + 2 * q
}

// q times the rows of both systems.
#[tactic(auto, using(crate::proofs::Guards::rows))]
fn positions(q: usize, rb: usize, rf: usize) -> usize
    requires { (rb ≤ 65536) × (rf ≤ 65536) × (q ≤ 4096) }
    ensures value { result ≡ q * (rb + rf) }
    ensures upper_bound { result ≤ 536870912 }
{
    q * (rb + rf)
}

// The prover's words.
fn prover_words(m: usize, q: usize, rb: usize, rf: usize) -> usize
    requires { (m ≤ 65536) × (q ≤ 4096) × (rb ≤ 65536) × (rf ≤ 65536) }
    ensures { result ≡ prover_scratch m q rb rf }
{
    8 * positions(q, rb, rf) + 8 * m + 4 * rb.max(rf) + 6 * q
}

// How many words of scratch the verifier asks for, over q logins with m columns, rb rows of bin and rf rows of fld.
// 1: no such columns or logins; 4: no such rows.
pub fn verifier_scratch(m: usize, q: usize, rb: usize, rf: usize) -> Result<usize, Refusal>
    ensures { asked result ≡ verifier_scratch_words m q rb rf }
{
    refusal::run_refusal(m, q, rb, rf)?;
    Ok(verifier_words(m, q, rb, rf))
}

// And how many the prover asks for.
pub fn prover_scratch(m: usize, q: usize, rb: usize, rf: usize) -> Result<usize, Refusal>
    ensures { asked result ≡ prover_scratch_words m q rb rf }
{
    refusal::run_refusal(m, q, rb, rf)?;
    Ok(prover_words(m, q, rb, rf))
}
