// Virtual Spartan: the verifier and the prover of a batch. The relation is lent as the shapes of its six matrices and their entries, those of
// A, B, C of bin, then of A, B, C of fld, one behind the other, in whichever form.
// m, q, lens, sh and es stay parameters of their own: C lends them one by one, and the crates below take some of them each.
ghost use Rattle.std.specs.Prelude.{◌≡◌, IfOk, OnOk};
ghost use Rattle.magnetar_field.specs.Gf128.{value};
ghost use Rattle.magnetar_relation.specs.Rules.{rules_by};
ghost use Rattle.magnetar_hash.specs.Transcript.{answer_of};
ghost use Rattle.magnetar_protocol.specs.Found.{found};
ghost use Rattle.magnetar_spartan.specs.Outcome.{answered, verified, verify_outcome, proved, prove_outcome};
ghost use Rattle.magnetar_spartan.specs.Refusals.{verifier_scratch_of};
ghost use Rattle.magnetar_spartan.specs.Stages.{checked, checks_left};
ghost use Rattle.magnetar_spartan.specs.Theorems.{AcceptedCall, ProvedCall, WritesAtMost};

use crate::{combine, products, proving, refusal, stages};
use magnetar_field::refusal::Refusal;
use magnetar_hash::transcript::Transcript;
use magnetar_matrix::entries::Entries;
use magnetar_protocol::first::Failure;
use magnetar_protocol::rounds::Rounds;
use magnetar_prover::rounds::outer_rounds;
use magnetar_prover::schedule_run::ALL_EVENTS;
use magnetar_relation::shapes::Shapes;
use magnetar_verifier::claims::write_claims;
use magnetar_verifier::{end, outer};

// What the verifier answers, and where its transcript stands: at the end of the run, or before the check that does not pass.
#[derive(Clone, Copy)]
pub struct Verified {
    pub outcome: Result<(), Refusal>,
    pub transcript: Transcript,
}

// The checks of a proof at the words d of the draws. All challenges are drawn before any check; the outcome is that of checking in document
// 01's order all the same, since the transcript of a refused run is played again up to the failing check.
fn checks<E: Entries>(
    s: &mut [u64],
    m: usize,
    q: usize,
    lens: &[usize],
    sh: Shapes,
    es: &E,
    x: &[u64],
    proof: &[u64],
    d: &[u64; 256],
) -> Result<(), Failure>
    ensures { let R = rules_by m q lens.now sh (E.numbers es.now) in
        (found result ≡ checked R x.now proof.now d.now s.old) × (s.new ≡ checks_left R x.now proof.now d.now s.old) }
{
    let rb = sh.bin.a.rows;
    let rf = sh.fld.a.rows;
    let k = Rounds::of(m, q, rb, rf).draw_words().min(256);
    outer::outer_checks(m, q, rb, rf, lens, proof, &d[..k])?;
    let v = combine::value_at(s, m, q, sh, d, es);
    let p = stages::public_half(s, m, q, sh, x, d);
    end::end_checks(m, q, rb, rf, lens, proof, &d[..k], v, p)
}

// The verifier: whether it accepts the proof for these rules, public words and transcript; its transcript; and the claims r_inst, r_low
// and segment values at the front of `claims`. Of the scratch at most 2m + 2R + 2q words are written, R being the larger row count; they are
// 0 at exit. 1 to 10: the sizes and the rules; 14: the transcript's counter; 15: too little room; 16: not as many words as a proof has;
// 21 to 29: the first check that does not pass.
pub fn verify_virtual_spartan<E: Entries>(
    claims: &mut [u64],
    scratch: &mut [u64],
    m: usize,
    q: usize,
    lens: &[usize],
    sh: Shapes,
    es: &E,
    x: &[u64],
    proof: &[u64],
    t: Transcript,
) -> Verified
    ensures outcome { let R = rules_by m q lens.now sh (E.numbers es.now) in
        verified (answered result) claims.new scratch.new ≡ verify_outcome R x.now proof.now t claims.old scratch.old }
    ensures bound { let R = rules_by m q lens.now sh (E.numbers es.now) in WritesAtMost (verifier_scratch_of R) scratch.old scratch.new }
    ensures sound { let R = rules_by m q lens.now sh (E.numbers es.now) in OnOk result.outcome (AcceptedCall R x.now proof.now t claims.new) }
{
    if let Err(r) = refusal::verify(m, q, lens, sh, es, x, proof, t, claims, scratch) {
        return Verified {
            outcome: Err(r),
            transcript: t,
        };
    }
    let rb = sh.bin.a.rows;
    let rf = sh.fld.a.rows;
    let run = stages::play(m, q, sh, lens, proof, t, ALL_EVENTS);
    let found = checks(scratch, m, q, lens, sh, es, x, proof, &run.draws);
    stages::clear(scratch, m, q, sh);
    match found {
        Ok(()) => {
            let k = Rounds::of(m, q, rb, rf).draw_words().min(256);
            let _done = write_claims(m, q, rb, rf, lens, proof, &run.draws[..k], claims);
            Verified {
                outcome: Ok(()),
                transcript: run.transcript,
            }
        }
        Err(f) => Verified {
            outcome: Err(f.check),
            transcript: stages::play(m, q, sh, lens, proof, t, f.events).transcript,
        },
    }
}

// The prover: its transcript, the proof at the front of `out`, and the claims r_inst, r_low and segment values at the front of `claims`; the
// scratch is 0 at exit. 1 to 10: the sizes, the batch and the rules; 14: the transcript's counter; 15: too little room for the proof, the
// claims or the scratch. Behind these tests nothing refuses.
pub fn prove_virtual_spartan<E: Entries>(
    out: &mut [u64],
    claims: &mut [u64],
    scratch: &mut [u64],
    m: usize,
    q: usize,
    lens: &[usize],
    sh: Shapes,
    es: &E,
    packed: &[u64],
    x: &[u64],
    t: Transcript,
) -> Result<Transcript, Refusal>
    ensures outcome { let R = rules_by m q lens.now sh (E.numbers es.now) in
        proved (answer_of t result) out.new claims.new scratch.new ≡ prove_outcome R packed.now x.now t out.old claims.old scratch.old }
    ensures complete { let R = rules_by m q lens.now sh (E.numbers es.now) in IfOk result (λ u. ProvedCall R packed.now x.now t out.new claims.new u) }
{
    refusal::prove(m, q, lens, sh, es, packed, x, t, out, claims, scratch)?;
    let rb = sh.bin.a.rows;
    let rf = sh.fld.a.rows;
    products::products(scratch, m, q, sh, es, packed, x);
    // The words of the draws, of which the specification keeps 256: no heap.
    let mut draws = [0u64; 256];
    let u = outer_rounds(q, rb, rf, out, &mut draws, scratch, t)?;
    combine::combine_at(scratch, m, q, sh, &draws, es);
    Ok(proving::inner_stage(
        out, claims, scratch, m, q, sh, lens, packed, x, &mut draws, u,
    ))
}
