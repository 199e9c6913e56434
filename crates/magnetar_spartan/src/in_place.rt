// Both ends with the transcript in place.
ghost use Rattle.std.specs.Prelude.{◌≡◌, OnOk};
ghost use Rattle.magnetar_field.specs.Number.{number_of};
ghost use Rattle.magnetar_relation.specs.Rules.{rules_by};
ghost use Rattle.magnetar_spartan.specs.Outcome.{verified_in_place, verify_outcome, proved_in_place, prove_outcome};
ghost use Rattle.magnetar_spartan.specs.Refusals.{verifier_scratch_of};
ghost use Rattle.magnetar_spartan.specs.Theorems.{AcceptedCall, ProvedCall, WritesAtMost};

use crate::virtual_spartan;
use magnetar_field::refusal::Refusal;
use magnetar_hash::transcript::Transcript;
use magnetar_matrix::entries::Entries;
use magnetar_relation::shapes::Shapes;

// The verifier; the transcript moves on, also where a check does not pass.
pub fn verify_virtual_spartan<E: Entries>(
    t: &mut Transcript,
    claims: &mut [u64],
    scratch: &mut [u64],
    m: usize,
    q: usize,
    lens: &[usize],
    sh: Shapes,
    es: &E,
    x: &[u64],
    proof: &[u64],
) -> Result<(), Refusal>
    ensures outcome { let R = rules_by m q lens.now sh (E.numbers es.now) in
        verified_in_place (number_of result) t.new claims.new scratch.new ≡ verify_outcome R x.now proof.now t.old claims.old scratch.old }
    ensures bound { let R = rules_by m q lens.now sh (E.numbers es.now) in WritesAtMost (verifier_scratch_of R) scratch.old scratch.new }
    ensures sound { let R = rules_by m q lens.now sh (E.numbers es.now) in OnOk result (AcceptedCall R x.now proof.now t.old claims.new) }
{
    let v = virtual_spartan::verify_virtual_spartan(
        claims, scratch, m, q, lens, sh, es, x, proof, *t,
    );
    *t = v.transcript;
    v.outcome
}

// The prover; the transcript moves on, unless the call is refused.
pub fn prove_virtual_spartan<E: Entries>(
    t: &mut Transcript,
    out: &mut [u64],
    claims: &mut [u64],
    scratch: &mut [u64],
    m: usize,
    q: usize,
    lens: &[usize],
    sh: Shapes,
    es: &E,
    packed: &[u64],
    x: &[u64],
) -> Result<(), Refusal>
    ensures outcome { let R = rules_by m q lens.now sh (E.numbers es.now) in
        proved_in_place (number_of result) t.new out.new claims.new scratch.new ≡ prove_outcome R packed.now x.now t.old out.old claims.old scratch.old }
    ensures complete { let R = rules_by m q lens.now sh (E.numbers es.now) in OnOk result (ProvedCall R packed.now x.now t.old out.new claims.new t.new) }
{
    *t = virtual_spartan::prove_virtual_spartan(
        out, claims, scratch, m, q, lens, sh, es, packed, x, *t,
    )?;
    Ok(())
}
