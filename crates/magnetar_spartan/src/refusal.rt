// The refusals 1 to 16 of both ends, in rising order.
ghost use Rattle.std.specs.Prelude.{◌≡◌, ◌++◌};
ghost use Rattle.magnetar_field.specs.Number.{number_of};
ghost use Rattle.magnetar_layout.specs.Tests.{first_refusal, size_tests, public_tests_of};
ghost use Rattle.magnetar_protocol.specs.Shape.{sizes_only};
ghost use Rattle.magnetar_relation.specs.Rules.{rules_by};
ghost use Rattle.magnetar_spartan.specs.Refusals.{rules_tests};
ghost use Rattle.magnetar_spartan.specs.Numbers.{verify_lent_tests, prove_lent_tests, Outlined};
ghost use Rattle.magnetar_spartan.specs.Outcome.{verify_refusal, prove_refusal};

use magnetar_field::refusal::{Refusal, require};
use magnetar_hash::transcript::Transcript;
use magnetar_layout::layout;
use magnetar_matrix::entries::Entries;
use magnetar_protocol::refusal::size_refusal;
use magnetar_protocol::rounds::Rounds;
use magnetar_protocol::scratch::{prover_scratch, verifier_scratch};
use magnetar_r1cs::r1cs;
use magnetar_relation::rules;
use magnetar_relation::shapes::Shapes;

// 3 to 10, of so many public words x: these, the rules, and the segments over the witness columns.
fn relation<E: Entries>(
    m: usize,
    q: usize,
    lens: &[usize],
    sh: Shapes,
    es: &E,
    x: usize,
) -> Result<(), Refusal>
    requires { first_refusal 0 (size_tests m q) ≡ 0 }
    ensures { number_of result ≡ first_refusal 0 (public_tests_of m q x ++ rules_tests (rules_by m q lens.now sh (E.numbers es.now))) }
{
    require(x == q * (m - 2), Refusal::PublicWords)?;
    rules::check(m, q, sh, es)?;
    layout::refusal(m / 2, lens)
}

// 14, 15 and 16 of the verifier, by numbers of words and the transcript's counter n.
fn verify_lent(
    m: usize,
    q: usize,
    lens: &[usize],
    sh: Shapes,
    proof: usize,
    n: u64,
    claims: usize,
    scratch: usize,
) -> Result<(), Refusal>
    requires { Outlined m q sh.bin.a.rows sh.fld.a.rows lens.now }
    ensures { number_of result ≡ first_refusal 0 (verify_lent_tests (sizes_only m q sh.bin.a.rows sh.fld.a.rows lens.now) proof n claims scratch) }
{
    let rb = sh.bin.a.rows;
    let rf = sh.fld.a.rows;
    let rounds = Rounds::of(m, q, rb, rf);
    let l = lens.len() as u8;
    require(n < 0x100000000, Refusal::Counter)?;
    require(claims >= rounds.claim_words(l), Refusal::Room)?;
    require(scratch >= verifier_scratch(m, q, rb, rf)?, Refusal::Room)?;
    require(proof == rounds.proof_words(l), Refusal::ProofWords)
}

// 14 and 15 of the prover.
fn prove_lent(
    m: usize,
    q: usize,
    lens: &[usize],
    sh: Shapes,
    n: u64,
    proof: usize,
    claims: usize,
    scratch: usize,
) -> Result<(), Refusal>
    requires { Outlined m q sh.bin.a.rows sh.fld.a.rows lens.now }
    ensures { number_of result ≡ first_refusal 0 (prove_lent_tests (sizes_only m q sh.bin.a.rows sh.fld.a.rows lens.now) n proof claims scratch) }
{
    let rb = sh.bin.a.rows;
    let rf = sh.fld.a.rows;
    let rounds = Rounds::of(m, q, rb, rf);
    let l = lens.len() as u8;
    require(n < 0x100000000, Refusal::Counter)?;
    require(proof >= rounds.proof_words(l), Refusal::Room)?;
    require(claims >= rounds.claim_words(l), Refusal::Room)?;
    require(scratch >= prover_scratch(m, q, rb, rf)?, Refusal::Room)
}

// Every refusal of the verifier but those of its checks.
pub(crate) fn verify<E: Entries>(
    m: usize,
    q: usize,
    lens: &[usize],
    sh: Shapes,
    es: &E,
    x: &[u64],
    proof: &[u64],
    t: Transcript,
    claims: &[u64],
    scratch: &[u64],
) -> Result<(), Refusal>
    ensures { number_of result ≡ verify_refusal (rules_by m q lens.now sh (E.numbers es.now)) x.now proof.now t claims.now scratch.now }
{
    size_refusal(m, q)?;
    relation(m, q, lens, sh, es, x.len())?;
    verify_lent(
        m,
        q,
        lens,
        sh,
        proof.len(),
        t.squeeze_ctr,
        claims.len(),
        scratch.len(),
    )
}

// Every refusal of the prover.
pub(crate) fn prove<E: Entries>(
    m: usize,
    q: usize,
    lens: &[usize],
    sh: Shapes,
    es: &E,
    packed: &[u64],
    x: &[u64],
    t: Transcript,
    proof: &[u64],
    claims: &[u64],
    scratch: &[u64],
) -> Result<(), Refusal>
    ensures { number_of result ≡ prove_refusal (rules_by m q lens.now sh (E.numbers es.now)) packed.now x.now t proof.now claims.now scratch.now }
{
    size_refusal(m, q)?;
    require(
        packed.len() == q * r1cs::login_words(m / 2),
        Refusal::PackedWords,
    )?;
    relation(m, q, lens, sh, es, x.len())?;
    prove_lent(
        m,
        q,
        lens,
        sh,
        t.squeeze_ctr,
        proof.len(),
        claims.len(),
        scratch.len(),
    )
}
