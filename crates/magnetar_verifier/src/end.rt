// The checks after the alphas: 27 of the inner rounds, 28 of the claim that they leave, 29 of v_z.
ghost use Rattle.std.specs.Prelude.{◌≡◌, [], ◌+◌, ◌-◌, ◌*◌, ◌/◌, ◌%◌, ◌<◌, ◌≤◌, length, get_or, drop, IfOk};
ghost use Rattle.magnetar_field.specs.Gf128.{value, ◌⊕◌, ◌⊗◌};
ghost use Rattle.magnetar_field.specs.Sizes.{log₂};
ghost use Rattle.magnetar_multilinear.specs.EqTable.{eq_at};
ghost use Rattle.magnetar_field.specs.Words.{elements};
ghost use Rattle.magnetar_layout.specs.Layout.{LayoutFits};
ghost use Rattle.magnetar_protocol.specs.Checks.{segment_sum};
ghost use Rattle.magnetar_protocol.specs.Proof.{part};
ghost use Rattle.magnetar_protocol.specs.Rounds.{Few};
ghost use Rattle.magnetar_protocol.specs.Found.{nothing, found, after};
ghost use Rattle.magnetar_verifier.specs.EndSteps.{identical, round_phase, last_claim, low_draws, vz, alphas_at, terminals_at, end_phases, EndFits};
ghost use Rattle.magnetar_verifier.specs.End.{end_found};

use crate::found::{pass, piece, rounds};
use crate::outer::sized;
use magnetar_field::gf128::{self, Gf128, ONE, ZERO};
use magnetar_field::refusal::Refusal;
use magnetar_field::{sizes, words};
use magnetar_multilinear::{eq, multilinear};
use magnetar_protocol::first::Failure;
use magnetar_protocol::rounds::Rounds;
use magnetar_sumcheck_verifier::verify;

// ---- eq at a number, and the segment values.

// eq of the point and a number, bit 0 that of the point's first element.
fn eq_number(point: &[u64], k: usize) -> Gf128
    ensures { value result ≡ eq_at (elements point.now) k }
{
    let mut acc = ONE;
    let mut rest = k;
    for j in 0..point.len() / 2 {
        acc = gf128::mul(acc, eq::eq_char2(words::get(point, j), rest % 2 == 1));
        rest /= 2;
    }
    acc
}

// The sum with one more segment of length n, at place k of its size: acc + eq(low above log n, k) v.
fn add_segment(acc: Gf128, low: &[u64], n: usize, k: usize, v: Gf128) -> Gf128
    requires { 2 * log₂ n ≤ length low.now }
    ensures { value result ≡ value acc ⊕ eq_at (drop (log₂ n) (elements low.now)) k ⊗ value v }
{
    let a = 2 * sizes::log2(n);
    let e = eq_number(&low[a..], k);
    acc + gf128::mul(e, v)
}

// The segment values, each times eq of the low point's high part and the number of the segment's place. w is the witness columns.
fn segment_sum(w: usize, lens: &[usize], low: &[u64], values: &[u64]) -> Gf128
    requires layout_fits { LayoutFits w lens.now }
    requires low_len { (length low.now ≡ 2 * log₂ w) × (length values.now ≡ 2 * length lens.now) }
    ensures { value result ≡ segment_sum lens.now (elements low.now) 0 (elements values.now) }
{
    let mut acc = ZERO;
    let mut c: usize = 0;
    for (i, n) in lens.iter().enumerate() {
        let k = c.div_ceil(*n);
        acc = add_segment(acc, low, *n, k, words::get(values, i));
        c = k * *n + *n;
    }
    acc
}

// ---- The identity of v_z.

// (1 + top) a + top p is v.
fn is_identical(top: Gf128, a: Gf128, p: Gf128, v: Gf128) -> bool
    ensures { result ≡ identical (value top) (value a) (value p) (value v) }
{
    let x = gf128::mul(ONE + top, a);
    let y = gf128::mul(top, p);
    x + y == v
}

// ---- The checks.

// The rounds of the inner sum-check: the first claim is the terminals, each times its alpha.
fn inner_rounds(proof: &[u64], draws: &[u64], r: Rounds) -> Result<Gf128, Failure>
    requires few { Few r }
    requires sent { 2 * (8 * r.shared + 4 * r.bin + 4 * r.fld + 6 + 3 * r.inner) ≤ length proof.now }
    requires drawn { 2 * (r.shared + r.bin + (r.shared + r.fld) + r.shared + r.bin + r.fld + 6 + r.inner) ≤ length draws.now }
    ensures found { found result ≡ after nothing (round_phase r.shared r.bin r.fld r.inner [] (elements proof.now) (elements draws.now) 0 0) }
    ensures claim { IfOk result (λ c. value c ≡ last_claim r.shared r.bin r.fld r.inner [] (elements proof.now) (elements draws.now) 0 0) }
{
    let k = r.alphas();
    let i = r.terminals();
    let claim = multilinear::dot(piece(draws, k, 6), piece(proof, i, 6));
    rounds(
        claim,
        piece(proof, i + 6, 3 * r.inner as usize),
        3,
        piece(draws, k + 6, r.inner as usize),
        Refusal::InnerRound,
        r.outer_events() + 12,
    )
}

// v_z is (1 + top) times the segment sum plus top times p, the value of the public half.
fn identity_holds(
    m: usize,
    lens: &[usize],
    p: Gf128,
    proof: &[u64],
    draws: &[u64],
    r: Rounds,
) -> bool
    requires few { Few r }
    requires fits { EndFits m r.shared r.bin r.fld r.inner lens.now (length proof.now) (length draws.now) }
    ensures { let s = r.shared in let b = r.bin in let f = r.fld in let c = r.inner in result ≡ identical (get_or (elements draws.now) (alphas_at s b f c [] [] [] 0 0 + 6 + (c - 1)) 0) (segment_sum lens.now (low_draws s b f c [] [] (elements draws.now) 0 0) 0 (part (terminals_at s b f c [] [] [] 0 0 + 6 + 3 * c + 1) (length lens.now) (elements proof.now))) (value p) (vz s b f c [] (elements proof.now) [] 0 0) }
{
    let k = r.alphas() + 6;
    let i = r.end();
    let n = r.inner as usize - 1;
    let low = piece(draws, k, n);
    let values = piece(proof, i + 1, lens.len());
    let a = segment_sum(m / 2, lens, low, values);
    is_identical(words::get(draws, k + n), a, p, words::get(proof, i))
}

// The checks of all, v being the table at the inner point and p the public half at the low point.
fn end_phases(
    m: usize,
    lens: &[usize],
    proof: &[u64],
    draws: &[u64],
    v: Gf128,
    p: Gf128,
    r: Rounds,
) -> Result<(), Failure>
    requires few { Few r }
    requires fits { EndFits m r.shared r.bin r.fld r.inner lens.now (length proof.now) (length draws.now) }
    ensures { found result ≡ after nothing (end_phases r.shared r.bin r.fld r.inner lens.now (elements proof.now) (elements draws.now) (value v) (value p)) }
{
    let events = r.outer_events() + 12 + 2 * r.inner as usize;
    let claim = inner_rounds(proof, draws, r)?;
    let y = verify::inner_finish(claim, v, words::get(proof, r.end()));
    pass(y, Refusal::InnerTerminal, events)?;
    let z = identity_holds(m, lens, p, proof, draws, r);
    pass(z, Refusal::SegmentIdentity, events + 1)
}

// The checks 27 to 29 of a run over q logins with m columns, rb rows of bin and rf rows of fld, and these segment lengths, with the value v
// in place of the six matrices combined at the row points and taken at the inner point, and p in place of the public half folded over the
// logins and taken at the low point: the first that does not pass, in the order of the run.
// 1: no such columns or logins; 4: no such rows; 8, 9, 10: no such layout over m / 2 columns; 11: not the words of as many draws as a run
// makes; 16: not the words of a proof. These stop it before any event. So the sizes stay numbers: none that is refused has a Rounds.
pub fn end_checks(
    m: usize,
    q: usize,
    rb: usize,
    rf: usize,
    lens: &[usize],
    proof: &[u64],
    draws: &[u64],
    v: Gf128,
    p: Gf128,
) -> Result<(), Failure>
    ensures { found result ≡ end_found m q rb rf lens.now proof.now draws.now (value v) (value p) }
{
    let r = sized(m, q, rb, rf, lens, proof, draws)?;
    end_phases(m, lens, proof, draws, v, p, r)
}
