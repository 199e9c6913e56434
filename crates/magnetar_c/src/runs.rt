// A relation and a batch. A relation is its shapes and the entries of A, B, C of bin, then of A, B, C of fld, one behind the other in four
// slices.
ghost use Rattle.std.specs.Prelude.{◌≡◌, []};
ghost use Rattle.magnetar_layout.specs.Entries.{build_refusal, build_out};
ghost use Rattle.magnetar_relation.specs.Rules.{rules};
ghost use Rattle.magnetar_digest.specs.Digest.{digest_answer};
ghost use Rattle.magnetar_check.specs.Check.{check_outcome};
ghost use Rattle.magnetar_batch.specs.Entries.{fold_refusal, fold_out, fold_scratch, combined, combo_outcome};
ghost use Rattle.magnetar_spartan.specs.Outcome.{verified, verify_outcome, proved, prove_outcome};
ghost use Rattle.magnetar_spartan.specs.Refusals.{verifier_scratch_of};
ghost use Rattle.magnetar_spartan.specs.Theorems.{AcceptedCall, ProvedCall, WritesAtMost};
ghost use Rattle.magnetar_c.specs.CStructs as across;

use crate::across;
use crate::across::{MagnetarAnswer, MagnetarDigestAnswer, MagnetarRowCheck, MagnetarTranscript};
use magnetar_batch::{combo, fold};
use magnetar_check::check;
use magnetar_digest::digest;
use magnetar_layout::layout;
use magnetar_matrix::entries::Slices;
use magnetar_relation::shapes::Shapes;
use magnetar_spartan::virtual_spartan;

// The columns where the segments start.
#[unsafe(no_mangle)]
pub extern "C" fn magnetar_layout_build(w: usize, lens: &[usize], offsets: &mut [usize]) -> u32
    ensures answer { result ≡ build_refusal w lens.now offsets.old }
    ensures written { offsets.new ≡ build_out w lens.now offsets.old }
{
    across::number_out(layout::build(w, lens, offsets))
}

// The digest of a relation, for both ends to absorb before a run.
#[unsafe(no_mangle)]
pub extern "C" fn magnetar_relation_digest(
    m: usize,
    q: usize,
    lens: &[usize],
    sh: Shapes,
    row: &[usize],
    col: &[usize],
    lo: &[u64],
    hi: &[u64],
) -> MagnetarDigestAnswer
    ensures { let R = rules m q lens.now sh row.now col.now lo.now hi.now in
        across.digest result ≡ digest_answer R }
{
    let es = Slices { row, col, lo, hi };
    across::digest_out(digest::relation_digest(m, q, lens, sh, &es))
}

// The batch folded at the point: column y is the sum over the logins of eq times the bit.
#[unsafe(no_mangle)]
pub extern "C" fn magnetar_fold_packed_w(
    packed: &[u64],
    q: usize,
    w: usize,
    point: &[u64],
    out: &mut [u64],
    scratch: &mut [u64],
) -> u32
    ensures answer { result ≡
        fold_refusal packed.now q w point.now out.old scratch.old }
    ensures folded { out.new ≡
        fold_out packed.now q w point.now out.old scratch.old }
    ensures cleared { scratch.new ≡
        fold_scratch packed.now q w point.now out.old scratch.old }
{
    across::number_out(fold::fold_packed_w(packed, q, w, point, out, scratch))
}

// The six matrices combined into one table of columns.
#[unsafe(no_mangle)]
pub extern "C" fn magnetar_build_m_combo(
    out: &mut [u64],
    scratch: &mut [u64],
    m: usize,
    sh: Shapes,
    row: &[usize],
    col: &[usize],
    lo: &[u64],
    hi: &[u64],
    alphas: &[u64],
    pb: &[u64],
    pf: &[u64],
) -> u32
    ensures { let R = rules m 1 [] sh row.now col.now lo.now hi.now in
        combined result out.new scratch.new
        ≡ combo_outcome R alphas.now pb.now pf.now out.old scratch.old }
{
    let es = Slices { row, col, lo, hi };
    across::number_out(combo::build_m_combo(out, scratch, m, sh, &es, alphas, pb, pf))
}

// The first stray bit, a bit that is set outside the segments: the lowest login, then the lowest column. Without one the first row that
// fails: bin before fld, then the lowest login, then the lowest row.
#[unsafe(no_mangle)]
pub extern "C" fn magnetar_row_check(
    scratch: &mut [u64],
    m: usize,
    q: usize,
    lens: &[usize],
    sh: Shapes,
    row: &[usize],
    col: &[usize],
    lo: &[u64],
    hi: &[u64],
    packed: &[u64],
    x: &[u64],
) -> MagnetarRowCheck
    ensures { let R = rules m q lens.now sh row.now col.now lo.now hi.now in
        let o = check_outcome R packed.now x.now scratch.old in
        (result ≡ across.row_check_answer o.answer) × (scratch.new ≡ o.scratch) }
{
    let es = Slices { row, col, lo, hi };
    across::check_out(check::row_check(scratch, m, q, lens, sh, &es, packed, x))
}

// The proof and the claims of a batch.
#[unsafe(no_mangle)]
pub extern "C" fn magnetar_prove_virtual_spartan(
    proof: &mut [u64],
    claims: &mut [u64],
    scratch: &mut [u64],
    m: usize,
    q: usize,
    lens: &[usize],
    sh: Shapes,
    row: &[usize],
    col: &[usize],
    lo: &[u64],
    hi: &[u64],
    packed: &[u64],
    x: &[u64],
    t: MagnetarTranscript,
) -> MagnetarAnswer
    ensures outcome { let R = rules m q lens.now sh row.now col.now lo.now hi.now in
        proved (across.answer result) proof.new claims.new scratch.new
        ≡ prove_outcome R packed.now x.now (across.transcript t) proof.old claims.old scratch.old }
    ensures complete { let R = rules m q lens.now sh row.now col.now lo.now hi.now in
        result.code ≡ 0
        → ProvedCall R packed.now x.now (across.transcript t) proof.new claims.new (across.answer result).transcript }
{
    let es = Slices { row, col, lo, hi };
    let answer = virtual_spartan::prove_virtual_spartan(
        proof,
        claims,
        scratch,
        m,
        q,
        lens,
        sh,
        &es,
        packed,
        x,
        across::transcript_in(t),
    );
    across::answer_out(t, answer)
}

// The verdict on a proof, and the claims of one that is accepted.
#[unsafe(no_mangle)]
pub extern "C" fn magnetar_verify_virtual_spartan(
    claims: &mut [u64],
    scratch: &mut [u64],
    m: usize,
    q: usize,
    lens: &[usize],
    sh: Shapes,
    row: &[usize],
    col: &[usize],
    lo: &[u64],
    hi: &[u64],
    x: &[u64],
    proof: &[u64],
    t: MagnetarTranscript,
) -> MagnetarAnswer
    ensures outcome { let R = rules m q lens.now sh row.now col.now lo.now hi.now in
        verified (across.answer result) claims.new scratch.new
        ≡ verify_outcome R x.now proof.now (across.transcript t) claims.old scratch.old }
    ensures bound { let R = rules m q lens.now sh row.now col.now lo.now hi.now in
        WritesAtMost (verifier_scratch_of R) scratch.old scratch.new }
    ensures sound { let R = rules m q lens.now sh row.now col.now lo.now hi.now in
        result.code ≡ 0
        → AcceptedCall R x.now proof.now (across.transcript t) claims.new }
{
    let es = Slices { row, col, lo, hi };
    across::verified_out(virtual_spartan::verify_virtual_spartan(
        claims,
        scratch,
        m,
        q,
        lens,
        sh,
        &es,
        x,
        proof,
        across::transcript_in(t),
    ))
}
