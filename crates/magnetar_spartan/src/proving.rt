// What comes behind the combined table in a proving run: it sees no matrix, of sh the row counts alone. Each function is
// total: a size past its limit is cut.
ghost use Rattle.std.specs.Prelude.{◌≡◌, ℕ, ◌+◌, ◌-◌, ◌*◌, ◌/◌, ◌≤◌, min, length, get_or};
ghost use Rattle.magnetar_field.specs.Sizes.{log₂};
ghost use Rattle.magnetar_field.specs.Tabulate.{tabulate};
ghost use Rattle.magnetar_field.specs.Words.{elements};
ghost use Rattle.magnetar_protocol.specs.Shape.{sizes_only};
ghost use Rattle.magnetar_prover.specs.Entries.{inner_run_steps};
ghost use Rattle.magnetar_spartan.specs.Proving.{sizes_only_rules, ValidRun, login_at, ValidFold, FoldLeft, InnerDone, EndLeft, InnerPartLeft};
ghost use Rattle.magnetar_spartan.specs.Theorems.{AreWords};

use magnetar_batch::fold;
use magnetar_field::words;
use magnetar_hash::transcript::Transcript;
use magnetar_protocol::rounds::Rounds;
use magnetar_protocol::scratch::prover_scratch;
use magnetar_prover::inner;
use magnetar_relation::shapes::Shapes;
use magnetar_verifier::claims::write_claims;

// The n draws from place k on, the last one first.
pub(crate) fn login_point(draws: &[u64], k: usize, n: usize, out: &mut [u64])
    requires { (k ≤ 4096) × (n ≤ 16) × (length out.old ≡ 2 * n) }
    ensures { elements out.new ≡ tabulate (λ i. get_or (elements draws.now) (k + (n - 1 - i)) 0) n }
{
    for i in 0..n {
        words::put(out, i, words::get(draws, k + (n - 1 - i)));
    }
}

// The z of all logins folded at the point of the n draws from place k on, which is put into `point`, behind the first 4w words of s.
fn fold_at(
    s: &mut [u64],
    q: usize,
    w: usize,
    n: usize,
    k: usize,
    packed: &[u64],
    x: &[u64],
    draws: &[u64],
    point: &mut [u64],
)
    requires { (k ≤ 4096) × (n ≤ 16) × (length point.old ≡ 2 * n) }
    ensures { ValidFold q w n k (length packed.now) (length x.now) (length draws.now) (length s.old) → FoldLeft q w n k packed.now x.now draws.now s.old s.new }
{
    login_point(draws, k, n, point);
    if w <= s.len() / 8 {
        let _done = fold::fold_packed_in(packed, q, w, point, &mut s[4 * w..]);
        let _also = fold::fold_public_in(x, q, w, point, &mut s[6 * w..]);
    }
}

// The z of all logins folded at their point, behind the combined table.
fn fold_behind(s: &mut [u64], m: usize, q: usize, sh: Shapes, packed: &[u64], x: &[u64], d: &[u64])
    ensures { ValidFold q (m / 2) (log₂ q) (login_at q sh.bin.a.rows sh.fld.a.rows) (length packed.now) (length x.now) (length d.now) (length s.old) → FoldLeft q (m / 2) (log₂ q) (login_at q sh.bin.a.rows sh.fld.a.rows) packed.now x.now d.now s.old s.new }
{
    let rounds = Rounds::of(m, q, sh.bin.a.rows, sh.fld.a.rows);
    let n = (rounds.shared as usize).min(16);
    let mut point = [0u64; 32];
    fold_at(
        s,
        q,
        m / 2,
        n,
        rounds.taus(),
        packed,
        x,
        d,
        &mut point[..2 * n],
    );
}

// The inner rounds, v_z and the segment values, from word a of the proof and word k of the draws on.
fn inner_part(
    proof: &mut [u64],
    draws: &mut [u64],
    s: &mut [u64],
    a: usize,
    k: usize,
    m: usize,
    lens: &[usize],
    t: Transcript,
) -> Transcript
    ensures { InnerDone m lens.now proof.old draws.old s.old (min a (length proof.old)) (min k (length draws.old)) t result proof.new draws.new s.new }
{
    let i = a.min(proof.len());
    let j = k.min(draws.len());
    inner::inner_rounds(m, lens, &mut proof[i..], &mut draws[j..], s, t).unwrap_or(t)
}

// The same at their places, and the claims.
fn end(
    proof: &mut [u64],
    claims: &mut [u64],
    s: &mut [u64],
    m: usize,
    q: usize,
    sh: Shapes,
    lens: &[usize],
    draws: &mut [u64],
    t: Transcript,
) -> Transcript
    ensures { let R = sizes_only_rules m q sh.bin.a.rows sh.fld.a.rows lens.now in
        (ws xs : ℕ) → ValidRun R ws xs (length proof.old) (length claims.old) (length s.old) t.squeeze_ctr → length draws.old ≡ 256
        → EndLeft R proof.old draws.old claims.old s.old (6 * m) (inner_run_steps (sizes_only m 1 1 1 lens.now) s.old t) result proof.new claims.new s.new }
{
    let rb = sh.bin.a.rows;
    let rf = sh.fld.a.rows;
    let rounds = Rounds::of(m, q, rb, rf);
    let a = 2 * (rounds.terminals() + 6);
    let k = 2 * (rounds.alphas() + 6);
    let i = rounds
        .proof_words(lens.len().min(64) as u8)
        .min(proof.len());
    let n = rounds.draw_words().min(draws.len());
    let u = inner_part(proof, draws, s, a, k, m, lens, t);
    let _done = write_claims(m, q, rb, rf, lens, &proof[..i], &draws[..n], claims);
    u
}

// What comes behind the combined table: the folded z, the inner rounds and the claims; the scratch is 0 at exit. That x holds words is said
// here for the entries' theorem.
pub(crate) fn inner_stage(
    proof: &mut [u64],
    claims: &mut [u64],
    s: &mut [u64],
    m: usize,
    q: usize,
    sh: Shapes,
    lens: &[usize],
    packed: &[u64],
    x: &[u64],
    draws: &mut [u64],
    t: Transcript,
) -> Transcript
    ensures { AreWords x.now × (length draws.old ≡ 256
        → InnerPartLeft (sizes_only_rules m q sh.bin.a.rows sh.fld.a.rows lens.now) packed.now x.now proof.old draws.old claims.old s.old t result proof.new claims.new s.new) }
{
    fold_behind(s, m, q, sh, packed, x, draws);
    let u = end(proof, claims, s, m, q, sh, lens, draws, t);
    let n = prover_scratch(m, q, sh.bin.a.rows, sh.fld.a.rows)
        .unwrap_or(0)
        .min(s.len());
    words::clear(&mut s[..n]);
    u
}
