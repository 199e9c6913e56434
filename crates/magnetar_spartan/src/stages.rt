// The stages of a verifying run that see no matrix: the schedule; the public half at its points; and the clearing of the scratch.
ghost use Rattle.std.specs.Prelude.{◌≡◌, ◌+◌, ◌*◌, ◌≤◌, max, length, take, drop, replicate};
ghost use Rattle.magnetar_field.specs.Gf128.{value};
ghost use Rattle.magnetar_field.specs.Sizes.{log₂};
ghost use Rattle.magnetar_field.specs.Words.{elements, words};
ghost use Rattle.magnetar_layout.specs.Tests.{Sized};
ghost use Rattle.magnetar_multilinear.specs.Multilinear.{mle};
ghost use Rattle.magnetar_prover.specs.Entries.{play_draws};
ghost use Rattle.magnetar_protocol.specs.Shape.{sizes_only};
ghost use Rattle.magnetar_relation.specs.Steps.{cleared_to};
ghost use Rattle.magnetar_spartan.specs.Stages.{run_to, drawn_back, public_value, public_left, half_value, half_left};
ghost use Rattle.magnetar_spartan.specs.Theorems.{AreWords};

use crate::{combine, proving};
use magnetar_batch::fold;
use magnetar_field::gf128::{Gf128, ONE, ZERO};
use magnetar_field::sizes;
use magnetar_hash::transcript::Transcript;
use magnetar_multilinear::eq::EqBits;
use magnetar_multilinear::multilinear;
use magnetar_protocol::rounds::Rounds;
use magnetar_prover::schedule_run;
use magnetar_relation::shapes::Shapes;
use magnetar_relation::step;

// What a run has drawn: the words of the draws, 0 behind them, and its transcript.
#[derive(Clone, Copy)]
pub(crate) struct Played {
    pub draws: [u64; 256],
    pub transcript: Transcript,
}

// The first `to` events of the schedule, played with the words of a proof.
pub(crate) fn play(
    m: usize,
    q: usize,
    sh: Shapes,
    lens: &[usize],
    proof: &[u64],
    t: Transcript,
    to: usize,
) -> Played
    ensures draws { result.draws ≡ play_draws (sizes_only m q sh.bin.a.rows sh.fld.a.rows lens.now) proof.now (replicate 256 0) to t }
    ensures transcript { result.transcript ≡ run_to (sizes_only m q sh.bin.a.rows sh.fld.a.rows lens.now) proof.now t to }
{
    let rb = sh.bin.a.rows;
    let rf = sh.fld.a.rows;
    // The words of the draws, of which the specification keeps 256: no heap.
    let mut draws = [0u64; 256];
    let u = schedule_run::run_events(m, q, rb, rf, lens, proof, &mut draws, t, to).unwrap_or(t);
    Played {
        draws,
        transcript: u,
    }
}

// The value at the point p of the table of w elements in front of s, by an eq table behind it.
fn half_value(s: &mut [u64], w: usize, p: &[u64]) -> Gf128
    requires { Sized 1 32768 w × (4 * w ≤ length s.old) × (length p.now ≡ 2 * log₂ w) }
    ensures value { value result ≡ mle (take w (elements s.old)) (elements p.now) }
    ensures behind { drop (4 * w) s.new ≡ drop (4 * w) s.old }
{
    let a = 2 * w;
    let b = 4 * w;
    let _ = EqBits::build(p, ONE, &mut s[a..b]);
    multilinear::dot(&s[0..a], &s[a..b])
}

// The value at the low point in front of y of the public half folded at the point of the logins, by m + q elements of room, which are left 0.
// Where a size, the public words or the room do not fit it is 0, and nothing changes.
fn public_value(s: &mut [u64], m: usize, q: usize, x: &[u64], point: &[u64], y: &[u64; 32]) -> Gf128
    ensures { (value result ≡ public_value m q x.now point.now y.now s.old) × (s.new ≡ public_left m q x.now point.now s.old) }
{
    let h = s.len() / 2;
    if m > h || q > h - m {
        return ZERO;
    }
    let w = m / 2;
    if fold::fold_public_in(x, q, w, point, s).is_err() {
        return ZERO;
    }
    let v = half_value(s, w, &y[..2 * sizes::log2(w)]);
    step::clear_front(m + q, s);
    v
}

// The same at the point of the n draws from place k on, which is put into `point`.
fn public_at(
    s: &mut [u64],
    m: usize,
    q: usize,
    n: usize,
    k: usize,
    x: &[u64],
    draws: &[u64],
    point: &mut [u64],
    y: &[u64; 32],
) -> Gf128
    requires { (k ≤ 4096) × (n ≤ 16) × (length point.old ≡ 2 * n) }
    ensures { let p = words (drawn_back n k draws.now) in (value result ≡ public_value m q x.now p y.now s.old) × (s.new ≡ public_left m q x.now p s.old) }
{
    proving::login_point(draws, k, n, point);
    public_value(s, m, q, x, point, y)
}

// The same at the words d of the draws.
pub(crate) fn public_half(
    s: &mut [u64],
    m: usize,
    q: usize,
    sh: Shapes,
    x: &[u64],
    d: &[u64; 256],
) -> Gf128
    ensures { (value result ≡ half_value m q sh.bin.a.rows sh.fld.a.rows x.now d.now s.old)
        × (s.new ≡ half_left m q sh.bin.a.rows sh.fld.a.rows x.now d.now s.old) }
{
    let rounds = Rounds::of(m, q, sh.bin.a.rows, sh.fld.a.rows);
    let n = (rounds.shared as usize).min(16);
    let y = combine::inner_point(m, q, sh, d);
    let mut point = [0u64; 32];
    public_at(s, m, q, n, rounds.taus(), x, d, &mut point[..2 * n], &y)
}

// Clears the verifier's scratch.
pub(crate) fn clear(s: &mut [u64], m: usize, q: usize, sh: Shapes)
    ensures { s.new ≡ cleared_to (m + max sh.bin.a.rows sh.fld.a.rows + q) s.old }
{
    let rows = sh.bin.a.rows.max(sh.fld.a.rows);
    let n = m.saturating_add(rows).saturating_add(q);
    step::clear_front(n, s);
}
