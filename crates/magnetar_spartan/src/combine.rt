// The six matrices of both systems combined at the words d of the draws: the table for the prover, its value at the inner point for the
// verifier; sh are the shapes of the matrices.
ghost use Rattle.std.specs.Prelude.{◌≡◌, [], ◌≤◌};
ghost use Rattle.magnetar_field.specs.Gf128.{value};
ghost use Rattle.magnetar_relation.specs.Rules.{relation_of};
ghost use Rattle.magnetar_relation.specs.Rules.{rules_by};
ghost use Rattle.magnetar_spartan.specs.Table.{inner_at, window, points_at, table_at, table_value, value_left};

use magnetar_batch::{combo, eval};
use magnetar_field::gf128::{Gf128, ZERO};
use magnetar_matrix::entries::Entries;
use magnetar_protocol::rounds::Rounds;
use magnetar_relation::shapes::Shapes;

// N words from word k on; the last N where there are fewer.
pub(crate) fn window<const N: usize>(k: usize, d: &[u64; 256]) -> [u64; N]
    requires { N ≤ 256 }
    ensures { result ≡ window N k d.now }
{
    let a = k.min(256 - N);
    let mut p = [0u64; N];
    p.copy_from_slice(&d[a..a + N]);
    p
}

// The alphas and the row points of bin and fld, and what comes behind each point.
#[derive(Clone, Copy)]
struct Points {
    alphas: [u64; 12],
    bin: [u64; 32],
    fld: [u64; 32],
}

// Those among the words d of the draws.
fn points_among(m: usize, q: usize, sh: Shapes, d: &[u64; 256]) -> Points
    ensures { result ≡ points_at q sh.bin.a.rows sh.fld.a.rows d.now }
{
    let rounds = Rounds::of(m, q, sh.bin.a.rows, sh.fld.a.rows);
    let place = rounds.taus() + rounds.shared as usize;
    Points {
        alphas: window(2 * rounds.alphas(), d),
        bin: window(2 * place, d),
        fld: window(2 * (place + rounds.bin as usize), d),
    }
}

// The inner point, and what comes behind it.
pub(crate) fn inner_point(m: usize, q: usize, sh: Shapes, d: &[u64; 256]) -> [u64; 32]
    ensures { result ≡ window 32 (inner_at q sh.bin.a.rows sh.fld.a.rows) d.now }
{
    let rounds = Rounds::of(m, q, sh.bin.a.rows, sh.fld.a.rows);
    window(2 * (rounds.alphas() + 6), d)
}

// The combined table in front of s.
pub(crate) fn combine_at<E: Entries>(
    s: &mut [u64],
    m: usize,
    q: usize,
    sh: Shapes,
    d: &[u64; 256],
    es: &E,
)
    ensures { s.new ≡ table_at (relation_of (rules_by m q [] sh (E.numbers es.now))) d.now s.old }
{
    let p = points_among(m, q, sh, d);
    combo::combine(s, m, sh, p.alphas, p.bin, p.fld, es);
}

// The value of the combined table at the inner point; 0 where the shapes or the room are refused.
pub(crate) fn value_at<E: Entries>(
    s: &mut [u64],
    m: usize,
    q: usize,
    sh: Shapes,
    d: &[u64; 256],
    es: &E,
) -> Gf128
    ensures { let R = rules_by m q [] sh (E.numbers es.now) in (value result ≡ table_value R d.now s.old) × (s.new ≡ value_left R d.now s.old) }
{
    let p = points_among(m, q, sh, d);
    let y = inner_point(m, q, sh, d);
    eval::eval_m_combo(s, m, sh, p.alphas, p.bin, p.fld, y, es).unwrap_or(ZERO)
}
