// The eq factor: its table over the variables that stay, the product over those that are bound, and its value at a point.
ghost use Rattle.std.specs.Prelude.{◌≡◌, ◌++◌, ◌+◌, ◌*◌, ◌<◌, ◌≤◌, length, get_or, set, drop};
ghost use Rattle.magnetar_field.specs.Gf128.{value, ◌⊕◌, ◌⊗◌};
ghost use Rattle.magnetar_field.specs.Number.{number_of};
ghost use Rattle.magnetar_field.specs.Tabulate.{tabulate};
ghost use Rattle.magnetar_field.specs.Words.{elements};
ghost use Rattle.magnetar_multilinear.specs.Entries.{answer, answered};
ghost use Rattle.magnetar_sumcheck_verifier.specs.Order.{slope, point, place_of, eq_points};
ghost use Rattle.magnetar_sumcheck_prover.specs.Entries.{drop_refusal, drop_out, points_refusal};

use crate::engine;
use magnetar_field::gf128::{self, Gf128, ONE};
use magnetar_field::refusal::{Refusal, require};
use magnetar_field::words;

// The eq table without variable v, at the table's front: where v is 0 plus where v is 1, since the two factors add up to 1. The
// table's second half stays. No product.
// 11: the words are no table of 2^n elements, or it has no variable v.
#[tactic(auto, using(magnetar_field::proofs::Handed::handed), unfolding(crate::specs::Entries::drop_refusal))]
pub fn drop_var(table: &mut [u64], v: usize) -> Result<(), Refusal>
    ensures refusal { number_of result ≡ drop_refusal (length table.old) v }
    ensures dropped { table.new ≡ drop_out table.old v }
{
    require(engine::is_table(table.len(), v), Refusal::Length)?;
    let n = table.len() / 4;
    drop_pairs(table, v, n);
    Ok(())
}

// Entry i becomes the sum of the entries at lo and hi.
fn drop_entry(t: &mut [u64], i: usize, lo: usize, hi: usize)
    ensures { elements t.new ≡ set (elements t.old) i (get_or (elements t.old) lo 0 ⊕ get_or (elements t.old) hi 0) }
{
    let s = engine::slope(t, lo, hi);
    words::put(t, i, s);
}

// The sums of the first n pairs, the first one first: it reads only what it has not overwritten.
fn drop_pairs(t: &mut [u64], v: usize, n: usize)
    requires { (v < 62) × (4 * n ≤ length t.old) }
    ensures { elements t.new ≡ tabulate (slope v (elements t.old)) n ++ drop n (elements t.old) }
{
    for i in 0..n {
        drop_entry(t, i, engine::low(i, v), engine::high(i, v));
    }
}

// The product over the bound variables with one more: k (1 + t + r).
pub fn eq_next(k: Gf128, t: Gf128, r: Gf128) -> Gf128
    ensures { value result ≡ value k ⊗ (1 ⊕ value t ⊕ value r) }
{
    gf128::mul(k, ONE + t + r)
}

// eq of tau and the point that the challenges make: the product over j of 1 + tau_j + p_j. The first `high` challenges belong to
// the highest variables, the highest first, and the others to the rest, the lowest first (`BindOrder::point`). With high = 0 the
// order is increasing. One product for each variable.
// 11: not as many challenges as elements of tau, an odd number of words, or more high variables than there are.
#[tactic(auto, using(magnetar_multilinear::proofs::Refusals::answer_handed), unfolding(crate::specs::Entries::points_refusal))]
pub fn eq_points(tau: &[u64], challenges: &[u64], high: usize) -> Result<Gf128, Refusal>
    ensures { answer result
        ≡ answered (points_refusal (length tau.now) (length challenges.now) high) (eq_points (elements tau.now) (point high (elements challenges.now))) }
{
    let n = tau.len() / 2;
    require(tau.len() % 2 == 0, Refusal::Length)?;
    require(challenges.len() == tau.len(), Refusal::Length)?;
    require(high <= n, Refusal::Length)?;
    Ok(eq_product(tau, challenges, high, n))
}

// In which round variable j of n is bound.
#[tactic(auto, unfolding(magnetar_sumcheck_verifier::specs::Order::place_of))]
fn place(high: usize, n: usize, j: usize) -> usize
    requires { (j < n) × (high ≤ n) }
    ensures { result ≡ place_of high n j }
{
    if j < n - high { high + j } else { n - 1 - j }
}

// The product with one factor more: acc (1 + tau_j + r_k).
fn eq_factor(acc: Gf128, tau: &[u64], challenges: &[u64], j: usize, k: usize) -> Gf128
    ensures { value result ≡ (1 ⊕ get_or (elements tau.now) j 0 ⊕ get_or (elements challenges.now) k 0) ⊗ value acc }
{
    let f = ONE + words::get(tau, j) + words::get(challenges, k);
    gf128::mul(f, acc)
}

// The product of all n factors.
fn eq_product(tau: &[u64], challenges: &[u64], high: usize, n: usize) -> Gf128
    requires { (high ≤ n) × (length tau.now ≡ 2 * n) × (length challenges.now ≡ 2 * n) }
    ensures { value result ≡ eq_points (elements tau.now) (point high (elements challenges.now)) }
{
    let mut acc = ONE;
    for j in (0..n).rev() {
        acc = eq_factor(acc, tau, challenges, j, place(high, n, j));
    }
    acc
}
