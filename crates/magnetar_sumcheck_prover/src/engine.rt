// The rounds. A table is a slice of words that holds 2^n elements; a round binds one variable v, which pairs the entries that
// differ in bit v alone.
//
// Products: a message of the outer sum-check takes 6 for each pair of positions and 7 at the end, one of the inner sum-check 3 for
// each pair; a fold takes one for each pair and table; the eq table is folded by sums alone.
ghost use Rattle.std.specs.Prelude.{◌≡◌, List, [], ◌∷◌, ◌++◌, ℕ, ◌+◌, ◌*◌, ◌^◌, ◌<◌, ◌≤◌, length, map, get_or, drop};
ghost use Rattle.magnetar_field.specs.Gf128.{value, ◌⊕◌, ◌⊗◌};
ghost use Rattle.magnetar_field.specs.Number.{number_of};
ghost use Rattle.magnetar_field.specs.Words.{elements, words};
ghost use Rattle.magnetar_multilinear.specs.Multilinear.{insert_zero};
ghost use Rattle.magnetar_sumcheck_verifier.specs.Outer.{times_eq};
ghost use Rattle.magnetar_sumcheck_prover.specs.Sums.{Summand, sums, summed, outer_summand, inner_summand};
ghost use Rattle.magnetar_sumcheck_prover.specs.Entries.{is_table, outer_refusal, outer_out, inner_refusal, inner_out};

use magnetar_field::gf128::{self, Gf128, ONE, ZERO};
use magnetar_field::refusal::{Refusal, require};
use magnetar_field::{sizes, words};

// ---- Where the entries of pair i stand.

// 2^v.
fn block(v: usize) -> usize
    requires { v < 62 }
    ensures { result ≡ 2 ^ v }
{
    1 << v
}

// The index of the entry of pair i where the variable v is 0.
pub(crate) fn low(i: usize, v: usize) -> usize
    requires { (v < 62) × (i < 2 ^ 62) }
    ensures { (result ≡ insert_zero v i) × (result ≤ 2 * i) }
{
    i + (i >> v) * block(v)
}

// The index of the entry of pair i where the variable v is 1.
pub(crate) fn high(i: usize, v: usize) -> usize
    requires { (v < 62) × (i < 2 ^ 62) }
    ensures { result ≡ insert_zero v i + 2 ^ v }
{
    low(i, v) + block(v)
}

// Whether so many words are a table that has a variable v.
#[tactic(auto, unfolding(crate::specs::Entries::is_table))]
pub(crate) fn is_table(words: usize, v: usize) -> bool
    ensures { result ≡ is_table v words }
{
    words % 2 == 0 && sizes::is_power_of_two(words / 2) && v < sizes::log2(words / 2)
}

// The slope of the line through two entries.
pub(crate) fn slope(t: &[u64], lo: usize, hi: usize) -> Gf128
    ensures { value result ≡ get_or (elements t.now) lo 0 ⊕ get_or (elements t.now) hi 0 }
{
    words::get(t, lo) + words::get(t, hi)
}

// ---- One pass over the pairs.

// What is summed: a polynomial in the entries of the tables, of which it is at most a product of two.
trait Summed {
    ghost summand: { Self → Summand };

    // acc with its value at the entries k, which are of pair i.
    fn add_at(&self, acc: Gf128, i: usize, k: usize) -> Gf128
        ensures { value result ≡ value acc ⊕ (summand self.now).at i k };

    // acc with its highest coefficient on the lines through the entries at lo and hi, those of pair i.
    fn add_top(&self, acc: Gf128, i: usize, lo: usize, hi: usize) -> Gf128
        ensures { value result ≡ value acc ⊕ (summand self.now).top i lo hi };
}

// Three sums over pairs: of the constant coefficients, of the values at 1, and of the highest coefficients.
#[derive(Clone, Copy)]
struct Sums {
    zero: Gf128,
    one: Gf128,
    top: Gf128,
}

impl Sums {
    // Over no pairs.
    #[tactic(auto, unfolding(crate::specs::Sums::sums))]
    fn none() -> Sums
        ensures { sums result ≡ 0 ∷ 0 ∷ 0 ∷ [] }
    {
        Sums {
            zero: ZERO,
            one: ZERO,
            top: ZERO,
        }
    }

    // With those of pair i.
    fn with_pair<S: Summed>(self, of: &S, v: usize, i: usize) -> Sums
        requires bounds { (v < 62) × (i < 2 ^ 62) }
        requires so_far { sums self ≡ summed v (S.summand of.now) i }
        ensures { sums result ≡ summed v (S.summand of.now) (i + 1) }
    {
        let lo = low(i, v);
        let hi = high(i, v);
        Sums {
            zero: of.add_at(self.zero, i, lo),
            one: of.add_at(self.one, i, hi),
            top: of.add_top(self.top, i, lo, hi),
        }
    }

    // Over n pairs.
    fn over<S: Summed>(of: &S, v: usize, n: usize) -> Sums
        requires { (v < 62) × (n ≤ 2 ^ 62) }
        ensures { sums result ≡ summed v (S.summand of.now) n }
    {
        let mut s = Sums::none();
        for i in 0..n {
            s = s.with_pair(of, v, i);
        }
        s
    }

    // The middle coefficient: the sum of all three.
    fn middle(self) -> Gf128
        ensures { value result ≡ value self.zero ⊕ value self.one ⊕ value self.top }
    {
        self.zero + self.one + self.top
    }
}

// Stores the elements at the front of out.
fn put_all(out: &mut [u64], es: &[Gf128])
    requires { 2 * length es.now ≤ length out.old }
    ensures { out.new ≡ words (map value es.now) ++ drop (2 * length es.now) out.old }
{
    for (i, e) in es.iter().enumerate() {
        words::put(out, i, *e);
    }
}

// ---- The outer sum-check.

// e_i (a b + c).
#[derive(Clone, Copy)]
struct Outer<'a> {
    e: &'a [u64],
    a: &'a [u64],
    b: &'a [u64],
    c: &'a [u64],
}

#[tactic(auto, unfolding(crate::specs::Sums::outer_summand))]
impl Summed for Outer<'_> {
    ghost summand = { λ s. outer_summand (elements s.e.now) (elements s.a.now) (elements s.b.now) (elements s.c.now) };

    // Two products.
    fn add_at(&self, acc: Gf128, i: usize, k: usize) -> Gf128 {
        let ab = gf128::mul(words::get(self.a, k), words::get(self.b, k));
        let q = ab + words::get(self.c, k);
        acc + gf128::mul(words::get(self.e, i), q)
    }

    // Two products.
    fn add_top(&self, acc: Gf128, i: usize, lo: usize, hi: usize) -> Gf128 {
        let q = gf128::mul(slope(self.a, lo, hi), slope(self.b, lo, hi));
        acc + gf128::mul(words::get(self.e, i), q)
    }
}

// a b + c d.
fn fused(a: Gf128, b: Gf128, c: Gf128, d: Gf128) -> Gf128
    ensures { value result ≡ value a ⊗ value b ⊕ value c ⊗ value d }
{
    gf128::mul(a, b) + gf128::mul(c, d)
}

// Stores the message k ((1 + t) + X) q at the front of out, where q has the given sums. Seven products.
#[tactic(auto, using(crate::proofs::Message::times_eq_parts), unfolding(magnetar_sumcheck_verifier::specs::Outer::times_eq))]
fn put_outer(out: &mut [u64], s: Sums, k: Gf128, t: Gf128)
    requires { 8 ≤ length out.old }
    ensures { out.new ≡ words (times_eq (value k) (value t) (value s.zero) (value s.zero ⊕ value s.one ⊕ value s.top) (value s.top)) ++ drop 8 out.old }
{
    let q1 = s.middle();
    let kl = gf128::mul(k, ONE + t);
    let c0 = gf128::mul(kl, s.zero);
    let c1 = fused(kl, q1, k, s.zero);
    let c2 = fused(kl, s.top, k, q1);
    let c3 = gf128::mul(k, s.top);
    put_all(out, &[c0, c1, c2, c3]);
}

// The message of a round of the outer sum-check that binds variable v of the tables a, b, c: 4 coefficients at the front of out.
// e is the eq table over the variables that stay, k the product of eq(tau_j, r_j) over those that are bound, t the tau of v.
// 11: no tables of one size with a variable v, or e not half their size; 15: out shorter than 8 words.
#[tactic(auto, using(magnetar_field::proofs::Handed::handed), unfolding(crate::specs::Entries::outer_refusal))]
pub fn outer_message(
    out: &mut [u64],
    e: &[u64],
    a: &[u64],
    b: &[u64],
    c: &[u64],
    v: usize,
    k: Gf128,
    t: Gf128,
) -> Result<(), Refusal>
    ensures refusal { number_of result ≡ outer_refusal (length out.old) (length e.now) (length a.now) (length b.now) (length c.now) v }
    ensures message { out.new ≡ outer_out out.old e.now a.now b.now c.now v (value k) (value t) }
{
    require(is_table(a.len(), v), Refusal::Length)?;
    require(b.len() == a.len() && c.len() == a.len(), Refusal::Length)?;
    require(e.len() == a.len() / 2, Refusal::Length)?;
    require(out.len() >= 8, Refusal::Room)?;
    let s = Sums::over(&Outer { e, a, b, c }, v, e.len() / 2);
    put_outer(out, s, k, t);
    Ok(())
}

// ---- The inner sum-check.

// t z.
#[derive(Clone, Copy)]
struct Inner<'a> {
    t: &'a [u64],
    z: &'a [u64],
}

#[tactic(auto, unfolding(crate::specs::Sums::inner_summand))]
impl Summed for Inner<'_> {
    ghost summand = { λ s. inner_summand (elements s.t.now) (elements s.z.now) };

    // One product.
    fn add_at(&self, acc: Gf128, _i: usize, k: usize) -> Gf128 {
        acc + gf128::mul(words::get(self.t, k), words::get(self.z, k))
    }

    // One product.
    fn add_top(&self, acc: Gf128, _i: usize, lo: usize, hi: usize) -> Gf128 {
        acc + gf128::mul(slope(self.t, lo, hi), slope(self.z, lo, hi))
    }
}

// The message of a round of the inner sum-check that binds variable v of the tables t and z: 3 coefficients at the front of out.
// 11: no tables of one size with a variable v; 15: out shorter than 6 words.
#[tactic(auto, using(magnetar_field::proofs::Handed::handed), unfolding(crate::specs::Entries::inner_refusal))]
pub fn inner_message(out: &mut [u64], t: &[u64], z: &[u64], v: usize) -> Result<(), Refusal>
    ensures refusal { number_of result ≡ inner_refusal (length out.old) (length t.now) (length z.now) v }
    ensures message { out.new ≡ inner_out out.old t.now z.now v }
{
    require(is_table(t.len(), v), Refusal::Length)?;
    require(z.len() == t.len(), Refusal::Length)?;
    require(out.len() >= 6, Refusal::Room)?;
    let s = Sums::over(&Inner { t, z }, v, t.len() / 4);
    let q1 = s.middle();
    put_all(out, &[s.zero, q1, s.top]);
    Ok(())
}
