// Multilinear tables: entry i of a table of 2^n entries is the value at the bits of i, bit 0 that of variable 0.
ghost use Rattle.std.specs.Prelude.{◌≡◌, ◌++◌, ◌+◌, ◌*◌, ◌/◌, ◌%◌, ◌^◌, ◌≤◌, ◌<◌, length, get_or, set, take, drop, replicate};
ghost use Rattle.magnetar_field.specs.Gf128.{value};
ghost use Rattle.magnetar_field.specs.Number.{number_of};
ghost use Rattle.magnetar_field.specs.Words.{elements};
ghost use Rattle.magnetar_multilinear.specs.Multilinear.{dot, mle, line, bind_var};
ghost use Rattle.magnetar_multilinear.specs.Binding.{BindFits};
ghost use Rattle.magnetar_multilinear.specs.Entries.{answer, answered, mle_refusal, mle_scratch, bind_refusal, bind_out};

use crate::eq;
use magnetar_field::gf128::{Gf128, ZERO};
use magnetar_field::refusal::{Refusal, require};
use magnetar_field::{gf128, sizes, words};

// Binds variable var of the table to r: the table's first half becomes the bound table, its second half stays.
// 11: the words are no table of 2^n elements, or it has no variable var.
#[tactic(auto, using(magnetar_field::proofs::Handed::handed), unfolding(crate::specs::Entries::bind_refusal))]
pub fn bind_var(table: &mut [u64], var: usize, r: Gf128) -> Result<(), Refusal>
    ensures refusal { number_of result ≡ bind_refusal table.old var }
    ensures bound { table.new ≡ bind_out table.old var (value r) }
{
    let n = sizes::log2(table.len() / 2);
    require(
        table.len() == eq::table_words(n) && var < n,
        Refusal::Length,
    )?;
    let pairs = table.len() / 4;
    bind(table, pairs, var, r);
    Ok(())
}

// The value at the point of the multilinear polynomial with the given table of values.
// 11: no point of at most 20 elements, or not a value for each entry; 15: too little scratch.
#[tactic(auto, using(crate::proofs::Refusals::answer_handed), unfolding(crate::specs::Entries::mle_refusal))]
pub fn eval_mle(values: &[u64], point: &[u64], scratch: &mut [u64]) -> Result<Gf128, Refusal>
    ensures value { answer result ≡ answered (mle_refusal values.now point.now scratch.old) (mle (elements values.now) (elements point.now)) }
    ensures cleared { scratch.new ≡ mle_scratch values.now point.now scratch.old }
{
    require(point.len() % 2 == 0 && point.len() <= 40, Refusal::Length)?;
    let need = eq::table_words(point.len() / 2);
    require(values.len() == need, Refusal::Length)?;
    require(need <= scratch.len(), Refusal::Room)?;
    Ok(eval_in(values, point, &mut scratch[..need]))
}

// The sum of the products of the elements of two slices, index by index, as many as both have.
pub fn dot(xs: &[u64], ys: &[u64]) -> Gf128
    ensures { value result ≡ dot (elements xs.now) (elements ys.now) }
{
    let mut acc = ZERO;
    for j in (0..xs.len().min(ys.len()) / 2).rev() {
        acc = gf128::add(gf128::mul(words::get(xs, j), words::get(ys, j)), acc);
    }
    acc
}

// Entry i becomes the line at r through the entries k and k + block.
fn bind_entry(t: &mut [u64], i: usize, k: usize, block: usize, r: Gf128)
    requires { k + block < 2 ^ 64 }
    ensures { elements t.new ≡ set (elements t.old) i (line (value r) (get_or (elements t.old) k 0) (get_or (elements t.old) (k + block) 0)) }
{
    let a = words::get(t, k);
    let b = words::get(t, k + block);
    words::put(t, i, gf128::add(a, gf128::mul(r, gf128::add(a, b))));
}

// Binds variable v of the first 2 * pairs elements: the first `pairs` elements become the bound table, the others stay.
fn bind(t: &mut [u64], pairs: usize, v: usize, r: Gf128)
    requires { BindFits (length t.old) pairs v }
    ensures { elements t.new ≡ bind_var v (value r) (take (2 * pairs) (elements t.old)) ++ drop pairs (elements t.old) }
{
    let block = sizes::power_of_two(v);
    for i in 0..pairs {
        bind_entry(t, i, insert_zero(i, block), block, r);
    }
}

// i with the bit 0 put in at the place of block, a power of two.
fn insert_zero(i: usize, block: usize) -> usize
    requires { (i < 2 ^ 62) × (0 < block) × (block < 2 ^ 62) }
    ensures { result ≡ i / block * (2 * block) + i % block }
{
    i / block * (2 * block) + i % block
}

// Binds every variable, the highest first; entry 0 is then the value at the point.
fn bind_all(point: &[u64], t: &mut [u64])
    requires { (length point.now % 2 ≡ 0) × (length point.now ≤ 40) × (length t.old ≡ 2 * 2 ^ (length point.now / 2)) }
    ensures { get_or (elements t.new) 0 0 ≡ mle (elements t.old) (elements point.now) }
{
    let mut half = t.len() / 2;
    for j in (0..point.len() / 2).rev() {
        half = half / 2;
        bind(t, half, j, words::get(point, j));
    }
}

// The value at the point, with t as room, which is left zero.
fn eval_in(values: &[u64], point: &[u64], t: &mut [u64]) -> Gf128
    requires point { (length point.now % 2 ≡ 0) × (length point.now ≤ 40) }
    requires sizes { (length values.now ≡ 2 * 2 ^ (length point.now / 2)) × (length t.old ≡ length values.now) }
    ensures value { value result ≡ mle (elements values.now) (elements point.now) }
    ensures cleared { t.new ≡ replicate (length values.now) 0 }
{
    words::copy(values, t);
    bind_all(point, t);
    let e = words::get(t, 0);
    words::clear(t);
    e
}
