// Equality tables: eq(p, i) is the product over j of p_j where bit j of i is 1, and of 1 + p_j where it is 0; a table from a start has
// that element times each.
ghost use Rattle.std.specs.Prelude.{◌≡◌, ◌+◌, ◌*◌, ◌/◌, ◌%◌, ◌^◌, ◌≤◌, ◌<◌, length, take};
ghost use Rattle.magnetar_field.specs.Gf128.{value};
ghost use Rattle.magnetar_field.specs.Number.{number_of};
ghost use Rattle.magnetar_field.specs.Words.{elements};
ghost use Rattle.magnetar_multilinear.specs.EqTable.{eq_factor, eq_at_bits, eq_table_from};
ghost use Rattle.magnetar_multilinear.specs.Doubling.{split_entry, doubled};
ghost use Rattle.magnetar_multilinear.specs.Entries.{answer, answered, eq_refusal, eq_out, eq_at_bits_refusal};

use magnetar_field::gf128::{Gf128, ONE};
use magnetar_field::refusal::{Refusal, require};
use magnetar_field::{gf128, words};

// The factor of one variable.
#[tactic(auto, unfolding(crate::specs::EqTable::eq_factor))]
pub fn eq_char2(x: Gf128, b: bool) -> Gf128
    ensures { value result ≡ eq_factor (value x) b }
{
    if b { x } else { gf128::add(ONE, x) }
}

// The value of eq at the point and the bits, bit 0 that of the point's first element.
// 11: not as many bits as the point has elements.
#[tactic(auto, using(crate::proofs::Refusals::answer_handed), unfolding(crate::specs::Entries::eq_at_bits_refusal))]
pub fn eq_table(point: &[u64], bits: &[bool]) -> Result<Gf128, Refusal>
    ensures { answer result ≡ answered (eq_at_bits_refusal point.now bits.now) (eq_at_bits (elements point.now) bits.now) }
{
    require(point.len() == 2 * bits.len(), Refusal::Length)?;
    Ok(eq_product(point, bits))
}

// Tables of eq.
#[derive(Clone, Copy)]
pub struct EqBits {}

impl EqBits {
    // The table of eq at the point, from start: each entry times it. From 1 it is the table itself, from 0 it is zeros.
    // 11: no point of at most 20 elements; 15: too little room; else out begins with the table.
    #[tactic(auto, using(magnetar_field::proofs::Handed::handed), unfolding(crate::specs::Entries::eq_refusal))]
    pub fn build(point: &[u64], start: Gf128, out: &mut [u64]) -> Result<(), Refusal>
        ensures refusal { number_of result ≡ eq_refusal point.now out.old }
        ensures table { out.new ≡ eq_out point.now (value start) out.old }
    {
        require(point.len() % 2 == 0 && point.len() <= 40, Refusal::Length)?;
        let need = table_words(point.len() / 2);
        require(need <= out.len(), Refusal::Room)?;
        fill(point, start, &mut out[..need]);
        Ok(())
    }
}

// How many words a table of 2^n elements has.
pub(crate) fn table_words(n: usize) -> usize
    requires { n < 63 }
    ensures { result ≡ 2 * 2 ^ n }
{
    2 << n
}

// The product of the factors of all variables.
fn eq_product(point: &[u64], bits: &[bool]) -> Gf128
    requires { length point.now ≡ 2 * length bits.now }
    ensures { value result ≡ eq_at_bits (elements point.now) bits.now }
{
    let mut acc = ONE;
    for j in (0..bits.len()).rev() {
        acc = gf128::mul(eq_char2(words::get(point, j), bits[j]), acc);
    }
    acc
}

// Splits entry k into the entries 2k and 2k + 1.
fn split_entry(out: &mut [u64], k: usize, r: Gf128)
    requires { 4 * k + 3 < length out.old }
    ensures { elements out.new ≡ split_entry (elements out.old) k (value r) }
{
    let v = words::get(out, k);
    let t = gf128::mul(v, r);
    words::put(out, 2 * k, gf128::add(v, t));
    words::put(out, 2 * k + 1, t);
}

// Splits each of the first m entries, the last one first.
fn expand(out: &mut [u64], m: usize, r: Gf128)
    requires { 4 * m ≤ length out.old }
    ensures { take (2 * m) (elements out.new) ≡ doubled (value r) (take m (elements out.old)) }
{
    for i in (0..m).rev() {
        split_entry(out, i, r);
    }
}

// Fills out with the table of eq at the point, from start: the last element first, one product and one sum for each entry
// that is split. The start costs no product: it stands where a plain table begins with 1.
fn fill(point: &[u64], start: Gf128, out: &mut [u64])
    requires { (length point.now % 2 ≡ 0) × (length point.now ≤ 40) × (length out.old ≡ 2 * 2 ^ (length point.now / 2)) }
    ensures { elements out.new ≡ eq_table_from (value start) (elements point.now) }
{
    words::put(out, 0, start);
    let mut m = 1;
    for j in (0..point.len() / 2).rev() {
        expand(out, m, words::get(point, j));
        m = 2 * m;
    }
}
