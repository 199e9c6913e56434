// What the combined table's value at one column point is made of: the eq table of the column point, a table in front taken at its row point by
// binding in place, and three values weighed by their alphas.
ghost use Rattle.std.specs.Prelude.{◌≡◌, ◌+◌, ◌*◌, ◌^◌, ◌≤◌, min, ◌++◌, length, take, drop, replicate};
ghost use Rattle.magnetar_field.specs.Gf128.{value};
ghost use Rattle.magnetar_field.specs.Words.{elements};
ghost use Rattle.magnetar_multilinear.specs.Multilinear.{mle, bind_var};
ghost use Rattle.magnetar_relation.specs.Steps.{cleared_to};
ghost use Rattle.magnetar_batch.specs.TableSteps.{eq_behind, point_in};
ghost use Rattle.magnetar_batch.specs.ValueSteps.{front_value, front_cleared, weighed};

use crate::table;
use magnetar_field::gf128::{self, Gf128};
use magnetar_field::{sizes, words};
use magnetar_layout::limits::MOST_ROWS;
use magnetar_layout::tests;
use magnetar_multilinear::multilinear;
use magnetar_relation::step;

// Puts the eq table of the column point c, for m columns, behind the first k elements.
pub(crate) fn columns_behind(s: &mut [u64], k: usize, m: usize, c: [u64; 32])
    ensures { s.new ≡ eq_behind k 1 (point_in m c) s.old }
{
    table::eq_from(s, k, m, gf128::ONE, c);
}

// Binds variable j of the first 2^(j+1) elements to r: the first 2^j become the bound table.
fn bind_highest(t: &mut [u64], j: usize, r: Gf128)
    requires { (j ≤ 15) × (4 * 2 ^ j ≤ length t.old) }
    ensures { elements t.new ≡ bind_var j (value r) (take (2 * 2 ^ j) (elements t.old)) ++ drop (2 ^ j) (elements t.old) }
{
    let e = 4 * sizes::power_of_two(j);
    let _done = multilinear::bind_var(&mut t[..e], j, r);
}

// The value of the table at the point, every variable bound in place, the highest first. The table is left 0.
fn bind_all(t: &mut [u64], p: &[u64], n: usize) -> Gf128
    requires { (n ≤ 16) × (length p.now ≡ 2 * n) × (length t.old ≡ 2 * 2 ^ n) }
    ensures { (value result ≡ mle (elements t.old) (elements p.now)) × (t.new ≡ replicate (length t.old) 0) }
{
    for j in (0..n).rev() {
        bind_highest(t, j, words::get(p, j));
    }
    let v = words::get(t, 0);
    words::clear(t);
    v
}

// The value at the point p, for n rows, of the table of the first n elements, which are left 0. Where n is no such size, or there are
// fewer elements, it is 0 and nothing changes.
#[tactic(auto, using(crate::proofs::Chains::passed))]
pub(crate) fn front_value(n: usize, p: [u64; 32], s: &mut [u64]) -> Gf128
    ensures { (value result ≡ front_value n p s.old) × (s.new ≡ front_cleared n s.old) }
{
    if tests::is_size(1, MOST_ROWS, n) && n <= s.len() / 2 {
        let l = sizes::log2(n);
        bind_all(&mut s[..2 * n], &p[..2 * l], l)
    } else {
        gf128::ZERO
    }
}

// a, b and c, times the alphas j, j + 1 and j + 2, added up; j is cut at 3.
pub(crate) fn weigh(al: [u64; 12], j: usize, a: Gf128, b: Gf128, c: Gf128) -> Gf128
    ensures { value result ≡ weighed al (min j 3) (value a) (value b) (value c) }
{
    let i = j.min(3);
    let x = gf128::mul(words::get(&al, i), a);
    let y = gf128::mul(words::get(&al, i + 1), b);
    let z = gf128::mul(words::get(&al, i + 2), c);
    x + y + z
}

// Clears the first k elements and the m behind them.
#[tactic(auto, using(crate::proofs::Chains::none_cleared))]
pub(crate) fn clear_both(s: &mut [u64], k: usize, m: usize)
    ensures { s.new ≡ cleared_to (k + m) s.old }
{
    if !table::is_over(k, m, s.len()) {
        step::clear_front(k + m, s);
    }
}
