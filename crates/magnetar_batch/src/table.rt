// What the combined table is made of: the eq table behind it, its room cleared, its arguments as arrays, and its refusals. Each is
// total: it leaves words that are too few as they are.
ghost use Rattle.std.specs.Prelude.{◌≡◌, ◌+◌, ◌*◌, max, take, nat_lt, slice_index};
ghost use Rattle.magnetar_field.specs.Gf128.{value};
ghost use Rattle.magnetar_field.specs.Number.{number_of};
ghost use Rattle.magnetar_field.specs.Words.{elements, overlaid};
ghost use Rattle.magnetar_layout.specs.Tests.{first_refusal};
ghost use Rattle.magnetar_matrix.specs.Numbers.{entry_of};
ghost use Rattle.magnetar_relation.specs.Steps.{cleared_to, column_added};
ghost use Rattle.magnetar_batch.specs.Systems.{point_tests, table_scratch_tests};
ghost use Rattle.magnetar_batch.specs.TableSteps.{eq_behind, cleared_behind, padded, point_in};

use magnetar_field::gf128::Gf128;
use magnetar_field::refusal::{Refusal, require};
use magnetar_field::{sizes, words};
use magnetar_matrix::entries::Entry;
use magnetar_matrix::step as element;
use magnetar_multilinear::eq::EqBits;
use magnetar_relation::step;

// Puts the eq table of the point p for n rows or columns, from c, behind the first m elements.
pub(crate) fn eq_from(s: &mut [u64], m: usize, n: usize, c: Gf128, p: [u64; 32])
    ensures { s.new ≡ eq_behind m (value c) (point_in n p) s.old }
{
    let l = (2 * sizes::log2(n)).min(32);
    if m <= s.len() / 2 {
        let _done = EqBits::build(&p[..l], c, &mut s[2 * m..]);
    }
}

// Puts the eq table of the row point p, for n rows, behind the first m elements, from alpha k: no later step multiplies by it.
pub(crate) fn eq_behind(s: &mut [u64], m: usize, n: usize, al: [u64; 12], k: usize, p: [u64; 32])
    ensures { s.new ≡ eq_behind m (slice_index (elements al) k) (point_in n p) s.old }
{
    let c = words::get(&al, k);
    eq_from(s, m, n, c, p);
}

// Adds an entry's value times the element at its row, of the n behind the first m, to the element at its column.
#[tactic(auto, unfolding(magnetar_relation::specs::Steps::column_added))]
pub(crate) fn add_column(m: usize, n: usize, s: &mut [u64], e: Entry)
    ensures { s.new ≡ column_added m n (entry_of e) s.old }
{
    let f = step::get_between(m, n, s, e.row);
    step::add_to(m, e.col, element::scale(e.value(), f), s);
}

// m elements and k elements do not fit in so many words.
pub(crate) fn is_over(m: usize, k: usize, room: usize) -> bool
    ensures { result ≡ nat_lt room (2 * m + 2 * k) }
{
    m.saturating_add(k) > room / 2
}

// Clears as many elements behind the first m as the larger row count.
pub(crate) fn clear_behind(s: &mut [u64], m: usize, nb: usize, nf: usize)
    ensures { s.new ≡ cleared_behind m (max nb nf) s.old }
{
    let k = nb.max(nf);
    if !is_over(m, k, s.len()) {
        words::clear(&mut s[2 * m..2 * m + 2 * k]);
    }
}

// The words, as many as there is room for, and 0 behind them.
pub(crate) fn padded<const N: usize>(ws: &[u64]) -> [u64; N]
    ensures { result ≡ padded N ws.now }
{
    let mut a = [0u64; N];
    words::copy(ws, &mut a);
    a
}

// Moves the first m elements of s to out, and leaves 0 in their place.
pub(crate) fn move_table(m: usize, s: &mut [u64], out: &mut [u64])
    ensures { (out.new ≡ overlaid (take (2 * m) s.old) out.old) × (s.new ≡ cleared_to m s.old) }
{
    if m <= s.len() / 2 {
        words::copy(&s[..2 * m], out);
        words::clear(&mut s[..2 * m]);
    } else {
        words::copy(s, out);
    }
}

// 11: words of the alphas, and of the points for n and k rows.
#[tactic(auto, using(magnetar_layout::proofs::Passing::passing), unfolding(magnetar_layout::specs::Tests::or_refuse))]
pub(crate) fn points_fit(n: usize, k: usize, al: usize, pb: usize, pf: usize) -> Result<(), Refusal>
    ensures { number_of result ≡ first_refusal 0 (point_tests n k al pb pf) }
{
    require(al == 12, Refusal::Length)?;
    require(pb == 2 * sizes::log2(n), Refusal::Length)?;
    require(pf == 2 * sizes::log2(k), Refusal::Length)
}

// 15: words of scratch and of output, for m columns and for n and k rows.
#[tactic(auto, using(crate::proofs::Chains::roomy), unfolding(magnetar_layout::specs::Tests::or_refuse))]
pub(crate) fn room_fits(
    m: usize,
    n: usize,
    k: usize,
    scratch: usize,
    out: usize,
) -> Result<(), Refusal>
    ensures { number_of result ≡ first_refusal 0 (table_scratch_tests m n k scratch out) }
{
    require(!is_over(m, n.max(k), scratch), Refusal::Room)?;
    require(m <= out / 2, Refusal::Room)
}
