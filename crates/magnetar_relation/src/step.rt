// What one entry does to the words of a table, on numbers. Each step is total: it leaves words that are too few as they are.
ghost use Rattle.std.specs.Prelude.{◌≡◌};
ghost use Rattle.magnetar_field.specs.Gf128.{value};
ghost use Rattle.magnetar_relation.specs.Steps.{cleared_to, added_to, front, between};

use magnetar_field::gf128::{Gf128, ZERO};
use magnetar_field::words;
use magnetar_matrix::step;

// Clears the first n elements.
pub fn clear_front(n: usize, out: &mut [u64])
    ensures { out.new ≡ cleared_to n out.old }
{
    if n <= out.len() / 2 {
        words::clear(&mut out[..2 * n]);
    }
}

// Adds v to element k of the first n.
pub fn add_to(n: usize, k: usize, v: Gf128, out: &mut [u64])
    ensures { out.new ≡ added_to n k (value v) out.old }
{
    if n <= out.len() / 2 {
        step::add_at(&mut out[..2 * n], k, v);
    }
}

// Element k of the first n.
fn get_front(n: usize, s: &[u64], k: usize) -> Gf128
    ensures { value result ≡ front n s.now k }
{
    if n <= s.len() / 2 {
        words::get(&s[..2 * n], k)
    } else {
        words::get(s, k)
    }
}

// Element k of the m behind the first n.
pub fn get_between(n: usize, m: usize, s: &[u64], k: usize) -> Gf128
    ensures { value result ≡ between n m s.now k }
{
    if n <= s.len() / 2 {
        get_front(m, &s[2 * n..], k)
    } else {
        ZERO
    }
}
