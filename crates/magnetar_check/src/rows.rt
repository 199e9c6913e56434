// The first row that does not hold.
ghost use Rattle.std.specs.Prelude.{◌≡◌, ◌<◌, unwrap_or, IfSome};
ghost use Rattle.magnetar_field.specs.Words.{elements};
ghost use Rattle.magnetar_matrix.specs.RowCheck.{first_not, holds_at};

use magnetar_field::{gf128, words};

// The first row that does not hold of n rows. s holds the products A z, B z and C z, n elements each, one behind the other; past its end
// stands 0.
pub(crate) fn first_failing(s: &[u64], n: usize) -> Option<usize>
    ensures first { unwrap_or result n ≡ first_not (holds_at (elements s.now) n) n }
    ensures inside { IfSome result (λ i. i < n) }
{
    if n > s.len() {
        return None;
    }
    for row in 0..n {
        let p = gf128::mul(words::get(s, row), words::get(s, n + row));
        // By name, for its law: it speaks of elements, and == of words.
        if !gf128::equal(p, words::get(s, 2 * n + row)) {
            return Some(row);
        }
    }
    None
}
