// A login's words, its public words and its z = (w, 1, x).
ghost use Rattle.std.specs.Prelude.{◌≡◌, ◌*◌, ◌≤◌, min, get_or};
ghost use Rattle.magnetar_field.specs.Gf128.{value};
ghost use Rattle.magnetar_field.specs.Words.{elements};
ghost use Rattle.magnetar_matrix.specs.Packed.{public_words, login_part, public_part, z_of};

use crate::range;
use magnetar_field::gf128::{Gf128, ONE};
use magnetar_field::words;
use magnetar_matrix::step;
use magnetar_r1cs::r1cs;

// Where the words of login u start among n words, k for each login; n where that is past them.
fn login_start(u: usize, k: usize, n: usize) -> usize
    ensures { result ≡ min (u * k) n }
{
    u.saturating_mul(k).min(n)
}

// The words of login u, a part of the packed words; an empty part where there are none.
pub fn part<'a>(packed: &'a [u64], w: usize, u: usize) -> &'a [u64]
    ensures { result.now ≡ login_part w packed.now u }
{
    let k = r1cs::login_words(w);
    let a = login_start(u, k, packed.len());
    &packed[a..range::after(a, k, packed.len())]
}

// The public words of login u, a part of those of the batch; an empty part where there are none. More witness columns than words are as
// good as any number of them.
pub fn columns<'a>(x: &'a [u64], w: usize, u: usize) -> &'a [u64]
    ensures { result.now ≡ public_part w x.now u }
{
    let k = (2 * w.min(x.len() + 2)).saturating_sub(2);
    let a = login_start(u, k, x.len());
    &x[a..range::after(a, k, x.len())]
}

// z at column c of the login whose words and public words these are.
pub fn z_of(login: &[u64], x: &[u64], w: usize, c: usize) -> Gf128
    ensures { value result ≡ get_or (z_of w login.now (elements x.now)) c 0 }
{
    if c < w {
        Gf128 {
            lo: step::bit_at(login, c),
            hi: 0,
        }
    } else if c == w {
        ONE
    } else {
        words::get(x, c - w - 1)
    }
}
