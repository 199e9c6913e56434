// The walk that gathers the outputs of several logins, 0 or 1 each, as the bits of one word for each row.
ghost use Rattle.std.specs.Prelude.{◌≡◌, ◌*◌, ◌<◌, ◌≤◌, length};
ghost use Rattle.magnetar_matrix.specs.Sum.{blocks};
ghost use Rattle.magnetar_matrix.specs.Matrix.{row_total};
ghost use Rattle.magnetar_matrix.specs.Packed.{login_words};
ghost use Rattle.magnetar_matrix.specs.Numbers.{entries_by, entry_of};
ghost use Rattle.magnetar_matrix.specs.Table.{added_at, raised};
ghost use Rattle.magnetar_r1cs.specs.Flips.{flip, flip_block};

use crate::r1cs;
use magnetar_field::words;
use magnetar_matrix::entries::{Entries, Entry};
use magnetar_matrix::step;

// The share of an entry, at place t.
fn add_flip(out: &mut [u64], e: Entry, w: usize, login: &[u64], t: usize)
    requires { t < 64 }
    ensures { out.new ≡ added_at out.old e.row (flip w login.now t (entry_of e)) }
{
    if e.lo % 2 != 0 {
        let bit = if e.col < w {
            step::bit_at(login, e.col)
        } else {
            1
        };
        step::add_word(out, e.row, step::shifted(bit, t));
    }
}

// Adds a login's outputs at place t.
fn add_flips<E: Entries>(es: &E, w: usize, login: &[u64], t: usize, out: &mut [u64])
    requires { t < 64 }
    ensures { out.new ≡ raised (row_total (flip w login.now t) (entries_by (E.numbers es.now))) out.old }
{
    match es.as_slices() {
        Some(s) => flips_of(&s, w, login, t, out),
        None => flips_of(es, w, login, t, out),
    }
}

// The walk itself.
#[inline(always)]
fn flips_of<E: Entries>(es: &E, w: usize, login: &[u64], t: usize, out: &mut [u64])
    requires { t < 64 }
    ensures { out.new ≡ raised (row_total (flip w login.now t) (entries_by (E.numbers es.now))) out.old }
{
    for i in 0..es.len() {
        add_flip(out, es.at(i), w, login, t);
    }
}

// The masks of the n logins low, d + low, 2 d + low, .. of the q logins.
fn mask_rows<E: Entries>(
    es: &E,
    packed: &[u64],
    q: usize,
    w: usize,
    d: usize,
    n: usize,
    low: usize,
    out: &mut [u64],
)
    requires { (w ≤ 32768) × (q ≤ 4096) × (n ≤ 64) × (n * d ≡ q) × (low < d) × (length packed.now ≡ q * login_words w) }
    ensures { out.new ≡ flip_block w packed.now (entries_by (E.numbers es.now)) d n (length out.old) low }
{
    let k = r1cs::login_words(w);
    words::clear(out);
    for t in 0..n {
        let u = t * d + low;
        let a = u * k;
        let b = a + k;
        add_flips(es, w, &packed[a..b], t, out);
    }
}

// The masks for each low below d, one behind the other, those of each being m words.
pub(crate) fn mask_all<E: Entries>(
    es: &E,
    packed: &[u64],
    q: usize,
    w: usize,
    d: usize,
    n: usize,
    m: usize,
    out: &mut [u64],
)
    requires { (w ≤ 32768) × (q ≤ 4096) × (n ≤ 64) × (n * d ≡ q) × (d ≤ 4096) × (m ≤ 65536)
        × (length packed.now ≡ q * login_words w) × (length out.old ≡ d * m) }
    ensures { out.new ≡ blocks (flip_block w packed.now (entries_by (E.numbers es.now)) d n m) d }
{
    for low in 0..d {
        let a = low * m;
        let b = a + m;
        mask_rows(es, packed, q, w, d, n, low, &mut out[a..b]);
    }
}
