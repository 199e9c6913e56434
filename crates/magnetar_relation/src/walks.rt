// The products of a part of the entries with all logins of a batch. They are total: sizes past the limits, and words that are too few,
// leave every word as it is, and what is missing of the logins' words counts as 0.
ghost use Rattle.std.specs.Prelude.{◌≡◌, ◌-◌, take, drop};
ghost use Rattle.magnetar_field.specs.Gf128.{value};
ghost use Rattle.magnetar_matrix.specs.Matrix.{share};
ghost use Rattle.magnetar_matrix.specs.Numbers.{entry_of, entries_by};
ghost use Rattle.magnetar_relation.specs.Steps.{login_z};
ghost use Rattle.magnetar_relation.specs.EntryWalks.{fold_entries};
ghost use Rattle.magnetar_relation.specs.LoginSteps.{within_limits, cleared_blocks, added_logins, products_in};

use crate::{login, range, step};
use magnetar_field::gf128::Gf128;
use magnetar_layout::limits::{MOST_LOGINS, MOST_ROWS, MOST_WITNESS};
use magnetar_matrix::entries::{Entries, Entry};
use magnetar_matrix::step as element;

// q logins of w witness columns, with n rows each: their packed and their public words.
#[derive(Clone, Copy)]
struct Logins<'a> {
    q: usize,
    w: usize,
    n: usize,
    packed: &'a [u64],
    x: &'a [u64],
}

// q logins of w columns and n rows, and row r, are within the limits.
fn within_limits(q: usize, w: usize, n: usize, r: usize) -> bool
    ensures { result ≡ within_limits q w n r }
{
    q <= MOST_LOGINS && w <= MOST_WITNESS && n <= MOST_ROWS && r < n
}

// Clears the blocks of q logins, within the limits.
fn clear_blocks(q: usize, w: usize, n: usize, out: &mut [u64])
    ensures { out.new ≡ cleared_blocks q w n out.old }
{
    if within_limits(q, w, n, 0) {
        step::clear_front(q * n, out);
    }
}

// An entry's share of the product of login u.
fn share_of(of: Logins<'_>, u: usize, e: Entry) -> Gf128
    ensures { value result ≡ share (login_z of.entry.w of.entry.packed.now of.entry.x.now u) (entry_of e) }
{
    let bits = login::part(of.packed, of.w, u);
    let x = login::columns(of.x, of.w, u);
    element::scale(login::z_of(bits, x, of.w, e.col), e.value())
}

// Adds an entry's shares of all products, each at the entry's row of the login's block, within the limits.
fn add_shares(of: Logins<'_>, e: Entry, out: &mut [u64])
    ensures { out.new
        ≡ added_logins of.entry.q of.entry.w of.entry.n (λ u. share (login_z of.entry.w of.entry.packed.now of.entry.x.now u)) (entry_of e) out.old }
{
    if !within_limits(of.q, of.w, of.n, e.row) {
        return;
    }
    let k = of.q * of.n;
    for u in 0..of.q {
        let at = u * of.n + e.row;
        step::add_to(k, at, share_of(of, u, e), out);
    }
}

// Adds those of each entry.
fn add_products<E: Entries>(of: Logins<'_>, es: &E, out: &mut [u64])
    ensures { out.new
        ≡ fold_entries (added_logins of.entry.q of.entry.w of.entry.n (λ u. share (login_z of.entry.w of.entry.packed.now of.entry.x.now u)))
        (entries_by (E.numbers es.now)) out.old }
{
    for i in 0..es.len() {
        add_shares(of, es.at(i), out);
    }
}

// Sets the blocks of out, n elements for each of q logins of w columns, to the products of the entries from a to b.
pub fn write_products<E: Entries>(
    es: &E,
    a: usize,
    b: usize,
    packed: &[u64],
    x: &[u64],
    q: usize,
    w: usize,
    n: usize,
    out: &mut [u64],
)
    ensures { out.new ≡ products_in q w n packed.now x.now (take (b - a) (drop a (entries_by (E.numbers es.now)))) out.old }
{
    clear_blocks(q, w, n, out);
    let within = range::part(es, a, b.saturating_sub(a));
    add_products(Logins { q, w, n, packed, x }, &within, out);
}
