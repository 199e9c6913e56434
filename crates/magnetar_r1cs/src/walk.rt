// The walks over a matrix's entries. Each adds an amount for each entry, at the entry's row, to a table of elements.
ghost use Rattle.std.specs.Prelude.{◌≡◌, ◌<◌, ◌≤◌, true, leb};
ghost use Rattle.magnetar_field.specs.Gf128.{value, ◌⊗◌};
ghost use Rattle.magnetar_field.specs.Words.{elements};
ghost use Rattle.magnetar_layout.specs.Every.{every};
ghost use Rattle.magnetar_matrix.specs.Matrix.{sum_over, row_total, share, is_bit, bit_up_to};
ghost use Rattle.magnetar_matrix.specs.Numbers.{entries_by, entry_of};
ghost use Rattle.magnetar_r1cs.specs.Inside.{inside};
ghost use Rattle.magnetar_matrix.specs.Table.{added_at, raised, public_share, bit_share, cross};

use magnetar_field::gf128::Gf128;
use magnetar_field::{gf128, words};
use magnetar_matrix::entries::{Entries, Entry};
use magnetar_matrix::step;

// v times the bit, by a mask.
pub(crate) fn select(v: Gf128, bit: u64) -> Gf128
    requires { bit < 2 }
    ensures { value result ≡ value v ⊗ bit }
{
    gf128::mul_bit(v, Gf128 { lo: bit, hi: 0 })
}

// An entry's share of a product: its value times the factor at its column, at its row.
fn add_share(out: &mut [u64], e: Entry, factors: &[u64])
    ensures { elements out.new ≡ added_at (elements out.old) e.row (share (elements factors.now) (entry_of e)) }
{
    step::add_at(
        out,
        e.row,
        step::scale(e.value(), words::get(factors, e.col)),
    );
}

// Adds the product of the entries with the factors.
pub(crate) fn add_product<E: Entries>(es: &E, factors: &[u64], out: &mut [u64])
    ensures { elements out.new ≡ raised (row_total (share (elements factors.now)) (entries_by (E.numbers es.now))) (elements out.old) }
{
    match es.as_slices() {
        Some(s) => product_of(&s, factors, out),
        None => product_of(es, factors, out),
    }
}

// The walk itself.
#[inline(always)]
fn product_of<E: Entries>(es: &E, factors: &[u64], out: &mut [u64])
    ensures { elements out.new ≡ raised (row_total (share (elements factors.now)) (entries_by (E.numbers es.now))) (elements out.old) }
{
    for i in 0..es.len() {
        add_share(out, es.at(i), factors);
    }
}

// The share of an entry that comes from the public columns (1, x), of which the first is w.
fn add_public_share(out: &mut [u64], e: Entry, w: usize, x: &[u64])
    ensures { elements out.new ≡ added_at (elements out.old) e.row (public_share w (elements x.now) (entry_of e)) }
{
    if e.col == w {
        step::add_at(out, e.row, e.value());
    } else if e.col > w {
        let k = e.col - w - 1;
        step::add_at(out, e.row, step::scale(e.value(), words::get(x, k)));
    }
}

// Adds the part of the product that comes from the public columns.
pub(crate) fn add_public<E: Entries>(es: &E, w: usize, x: &[u64], out: &mut [u64])
    ensures { elements out.new ≡ raised (row_total (public_share w (elements x.now)) (entries_by (E.numbers es.now))) (elements out.old) }
{
    match es.as_slices() {
        Some(s) => public_of(&s, w, x, out),
        None => public_of(es, w, x, out),
    }
}

// The walk itself.
#[inline(always)]
fn public_of<E: Entries>(es: &E, w: usize, x: &[u64], out: &mut [u64])
    ensures { elements out.new ≡ raised (row_total (public_share w (elements x.now)) (entries_by (E.numbers es.now))) (elements out.old) }
{
    for i in 0..es.len() {
        add_public_share(out, es.at(i), w, x);
    }
}

// The share of an entry that comes from the bits of a login with w columns.
fn add_bit_share(out: &mut [u64], e: Entry, w: usize, login: &[u64])
    ensures { elements out.new ≡ added_at (elements out.old) e.row (bit_share w login.now (entry_of e)) }
{
    if e.col < w {
        step::add_at(out, e.row, select(e.value(), step::bit_at(login, e.col)));
    }
}

// Adds the part of the product that comes from a login's bits. Within a large caller the walk would have too few registers.
#[inline(never)]
pub(crate) fn add_bits<E: Entries>(es: &E, w: usize, login: &[u64], out: &mut [u64])
    ensures { elements out.new ≡ raised (row_total (bit_share w login.now) (entries_by (E.numbers es.now))) (elements out.old) }
{
    match es.as_slices() {
        Some(s) => bits_of(&s, w, login, out),
        None => bits_of(es, w, login, out),
    }
}

// The walk itself.
#[inline(always)]
fn bits_of<E: Entries>(es: &E, w: usize, login: &[u64], out: &mut [u64])
    ensures { elements out.new ≡ raised (row_total (bit_share w login.now) (entries_by (E.numbers es.now))) (elements out.old) }
{
    for i in 0..es.len() {
        add_bit_share(out, es.at(i), w, login);
    }
}

// The sum over the entries of the value times the factors at the row, and at the column behind the n row factors.
pub(crate) fn sum_products<E: Entries>(es: &E, factors: &[u64], n: usize) -> Gf128
    requires { (n ≤ 65536) × (every (inside 65536 65536) (entries_by (E.numbers es.now)) ≡ true) }
    ensures { value result ≡ sum_over (cross (elements factors.now) n) (entries_by (E.numbers es.now)) }
{
    let mut sum = Gf128 { lo: 0, hi: 0 };
    for i in 0..es.len() {
        let e = es.at(i);
        let f = gf128::mul(words::get(factors, e.row), words::get(factors, n + e.col));
        sum = gf128::add(sum, step::scale(e.value(), f));
    }
    sum
}

// Every value is 0 or 1.
pub(crate) fn all_bits<E: Entries>(es: &E) -> bool
    ensures { result ≡ every is_bit (entries_by (E.numbers es.now)) }
{
    for i in 0..es.len() {
        if !gf128::is_bit(es.at(i).value()) {
            return false;
        }
    }
    true
}

// The value is 0 or 1 and the column does not exceed w.
fn is_bit_up_to(e: Entry, w: usize) -> bool
    ensures { result ≡ bit_up_to w (entry_of e) }
{
    gf128::is_bit(e.value()) && e.col <= w
}

// Every value is 0 or 1 and no column exceeds w.
pub(crate) fn all_bits_up_to<E: Entries>(es: &E, w: usize) -> bool
    ensures { result ≡ every (bit_up_to w) (entries_by (E.numbers es.now)) }
{
    for i in 0..es.len() {
        if !is_bit_up_to(es.at(i), w) {
            return false;
        }
    }
    true
}

// No column exceeds w.
pub(crate) fn all_columns_up_to<E: Entries>(es: &E, w: usize) -> bool
    ensures { result ≡ every (λ e. leb e.col w) (entries_by (E.numbers es.now)) }
{
    for i in 0..es.len() {
        if es.at(i).col > w {
            return false;
        }
    }
    true
}

// The entry lies in n rows and m columns.
fn lies_in(e: Entry, n: usize, m: usize) -> bool
    ensures { result ≡ inside n m (entry_of e) }
{
    e.row < n && e.col < m
}

// Every entry lies in n rows and m columns.
pub(crate) fn all_inside<E: Entries>(es: &E, n: usize, m: usize) -> bool
    ensures { result ≡ every (inside n m) (entries_by (E.numbers es.now)) }
{
    for i in 0..es.len() {
        if !lies_in(es.at(i), n, m) {
            return false;
        }
    }
    true
}
