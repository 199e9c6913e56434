// The products of the six matrices and the z of every login, in the blocks of the outer sum-check: four tables for bin, then four for fld,
// of which the first is free. Tables 1, 2 and 3 are those of A, B and C of bin, 5, 6 and 7 those of fld; sh are the matrices' shapes.
ghost use Rattle.std.specs.Prelude.{◌≡◌, [], ◌≤◌};
ghost use Rattle.magnetar_relation.specs.Rules.{rules_by};
ghost use Rattle.magnetar_spartan.specs.Products.{product_words, part_in, part_of, ProductLeft, ProductsLeft};

use magnetar_matrix::entries::Entries;
use magnetar_r1cs::r1cs;
use magnetar_relation::range;
use magnetar_relation::shapes::{Shapes, SystemShape};

// A table: its first word, the rows of its matrix, and the range of that matrix's entries.
#[derive(Clone, Copy)]
pub(crate) struct Part {
    pub place: usize,
    pub rows: usize,
    pub from: usize,
    pub to: usize,
}

// How many words one table has: 2 for each login and row.
fn product_words(q: usize, n: usize) -> usize
    ensures { (result ≡ product_words q n) × (result ≤ 1073741824) }
{
    2 * (q.min(4096) * n.min(65536))
}

// Table k of a system whose block is at word p and whose entries are from i on, among h of them.
fn part_in(k: usize, q: usize, t: SystemShape, p: usize, i: usize, h: usize) -> Part
    requires { p ≤ 4294967296 }
    ensures { result ≡ part_in k q t p i h }
{
    let w = product_words(q, t.a.rows);
    let j = range::after(i, t.a.entries, h);
    if k < 2 {
        return Part {
            place: p + w,
            rows: t.a.rows,
            from: i,
            to: j,
        };
    }
    let l = range::after(j, t.b.entries, h);
    if k < 3 {
        return Part {
            place: p + 2 * w,
            rows: t.b.rows,
            from: j,
            to: l,
        };
    }
    Part {
        place: p + 3 * w,
        rows: t.c.rows,
        from: l,
        to: range::after(l, t.c.entries, h),
    }
}

// Table k, where h entries are held.
fn part_of(k: usize, q: usize, sh: Shapes, h: usize) -> Part
    ensures { result ≡ part_of k q sh h }
{
    let b = sh.bin;
    if k < 4 {
        return part_in(k, q, b, 0, 0, h);
    }
    let f = sh.fld;
    let p = 4 * product_words(q, b.a.rows);
    part_in(k - 4, q, f, p, range::ends_of(sh, h)[2], h)
}

// Makes table k.
fn product<E: Entries>(
    s: &mut [u64],
    k: usize,
    m: usize,
    q: usize,
    sh: Shapes,
    es: &E,
    packed: &[u64],
    x: &[u64],
)
    ensures { ProductLeft k (rules_by m q [] sh (E.numbers es.now)) packed.now x.now s.old s.new }
{
    let h = part_of(k, q, sh, es.len());
    let p = h.place;
    if p <= s.len() {
        let _done = r1cs::products_in(es, h.from, h.to, packed, x, q, m / 2, h.rows, &mut s[p..]);
    }
}

// Makes all six.
pub(crate) fn products<E: Entries>(
    s: &mut [u64],
    m: usize,
    q: usize,
    sh: Shapes,
    es: &E,
    packed: &[u64],
    x: &[u64],
)
    ensures { ProductsLeft (rules_by m q [] sh (E.numbers es.now)) packed.now x.now s.old s.new }
{
    for k in [5, 6, 7, 1, 2, 3] {
        product(s, k, m, q, sh, es, packed, x);
    }
}
