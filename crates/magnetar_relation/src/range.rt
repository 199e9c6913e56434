// Where the entries of a matrix end among those that are held, and those of each matrix among those of all six. Places are cut where the
// entries end, so that no sum overflows.
ghost use Rattle.std.specs.Prelude.{◌≡◌, ◌+◌, min, length, take, drop};
ghost use Rattle.magnetar_matrix.specs.Numbers.{entries_by, part};
ghost use Rattle.magnetar_relation.specs.Ends.{ends_of};

use crate::shapes::Shapes;
use magnetar_matrix::entries::{Entries, Part};

// Where k entries from place a on end; n where they are fewer.
pub fn after(a: usize, k: usize, n: usize) -> usize
    ensures { result ≡ min (a + k) n }
{
    a.saturating_add(k).min(n)
}

// The k entries from place a on, as far as there are as many.
pub fn part<'a, E: Entries>(es: &'a E, a: usize, k: usize) -> Part<'a, E>
    ensures of { result.entries.now ≡ es.now }
    ensures start { result.from ≡ a }
    ensures end { result.to ≡ min (a + k) (length (entries_by (E.numbers es.now))) }
    ensures entries { entries_by (part result.from result.to (E.numbers result.entries.now)) ≡ take k (drop a (entries_by (E.numbers es.now))) }
{
    Part {
        entries: es,
        from: a,
        to: after(a, k, es.len()),
    }
}

// Where the entries of each matrix end among n entries: A, B, C of bin, then A, B, C of fld. Those of the first start at 0, those of each
// other one where the one before it ends.
pub fn ends_of(s: Shapes, n: usize) -> [usize; 6]
    ensures { result ≡ ends_of s n }
{
    let t = s.bin;
    let u = s.fld;
    let a = after(0, t.a.entries, n);
    let b = after(a, t.b.entries, n);
    let c = after(b, t.c.entries, n);
    let d = after(c, u.a.entries, n);
    let e = after(d, u.b.entries, n);
    let f = after(e, u.c.entries, n);
    [a, b, c, d, e, f]
}
