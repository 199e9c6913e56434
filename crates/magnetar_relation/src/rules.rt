// The refusals 4 to 7 of a relation as it is lent.
ghost use Rattle.std.specs.Prelude.{◌≡◌, [], ◌∷◌, ◌≤◌};
ghost use Rattle.magnetar_field.specs.Number.{number_of};
ghost use Rattle.magnetar_layout.specs.Tests.{first_refusal};
ghost use Rattle.magnetar_matrix.specs.Numbers.{entry_of, entries_by};
ghost use Rattle.magnetar_relation.specs.Rules.{entries_in, rules_by};
ghost use Rattle.magnetar_relation.specs.RuleTests.{row_tests, col_tests, most_tests, number_tests, shape_tests, rule_tests_by, rule_tests};
ghost use Rattle.magnetar_relation.specs.EntryWalks.{shape_in, shape_at, lies_at, every_from};

use crate::shapes::{Shape, Shapes, SystemShape};
use magnetar_field::refusal::{Refusal, require};
use magnetar_layout::limits::{MOST_BATCH_ROWS, MOST_ENTRIES, MOST_ROWS};
use magnetar_layout::tests;
use magnetar_matrix::entries::{Entries, Entry};

// 4: the rows of a system's matrices, for q logins.
#[tactic(auto, using(magnetar_layout::proofs::Passing::passing), unfolding(magnetar_layout::specs::Tests::or_refuse))]
fn rows(q: usize, t: SystemShape) -> Result<(), Refusal>
    ensures { number_of result ≡ first_refusal 0 (row_tests q t) }
{
    let n = t.a.rows;
    require(tests::is_size(1, MOST_ROWS, n), Refusal::Rows)?;
    require(t.b.rows == n, Refusal::Rows)?;
    require(t.c.rows == n, Refusal::Rows)?;
    require(q.saturating_mul(n) <= MOST_BATCH_ROWS, Refusal::Rows)
}

// 5: their columns, where m are wanted.
#[tactic(auto, using(magnetar_layout::proofs::Passing::passing), unfolding(magnetar_layout::specs::Tests::or_refuse))]
fn cols(m: usize, t: SystemShape) -> Result<(), Refusal>
    ensures { number_of result ≡ first_refusal 0 (col_tests m t) }
{
    require(t.a.cols == m, Refusal::Columns)?;
    require(t.b.cols == m, Refusal::Columns)?;
    require(t.c.cols == m, Refusal::Columns)
}

// 6: too many entries.
#[tactic(auto, using(magnetar_layout::proofs::Passing::passing), unfolding(magnetar_layout::specs::Tests::or_refuse))]
fn most(t: SystemShape) -> Result<(), Refusal>
    ensures { number_of result ≡ first_refusal 0 (most_tests t) }
{
    require(t.a.entries <= MOST_ENTRIES, Refusal::EntryCount)?;
    require(t.b.entries <= MOST_ENTRIES, Refusal::EntryCount)?;
    require(t.c.entries <= MOST_ENTRIES, Refusal::EntryCount)
}

// 4, 5 and 6: the shapes.
#[tactic(auto, using(magnetar_layout::proofs::Passing::passing), unfolding(magnetar_layout::specs::Tests::or_refuse))]
fn shapes(m: usize, q: usize, s: Shapes) -> Result<(), Refusal>
    ensures { number_of result ≡ first_refusal 0 (shape_tests m q s) }
{
    rows(q, s.bin)?;
    rows(q, s.fld)?;
    cols(m, s.bin)?;
    cols(m, s.fld)?;
    most(s.bin)?;
    most(s.fld)
}

// How many entries a system has.
fn entries_in(t: SystemShape) -> usize
    requires { (t.a.entries ≤ 1048576) × (t.b.entries ≤ 1048576) × (t.c.entries ≤ 1048576) }
    ensures { (result ≡ entries_in t) × (result ≤ 3145728) }
{
    t.a.entries + t.b.entries + t.c.entries
}

// 6: whether there are n rows, columns, low and high words.
#[tactic(auto, using(magnetar_layout::proofs::Passing::passing), unfolding(magnetar_layout::specs::Tests::or_refuse))]
fn numbers(n: usize, counts: [usize; 4]) -> Result<(), Refusal>
    ensures { number_of result ≡ first_refusal 0 (number_tests n counts) }
{
    let [row, col, lo, hi] = counts;
    require(row == n, Refusal::EntryCount)?;
    require(col == n, Refusal::EntryCount)?;
    require(lo == n, Refusal::EntryCount)?;
    require(hi == n, Refusal::EntryCount)
}

// 4 to 7 of the shapes, of as many rows, columns, low and high words, and of entries that lie inside their matrices or not.
pub fn refusal(
    m: usize,
    q: usize,
    s: Shapes,
    counts: [usize; 4],
    inside: bool,
) -> Result<(), Refusal>
    ensures { number_of result ≡ first_refusal 0 (rule_tests_by m q s counts inside) }
{
    shapes(m, q, s)?;
    numbers(entries_in(s.bin) + entries_in(s.fld), counts)?;
    require(inside, Refusal::EntryPlace)
}

// The shape of the matrix of a system that its entry i belongs to.
fn shape_in(t: SystemShape, i: usize) -> Shape
    ensures { result ≡ shape_in t i }
{
    if i < t.a.entries {
        return t.a;
    }
    let k = i - t.a.entries;
    if k < t.b.entries {
        return t.b;
    }
    t.c
}

// The shape of the matrix that entry i belongs to.
fn shape_at(s: Shapes, i: usize) -> Shape
    ensures { result ≡ shape_at s i }
{
    let t = s.bin;
    if i < t.a.entries {
        return t.a;
    }
    let j = i - t.a.entries;
    if j < t.b.entries {
        return t.b;
    }
    let k = j - t.b.entries;
    if k < t.c.entries {
        return t.c;
    }
    shape_in(s.fld, k - t.c.entries)
}

// Entry i lies inside its matrix, whatever its value.
pub fn lies_at(s: Shapes, i: usize, e: Entry) -> bool
    ensures { result ≡ lies_at s i (entry_of e) }
{
    let h = shape_at(s, i);
    e.row < h.rows && e.col < h.cols
}

// Each entry lies inside its matrix.
fn all_inside<E: Entries>(s: Shapes, es: &E) -> bool
    ensures { result ≡ every_from (lies_at s) 0 (entries_by (E.numbers es.now)) }
{
    match es.as_slices() {
        Some(t) => inside_of(s, &t),
        None => inside_of(s, es),
    }
}

// The walk itself.
#[inline(always)]
fn inside_of<E: Entries>(s: Shapes, es: &E) -> bool
    ensures { result ≡ every_from (lies_at s) 0 (entries_by (E.numbers es.now)) }
{
    for i in 0..es.len() {
        if !lies_at(s, i, es.at(i)) {
            return false;
        }
    }
    true
}

// 4 to 7 of a relation as it is lent.
pub fn check<E: Entries>(m: usize, q: usize, s: Shapes, es: &E) -> Result<(), Refusal>
    ensures { number_of result ≡ first_refusal 0 (rule_tests (rules_by m q [] s (E.numbers es.now))) }
{
    refusal(m, q, s, es.counts(), all_inside(s, es))
}
