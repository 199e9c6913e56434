// The refusals 1, 4, 6 and 7 of a matrix that is lent.
ghost use Rattle.std.specs.Prelude.{◌≡◌, ◌++◌};
ghost use Rattle.magnetar_field.specs.Number.{number_of};
ghost use Rattle.magnetar_layout.specs.Tests.{first_refusal, counted, placed, lone_tests};
ghost use Rattle.magnetar_matrix.specs.Numbers.{lent_by};

use crate::walk;
use magnetar_field::refusal::{Refusal, require};
use magnetar_layout::limits::{MOST_COLUMNS, MOST_ENTRIES, MOST_ROWS};
use magnetar_layout::tests;
use magnetar_matrix::entries::Entries;

// 6: how many entries there are.
#[tactic(auto, using(magnetar_layout::proofs::Passing::passing), unfolding(magnetar_layout::specs::Tests::or_refuse))]
fn counts<E: Entries>(es: &E) -> Result<(), Refusal>
    ensures { number_of result ≡ first_refusal 0 (counted (lent_by 0 0 (E.numbers es.now))) }
{
    let n = es.counts();
    require(n[0] <= MOST_ENTRIES, Refusal::EntryCount)?;
    require(
        n[1] == n[0] && n[2] == n[0] && n[3] == n[0],
        Refusal::EntryCount,
    )
}

// 6 and 7: how many entries there are, and that they lie inside the matrix.
pub(crate) fn entries<E: Entries>(rows: usize, cols: usize, es: &E) -> Result<(), Refusal>
    ensures { let a = lent_by rows cols (E.numbers es.now) in number_of result ≡ first_refusal 0 (counted a ++ placed a) }
{
    counts(es)?;
    require(walk::all_inside(es, rows, cols), Refusal::EntryPlace)
}

// 1, 4, 6 and 7 of a matrix alone.
#[tactic(auto, using(magnetar_layout::proofs::Passing::passing), unfolding(magnetar_layout::specs::Tests::or_refuse))]
pub(crate) fn lone<E: Entries>(rows: usize, cols: usize, es: &E) -> Result<(), Refusal>
    ensures { number_of result ≡ first_refusal 0 (lone_tests (lent_by rows cols (E.numbers es.now))) }
{
    require(tests::is_size(2, MOST_COLUMNS, cols), Refusal::Size)?;
    require(tests::is_size(1, MOST_ROWS, rows), Refusal::Rows)?;
    entries(rows, cols, es)
}
