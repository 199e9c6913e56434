// The refusals 1, 4 and 8 to 10 of a run, by its sizes and its segments. Here and in the crates above, m, q, rb and rf stay numbers of their
// own where they are tested: no Rounds can be made of those that are refused.
ghost use Rattle.std.specs.Prelude.{◌≡◌, ◌≤◌};
ghost use Rattle.magnetar_field.specs.Number.{number_of};
ghost use Rattle.magnetar_layout.specs.Tests.{first_refusal, size_tests, rows_tests};
ghost use Rattle.magnetar_protocol.specs.RunTests.{run_tests, outline_tests};

use magnetar_field::refusal::{Refusal, require};
use magnetar_layout::limits::{MOST_BATCH_ROWS, MOST_COLUMNS, MOST_LOGINS, MOST_ROWS};
use magnetar_layout::{layout, tests};

// 1: the columns and the logins.
#[tactic(auto, using(magnetar_layout::proofs::Passing::passing), unfolding(magnetar_layout::specs::Tests::or_refuse))]
pub fn size_refusal(m: usize, q: usize) -> Result<(), Refusal>
    ensures { number_of result ≡ first_refusal 0 (size_tests m q) }
{
    require(tests::is_size(2, MOST_COLUMNS, m), Refusal::Size)?;
    require(tests::is_size(1, MOST_LOGINS, q), Refusal::Size)
}

// 4: the rows of a system, alone and for q logins.
#[tactic(auto, using(crate::proofs::Guards::rows), unfolding(magnetar_layout::specs::Tests::or_refuse))]
fn rows_refusal(q: usize, n: usize) -> Result<(), Refusal>
    requires { q ≤ 4096 }
    ensures { number_of result ≡ first_refusal 0 (rows_tests q n) }
{
    require(tests::is_size(1, MOST_ROWS, n), Refusal::Rows)?;
    require(q * n <= MOST_BATCH_ROWS, Refusal::Rows)
}

// 1 and 4 of a run over q logins with m columns, rb rows of bin and rf rows of fld.
pub(crate) fn run_refusal(m: usize, q: usize, rb: usize, rf: usize) -> Result<(), Refusal>
    ensures { number_of result ≡ first_refusal 0 (run_tests m q rb rf) }
{
    size_refusal(m, q)?;
    rows_refusal(q, rb)?;
    rows_refusal(q, rf)
}

// 1, 4 and 8 to 10 of the same run with segments of these lengths over m / 2 columns.
pub fn outline_refusal(
    m: usize,
    q: usize,
    rb: usize,
    rf: usize,
    lens: &[usize],
) -> Result<(), Refusal>
    ensures { number_of result ≡ first_refusal 0 (outline_tests m q rb rf lens.now) }
{
    run_refusal(m, q, rb, rf)?;
    layout::refusal(m / 2, lens)
}
