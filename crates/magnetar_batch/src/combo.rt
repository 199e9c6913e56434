// The six matrices of both systems combined into one table of columns.
ghost use Rattle.std.specs.Prelude.{◌≡◌, ◌≤◌, [], slice_index};
ghost use Rattle.magnetar_field.specs.Number.{number_of};
ghost use Rattle.magnetar_field.specs.Words.{elements};
ghost use Rattle.magnetar_matrix.specs.Numbers.{entries_by};
ghost use Rattle.magnetar_relation.specs.Rules.{rules_by, relation_of, system_at};
ghost use Rattle.magnetar_relation.specs.Steps.{column_added};
ghost use Rattle.magnetar_relation.specs.EntryWalks.{fold_entries};
ghost use Rattle.magnetar_batch.specs.Entries.{combined, combo_outcome};
ghost use Rattle.magnetar_batch.specs.TableSteps.{eq_behind, point_in, system_added, table_made};

use crate::table;
use magnetar_field::refusal::{Refusal, require};
use magnetar_layout::limits::MOST_COLUMNS;
use magnetar_layout::tests;
use magnetar_matrix::entries::Entries;
use magnetar_relation::shapes::{Shapes, SystemShape};
use magnetar_relation::{range, rules, step};

// Adds the columns of the entries, by the n factors behind the table of m elements.
pub(crate) fn add_columns<E: Entries>(m: usize, n: usize, s: &mut [u64], es: &E)
    ensures { s.new ≡ fold_entries (column_added m n) (entries_by (E.numbers es.now)) s.old }
{
    match es.as_slices() {
        Some(t) => columns_of(m, n, s, &t),
        None => columns_of(m, n, s, es),
    }
}

// The walk itself.
#[inline(always)]
fn columns_of<E: Entries>(m: usize, n: usize, s: &mut [u64], es: &E)
    ensures { s.new ≡ fold_entries (column_added m n) (entries_by (E.numbers es.now)) s.old }
{
    for i in 0..es.len() {
        table::add_column(m, n, s, es.at(i));
    }
}

// Adds the matrix of these entries times alpha k at the row point p for n rows.
fn add_matrix<E: Entries>(
    s: &mut [u64],
    m: usize,
    n: usize,
    al: [u64; 12],
    k: usize,
    p: [u64; 32],
    es: &E,
)
    ensures { s.new ≡ fold_entries (column_added m n) (entries_by (E.numbers es.now)) (eq_behind m (slice_index (elements al) k) (point_in n p) s.old) }
{
    table::eq_behind(s, m, n, al, k, p);
    add_columns(m, n, s, es);
}

// Adds the three matrices of a system, whose entries start at place a, the first one times alpha k.
fn add_system<E: Entries>(
    s: &mut [u64],
    m: usize,
    t: SystemShape,
    a: usize,
    al: [u64; 12],
    k: usize,
    p: [u64; 32],
    es: &E,
)
    requires { k ≤ 3 }
    ensures { s.new ≡ system_added m al k p (system_at t a (entries_by (E.numbers es.now))) s.old }
{
    let n = t.a.rows;
    let a = range::part(es, a, t.a.entries);
    let b = range::part(es, a.to, t.b.entries);
    let c = range::part(es, b.to, t.c.entries);
    add_matrix(s, m, n, al, k, p, &a);
    add_matrix(s, m, n, al, k + 1, p, &b);
    add_matrix(s, m, n, al, k + 2, p, &c);
}

// The combined table in the first m elements, and 0 in as many behind it as the larger row count; the alphas and the row points as arrays.
pub fn combine<E: Entries>(
    s: &mut [u64],
    m: usize,
    sh: Shapes,
    al: [u64; 12],
    pb: [u64; 32],
    pf: [u64; 32],
    es: &E,
)
    ensures { s.new ≡ table_made (relation_of (rules_by m 1 [] sh (E.numbers es.now))) al pb pf s.old }
{
    let ends = range::ends_of(sh, es.len());
    step::clear_front(m, s);
    add_system(s, m, sh.bin, 0, al, 0, pb, es);
    add_system(s, m, sh.fld, ends[2], al, 3, pf, es);
    table::clear_behind(s, m, sh.bin.a.rows, sh.fld.a.rows);
}

// The combined table in the first 2m words of out, its other words stay; the 2m + 2R words of scratch, R being the larger row count, are 0
// at exit. 1, 4 to 7; 11: not twelve words of alphas, or a point that is not of its rows' length; 15: too little room.
pub fn build_m_combo<E: Entries>(
    out: &mut [u64],
    scratch: &mut [u64],
    m: usize,
    sh: Shapes,
    es: &E,
    alphas: &[u64],
    pb: &[u64],
    pf: &[u64],
) -> Result<(), Refusal>
    ensures { combined (number_of result) out.new scratch.new
        ≡ combo_outcome (rules_by m 1 [] sh (E.numbers es.now)) alphas.now pb.now pf.now out.old scratch.old }
{
    require(tests::is_size(2, MOST_COLUMNS, m), Refusal::Size)?;
    rules::check(m, 1, sh, es)?;
    let n = sh.bin.a.rows;
    let k = sh.fld.a.rows;
    table::points_fit(n, k, alphas.len(), pb.len(), pf.len())?;
    table::room_fits(m, n, k, scratch.len(), out.len())?;
    let al = table::padded(alphas);
    let p = table::padded(pb);
    let r = table::padded(pf);
    combine(scratch, m, sh, al, p, r, es);
    table::move_table(m, scratch, out);
    Ok(())
}
