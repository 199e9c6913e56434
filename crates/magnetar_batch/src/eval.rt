// The combined table at one column point, without the table: each matrix times the eq table of the column point, row by row, then taken at
// its row point.
ghost use Rattle.std.specs.Prelude.{◌≡◌, []};
ghost use Rattle.magnetar_field.specs.Gf128.{value};
ghost use Rattle.magnetar_matrix.specs.Numbers.{entries_by};
ghost use Rattle.magnetar_relation.specs.Rules.{rules_by, relation_of, system_at};
ghost use Rattle.magnetar_batch.specs.Value.{valued, value_outcome};
ghost use Rattle.magnetar_batch.specs.ValueSteps.{matrix_value, matrix_left, system_value, system_left, six_value, six_left};

use crate::{combo, table, value};
use magnetar_field::gf128::Gf128;
use magnetar_field::refusal::{Refusal, require};
use magnetar_layout::limits::MOST_COLUMNS;
use magnetar_layout::tests;
use magnetar_matrix::entries::{Entries, Exchanged};
use magnetar_relation::shapes::{Shapes, SystemShape};
use magnetar_relation::{range, rules, step};

// The value of the matrix of these entries, of n rows, at the row point p, its rows being made in the first k elements by the m factors
// behind them.
fn matrix_value<E: Entries>(
    s: &mut [u64],
    k: usize,
    m: usize,
    n: usize,
    p: [u64; 32],
    es: &E,
) -> Gf128
    ensures { let xs = entries_by (E.numbers es.now) in (value result ≡ matrix_value k m n p xs s.old) × (s.new ≡ matrix_left k m n xs s.old) }
{
    step::clear_front(k, s);
    combo::add_columns(k, m, s, &Exchanged { entries: es });
    value::front_value(n, p, s)
}

// The three matrices of a system, whose entries start at place a, weighed by the alphas from j on.
fn system_value<E: Entries>(
    s: &mut [u64],
    k: usize,
    m: usize,
    t: SystemShape,
    a: usize,
    al: [u64; 12],
    j: usize,
    p: [u64; 32],
    es: &E,
) -> Gf128
    ensures { let T = system_at t a (entries_by (E.numbers es.now)) in (value result ≡ system_value k m al j p T s.old) × (s.new ≡ system_left k m T s.old) }
{
    let n = t.a.rows;
    let a = range::part(es, a, t.a.entries);
    let b = range::part(es, a.to, t.b.entries);
    let c = range::part(es, b.to, t.c.entries);
    let x = matrix_value(s, k, m, n, p, &a);
    let y = matrix_value(s, k, m, n, p, &b);
    let z = matrix_value(s, k, m, n, p, &c);
    value::weigh(al, j, x, y, z)
}

// The value of all six at the column point c, the first m elements and as many as the larger row count being room, which is left 0.
fn six_value<E: Entries>(
    s: &mut [u64],
    m: usize,
    sh: Shapes,
    al: [u64; 12],
    pb: [u64; 32],
    pf: [u64; 32],
    c: [u64; 32],
    es: &E,
) -> Gf128
    ensures { let R = relation_of (rules_by m 1 [] sh (E.numbers es.now)) in (value result ≡ six_value R al pb pf c s.old) × (s.new ≡ six_left R c s.old) }
{
    let ends = range::ends_of(sh, es.len());
    let k = sh.bin.a.rows.max(sh.fld.a.rows);
    value::columns_behind(s, k, m, c);
    let x = system_value(s, k, m, sh.bin, 0, al, 0, pb, es);
    let y = system_value(s, k, m, sh.fld, ends[2], al, 3, pf, es);
    value::clear_both(s, k, m);
    x + y
}

// The combined table at the column point c; the alphas and the points as arrays. The 2m + 2R words of scratch, R being the larger row count,
// are 0 at exit. An entry outside its matrix counts for nothing. 1, 4 to 6; 15: too little room.
pub fn eval_m_combo<E: Entries>(
    s: &mut [u64],
    m: usize,
    sh: Shapes,
    al: [u64; 12],
    pb: [u64; 32],
    pf: [u64; 32],
    c: [u64; 32],
    es: &E,
) -> Result<Gf128, Refusal>
    ensures { valued result s.new ≡ value_outcome 0 (rules_by m 1 [] sh (E.numbers es.now)) al pb pf c s.old }
{
    require(tests::is_size(2, MOST_COLUMNS, m), Refusal::Size)?;
    rules::refusal(m, 1, sh, es.counts(), true)?;
    let k = sh.bin.a.rows.max(sh.fld.a.rows);
    require(!table::is_over(m, k, s.len()), Refusal::Room)?;
    Ok(six_value(s, m, sh, al, pb, pf, c, es))
}
