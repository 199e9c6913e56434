// The plain row check: stray bits, then the rows of both systems, login after login.
ghost use Rattle.std.specs.Prelude.{◌≡◌, ℕ, ◌*◌, ◌/◌, ◌<◌, max, [], ◌++◌, length, unwrap_or, IfSome, Ok};
ghost use Rattle.magnetar_field.specs.Gf128.{value};
ghost use Rattle.magnetar_field.specs.Number.{number_of};
ghost use Rattle.magnetar_field.specs.Words.{elements};
ghost use Rattle.magnetar_layout.specs.Tests.{first_refusal, size_tests, packed_tests, public_tests};
ghost use Rattle.magnetar_matrix.specs.Numbers.{entry_of, entries_by};
ghost use Rattle.magnetar_matrix.specs.Packed.{z_of};
ghost use Rattle.magnetar_relation.specs.Rules.{rules_by, relation_of, system_at};
ghost use Rattle.magnetar_relation.specs.Steps.{cleared_to, added_to, behind, login_z};
ghost use Rattle.magnetar_relation.specs.EntryWalks.{fold_entries};
ghost use Rattle.magnetar_relation.specs.Stray.{stray_answer};
ghost use Rattle.magnetar_check.specs.Check.{verdict, checked, check_refusal, check_outcome};
ghost use Rattle.magnetar_check.specs.Check.Outcome.{judged};
ghost use Rattle.magnetar_check.specs.CheckSteps.{share_added, three_in, row_in, nothing, stray_found, found_in, from, system_done, both_done, answer_of};

use crate::rows;
use magnetar_field::gf128::Gf128;
use magnetar_field::refusal::{Refusal, require};
use magnetar_layout::limits::{MOST_COLUMNS, MOST_LOGINS, MOST_ROWS};
use magnetar_layout::{layout, tests};
use magnetar_matrix::entries::{Entries, Entry};
use magnetar_matrix::step as element;
use magnetar_r1cs::r1cs;
use magnetar_relation::shapes::{Shapes, SystemShape};
use magnetar_relation::stray::StrayBit;
use magnetar_relation::{login, range, rules, step, stray};

// Good; the login and column of the first stray bit; or the login and row of the first failing row of a system.
#[derive(Clone, Copy, Debug, PartialEq, Eq)]
pub enum RowCheck {
    Good,
    Stray(usize, usize),
    Bin(usize, usize),
    Fld(usize, usize),
}

// A row that does not hold, and its login.
#[derive(Clone, Copy)]
struct Failing {
    login: usize,
    row: usize,
}

// The logins of a batch, of w witness columns: their packed and their public words.
#[derive(Clone, Copy)]
struct Batch<'a> {
    w: usize,
    packed: &'a [u64],
    x: &'a [u64],
}

// One login: its part of both.
#[derive(Clone, Copy)]
struct Login<'a> {
    w: usize,
    bits: &'a [u64],
    x: &'a [u64],
}

impl<'a> Batch<'a> {
    // Login u.
    fn login(self, u: usize) -> Login<'a>
        ensures { z_of result.w result.bits.now (elements result.x.now) ≡ login_z self.entry.w self.entry.packed.now self.entry.x.now u }
    {
        Login {
            w: self.w,
            bits: login::part(self.packed, self.w, u),
            x: login::columns(self.x, self.w, u),
        }
    }
}

// Adds v at row i of the n elements behind the first m.
fn add_behind(s: &mut [u64], m: usize, n: usize, i: usize, v: Gf128)
    ensures { s.new ≡ behind m (added_to n i (value v)) s.old }
{
    if m <= s.len() / 2 {
        step::add_to(n, i, v, &mut s[2 * m..]);
    }
}

// Adds an entry's share of the product with the login's z, at its row, to the n elements behind the first m.
fn add_share(s: &mut [u64], m: usize, n: usize, of: Login<'_>, e: Entry)
    ensures { s.new ≡ share_added m n (z_of of.entry.w of.entry.bits.now (elements of.entry.x.now)) (entry_of e) s.old }
{
    let f = login::z_of(of.bits, of.x, of.w, e.col);
    add_behind(s, m, n, e.row, element::scale(f, e.value()));
}

// Clears n elements behind the first m, where there are as many.
fn clear_behind(s: &mut [u64], m: usize, n: usize)
    ensures { s.new ≡ behind m (cleared_to n) s.old }
{
    if m <= s.len() / 2 {
        step::clear_front(n, &mut s[2 * m..]);
    }
}

// The product of a matrix's entries with the login's z, in the n elements behind the first m.
fn product<E: Entries>(s: &mut [u64], m: usize, n: usize, of: Login<'_>, es: &E)
    ensures { s.new
        ≡ fold_entries (share_added m n (z_of of.entry.w of.entry.bits.now (elements of.entry.x.now))) (entries_by (E.numbers es.now))
        (behind m (cleared_to n) s.old) }
{
    match es.as_slices() {
        Some(t) => product_of(s, m, n, of, &t),
        None => product_of(s, m, n, of, es),
    }
}

// The walk itself.
#[inline(always)]
fn product_of<E: Entries>(s: &mut [u64], m: usize, n: usize, of: Login<'_>, es: &E)
    ensures { s.new
        ≡ fold_entries (share_added m n (z_of of.entry.w of.entry.bits.now (elements of.entry.x.now))) (entries_by (E.numbers es.now))
        (behind m (cleared_to n) s.old) }
{
    clear_behind(s, m, n);
    for i in 0..es.len() {
        add_share(s, m, n, of, es.at(i));
    }
}

// The products of the three matrices of a system, whose entries start at place a, with the login's z, one behind the other.
fn products<E: Entries>(s: &mut [u64], of: Login<'_>, t: SystemShape, a: usize, es: &E)
    ensures { s.new ≡ three_in (z_of of.entry.w of.entry.bits.now (elements of.entry.x.now)) (system_at t a (entries_by (E.numbers es.now))) s.old }
{
    let n = t.a.rows;
    let first = range::part(es, a, t.a.entries);
    let second = range::part(es, first.to, t.b.entries);
    let third = range::part(es, second.to, t.c.entries);
    product(s, 0, n, of, &first);
    product(s, n, n, of, &second);
    product(s, 2 * n.min(MOST_ROWS), n, of, &third);
}

// The first row of n that does not hold, by the three products in front of s.
fn first_row(s: &[u64], n: usize) -> Option<usize>
    ensures first { unwrap_or result n ≡ row_in n s.now }
    ensures inside { IfSome result (λ i. i < n) }
{
    if n > s.len() / 6 {
        return None;
    }
    rows::first_failing(&s[..6 * n], n)
}

// The first of q logins with a row that does not hold of the system whose entries start at place a.
fn first_failing<E: Entries>(
    s: &mut [u64],
    q: usize,
    of: Batch<'_>,
    t: SystemShape,
    a: usize,
    es: &E,
) -> Option<Failing>
    ensures { (k : ℕ) → 0 < k → from (found_in k result) s.new
        ≡ system_done k of.entry.w of.entry.packed.now of.entry.x.now (system_at t a (entries_by (E.numbers es.now))) q (from nothing s.old) }
{
    for login in 0..q {
        products(s, of.login(login), t, a, es);
        if let Some(row) = first_row(s, t.a.rows) {
            return Some(Failing { login, row });
        }
    }
    None
}

// The stray bit, if there is one; else the first row of q logins that does not hold, those of bin before those of fld.
fn judge<E: Entries>(
    s: &mut [u64],
    stray: Option<StrayBit>,
    q: usize,
    of: Batch<'_>,
    sh: Shapes,
    es: &E,
) -> RowCheck
    ensures { let R = relation_of (rules_by 0 q [] sh (E.numbers es.now)) in
        let d = both_done R of.entry.w of.entry.packed.now of.entry.x.now (stray_found (stray_answer (Ok stray))) s.old in
        (judged (verdict result) ≡ answer_of 0 d.found) × (s.new ≡ d.left) }
{
    if let Some(bit) = stray {
        return RowCheck::Stray(bit.login, bit.column);
    }
    let ends = range::ends_of(sh, es.len());
    if let Some(f) = first_failing(s, q, of, sh.bin, 0, es) {
        return RowCheck::Bin(f.login, f.row);
    }
    if let Some(g) = first_failing(s, q, of, sh.fld, ends[2], es) {
        return RowCheck::Fld(g.login, g.row);
    }
    RowCheck::Good
}

// Clears three products of the larger row count, where there are as many.
fn clear_room(s: &mut [u64], nb: usize, nf: usize)
    ensures { s.new ≡ cleared_to (3 * max nb nf) s.old }
{
    let n = nb.max(nf);
    if n <= s.len() / 6 {
        step::clear_front(3 * n, s);
    }
}

// 1, 2 and 3.
#[tactic(auto, using(magnetar_layout::proofs::Passing::passing), unfolding(magnetar_layout::specs::Tests::or_refuse))]
fn sizes(m: usize, q: usize, packed: &[u64], x: &[u64]) -> Result<(), Refusal>
    ensures { number_of result ≡ first_refusal 0 (size_tests m q ++ (packed_tests (m / 2) q packed.now ++ public_tests m q x.now)) }
{
    require(tests::is_size(2, MOST_COLUMNS, m), Refusal::Size)?;
    require(tests::is_size(1, MOST_LOGINS, q), Refusal::Size)?;
    require(
        packed.len() == q * r1cs::login_words(m / 2),
        Refusal::PackedWords,
    )?;
    require(x.len() == q * (m - 2), Refusal::PublicWords)
}

// 1, 2 and 3; 4 to 7: the rules; 8 to 10: the segments; 15: words of scratch.
fn refusal<E: Entries>(
    m: usize,
    q: usize,
    lens: &[usize],
    sh: Shapes,
    es: &E,
    packed: &[u64],
    x: &[u64],
    scratch: usize,
) -> Result<(), Refusal>
    ensures { number_of result ≡ check_refusal (rules_by m q lens.now sh (E.numbers es.now)) packed.now x.now scratch }
{
    sizes(m, q, packed, x)?;
    rules::check(m, q, sh, es)?;
    layout::refusal(m / 2, lens)?;
    require(
        sh.bin.a.rows.max(sh.fld.a.rows) <= scratch / 6,
        Refusal::Room,
    )
}

// The plain row check: good; or the first stray bit, the lowest login and then the lowest column; or the first failing row, bin before fld,
// then the lowest login, then the lowest row. lens are the lengths of the segments. 1 to 10; 15: the scratch is below 6R words, R being the
// larger row count. These words are 0 at exit.
pub fn row_check<E: Entries>(
    scratch: &mut [u64],
    m: usize,
    q: usize,
    lens: &[usize],
    sh: Shapes,
    es: &E,
    packed: &[u64],
    x: &[u64],
) -> Result<RowCheck, Refusal>
    ensures { checked result scratch.new ≡ check_outcome (rules_by m q lens.now sh (E.numbers es.now)) packed.now x.now scratch.old }
{
    refusal(m, q, lens, sh, es, packed, x, scratch.len())?;
    let w = m / 2;
    let stray = stray::first_stray(packed, q, w, lens)?;
    let found = judge(scratch, stray, q, Batch { w, packed, x }, sh, es);
    clear_room(scratch, sh.bin.a.rows, sh.fld.a.rows);
    Ok(found)
}
