// The verifier's checks with given elements in the place of the draws.
use crate::case::Case;
use crate::matrices::{thirty_two, twelve};
use crate::room::{Room, Rooms};
use crate::runs::MOST_CLAIMS;
use magnetar_batch::{eval, fold};
use magnetar_field::gf128::Gf128;
use magnetar_field::refusal::Refusal;
use magnetar_field::sizes::log2;
use magnetar_field::{gf128, words};
use magnetar_multilinear::eq::EqBits;
use magnetar_multilinear::multilinear;
use magnetar_protocol::first::Failure;
use magnetar_replay::show::{Cleared, Out};
use magnetar_replay::{line, show};
use magnetar_verifier::{claims, end, outer};
use std::alloc::Global;
use std::io;
use std::io::Write;

// The first n words, or all.
fn first(s: &[u64], n: usize) -> &[u64] {
    s.get(..n).unwrap_or(s)
}

// The inner point of m columns, with which the draws end.
fn inner(draws: &[u64], m: usize) -> &[u64] {
    let k = draws.len().saturating_sub(2 * log2(m));
    draws.get(k..).unwrap_or(draws)
}

// The claims of these draws.
fn claimed(proof: &[u64], draws: &[u64], case: &Case, claims: &mut [u64]) -> Result<(), Refusal> {
    claims::write_claims(
        case.m,
        case.q,
        case.shapes.bin.a.rows,
        case.shapes.fld.a.rows,
        case.lens.as_slice(),
        proof,
        draws,
        claims,
    )
}

// The value of the combined table at the inner point, which the last checks take; 0 where it is refused.
fn table_value(nums: &[u64], draws: &[u64], case: &Case, scratch: &mut [u64]) -> Gf128 {
    let value = eval::eval_m_combo(
        scratch,
        case.m,
        case.shapes,
        twelve(line::list_from(nums, 2, 2)),
        thirty_two(line::list_from(nums, 2, 3)),
        thirty_two(line::list_from(nums, 2, 4)),
        thirty_two(inner(draws, case.m)),
        &case.slices(),
    );
    value.unwrap_or(gf128::ZERO)
}

// The value at the point of the table in the first half of the words, by an eq table in the second. Both are cleared.
fn value_at(t: &mut [u64], point: &[u64]) -> Gf128 {
    let n = t.len() / 2;
    let (table, eq) = t.split_at_mut(n);
    let _built = EqBits::build(point, gf128::ONE, eq);
    let v = multilinear::dot(table, eq);
    words::clear(t);
    v
}

// The value of the public half at the low point, the inner one without its last element. The half is folded at the point of the logins,
// with which the claims begin, behind the first m elements.
fn half_value(proof: &[u64], draws: &[u64], case: &Case, scratch: &mut [u64]) -> Gf128 {
    // As many words as the claims of a run can have, since a query may ask for fewer than it needs here.
    let mut claims = [0u64; 256];
    let _claimed = claimed(proof, draws, case, &mut claims);
    let point = first(&claims, 2 * log2(case.q));
    let a = 2 * case.m.min(scratch.len() / 2);
    let _folded = fold::fold_public_in(
        case.x.as_slice(),
        case.q,
        case.m / 2,
        point,
        &mut scratch[a..],
    );
    let m = case.m.min(scratch.len() / 4);
    let low = first(inner(draws, m), 2 * log2(m / 2));
    value_at(&mut scratch[2 * m..4 * m], low)
}

// The number, and how many events come before the check that gave it.
fn print_found(out: &mut Out, found: Result<(), Failure>) -> io::Result<()> {
    match found {
        Ok(()) => writeln!(out, "= 0 0"),
        Err(failure) => {
            let number = failure.check.number();
            let events = failure.events;
            writeln!(out, "= {number} {events}")
        }
    }
}

// checks C S PROOF DRAWS ALPHAS PB PF: the checks one after the other, and the claims.
fn checks(
    alloc: Global,
    out: &mut Out,
    nums: &[u64],
    case: &Case,
    room: &mut Room,
) -> io::Result<()> {
    let mut claims = line::marked(alloc, line::size(nums, 0).min(MOST_CLAIMS))?;
    let scratch = room.marked(line::size(nums, 1))?;
    let proof = line::list_from(nums, 2, 0);
    let draws = line::list_from(nums, 2, 1);
    let rb = case.shapes.bin.a.rows;
    let rf = case.shapes.fld.a.rows;
    let lens = case.lens.as_slice();
    let found = outer::outer_checks(case.m, case.q, rb, rf, lens, proof, draws);
    print_found(out, found)?;
    if found.is_err() {
        return Ok(());
    }
    let v = table_value(nums, draws, case, scratch);
    let p = half_value(proof, draws, case, scratch);
    let found = end::end_checks(case.m, case.q, rb, rf, lens, proof, draws, v, p);
    print_found(out, found)?;
    if found.is_ok() {
        let answer = claimed(proof, draws, case, claims.as_mut_slice());
        show::written(out, answer, claims.as_slice())?;
    }
    let scratch = Cleared(scratch);
    writeln!(out, "= {scratch}")
}

// Answers the query, or says that it is none.
pub(crate) fn answer(
    alloc: Global,
    out: &mut Out,
    name: &[u8],
    nums: &[u64],
    case: &Case,
    rooms: &mut Rooms,
) -> io::Result<bool> {
    if name != b"checks".as_slice() {
        return Ok(false);
    }
    checks(alloc, out, nums, case, &mut rooms.slices)?;
    Ok(true)
}
