// Queries on matrices: the combined table of six, its value at a point, the masks of one, the row check and the digest.
use crate::case::{Case, compare};
use crate::room::{Room, Rooms};
use magnetar_batch::{combo, eval};
use magnetar_check::check;
use magnetar_check::check::RowCheck;
use magnetar_digest::digest;
use magnetar_field::gf128::Gf128;
use magnetar_field::refusal::Refusal;
use magnetar_field::words;
use magnetar_matrix::entries::{Entries, Records, Slices};
use magnetar_r1cs::r1cs;
use magnetar_replay::show::{Cleared, Hex, Out};
use magnetar_replay::{line, show};
use std::alloc::{AllocError, Global};
use std::io;
use std::io::Write;

// How many words are lent at most for a table or masks.
pub(crate) const MOST_WORDS: usize = 2048;

// What a call answered, and the words that it was lent.
#[derive(PartialEq, Drop)]
struct Told<'a, A> {
    answer: Result<A, Refusal>,
    words: Vec<u64>,
    scratch: &'a [u64],
}

// Twelve words of a list, 0 where it has fewer.
pub(crate) fn twelve(s: &[u64]) -> [u64; 12] {
    let mut a = [0u64; 12];
    words::copy(s, &mut a);
    a
}

// Thirty-two words of a list, 0 where it has fewer.
pub(crate) fn thirty_two(s: &[u64]) -> [u64; 32] {
    let mut a = [0u64; 32];
    words::copy(s, &mut a);
    a
}

// combo N S ALPHAS PB PF: the combined table of the relation, with N words lent for it and S as scratch.
fn combo_over<'a, E: Entries>(
    alloc: Global,
    room: &'a mut Room,
    nums: &[u64],
    case: &Case,
    es: &E,
) -> Result<Told<'a, ()>, AllocError> {
    let mut words = line::marked(alloc, line::size(nums, 0).min(MOST_WORDS))?;
    let scratch = room.marked(line::size(nums, 1))?;
    let answer = combo::build_m_combo(
        words.as_mut_slice(),
        scratch,
        case.m,
        case.shapes,
        es,
        line::list_from(nums, 2, 0),
        line::list_from(nums, 2, 1),
        line::list_from(nums, 2, 2),
    );
    Ok(Told {
        answer,
        words,
        scratch,
    })
}

// The same over records, where the entries can be lent so.
fn combo_again<'a>(
    alloc: Global,
    room: &'a mut Room,
    nums: &[u64],
    case: &Case,
) -> Result<Option<Told<'a, ()>>, AllocError> {
    match case.records() {
        Some(es) => Ok(Some(combo_over(alloc, room, nums, case, &es)?)),
        None => Ok(None),
    }
}

fn combo(
    alloc: Global,
    out: &mut Out,
    nums: &[u64],
    case: &Case,
    rooms: &mut Rooms,
) -> io::Result<()> {
    let told = combo_over(alloc, &mut rooms.slices, nums, case, &case.slices())?;
    let again = combo_again(alloc, &mut rooms.records, nums, case)?;
    compare(out, &told, &again)?;
    show::written(out, told.answer, told.words.as_slice())?;
    let scratch = Cleared(told.scratch);
    writeln!(out, "= {scratch}")
}

// value S ALPHAS PB PF C: the combined table of the relation at the column point C, with S words lent as scratch.
fn value_over<'a, E: Entries>(
    alloc: Global,
    room: &'a mut Room,
    nums: &[u64],
    case: &Case,
    es: &E,
) -> Result<Told<'a, Gf128>, AllocError> {
    let scratch = room.marked(line::size(nums, 0))?;
    let answer = eval::eval_m_combo(
        scratch,
        case.m,
        case.shapes,
        twelve(line::list_from(nums, 1, 0)),
        thirty_two(line::list_from(nums, 1, 1)),
        thirty_two(line::list_from(nums, 1, 2)),
        thirty_two(line::list_from(nums, 1, 3)),
        es,
    );
    Ok(Told {
        answer,
        words: Vec::new(alloc),
        scratch,
    })
}

// The same over records, where the entries can be lent so.
fn value_again<'a>(
    alloc: Global,
    room: &'a mut Room,
    nums: &[u64],
    case: &Case,
) -> Result<Option<Told<'a, Gf128>>, AllocError> {
    match case.records() {
        Some(es) => Ok(Some(value_over(alloc, room, nums, case, &es)?)),
        None => Ok(None),
    }
}

fn value(
    alloc: Global,
    out: &mut Out,
    nums: &[u64],
    case: &Case,
    rooms: &mut Rooms,
) -> io::Result<()> {
    let told = value_over(alloc, &mut rooms.slices, nums, case, &case.slices())?;
    let again = value_again(alloc, &mut rooms.records, nums, case)?;
    compare(out, &told, &again)?;
    let e = told.answer.unwrap_or(magnetar_field::gf128::ZERO);
    show::written(out, told.answer, &[e.lo, e.hi])?;
    let scratch = Cleared(told.scratch);
    writeln!(out, "= {scratch}")
}

// masks N Q W V: the masks of the first matrix and the packed words, with N words lent for them.
fn masks_over<E: Entries>(
    alloc: Global,
    nums: &[u64],
    case: &Case,
    es: &E,
) -> Result<Told<'static, ()>, AllocError> {
    let mut words = line::marked(alloc, line::size(nums, 0).min(MOST_WORDS))?;
    let a = case.shapes.bin.a;
    let answer = r1cs::apply_simd_bit_masks(
        a.rows,
        a.cols,
        es,
        case.packed.as_slice(),
        line::size(nums, 1),
        line::size(nums, 2),
        line::size(nums, 3),
        words.as_mut_slice(),
    );
    Ok(Told {
        answer,
        words,
        scratch: &[],
    })
}

// The first n of a list, or all.
fn first<T>(s: &[T], n: usize) -> &[T] {
    s.get(..n).unwrap_or(s)
}

fn masks(alloc: Global, out: &mut Out, nums: &[u64], case: &Case) -> io::Result<()> {
    let n = case.shapes.bin.a.entries;
    let es = Slices {
        row: first(case.row.as_slice(), n),
        col: first(case.col.as_slice(), n),
        lo: first(case.lo.as_slice(), n),
        hi: first(case.hi.as_slice(), n),
    };
    let told = masks_over(alloc, nums, case, &es)?;
    let again = match case.records() {
        Some(all) => {
            let es = Records {
                entries: first(all.entries, n),
            };
            Some(masks_over(alloc, nums, case, &es)?)
        }
        None => None,
    };
    compare(out, &told, &again)?;
    show::written(out, told.answer, told.words.as_slice())
}

// check S: the row check with S words lent as scratch.
fn check_over<'a, E: Entries>(
    alloc: Global,
    room: &'a mut Room,
    nums: &[u64],
    case: &Case,
    es: &E,
) -> Result<Told<'a, RowCheck>, AllocError> {
    let scratch = room.marked(line::size(nums, 0))?;
    let answer = check::row_check(
        scratch,
        case.m,
        case.q,
        case.lens.as_slice(),
        case.shapes,
        es,
        case.packed.as_slice(),
        case.x.as_slice(),
    );
    Ok(Told {
        answer,
        words: Vec::new(alloc),
        scratch,
    })
}

// The same over records, where the entries can be lent so.
fn check_again<'a>(
    alloc: Global,
    room: &'a mut Room,
    nums: &[u64],
    case: &Case,
) -> Result<Option<Told<'a, RowCheck>>, AllocError> {
    match case.records() {
        Some(es) => Ok(Some(check_over(alloc, room, nums, case, &es)?)),
        None => Ok(None),
    }
}

fn row_check(
    alloc: Global,
    out: &mut Out,
    nums: &[u64],
    case: &Case,
    rooms: &mut Rooms,
) -> io::Result<()> {
    let told = check_over(alloc, &mut rooms.slices, nums, case, &case.slices())?;
    let again = check_again(alloc, &mut rooms.records, nums, case)?;
    compare(out, &told, &again)?;
    match told.answer {
        Ok(RowCheck::Good) => writeln!(out, "= good")?,
        Ok(RowCheck::Stray(login, column)) => writeln!(out, "= stray {login} {column}")?,
        Ok(RowCheck::Bin(login, row)) => writeln!(out, "= bin {login} {row}")?,
        Ok(RowCheck::Fld(login, row)) => writeln!(out, "= fld {login} {row}")?,
        Err(refusal) => {
            let number = refusal.number();
            writeln!(out, "! {number}")?;
        }
    }
    let scratch = Cleared(told.scratch);
    writeln!(out, "= {scratch}")
}

// digest: the digest of the relation.
fn digest_over<E: Entries>(case: &Case, es: &E) -> Result<[u8; 32], Refusal> {
    digest::relation_digest(case.m, case.q, case.lens.as_slice(), case.shapes, es)
}

fn relation_digest(out: &mut Out, case: &Case) -> io::Result<()> {
    let told = digest_over(case, &case.slices());
    let again = match case.records() {
        Some(es) => Some(digest_over(case, &es)),
        None => None,
    };
    compare(out, &told, &again)?;
    let digest = told.unwrap_or([0; 32]);
    match told {
        Ok(_) => write!(out, "= ")?,
        Err(refusal) => {
            let number = refusal.number();
            write!(out, "! {number} ")?;
        }
    }
    let hex = Hex(&digest);
    writeln!(out, "{hex}")
}

// Answers a query on matrices, or says that it is none.
pub(crate) fn answer(
    alloc: Global,
    out: &mut Out,
    name: &[u8],
    nums: &[u64],
    case: &Case,
    rooms: &mut Rooms,
) -> io::Result<bool> {
    match name {
        b"combo" => combo(alloc, out, nums, case, rooms)?,
        b"value" => value(alloc, out, nums, case, rooms)?,
        b"masks" => masks(alloc, out, nums, case)?,
        b"check" => row_check(alloc, out, nums, case, rooms)?,
        b"digest" => relation_digest(out, case)?,
        _ => return Ok(false),
    }
    Ok(true)
}
