// Queries on matrices, folds and layouts. A matrix is its numbers of rows and columns and four lists: the rows, the columns,
// the low words and the high words of its entries.
use magnetar_batch::fold;
use magnetar_layout::layout;
use magnetar_multilinear::multilinear;
use magnetar_replay::matrix::{Function, Places};
use magnetar_replay::show::{Element, Out, Sizes};
use magnetar_replay::{line, show};
use std::alloc::Global;
use std::io;
use std::io::Write;

// How many words are lent at most, to be written to and as scratch, how many offsets, and how many rows, columns or lengths a query has.
const MOST_WORDS: usize = 4096;

const MOST_SCRATCH: usize = 1024;

const MOST_OFFSETS: usize = 128;

const MOST_SIZES: usize = 128;

// foldinst LENT SCRATCH V P
fn instances(alloc: Global, out: &mut Out, nums: &[u64]) -> io::Result<()> {
    let mut scratch = line::marked(alloc, line::size(nums, 1).min(MOST_SCRATCH))?;
    let v = line::list_from(nums, 2, 0);
    let p = line::list_from(nums, 2, 1);
    let value = fold::fold_instances(v, p, scratch.as_mut_slice());
    show::answer(out, value.map(Element))?;
    show::listed(out, scratch.as_slice())
}

// foldw LENT SCRATCH Q W PACKED P
fn witness(alloc: Global, out: &mut Out, nums: &[u64]) -> io::Result<()> {
    let mut room = line::marked(alloc, line::size(nums, 0).min(MOST_WORDS))?;
    let mut scratch = line::marked(alloc, line::size(nums, 1).min(MOST_SCRATCH))?;
    let folded = fold::fold_packed_w(
        line::list_from(nums, 4, 0),
        line::size(nums, 2),
        line::size(nums, 3),
        line::list_from(nums, 4, 1),
        room.as_mut_slice(),
        scratch.as_mut_slice(),
    );
    show::written(out, folded, room.as_slice())?;
    show::listed(out, scratch.as_slice())
}

// foldx LENT Q W X P C: the folded public half of W columns, and its value at C.
fn publics(alloc: Global, out: &mut Out, nums: &[u64]) -> io::Result<()> {
    let mut room = line::marked(alloc, line::size(nums, 0).min(MOST_WORDS))?;
    let w = line::size(nums, 2);
    let folded = fold::fold_public_in(
        line::list_from(nums, 3, 0),
        line::size(nums, 1),
        w,
        line::list_from(nums, 3, 1),
        room.as_mut_slice(),
    );
    show::written(out, folded, room.as_slice())?;
    if folded.is_err() {
        return Ok(());
    }
    let mut scratch = line::marked(alloc, MOST_SCRATCH)?;
    let half = room.as_slice();
    let half = half.get(..2 * w.min(MOST_SCRATCH / 2)).unwrap_or(half);
    let value = multilinear::eval_mle(half, line::list_from(nums, 3, 2), scratch.as_mut_slice());
    show::answer(out, value.map(Element))
}

// A number, or "none" where there is no such segment.
fn print_reading(
    out: &mut Out,
    answer: Result<Option<usize>, magnetar_field::refusal::Refusal>,
) -> io::Result<()> {
    match answer {
        Ok(Some(n)) => writeln!(out, "= {n}"),
        Ok(None) => writeln!(out, "= none"),
        Err(refusal) => show::refused(out, refusal),
    }
}

// layout LENT W LENS: the outcome where LENT sizes are lent for the offsets.
fn offsets(alloc: Global, out: &mut Out, n: usize, w: usize, lens: &[usize]) -> io::Result<()> {
    let mut room = vec![in alloc; show::MARK as usize; n.min(MOST_OFFSETS)]?;
    let number = show::code(layout::build(w, lens, room.as_mut_slice()));
    let offsets = Sizes(room.as_slice());
    writeln!(out, "= {number} {offsets}")
}

// reading I W LENS: all that there is to read of segment I.
fn reading(out: &mut Out, i: usize, w: usize, lens: &[usize]) -> io::Result<()> {
    print_reading(out, layout::offset(w, lens, i))?;
    print_reading(out, layout::local_vars(w, lens, i))?;
    print_reading(out, layout::suffix_bits(w, lens, i))?;
    print_reading(out, layout::b_i(w, lens, i))?;
    show::answer(out, layout::witness_vars(w))
}

// Answers a query on a layout, or says that it is none: LENT or a segment's number, W, the lengths, and for segment the folded vector.
fn layouts(alloc: Global, out: &mut Out, name: &[u8], nums: &[u64]) -> io::Result<bool> {
    let lens = line::sizes_within(alloc, line::list_from(nums, 2, 0), MOST_SIZES)?;
    let lens = lens.as_slice();
    let n = line::size(nums, 0);
    let w = line::size(nums, 1);
    match name {
        b"layout" => offsets(alloc, out, n, w, lens)?,
        b"reading" => reading(out, n, w, lens)?,
        b"segment" => show::listed(
            out,
            layout::segment(line::list_from(nums, 2, 1), w, lens, n),
        )?,
        _ => return Ok(false),
    }
    Ok(true)
}

// Answers a query on matrices, folds and layouts, or says that it is none.
pub(crate) fn answer(alloc: Global, out: &mut Out, name: &[u8], nums: &[u64]) -> io::Result<bool> {
    if let Some(function) = Function::named(name) {
        let places = Places::new(alloc, nums, MOST_SIZES)?;
        let told = function.asked(alloc, nums, &places.slices(nums))?;
        function.write(out, &told)?;
        return Ok(true);
    }
    match name {
        b"foldinst" => instances(alloc, out, nums)?,
        b"foldw" => witness(alloc, out, nums)?,
        b"foldx" => publics(alloc, out, nums)?,
        _ => return layouts(alloc, out, name, nums),
    }
    Ok(true)
}
