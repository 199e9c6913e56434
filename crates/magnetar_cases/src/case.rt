// The relation that a line `case` tells, with its batch.
use magnetar_matrix::entries::{Entry, Records, Slices};
use magnetar_relation::shapes::{Shape, Shapes, SystemShape};
use magnetar_replay::line;
use magnetar_replay::show::Out;
use std::alloc::{AllocError, Global};
use std::io;
use std::io::Write;

// How many numbers a relation may have; those that are not there are 0.
pub(crate) const MOST: usize = 18432;

// How many entries records are made of.
const MOST_RECORDS: usize = 384;

// The relation and its batch; its entries as four lists, and as records where the lists are of one length and not too long.
#[derive(Drop)]
pub(crate) struct Case {
    pub m: usize,
    pub q: usize,
    pub lens: Vec<usize>,
    pub x: Vec<u64>,
    pub packed: Vec<u64>,
    pub shapes: Shapes,
    pub row: Vec<usize>,
    pub col: Vec<usize>,
    pub lo: Vec<u64>,
    pub hi: Vec<u64>,
    pub records: Option<Vec<Entry>>,
}

// The shape whose three numbers start at index i.
fn shape(nums: &[u64], i: usize) -> Shape {
    let rest = nums.get(i..).unwrap_or(&[]);
    Shape {
        rows: line::size(rest, 0),
        cols: line::size(rest, 1),
        entries: line::size(rest, 2),
    }
}

// The shapes whose nine numbers start at index i.
fn system(nums: &[u64], i: usize) -> SystemShape {
    let rest = nums.get(i..).unwrap_or(&[]);
    SystemShape {
        a: shape(rest, 0),
        b: shape(rest, 3),
        c: shape(rest, 6),
    }
}

// The records of four lists, as a query has them, or None where they are not of one length, or too long.
fn records(
    alloc: Global,
    row: &[usize],
    col: &[usize],
    lo: &[u64],
    hi: &[u64],
) -> Result<Option<Vec<Entry>>, AllocError> {
    let n = row.len();
    if col.len() != n || lo.len() != n || hi.len() != n || n > MOST_RECORDS {
        return Ok(None);
    }
    let mut es = Vec::with_capacity(alloc, n)?;
    let places = row.iter().zip(col);
    let values = lo.iter().zip(hi);
    for ((row, col), (lo, hi)) in places.zip(values) {
        es.push(Entry {
            row: *row,
            col: *col,
            lo: *lo,
            hi: *hi,
        })?;
    }
    Ok(Some(es))
}

impl Case {
    // From the numbers of its line: nine lists.
    pub(crate) fn new(alloc: Global, given: Vec<u64>) -> Result<Case, AllocError> {
        let mut given = given;
        given.resize(MOST, 0)?;
        let nums = given.as_slice();
        let sizes = line::list(nums, 0);
        let told = line::list(nums, 4);
        let row = line::sizes(alloc, line::list(nums, 5))?;
        let col = line::sizes(alloc, line::list(nums, 6))?;
        let lo = Vec::from_slice(alloc, line::list(nums, 7))?;
        let hi = Vec::from_slice(alloc, line::list(nums, 8))?;
        let records = records(
            alloc,
            row.as_slice(),
            col.as_slice(),
            lo.as_slice(),
            hi.as_slice(),
        )?;
        Ok(Case {
            m: line::size(sizes, 0),
            q: line::size(sizes, 1),
            lens: line::sizes(alloc, line::list(nums, 1))?,
            x: Vec::from_slice(alloc, line::list(nums, 2))?,
            packed: Vec::from_slice(alloc, line::list(nums, 3))?,
            shapes: Shapes {
                bin: system(told, 0),
                fld: system(told, 9),
            },
            row,
            col,
            lo,
            hi,
            records,
        })
    }

    // The entries as four slices.
    pub(crate) fn slices(&self) -> Slices<'_> {
        Slices {
            row: self.row.as_slice(),
            col: self.col.as_slice(),
            lo: self.lo.as_slice(),
            hi: self.hi.as_slice(),
        }
    }

    // The entries as records, where they can be lent so.
    pub(crate) fn records(&self) -> Option<Records<'_>> {
        match &self.records {
            Some(es) => Some(Records {
                entries: es.as_slice(),
            }),
            None => None,
        }
    }
}

// A line `alone` where a call was not asked of records, and a line `differ` where it answered something else there.
pub(crate) fn compare<A: PartialEq>(
    out: &mut Out,
    answer: &A,
    again: &Option<A>,
) -> io::Result<()> {
    match again {
        None => writeln!(out, "alone"),
        Some(again) => {
            if *again == *answer {
                return Ok(());
            }
            writeln!(out, "differ")
        }
    }
}
