// Queries on matrices, as four slices and as records.
use magnetar_matrix::entries::{Entry, Records};
use magnetar_replay::line;
use magnetar_replay::matrix::{Function, Places};
use magnetar_replay::show::Out;
use std::alloc::{AllocError, Global};
use std::io;
use std::io::Write;

// How many rows and columns of entries a query may have.
const MOST_ENTRIES: usize = 32;

// The query's entries as records, as many as there are rows.
fn records(alloc: Global, nums: &[u64], places: &Places) -> Result<Vec<Entry>, AllocError> {
    let lo = line::list_from(nums, 4, 2);
    let hi = line::list_from(nums, 4, 3);
    let mut es = Vec::new(alloc);
    for (i, row) in places.row.iter().enumerate() {
        es.push(Entry {
            row: *row,
            col: places.col.get(i).copied().unwrap_or(0),
            lo: line::at(lo, i),
            hi: line::at(hi, i),
        })?;
    }
    Ok(es)
}

// Answers a query on a matrix, or says that it is none.
pub(crate) fn answer(alloc: Global, out: &mut Out, name: &[u8], nums: &[u64]) -> io::Result<bool> {
    let Some(function) = Function::named(name) else {
        return Ok(false);
    };
    let places = Places::new(alloc, nums, MOST_ENTRIES)?;
    let es = records(alloc, nums, &places)?;
    let records = Records {
        entries: es.as_slice(),
    };
    let told = function.asked(alloc, nums, &places.slices(nums))?;
    let again = function.asked(alloc, nums, &records)?;
    if told == again {
        function.write(out, &told)?;
    } else {
        writeln!(out, "differ")?;
        function.write(out, &told)?;
        function.write(out, &again)?;
    }
    Ok(true)
}
