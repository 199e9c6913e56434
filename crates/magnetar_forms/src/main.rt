// Answers the queries of standard input, a line for each, in two forms: matrices as four slices and as records, the transcript by value and
// in place. It writes the answer where both agree, else `differ` and both. The queries are those of `magnetar_vectors` on these functions,
// with the recorded answers (docs/VECTORS.md). A line that begins with # is copied.
#![tactic(auto)]

mod hash;
mod matrix;

use magnetar_replay::replay::Queries;
use magnetar_replay::show::Out;
use magnetar_replay::{line, replay};
use std::alloc::Global;
use std::io;
use std::io::{BufWriter, Write};

// How much is read, a mebibyte: the input is shorter.
const MOST_INPUT: usize = 1048576;

// How many numbers, byte strings and bytes a query may have.
const MOST: usize = 4096;

const MOST_STRINGS: usize = 256;

const MOST_BYTES: usize = 8192;

// What answers the queries.
#[derive(Drop)]
struct Forms {
    alloc: Global,
}

impl Queries<Out> for Forms {
    fn answer(&mut self, out: &mut Out, text: &[u8]) -> io::Result<bool> {
        let alloc = self.alloc;
        let nums = line::numbers(alloc, text)?;
        if nums.len() > MOST {
            replay::too_long(out)?;
            return Ok(true);
        }
        let name = line::name(text);
        if matrix::answer(alloc, out, name, nums.as_slice())? {
            return Ok(true);
        }
        let strings = line::byte_strings(alloc, text)?;
        if strings.lens.len() > MOST_STRINGS || text.len() / 2 > MOST_BYTES {
            replay::too_long(out)?;
            return Ok(true);
        }
        hash::answer(alloc, out, name, nums.as_slice(), &strings)
    }
}

fn main(rt: HostRuntime) -> io::Result<()> {
    let alloc = rt.alloc();
    let mut out = BufWriter::new(alloc, rt.stdout())?;
    let input = replay::read(alloc, rt.reader(), MOST_INPUT)?;
    let mut queries = Forms { alloc };
    replay::replay(&mut out, input.as_slice(), MOST_INPUT, &mut queries)?;
    out.flush()
}
