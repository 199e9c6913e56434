// Answers the queries of standard input, a line for each: the recorded answers are `stdout`
// (docs/VECTORS.md says what each query asks and where its answer comes from). A line that begins with # is copied.
#![tactic(auto)]

mod field;
mod hash;
mod matrix;
mod sumcheck;

use magnetar_replay::replay::Queries;
use magnetar_replay::show::Out;
use magnetar_replay::{line, replay};
use std::alloc::Global;
use std::io;
use std::io::{BufWriter, Write};

// How much is read, a mebibyte: the input is shorter.
const MOST_INPUT: usize = 1048576;

// How many numbers a query may have, how many byte strings, and how many letters where it has these.
const MOST: usize = 4096;

const MOST_STRINGS: usize = 256;

const MOST_LETTERS: usize = 16384;

// What answers the queries.
#[derive(Drop)]
struct Vectors {
    alloc: Global,
}

impl Queries<Out> for Vectors {
    fn answer(&mut self, out: &mut Out, text: &[u8]) -> io::Result<bool> {
        let alloc = self.alloc;
        let nums = line::numbers(alloc, text)?;
        if nums.len() > MOST {
            replay::too_long(out)?;
            return Ok(true);
        }
        let name = line::name(text);
        let nums = nums.as_slice();
        if field::answer(alloc, out, name, nums)?
            || sumcheck::answer(alloc, out, name, nums)?
            || matrix::answer(alloc, out, name, nums)?
        {
            return Ok(true);
        }
        let strings = line::byte_strings(alloc, text)?;
        if strings.lens.len() > MOST_STRINGS || text.len() > MOST_LETTERS {
            replay::too_long(out)?;
            return Ok(true);
        }
        hash::answer(alloc, out, name, nums, &strings)
    }
}

fn main(rt: HostRuntime) -> io::Result<()> {
    let alloc = rt.alloc();
    let mut out = BufWriter::new(alloc, rt.stdout())?;
    let input = replay::read(alloc, rt.reader(), MOST_INPUT)?;
    let mut queries = Vectors { alloc };
    replay::replay(&mut out, input.as_slice(), MOST_INPUT, &mut queries)?;
    out.flush()
}
