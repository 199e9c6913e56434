// Replays queries on a whole relation: reads the relation with its batch, calls the function that a line names and writes all
// that the call hands back (docs/VECTORS.md), after a line `differ` where the same call over records hands back something else, and
// after a line `alone` where it cannot be asked of records. A line that begins with # is copied.
#![tactic(auto)]

mod case;
mod checks;
mod matrices;
mod room;
mod runs;

use crate::case::Case;
use crate::room::Rooms;
use magnetar_replay::replay::Queries;
use magnetar_replay::show::Out;
use magnetar_replay::{line, replay};
use std::alloc::Global;
use std::io;
use std::io::{BufWriter, Write};

// How much is read, two mebibytes: the input is shorter.
const MOST_INPUT: usize = 2097152;

// How many numbers a query may have.
const MOST: usize = 1024;

// What answers the queries of a line: the last relation, and words to lend.
#[derive(Drop)]
struct Cases {
    alloc: Global,
    case: Case,
    rooms: Rooms,
}

impl Queries<Out> for Cases {
    fn answer(&mut self, out: &mut Out, text: &[u8]) -> io::Result<bool> {
        let alloc = self.alloc;
        let nums = line::numbers(alloc, text)?;
        if line::name(text) == b"case".as_slice() {
            if nums.len() > case::MOST {
                replay::too_long(out)?;
            }
            self.case = Case::new(alloc, nums)?;
            return Ok(true);
        }
        if nums.len() > MOST {
            replay::too_long(out)?;
            return Ok(true);
        }
        let name = line::name(text);
        let nums = nums.as_slice();
        let case = &mut self.case;
        let rooms = &mut self.rooms;
        if matrices::answer(alloc, out, name, nums, case, rooms)? {
            return Ok(true);
        }
        if checks::answer(alloc, out, name, nums, case, rooms)? {
            return Ok(true);
        }
        runs::answer(alloc, out, name, line::hash(text), nums, case, rooms)
    }
}

fn main(rt: HostRuntime) -> io::Result<()> {
    let alloc = rt.alloc();
    let mut out = BufWriter::new(alloc, rt.stdout())?;
    let input = replay::read(alloc, rt.reader(), MOST_INPUT)?;
    let mut queries = Cases {
        alloc,
        case: Case::new(alloc, Vec::new(alloc))?,
        rooms: Rooms::new(alloc),
    };
    replay::replay(&mut out, input.as_slice(), MOST_INPUT, &mut queries)?;
    out.flush()
}
