// Words to lend as scratch. They are kept from one query to the next, so that no query asks for memory that an earlier one had.
use magnetar_replay::show::MARK;
use std::alloc::{AllocError, Global};

// How many words are lent as scratch at most.
const MOST_SCRATCH: usize = 90136;

// The scratch of one call.
#[derive(Drop)]
pub(crate) struct Room {
    words: Vec<u64>,
}

impl Room {
    // n words, each marked.
    pub(crate) fn marked(&mut self, n: usize) -> Result<&mut [u64], AllocError> {
        self.words.clear();
        self.words.resize(n.min(MOST_SCRATCH), MARK)?;
        Ok(self.words.as_mut_slice())
    }
}

// The scratch of a call over slices, and that of the same call over records.
#[derive(Drop)]
pub(crate) struct Rooms {
    pub slices: Room,
    pub records: Room,
}

impl Rooms {
    pub(crate) fn new(alloc: Global) -> Rooms {
        Rooms {
            slices: Room {
                words: Vec::new(alloc),
            },
            records: Room {
                words: Vec::new(alloc),
            },
        }
    }
}
