// What the program runs on, filled by rule. With D a sum of 512 columns that lie apart, from the first to the last, each times its value,
// both systems say of a login's z, w being its last bit:
//
// row 0   (w + 1) * D = 0     A: two entries, B: D
// row 1   D * 1 = D           A: D, B: one entry, C: D
//
// bin has these two rows and the values 1; fld has two empty rows more, and other values.
use magnetar_field::gf128::{Gf128, ONE};
use magnetar_hash::transcript;
use magnetar_hash::transcript::Transcript;
use magnetar_matrix::entries::Slices;
use magnetar_relation::shapes::{Shape, Shapes, SystemShape};
use std::alloc::{AllocError, Global};
use std::ops::Range;

// What each word of the logins and of the public words is more than the one before it, modulo 2^64.
pub(crate) const STEP: u64 = 0x9e3779b97f4a7c15;

// All segments together are all 32,768 bits of a login.
pub(crate) const SEGMENTS: [usize; 3] = [16384, 8192, 8192];

// All but the last bit.
pub(crate) const SHORT: [usize; 15] = [
    16384, 8192, 4096, 2048, 1024, 512, 256, 128, 64, 32, 16, 8, 4, 2, 1,
];

// The highest bit of a word.
const TOP: u64 = 0x8000000000000000;

// Where each of the six matrices begins among the entries, and where the last one ends; A, B and C have 514, 513 and 512 of them.
pub(crate) const ENDS: [usize; 7] = [0, 514, 1027, 1539, 2053, 2566, 3078];

// The columns w and 1, before and behind the middle.
const LAST_BIT: usize = 32767;

const CONSTANT: usize = 32768;

// The logins that a call is on: how many columns, how many logins, their words, and their public words.
#[derive(Clone, Copy)]
pub(crate) struct Batch<'a> {
    pub(crate) m: usize,
    pub(crate) q: usize,
    pub(crate) packed: &'a [u64],
    pub(crate) x: &'a [u64],
}

// Sets the words to w, w + STEP, w + 2 STEP and so on, modulo 2^64.
pub(crate) fn fill(s: &mut [u64], w: u64) {
    let mut next = w;
    for word in s {
        *word = next;
        next = next.wrapping_add(STEP);
    }
}

// Turns the highest bit of word i.
pub(crate) fn flip(s: &mut [u64], i: usize) {
    if let Some(word) = s.get_mut(i) {
        *word ^= TOP;
    }
}

// The words of two logins, 512 each, whose last bits are set.
pub(crate) fn packed(alloc: Global) -> Result<Vec<u64>, AllocError> {
    let mut words = vec![in alloc; 0u64; 1024]?;
    let s = words.as_mut_slice();
    fill(s, STEP);
    for login in s.chunks_exact_mut(512) {
        if let Some(last) = login.last_mut() {
            *last |= TOP;
        }
    }
    Ok(words)
}

// The words of the first login, or of both.
pub(crate) fn logins(words: &[u64], q: usize) -> &[u64] {
    if q == 1 {
        &words[..words.len() / 2]
    } else {
        words
    }
}

// The public words of two logins; those of the second one's columns go on where those of the first one end.
pub(crate) fn own(alloc: Global) -> Result<Vec<u64>, AllocError> {
    let mut x = vec![in alloc; 0u64; 131068]?;
    fill(x.as_mut_slice(), 1);
    Ok(x)
}

// The same of two logins that have the same columns.
pub(crate) fn repeated(alloc: Global) -> Result<Vec<u64>, AllocError> {
    let mut x = vec![in alloc; 0u64; 131068]?;
    for login in x.as_mut_slice().chunks_exact_mut(65534) {
        fill(login, 1);
    }
    Ok(x)
}

// One of the two systems.
#[derive(Clone, Copy)]
enum System {
    Bin,
    Fld,
}

impl System {
    // The value at column k of D.
    fn value(self, k: u64) -> Gf128 {
        match self {
            System::Bin => ONE,
            System::Fld => Gf128 {
                lo: (k << 53) ^ (k << 9) ^ 1,
                hi: (k << 41) ^ k,
            },
        }
    }
}

// The entries of both systems, A, B and C of bin and then of fld.
#[derive(Drop)]
pub(crate) struct Relation {
    row: Vec<usize>,
    col: Vec<usize>,
    lo: Vec<u64>,
    hi: Vec<u64>,
}

impl Relation {
    pub(crate) fn new(alloc: Global) -> Result<Relation, AllocError> {
        let mut relation = Relation {
            row: Vec::new(alloc),
            col: Vec::new(alloc),
            lo: Vec::new(alloc),
            hi: Vec::new(alloc),
        };
        for system in [System::Bin, System::Fld] {
            relation.push(0, LAST_BIT, ONE)?;
            relation.push(0, CONSTANT, ONE)?;
            relation.push_sum(1, system)?;
            relation.push_sum(0, system)?;
            relation.push(1, CONSTANT, ONE)?;
            relation.push_sum(1, system)?;
        }
        Ok(relation)
    }

    fn push(&mut self, row: usize, col: usize, value: Gf128) -> Result<(), AllocError> {
        self.row.push(row)?;
        self.col.push(col)?;
        self.lo.push(value.lo)?;
        self.hi.push(value.hi)?;
        Ok(())
    }

    // D in a row: column k of it is 0, 129, 258 and so on to 32,767 for k = 255, then 32,768 to 65,535.
    fn push_sum(&mut self, row: usize, system: System) -> Result<(), AllocError> {
        for k in 0..512usize {
            self.push(row, 128 * k + k % 128, system.value(k as u64))?;
        }
        Ok(())
    }

    // All entries.
    pub(crate) fn entries(&self) -> Slices<'_> {
        Slices {
            row: self.row.as_slice(),
            col: self.col.as_slice(),
            lo: self.lo.as_slice(),
            hi: self.hi.as_slice(),
        }
    }

    // Those of one matrix.
    pub(crate) fn matrix(&self, at: Range<usize>) -> Slices<'_> {
        Slices {
            row: part(self.row.as_slice(), &at),
            col: part(self.col.as_slice(), &at),
            lo: part(self.lo.as_slice(), &at),
            hi: part(self.hi.as_slice(), &at),
        }
    }
}

fn part<'a, T>(s: &'a [T], at: &Range<usize>) -> &'a [T] {
    s.get(at.start..at.end).unwrap_or(&[])
}

fn system_shape(rows: usize, m: usize) -> SystemShape {
    let shape = |entries| Shape {
        rows,
        cols: m,
        entries,
    };
    SystemShape {
        a: shape(514),
        b: shape(513),
        c: shape(512),
    }
}

pub(crate) fn shapes(m: usize) -> Shapes {
    Shapes {
        bin: system_shape(2, m),
        fld: system_shape(4, m),
    }
}

// The transcript that both ends start with, and every digest.
pub(crate) fn start() -> Transcript {
    transcript::new(b"limits", b"", &[]).unwrap_or(Transcript {
        state: [0; 32],
        squeeze_ctr: 0,
    })
}
