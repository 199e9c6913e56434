// The rules of the vault as matrices, and the calls on them. A row says (A z)(B z) = C z, z being a login's 32 bits, the constant 1
// at column 32, and the login's own public elements: its folder's number at column 33, its key edition at 34, zeros after them.
//
// bin, 16 rows:  0 to 3   (1 + s0)(1 + s1) = none of both, for each pair of the secret's bits
//                4 to 6   the product of two nones is the none of all their bits
//                7        saved * none of all = 0
//                8        (the sum of the secret's bits + checksum) * 1 = 0
//                9 to 15  empty, and so they hold
// fld, 4 rows:   0        (1 + saved) * (s0 + s1 x + .. + s7 x^7) = 0
//                1        (f0 + f1 x + f2 x^2 + f3 x^3) * 1 = folder
//                2        (e0 + e1 x) * 1 = edition
//                3        empty
use crate::said::refused;
use crate::vault::Batch;
use magnetar_check::check;
use magnetar_check::check::RowCheck;
use magnetar_digest::digest;
use magnetar_field::refusal::Refusal;
use magnetar_hash::transcript;
use magnetar_hash::transcript::Transcript;
use magnetar_matrix::entries::{Entry, Records};
use magnetar_relation::shapes::{Shape, Shapes, SystemShape};
use magnetar_spartan::virtual_spartan;
use std::alloc::{AllocError, Global};
use std::io;

const M: usize = 64;

const Q: usize = 4;

const BIN: usize = 16;

const FLD: usize = 4;

// How many words of scratch the verifier and the prover of the vault ask for.
const VERIFIER_SCRATCH: usize = 2 * M + 2 * BIN + 2 * Q;

const PROVER_SCRATCH: usize = 8 * Q * (BIN + FLD) + 8 * M + 4 * BIN + 6 * Q;

// How many public words the four logins have.
pub(crate) const PUBLIC: usize = Q * (M - 2);

pub(crate) const SEGMENTS: [usize; 3] = [8, 8, 8];

// Those of the office's template: two more, at column 24 and from column 28 on. Columns 25 to 27 are padding.
pub(crate) const TEMPLATE: [usize; 5] = [8, 8, 8, 1, 4];

// The entries, each its row, its column and its value, an element below x^64.
const ENTRIES: [(usize, usize, u64); 61] = [
    // A of bin
    (0, 0, 1),
    (0, 32, 1),
    (1, 2, 1),
    (1, 32, 1),
    (2, 4, 1),
    (2, 32, 1),
    (3, 6, 1),
    (3, 32, 1),
    (4, 16, 1),
    (5, 18, 1),
    (6, 20, 1),
    (7, 8, 1),
    (8, 0, 1),
    (8, 1, 1),
    (8, 2, 1),
    (8, 3, 1),
    (8, 4, 1),
    (8, 5, 1),
    (8, 6, 1),
    (8, 7, 1),
    (8, 9, 1),
    // B of bin
    (0, 1, 1),
    (0, 32, 1),
    (1, 3, 1),
    (1, 32, 1),
    (2, 5, 1),
    (2, 32, 1),
    (3, 7, 1),
    (3, 32, 1),
    (4, 17, 1),
    (5, 19, 1),
    (6, 21, 1),
    (7, 22, 1),
    (8, 32, 1),
    // C of bin
    (0, 16, 1),
    (1, 17, 1),
    (2, 18, 1),
    (3, 19, 1),
    (4, 20, 1),
    (5, 21, 1),
    (6, 22, 1),
    // A of fld: the powers of x at the bits of folder and edition
    (0, 8, 1),
    (0, 32, 1),
    (1, 12, 1),
    (1, 13, 2),
    (1, 14, 4),
    (1, 15, 8),
    (2, 10, 1),
    (2, 11, 2),
    // B of fld: the powers of x at the bits of the secret
    (0, 0, 1),
    (0, 1, 2),
    (0, 2, 4),
    (0, 3, 8),
    (0, 4, 16),
    (0, 5, 32),
    (0, 6, 64),
    (0, 7, 128),
    (1, 32, 1),
    (2, 32, 1),
    // C of fld
    (1, 33, 1),
    (2, 34, 1),
];

fn shape(rows: usize, entries: usize) -> Shape {
    Shape {
        rows,
        cols: M,
        entries,
    }
}

fn shapes() -> Shapes {
    let bin = SystemShape {
        a: shape(BIN, 21),
        b: shape(BIN, 13),
        c: shape(BIN, 7),
    };
    let fld = SystemShape {
        a: shape(FLD, 8),
        b: shape(FLD, 10),
        c: shape(FLD, 2),
    };
    Shapes { bin, fld }
}

// The rules with the lengths of the segments.
#[derive(Drop)]
pub(crate) struct Rules {
    alloc: Global,
    lens: &'static [usize],
    entries: Vec<Entry>,
}

// What the office hands on: its answer, the proof, the claims and the transcript.
#[derive(Drop)]
pub(crate) struct Sent {
    pub outcome: Result<(), Refusal>,
    pub proof: Vec<u64>,
    pub claims: Vec<u64>,
    pub transcript: Transcript,
}

// What the laptop says of a proof: its answer, the claims and the transcript.
#[derive(Drop)]
pub(crate) struct Home {
    pub outcome: Result<(), Refusal>,
    pub claims: Vec<u64>,
    pub transcript: Transcript,
}

impl Rules {
    pub(crate) fn new(alloc: Global, lens: &'static [usize]) -> Result<Rules, AllocError> {
        let mut entries = Vec::with_capacity(alloc, ENTRIES.len())?;
        for (row, col, lo) in ENTRIES {
            entries.push(Entry {
                row,
                col,
                lo,
                hi: 0,
            })?;
        }
        Ok(Rules {
            alloc,
            lens,
            entries,
        })
    }

    // The same entries with other segments.
    pub(crate) fn with_segments(&self, lens: &'static [usize]) -> Result<Rules, AllocError> {
        Rules::new(self.alloc, lens)
    }

    // The digest of the rules for four logins: sizes, segments and entries.
    pub(crate) fn digest(&self) -> Result<[u8; 32], Refusal> {
        let es = Records {
            entries: self.entries.as_slice(),
        };
        digest::relation_digest(M, Q, self.lens, shapes(), &es)
    }

    // The transcript that both ends start with, bound to the rules, to the commitment and to the public words before anything is drawn
    // from it.
    pub(crate) fn start(&self, batch: &Batch) -> io::Result<Transcript> {
        self.start_with(batch.commitment()?, batch.public())
    }

    // The same with a commitment and public words.
    pub(crate) fn start_with(&self, committed: [u8; 32], x: &[u64]) -> io::Result<Transcript> {
        let mut parts = Vec::new(self.alloc);
        parts.extend_from_slice(&self.digest().map_err(refused)?)?;
        parts.extend_from_slice(&committed)?;
        let t = transcript::new(b"vault", parts.as_slice(), &[32, 32]).map_err(refused)?;
        transcript::absorb_field(t, b"public words", x).map_err(refused)
    }

    // The first stray bit, or the first row that fails.
    pub(crate) fn row_check(&self, batch: &Batch) -> Result<RowCheck, Refusal> {
        let es = Records {
            entries: self.entries.as_slice(),
        };
        let mut scratch = [0u64; 6 * BIN];
        check::row_check(
            &mut scratch,
            M,
            Q,
            self.lens,
            shapes(),
            &es,
            batch.packed(),
            batch.public(),
        )
    }

    // How many words the claims have: 2 elements of r_inst, 5 of r_low, and a value for each segment.
    fn claim_words(&self) -> usize {
        2 * 7usize.saturating_add(self.lens.len().min(64))
    }

    // How many words a proof has.
    fn proof_words(&self) -> usize {
        2 * 65usize.saturating_add(self.lens.len().min(64))
    }

    // The office's end, for q logins.
    pub(crate) fn prove(&self, q: usize, batch: &Batch, t: Transcript) -> Result<Sent, AllocError> {
        let es = Records {
            entries: self.entries.as_slice(),
        };
        let mut proof = vec![in self.alloc; 0u64; self.proof_words()]?;
        let mut claims = vec![in self.alloc; 0u64; self.claim_words()]?;
        let mut scratch = [0u64; PROVER_SCRATCH];
        let answer = virtual_spartan::prove_virtual_spartan(
            proof.as_mut_slice(),
            claims.as_mut_slice(),
            &mut scratch,
            M,
            q,
            self.lens,
            shapes(),
            &es,
            batch.packed(),
            batch.public(),
            t,
        );
        Ok(Sent {
            outcome: answer.map(|_| ()),
            proof,
            claims,
            transcript: answer.unwrap_or(t),
        })
    }

    // The laptop's end, for q logins: it sees no bit.
    pub(crate) fn verify(
        &self,
        q: usize,
        x: &[u64],
        proof: &[u64],
        t: Transcript,
    ) -> Result<Home, AllocError> {
        let es = Records {
            entries: self.entries.as_slice(),
        };
        let mut claims = vec![in self.alloc; 0u64; self.claim_words()]?;
        let mut scratch = [0u64; VERIFIER_SCRATCH];
        let verified = virtual_spartan::verify_virtual_spartan(
            claims.as_mut_slice(),
            &mut scratch,
            M,
            q,
            self.lens,
            shapes(),
            &es,
            x,
            proof,
            t,
        );
        Ok(Home {
            outcome: verified.outcome,
            claims,
            transcript: verified.transcript,
        })
    }
}
