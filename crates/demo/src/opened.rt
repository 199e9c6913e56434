// The claims against the bits: whoever holds the bits of the commitment does this once a proof is accepted. A claim is the value of a
// segment of the logins, folded at r_inst, at the front of r_low. The claims are r_inst, 2 elements, r_low, 5, and a value for each segment.
use crate::rules;
use crate::vault::Batch;
use magnetar_batch::fold;
use magnetar_field::words;
use magnetar_layout::layout;
use magnetar_multilinear::multilinear;
use std::fmt;
use std::io::Result;

// What the claims say of the bits of a commitment.
#[derive(Clone, Copy)]
pub(crate) enum Claims {
    OtherBits,
    True,
    FalseOn(usize),
}

impl Claims {
    pub(crate) fn of(batch: &Batch, committed: [u8; 32], claims: &[u64]) -> Result<Claims> {
        if batch.commitment()? != committed {
            return Ok(Claims::OtherBits);
        }
        let z = folded(batch, claims);
        for i in 0..rules::SEGMENTS.len() {
            if !holds(&z, i, claims) {
                return Ok(Claims::FalseOn(i));
            }
        }
        Ok(Claims::True)
    }
}

impl fmt::Display for Claims {
    fn fmt<W: fmt::Write>(&self, f: &mut fmt::Formatter<W>) -> fmt::Result {
        match self {
            Claims::OtherBits => f.write_str("these are not the committed bits"),
            Claims::True => f.write_str("all three are true of the committed bits"),
            Claims::FalseOn(i) => {
                write!(f, "that on segment {i} is not true of the committed bits")
            }
        }
    }
}

// The words from a to b.
pub(crate) fn between(s: &[u64], a: usize, b: usize) -> &[u64] {
    s.get(a..b).unwrap_or(&[])
}

// The four logins folded at r_inst.
fn folded(batch: &Batch, claims: &[u64]) -> [u64; 64] {
    let mut z = [0u64; 64];
    let mut scratch = [0u64; 8];
    let point = between(claims, 0, 4);
    let _done = fold::fold_packed_w(batch.packed(), 4, 32, point, &mut z, &mut scratch);
    z
}

// Whether the claim on segment i is true of the folded logins. A segment has 8 columns, so its point is the first 3 elements of r_low.
fn holds(z: &[u64], i: usize, claims: &[u64]) -> bool {
    let mut scratch = [0u64; 16];
    let segment = layout::segment(z, 32, &rules::SEGMENTS, i);
    let value = multilinear::eval_mle(segment, between(claims, 4, 10), &mut scratch);
    value == Ok(words::get(claims, i.saturating_add(7)))
}
