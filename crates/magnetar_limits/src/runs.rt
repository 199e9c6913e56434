// The row check, the prover and the verifier.
use crate::filled;
use crate::filled::{Batch, Relation};
use crate::told::{Digest, Next};
use magnetar_check::check;
use magnetar_check::check::RowCheck;
use magnetar_replay::show::{MARK, Out};
use magnetar_replay::{line, show};
use magnetar_spartan::virtual_spartan;
use std::alloc::Global;
use std::io;
use std::io::Write;

// The row check with these segments, after what it is called.
fn check(
    out: &mut Out,
    name: &str,
    relation: &Relation,
    batch: Batch<'_>,
    lens: &[usize],
    scratch: &mut [u64],
) -> io::Result<()> {
    scratch.fill(MARK);
    let entries = relation.entries();
    let shapes = filled::shapes(batch.m);
    let (m, q) = (batch.m, batch.q);
    let found = check::row_check(scratch, m, q, lens, shapes, &entries, batch.packed, batch.x);
    write!(out, "  {name} ")?;
    match found {
        Ok(RowCheck::Good) => write!(out, "good")?,
        Ok(RowCheck::Stray(login, column)) => write!(out, "stray {login} {column}")?,
        Ok(RowCheck::Bin(login, row)) => write!(out, "bin {login} {row}")?,
        Ok(RowCheck::Fld(login, row)) => write!(out, "fld {login} {row}")?,
        Err(refusal) => {
            let number = refusal.number();
            write!(out, "{number}")?;
        }
    }
    let scratch = Digest(scratch);
    writeln!(out, ", scratch {scratch}")
}

// The row check; then with segments that leave out the last column.
pub(crate) fn checks(
    out: &mut Out,
    relation: &Relation,
    batch: Batch<'_>,
    scratch: &mut [u64],
) -> io::Result<()> {
    check(
        out,
        "row check      ",
        relation,
        batch,
        &filled::SEGMENTS,
        scratch,
    )?;
    check(
        out,
        "last column out",
        relation,
        batch,
        &filled::SHORT,
        scratch,
    )
}

fn prove(
    out: &mut Out,
    relation: &Relation,
    batch: Batch<'_>,
    proof: &mut [u64],
    scratch: &mut [u64],
) -> io::Result<()> {
    let mut claims = [MARK; 40];
    scratch.fill(MARK);
    let entries = relation.entries();
    let proved = virtual_spartan::prove_virtual_spartan(
        proof,
        &mut claims,
        scratch,
        batch.m,
        batch.q,
        &filled::SEGMENTS,
        filled::shapes(batch.m),
        &entries,
        batch.packed,
        batch.x,
        filled::start(),
    );
    let number = show::code(proved);
    let next = Next(proved.unwrap_or(filled::start()));
    let proof = Digest(proof);
    let claims = Digest(&claims);
    let scratch = Digest(scratch);
    write!(
        out,
        "  prove           {number}, transcript {next}, proof {proof}"
    )?;
    writeln!(out, ", claims {claims}, scratch {scratch}")
}

fn verify(
    out: &mut Out,
    relation: &Relation,
    batch: Batch<'_>,
    proof: &[u64],
    scratch: &mut [u64],
) -> io::Result<()> {
    let mut claims = [MARK; 40];
    scratch.fill(MARK);
    let entries = relation.entries();
    let verified = virtual_spartan::verify_virtual_spartan(
        &mut claims,
        scratch,
        batch.m,
        batch.q,
        &filled::SEGMENTS,
        filled::shapes(batch.m),
        &entries,
        batch.x,
        proof,
        filled::start(),
    );
    let number = show::code(verified.outcome);
    let next = Next(verified.transcript);
    let claims = Digest(&claims);
    let scratch = Digest(scratch);
    write!(out, "  verify          {number}, transcript {next}")?;
    writeln!(out, ", claims {claims}, scratch {scratch}")
}

// Both ends; then the verifier again, with a bit of the last segment's value turned. A proof of one login has 140 words, one of two 156.
pub(crate) fn ends(
    alloc: Global,
    out: &mut Out,
    relation: &Relation,
    batch: Batch<'_>,
    scratch: &mut [u64],
) -> io::Result<()> {
    let length = if batch.q == 1 { 140 } else { 156 };
    let mut proof = line::marked(alloc, length)?;
    prove(out, relation, batch, proof.as_mut_slice(), scratch)?;
    verify(out, relation, batch, proof.as_slice(), scratch)?;
    filled::flip(proof.as_mut_slice(), length - 1);
    verify(out, relation, batch, proof.as_slice(), scratch)
}
