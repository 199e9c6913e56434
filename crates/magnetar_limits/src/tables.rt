// Packed products, fold and combined table.
use crate::filled;
use crate::filled::{Batch, ENDS, Relation};
use crate::told::Digest;
use magnetar_batch::{combo, fold};
use magnetar_r1cs::r1cs;
use magnetar_replay::show;
use magnetar_replay::show::{MARK, Out};
use std::io;
use std::io::Write;
use std::ops::Range;

// The product of the matrix of n rows whose entries stand at these places with each login.
fn product(
    out: &mut Out,
    relation: &Relation,
    batch: Batch<'_>,
    n: usize,
    at: Range<usize>,
) -> io::Result<()> {
    let mut room = [MARK; 20];
    let bits = r1cs::apply_simd_packed(
        n,
        batch.m,
        &relation.matrix(at),
        batch.packed,
        batch.x,
        batch.q,
        batch.m / 2,
        &mut room,
    );
    let words = Digest(&room);
    match bits {
        Ok(true) => write!(out, "  packed product  yes")?,
        Ok(false) => write!(out, "  packed product  no")?,
        Err(refusal) => {
            let number = refusal.number();
            write!(out, "  packed product  {number}")?;
        }
    }
    writeln!(out, ", products {words}")
}

// The products of all six matrices.
pub(crate) fn products(out: &mut Out, relation: &Relation, batch: Batch<'_>) -> io::Result<()> {
    for (k, ends) in ENDS.windows(2).enumerate() {
        let n = if k < 3 { 2 } else { 4 };
        product(out, relation, batch, n, ends[0]..ends[1])?;
    }
    Ok(())
}

// The point that q logins are folded at: of one element for two, of none for one.
fn point(words: &[u64], q: usize) -> &[u64] {
    if q == 1 { &words[..0] } else { words }
}

pub(crate) fn fold(out: &mut Out, batch: Batch<'_>, table: &mut [u64]) -> io::Result<()> {
    let mut scratch = [MARK; 6];
    let mut at = [0u64; 2];
    filled::fill(&mut at, 7);
    let point = point(&at, batch.q);
    table.fill(MARK);
    let folded = fold::fold_packed_w(
        batch.packed,
        batch.q,
        batch.m / 2,
        point,
        table,
        &mut scratch,
    );
    let number = show::code(folded);
    let table = Digest(table);
    let scratch = Digest(&scratch);
    writeln!(
        out,
        "  fold            {number}, folded {table}, scratch {scratch}"
    )
}

// The table of six alphas and the points of both systems' rows.
pub(crate) fn combined(
    out: &mut Out,
    relation: &Relation,
    m: usize,
    table: &mut [u64],
    scratch: &mut [u64],
) -> io::Result<()> {
    let mut alphas = [0u64; 12];
    let mut pb = [0u64; 2];
    let mut pf = [0u64; 4];
    filled::fill(&mut alphas, 11);
    filled::fill(&mut pb, 12);
    filled::fill(&mut pf, 13);
    table.fill(MARK);
    scratch.fill(MARK);
    let shapes = filled::shapes(m);
    let entries = relation.entries();
    let built = combo::build_m_combo(table, scratch, m, shapes, &entries, &alphas, &pb, &pf);
    let number = show::code(built);
    let table = Digest(table);
    let scratch = Digest(scratch);
    writeln!(
        out,
        "  combined table  {number}, table {table}, scratch {scratch}"
    )
}
