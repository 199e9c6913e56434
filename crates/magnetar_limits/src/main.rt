// The most columns, m = 65,536, run to a result: packed products, fold, combined table, row check, prover and verifier, for one login
// and for two, also where each has its own public columns. Then twice as many columns, which all six refuse. The program fills by rule
// what it lends, and writes of a slice its digest. The expected answers are the Rust's (docs/VECTORS.md).
#![tactic(auto)]

mod filled;
mod runs;
mod tables;
mod told;

use crate::filled::{Batch, Relation};
use magnetar_replay::show::Out;
use std::alloc::Global;
use std::io;
use std::io::{BufWriter, Write};

const M: usize = 65536;

// The row checks and both ends.
fn whole(
    alloc: Global,
    out: &mut Out,
    relation: &Relation,
    batch: Batch<'_>,
    scratch: &mut [u64],
) -> io::Result<()> {
    runs::checks(out, relation, batch, scratch)?;
    runs::ends(alloc, out, relation, batch, scratch)
}

// All six functions.
fn all(
    alloc: Global,
    out: &mut Out,
    relation: &Relation,
    batch: Batch<'_>,
    table: &mut [u64],
    scratch: &mut [u64],
) -> io::Result<()> {
    let m = batch.m;
    let q = batch.q;
    writeln!(out, "m {m}, q {q}")?;
    tables::products(out, relation, batch)?;
    tables::fold(out, batch, table)?;
    tables::combined(out, relation, m, table, scratch)?;
    whole(alloc, out, relation, batch, scratch)
}

// q logins as they are filled; then the last bit of the first login is not set: row 0 of bin fails.
fn both(
    alloc: Global,
    out: &mut Out,
    relation: &Relation,
    q: usize,
    x: &[u64],
    table: &mut [u64],
    scratch: &mut [u64],
) -> io::Result<()> {
    let mut packed = filled::packed(alloc)?;
    let batch = Batch {
        m: M,
        q,
        packed: filled::logins(packed.as_slice(), q),
        x,
    };
    all(alloc, out, relation, batch, table, scratch)?;
    filled::flip(packed.as_mut_slice(), 511);
    writeln!(out, "the last bit of login 0 is not set")?;
    let batch = Batch {
        m: M,
        q,
        packed: filled::logins(packed.as_slice(), q),
        x,
    };
    whole(alloc, out, relation, batch, scratch)
}

fn main(rt: HostRuntime) -> io::Result<()> {
    let alloc = rt.alloc();
    let mut out = BufWriter::new(alloc, rt.stdout())?;
    let relation = Relation::new(alloc)?;
    let packed = filled::packed(alloc)?;
    let packed = packed.as_slice();
    let mut table = vec![in alloc; 0u64; 131072]?;
    let table = table.as_mut_slice();
    let mut scratch = vec![in alloc; 0u64; 524416]?;
    let scratch = scratch.as_mut_slice();
    let same = filled::repeated(alloc)?;
    let same = same.as_slice();
    both(
        alloc,
        &mut out,
        &relation,
        1,
        filled::logins(same, 1),
        table,
        scratch,
    )?;
    both(alloc, &mut out, &relation, 2, same, table, scratch)?;
    let own = filled::own(alloc)?;
    let x = own.as_slice();
    let batch = Batch {
        m: M,
        q: 2,
        packed,
        x,
    };
    writeln!(out, "each login its own public columns")?;
    tables::products(&mut out, &relation, batch)?;
    whole(alloc, &mut out, &relation, batch, scratch)?;
    let past = Batch {
        m: 2 * M,
        q: 1,
        packed,
        x,
    };
    all(alloc, &mut out, &relation, past, table, scratch)?;
    out.flush()
}
