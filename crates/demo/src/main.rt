// A vault of four logins: packed, checked row by row, bound, proved and verified, and its claims checked; then what goes wrong, and what is
// said about it. All that is written stands in the file `stdout`.
#![tactic(auto)]

mod opened;
mod rules;
mod said;
mod vault;
mod wrong;

use crate::opened::Claims;
use crate::rules::{Rules, Sent};
use crate::said::{Answer, Front, Out, Verdict, refused};
use crate::vault::{Batch, LOGINS};
use magnetar_hash::transcript;
use std::io::{BufWriter, Result, Write};

// What the vault holds.
fn print_vault(out: &mut Out) -> Result<()> {
    writeln!(
        out,
        "A vault of 4 logins: packed into bits, checked row by row, bound, proved, verified.\n"
    )?;
    writeln!(
        out,
        "login   secret   saved   checksum   edition   folder   packed"
    )?;
    for (u, login) in LOGINS.iter().enumerate() {
        writeln!(out, "    {u}   {login}")?;
    }
    writeln!(
        out,
        "columns: 0-7 secret, 8 saved, 9 checksum, 10-11 edition, 12-15 folder, 16-22 help the first rule;"
    )?;
    writeln!(
        out,
        "segments: 0-7, 8-15, 16-23; 32 the one; public, each login's own: 33 folder, 34 edition\n"
    )?;
    Ok(())
}

fn print_rules(out: &mut Out) -> Result<()> {
    writeln!(
        out,
        "rule                                 as rows of (A z)(B z) = C z              where"
    )?;
    writeln!(
        out,
        "a saved login has a secret           saved * (none of the secret's bits) = 0  bin, rows 0-7"
    )?;
    writeln!(
        out,
        "the checksum is the secret's parity  (secret's bits + checksum) * 1 = 0       bin, row 8"
    )?;
    writeln!(
        out,
        "what is not saved has no secret      (1 + saved) * secret = 0                 fld, row 0"
    )?;
    writeln!(
        out,
        "its folder is the public one         folder's bits * 1 = folder               fld, row 1"
    )?;
    writeln!(
        out,
        "its edition is the public one        edition's bits * 1 = edition             fld, row 2\n"
    )?;
    Ok(())
}

// What both ends bind before the run.
fn print_bound(out: &mut Out, rules: &Rules, batch: &Batch) -> Result<()> {
    let committed = batch.commitment()?;
    let digest = rules.digest().map_err(refused)?;
    let bits = Front(committed);
    writeln!(
        out,
        "commit     {bits}, a hash of the packed words: it stands in for a commitment to the bits"
    )?;
    let front = Front(digest);
    writeln!(
        out,
        "bind       rules {front}, commitment and the public words of every login go into both transcripts before any draw"
    )?;
    Ok(())
}

// The laptop's end, with the claims that the office has; then the claims against the bits.
fn verify(out: &mut Out, rules: &Rules, batch: &Batch, sent: &Sent) -> Result<()> {
    let t = rules.start(batch)?;
    let home = rules.verify(4, batch.public(), sent.proof.as_slice(), t)?;
    let answer = Answer(home.outcome, "accepted");
    let claims = if home.claims.as_slice() == sent.claims.as_slice() {
        "the same claims"
    } else {
        "other claims"
    };
    let front = transcript::element(home.transcript).lo;
    writeln!(
        out,
        "verify     {answer}, {claims}, transcript {front:016x}"
    )?;
    let said = Claims::of(batch, batch.commitment()?, home.claims.as_slice())?;
    writeln!(out, "claims     {said}\n")?;
    Ok(())
}

// The office's end, then the laptop's, then what goes wrong.
fn prove(out: &mut Out, rules: &Rules, batch: &Batch) -> Result<()> {
    let t = rules.start(batch)?;
    let sent = rules.prove(4, batch, t)?;
    let answer = Answer(sent.outcome, "done");
    let words = sent.proof.len();
    let claims = sent.claims.len();
    let front = transcript::element(sent.transcript).lo;
    writeln!(
        out,
        "prove      {answer}, {words} proof words, {claims} claim words, transcript {front:016x}"
    )?;
    verify(out, rules, batch, &sent)?;
    wrong::all(out, rules, batch, &sent)
}

fn main(rt: HostRuntime) -> Result<()> {
    let mut out = BufWriter::new(rt.alloc(), rt.stdout())?;
    let rules = Rules::new(rt.alloc(), &rules::SEGMENTS)?;
    let batch = Batch::of(&LOGINS);
    print_vault(&mut out)?;
    print_rules(&mut out)?;
    let verdict = Verdict(rules.row_check(&batch));
    writeln!(out, "row check  {verdict}")?;
    print_bound(&mut out, &rules, &batch)?;
    prove(&mut out, &rules, &batch)?;
    out.flush()?;
    Ok(())
}
