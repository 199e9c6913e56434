// What goes wrong: a word of the proof, public words chosen after it, other bits than the committed ones, a login, public columns, padding
// bits between two segments, a size.
use crate::opened::Claims;
use crate::rules::{Rules, Sent};
use crate::said::{Answer, Out, Verdict, refused};
use crate::vault::{Batch, LOGINS, Login};
use crate::{opened, rules};
use magnetar_hash::transcript;
use magnetar_hash::transcript::Transcript;
use std::io::{Result, Write};

// What the laptop says about a proof of q logins.
fn verified(rules: &Rules, q: usize, x: &[u64], proof: &[u64], t: Transcript) -> Result<Answer> {
    let home = rules.verify(q, x, proof, t)?;
    Ok(Answer(home.outcome, "accepted"))
}

// What the laptop says about the office's proof of a batch that it has committed to.
fn proved(rules: &Rules, batch: &Batch) -> Result<Answer> {
    let t = rules.start(batch)?;
    let sent = rules.prove(4, batch, t)?;
    verified(rules, 4, batch.public(), sent.proof.as_slice(), t)
}

// ---- A word of the proof.

// The places of the proof's words of which one bit is changed on the way.
const PLACES: [(&str, usize); 9] = [
    ("a shared round's polynomial of bin", 2),
    ("a shared round's polynomial of fld", 10),
    ("a row round's polynomial of bin", 34),
    ("a row round's polynomial of fld", 66),
    ("a value of bin after these rounds", 80),
    ("a value of fld after these rounds", 86),
    ("an inner round's polynomial", 94),
    ("v_z, the logins' value at its end", 128),
    ("a segment's value", 130),
];

fn proofs(out: &mut Out, rules: &Rules, batch: &Batch, sent: &Sent) -> Result<()> {
    let t = rules.start(batch)?;
    writeln!(out, "a bit of the proof is changed, in      verify says")?;
    for (what, i) in PLACES {
        let mut proof = sent.proof.clone()?;
        if let Some(word) = proof.get_mut(i) {
            *word ^= 1;
        }
        let answer = verified(rules, 4, batch.public(), proof.as_slice(), t)?;
        writeln!(out, "  {what:<37}{answer}")?;
    }
    Ok(())
}

// ---- Public words chosen after the proof.

fn exchange(out: &mut Out, rules: &Rules, batch: &Batch, sent: &Sent) -> Result<()> {
    writeln!(
        out,
        "login 0 is given edition 3 after the proof is made, and an unused public column with which the proof still fits"
    )?;
    // Both ends start with a transcript that is bound to nothing: none should.
    let unbound = transcript::new(b"vault", b"", &[]).map_err(refused)?;
    let free = rules.prove(4, batch, unbound)?;
    let other = batch.exchanged(free.claims.as_slice());
    let verdict = Verdict(rules.row_check(&other));
    writeln!(out, "  row check                {verdict}")?;
    let answer = verified(rules, 4, other.public(), free.proof.as_slice(), unbound)?;
    writeln!(out, "  verify, nothing bound    {answer}")?;
    // The office's proof; the laptop binds the public words that it is given.
    let other = batch.exchanged(sent.claims.as_slice());
    let t = rules.start_with(batch.commitment()?, other.public())?;
    let answer = verified(rules, 4, other.public(), sent.proof.as_slice(), t)?;
    writeln!(out, "  verify, both ends bound  {answer}")?;
    Ok(())
}

// ---- Other bits than the committed ones.

// Login 0 with another secret keeps the rules as well: the claims alone show that it was not committed to.
fn other_bits(out: &mut Out, rules: &Rules, batch: &Batch) -> Result<()> {
    let mut logins = LOGINS;
    logins[0].secret = 0x4c;
    let other = Batch::of(&logins);
    writeln!(
        out,
        "login 0 is proved with another secret than the one committed to"
    )?;
    let verdict = Verdict(rules.row_check(&other));
    writeln!(out, "  row check  {verdict}")?;
    let t = rules.start(batch)?;
    let sent = rules.prove(4, &other, t)?;
    let home = rules.verify(4, batch.public(), sent.proof.as_slice(), t)?;
    let answer = Answer(home.outcome, "accepted");
    writeln!(out, "  verify     {answer}")?;
    let claims = Claims::of(batch, batch.commitment()?, home.claims.as_slice())?;
    writeln!(out, "  claims     {claims}")?;
    Ok(())
}

// ---- A login, and public columns.

// What the row check says of a batch, and what the laptop says about a proof.
fn bad(out: &mut Out, rules: &Rules, what: &str, batch: &Batch) -> Result<()> {
    writeln!(out, "{what}")?;
    let verdict = Verdict(rules.row_check(batch));
    writeln!(out, "  row check  {verdict}")?;
    let answer = proved(rules, batch)?;
    writeln!(out, "  verify     {answer}")?;
    Ok(())
}

fn batches(out: &mut Out, rules: &Rules, batch: &Batch) -> Result<()> {
    let mut other = *batch;
    let saved = Login {
        saved: true,
        ..LOGINS[2]
    };
    other.packed[4] = saved.word();
    bad(out, rules, "login 2 is saved without a secret", &other)?;
    let mut other = *batch;
    let older = Login {
        edition: 2,
        ..LOGINS[1]
    };
    other.packed[2] = older.word();
    bad(
        out,
        rules,
        "login 1 is of edition 2, which is right for login 0",
        &other,
    )?;
    // Login 0 and login 1 have the same folder, so their editions alone are exchanged.
    let mut other = *batch;
    other.publish(0, LOGINS[1]);
    other.publish(1, LOGINS[0]);
    bad(
        out,
        rules,
        "the public columns of logins 0 and 1 are exchanged",
        &other,
    )
}

// ---- Padding bits.

// The vault whose logins 1 and 3 are made from the template, with these bits from column 24 on: what the row check says, and both ends. The
// office makes a proof whether the batch is good or not.
fn template(out: &mut Out, template: &Rules, batch: &Batch, bits: u64) -> Result<()> {
    let mut made = *batch;
    made.packed[2] |= bits;
    made.packed[6] |= bits;
    let verdict = Verdict(template.row_check(&made));
    writeln!(out, "  row check  {verdict}")?;
    let t = template.start(&made)?;
    let sent = template.prove(4, &made, t)?;
    let answer = Answer(sent.outcome, "done");
    writeln!(out, "  prove      {answer}")?;
    let answer = verified(template, 4, made.public(), sent.proof.as_slice(), t)?;
    writeln!(out, "  verify     {answer}")?;
    Ok(())
}

// Columns 24, 28 and 30 are set, and eight bits past the 32 columns; before they are cleared, columns 25 to 27 too.
fn templates(out: &mut Out, rules: &Rules, batch: &Batch) -> Result<()> {
    let with_two_more = rules.with_segments(&rules::TEMPLATE)?;
    writeln!(
        out,
        "the office's template has two segments more, 24 and 28-31; in logins 1 and 3 it left the padding between them set"
    )?;
    template(out, &with_two_more, batch, 0xff5f000000)?;
    writeln!(
        out,
        "the padding is cleared; bits past the 32 columns stay set and never matter"
    )?;
    template(out, &with_two_more, batch, 0xff51000000)
}

// ---- A size.

fn sizes(out: &mut Out, rules: &Rules, batch: &Batch, sent: &Sent) -> Result<()> {
    let t = rules.start(batch)?;
    let proof = sent.proof.as_slice();
    writeln!(out, "wrong sizes")?;
    let three = Answer(rules.prove(3, batch, t)?.outcome, "accepted");
    writeln!(out, "  prove 3 logins                       {three}")?;
    let eight = Answer(rules.prove(8, batch, t)?.outcome, "accepted");
    writeln!(out, "  prove 8 logins, but 4 are packed     {eight}")?;
    let answer = verified(rules, 8, batch.public(), proof, t)?;
    writeln!(out, "  verify 8 logins by the columns of 4  {answer}")?;
    let cut = opened::between(proof, 0, 134);
    let answer = verified(rules, 4, batch.public(), cut, t)?;
    writeln!(out, "  verify a proof without its end       {answer}")?;
    Ok(())
}

// All of it, with the office's proof and claims.
pub(crate) fn all(out: &mut Out, rules: &Rules, batch: &Batch, sent: &Sent) -> Result<()> {
    proofs(out, rules, batch, sent)?;
    exchange(out, rules, batch, sent)?;
    other_bits(out, rules, batch)?;
    batches(out, rules, batch)?;
    templates(out, rules, batch)?;
    sizes(out, rules, batch, sent)
}
