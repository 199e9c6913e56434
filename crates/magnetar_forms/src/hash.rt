// Queries on the transcript, by value and in place.
use magnetar_hash::transcript::Transcript;
use magnetar_replay::line::Strings;
use magnetar_replay::show::Out;
use magnetar_replay::step::{Step, Told};
use magnetar_transcript::transcript;
use std::alloc::{AllocError, Global};
use std::io;
use std::io::Write;

// The step in place, with a local lent.
fn in_place(
    alloc: Global,
    step: Step<'_>,
    t: Transcript,
    label: &[u8],
) -> Result<Told, AllocError> {
    let mut lent = t;
    let mut words = step.room(alloc)?;
    let answer = match step {
        Step::Bytes(bytes) => transcript::absorb_bytes(&mut lent, label, bytes).map(|_| None),
        Step::Number(v) => transcript::absorb_u64(&mut lent, label, v).map(|_| None),
        Step::Digest(d) => transcript::absorb_digest(&mut lent, label, &d).map(|_| None),
        Step::Elements(s) => transcript::absorb_field(&mut lent, label, s).map(|_| None),
        Step::Draws(n, _) => {
            transcript::challenge_field_vec(&mut lent, label, n, words.as_mut_slice()).map(|_| None)
        }
        Step::Draw => transcript::challenge_field(&mut lent, label).map(Some),
    };
    Ok(Told {
        answer,
        transcript: lent,
        words,
    })
}

// Answers a query on a transcript, or says that it is none.
pub(crate) fn answer(
    alloc: Global,
    out: &mut Out,
    name: &[u8],
    nums: &[u64],
    strings: &Strings,
) -> io::Result<bool> {
    let Some(step) = Step::named(name, nums, strings) else {
        return Ok(false);
    };
    let t = strings.transcript(nums);
    let label = strings.at(2);
    let told = step.by_value(alloc, t, label)?;
    let again = in_place(alloc, step, t, label)?;
    if told == again {
        step.write(out, &told)?;
    } else {
        writeln!(out, "differ")?;
        step.write(out, &told)?;
        step.write(out, &again)?;
    }
    Ok(true)
}
