// Queries on the hash and the transcript. Byte strings are in hexadecimal, and - is none; a transcript is its state and
// its counter.
use magnetar_field::gf128::{Gf128, ZERO};
use magnetar_field::refusal::Refusal;
use magnetar_field::words;
use magnetar_hash::transcript::{Drawn, Transcript};
use magnetar_hash::{sha3, transcript};
use magnetar_prover::capture;
use magnetar_replay::line;
use magnetar_replay::line::Strings;
use magnetar_replay::show::{Element, Hex, Out, State, Words};
use magnetar_replay::step::Step;
use std::alloc::Global;
use std::io;
use std::io::Write;

// How many bytes of one value are hashed at most, how many words are lent, and how many lengths of parts a query has.
const MOST_BYTES: usize = 1048576;

const MOST_WORDS: usize = 4096;

const MOST_LENGTHS: usize = 256;

// A hash, after the number of the refusal where there is one.
fn print_hash(out: &mut Out, answer: Result<[u8; 32], Refusal>) -> io::Result<()> {
    if let Err(refusal) = answer {
        let number = refusal.number();
        write!(out, "! {number} ")?;
    } else {
        write!(out, "= ")?;
    }
    let digest = answer.unwrap_or([0; 32]);
    let hex = Hex(&digest);
    writeln!(out, "{hex}")
}

// A new transcript, or the number of its refusal and zeros.
fn print_new(out: &mut Out, answer: Result<Transcript, Refusal>) -> io::Result<()> {
    match answer {
        Ok(t) => {
            let state = State(t);
            writeln!(out, "= {state}")
        }
        Err(refusal) => {
            let number = refusal.number();
            let state = State(Transcript {
                state: [0; 32],
                squeeze_ctr: 0,
            });
            writeln!(out, "! {number} {state}")
        }
    }
}

fn print_drawn(out: &mut Out, drawn: Drawn) -> io::Result<()> {
    let e = Element(drawn.element);
    let state = State(drawn.transcript);
    writeln!(out, "= {e} {state}")
}

// sha3rep N B: the hash of N times the byte B.
fn sha3rep(alloc: Global, out: &mut Out, n: usize, b: u8) -> io::Result<()> {
    if n > MOST_BYTES {
        return Ok(());
    }
    let bytes = vec![in alloc; b; n]?;
    print_hash(out, Ok(sha3::sha3_256(bytes.as_slice())))
}

// Answers a query on the hash or for a new transcript, or says that it is none.
fn hashes(
    alloc: Global,
    out: &mut Out,
    name: &[u8],
    nums: &[u64],
    strings: &Strings,
) -> io::Result<bool> {
    let all = strings.lens.len();
    let first = strings.at(0);
    match name {
        b"sha3" => print_hash(out, Ok(sha3::sha3_256(first)))?,
        b"sha3rep" => {
            let b = strings.at(1).first().copied().unwrap_or(0);
            sha3rep(alloc, out, line::size(nums, 0), b)?;
        }
        b"parts" => print_hash(
            out,
            sha3::sha3_domain(strings.between(0, all), strings.lens(0, all)),
        )?,
        b"partslens" => {
            let lens = line::sizes_within(alloc, line::list_from(nums, 1, 0), MOST_LENGTHS)?;
            print_hash(out, sha3::sha3_domain(first, lens.as_slice()))?;
        }
        b"new" => print_new(
            out,
            transcript::new(first, strings.between(1, all), strings.lens(1, all)),
        )?,
        b"newlens" => {
            let lens = line::sizes_within(alloc, line::list_from(nums, 2, 0), MOST_LENGTHS)?;
            print_new(out, transcript::new(first, strings.at(1), lens.as_slice()))?;
        }
        _ => return Ok(false),
    }
    Ok(true)
}

// draws S C L N: the last one of N draws.
fn draws(out: &mut Out, t: Transcript, label: &[u8], n: u64) -> io::Result<()> {
    let mut last = Drawn {
        element: ZERO,
        transcript: t,
    };
    for _ in 0..n {
        let t = last.transcript;
        last = transcript::challenge_field(t, label).unwrap_or(Drawn {
            element: ZERO,
            transcript: t,
        });
    }
    print_drawn(out, last)
}

// rawdraw S C L: a draw without a test.
fn rawdraw(out: &mut Out, t: Transcript, label: &[u8]) -> io::Result<()> {
    let transcript = transcript::draw(t, label);
    print_drawn(
        out,
        Drawn {
            element: transcript::element(transcript),
            transcript,
        },
    )
}

// rawdrawvec S C L K: as many draws as K lent words have room for.
fn rawdrawvec(
    alloc: Global,
    out: &mut Out,
    t: Transcript,
    label: &[u8],
    k: usize,
) -> io::Result<()> {
    let mut room = line::marked(alloc, k.min(MOST_WORDS))?;
    let state = State(transcript::draw_vec(t, label, room.as_mut_slice()));
    let words = Words(room.as_slice());
    writeln!(out, "= {words} {state}")
}

// capture S C L N MSG 2 CLAIM: what a round leaves that draws its challenge, its refusal or whether the message is right, the claim, the
// challenge and the transcript.
fn captured(out: &mut Out, t: Transcript, label: &[u8], nums: &[u64]) -> io::Result<()> {
    let msg = line::list_from(nums, 4, 0);
    let claim = words::get(line::list_from(nums, 4, 1), 0);
    let round = capture::round_capturing(msg, line::size(nums, 3), claim, t, label);
    match round {
        Ok(round) => {
            let holds = round.holds;
            write!(out, "= {holds}")?;
            print_round(out, round.claim, round.challenge, round.transcript)
        }
        Err(refusal) => {
            let number = refusal.number();
            write!(out, "! {number}")?;
            print_round(out, claim, ZERO, t)
        }
    }
}

fn print_round(out: &mut Out, claim: Gf128, challenge: Gf128, t: Transcript) -> io::Result<()> {
    let words = [claim.lo, claim.hi, challenge.lo, challenge.hi];
    let words = Words(&words);
    let state = State(t);
    writeln!(out, " {words} {state}")
}

// Answers a query that begins with a transcript, or says that it is none.
fn transcripts(
    alloc: Global,
    out: &mut Out,
    name: &[u8],
    nums: &[u64],
    strings: &Strings,
) -> io::Result<bool> {
    let t = strings.transcript(nums);
    let label = strings.at(2);
    if let Some(step) = Step::named(name, nums, strings) {
        let told = step.by_value(alloc, t, label)?;
        step.write(out, &told)?;
        return Ok(true);
    }
    match name {
        b"absorbwords" => {
            let state = State(transcript::absorb_words(t, label, line::list_from(nums, 3, 0)));
            writeln!(out, "= {state}")?;
        }
        b"draws" => draws(out, t, label, line::at(nums, 3))?,
        b"rawdraw" => rawdraw(out, t, label)?,
        b"rawdrawvec" => rawdrawvec(alloc, out, t, label, line::size(nums, 3))?,
        b"capture" => captured(out, t, label, nums)?,
        b"digest" => print_hash(out, Ok(transcript::state_digest(t)))?,
        b"febytes" => {
            let bytes = transcript::fe_to_bytes(words::get(line::list(nums, 0), 0));
            let hex = Hex(&bytes);
            writeln!(out, "= {hex}")?;
        }
        _ => return Ok(false),
    }
    Ok(true)
}

// Answers a query on the hash or the transcript, or says that it is none. The words of its line are read as bytes.
pub(crate) fn answer(
    alloc: Global,
    out: &mut Out,
    name: &[u8],
    nums: &[u64],
    strings: &Strings,
) -> io::Result<bool> {
    Ok(hashes(alloc, out, name, nums, strings)? || transcripts(alloc, out, name, nums, strings)?)
}
