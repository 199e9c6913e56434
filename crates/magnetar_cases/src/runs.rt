// Whole runs: the prover and the verifier on a relation and its batch, over slices with the transcript by value, and over records with the
// transcript in place.
use crate::case::{Case, compare};
use crate::matrices::MOST_WORDS;
use crate::room::{Room, Rooms};
use magnetar_field::refusal::Refusal;
use magnetar_hash::transcript::Transcript;
use magnetar_replay::line;
use magnetar_replay::show::{Cleared, Out, State, Words};
use magnetar_spartan::{in_place, virtual_spartan};
use std::alloc::{AllocError, Global};
use std::io;
use std::io::Write;

// How many words are lent for claims at most.
pub(crate) const MOST_CLAIMS: usize = 256;

// What a run answered, its transcript and all words that it was lent.
#[derive(PartialEq, Drop)]
struct Run<'a> {
    outcome: Result<(), Refusal>,
    transcript: Transcript,
    proof: Vec<u64>,
    claims: Vec<u64>,
    scratch: &'a [u64],
}

// The transcript after a call, after the number of the refusal where there is one.
fn print_answer(out: &mut Out, run: &Run<'_>) -> io::Result<()> {
    let state = State(run.transcript);
    match run.outcome {
        Ok(()) => writeln!(out, "= {state}"),
        Err(refusal) => {
            let number = refusal.number();
            writeln!(out, "! {number} {state}")
        }
    }
}

// The prover by value, with P words lent for the proof, C for the claims and S as scratch.
fn prove_slices<'a>(
    alloc: Global,
    room: &'a mut Room,
    nums: &[u64],
    case: &Case,
    t: Transcript,
) -> Result<Run<'a>, AllocError> {
    let mut proof = line::marked(alloc, line::size(nums, 2).min(MOST_WORDS))?;
    let mut claims = line::marked(alloc, line::size(nums, 3).min(MOST_CLAIMS))?;
    let scratch = room.marked(line::size(nums, 4))?;
    let answer = virtual_spartan::prove_virtual_spartan(
        proof.as_mut_slice(),
        claims.as_mut_slice(),
        scratch,
        case.m,
        case.q,
        case.lens.as_slice(),
        case.shapes,
        &case.slices(),
        case.packed.as_slice(),
        case.x.as_slice(),
        t,
    );
    Ok(Run {
        outcome: answer.map(|_| ()),
        transcript: answer.unwrap_or(t),
        proof,
        claims,
        scratch,
    })
}

// The same in place, over records, where the entries can be lent so.
fn prove_records<'a>(
    alloc: Global,
    room: &'a mut Room,
    nums: &[u64],
    case: &Case,
    t: Transcript,
) -> Result<Option<Run<'a>>, AllocError> {
    let Some(es) = case.records() else {
        return Ok(None);
    };
    let mut transcript = t;
    let mut proof = line::marked(alloc, line::size(nums, 2).min(MOST_WORDS))?;
    let mut claims = line::marked(alloc, line::size(nums, 3).min(MOST_CLAIMS))?;
    let scratch = room.marked(line::size(nums, 4))?;
    let outcome = in_place::prove_virtual_spartan(
        &mut transcript,
        proof.as_mut_slice(),
        claims.as_mut_slice(),
        scratch,
        case.m,
        case.q,
        case.lens.as_slice(),
        case.shapes,
        &es,
        case.packed.as_slice(),
        case.x.as_slice(),
    );
    Ok(Some(Run {
        outcome,
        transcript,
        proof,
        claims,
        scratch,
    }))
}

// prove STATE CTR P C S
fn prove(
    alloc: Global,
    out: &mut Out,
    nums: &[u64],
    case: &Case,
    rooms: &mut Rooms,
    t: Transcript,
) -> io::Result<()> {
    let run = prove_slices(alloc, &mut rooms.slices, nums, case, t)?;
    let again = prove_records(alloc, &mut rooms.records, nums, case, t)?;
    compare(out, &run, &again)?;
    print_answer(out, &run)?;
    let proof = Words(run.proof.as_slice());
    let claims = Words(run.claims.as_slice());
    let scratch = Cleared(run.scratch);
    writeln!(out, "= {proof}\n= {claims}\n= {scratch}")
}

// The verifier by value, with c words lent for the claims and s as scratch.
fn verify_slices<'a>(
    alloc: Global,
    room: &'a mut Room,
    c: usize,
    s: usize,
    case: &Case,
    proof: &[u64],
    t: Transcript,
) -> Result<Run<'a>, AllocError> {
    let mut claims = line::marked(alloc, c.min(MOST_CLAIMS))?;
    let scratch = room.marked(s)?;
    let verified = virtual_spartan::verify_virtual_spartan(
        claims.as_mut_slice(),
        scratch,
        case.m,
        case.q,
        case.lens.as_slice(),
        case.shapes,
        &case.slices(),
        case.x.as_slice(),
        proof,
        t,
    );
    Ok(Run {
        outcome: verified.outcome,
        transcript: verified.transcript,
        proof: Vec::new(alloc),
        claims,
        scratch,
    })
}

// The same in place, over records, where the entries can be lent so.
fn verify_records<'a>(
    alloc: Global,
    room: &'a mut Room,
    c: usize,
    s: usize,
    case: &Case,
    proof: &[u64],
    t: Transcript,
) -> Result<Option<Run<'a>>, AllocError> {
    let Some(es) = case.records() else {
        return Ok(None);
    };
    let mut transcript = t;
    let mut claims = line::marked(alloc, c.min(MOST_CLAIMS))?;
    let scratch = room.marked(s)?;
    let outcome = in_place::verify_virtual_spartan(
        &mut transcript,
        claims.as_mut_slice(),
        scratch,
        case.m,
        case.q,
        case.lens.as_slice(),
        case.shapes,
        &es,
        case.x.as_slice(),
        proof,
    );
    Ok(Some(Run {
        outcome,
        transcript,
        proof: Vec::new(alloc),
        claims,
        scratch,
    }))
}

fn verify(
    alloc: Global,
    out: &mut Out,
    c: usize,
    s: usize,
    case: &Case,
    rooms: &mut Rooms,
    proof: &[u64],
    t: Transcript,
) -> io::Result<()> {
    let run = verify_slices(alloc, &mut rooms.slices, c, s, case, proof, t)?;
    let again = verify_records(alloc, &mut rooms.records, c, s, case, proof, t)?;
    compare(out, &run, &again)?;
    print_answer(out, &run)?;
    let claims = Words(run.claims.as_slice());
    let scratch = Cleared(run.scratch);
    writeln!(out, "= {claims}\n= {scratch}")
}

// Runs one end on a relation, or says that it is no such query.
pub(crate) fn answer(
    alloc: Global,
    out: &mut Out,
    name: &[u8],
    state: [u8; 32],
    nums: &[u64],
    case: &Case,
    rooms: &mut Rooms,
) -> io::Result<bool> {
    let t = Transcript {
        state,
        squeeze_ctr: line::at(nums, 1),
    };
    match name {
        b"prove" => prove(alloc, out, nums, case, rooms, t)?,
        // verify STATE CTR C S PROOF
        b"verify" => {
            let proof = line::list_from(nums, 4, 0);
            verify(
                alloc,
                out,
                line::size(nums, 2),
                line::size(nums, 3),
                case,
                rooms,
                proof,
                t,
            )?;
        }
        // rooms STATE CTR C PROOF LENGTHS: the verifier with each number of LENGTHS, which are eight at most, as the words of scratch.
        b"rooms" => {
            let proof = line::list_from(nums, 3, 0);
            for s in line::list_from(nums, 3, 1).iter().take(8) {
                let c = line::size(nums, 2);
                verify(alloc, out, c, *s as usize, case, rooms, proof, t)?;
            }
        }
        _ => return Ok(false),
    }
    Ok(true)
}
