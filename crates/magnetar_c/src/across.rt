// The structs that cross to C, and the functions that take them from the answers of the crates below and back.
ghost use Rattle.std.specs.Prelude.{◌≡◌};
ghost use Rattle.magnetar_field.specs.Gf128.{value};
ghost use Rattle.magnetar_field.specs.Number.{number_of};
ghost use Rattle.magnetar_hash.specs.Transcript.{answer_of, new_answer_of, draw_answer_of};
ghost use Rattle.magnetar_multilinear.specs.Entries.{answer};
ghost use Rattle.magnetar_r1cs.specs.Entries.{flagged};
ghost use Rattle.magnetar_check.specs.Check.{outcome};
ghost use Rattle.magnetar_hash.specs.Parts.{hash_answer_of};
ghost use Rattle.magnetar_prover.specs.Capture.{captured_by};
ghost use Rattle.magnetar_spartan.specs.Outcome.{answered};
ghost use Rattle.magnetar_sumcheck_verifier.specs.Outcome.{left_by};
ghost use Rattle.magnetar_c.specs.CStructs as across;

use magnetar_check::check::RowCheck;
use magnetar_field::gf128::Gf128;
use magnetar_field::refusal::Refusal;
use magnetar_hash::transcript::{Drawn, Transcript};
use magnetar_prover::capture::Captured;
use magnetar_spartan::virtual_spartan::Verified;
use magnetar_sumcheck_verifier::verify::Round;

// An element: the low word first.
#[repr(C)]
#[derive(Clone, Copy)]
pub struct MagnetarElement {
    pub lo: u64,
    pub hi: u64,
}

#[repr(C)]
#[derive(Clone, Copy)]
pub struct MagnetarTranscript {
    pub state: [u8; 32],
    pub squeeze_ctr: u64,
}

// The number of the refusal, 0 for none, and the transcript.
#[repr(C)]
#[derive(Clone, Copy)]
pub struct MagnetarAnswer {
    pub code: u32,
    pub transcript: MagnetarTranscript,
}

// The same with the element drawn.
#[repr(C)]
#[derive(Clone, Copy)]
pub struct MagnetarDraw {
    pub code: u32,
    pub element: MagnetarElement,
    pub transcript: MagnetarTranscript,
}

// The answer of the row check: a refusal or 0; then what was found, 0 nothing, 1 a failing row of bin, 2 one of fld, 3 a refusal, 4 a stray
// bit; then the login, the failing row, and the column of the stray bit. What is not there is 0.
#[repr(C)]
#[derive(Clone, Copy)]
pub struct MagnetarRowCheck {
    pub code: u32,
    pub system: u32,
    pub login: usize,
    pub row: usize,
    pub column: usize,
}

// An element, 0 where the call is refused.
#[repr(C)]
#[derive(Clone, Copy)]
pub struct MagnetarValue {
    pub code: u32,
    pub element: MagnetarElement,
}

// Yes or no, no where the call is refused.
#[repr(C)]
#[derive(Clone, Copy)]
pub struct MagnetarFlag {
    pub code: u32,
    pub yes: bool,
}

// What a round of the verifier leaves: whether the message is right, and the running claim.
#[repr(C)]
#[derive(Clone, Copy)]
pub struct MagnetarRound {
    pub code: u32,
    pub holds: bool,
    pub claim: MagnetarElement,
}

// The same of a round that draws its challenge.
#[repr(C)]
#[derive(Clone, Copy)]
pub struct MagnetarCapture {
    pub code: u32,
    pub holds: bool,
    pub claim: MagnetarElement,
    pub challenge: MagnetarElement,
    pub transcript: MagnetarTranscript,
}

// A hash.
#[repr(C)]
#[derive(Clone, Copy)]
pub struct MagnetarDigest {
    pub bytes: [u8; 32],
}

// The same with the number of a refusal, 0 for none; 32 bytes 0 where the call is refused.
#[repr(C)]
#[derive(Clone, Copy)]
pub struct MagnetarDigestAnswer {
    pub code: u32,
    pub digest: MagnetarDigest,
}

// ---- From C's structs and back.

pub(crate) fn element_in(e: MagnetarElement) -> Gf128
    ensures { result ≡ across.element e }
{
    Gf128 { lo: e.lo, hi: e.hi }
}

pub(crate) fn element_out(e: Gf128) -> MagnetarElement
    ensures { across.element result ≡ e }
{
    MagnetarElement { lo: e.lo, hi: e.hi }
}

// The element of a call that is refused.
const NO_ELEMENT: MagnetarElement = MagnetarElement { lo: 0, hi: 0 };

pub(crate) fn transcript_in(t: MagnetarTranscript) -> Transcript
    ensures { result ≡ across.transcript t }
{
    let state = t.state;
    Transcript {
        state,
        squeeze_ctr: t.squeeze_ctr,
    }
}

pub(crate) fn transcript_out(t: Transcript) -> MagnetarTranscript
    ensures { across.transcript result ≡ t }
{
    let state = t.state;
    MagnetarTranscript {
        state,
        squeeze_ctr: t.squeeze_ctr,
    }
}

// ---- Answers: a refusal's number, 0 for none, and what the call hands back.

pub(crate) fn number_out(r: Result<(), Refusal>) -> u32
    ensures { result ≡ number_of r }
{
    match r {
        Ok(()) => 0,
        Err(e) => e.number(),
    }
}

// Of a call that was given the transcript t.
pub(crate) fn answer_out(t: MagnetarTranscript, r: Result<Transcript, Refusal>) -> MagnetarAnswer
    ensures { across.answer result ≡ answer_of (across.transcript t) r }
{
    match r {
        Ok(u) => MagnetarAnswer {
            code: 0,
            transcript: transcript_out(u),
        },
        Err(refusal) => MagnetarAnswer {
            code: refusal.number(),
            transcript: t,
        },
    }
}

// Of a call that was given none.
pub(crate) fn new_answer_out(r: Result<Transcript, Refusal>) -> MagnetarAnswer
    ensures { across.answer result ≡ new_answer_of r }
{
    let t = MagnetarTranscript {
        state: [0; 32],
        squeeze_ctr: 0,
    };
    answer_out(t, r)
}

pub(crate) fn draw_out(t: MagnetarTranscript, r: Result<Drawn, Refusal>) -> MagnetarDraw
    ensures { across.drawn result ≡ draw_answer_of (across.transcript t) r }
{
    match r {
        Ok(d) => MagnetarDraw {
            code: 0,
            element: element_out(d.element),
            transcript: transcript_out(d.transcript),
        },
        Err(e) => MagnetarDraw {
            code: e.number(),
            element: NO_ELEMENT,
            transcript: t,
        },
    }
}

// Of a proof, where the transcript moves on although a check does not pass.
pub(crate) fn verified_out(v: Verified) -> MagnetarAnswer
    ensures { across.answer result ≡ answered v }
{
    MagnetarAnswer {
        code: number_out(v.outcome),
        transcript: transcript_out(v.transcript),
    }
}

// What a row check answers, with nothing found; `system` says what it is.
fn answer_at(code: u32, system: u32, login: usize, row: usize, column: usize) -> MagnetarRowCheck
    ensures { result ≡ record { code = code; system = system; login = login; row = row; column = column } }
{
    MagnetarRowCheck {
        code,
        system,
        login,
        row,
        column,
    }
}

#[tactic(auto, unfolding(crate::specs::CStructs::row_check_answer))]
pub(crate) fn check_out(r: Result<RowCheck, Refusal>) -> MagnetarRowCheck
    ensures { result ≡ across.row_check_answer (outcome r) }
{
    match r {
        Ok(RowCheck::Good) => answer_at(0, 0, 0, 0, 0),
        Ok(RowCheck::Bin(u, i)) => answer_at(0, 1, u, i, 0),
        Ok(RowCheck::Fld(u, i)) => answer_at(0, 2, u, i, 0),
        Err(e) => answer_at(e.number(), 3, 0, 0, 0),
        Ok(RowCheck::Stray(u, y)) => answer_at(0, 4, u, 0, y),
    }
}

pub(crate) fn digest_out(r: Result<[u8; 32], Refusal>) -> MagnetarDigestAnswer
    ensures { across.digest result ≡ hash_answer_of r }
{
    match r {
        Ok(bytes) => MagnetarDigestAnswer {
            code: 0,
            digest: MagnetarDigest { bytes },
        },
        Err(e) => MagnetarDigestAnswer {
            code: e.number(),
            digest: MagnetarDigest { bytes: [0; 32] },
        },
    }
}

#[tactic(auto, unfolding(crate::specs::CStructs::evaluated))]
pub(crate) fn value_out(r: Result<Gf128, Refusal>) -> MagnetarValue
    ensures { result ≡ across.evaluated (answer r) }
{
    match r {
        Ok(e) => MagnetarValue {
            code: 0,
            element: element_out(e),
        },
        Err(e) => MagnetarValue {
            code: e.number(),
            element: NO_ELEMENT,
        },
    }
}

#[tactic(auto, unfolding(crate::specs::CStructs::flag))]
pub(crate) fn flag_out(r: Result<bool, Refusal>) -> MagnetarFlag
    ensures { result ≡ across.flag (flagged r) }
{
    match r {
        Ok(yes) => MagnetarFlag { code: 0, yes },
        Err(e) => MagnetarFlag {
            code: e.number(),
            yes: false,
        },
    }
}

// Of a round with the running claim c.
pub(crate) fn round_out(c: MagnetarElement, r: Result<Round, Refusal>) -> MagnetarRound
    ensures { across.round result ≡ left_by (value (across.element c)) r }
{
    match r {
        Ok(o) => MagnetarRound {
            code: 0,
            holds: o.holds,
            claim: element_out(o.claim),
        },
        Err(e) => MagnetarRound {
            code: e.number(),
            holds: false,
            claim: c,
        },
    }
}

// The same of a round that draws its challenge from the transcript t.
pub(crate) fn capture_out(
    c: MagnetarElement,
    t: MagnetarTranscript,
    r: Result<Captured, Refusal>,
) -> MagnetarCapture
    ensures { across.captured result ≡ captured_by (value (across.element c)) (across.transcript t) r }
{
    match r {
        Ok(o) => MagnetarCapture {
            code: 0,
            holds: o.holds,
            claim: element_out(o.claim),
            challenge: element_out(o.challenge),
            transcript: transcript_out(o.transcript),
        },
        Err(e) => MagnetarCapture {
            code: e.number(),
            holds: false,
            claim: c,
            challenge: NO_ELEMENT,
            transcript: t,
        },
    }
}
