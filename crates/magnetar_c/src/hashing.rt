// The hash and the transcript.
ghost use Rattle.std.specs.Prelude.{◌≡◌, length};
ghost use Rattle.magnetar_hash.specs.Bytes.{le_bytes};
ghost use Rattle.magnetar_hash.specs.Sha3.{sha3};
ghost use Rattle.magnetar_hash.specs.Transcript as spec;
ghost use Rattle.magnetar_c.specs.CStructs as across;

use crate::across;
use crate::across::{MagnetarAnswer, MagnetarDigest, MagnetarDraw, MagnetarTranscript};
use magnetar_hash::{sha3, transcript};

// SHA3-256 of bytes.
#[unsafe(no_mangle)]
pub extern "C" fn magnetar_sha3_256(message: &[u8]) -> MagnetarDigest
    ensures { result.bytes ≡ sha3 message.now }
{
    let bytes = sha3::sha3_256(message);
    MagnetarDigest { bytes }
}

// A transcript bound to a protocol and its public parts.
#[unsafe(no_mangle)]
pub extern "C" fn magnetar_transcript_new(
    protocol: &[u8],
    public: &[u8],
    lens: &[usize],
) -> MagnetarAnswer
    ensures { across.answer result ≡ spec.new_answer protocol.now public.now lens.now }
{
    across::new_answer_out(transcript::new(protocol, public, lens))
}

// Bytes are absorbed under a label.
#[unsafe(no_mangle)]
pub extern "C" fn magnetar_absorb_bytes(
    t: MagnetarTranscript,
    label: &[u8],
    bytes: &[u8],
) -> MagnetarAnswer
    ensures { across.answer result ≡ spec.absorb_answer (across.transcript t) label.now bytes.now }
{
    across::answer_out(
        t,
        transcript::absorb_bytes(across::transcript_in(t), label, bytes),
    )
}

// A word is absorbed under a label.
#[unsafe(no_mangle)]
pub extern "C" fn magnetar_absorb_u64(t: MagnetarTranscript, label: &[u8], v: u64) -> MagnetarAnswer
    ensures { across.answer result ≡ spec.absorb_answer (across.transcript t) label.now (le_bytes 8 v) }
{
    across::answer_out(
        t,
        transcript::absorb_u64(across::transcript_in(t), label, v),
    )
}

// A hash is absorbed under a label.
#[unsafe(no_mangle)]
pub extern "C" fn magnetar_absorb_digest(
    t: MagnetarTranscript,
    label: &[u8],
    d: MagnetarDigest,
) -> MagnetarAnswer
    ensures { across.answer result ≡ spec.absorb_answer (across.transcript t) label.now d.bytes }
{
    let bytes = d.bytes;
    across::answer_out(
        t,
        transcript::absorb_digest(across::transcript_in(t), label, &bytes),
    )
}

// Elements are absorbed under a label.
#[unsafe(no_mangle)]
pub extern "C" fn magnetar_absorb_field(
    t: MagnetarTranscript,
    label: &[u8],
    words: &[u64],
) -> MagnetarAnswer
    ensures { across.answer result ≡ spec.field_answer (across.transcript t) label.now words.now }
{
    across::answer_out(
        t,
        transcript::absorb_field(across::transcript_in(t), label, words),
    )
}

// An element is drawn under a label.
#[unsafe(no_mangle)]
pub extern "C" fn magnetar_challenge_field(t: MagnetarTranscript, label: &[u8]) -> MagnetarDraw
    ensures { across.drawn result ≡ spec.draw_answer (across.transcript t) label.now }
{
    across::draw_out(
        t,
        transcript::challenge_field(across::transcript_in(t), label),
    )
}

// n elements are drawn under a label into the first 2n words of out.
#[unsafe(no_mangle)]
pub extern "C" fn magnetar_challenge_field_vec(
    t: MagnetarTranscript,
    label: &[u8],
    n: usize,
    out: &mut [u64],
) -> MagnetarAnswer
    ensures { (across.answer result ≡ spec.draws_answer (across.transcript t) label.now n (length out.old))
        × (out.new ≡ spec.draws_out (across.transcript t) label.now n out.old) }
{
    across::answer_out(
        t,
        transcript::challenge_field_vec(across::transcript_in(t), label, n, out),
    )
}
