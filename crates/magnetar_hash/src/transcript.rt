// The transcript that both ends draw their challenges from. It goes by value: a function takes it and hands the next one back.
ghost use Rattle.std.specs.Prelude.{◌≡◌, ◌*◌, ◌/◌, ◌^◌, [], ◌∷◌, ◌++◌, length, drop, nat_lt, if◌then◌else◌, Ok, Err};
ghost use Rattle.magnetar_field.specs.declared.refusal.Refusal.TheVariants.{Counter};
ghost use Rattle.magnetar_field.specs.Gf128.{value};
ghost use Rattle.magnetar_hash.specs.Bytes.{le_bytes, word_bytes};
ghost use Rattle.magnetar_hash.specs.Parts.{framed};
ghost use Rattle.magnetar_hash.specs.Sponge.{Takes, empty};
ghost use Rattle.magnetar_hash.specs.Transcript as spec;

use crate::hasher::Sponge;
use crate::sha3;
use magnetar_field::gf128::Gf128;
use magnetar_field::refusal::{Refusal, require};

// Document 01's bound for refusal 14.
const COUNTER_LIMIT: u64 = 0x100000000;

#[derive(Clone, Copy, Debug, PartialEq, Eq)]
pub struct Transcript {
    pub state: [u8; 32],
    pub squeeze_ctr: u64,
}

// An element, and the transcript after its draw.
#[derive(Clone, Copy)]
pub struct Drawn {
    pub element: Gf128,
    pub transcript: Transcript,
}

// An element as 16 bytes, the lowest first.
pub fn fe_to_bytes(x: Gf128) -> [u8; 16]
    ensures { result ≡ le_bytes 16 (value x) }
{
    let mut out = [0u8; 16];
    out[..8].copy_from_slice(&x.lo.to_le_bytes());
    out[8..].copy_from_slice(&x.hi.to_le_bytes());
    out
}

// A transcript bound to a protocol and its public parts, which are lent as one byte slice and their lengths. Refuses 17.
pub fn new(protocol: &[u8], public: &[u8], lens: &[usize]) -> Result<Transcript, Refusal>
    ensures { spec.new_answer_of result ≡ spec.new_answer protocol.now public.now lens.now }
{
    require(sha3::add_up(lens, public.len()), Refusal::PartLengths)?;
    let mut sponge = Sponge::empty();
    sponge.feed_word(lens.len() as u64 + 2);
    sponge.feed_part(b"magnetar/transcript/v1");
    sponge.feed_part(protocol);
    sponge.feed_parts(public, lens);
    let state = sponge.finish();
    Ok(undrawn(state))
}

// A transcript with this state, from which nothing has been drawn.
fn undrawn(state: [u8; 32]) -> Transcript
    ensures { result ≡ spec.counter_zero state }
{
    Transcript {
        state,
        squeeze_ctr: 0,
    }
}

// The transcript, unless its counter is too large. Refuses 14.
fn on_time(t: Transcript) -> Result<Transcript, Refusal>
    ensures { result ≡ (if nat_lt t.squeeze_ctr (2 ^ 32) then Ok t else Err Counter) }
{
    require(t.squeeze_ctr < COUNTER_LIMIT, Refusal::Counter)?;
    Ok(t)
}

// The sponge that has taken in the count of the four parts that an absorption and a draw hash, and the first three of them.
fn headed(t: Transcript, tag: &[u8], label: &[u8]) -> Sponge
    ensures { Takes empty (le_bytes 8 4 ++ framed (t.state ∷ tag.now ∷ label.now ∷ [])) result }
{
    let mut sponge = Sponge::empty();
    sponge.feed_word(4);
    sponge.feed_part(&t.state);
    sponge.feed_part(tag);
    sponge.feed_part(label);
    sponge
}

// Bytes are absorbed under a label. Refuses 14.
pub fn absorb_bytes(t: Transcript, label: &[u8], bytes: &[u8]) -> Result<Transcript, Refusal>
    ensures { spec.answer_of t result ≡ spec.absorb_answer t label.now bytes.now }
{
    let mut sponge = headed(on_time(t)?, b"absorb", label);
    sponge.feed_part(bytes);
    Ok(undrawn(sponge.finish()))
}

// The bytes of words are absorbed under a label. A run refuses 14 where it starts, and its draws may pass 2^32: so the layers above
// absorb here, where the counter is not checked.
pub fn absorb_words(t: Transcript, label: &[u8], words: &[u64]) -> Transcript
    ensures { result ≡ spec.absorbed t label.now (word_bytes words.now) }
{
    let mut sponge = headed(t, b"absorb", label);
    sponge.feed_words_part(words);
    undrawn(sponge.finish())
}

// Elements are absorbed under a label. Refuses 11, then 14.
pub fn absorb_field(t: Transcript, label: &[u8], words: &[u64]) -> Result<Transcript, Refusal>
    ensures { spec.answer_of t result ≡ spec.field_answer t label.now words.now }
{
    require(words.len() % 2 == 0, Refusal::Length)?;
    Ok(absorb_words(on_time(t)?, label, words))
}

// A word is absorbed under a label. Refuses 14.
pub fn absorb_u64(t: Transcript, label: &[u8], v: u64) -> Result<Transcript, Refusal>
    ensures { spec.answer_of t result ≡ spec.absorb_answer t label.now (le_bytes 8 v) }
{
    absorb_bytes(t, label, &v.to_le_bytes())
}

// A hash is absorbed under a label. Refuses 14.
pub fn absorb_digest(t: Transcript, label: &[u8], d: &[u8; 32]) -> Result<Transcript, Refusal>
    ensures { spec.answer_of t result ≡ spec.absorb_answer t label.now d.now }
{
    absorb_bytes(t, label, d)
}

// A draw under a label, without its element and without the check of 14, for the reason that absorb_words has none.
pub fn draw(t: Transcript, label: &[u8]) -> Transcript
    ensures { result ≡ spec.drawn t label.now }
{
    let mut sponge = headed(t, b"squeeze", label);
    sponge.feed_part(&t.squeeze_ctr.to_le_bytes());
    Transcript {
        state: sponge.finish(),
        squeeze_ctr: t.squeeze_ctr.wrapping_add(1),
    }
}

// The element of the draw that led to a transcript.
pub fn element(t: Transcript) -> Gf128
    ensures { result ≡ spec.element t }
{
    let (words, _) = t.state.as_chunks::<8>();
    Gf128 {
        lo: u64::from_le_bytes(words[0]),
        hi: u64::from_le_bytes(words[1]),
    }
}

// An element is drawn under a label. Refuses 14.
pub fn challenge_field(t: Transcript, label: &[u8]) -> Result<Drawn, Refusal>
    ensures { spec.draw_answer_of t result ≡ spec.draw_answer t label.now }
{
    let transcript = draw(on_time(t)?, label);
    Ok(Drawn {
        element: element(transcript),
        transcript,
    })
}

// As many elements are drawn under a label as `out` has room for, without the check of 14.
pub fn draw_vec(t: Transcript, label: &[u8], out: &mut [u64]) -> Transcript
    ensures { (result ≡ spec.drawn_times (length out.old / 2) t label.now)
        × (out.new ≡ spec.drawn_words (length out.old / 2) t label.now
        ++ drop (2 * (length out.old / 2)) out.old) }
{
    let mut u = t;
    for i in 0..out.len() / 2 {
        u = draw(u, label);
        let x = element(u);
        out[2 * i] = x.lo;
        out[2 * i + 1] = x.hi;
    }
    u
}

// n elements are drawn under a label into the first words of `out`. Refuses 14, then 15.
pub fn challenge_field_vec(
    t: Transcript,
    label: &[u8],
    n: usize,
    out: &mut [u64],
) -> Result<Transcript, Refusal>
    ensures { (spec.answer_of t result ≡ spec.draws_answer t label.now n (length out.old))
        × (out.new ≡ spec.draws_out t label.now n out.old) }
{
    on_time(t)?;
    require(n <= out.len() / 2, Refusal::Room)?;
    Ok(draw_vec(t, label, &mut out[..2 * n]))
}

// The state.
pub fn state_digest(t: Transcript) -> [u8; 32]
    ensures { result ≡ t.state }
{
    t.state
}
