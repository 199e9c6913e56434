// What is written of words and transcripts.
use crate::filled;
use magnetar_field::gf128::ZERO;
use magnetar_hash::transcript;
use magnetar_hash::transcript::Transcript;
use std::fmt;

// The next draw of a transcript, which says what its state and its counter are.
#[derive(Clone, Copy)]
pub(crate) struct Next(pub(crate) Transcript);

impl fmt::Display for Next {
    fn fmt<W: fmt::Write>(&self, f: &mut fmt::Formatter<W>) -> fmt::Result {
        let drawn = transcript::challenge_field(self.0, b"digest");
        let e = drawn.map_or(ZERO, |d| d.element);
        let lo = e.lo;
        let hi = e.hi;
        write!(f, "{hi:016x}{lo:016x}")
    }
}

// How many words there are, and their digest: the draw after a new transcript has absorbed them.
#[derive(Clone, Copy)]
pub(crate) struct Digest<'a>(pub(crate) &'a [u64]);

impl fmt::Display for Digest<'_> {
    fn fmt<W: fmt::Write>(&self, f: &mut fmt::Formatter<W>) -> fmt::Result {
        let count = self.0.len();
        let start = filled::start();
        let next = Next(transcript::absorb_field(start, b"words", self.0).unwrap_or(start));
        write!(f, "{count} {next}")
    }
}
