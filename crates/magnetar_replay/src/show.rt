// How answers are written.
ghost use Rattle.std.specs.Prelude.{◌≡◌, Some, IfSome, OnOk};
ghost use Rattle.std.specs.List.{prefix_len};
ghost use Rattle.std.specs.Fmt.{WritesOnOk};
ghost use Rattle.std.specs.Io.KnownBytes.{Appends};
ghost use Rattle.magnetar_field.specs.Gf128.{value};
ghost use Rattle.magnetar_field.specs.Number.{number, number_of};
ghost use Rattle.magnetar_replay.specs.Words.{is_zero};
ghost use Rattle.magnetar_replay.specs.Lists.{is_marked};
ghost use Rattle.magnetar_replay.specs.Text as text;

use crate::line;
use magnetar_field::gf128::Gf128;
use magnetar_field::refusal::Refusal;
use magnetar_hash::transcript::Transcript;
use std::io::{BufWriter, Stdout, Write};
use std::{fmt, io};

// Standard output, written to in large pieces.
pub type Out = BufWriter<Stdout>;

// What stands in a lent word before a call, so that a word that was not written to is seen.
pub const MARK: u64 = 0x5a5a5a5a5a5a5a5a;

// How many words there are, and each of them.
#[derive(Clone, Copy)]
pub struct Words<'a>(pub &'a [u64]);

impl fmt::Display for Words<'_> {
    ghost output = { λ w. Some (text.words_text w.0.now) };

    fn fmt<W: fmt::Write>(&self, f: &mut fmt::Formatter<W>) -> fmt::Result {
        let count = self.0.len();
        write!(f, "{count}")?;
        for word in self.0 {
            write!(f, " 0x{word:x}")?;
        }
        Ok(())
    }
}

// The same of sizes.
#[derive(Clone, Copy)]
pub struct Sizes<'a>(pub &'a [usize]);

impl fmt::Display for Sizes<'_> {
    ghost output = { λ s. Some (text.words_text s.0.now) };

    fn fmt<W: fmt::Write>(&self, f: &mut fmt::Formatter<W>) -> fmt::Result {
        let count = self.0.len();
        write!(f, "{count}")?;
        for size in self.0 {
            write!(f, " 0x{size:x}")?;
        }
        Ok(())
    }
}

// Writes two digits for each byte.
fn write_bytes<W: fmt::Write>(f: &mut fmt::Formatter<W>, bytes: &[u8]) -> fmt::Result
    ensures { WritesOnOk W.write_str_gives f.old result (text.bytes_text bytes.now) f.new }
{
    for byte in bytes {
        write!(f, "{byte:02x}")?;
    }
    Ok(())
}

// Two digits for each byte.
#[derive(Clone, Copy)]
pub struct Hex<'a>(pub &'a [u8]);

impl fmt::Display for Hex<'_> {
    ghost output = { λ h. Some (text.bytes_text h.0.now) };

    fn fmt<W: fmt::Write>(&self, f: &mut fmt::Formatter<W>) -> fmt::Result {
        write_bytes(f, self.0)
    }
}

// An element as its two words.
#[derive(Clone, Copy)]
pub struct Element(pub Gf128);

impl fmt::Display for Element {
    ghost output = { λ e. Some (text.element_text (value e.0)) };

    fn fmt<W: fmt::Write>(&self, f: &mut fmt::Formatter<W>) -> fmt::Result {
        let lo = self.0.lo;
        let hi = self.0.hi;
        write!(f, "2 0x{lo:x} 0x{hi:x}")
    }
}

// A transcript as its state and its counter.
#[derive(Clone, Copy)]
pub struct State(pub Transcript);

impl fmt::Display for State {
    ghost output = { λ s. Some (text.state_text s.0) };

    fn fmt<W: fmt::Write>(&self, f: &mut fmt::Formatter<W>) -> fmt::Result {
        let count = self.0.squeeze_ctr;
        write_bytes(f, &self.0.state)?;
        write!(f, " {count}")
    }
}

// How many words are zero at the front.
fn zeros(words: &[u64]) -> usize
    ensures { result ≡ prefix_len is_zero words.now }
{
    words.iter().take_while(|w| **w == 0).count()
}

// How many are marked there.
fn marked(words: &[u64]) -> usize
    ensures { result ≡ prefix_len is_marked words.now }
{
    words.iter().take_while(|w| **w == MARK).count()
}

// How many words there are, how many of them are zero at the front, and how many after these are still marked.
#[derive(Clone, Copy)]
pub struct Cleared<'a>(pub &'a [u64]);

impl fmt::Display for Cleared<'_> {
    ghost output = { λ c. Some (text.cleared_text c.0.now) };

    fn fmt<W: fmt::Write>(&self, f: &mut fmt::Formatter<W>) -> fmt::Result {
        let count = self.0.len();
        let zeros = zeros(self.0);
        let marked = marked(line::behind(self.0, zeros));
        write!(f, "{count} {zeros} {marked}")
    }
}

// The number of an answer: 0 where nothing is refused.
pub fn code<T: Copy>(answer: Result<T, Refusal>) -> u32
    ensures { result ≡ number_of answer }
{
    match answer {
        Ok(_) => 0,
        Err(refusal) => refusal.number(),
    }
}

// A line with the number of a refusal.
pub fn refused<W: Write>(out: &mut W, refusal: Refusal) -> io::Result<()>
    ensures { OnOk result (Appends (W.contents out.old) (W.contents out.new) (text.refused_line (number refusal))) }
{
    let number = refusal.number();
    writeln!(out, "! {number}")
}

// A line with what a call answered, or with the number of its refusal.
pub fn answer<W: Write, T: fmt::Display + Copy>(
    out: &mut W,
    answer: Result<T, Refusal>,
) -> io::Result<()>
    ensures { OnOk result (IfSome (text.call_line T.output answer) (Appends (W.contents out.old) (W.contents out.new))) }
{
    match answer {
        Ok(value) => writeln!(out, "= {value}"),
        Err(refusal) => refused(out, refusal),
    }
}

// A line of words.
pub fn listed<W: Write>(out: &mut W, words: &[u64]) -> io::Result<()>
    ensures { OnOk result (Appends (W.contents out.old) (W.contents out.new) (text.listed_line words.now)) }
{
    let words = Words(words);
    writeln!(out, "= {words}")
}

// A line with the number of a call's answer, and the lent words after it.
pub fn written<W: Write, T: Copy>(
    out: &mut W,
    answer: Result<T, Refusal>,
    words: &[u64],
) -> io::Result<()>
    ensures { OnOk result (Appends (W.contents out.old) (W.contents out.new) (text.written_line (number_of answer) words.now)) }
{
    let number = code(answer);
    let words = Words(words);
    writeln!(out, "= {number} {words}")
}
