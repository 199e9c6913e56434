// What is said about an answer.
use magnetar_check::check::RowCheck;
use magnetar_field::refusal::Refusal;
use std::io::{BufWriter, Stdout};
use std::{fmt, io};

// Standard output, written to in large pieces.
pub(crate) type Out = BufWriter<Stdout>;

// A refusal where there is nothing to say about one: on what the vault lends, none comes there.
pub(crate) fn refused(_refusal: Refusal) -> io::Error {
    io::Error::other("a call on the vault's own words is refused")
}

// What an end answered: the number of a refusal and its words, or what is said where nothing is refused.
#[derive(Clone, Copy)]
pub(crate) struct Answer(pub Result<(), Refusal>, pub &'static str);

impl fmt::Display for Answer {
    fn fmt<W: fmt::Write>(&self, f: &mut fmt::Formatter<W>) -> fmt::Result {
        match self.0 {
            Ok(()) => f.write_str(self.1),
            Err(refusal) => {
                let number = refusal.number();
                write!(f, "{number:>2}  {refusal}")
            }
        }
    }
}

// What the row check says.
#[derive(Clone, Copy)]
pub(crate) struct Verdict(pub Result<RowCheck, Refusal>);

impl fmt::Display for Verdict {
    fn fmt<W: fmt::Write>(&self, f: &mut fmt::Formatter<W>) -> fmt::Result {
        match self.0 {
            Ok(RowCheck::Good) => f.write_str(
                "good: no stray bit, and every row of both systems holds for every login",
            ),
            Ok(RowCheck::Stray(login, column)) => write!(
                f,
                "stray bit: login {login}, column {column}, which no segment has"
            ),
            Ok(RowCheck::Bin(login, row)) => {
                write!(f, "bin, login {login}, row {row} does not hold")
            }
            Ok(RowCheck::Fld(login, row)) => {
                write!(f, "fld, login {login}, row {row} does not hold")
            }
            Err(refusal) => {
                let answer = Answer(Err(refusal), "");
                write!(f, "{answer}")
            }
        }
    }
}

// The first eight bytes of a hash.
#[derive(Clone, Copy)]
pub(crate) struct Front(pub [u8; 32]);

impl fmt::Display for Front {
    fn fmt<W: fmt::Write>(&self, f: &mut fmt::Formatter<W>) -> fmt::Result {
        for byte in self.0.iter().take(8) {
            write!(f, "{byte:02x}")?;
        }
        Ok(())
    }
}
