// Why a call is turned back (1 to 17), and which check of a proof does not pass (21 to 29).
ghost use Rattle.std.specs.Prelude.{◌≡◌, if◌then◌else◌};
ghost use Rattle.magnetar_field.specs.Number.{number};

use std::error::Error;
use std::fmt;

// A refusal; each has its number.
#[derive(Clone, Copy, Debug, PartialEq, Eq)]
pub enum Refusal {
    Size = 1,
    PackedWords = 2,
    PublicWords = 3,
    Rows = 4,
    Columns = 5,
    EntryCount = 6,
    EntryPlace = 7,
    SegmentLength = 8,
    LayoutEnd = 9,
    SegmentCount = 10,
    Length = 11,
    NotBits = 12,
    MaskBits = 13,
    Counter = 14,
    Room = 15,
    ProofWords = 16,
    PartLengths = 17,
    SharedBin = 21,
    SharedFld = 22,
    RowBin = 23,
    RowFld = 24,
    TerminalBin = 25,
    TerminalFld = 26,
    InnerRound = 27,
    InnerTerminal = 28,
    SegmentIdentity = 29,
}

impl Refusal {
    // Its number.
    pub fn number(self) -> u32
        ensures { result ≡ number self }
    {
        self as u32
    }
}

impl fmt::Display for Refusal {
    fn fmt<W: fmt::Write>(&self, f: &mut fmt::Formatter<W>) -> fmt::Result {
        let why = match self {
            Refusal::Size => "m or q is no power of two within its bounds",
            Refusal::PackedWords => "the packed words are not those of q logins",
            Refusal::PublicWords => "the public words are not m - 2 for each login",
            Refusal::Rows => "a number of rows is no power of two, unequal or too large",
            Refusal::Columns => "a matrix has not m columns",
            Refusal::EntryCount =>
                "a matrix has too many entries, or slices or counts do not fit each other",
            Refusal::EntryPlace => "an entry lies outside its matrix",
            Refusal::SegmentLength => "a segment's length is no power of two up to m / 2",
            Refusal::LayoutEnd => "the segments end past m / 2",
            Refusal::SegmentCount => "there are over 64 segments",
            Refusal::Length => "a point, vector or list has the wrong length",
            Refusal::NotBits => "masks of a value over 1 or of a column past m/2",
            Refusal::MaskBits => "v is over log2 q or over 6",
            Refusal::Counter => "the transcript's counter is 2^32 or more",
            Refusal::Room => "an output or the scratch is too short",
            Refusal::ProofWords => "the proof has the wrong number of words",
            Refusal::PartLengths => "the lengths of the parts do not add up",
            Refusal::SharedBin => "a shared round of bin does not add up",
            Refusal::SharedFld => "a shared round of fld does not add up",
            Refusal::RowBin => "a row round of bin does not add up",
            Refusal::RowFld => "a row round of fld does not add up",
            Refusal::TerminalBin => "bin's outer sum-check ends wrong",
            Refusal::TerminalFld => "fld's outer sum-check ends wrong",
            Refusal::InnerRound => "an inner round does not add up",
            Refusal::InnerTerminal => "the inner sum-check ends wrong",
            Refusal::SegmentIdentity => "the segment values do not add up to v_z",
        };
        f.write_str(why)
    }
}

impl Error for Refusal {}

// Nothing where it holds, else the refusal.
pub fn require(holds: bool, refusal: Refusal) -> Result<(), Refusal>
    ensures { result ≡ (if holds then Ok tt else Err refusal) }
{
    if holds { Ok(()) } else { Err(refusal) }
}
