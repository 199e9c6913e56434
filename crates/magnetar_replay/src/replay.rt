// The queries of an input, a line for each, and their answers.
ghost use Rattle.std.specs.Prelude.{ℕ, Bool, List, ◌∷◌, IfOk, IfSome, OnOk, ◌≡◌, ◌<◌, take, length, ⊤};
ghost use Rattle.std.specs.List.{slice_split, position};
ghost use Rattle.std.specs.Io.KnownBytes.{Appends};
ghost use Rattle.magnetar_replay.specs.Replay as spec;

use std::alloc::Global;
use std::io;
use std::io::{Read, Write};

// Who knows queries, and writes their answers to a W.
pub trait Queries<W: Write> {
    // What a line may be answered by: whether its query is known, and the text. An impl that leaves this out claims nothing.
    ghost answers: { Self → (line : List ℕ) → (known : Bool) → (text : List ℕ) → Self → Type 0 } = { λ _ _ _ _ _. ⊤ };

    // Answers the query of a line, or says that it is none.
    fn answer(&mut self, out: &mut W, line: &[u8]) -> io::Result<bool>
        ensures { IfOk result (λ known. (written : List ℕ) × answers self.old line.now known written self.new
            × Appends (W.contents out.old) (W.contents out.new) written) };
}

// A line where there is more to read than room for it.
pub fn too_long<W: Write>(out: &mut W) -> io::Result<()>
    ensures { OnOk result (Appends (W.contents out.old) (W.contents out.new) spec.too_long_line) }
{
    writeln!(out, "input too long")
}

// A line that begins with # is copied.
fn is_copied(line: &[u8]) -> bool
    ensures { result ≡ spec.is_copied line.now }
{
    line.first().copied() == Some(b'#')
}

// Answers a line: one that begins with # is copied, and one whose query nobody knows is said to be such.
fn answer_line<W: Write, Q: Queries<W>>(out: &mut W, line: &[u8], queries: &mut Q) -> io::Result<()>
    ensures { OnOk result ((written : List ℕ) × spec.LineReplayed Q.answers queries.old line.now written queries.new
        × Appends (W.contents out.old) (W.contents out.new) written) }
{
    if is_copied(line) {
        out.write_all(line)?;
        return out.write_all(b"\n");
    }
    if queries.answer(out, line)? {
        return Ok(());
    }
    writeln!(out, "? unknown query")
}

// The input without the line break at its end, where there is one.
fn without_last_break(input: &[u8]) -> &[u8]
    ensures { result.now ≡ spec.without_last_break input.now }
{
    input.strip_suffix(b"\n").unwrap_or(input)
}

// Where the first line break is.
fn first_break(lines: &[u8]) -> Option<usize>
    ensures { result ≡ position spec.is_break lines.now }
{
    lines.iter().position(|c| *c == b'\n')
}

// The first line, and what is behind its line break, where it has one.
fn first_line(lines: &[u8]) -> (&[u8], Option<&[u8]>)
    ensures lines { slice_split spec.is_break lines.now ≡ result.0.now ∷ spec.lines_behind result.1 }
    ensures shorter { IfSome result.1 (λ rest. length rest.now < length lines.now) }
{
    match first_break(lines) {
        Some(end) => (&lines[..end], Some(&lines[end + 1..])),
        None => (lines, None),
    }
}

// Answers all lines of the input, of which at most `most` bytes were read.
pub fn replay<W: Write, Q: Queries<W>>(
    out: &mut W,
    input: &[u8],
    most: usize,
    queries: &mut Q,
) -> io::Result<()>
    ensures { OnOk result ((written : List ℕ) × spec.Replayed Q.answers most queries.old input.now written queries.new
        × Appends (W.contents out.old) (W.contents out.new) written) }
{
    if input.len() == most {
        return too_long(out);
    }
    if input.is_empty() {
        return Ok(());
    }
    let mut rest = Some(without_last_break(input));
    while let Some(lines) = rest {
        let (line, behind) = first_line(lines);
        answer_line(out, line, queries)?;
        rest = behind;
    }
    Ok(())
}

// An input, of which at most `most` bytes are read. So many bytes may not be all of it.
pub fn read<R: Read + Drop>(alloc: Global, reader: R, most: usize) -> io::Result<Vec<u8>>
    ensures { IfOk result (λ input. IfSome (R.remaining reader) (λ bytes. input.items ≡ take most bytes)) }
{
    let mut input = Vec::new(alloc);
    reader.take(most as u64).read_to_end(&mut input)?;
    Ok(input)
}
