// The functions of a matrix, over its entries in any form: OP LENT SCRATCH ROWS COLS ROW COL LO HI X Y, with as many words lent as LENT and
// SCRATCH say.
ghost use Rattle.std.specs.Prelude.{◌≡◌, IfOk, OnOk};
ghost use Rattle.std.specs.Io.KnownBytes.{Appends};
ghost use Rattle.magnetar_field.specs.Number.{number_of};
ghost use Rattle.magnetar_matrix.specs.Numbers.{lent_by};
ghost use Rattle.magnetar_r1cs.specs.Entries.{flagged};
ghost use Rattle.magnetar_replay.specs.Functions as functions;

use crate::show::Element;
use crate::{line, show};
use magnetar_field::gf128::Gf128;
use magnetar_field::refusal::Refusal;
use magnetar_matrix::entries::{Entries, Slices};
use magnetar_r1cs::r1cs;
use std::alloc::{AllocError, Global};
use std::io;
use std::io::Write;

// How many words are lent at most, to be written to and as scratch.
const MOST_WORDS: usize = 4096;

const MOST_SCRATCH: usize = 1024;

// A function of a matrix.
#[derive(Clone, Copy, PartialEq, Eq)]
pub enum Function {
    // Whether all entries are 0 or 1.
    IsBinary,
    // X a vector.
    Apply,
    // X a batch, Y the public part, and then 2 Q W.
    Packed,
    // X the point of the rows.
    Table,
    // X the point of the rows, Y that of the columns.
    At,
}

// What a function hands back besides words: nothing, a flag or an element.
#[derive(Clone, Copy, PartialEq, Eq)]
pub enum Value {
    Nothing,
    Flag(bool),
    Element(Gf128),
}

// An answer, and the words that were lent for it.
#[derive(PartialEq, Drop)]
pub struct Told {
    pub answer: Result<Value, Refusal>,
    pub words: Vec<u64>,
    pub scratch: Vec<u64>,
}

// The places of a query's entries.
#[derive(Drop)]
pub struct Places {
    pub row: Vec<usize>,
    pub col: Vec<usize>,
}

impl Places {
    // Rows of which there are more than `most` are left out, and so are columns.
    pub fn new(alloc: Global, nums: &[u64], most: usize) -> Result<Places, AllocError>
        ensures { IfOk result (λ p. (p.row.items ≡ functions.rows_asked nums.now most) × (p.col.items ≡ functions.cols_asked nums.now most)) }
    {
        Ok(Places {
            row: line::sizes_within(alloc, line::list_from(nums, 4, 0), most)?,
            col: line::sizes_within(alloc, line::list_from(nums, 4, 1), most)?,
        })
    }

    // The entries of the query, as four slices.
    pub fn slices<'a>(&'a self, nums: &'a [u64]) -> Slices<'a>
        ensures { record { row = result.row.now; col = result.col.now; lo = result.lo.now; hi = result.hi.now }
            ≡ functions.entries_asked self.now.row.items self.now.col.items nums.now }
    {
        Slices {
            row: self.row.as_slice(),
            col: self.col.as_slice(),
            lo: line::list_from(nums, 4, 2),
            hi: line::list_from(nums, 4, 3),
        }
    }
}

// An answer that is yes or no.
fn flag(answer: Result<bool, Refusal>) -> Result<Value, Refusal>
    ensures { functions.handed_by result ≡ functions.flag_by (flagged answer) }
{
    match answer {
        Ok(flag) => Ok(Value::Flag(flag)),
        Err(refusal) => Err(refusal),
    }
}

// An answer that is nothing but done.
#[tactic(auto, using(crate::proofs::StepLaws::refused_number))]
fn done(answer: Result<(), Refusal>) -> Result<Value, Refusal>
    ensures { functions.handed_by result ≡ functions.handed (number_of answer) functions.handed_nothing }
{
    match answer {
        Ok(_) => Ok(Value::Nothing),
        Err(refusal) => Err(refusal),
    }
}

// An answer that is an element.
fn element(answer: Result<Gf128, Refusal>) -> Result<Value, Refusal>
    ensures { functions.handed_by result ≡ functions.element_by answer }
{
    match answer {
        Ok(e) => Ok(Value::Element(e)),
        Err(refusal) => Err(refusal),
    }
}

impl Function {
    // The function of a query; nothing where it asks for none.
    #[tactic(auto, unfolding(crate::specs::Functions::function_named))]
    pub fn named(name: &[u8]) -> Option<Function>
        ensures { result ≡ functions.function_named name.now }
    {
        if line::is(name, b"isbinary") {
            Some(Function::IsBinary)
        } else if line::is(name, b"apply") {
            Some(Function::Apply)
        } else if line::is(name, b"packed") {
            Some(Function::Packed)
        } else if line::is(name, b"table") {
            Some(Function::Table)
        } else if line::is(name, b"at") {
            Some(Function::At)
        } else {
            None
        }
    }

    // What it answers.
    #[tactic(auto, unfolding(crate::specs::Functions::function_left))]
    pub fn asked<E: Entries>(self, alloc: Global, nums: &[u64], es: &E) -> Result<Told, AllocError>
        ensures { IfOk result (λ told. functions.left_of told ≡ functions.function_left self nums.now (E.numbers es.now)) }
    {
        let mut words = line::marked(alloc, line::size(nums, 0).min(MOST_WORDS))?;
        let mut scratch = line::marked(alloc, line::size(nums, 1).min(MOST_SCRATCH))?;
        let rows = line::size(nums, 2);
        let cols = line::size(nums, 3);
        let x = line::list_from(nums, 4, 4);
        let y = line::list_from(nums, 4, 5);
        let batch = line::list_from(nums, 4, 6);
        let q = line::size(batch, 0);
        let w = line::size(batch, 1);
        let out = words.as_mut_slice();
        let s = scratch.as_mut_slice();
        let answer = self.run(rows, cols, es, x, y, q, w, out, s);
        Ok(Told {
            answer,
            words,
            scratch,
        })
    }

    // What it answers of a matrix, vectors or points x and y, q logins of w columns, and the words that are lent.
    fn run<E: Entries>(
        self,
        rows: usize,
        cols: usize,
        es: &E,
        x: &[u64],
        y: &[u64],
        q: usize,
        w: usize,
        out: &mut [u64],
        s: &mut [u64],
    ) -> Result<Value, Refusal>
        ensures { record { handed_back = functions.handed_by result; out = out.new; scratch = s.new }
            ≡ functions.left_with self (lent_by rows cols (E.numbers es.now)) x.now y.now q w out.old s.old }
    {
        match self {
            Function::IsBinary => flag(r1cs::is_binary(rows, cols, es)),
            Function::Apply => done(r1cs::apply(rows, cols, es, x, out)),
            Function::Packed => flag(r1cs::apply_simd_packed(rows, cols, es, x, y, q, w, out)),
            Function::Table => done(r1cs::eval_mle_table(rows, cols, es, x, out, s)),
            Function::At => element(r1cs::eval_mle_at(rows, cols, es, x, y, s)),
        }
    }

    // The answer, and the lent words that come with it.
    pub fn write<W: Write>(self, out: &mut W, told: &Told) -> io::Result<()>
        ensures { OnOk result
            (Appends (W.contents out.old) (W.contents out.new) (functions.function_lines self (functions.left_of told.now))) }
    {
        match told.answer {
            Ok(Value::Flag(flag)) => writeln!(out, "= {flag}")?,
            Ok(Value::Element(e)) => {
                let e = Element(e);
                writeln!(out, "= {e}")?;
            }
            Ok(Value::Nothing) => show::written(out, Ok(()), told.words.as_slice())?,
            Err(refusal) => match self {
                Function::Apply | Function::Table => {
                    show::written(out, told.answer, told.words.as_slice())?
                }
                _ => show::refused(out, refusal)?,
            },
        }
        match self {
            Function::Packed => show::listed(out, told.words.as_slice()),
            Function::Table | Function::At => show::listed(out, told.scratch.as_slice()),
            _ => Ok(()),
        }
    }
}
