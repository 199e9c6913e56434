// Queries on the sum-check. A whole one is asked by its tables and challenges, and answered by a line for each round: the
// message, whether it is right for the running claim, and the next claim; then the folded tables, a line each; and at the end
// the terminal values and whether all was right.
use magnetar_field::gf128::{Gf128, ONE, ZERO};
use magnetar_field::refusal::Refusal;
use magnetar_field::words;
use magnetar_multilinear::eq::EqBits;
use magnetar_multilinear::multilinear;
use magnetar_replay::show::{Element, Out, Words};
use magnetar_replay::{line, show};
use magnetar_sumcheck_prover::{engine, public};
use magnetar_sumcheck_verifier::verify;
use magnetar_sumcheck_verifier::verify::Round;
use std::alloc::{AllocError, Global};
use std::io;
use std::io::Write;

// How many words are lent at most for a message, and how many words a table of a whole sum-check has.
const MOST_WORDS: usize = 4096;

const TABLE: usize = 128;

// Where the tables A, B and C of an outer one begin, behind that of eq.
const A: usize = TABLE;

const B: usize = 2 * TABLE;

const C: usize = 3 * TABLE;

// In which order n variables are bound: the highest ones in the first `high` rounds, then the lowest ones.
#[derive(Clone, Copy)]
struct Order {
    high: usize,
    n: usize,
}

impl Order {
    // Which variable of those that are left round i binds.
    fn bit(self, i: usize) -> usize {
        if i < self.high && i < self.n {
            self.n - 1 - i
        } else {
            0
        }
    }

    // Which of all variables that is.
    fn variable(self, i: usize) -> usize {
        if i < self.high {
            self.bit(i)
        } else {
            i - self.high
        }
    }

    // How many words a table has before round i; none where 20 variables or more are left.
    fn words(self, i: usize) -> usize {
        let left = self.n.saturating_sub(i);
        if left < 20 { 2 << left } else { 0 }
    }
}

// What a sum-check carries from round to round: the running claim, and whether all messages were right.
#[derive(Clone, Copy)]
struct Run {
    claim: Gf128,
    good: bool,
}

impl Run {
    // After a round whose message was made or refused.
    fn after(self, round: Round, made: Result<(), Refusal>) -> Run {
        Run {
            claim: round.claim,
            good: self.good && round.holds && made.is_ok(),
        }
    }
}

// The words of a list as a table, which 0 fills up.
fn table(alloc: Global, list: &[u64]) -> Result<Vec<u64>, AllocError> {
    let mut table = vec![in alloc; 0u64; TABLE]?;
    words::copy(list, table.as_mut_slice());
    Ok(table)
}

// The first n words.
fn front(s: &mut [u64], n: usize) -> &mut [u64] {
    let n = n.min(s.len());
    &mut s[..n]
}

fn first(s: &[u64], n: usize) -> &[u64] {
    s.get(..n).unwrap_or(s)
}

// The n words from index i on, or none where they are fewer.
fn span(s: &[u64], i: usize, n: usize) -> &[u64] {
    s.get(i..i.saturating_add(n)).unwrap_or(&[])
}

fn span_mut(s: &mut [u64], i: usize, n: usize) -> &mut [u64] {
    let k = i.saturating_add(n);
    if i <= k && k <= s.len() {
        &mut s[i..k]
    } else {
        &mut s[..0]
    }
}

// What a message leaves of the claim, written behind it.
fn judge(out: &mut Out, msg: &[u64], n: usize, claim: Gf128, r: Gf128) -> io::Result<Round> {
    let round = verify::round_external(msg, n, claim, r).unwrap_or(Round {
        holds: false,
        claim,
    });
    let msg = Words(msg);
    let holds = round.holds;
    let next = Element(round.claim);
    writeln!(out, "= {msg} {holds} {next}")?;
    Ok(round)
}

// A table folded, and written down.
fn fold(out: &mut Out, table: &mut [u64], v: usize, r: Gf128) -> io::Result<()> {
    if let Err(refusal) = multilinear::bind_var(table, v, r) {
        show::refused(out, refusal)?;
    }
    show::listed(out, first(table, table.len() / 2))
}

// The tables of an outer sum-check, one behind the other, and the product of eq over the bound variables. A table of more than TABLE words
// goes on over those of the tables behind it.
#[derive(Drop)]
struct Tables {
    words: Vec<u64>,
    k: Gf128,
}

impl Tables {
    // A round on the tables' first n words, which binds variable v; tau's element is t. Where the table of eq has no such variable, it is left
    // out.
    fn round(
        &mut self,
        out: &mut Out,
        run: Run,
        n: usize,
        v: usize,
        t: Gf128,
        r: Gf128,
    ) -> io::Result<Run> {
        let w = self.words.as_mut_slice();
        if public::drop_var(front(w, n), v).is_err() {
            return Ok(run);
        }
        let mut msg = [0u64; 8];
        let made = engine::outer_message(
            &mut msg,
            first(w, n / 2),
            span(w, A, n),
            span(w, B, n),
            span(w, C, n),
            v,
            self.k,
            t,
        );
        let round = judge(out, &msg, 4, run.claim, r)?;
        self.k = public::eq_next(self.k, t, r);
        fold(out, span_mut(w, A, n), v, r)?;
        fold(out, span_mut(w, B, n), v, r)?;
        fold(out, span_mut(w, C, n), v, r)?;
        Ok(run.after(round, made))
    }
}

// outer HIGH 2 CLAIM TAU A B C R
fn outer(alloc: Global, out: &mut Out, nums: &[u64]) -> io::Result<()> {
    let high = line::size(nums, 0);
    let claim = words::get(line::list_from(nums, 1, 0), 0);
    let tau = line::list_from(nums, 1, 1);
    let r = line::list_from(nums, 1, 5);
    let mut words = vec![in alloc; 0u64; 4 * TABLE]?;
    let w = words.as_mut_slice();
    words::copy(line::list_from(nums, 1, 2), span_mut(w, A, TABLE));
    words::copy(line::list_from(nums, 1, 3), span_mut(w, B, TABLE));
    words::copy(line::list_from(nums, 1, 4), span_mut(w, C, TABLE));
    let built = EqBits::build(tau, ONE, front(w, TABLE));
    let mut tables = Tables { words, k: ONE };
    let order = Order {
        high,
        n: r.len() / 2,
    };
    let mut run = Run { claim, good: true };
    for i in 0..order.n {
        let t = words::get(tau, order.variable(i));
        run = tables.round(out, run, order.words(i), order.bit(i), t, words::get(r, i))?;
    }
    let e = public::eq_points(tau, r, high).unwrap_or(ZERO);
    let w = tables.words.as_slice();
    let a = words::get(w, A / 2);
    let b = words::get(w, B / 2);
    let c = words::get(w, C / 2);
    let ends = [e.lo, e.hi, a.lo, a.hi, b.lo, b.hi, c.lo, c.hi];
    let ends = Words(&ends);
    let good = run.good && verify::outer_finish(run.claim, e, a, b, c);
    writeln!(out, "= {ends} {good}")?;
    match built {
        Ok(_) => Ok(()),
        Err(refusal) => show::refused(out, refusal),
    }
}

// inner HIGH 2 CLAIM T Z R
fn inner(alloc: Global, out: &mut Out, nums: &[u64]) -> io::Result<()> {
    let claim = words::get(line::list_from(nums, 1, 0), 0);
    let mut t = table(alloc, line::list_from(nums, 1, 1))?;
    let mut z = table(alloc, line::list_from(nums, 1, 2))?;
    let r = line::list_from(nums, 1, 3);
    let order = Order {
        high: line::size(nums, 0),
        n: r.len() / 2,
    };
    let mut run = Run { claim, good: true };
    for i in 0..order.n {
        let n = order.words(i);
        let v = order.bit(i);
        let e = words::get(r, i);
        let mut msg = [0u64; 6];
        let made = engine::inner_message(
            &mut msg,
            first(t.as_slice(), n),
            first(z.as_slice(), n),
            v,
        );
        let round = judge(out, &msg, 3, run.claim, e)?;
        run = run.after(round, made);
        fold(out, front(t.as_mut_slice(), n), v, e)?;
        fold(out, front(z.as_mut_slice(), n), v, e)?;
    }
    let t = words::get(t.as_slice(), 0);
    let z = words::get(z.as_slice(), 0);
    let ends = [t.lo, t.hi, z.lo, z.hi];
    let ends = Words(&ends);
    let good = run.good && verify::inner_finish(run.claim, t, z);
    writeln!(out, "= {ends} {good}")
}

// outermsg LENT V E A B C 4 K T
fn outermsg(alloc: Global, out: &mut Out, nums: &[u64]) -> io::Result<()> {
    let mut room = line::marked(alloc, line::size(nums, 0).min(MOST_WORDS))?;
    let p = line::list_from(nums, 2, 4);
    let made = engine::outer_message(
        room.as_mut_slice(),
        line::list_from(nums, 2, 0),
        line::list_from(nums, 2, 1),
        line::list_from(nums, 2, 2),
        line::list_from(nums, 2, 3),
        line::size(nums, 1),
        words::get(p, 0),
        words::get(p, 1),
    );
    show::written(out, made, room.as_slice())
}

// innermsg LENT V T Z
fn innermsg(alloc: Global, out: &mut Out, nums: &[u64]) -> io::Result<()> {
    let mut room = line::marked(alloc, line::size(nums, 0).min(MOST_WORDS))?;
    let made = engine::inner_message(
        room.as_mut_slice(),
        line::list_from(nums, 2, 0),
        line::list_from(nums, 2, 1),
        line::size(nums, 1),
    );
    show::written(out, made, room.as_slice())
}

// dropvar V TABLE
fn dropvar(alloc: Global, out: &mut Out, nums: &[u64]) -> io::Result<()> {
    let mut table = Vec::from_slice(alloc, line::list_from(nums, 1, 0))?;
    let dropped = public::drop_var(table.as_mut_slice(), line::size(nums, 0));
    show::written(out, dropped, table.as_slice())
}

// round N MSG 4 CLAIM R: whether a message is right, and the next claim.
fn round(out: &mut Out, nums: &[u64]) -> io::Result<()> {
    let msg = line::list_from(nums, 1, 0);
    let x = line::list_from(nums, 1, 1);
    let claim = words::get(x, 0);
    match verify::round_external(msg, line::size(nums, 0), claim, words::get(x, 1)) {
        Ok(round) => {
            let holds = round.holds;
            let next = Element(round.claim);
            writeln!(out, "= {holds} {next}")
        }
        Err(refusal) => {
            let number = refusal.number();
            let same = Element(claim);
            writeln!(out, "! {number} {same}")
        }
    }
}

// Answers a query of the verifier on the elements of one list, or says that it is none.
fn ends(out: &mut Out, name: &[u8], nums: &[u64]) -> io::Result<bool> {
    let p = line::list(nums, 0);
    let x = words::get(p, 0);
    let y = words::get(p, 1);
    let z = words::get(p, 2);
    match name {
        b"outerend" => {
            let is = verify::outer_finish(x, y, z, words::get(p, 3), words::get(p, 4));
            writeln!(out, "= {is}")?;
        }
        b"innerend" => {
            let is = verify::inner_finish(x, y, z);
            writeln!(out, "= {is}")?;
        }
        b"eqnext" => {
            let next = Element(public::eq_next(x, y, z));
            writeln!(out, "= {next}")?;
        }
        _ => return Ok(false),
    }
    Ok(true)
}

// Answers a query on the sum-check, or says that it is none.
pub(crate) fn answer(alloc: Global, out: &mut Out, name: &[u8], nums: &[u64]) -> io::Result<bool> {
    match name {
        b"outer" => outer(alloc, out, nums)?,
        b"inner" => inner(alloc, out, nums)?,
        b"outermsg" => outermsg(alloc, out, nums)?,
        b"innermsg" => innermsg(alloc, out, nums)?,
        b"dropvar" => dropvar(alloc, out, nums)?,
        b"round" => round(out, nums)?,
        b"eqpoints" => {
            let tau = line::list_from(nums, 1, 0);
            let r = line::list_from(nums, 1, 1);
            show::answer(
                out,
                public::eq_points(tau, r, line::size(nums, 0)).map(Element),
            )?;
        }
        _ => return ends(out, name, nums),
    }
    Ok(true)
}
