// Queries on the field. Elements are two words, the low one first; a list is its number of words and the words.
use magnetar_field::gf128::{Gf128, ONE};
use magnetar_field::{gf128, sizes, words};
use magnetar_multilinear::eq::EqBits;
use magnetar_multilinear::{eq, multilinear};
use magnetar_replay::show::{Element, Out, Words};
use magnetar_replay::{line, show};
use std::alloc::Global;
use std::io;
use std::io::Write;

// How many words are lent at most, and how many bits a query has.
const MOST_WORDS: usize = 4096;

const MOST_BITS: usize = 64;

// chain 4 A B N: N times the product of A and B in the place of A, and the sum of B and the number of the turn in that
// of B; A after that.
fn chain(a: Gf128, b: Gf128, n: u64) -> Gf128 {
    let mut x = a;
    let mut y = b;
    for lo in 0..n {
        x = gf128::mul(x, y);
        y = y + Gf128 { lo, hi: 0 };
    }
    x
}

// The element that a query on one or two asks for, or nothing where it is none.
fn element(name: &[u8], nums: &[u64]) -> Option<Gf128> {
    let (v, more) = line::split_list(nums);
    let a = words::get(v, 0);
    let b = words::get(v, 1);
    let n = line::at(more, 0);
    match name {
        b"add" => Some(a + b),
        b"mul" => Some(gf128::mul(a, b)),
        b"mulbit" => Some(gf128::mul_bit(a, b)),
        b"chain" => Some(chain(a, b, n)),
        b"square" => Some(gf128::square(a)),
        b"inv" => Some(gf128::inv(a)),
        b"pow" => Some(gf128::pow(a, n, line::at(more, 1))),
        b"eqchar2" => Some(eq::eq_char2(a, n == 1)),
        _ => None,
    }
}

// eq P C, fused P: the table.
fn table(alloc: Global, out: &mut Out, p: &[u64], c: Gf128) -> io::Result<()> {
    let mut room = line::marked(alloc, MOST_WORDS)?;
    let built = EqBits::build(p, c, room.as_mut_slice());
    let need = sizes::power_of_two(p.len() / 2 + 1);
    let table = room.as_slice().get(..need).unwrap_or(&[]);
    show::answer(out, built.map(|_| Words(table)))
}

// eqroom K P C: the outcome where K words are lent for the table.
fn eqroom(alloc: Global, out: &mut Out, k: usize, p: &[u64], c: Gf128) -> io::Result<()> {
    let mut room = line::marked(alloc, k.min(MOST_WORDS))?;
    let built = EqBits::build(p, c, room.as_mut_slice());
    show::written(out, built, room.as_slice())
}

// mleroom K V P: the value where K words are lent as scratch, and these words after the call.
fn mleroom(alloc: Global, out: &mut Out, k: usize, v: &[u64], p: &[u64]) -> io::Result<()> {
    let mut room = line::marked(alloc, k.min(MOST_WORDS))?;
    let value = multilinear::eval_mle(v, p, room.as_mut_slice());
    show::answer(out, value.map(Element))?;
    show::listed(out, room.as_slice())
}

// evalmle V P: the value, with room for it.
fn evalmle(alloc: Global, out: &mut Out, v: &[u64], p: &[u64]) -> io::Result<()> {
    let mut room = line::marked(alloc, MOST_WORDS)?;
    let value = multilinear::eval_mle(v, p, room.as_mut_slice());
    show::answer(out, value.map(Element))
}

// eqat P BITS: the value of eq at the point and the bits.
fn eqat(alloc: Global, out: &mut Out, p: &[u64], bits: &[u64]) -> io::Result<()> {
    if bits.len() > MOST_BITS {
        return writeln!(out, "? bits");
    }
    let mut b = Vec::new(alloc);
    for bit in bits {
        b.push(*bit == 1)?;
    }
    show::answer(out, eq::eq_table(p, b.as_slice()).map(Element))
}

// Answers a query on a point or a table, or says that it is none.
fn tables(alloc: Global, out: &mut Out, name: &[u8], nums: &[u64]) -> io::Result<bool> {
    let v = line::list(nums, 0);
    let p = line::list(nums, 1);
    match name {
        b"eq" => table(alloc, out, v, words::get(p, 0))?,
        b"fused" => table(alloc, out, v, ONE)?,
        b"eqat" => eqat(alloc, out, v, p)?,
        b"evalmle" => evalmle(alloc, out, v, p)?,
        _ => return Ok(false),
    }
    Ok(true)
}

// bind VAR T R, fold VAR T R: the bound table; bindroom VAR T R: the outcome with all its words.
fn bind(
    alloc: Global,
    out: &mut Out,
    name: &[u8],
    var: usize,
    v: &[u64],
    r: Gf128,
) -> io::Result<()> {
    let mut table = Vec::from_slice(alloc, v)?;
    let bound = multilinear::bind_var(table.as_mut_slice(), var, r);
    let table = table.as_slice();
    if name == b"bindroom".as_slice() {
        return show::written(out, bound, table);
    }
    let half = table.get(..table.len() / 2).unwrap_or(&[]);
    show::answer(out, bound.map(|_| Words(half)))
}

// put I V E, clear 0 V, copy 0 V S: the words after that.
fn change(
    alloc: Global,
    out: &mut Out,
    name: &[u8],
    i: usize,
    v: &[u64],
    p: &[u64],
) -> io::Result<()> {
    let mut table = Vec::from_slice(alloc, v)?;
    let lent = table.as_mut_slice();
    match name {
        b"put" => words::put(lent, i, words::get(p, 0)),
        b"clear" => words::clear(lent),
        _ => words::copy(p, lent),
    }
    show::listed(out, table.as_slice())
}

// Answers a query that begins with a number, or says that it is none.
fn numbered(alloc: Global, out: &mut Out, name: &[u8], nums: &[u64]) -> io::Result<bool> {
    let n = line::size(nums, 0);
    let v = line::list_from(nums, 1, 0);
    let p = line::list_from(nums, 1, 1);
    let e = words::get(p, 0);
    match name {
        b"eqroom" => eqroom(alloc, out, n, v, e)?,
        b"mleroom" => mleroom(alloc, out, n, v, p)?,
        b"bind" | b"fold" | b"bindroom" => bind(alloc, out, name, n, v, e)?,
        b"put" | b"clear" | b"copy" => change(alloc, out, name, n, v, p)?,
        b"get" => {
            let e = Element(words::get(v, n));
            writeln!(out, "= {e}")?;
        }
        b"log2" => {
            let log = sizes::log2(n);
            writeln!(out, "= {log}")?;
        }
        b"ispower" => {
            let is = sizes::is_power_of_two(n);
            writeln!(out, "= {is}")?;
        }
        _ => return Ok(false),
    }
    Ok(true)
}

// Answers a query on the field, or says that it is none.
pub(crate) fn answer(alloc: Global, out: &mut Out, name: &[u8], nums: &[u64]) -> io::Result<bool> {
    if let Some(e) = element(name, nums) {
        let e = Element(e);
        writeln!(out, "= {e}")?;
        return Ok(true);
    }
    if name == b"isbit".as_slice() {
        let is = gf128::is_bit(words::get(line::list(nums, 0), 0));
        writeln!(out, "= {is}")?;
        return Ok(true);
    }
    Ok(tables(alloc, out, name, nums)? || numbered(alloc, out, name, nums)?)
}
