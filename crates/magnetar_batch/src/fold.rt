// Folds at a point over the logins.
ghost use Rattle.std.specs.Prelude.{◌≡◌, ◌+◌, ◌*◌, ◌/◌, ◌%◌, ◌<◌, ◌≤◌, ◌++◌, length, take, drop, replicate, IfOk};
ghost use Rattle.magnetar_field.specs.Gf128.{value, ◌⊗◌};
ghost use Rattle.magnetar_field.specs.Number.{number_of};
ghost use Rattle.magnetar_field.specs.Words.{elements, words};
ghost use Rattle.magnetar_multilinear.specs.Multilinear.{mle};
ghost use Rattle.magnetar_multilinear.specs.Entries.{answer, answered, mle_refusal, mle_scratch};
ghost use Rattle.magnetar_field.specs.Tabulate.{tabulate};
ghost use Rattle.magnetar_multilinear.specs.EqTable.{eq_table};
ghost use Rattle.magnetar_layout.specs.Tests.{Sized, first_refusal, size_tests};
ghost use Rattle.magnetar_matrix.specs.Packed.{login_words, public_words};
ghost use Rattle.magnetar_matrix.specs.Table.{raised, Point};
ghost use Rattle.magnetar_batch.specs.Fold.{select_at, word_select, row_select, fold_sum, half_times, half_sum};
ghost use Rattle.magnetar_batch.specs.Entries.{fold_refusal, fold_out, fold_scratch, fold_in_refusal, fold_in_out, public_in_refusal, public_in_out};

use magnetar_field::gf128::{Gf128, ONE, ZERO};
use magnetar_field::refusal::{Refusal, require};
use magnetar_field::{gf128, sizes, words};
use magnetar_layout::limits::{MOST_LOGINS, MOST_WITNESS};
use magnetar_layout::tests;
use magnetar_matrix::{columns, step};
use magnetar_multilinear::eq::EqBits;
use magnetar_multilinear::multilinear;
use magnetar_r1cs::r1cs;

// The fold of a vector with an element for each login. 11: an odd number of words or over 20 elements in the point, or the vector is
// not of its table's length; 15: too little room.
pub fn fold_instances(vector: &[u64], point: &[u64], scratch: &mut [u64]) -> Result<Gf128, Refusal>
    ensures value { answer result ≡ answered (mle_refusal vector.now point.now scratch.old) (mle (elements vector.now) (elements point.now)) }
    ensures cleared { scratch.new ≡ mle_scratch vector.now point.now scratch.old }
{
    multilinear::eval_mle(vector, point, scratch)
}

// The word without its bits from n on.
fn kept(word: u64, n: usize) -> u64
    ensures { result ≡ word_select word n }
{
    if n < 64 { word % (1 << n) } else { word }
}

// Adds e to out at base + i, for each set bit i of the word, the lowest first.
fn add_word(word: u64, base: usize, e: Gf128, out: &mut [u64])
    requires { base ≤ 65536 }
    ensures { elements out.new ≡ raised (select_at word base (value e)) (elements out.old) }
{
    // Only the set bits are visited, so this is no count of an index.
    let mut left = word;
    while left != 0 {
        let bit = left.trailing_zeros() as usize;
        step::add_at(out, base + bit, e);
        left &= left - 1;
    }
}

// Adds e to out at each column below w whose bit is set in the login's words.
fn add_login(login: &[u64], w: usize, e: Gf128, out: &mut [u64])
    requires { w ≤ 32768 }
    ensures { elements out.new ≡ raised (row_select login.now w (value e)) (elements out.old) }
{
    for (k, word) in login.iter().enumerate() {
        let base = 64 * k;
        if base >= w {
            return;
        }
        add_word(kept(*word, w - base), base, e, out);
    }
}

// 1: no such logins or witness columns.
#[tactic(auto, using(crate::proofs::Chains::passed), unfolding(magnetar_layout::specs::Tests::or_refuse))]
fn sizes_fit(q: usize, w: usize) -> Result<(), Refusal>
    ensures answer { number_of result ≡ first_refusal 0 (size_tests (2 * w) q) }
    ensures fit { IfOk result (λ _. (1 ≤ w) × (w ≤ 32768) × Sized 1 4096 q) }
{
    require(tests::is_size(1, MOST_WITNESS, w), Refusal::Size)?;
    require(tests::is_size(1, MOST_LOGINS, q), Refusal::Size)
}

// Adds each login's element, login u's being that at index u of the factors, at its set columns.
fn add_logins(packed: &[u64], q: usize, w: usize, factors: &[u64], out: &mut [u64])
    requires { (w ≤ 32768) × (q ≤ 4096) × (length packed.now ≡ q * login_words w) }
    ensures { elements out.new ≡ raised (fold_sum w packed.now (elements factors.now) q) (elements out.old) }
{
    let k = r1cs::login_words(w);
    for u in 0..q {
        let a = u * k;
        add_login(&packed[a..a + k], w, words::get(factors, u), out);
    }
}

// The folded vector of w columns; s is room for the eq table of q elements, and is left 0.
fn fold_in(packed: &[u64], q: usize, w: usize, point: &[u64], out: &mut [u64], s: &mut [u64])
    requires w_bound { (w ≤ 32768) × (q ≤ 4096) × (length packed.now ≡ q * login_words w) }
    requires out_len { length out.old % 2 ≡ 0 }
    requires point { Point point.now s.old }
    ensures out_after { out.new ≡ words (tabulate (fold_sum w packed.now (eq_table (elements point.now)) q) (length out.old / 2)) }
    ensures s_after { s.new ≡ replicate (length s.old) 0 }
{
    let _done = EqBits::build(point, ONE, s);
    words::clear(out);
    add_logins(packed, q, w, s, out);
    words::clear(s);
}

// The batch folded at the point: column y is the sum over the logins of eq times the bit. 1: no such columns or logins; 2: not
// as many packed words; 11: the point is not of the logins' length; 15: too little room.
#[tactic(auto, using(crate::proofs::Chains::passed), unfolding(crate::specs::Entries::fold_refusal, magnetar_layout::specs::Tests::or_refuse))]
pub fn fold_packed_w(
    packed: &[u64],
    q: usize,
    w: usize,
    point: &[u64],
    out: &mut [u64],
    scratch: &mut [u64],
) -> Result<(), Refusal>
    ensures answer { number_of result ≡ fold_refusal packed.now q w point.now out.old scratch.old }
    ensures folded { out.new ≡ fold_out packed.now q w point.now out.old scratch.old }
    ensures cleared { scratch.new ≡ fold_scratch packed.now q w point.now out.old scratch.old }
{
    sizes_fit(q, w)?;
    require(
        packed.len() == q * r1cs::login_words(w),
        Refusal::PackedWords,
    )?;
    require(point.len() == 2 * sizes::log2(q), Refusal::Length)?;
    require(out.len() >= 2 * w, Refusal::Room)?;
    require(scratch.len() >= 2 * q, Refusal::Room)?;
    fold_in(
        packed,
        q,
        w,
        point,
        &mut out[..2 * w],
        &mut scratch[..2 * q],
    );
    Ok(())
}

// The folded vector of w columns, and q elements 0 behind it.
fn fold_one(packed: &[u64], q: usize, w: usize, point: &[u64], s: &mut [u64])
    requires w_bound { (w ≤ 32768) × (q ≤ 4096) × (length packed.now ≡ q * login_words w) }
    requires s_len { length s.old ≡ 2 * w + 2 * q }
    requires point { Point point.now (drop (2 * w) s.old) }
    ensures { s.new ≡ words (tabulate (fold_sum w packed.now (eq_table (elements point.now)) q) w) ++ replicate (2 * q) 0 }
{
    let (out, room) = s.split_at_mut(2 * w);
    fold_in(packed, q, w, point, out, room);
}

// The same fold within one slice: the folded vector in its first 2w words, and the next 2q words 0. 1: w or q; 2: the
// packed words; 11: the point; 15: s is shorter.
#[tactic(auto, using(crate::proofs::Chains::passed), unfolding(crate::specs::Entries::fold_in_refusal, magnetar_layout::specs::Tests::or_refuse))]
pub fn fold_packed_in(
    packed: &[u64],
    q: usize,
    w: usize,
    point: &[u64],
    s: &mut [u64],
) -> Result<(), Refusal>
    ensures answer { number_of result ≡ fold_in_refusal packed.now q w point.now s.old }
    ensures folded { s.new ≡ fold_in_out packed.now q w point.now s.old }
{
    sizes_fit(q, w)?;
    require(
        packed.len() == q * r1cs::login_words(w),
        Refusal::PackedWords,
    )?;
    require(point.len() == 2 * sizes::log2(q), Refusal::Length)?;
    let end = 2 * w + 2 * q;
    require(s.len() >= end, Refusal::Room)?;
    fold_one(packed, q, w, point, &mut s[..end]);
    Ok(())
}

// v times e, by a mask where one of them is 0 or 1.
fn times(v: Gf128, e: Gf128) -> Gf128
    ensures { value result ≡ value e ⊗ value v }
{
    if gf128::is_bit(v) {
        gf128::mul_bit(e, v)
    } else {
        step::scale(e, v)
    }
}

// Adds e times the public half (1, x) of the login whose public words these are to the elements in front.
fn add_half(x: &[u64], e: Gf128, s: &mut [u64])
    ensures { elements s.new ≡ raised (half_times (elements x.now) (value e)) (elements s.old) }
{
    for j in 0..x.len() / 2 {
        step::add_at(s, j + 1, times(words::get(x, j), e));
    }
    step::add_at(s, 0, e);
}

// e times the public half of the login with the first l words of x is added, and 0 is left; but where more than one login is left and the
// next one has the same columns, e is held back for it.
fn add_or_hold(x: &[u64], l: usize, left: usize, e: Gf128, s: &mut [u64]) -> Gf128
    requires { l ≤ length x.now }
    ensures held { raised (half_times (elements (take l (drop l x.now))) (value result)) (elements s.new)
        ≡ raised (half_times (elements (take l x.now)) (value e)) (elements s.old) }
    ensures last { left ≤ 1 → value result ≡ 0 }
{
    if left > 1 && columns::repeats(x, l) {
        return e;
    }
    add_half(&x[..l], e, s);
    ZERO
}

// Adds each login's public half, times the login's element, login u's being that at index u of the factors. Logins that follow each other
// and have the same columns are added at once.
fn add_halves(x: &[u64], q: usize, w: usize, factors: &[u64], out: &mut [u64])
    requires { (1 ≤ w) × (w ≤ 32768) × (q ≤ 4096) × (length x.now ≡ q * public_words w) }
    ensures { elements out.new ≡ raised (half_sum w x.now (elements factors.now) q) (elements out.old) }
{
    let l = 2 * w - 2;
    let mut e = ZERO;
    for u in 0..q {
        let f = e + words::get(factors, u);
        e = add_or_hold(&x[u * l..], l, q - u, f, out);
    }
}

// The folded public half of w columns; s is room for the eq table of q elements, and is left 0.
fn fold_halves(x: &[u64], q: usize, w: usize, point: &[u64], out: &mut [u64], s: &mut [u64])
    requires w_bound { (1 ≤ w) × (w ≤ 32768) × (q ≤ 4096) × (length x.now ≡ q * public_words w) }
    requires out_len { length out.old % 2 ≡ 0 }
    requires point { Point point.now s.old }
    ensures out_after { out.new ≡ words (tabulate (half_sum w x.now (eq_table (elements point.now)) q) (length out.old / 2)) }
    ensures s_after { s.new ≡ replicate (length s.old) 0 }
{
    let _done = EqBits::build(point, ONE, s);
    words::clear(out);
    add_halves(x, q, w, s, out);
    words::clear(s);
}

// The folded public half of w columns, and q elements 0 behind it.
fn fold_halves_one(x: &[u64], q: usize, w: usize, point: &[u64], s: &mut [u64])
    requires w_bound { (1 ≤ w) × (w ≤ 32768) × (q ≤ 4096) × (length x.now ≡ q * public_words w) }
    requires s_len { length s.old ≡ 2 * w + 2 * q }
    requires point { Point point.now (drop (2 * w) s.old) }
    ensures { s.new ≡ words (tabulate (half_sum w x.now (eq_table (elements point.now)) q) w) ++ replicate (2 * q) 0 }
{
    let (out, room) = s.split_at_mut(2 * w);
    fold_halves(x, q, w, point, out, room);
}

// The public halves of all logins folded at the point, within one slice: the folded half in its first 2w words, and the next 2q words 0.
// 1: w or q; 3: the public words; 11: the point; 15: s is shorter.
#[tactic(auto, using(crate::proofs::Chains::passed), unfolding(crate::specs::Entries::public_in_refusal, magnetar_layout::specs::Tests::or_refuse))]
pub fn fold_public_in(
    x: &[u64],
    q: usize,
    w: usize,
    point: &[u64],
    s: &mut [u64],
) -> Result<(), Refusal>
    ensures answer { number_of result ≡ public_in_refusal x.now q w point.now s.old }
    ensures folded { s.new ≡ public_in_out x.now q w point.now s.old }
{
    sizes_fit(q, w)?;
    require(x.len() == q * (2 * w - 2), Refusal::PublicWords)?;
    require(point.len() == 2 * sizes::log2(q), Refusal::Length)?;
    let end = 2 * w + 2 * q;
    require(s.len() >= end, Refusal::Room)?;
    fold_halves_one(x, q, w, point, &mut s[..end]);
    Ok(())
}
