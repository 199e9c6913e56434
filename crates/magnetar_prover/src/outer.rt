// The outer sum-check. A block has the four tables e, a, b, c of a system one behind the other, w words each; while the tables
// shrink they stay at the front of their w words.
ghost use Rattle.std.specs.Prelude.{◌≡◌, [], ◌∷◌, ◌++◌, ◌+◌, ◌*◌, ◌/◌, ◌^◌, ◌<◌, ◌≤◌, length, take, drop};
ghost use Rattle.magnetar_field.specs.Gf128.{value, ◌⊕◌, ◌⊗◌};
ghost use Rattle.magnetar_field.specs.Words.{elements, words};
ghost use Rattle.magnetar_hash.specs.Transcript.{element};
ghost use Rattle.magnetar_schedule.specs.Stepwise.{row_step, row_steps};
ghost use Rattle.magnetar_sumcheck_verifier.specs.Outer.{outer_message};
ghost use Rattle.magnetar_prover.specs.Labels.{row_label};
ghost use Rattle.magnetar_prover.specs.Entries.{table_at};
ghost use Rattle.magnetar_prover.specs.InScratch.{Table, Rows, row_in};
ghost use Rattle.magnetar_prover.specs.Shared.{message_in, Dropped, Folded};

use crate::events::{self, System};
use magnetar_field::gf128::Gf128;
use magnetar_field::words;
use magnetar_hash::transcript::{self, Transcript};
use magnetar_multilinear::multilinear;
use magnetar_sumcheck_prover::{engine, public};

// What is left of a block's tables: they stand w words apart and have n words each; k is the product over the variables that are bound.
#[derive(Clone, Copy)]
pub(crate) struct Block {
    pub w: usize,
    pub n: usize,
    pub k: Gf128,
}

// A round that binds variable v, whose tau is t, of tables of n words, w words apart, with the product k over the variables before.
#[derive(Clone, Copy)]
pub(crate) struct Turn {
    pub w: usize,
    pub n: usize,
    pub k: Gf128,
    pub v: usize,
    pub t: Gf128,
}

impl Turn {
    // The message, e being without the variable already.
    fn put_message(self, out: &mut [u64], s: &[u64])
        requires s_len { (length s.now ≡ 4 * self.w) × (self.w ≤ 2097152) × (self.n ≤ self.w) × (length out.old ≡ 8) }
        requires table { Table self.v self.n }
        ensures { out.new ≡ words (outer_message self.v (value self.k) (value self.t) (table_at 0 (self.n / 2) s.now) (table_at self.w self.n s.now)
            (table_at (2 * self.w) self.n s.now) (table_at (3 * self.w) self.n s.now)) }
    {
        let w = self.w;
        let n = self.n;
        let b = 2 * w;
        let c = 3 * w;
        let _done = engine::outer_message(
            out,
            &s[..n / 2],
            &s[w..w + n],
            &s[b..b + n],
            &s[c..c + n],
            self.v,
            self.k,
            self.t,
        );
    }

    // Drops the variable from e, and makes the message.
    pub(crate) fn message(self, out: &mut [u64], s: &mut [u64])
        requires s_len { (length s.old ≡ 4 * self.w) × (self.w ≤ 2097152) × (self.n ≤ self.w) × (length out.old ≡ 8) }
        requires table { Table self.v self.n }
        ensures written { out.new ≡ words (message_in self.v (value self.k) (value self.t) self.w self.n s.old) }
        ensures dropped { Dropped self.v self.w self.n s.old s.new }
    {
        let _done = public::drop_var(&mut s[..self.n], self.v);
        self.put_message(out, s);
    }

    // Binds the variable of a, b and c.
    pub(crate) fn fold(self, s: &mut [u64], r: Gf128)
        requires s_len { (length s.old ≡ 4 * self.w) × (self.w ≤ 2097152) × (self.n ≤ self.w) }
        requires table { Table self.v self.n }
        ensures { Folded self.v (value r) self.w self.n s.old s.new }
    {
        let w = self.w;
        let n = self.n;
        let b = 2 * w;
        let c = 3 * w;
        let _one = multilinear::bind_var(&mut s[w..w + n], self.v, r);
        let _two = multilinear::bind_var(&mut s[b..b + n], self.v, r);
        let _all = multilinear::bind_var(&mut s[c..c + n], self.v, r);
    }

    // The challenge is written down at element d, the tables are folded by it, and it is multiplied into the product.
    fn end(self, d: usize, draws: &mut [u64], s: &mut [u64], t: Transcript) -> Gf128
        requires s_len { (length s.old ≡ 4 * self.w) × (self.w ≤ 2097152) × (self.n ≤ self.w) × (2 * d + 2 ≤ length draws.old) }
        requires table { Table self.v self.n }
        ensures k { value result ≡ value self.k ⊗ (1 ⊕ value self.t ⊕ value (element t)) }
        ensures drawn { take (d + 1) (elements draws.new) ≡ take d (elements draws.old) ++ (value (element t) ∷ []) }
        ensures folded { Folded self.v (value (element t)) self.w self.n s.old s.new }
    {
        let r = transcript::element(t);
        words::put(draws, d, r);
        self.fold(s, r);
        public::eq_next(self.k, self.t, r)
    }
}

// What a round of one system leaves: the transcript after its draw, and the product over the bound variables.
#[derive(Clone, Copy)]
pub(crate) struct Round {
    pub transcript: Transcript,
    pub k: Gf128,
}

// Row round i of a system: its tau is element o of the draws, its message goes behind p elements, its challenge behind d.
fn row(
    of: System,
    i: usize,
    o: usize,
    p: usize,
    d: usize,
    at: Block,
    proof: &mut [u64],
    draws: &mut [u64],
    s: &mut [u64],
    t: Transcript,
) -> Round
    requires s_len { (length s.old ≡ 4 * at.w) × (at.w ≤ 2097152) × (at.n ≤ at.w) × (p < 1024) × (2 * p + 8 ≤ length proof.old)
        × (2 * d + 2 ≤ length draws.old) }
    requires rows { Rows at.n o d }
    ensures { row_in (p + 4) (d + 1) (o + 1) (value result.k) at.w (at.n / 2) result.transcript proof.new draws.new s.new
        ≡ row_step (row_label of) i (row_in p d o (value at.k) at.w at.n t proof.old draws.old s.old) }
{
    let turn = Turn {
        w: at.w,
        n: at.n,
        k: at.k,
        v: 0,
        t: words::get(draws, o),
    };
    let a = 2 * p;
    let e = a + 8;
    turn.message(&mut proof[a..e], s);
    let transcript = events::row_round(t, of, i, &proof[a..e]);
    let k = turn.end(d, draws, s, transcript);
    Round { transcript, k }
}

// All x row rounds of a system, from tables of 2 2^x words on.
pub(crate) fn rows(
    of: System,
    x: usize,
    o: usize,
    p: usize,
    d: usize,
    at: Block,
    proof: &mut [u64],
    draws: &mut [u64],
    s: &mut [u64],
    t: Transcript,
) -> Round
    requires s_len { (length s.old ≡ 4 * at.w) × (at.w ≤ 2097152) × (at.n ≤ at.w) × (x < 62) × (p < 512) × (d < 512) × (o + x ≤ d)
        × (2 * (p + 4 * x) ≤ length proof.old) × (2 * (d + x) ≤ length draws.old) }
    requires n_value { at.n ≡ 2 * 2 ^ x }
    ensures { row_in (p + 4 * x) (d + x) (o + x) (value result.k) at.w 2 result.transcript proof.new draws.new s.new
        ≡ row_steps (row_label of) 0 x (row_in p d o (value at.k) at.w at.n t proof.old draws.old s.old) }
{
    let w = at.w;
    let mut n = at.n;
    let mut k = at.k;
    let mut u = t;
    for i in 0..x {
        let here = Block { w, n, k };
        let r = row(of, i, o + i, p + 4 * i, d + i, here, proof, draws, s, u);
        u = r.transcript;
        k = r.k;
        n /= 2;
    }
    Round { transcript: u, k }
}
