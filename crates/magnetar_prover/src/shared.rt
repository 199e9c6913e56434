// The shared rounds of the outer sum-check. The block of bin, 4wb words, is at the front of the scratch, the block of fld behind it.
ghost use Rattle.std.specs.Prelude.{◌≡◌, [], ◌∷◌, ◌++◌, ◌+◌, ◌*◌, ◌-◌, ◌/◌, ◌^◌, ◌<◌, ◌≤◌, length, take, drop};
ghost use Rattle.magnetar_field.specs.Gf128.{value, ◌⊕◌, ◌⊗◌};
ghost use Rattle.magnetar_field.specs.Words.{elements, words};
ghost use Rattle.magnetar_hash.specs.Transcript.{element};
ghost use Rattle.magnetar_schedule.specs.Stepwise.{shared_step, shared_steps};
ghost use Rattle.magnetar_prover.specs.InScratch.{Table};
ghost use Rattle.magnetar_prover.specs.Shared.{message_in, Dropped, Folded, shared_in, Shared};

use crate::events;
use crate::outer::{Block, Turn};
use magnetar_field::gf128::Gf128;
use magnetar_field::words;
use magnetar_hash::transcript::{self, Transcript};
use magnetar_sumcheck_prover::public;

// The messages of both systems, behind p elements.
fn send_messages(p: usize, bin: Turn, fld: Turn, proof: &mut [u64], s: &mut [u64])
    requires s_len { (length s.old ≡ 4 * bin.w + 4 * fld.w) × (bin.w ≤ 2097152) × (fld.w ≤ 2097152) × (bin.n ≤ bin.w) × (fld.n ≤ fld.w) × (p < 1024)
        × (2 * p + 16 ≤ length proof.old) }
    requires table { Table bin.v bin.n × Table fld.v fld.n }
    ensures sent { take (p + 8) (elements proof.new) ≡ take p (elements proof.old) ++
        (message_in bin.v (value bin.k) (value bin.t) bin.w bin.n (take (4 * bin.w) s.old)
        ++ message_in fld.v (value fld.k) (value fld.t) fld.w fld.n (drop (4 * bin.w) s.old)) }
    ensures there { take 16 (drop (2 * p) proof.new) ≡ words (message_in bin.v (value bin.k) (value bin.t) bin.w bin.n (take (4 * bin.w) s.old)
        ++ message_in fld.v (value fld.k) (value fld.t) fld.w fld.n (drop (4 * bin.w) s.old)) }
    ensures bin { Dropped bin.v bin.w bin.n (take (4 * bin.w) s.old) (take (4 * bin.w) s.new) }
    ensures fld { Dropped fld.v fld.w fld.n (drop (4 * bin.w) s.old) (drop (4 * bin.w) s.new) }
{
    let a = 2 * p;
    let m = a + 8;
    let e = m + 8;
    let q = 4 * bin.w;
    let z = q + 4 * fld.w;
    bin.message(&mut proof[a..m], &mut s[..q]);
    fld.message(&mut proof[m..e], &mut s[q..z]);
}

// Binds the variables of both systems.
fn fold_both(bin: Turn, fld: Turn, r: Gf128, s: &mut [u64])
    requires s_len { (length s.old ≡ 4 * bin.w + 4 * fld.w) × (bin.w ≤ 2097152) × (fld.w ≤ 2097152) × (bin.n ≤ bin.w) × (fld.n ≤ fld.w) }
    requires table { Table bin.v bin.n × Table fld.v fld.n }
    ensures bin { Folded bin.v (value r) bin.w bin.n (take (4 * bin.w) s.old) (take (4 * bin.w) s.new) }
    ensures fld { Folded fld.v (value r) fld.w fld.n (drop (4 * bin.w) s.old) (drop (4 * bin.w) s.new) }
{
    let q = 4 * bin.w;
    let z = q + 4 * fld.w;
    bin.fold(&mut s[..q], r);
    fld.fold(&mut s[q..z], r);
}

// What a shared round leaves: the transcript after its draw, and the product over the bound variables of each system.
#[derive(Clone, Copy)]
pub(crate) struct Both {
    pub transcript: Transcript,
    pub kb: Gf128,
    pub kf: Gf128,
}

// The challenge of a round is written down at element d, both systems are folded by it, and it is multiplied into their products.
fn end_both(d: usize, bin: Turn, fld: Turn, draws: &mut [u64], s: &mut [u64], t: Transcript) -> Both
    requires s_len { (length s.old ≡ 4 * bin.w + 4 * fld.w) × (bin.w ≤ 2097152) × (fld.w ≤ 2097152) × (bin.n ≤ bin.w) × (fld.n ≤ fld.w)
        × (2 * d + 2 ≤ length draws.old) }
    requires table { Table bin.v bin.n × Table fld.v fld.n }
    ensures transcript { result.transcript ≡ t }
    ensures kb { value result.kb ≡ value bin.k ⊗ (1 ⊕ value bin.t ⊕ value (element t)) }
    ensures kf { value result.kf ≡ value fld.k ⊗ (1 ⊕ value fld.t ⊕ value (element t)) }
    ensures drawn { take (d + 1) (elements draws.new) ≡ take d (elements draws.old) ++ (value (element t) ∷ []) }
    ensures bin { Folded bin.v (value (element t)) bin.w bin.n (take (4 * bin.w) s.old) (take (4 * bin.w) s.new) }
    ensures fld { Folded fld.v (value (element t)) fld.w fld.n (drop (4 * bin.w) s.old) (drop (4 * bin.w) s.new) }
{
    let r = transcript::element(t);
    words::put(draws, d, r);
    fold_both(bin, fld, r, s);
    Both {
        transcript: t,
        kb: public::eq_next(bin.k, bin.t, r),
        kf: public::eq_next(fld.k, fld.t, r),
    }
}

// Where a shared round stands: the tau of bin and of fld from elements o and q of the draws on, both messages behind p elements of the
// proof, the challenge behind d of the draws.
#[derive(Clone, Copy)]
pub(crate) struct Places {
    pub o: usize,
    pub q: usize,
    pub p: usize,
    pub d: usize,
}

// Shared round i, with h shared rounds left, this one among them, and b and f row rounds behind them. These two are less than a Rounds, and
// what is left of the shared rounds changes from round to round: a struct of the three would be made anew for each.
fn shared_round(
    i: usize,
    h: usize,
    b: usize,
    f: usize,
    at: Places,
    bin: Block,
    fld: Block,
    proof: &mut [u64],
    draws: &mut [u64],
    s: &mut [u64],
    t: Transcript,
) -> Both
    requires s_len { (length s.old ≡ 4 * bin.w + 4 * fld.w) × (bin.w ≤ 2097152) × (fld.w ≤ 2097152) × (bin.n ≤ bin.w) × (fld.n ≤ fld.w) × (at.p < 1024)
        × (2 * at.p + 16 ≤ length proof.old) × (2 * at.d + 2 ≤ length draws.old) }
    requires shared { Shared h b bin.n at.o at.d × Shared h f fld.n at.q at.d }
    ensures { shared_in (at.p + 8) (at.d + 1) (h - 1) b f at.o at.q (value result.kb) (value result.kf) bin.w fld.w (bin.n / 2)
        (fld.n / 2) result.transcript proof.new draws.new s.new
        ≡ shared_step i (shared_in at.p at.d h b f at.o at.q (value bin.k) (value fld.k) bin.w fld.w bin.n fld.n t proof.old draws.old s.old) }
{
    let vb = h + b - 1;
    let vf = h + f - 1;
    let one = Turn {
        w: bin.w,
        n: bin.n,
        k: bin.k,
        v: vb,
        t: words::get(draws, at.o + vb),
    };
    let two = Turn {
        w: fld.w,
        n: fld.n,
        k: fld.k,
        v: vf,
        t: words::get(draws, at.q + vf),
    };
    send_messages(at.p, one, two, proof, s);
    let a = 2 * at.p;
    let e = a + 16;
    let u = events::shared_round(t, i, &proof[a..e]);
    end_both(at.d, one, two, draws, s, u)
}

// All x shared rounds, from tables of 2 2^(x + b) and 2 2^(x + f) words on.
pub(crate) fn shared_rounds(
    x: usize,
    b: usize,
    f: usize,
    at: Places,
    bin: Block,
    fld: Block,
    proof: &mut [u64],
    draws: &mut [u64],
    s: &mut [u64],
    t: Transcript,
) -> Both
    requires s_len { (length s.old ≡ 4 * bin.w + 4 * fld.w) × (bin.w ≤ 2097152) × (fld.w ≤ 2097152) × (bin.n ≤ bin.w) × (fld.n ≤ fld.w) × (x + b < 62)
        × (x + f < 62) × (at.p < 512) × (at.d < 512) × (at.o + (x + b) ≤ at.d) × (at.q + (x + f) ≤ at.d) × (2 * (at.p + 8 * x) ≤ length proof.old)
        × (2 * (at.d + x) ≤ length draws.old) }
    requires n_value { (bin.n ≡ 2 * 2 ^ (x + b)) × (fld.n ≡ 2 * 2 ^ (x + f)) }
    ensures { shared_in (at.p + 8 * x) (at.d + x) 0 b f at.o at.q (value result.kb) (value result.kf) bin.w fld.w (2 * 2 ^ b)
        (2 * 2 ^ f) result.transcript proof.new draws.new s.new
        ≡ shared_steps 0 x (shared_in at.p at.d x b f at.o at.q (value bin.k) (value fld.k) bin.w fld.w bin.n fld.n t proof.old draws.old s.old) }
{
    let wb = bin.w;
    let wf = fld.w;
    let mut m = bin.n;
    let mut n = fld.n;
    let mut y = bin.k;
    let mut z = fld.k;
    let mut u = t;
    for i in 0..x {
        let here = Places {
            o: at.o,
            q: at.q,
            p: at.p + 8 * i,
            d: at.d + i,
        };
        let one = Block { w: wb, n: m, k: y };
        let two = Block { w: wf, n, k: z };
        let r = shared_round(i, x - i, b, f, here, one, two, proof, draws, s, u);
        u = r.transcript;
        y = r.kb;
        z = r.kf;
        m /= 2;
        n /= 2;
    }
    Both {
        transcript: u,
        kb: y,
        kf: z,
    }
}
