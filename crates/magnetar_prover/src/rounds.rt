// The outer rounds from first to last: taus, eq tables, shared rounds, row rounds, terminals and alphas. The logins and the rows of bin
// and fld have the logarithms l, b and f; the block of bin, four tables of wb words, is at the front of s, that of fld, four tables of
// wf words, behind it.
ghost use Rattle.std.specs.Prelude.{◌≡◌, ◌+◌, ◌*◌, ◌^◌, ◌<◌, length, take, drop, replicate};
ghost use Rattle.magnetar_field.specs.Gf128.{value};
ghost use Rattle.magnetar_hash.specs.Transcript.{answer_of};
ghost use Rattle.magnetar_schedule.specs.Stepwise.{shared_steps};
ghost use Rattle.magnetar_prover.specs.Entries.{tables_in, answer_for, proof_for, draws_for, scratch_for, outer_rounds_refusal, outer_run_steps, block_words};
ghost use Rattle.magnetar_prover.specs.InScratch.{steps_in};
ghost use Rattle.magnetar_prover.specs.Shared.{shared_in};
ghost use Rattle.magnetar_prover.specs.Whole.{taus_of, begin_of, bin_of, fld_of, end_of, outer_whole, left_in, Blocks};

use crate::events::System;
use crate::outer::Block;
use crate::shared::{Both, Places};
use crate::{ends, guard, outer, shared};
use magnetar_field::gf128::{Gf128, ONE};
use magnetar_field::refusal::Refusal;
use magnetar_field::{sizes, words};
use magnetar_hash::transcript::Transcript;

// The logarithms of the logins and of the rows of bin and of fld, and the words of a table of each block.
#[derive(Clone, Copy)]
struct Sizes {
    l: usize,
    b: usize,
    f: usize,
    wb: usize,
    wf: usize,
}

// The taus, their eq tables and the shared rounds.
fn first(z: Sizes, proof: &mut [u64], draws: &mut [u64], s: &mut [u64], t: Transcript) -> Both
    requires { Blocks z.l z.b z.f z.wb z.wf (length proof.old) (length draws.old) (length s.old) }
    ensures { shared_in (8 * z.l) (z.l + z.b + (z.l + z.f) + z.l) 0 z.b z.f 0 (z.l + z.b) (value result.kb) (value result.kf) z.wb z.wf (2 * 2 ^ z.b)
        (2 * 2 ^ z.f) result.transcript proof.new draws.new s.new
        ≡ shared_steps 0 z.l (begin_of z.l z.b (tables_in z.wb z.wf (take (4 * z.wb) s.old) (drop (4 * z.wb) s.old)) (taus_of z.l z.b z.f t)) }
{
    let m = z.l + z.b;
    let n = z.l + z.f;
    let u = ends::taus(m, n, draws, t);
    ends::begin_tables(m, n, z.wb, z.wf, draws, s);
    let at = Places {
        o: 0,
        q: m,
        p: 0,
        d: m + n,
    };
    let bin = Block {
        w: z.wb,
        n: z.wb,
        k: ONE,
    };
    let fld = Block {
        w: z.wf,
        n: z.wf,
        k: ONE,
    };
    shared::shared_rounds(z.l, z.b, z.f, at, bin, fld, proof, draws, s, u)
}

// The words of a table of 2^n elements.
fn power_words(n: usize) -> usize
    requires { n < 63 }
    ensures { result ≡ 2 * 2 ^ n }
{
    2 << n
}

// The row rounds of bin, then those of fld, with the products kb and kf over the shared variables.
fn rows(
    z: Sizes,
    kb: Gf128,
    kf: Gf128,
    proof: &mut [u64],
    draws: &mut [u64],
    s: &mut [u64],
    t: Transcript,
) -> Both
    requires { Blocks z.l z.b z.f z.wb z.wf (length proof.old) (length draws.old) (length s.old) }
    ensures { left_in (8 * z.l + 4 * z.b + 4 * z.f) (z.l + z.b + (z.l + z.f) + z.l + z.b + z.f) (value result.kb)
        (value result.kf) z.wb z.wf result.transcript proof.new draws.new s.new ≡ fld_of z.f
        (bin_of z.b (shared_in (8 * z.l) (z.l + z.b + (z.l + z.f) + z.l) 0 z.b z.f 0 (z.l + z.b) (value kb) (value kf) z.wb z.wf (2 * 2 ^ z.b) (2 * 2
        ^ z.f) t proof.old draws.old s.old)) }
{
    let m = z.l + z.b;
    let p = 8 * z.l;
    let d = m + (z.l + z.f) + z.l;
    let c = 4 * z.wb;
    let e = c + 4 * z.wf;
    let bin = Block {
        w: z.wb,
        n: power_words(z.b),
        k: kb,
    };
    let fld = Block {
        w: z.wf,
        n: power_words(z.f),
        k: kf,
    };
    let u = outer::rows(System::Bin, z.b, 0, p, d, bin, proof, draws, &mut s[..c], t);
    let v = outer::rows(
        System::Fld,
        z.f,
        m,
        p + 4 * z.b,
        d + z.b,
        fld,
        proof,
        draws,
        &mut s[c..e],
        u.transcript,
    );
    Both {
        transcript: v.transcript,
        kb: u.k,
        kf: v.k,
    }
}

// The terminals are sent, and the alphas drawn.
fn end(z: Sizes, proof: &mut [u64], draws: &mut [u64], s: &[u64], t: Transcript) -> Transcript
    requires { Blocks z.l z.b z.f z.wb z.wf (length proof.old) (length draws.old) (length s.now) }
    ensures { steps_in (8 * z.l + 4 * z.b + 4 * z.f + 6) (z.l + z.b + (z.l + z.f) + z.l + z.b + z.f + 6) result proof.new draws.new
        ≡ end_of (left_in (8 * z.l + 4 * z.b + 4 * z.f) (z.l + z.b + (z.l + z.f) + z.l + z.b + z.f) 1 1 z.wb z.wf t proof.old draws.old s.now) }
{
    let p = 8 * z.l + 4 * z.b + 4 * z.f;
    let d = z.l + z.b + (z.l + z.f) + z.l + z.b + z.f;
    let c = 4 * z.wb;
    let u = ends::terminals(p, z.wb, z.wf, proof, &s[..c], &s[c..], t);
    ends::draw_alphas(d, draws, u)
}

// All of it; the blocks are cleared.
fn run(z: Sizes, proof: &mut [u64], draws: &mut [u64], s: &mut [u64], t: Transcript) -> Transcript
    requires { Blocks z.l z.b z.f z.wb z.wf (length proof.old) (length draws.old) (length s.old) }
    ensures run { steps_in (8 * z.l + 4 * z.b + 4 * z.f + 6) (z.l + z.b + (z.l + z.f) + z.l + z.b + z.f + 6) result proof.new draws.new
        ≡ outer_whole z.l z.b z.f (tables_in z.wb z.wf (take (4 * z.wb) s.old) (drop (4 * z.wb) s.old)) t }
    ensures cleared { s.new ≡ replicate (length s.old) 0 }
{
    let u = first(z, proof, draws, s, t);
    let v = rows(z, u.kb, u.kf, proof, draws, s, u.transcript);
    let r = end(z, proof, draws, s, v.transcript);
    words::clear(s);
    r
}

// The outer rounds of q logins with rb rows of bin and rf rows of fld. The products of bin are in the second to fourth table of 2 q rb
// words of s, those of fld in the second to fourth table of 2 q rf words behind its first 8 q rb. What is sent goes to the front of
// proof, what is drawn to the front of draws; the 8 q (rb + rf) words of s are cleared.
// The sizes are tested here, and so stay numbers.
// 1: no such logins; 4: no such rows; 14: a counter of 2^32 or more; 15: too little room.
#[tactic(auto, using(crate::proofs::Handed::handed_back, crate::proofs::OuterGuard::fitting))]
pub fn outer_rounds(
    q: usize,
    rb: usize,
    rf: usize,
    proof: &mut [u64],
    draws: &mut [u64],
    s: &mut [u64],
    t: Transcript,
) -> Result<Transcript, Refusal>
    ensures answer { answer_of t result ≡ answer_for (outer_rounds_refusal q rb rf proof.old draws.old s.old t) (outer_run_steps q rb rf s.old t) t }
    ensures proof { proof.new ≡ proof_for (outer_rounds_refusal q rb rf proof.old draws.old s.old t) (outer_run_steps q rb rf s.old t) proof.old }
    ensures draws { draws.new ≡ draws_for (outer_rounds_refusal q rb rf proof.old draws.old s.old t) (outer_run_steps q rb rf s.old t) draws.old }
    ensures scratch { s.new ≡ scratch_for (outer_rounds_refusal q rb rf proof.old draws.old s.old t) (block_words q rb rf) s.old }
{
    guard::of_outer(q, rb, rf, proof, draws, s, t)?;
    let l = sizes::log2(q);
    let b = sizes::log2(rb);
    let f = sizes::log2(rf);
    let a = guard::sent_words(l, b, f);
    let d = guard::drawn_words(l, b, f);
    let e = guard::block_words(q, rb, rf);
    let wb = guard::table_words(q, rb);
    let wf = guard::table_words(q, rf);
    let z = Sizes { l, b, f, wb, wf };
    Ok(run(z, &mut proof[..a], &mut draws[..d], &mut s[..e], t))
}
