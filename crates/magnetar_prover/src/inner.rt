// The inner sum-check.
ghost use Rattle.std.specs.Prelude.{◌≡◌, [], ◌∷◌, ◌++◌, ◌+◌, ◌*◌, ◌-◌, ◌/◌, ◌^◌, ◌<◌, ◌≤◌, length, get_or, take, drop, replicate};
ghost use Rattle.magnetar_field.specs.Gf128.{value};
ghost use Rattle.magnetar_field.specs.Words.{elements, words};
ghost use Rattle.magnetar_multilinear.specs.Multilinear.{dot, bind_var};
ghost use Rattle.magnetar_field.specs.Tabulate.{tabulate};
ghost use Rattle.magnetar_hash.specs.Bytes.{ascii};
ghost use Rattle.magnetar_hash.specs.Transcript.{answer_of};
ghost use Rattle.magnetar_layout.specs.Layout.{offset};
ghost use Rattle.magnetar_layout.specs.Entries.{layout_refusal};
ghost use Rattle.magnetar_schedule.specs.Schedule.{numbered};
ghost use Rattle.magnetar_protocol.specs.Shape.{sizes_only};
ghost use Rattle.magnetar_sumcheck_verifier.specs.Inner.{inner_message};
ghost use Rattle.magnetar_schedule.specs.Stepwise.{inner_step, inner_steps};
ghost use Rattle.magnetar_prover.specs.Entries.{table_at, answer_for, proof_for, draws_for, scratch_for, inner_rounds_refusal, inner_run_steps};
ghost use Rattle.magnetar_prover.specs.InScratch.{steps_in, inner_in, Table, Local, Locals, segment_in, pasted, absorbed_one, sent_in, sent_each, inner_whole};

use crate::{events, guard};
use magnetar_field::gf128::{Gf128, ONE};
use magnetar_field::refusal::Refusal;
use magnetar_field::{sizes, words};
use magnetar_hash::transcript::{self, Transcript};
use magnetar_layout::layout;
use magnetar_multilinear::eq::EqBits;
use magnetar_multilinear::multilinear;
use magnetar_sumcheck_prover::engine;

// The message of a round, from the tables of n words at the front of s and at word 2m.
fn message(out: &mut [u64], s: &[u64], m: usize, n: usize)
    requires s_len { (length s.now ≡ 4 * m) × (m ≤ 65536) × (n ≤ 2 * m) }
    requires table { Table 0 n }
    requires out_len { length out.old ≡ 6 }
    ensures { out.new ≡ words (inner_message 0 (table_at 0 n s.now) (table_at (2 * m) n s.now)) }
{
    let a = 2 * m;
    let e = a + n;
    let _done = engine::inner_message(out, &s[..n], &s[a..e], 0);
}

// Binds the lowest variable of both tables.
fn bind(s: &mut [u64], m: usize, n: usize, r: Gf128)
    requires s_len { (length s.old ≡ 4 * m) × (m ≤ 65536) × (n ≤ 2 * m) }
    requires table_2 { Table 0 n }
    ensures table { table_at 0 (n / 2) s.new ≡ bind_var 0 (value r) (table_at 0 n s.old) }
    ensures z { table_at (2 * m) (n / 2) s.new ≡ bind_var 0 (value r) (table_at (2 * m) n s.old) }
{
    let a = 2 * m;
    let e = a + n;
    let _done = multilinear::bind_var(&mut s[..n], 0, r);
    let _also = multilinear::bind_var(&mut s[a..e], 0, r);
}

// Inner round i: its message is written, its challenge drawn and written down, and both tables are bound.
fn round(
    i: usize,
    m: usize,
    n: usize,
    proof: &mut [u64],
    draws: &mut [u64],
    s: &mut [u64],
    t: Transcript,
) -> Transcript
    requires s_len { (length s.old ≡ 4 * m) × (m ≤ 65536) × (n ≤ 2 * m) }
    requires table { Table 0 n }
    requires i_bound { (i < 64) × (6 * i + 6 ≤ length proof.old) × (2 * i + 2 ≤ length draws.old) }
    ensures { inner_in m (n / 2) (3 * i + 3) (i + 1) result proof.new draws.new s.new ≡ inner_step (inner_in m n (3 * i) i t proof.old draws.old s.old) }
{
    let a = 6 * i;
    let e = a + 6;
    message(&mut proof[a..e], s, m, n);
    let u = events::inner_round(t, &proof[a..e]);
    let r = transcript::element(u);
    words::put(draws, i, r);
    bind(s, m, n, r);
    u
}

// All k inner rounds over m = 2^k columns.
fn rounds(
    k: usize,
    m: usize,
    proof: &mut [u64],
    draws: &mut [u64],
    s: &mut [u64],
    t: Transcript,
) -> Transcript
    requires s_len { (length s.old ≡ 4 * m) × (m ≤ 65536) × (k < 60) × (6 * k ≤ length proof.old) × (2 * k ≤ length draws.old) }
    requires m_value { m ≡ 2 ^ k }
    ensures { inner_in m 2 (3 * k) k result proof.new draws.new s.new ≡ inner_steps k (inner_in m (2 * m) 0 0 t proof.old draws.old s.old) }
{
    let mut n = 2 * m;
    let mut u = t;
    for i in 0..k {
        u = round(i, m, n, proof, draws, s, u);
        n /= 2;
    }
    u
}

// Copies the first n words to word 2n.
fn copy_down(n: usize, s: &mut [u64])
    requires { (n ≤ 65536) × (3 * n ≤ length s.old) }
    ensures { s.new ≡ pasted (2 * n) n s.old }
{
    for i in 0..n {
        s[2 * n + i] = s[i];
    }
}

// A copy of the w folded columns, which stand in front of z, behind the two tables of 2w columns.
fn lay_out(w: usize, s: &mut [u64])
    requires { (length s.old ≡ 12 * w) × (0 < w) × (w ≤ 32768) }
    ensures table { table_at 0 (4 * w) s.new ≡ table_at 0 (4 * w) s.old }
    ensures z { table_at (4 * w) (4 * w) s.new ≡ table_at (4 * w) (2 * w) s.old ++ table_at (6 * w) (2 * w) s.old }
    ensures copy { table_at (8 * w) (2 * w) s.new ≡ table_at (4 * w) (2 * w) s.old }
{
    let n = 2 * w;
    let a = 4 * w;
    let e = 10 * w;
    copy_down(n, &mut s[a..e]);
}

// v_z, which is element 2w of s, is sent behind k elements.
fn send_z(k: usize, w: usize, proof: &mut [u64], s: &[u64], t: Transcript) -> Transcript
    requires { (k < 1024) × (2 * k + 2 ≤ length proof.old) × (w ≤ 32768) × (4 * w + 2 ≤ length s.now) }
    ensures transcript { result ≡ absorbed_one t (ascii "vs-vz") (get_or (table_at (4 * w) 2 s.now) 0 0) }
    ensures sent { take (k + 1) (elements proof.new) ≡ take k (elements proof.old) ++ (get_or (table_at (4 * w) 2 s.now) 0 0 ∷ []) }
{
    let z = words::get(s, 2 * w);
    words::put(proof, k, z);
    let a = 2 * k;
    let e = a + 2;
    events::value_z(t, &proof[a..e])
}

// The sum of products of segment i of the w folded columns at the front of s with the n elements behind them.
fn segment_dot(w: usize, lens: &[usize], i: usize, n: usize, s: &[u64]) -> Gf128
    requires { (w ≤ 32768) × (layout_refusal w lens.now ≡ 0) × (i < length lens.now) × (n ≤ w) × (length s.now ≡ 4 * w) }
    ensures { value result ≡ dot (take (get_or lens.now i 0) (drop (offset lens.now i) (table_at 0 (2 * w) s.now))) (table_at (2 * w) (2 * n) s.now) }
{
    let a = 2 * w;
    let e = a + 2 * n;
    let part = layout::segment(&s[..a], w, lens, i);
    multilinear::dot(part, &s[a..e])
}

// The value of segment i at the local point of the draws; s has the w folded columns, and as much room for the eq table.
fn segment_value(w: usize, lens: &[usize], i: usize, draws: &[u64], s: &mut [u64]) -> Gf128
    requires w_bound { (w ≤ 32768) × (layout_refusal w lens.now ≡ 0) × (i < length lens.now) × (length s.old ≡ 4 * w) }
    requires local { Local w (get_or lens.now i 0) (length draws.now) }
    ensures value { value result ≡ segment_in lens.now (table_at 0 (2 * w) s.old) (elements draws.now) i }
    ensures kept { table_at 0 (2 * w) s.new ≡ table_at 0 (2 * w) s.old }
{
    let n = lens[i];
    let k = 2 * sizes::log2(n);
    let a = 2 * w;
    let e = a + 2 * n;
    let _done = EqBits::build(&draws[..k], ONE, &mut s[a..e]);
    segment_dot(w, lens, i, n, s)
}

// The value of segment i is sent behind p elements.
fn send_segment(
    p: usize,
    w: usize,
    lens: &[usize],
    i: usize,
    proof: &mut [u64],
    draws: &[u64],
    s: &mut [u64],
    t: Transcript,
) -> Transcript
    requires p_bound { (p < 1024) × (2 * p + 2 ≤ length proof.old) × (w ≤ 32768) × (layout_refusal w lens.now ≡ 0) × (i < length lens.now)
        × (length s.old ≡ 4 * w) }
    requires local { Local w (get_or lens.now i 0) (length draws.now) }
    ensures transcript { result ≡ absorbed_one t (numbered "vs-seg-" i) (segment_in lens.now (table_at 0 (2 * w) s.old) (elements draws.now) i) }
    ensures sent { take (p + 1) (elements proof.new)
        ≡ take p (elements proof.old) ++ (segment_in lens.now (table_at 0 (2 * w) s.old) (elements draws.now) i ∷ []) }
    ensures kept { table_at 0 (2 * w) s.new ≡ table_at 0 (2 * w) s.old }
{
    let v = segment_value(w, lens, i, draws, s);
    words::put(proof, p, v);
    let a = 2 * p;
    let e = a + 2;
    events::segment(t, i, &proof[a..e])
}

// The values of all segments are sent behind k elements.
fn send_segments(
    k: usize,
    w: usize,
    lens: &[usize],
    proof: &mut [u64],
    draws: &[u64],
    s: &mut [u64],
    t: Transcript,
) -> Transcript
    requires k_bound { (k < 512) × (length lens.now ≤ 64) × (2 * (k + length lens.now) ≤ length proof.old) × (w ≤ 32768)
        × (layout_refusal w lens.now ≡ 0) × (length s.old ≡ 4 * w) }
    requires locals { Locals w lens.now (length draws.now) }
    ensures { sent_in (k + length lens.now) result proof.new
        ≡ sent_each "vs-seg-" 0 (tabulate (segment_in lens.now (table_at 0 (2 * w) s.old) (elements draws.now)) (length lens.now)) (sent_in k t proof.old) }
{
    let mut u = t;
    for i in 0..lens.len() {
        u = send_segment(k + i, w, lens, i, proof, draws, s, u);
    }
    u
}

// The inner rounds over 2w = 2^k columns, v_z and the segment values. At entry s has the combined table and the folded z; it is
// left zero.
fn run(
    k: usize,
    w: usize,
    lens: &[usize],
    proof: &mut [u64],
    draws: &mut [u64],
    s: &mut [u64],
    t: Transcript,
) -> Transcript
    requires s_len { (length s.old ≡ 12 * w) × (0 < w) × (w ≤ 32768) × (0 < k) × (k < 18) }
    requires draws_len { (length draws.old ≡ 2 * k) × (length lens.now ≤ 64) × (length proof.old ≡ 2 * (3 * k + 1 + length lens.now))
        × (layout_refusal w lens.now ≡ 0) }
    requires w_value { (2 * w ≡ 2 ^ k) × Locals w lens.now (2 * k - 2) }
    ensures run { steps_in (3 * k + 1 + length lens.now) k result proof.new draws.new
        ≡ inner_whole k lens.now (table_at 0 (4 * w) s.old) (table_at (4 * w) (2 * w) s.old) (table_at (6 * w) (2 * w) s.old) t }
    ensures cleared { s.new ≡ replicate (length s.old) 0 }
{
    lay_out(w, s);
    let m = 2 * w;
    let a = 8 * w;
    let e = 12 * w;
    let p = 3 * k;
    let q = p + 1;
    let u = rounds(k, m, proof, draws, &mut s[..a], t);
    let v = send_z(p, w, proof, s, u);
    let r = send_segments(q, w, lens, proof, draws, &mut s[a..e], v);
    words::clear(s);
    r
}

// The inner rounds over m columns, v_z and the segment values: their messages and values are the first elements of proof, their
// challenges those of draws. s has the combined table in its first 2m words and the folded z in the 2m words behind; its first 6m words
// are left zero.
// 1: no such columns; 8, 9, 10: no such layout; 14: a counter of 2^32 or more; 15: draws, proof or s too short.
#[tactic(auto, using(crate::proofs::Handed::handed_back, crate::proofs::Guarded::fitting))]
pub fn inner_rounds(
    m: usize,
    lens: &[usize],
    proof: &mut [u64],
    draws: &mut [u64],
    s: &mut [u64],
    t: Transcript,
) -> Result<Transcript, Refusal>
    ensures answer { answer_of t result
        ≡ answer_for (inner_rounds_refusal m lens.now proof.old draws.old s.old t) (inner_run_steps (sizes_only m 1 1 1 lens.now) s.old t) t }
    ensures proof { proof.new
        ≡ proof_for (inner_rounds_refusal m lens.now proof.old draws.old s.old t) (inner_run_steps (sizes_only m 1 1 1 lens.now) s.old t) proof.old }
    ensures draws { draws.new
        ≡ draws_for (inner_rounds_refusal m lens.now proof.old draws.old s.old t) (inner_run_steps (sizes_only m 1 1 1 lens.now) s.old t) draws.old }
    ensures scratch { s.new ≡ scratch_for (inner_rounds_refusal m lens.now proof.old draws.old s.old t) (6 * m) s.old }
{
    guard::of_inner(m, lens, proof, draws, s, t)?;
    let k = sizes::log2(m);
    let w = m / 2;
    let a = 2 * (3 * k + 1 + lens.len());
    let d = 2 * k;
    let e = 6 * m;
    Ok(run(k, w, lens, &mut proof[..a], &mut draws[..d], &mut s[..e], t))
}
