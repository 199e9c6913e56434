// The ends of the outer sum-check: the taus and their eq tables in front of its rounds, the terminals and the alphas behind them.
ghost use Rattle.std.specs.Prelude.{◌≡◌, [], ◌∷◌, ◌++◌, ◌+◌, ◌*◌, ◌%◌, ◌^◌, ◌<◌, ◌≤◌, length, get_or, take, drop};
ghost use Rattle.magnetar_field.specs.Words.{elements};
ghost use Rattle.magnetar_hash.specs.Bytes.{ascii};
ghost use Rattle.magnetar_schedule.specs.Stepwise.{begin, draw_times};
ghost use Rattle.magnetar_schedule.specs.Schedule.{numbered};
ghost use Rattle.magnetar_prover.specs.InScratch.{steps_in, absorbed_one, sent_in, sent_each, three_in, EqTablePlaced};

use crate::events::{self, System};
use magnetar_field::gf128::ONE;
use magnetar_field::words;
use magnetar_hash::transcript::Transcript;
use magnetar_multilinear::eq::EqBits;

// The tau of the sb variables of bin and of the sf variables of fld are the first draws.
pub(crate) fn taus(sb: usize, sf: usize, draws: &mut [u64], t: Transcript) -> Transcript
    requires { (sb ≤ 20) × (sf ≤ 20) × (2 * (sb + sf) ≤ length draws.old) }
    ensures { steps_in 0 (sb + sf) result [] draws.new ≡ draw_times sf (ascii "vs-tau-fld") (draw_times sb (ascii "vs-tau-bin") (begin t)) }
{
    let a = 2 * sb;
    let e = a + 2 * sf;
    let u = events::tau(t, &mut draws[..a], System::Bin);
    let r = events::tau(u, &mut draws[a..e], System::Fld);
    r
}

// Sets the first table of a block to the eq table of the x elements from element o of the draws on.
fn begin_table(o: usize, x: usize, w: usize, draws: &[u64], s: &mut [u64])
    requires o_bound { (o ≤ 20) × (x ≤ 20) × (2 * (o + x) ≤ length draws.now) × (length s.old ≡ 4 * w) × (w ≤ 2097152) }
    requires w_value { w ≡ 2 * 2 ^ x }
    ensures { EqTablePlaced w (take x (drop o (elements draws.now))) s.old s.new }
{
    let a = 2 * o;
    let e = a + 2 * x;
    let _done = EqBits::build(&draws[a..e], ONE, &mut s[..w]);
}

// The eq tables of both tau, in the blocks of bin and of fld.
pub(crate) fn begin_tables(sb: usize, sf: usize, wb: usize, wf: usize, draws: &[u64], s: &mut [u64])
    requires sb_bound { (sb ≤ 20) × (sf ≤ 20) × (2 * (sb + sf) ≤ length draws.now) × (length s.old ≡ 4 * wb + 4 * wf) × (wb ≤ 2097152) × (wf ≤ 2097152) }
    requires wb_value { (wb ≡ 2 * 2 ^ sb) × (wf ≡ 2 * 2 ^ sf) }
    ensures bin { EqTablePlaced wb (take sb (elements draws.now)) (take (4 * wb) s.old) (take (4 * wb) s.new) }
    ensures fld { EqTablePlaced wf (take sf (drop sb (elements draws.now))) (take (4 * wf) (drop (4 * wb) s.old)) (take (4 * wf) (drop (4 * wb) s.new)) }
{
    let a = 4 * wb;
    let e = a + 4 * wf;
    begin_table(0, sb, wb, draws, &mut s[..a]);
    begin_table(sb, sf, wf, draws, &mut s[a..e]);
}

// Element k of s is sent as terminal i behind p elements.
fn send_terminal(
    i: usize,
    p: usize,
    k: usize,
    proof: &mut [u64],
    s: &[u64],
    t: Transcript,
) -> Transcript
    requires { (p < 1024) × (2 * p + 2 ≤ length proof.old) }
    ensures transcript { result ≡ absorbed_one t (numbered "vs-terminal-" i) (get_or (elements s.now) k 0) }
    ensures sent { take (p + 1) (elements proof.new) ≡ take p (elements proof.old) ++ (get_or (elements s.now) k 0 ∷ []) }
{
    let v = words::get(s, k);
    words::put(proof, p, v);
    let a = 2 * p;
    let e = a + 2;
    events::terminal(t, i, &proof[a..e])
}

// The first entries of the tables a, b, c of a block are sent as terminals i, i + 1 and i + 2 behind p elements.
fn send_block(
    i: usize,
    p: usize,
    w: usize,
    proof: &mut [u64],
    s: &[u64],
    t: Transcript,
) -> Transcript
    requires { (i < 64) × (p < 1000) × (2 * (p + 3) ≤ length proof.old) × (w % 2 ≡ 0) × (w ≤ 2097152) }
    ensures { sent_in (p + 3) result proof.new ≡ sent_each "vs-terminal-" i (three_in w s.now) (sent_in p t proof.old) }
{
    let h = w / 2;
    let k = w + h;
    let u = send_terminal(i, p, h, proof, s, t);
    let v = send_terminal(i + 1, p + 1, w, proof, s, u);
    let r = send_terminal(i + 2, p + 2, k, proof, s, v);
    r
}

// The six terminals, of the blocks of bin and of fld, are sent behind p elements.
pub(crate) fn terminals(
    p: usize,
    wb: usize,
    wf: usize,
    proof: &mut [u64],
    bin: &[u64],
    fld: &[u64],
    t: Transcript,
) -> Transcript
    requires { (p < 512) × (2 * (p + 6) ≤ length proof.old) × (wb % 2 ≡ 0) × (wb ≤ 2097152) × (wf % 2 ≡ 0) × (wf ≤ 2097152) }
    ensures { sent_in (p + 6) result proof.new ≡ sent_each "vs-terminal-" 0 (three_in wb bin.now ++ three_in wf fld.now) (sent_in p t proof.old) }
{
    let u = send_block(0, p, wb, proof, bin, t);
    let r = send_block(3, p + 3, wf, proof, fld, u);
    r
}

// The six alphas are drawn behind d elements.
pub(crate) fn draw_alphas(d: usize, draws: &mut [u64], t: Transcript) -> Transcript
    requires { (d < 1024) × (2 * d + 12 ≤ length draws.old) }
    ensures { steps_in 0 (d + 6) result [] draws.new ≡ draw_times 6 (ascii "vs-alpha") (steps_in 0 d t [] draws.old) }
{
    let a = 2 * d;
    let e = a + 12;
    let r = events::alphas(t, &mut draws[a..e]);
    r
}
