// The schedule of a run played on a transcript, as far as its first `to` events.
ghost use Rattle.std.specs.Prelude.{◌≡◌, List, [], ◌∷◌, ◌++◌, ℕ, ◌+◌, ◌*◌, ◌/◌, ◌-◌, ◌<◌, ◌≤◌, min, length, replicate, take};
ghost use Rattle.magnetar_field.specs.Gf128.{value};
ghost use Rattle.magnetar_field.specs.Words.{elements, words, overlaid};
ghost use Rattle.magnetar_hash.specs.Bytes.{ascii};
ghost use Rattle.magnetar_hash.specs.Transcript.{answer_of, element};
ghost use Rattle.magnetar_schedule.specs.Schedule.{absorb, draw, rounds, singles, schedule};
ghost use Rattle.magnetar_protocol.specs.Rounds.{Few};
ghost use Rattle.magnetar_protocol.specs.Shape.{sizes_only};
ghost use Rattle.magnetar_schedule.specs.ScheduleRun.{run_from};
ghost use Rattle.magnetar_prover.specs.Entries.{play_answer, play_draws};
ghost use Rattle.magnetar_prover.specs.Labels.{IsShort, label_bytes};
ghost use Rattle.magnetar_prover.specs.Stages.{Adds, Runs, OuterRuns, InnerRuns};

use crate::events::{self, Label};
use crate::guard;
use magnetar_field::refusal::Refusal;
use magnetar_hash::transcript::{self, Transcript};
use magnetar_protocol::rounds::Rounds;

// As many events as no schedule has: of q up to 4096, m and rows up to 65536, and 64 segments. `run_events` up to here plays all of them.
pub const ALL_EVENTS: usize = 65536;

// The transcript, how many words are written, the place of the next element to absorb, and how many events are left.
#[derive(Clone, Copy)]
struct Stage {
    transcript: Transcript,
    written: usize,
    place: usize,
    left: usize,
}

// Writes a word behind the first n, where there is room, and answers how many are written.
fn write(out: &mut [u64], n: usize, x: u64) -> usize
    ensures { Adds (x ∷ []) n out.old result out.new }
{
    if n < out.len() {
        out[n] = x;
        n + 1
    } else {
        n
    }
}

// The stage after the draw that led to u.
fn drawn_to(s: Stage, u: Transcript, out: &mut [u64]) -> Stage
    requires { 0 < s.left }
    ensures { (result.transcript ≡ u) × (result.place ≡ s.place) × (result.left ≡ s.left - 1)
        × Adds (words (value (element u) ∷ [])) s.written out.old result.written out.new }
{
    let x = transcript::element(u);
    let a = write(out, s.written, x.lo);
    let b = write(out, a, x.hi);
    Stage {
        transcript: u,
        written: b,
        place: s.place,
        left: s.left - 1,
    }
}

// A draw as event i under a label, where an event is left.
fn draw_one(s: Stage, label: Label, i: usize, out: &mut [u64]) -> Stage
    requires { IsShort label }
    ensures { (w : List ℕ) (next : ℕ) → Runs w (draw (label_bytes label.entry i) ∷ []) next next s out.old result out.new }
{
    if s.left == 0 {
        return s;
    }
    let u = events::draw(s.transcript, label, i);
    drawn_to(s, u, out)
}

// The place k elements ahead, or the end where there are fewer.
fn ahead(place: usize, k: usize, n: usize) -> usize
    requires { place ≤ n }
    ensures { result ≡ place + min k (n - place) }
{
    place + k.min(n - place)
}

// The next k elements are absorbed as event i under a label, where an event is left.
fn absorb_one(s: Stage, label: Label, i: usize, k: usize, proof: &[u64]) -> Stage
    requires { IsShort label }
    ensures { (next : ℕ) (out : List ℕ) → Runs (elements proof.now) (absorb (label_bytes label.entry i) next k ∷ []) next (next + k) s out result out }
{
    if s.left == 0 {
        return s;
    }
    let n = proof.len() / 2;
    let a = ahead(0, s.place, n);
    let b = ahead(a, k, n);
    Stage {
        transcript: events::absorb(s.transcript, label, i, &proof[2 * a..2 * b]),
        written: s.written,
        place: b,
        left: s.left - 1,
    }
}

// n draws under a label.
fn draw_times(s: Stage, label: &[u8], n: usize, out: &mut [u64]) -> Stage
    ensures { (w : List ℕ) (next : ℕ) → Runs w (replicate n (draw label.now)) next next s out.old result out.new }
{
    let mut u = s;
    for i in 0..n {
        u = draw_one(u, Label::Whole(label), i, out);
    }
    u
}

// Round i: its message of k elements is absorbed, and its challenge drawn.
fn round(s: Stage, label: Label, i: usize, k: usize, proof: &[u64], out: &mut [u64]) -> Stage
    requires { IsShort label }
    ensures { (next : ℕ) → Runs (elements proof.now)
        (absorb (label_bytes label.entry i) next k ∷ draw (label_bytes label.entry i) ∷ [])
        next (next + k) s out.old result out.new }
{
    let a = absorb_one(s, label, i, k, proof);
    draw_one(a, label, i, out)
}

// n rounds.
fn run_rounds(s: Stage, label: Label, k: usize, n: usize, proof: &[u64], out: &mut [u64]) -> Stage
    requires { IsShort label }
    ensures { (first : ℕ) → Runs (elements proof.now) (rounds (label_bytes label.entry) first k 0 n)
        first (first + k * n) s out.old result out.new }
{
    let mut u = s;
    for i in 0..n {
        u = round(u, label, i, k, proof, out);
    }
    u
}

// n elements are absorbed one by one.
fn run_singles(s: Stage, label: Label, n: usize, proof: &[u64]) -> Stage
    requires { IsShort label }
    ensures { (first : ℕ) (out : List ℕ) → Runs (elements proof.now) (singles (label_bytes label.entry) first 0 n)
        first (first + n) s out result out }
{
    let mut u = s;
    for i in 0..n {
        u = absorb_one(u, label, i, 1, proof);
    }
    u
}

// The draws of the two tau, and the rounds of the outer sum-check.
fn outer(s: Stage, rounds: Rounds, proof: &[u64], out: &mut [u64]) -> Stage
    requires { Few rounds }
    ensures { OuterRuns (elements proof.now) rounds.shared rounds.bin rounds.fld s out.old result out.new }
{
    let a = rounds.shared as usize;
    let b = rounds.bin as usize;
    let f = rounds.fld as usize;
    let c = draw_times(s, b"vs-tau-bin", a + b, out);
    let d = draw_times(c, b"vs-tau-fld", a + f, out);
    let e = run_rounds(d, Label::Numbered(b"vs-out-shared-"), 8, a, proof, out);
    let g = run_rounds(e, Label::Numbered(b"vs-out-rowbin-"), 4, b, proof, out);
    run_rounds(g, Label::Numbered(b"vs-out-rowfld-"), 4, f, proof, out)
}

// The terminals, the draws of the alphas, c rounds of the inner sum-check, the value of z and n values of segments.
fn inner(s: Stage, c: usize, n: usize, proof: &[u64], out: &mut [u64]) -> Stage
    ensures { InnerRuns (elements proof.now) c n s out.old result out.new }
{
    let d = run_singles(s, Label::Numbered(b"vs-terminal-"), 6, proof);
    let e = draw_times(d, b"vs-alpha", 6, out);
    let f = run_rounds(e, Label::Whole(b"vs-inner"), 3, c, proof, out);
    let g = absorb_one(f, Label::Whole(b"vs-vz"), 0, 1, proof);
    run_singles(g, Label::Numbered(b"vs-seg-"), n, proof)
}

// The first `to` events of the schedule of these sizes, played with the proof's elements; the words of the elements drawn are
// written to the front of `draws`, as many as there is room for. The schedule is one of sizes, not of their logarithms.
fn events_to(
    m: usize,
    q: usize,
    rb: usize,
    rf: usize,
    lens: &[usize],
    proof: &[u64],
    draws: &mut [u64],
    t: Transcript,
    to: usize,
) -> Transcript
    ensures transcript { result ≡ (run_from (elements proof.now) (take to (schedule (sizes_only m q rb rf lens.now))) t).transcript }
    ensures draws { draws.new
        ≡ overlaid (words (run_from (elements proof.now) (take to (schedule (sizes_only m q rb rf lens.now))) t).draws) draws.old }
{
    let s = Stage {
        transcript: t,
        written: 0,
        place: 0,
        left: to,
    };
    let rounds = Rounds::of(m, q, rb, rf);
    let a = outer(s, rounds, proof, draws);
    let b = inner(a, rounds.inner as usize, lens.len(), proof, draws);
    b.transcript
}

// The first `to` events of a run over q logins with m columns, rb rows of bin and rf rows of fld, and these segment lengths, with the words
// of a proof; the words of the elements drawn are written to the front of `draws`.
// 1: no such columns or logins; 4: no such rows; 8, 9, 10: no such layout over m / 2 columns; 14: the counter is 2^32 or more; 15: draws
// shorter than all that a run draws; 16: not the words of a proof.
#[tactic(auto, using(crate::proofs::Handed::handed_back), unfolding(crate::specs::Entries::play_answer, crate::specs::Entries::play_draws))]
pub fn run_events(
    m: usize,
    q: usize,
    rb: usize,
    rf: usize,
    lens: &[usize],
    proof: &[u64],
    draws: &mut [u64],
    t: Transcript,
    to: usize,
) -> Result<Transcript, Refusal>
    ensures answer { answer_of t result ≡ play_answer (sizes_only m q rb rf lens.now) proof.now draws.old to t }
    ensures draws { draws.new ≡ play_draws (sizes_only m q rb rf lens.now) proof.now draws.old to t }
{
    guard::of_play(m, q, rb, rf, lens, proof, draws, t)?;
    Ok(events_to(m, q, rb, rf, lens, proof, draws, t, to))
}
