// The events of a run: what is absorbed and drawn, each under its label.
ghost use Rattle.std.specs.Prelude.{◌≡◌, ◌++◌, ◌*◌, ◌/◌, ◌≤◌, length, drop};
ghost use Rattle.magnetar_hash.specs.Bytes.{word_bytes, ascii};
ghost use Rattle.magnetar_hash.specs.Transcript.{absorbed, drawn, drawn_times, drawn_words};
ghost use Rattle.magnetar_prover.specs.Labels.{IsShort, label_bytes, row_label, tau_label};
ghost use Rattle.magnetar_schedule.specs.Schedule.{decimal, numbered};

use magnetar_hash::transcript::{self, Transcript};

// The systems of a relation.
#[derive(Clone, Copy)]
pub(crate) enum System {
    Bin,
    Fld,
}

// Writes the decimal digits of n at the end of `out`, and answers where they begin. The loop follows the rest of n, which is no count.
fn put_digits(out: &mut [u8], n: usize) -> usize
    requires { length out.old ≡ 48 }
    ensures { (28 ≤ result) × (result ≤ 48) × (drop result out.new ≡ decimal 20 n) }
{
    let mut rest = n;
    let mut at: usize = 47;
    while rest > 9 {
        out[at] = 48 + (rest % 10) as u8;
        rest /= 10;
        at -= 1;
    }
    out[at] = 48 + rest as u8;
    at
}

// Writes the prefix in front of what begins at `end`, and answers where it begins.
fn put_prefix(out: &mut [u8], prefix: &[u8], end: usize) -> usize
    requires { (length prefix.now ≤ end) × (end ≤ length out.old) }
    ensures { (result ≤ end) × (drop result out.new ≡ prefix.now ++ drop end out.old) }
{
    let at = end - prefix.len();
    out[at..end].copy_from_slice(prefix);
    at
}

// Writes the label at the end of `out`, and answers where it begins.
fn put_label(out: &mut [u8], prefix: &[u8], i: usize) -> usize
    requires { (length out.old ≡ 48) × (length prefix.now ≤ 28) }
    ensures { (result ≤ 48) × (drop result out.new ≡ prefix.now ++ decimal 20 i) }
{
    let end = put_digits(out, i);
    put_prefix(out, prefix, end)
}

// What a label consists of.
#[derive(Clone, Copy)]
pub(crate) enum Label<'a> {
    // These bytes.
    Whole(&'a [u8]),
    // These, at most 28, and the decimal digits of the event's number behind them.
    Numbered(&'a [u8]),
}

// Words are absorbed as event i under a label.
pub(crate) fn absorb(t: Transcript, label: Label, i: usize, words: &[u64]) -> Transcript
    requires { IsShort label }
    ensures { result ≡ absorbed t (label_bytes label.entry i) (word_bytes words.now) }
{
    match label {
        Label::Whole(bytes) => transcript::absorb_words(t, bytes, words),
        Label::Numbered(prefix) => {
            let mut out = [0u8; 48];
            let at = put_label(&mut out, prefix, i);
            transcript::absorb_words(t, &out[at..], words)
        }
    }
}

// A draw as event i under a label.
pub(crate) fn draw(t: Transcript, label: Label, i: usize) -> Transcript
    requires { IsShort label }
    ensures { result ≡ drawn t (label_bytes label.entry i) }
{
    match label {
        Label::Whole(bytes) => transcript::draw(t, bytes),
        Label::Numbered(prefix) => {
            let mut out = [0u8; 48];
            let at = put_label(&mut out, prefix, i);
            transcript::draw(t, &out[at..])
        }
    }
}

// Round i: its message is absorbed and its challenge drawn, both under its label.
fn round(t: Transcript, label: Label, i: usize, words: &[u64]) -> Transcript
    requires { IsShort label }
    ensures { result ≡ drawn (absorbed t (label_bytes label.entry i) (word_bytes words.now)) (label_bytes label.entry i) }
{
    draw(absorb(t, label, i, words), label, i)
}

// Shared round i.
pub(crate) fn shared_round(t: Transcript, i: usize, words: &[u64]) -> Transcript
    ensures { result ≡ drawn (absorbed t (numbered "vs-out-shared-" i) (word_bytes words.now)) (numbered "vs-out-shared-" i) }
{
    round(t, Label::Numbered(b"vs-out-shared-"), i, words)
}

// Row round i of a system.
pub(crate) fn row_round(t: Transcript, of: System, i: usize, words: &[u64]) -> Transcript
    ensures { result ≡ drawn (absorbed t (numbered (row_label of) i) (word_bytes words.now)) (numbered (row_label of) i) }
{
    match of {
        System::Bin => round(t, Label::Numbered(b"vs-out-rowbin-"), i, words),
        System::Fld => round(t, Label::Numbered(b"vs-out-rowfld-"), i, words),
    }
}

// An inner round. All of them have one label.
pub(crate) fn inner_round(t: Transcript, words: &[u64]) -> Transcript
    ensures { result ≡ drawn (absorbed t (ascii "vs-inner") (word_bytes words.now)) (ascii "vs-inner") }
{
    round(t, Label::Whole(b"vs-inner"), 0, words)
}

// Terminal i is absorbed.
pub(crate) fn terminal(t: Transcript, i: usize, words: &[u64]) -> Transcript
    ensures { result ≡ absorbed t (numbered "vs-terminal-" i) (word_bytes words.now) }
{
    absorb(t, Label::Numbered(b"vs-terminal-"), i, words)
}

// The value of the folded z is absorbed.
pub(crate) fn value_z(t: Transcript, words: &[u64]) -> Transcript
    ensures { result ≡ absorbed t (ascii "vs-vz") (word_bytes words.now) }
{
    transcript::absorb_words(t, b"vs-vz", words)
}

// The value of segment i is absorbed.
pub(crate) fn segment(t: Transcript, i: usize, words: &[u64]) -> Transcript
    ensures { result ≡ absorbed t (numbered "vs-seg-" i) (word_bytes words.now) }
{
    absorb(t, Label::Numbered(b"vs-seg-"), i, words)
}

// The draws of the tau of a system, as many elements as `out` has room for.
#[tactic(auto, unfolding(magnetar_hash::specs::Bytes::ascii))]
pub(crate) fn tau(t: Transcript, out: &mut [u64], of: System) -> Transcript
    ensures { (result ≡ drawn_times (length out.old / 2) t (ascii (tau_label of)))
        × (out.new ≡ drawn_words (length out.old / 2) t (ascii (tau_label of))
        ++ drop (2 * (length out.old / 2)) out.old) }
{
    match of {
        System::Bin => transcript::draw_vec(t, b"vs-tau-bin", out),
        System::Fld => transcript::draw_vec(t, b"vs-tau-fld", out),
    }
}

// The draws of the alphas, as many elements as `out` has room for.
pub(crate) fn alphas(t: Transcript, out: &mut [u64]) -> Transcript
    ensures { (result ≡ drawn_times (length out.old / 2) t (ascii "vs-alpha"))
        × (out.new ≡ drawn_words (length out.old / 2) t (ascii "vs-alpha")
        ++ drop (2 * (length out.old / 2)) out.old) }
{
    transcript::draw_vec(t, b"vs-alpha", out)
}
