// Which refusal applies, in rising order.
ghost use Rattle.std.specs.Prelude.{◌≡◌, not, eqb, [], ◌∷◌, ◌++◌, ◌*◌, ◌/◌, ◌<◌, ◌≤◌, length};
ghost use Rattle.magnetar_field.specs.Number.{number_of};
ghost use Rattle.magnetar_layout.specs.Tests.{first_refusal, column_tests, layout_tests, room_test};
ghost use Rattle.magnetar_protocol.specs.Shape.{sizes_only};
ghost use Rattle.magnetar_protocol.specs.RunTests.{counter_tests};
ghost use Rattle.magnetar_prover.specs.Entries.{play_refusal, inner_rounds_refusal, count_tests, total_tests};
ghost use Rattle.magnetar_prover.specs.Entries.{outer_drawn, outer_sent, block_words, outer_rounds_refusal};

use magnetar_field::refusal::{Refusal, require};
use magnetar_field::sizes;
use magnetar_hash::transcript::Transcript;
use magnetar_layout::limits::{MOST_BATCH_ROWS, MOST_COLUMNS, MOST_LOGINS, MOST_ROWS};
use magnetar_layout::{layout, tests};
use magnetar_protocol::refusal;
use magnetar_protocol::rounds::Rounds;

// 1, 8, 9 and 10.
#[tactic(auto, using(crate::proofs::Guarded::sizing), unfolding(magnetar_layout::specs::Tests::or_refuse))]
fn of_sizes(m: usize, lens: &[usize]) -> Result<(), Refusal>
    ensures { number_of result ≡ first_refusal 0 (column_tests m ++ layout_tests (m / 2) lens.now) }
{
    require(tests::is_size(2, MOST_COLUMNS, m), Refusal::Size)?;
    layout::refusal(m / 2, lens)
}

// 14.
#[tactic(auto, using(magnetar_layout::proofs::Passing::passing), unfolding(magnetar_layout::specs::Tests::or_refuse))]
fn of_counter(t: Transcript) -> Result<(), Refusal>
    ensures { number_of result ≡ first_refusal 0 (counter_tests t.squeeze_ctr) }
{
    require(t.squeeze_ctr < 0x100000000, Refusal::Counter)
}

// 14, and 15 where fewer words are lent than are drawn, sent and worked in.
#[tactic(auto, using(magnetar_layout::proofs::Passing::passing), unfolding(magnetar_layout::specs::Tests::or_refuse))]
fn of_room(
    t: Transcript,
    draws: &[u64],
    drawn: usize,
    proof: &[u64],
    sent: usize,
    s: &[u64],
    room: usize,
) -> Result<(), Refusal>
    ensures { number_of result
        ≡ first_refusal 0 (counter_tests t.squeeze_ctr ++ (room_test drawn draws.now ++ room_test sent proof.now ++ room_test room s.now)) }
{
    of_counter(t)?;
    require(draws.len() >= drawn, Refusal::Room)?;
    require(proof.len() >= sent, Refusal::Room)?;
    require(s.len() >= room, Refusal::Room)
}

// The refusals of the inner rounds.
#[tactic(auto, using(crate::proofs::Guarded::sizing), unfolding(magnetar_layout::specs::Tests::or_refuse, crate::specs::Entries::inner_rounds_refusal))]
pub(crate) fn of_inner(
    m: usize,
    lens: &[usize],
    proof: &[u64],
    draws: &[u64],
    s: &[u64],
    t: Transcript,
) -> Result<(), Refusal>
    ensures { number_of result ≡ inner_rounds_refusal m lens.now proof.now draws.now s.now t }
{
    of_sizes(m, lens)?;
    let k = sizes::log2(m);
    let sent = 2 * (3 * k + 1 + lens.len());
    of_room(t, draws, 2 * k, proof, sent, s, 6 * m)
}

// 1 and 4.
#[tactic(auto, using(magnetar_protocol::proofs::Guards::rows), unfolding(magnetar_layout::specs::Tests::or_refuse))]
fn of_counts(q: usize, rb: usize, rf: usize) -> Result<(), Refusal>
    ensures { number_of result ≡ first_refusal 0 (count_tests q rb rf ++ total_tests q rb rf) }
{
    require(tests::is_size(1, MOST_LOGINS, q), Refusal::Size)?;
    require(tests::is_size(1, MOST_ROWS, rb), Refusal::Rows)?;
    require(tests::is_size(1, MOST_ROWS, rf), Refusal::Rows)?;
    require(q * rb <= MOST_BATCH_ROWS, Refusal::Rows)?;
    require(q * rf <= MOST_BATCH_ROWS, Refusal::Rows)
}

// The words of what is drawn in the outer rounds.
pub(crate) fn drawn_words(l: usize, b: usize, f: usize) -> usize
    requires { (l < 64) × (b < 64) × (f < 64) }
    ensures { result ≡ 2 * outer_drawn l b f }
{
    2 * (l + b + (l + f) + l + b + f + 6)
}

// The words of what is sent in them.
pub(crate) fn sent_words(l: usize, b: usize, f: usize) -> usize
    requires { (l < 64) × (b < 64) × (f < 64) }
    ensures { result ≡ 2 * outer_sent l b f }
{
    2 * (8 * l + 4 * b + 4 * f + 6)
}

// The words of one table of q logins with n rows.
pub(crate) fn table_words(q: usize, n: usize) -> usize
    requires { q * n ≤ 1048576 }
    ensures { result ≡ 2 * (q * n) }
{
    2 * (q * n)
}

// The words of both blocks, which are counted by the sizes and not by their logarithms.
pub(crate) fn block_words(q: usize, rb: usize, rf: usize) -> usize
    requires { (q * rb ≤ 1048576) × (q * rf ≤ 1048576) }
    ensures { result ≡ block_words q rb rf }
{
    8 * (q * rb) + 8 * (q * rf)
}

// 14, 15 where fewer words are lent than are drawn, and 16 where the words are not as many as are sent.
#[tactic(auto, using(magnetar_layout::proofs::Passing::passing), unfolding(magnetar_layout::specs::Tests::or_refuse))]
fn of_words(
    t: Transcript,
    draws: &[u64],
    drawn: usize,
    proof: &[u64],
    sent: usize,
) -> Result<(), Refusal>
    ensures { number_of result ≡ first_refusal 0 (counter_tests t.squeeze_ctr ++ (room_test drawn draws.now ++ (16, not (eqb (length proof.now) sent)) ∷ [])) }
{
    of_counter(t)?;
    require(draws.len() >= drawn, Refusal::Room)?;
    require(proof.len() == sent, Refusal::ProofWords)
}

// The refusals of a schedule that is played.
pub(crate) fn of_play(
    m: usize,
    q: usize,
    rb: usize,
    rf: usize,
    lens: &[usize],
    proof: &[u64],
    draws: &[u64],
    t: Transcript,
) -> Result<(), Refusal>
    ensures { number_of result ≡ play_refusal (sizes_only m q rb rf lens.now) proof.now draws.now t }
{
    refusal::outline_refusal(m, q, rb, rf, lens)?;
    let rounds = Rounds::of(m, q, rb, rf);
    let l = lens.len() as u8;
    let sent = rounds.proof_words(l);
    of_words(t, draws, rounds.draw_words(), proof, sent)
}

// The refusals of the outer rounds.
pub(crate) fn of_outer(
    q: usize,
    rb: usize,
    rf: usize,
    proof: &[u64],
    draws: &[u64],
    s: &[u64],
    t: Transcript,
) -> Result<(), Refusal>
    ensures { number_of result ≡ outer_rounds_refusal q rb rf proof.now draws.now s.now t }
{
    of_counts(q, rb, rf)?;
    let l = sizes::log2(q);
    let b = sizes::log2(rb);
    let f = sizes::log2(rf);
    let drawn = drawn_words(l, b, f);
    let sent = sent_words(l, b, f);
    let room = block_words(q, rb, rf);
    of_room(t, draws, drawn, proof, sent, s, room)
}
