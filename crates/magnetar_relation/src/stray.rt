// The first stray bit of a packed batch: a bit that is set outside the segments. It is looked for by whole words, a login's words against a
// mask of the columns outside, which is made once.
ghost use Rattle.std.specs.Prelude.{◌≡◌, ◌+◌, ◌-◌, ◌*◌, ◌/◌, ◌%◌, ◌^◌, ◌≤◌, ◌<◌, ◌++◌, length, take, replicate, unwrap_or, IfSome};
ghost use Rattle.magnetar_field.specs.Number.{number_of};
ghost use Rattle.magnetar_layout.specs.Layout.{LayoutFits, offsets};
ghost use Rattle.magnetar_layout.specs.Entries.{layout_refusal};
ghost use Rattle.magnetar_layout.specs.Tests.{first_refusal, size_tests, packed_tests};
ghost use Rattle.magnetar_matrix.specs.Packed.{unpacked};
ghost use Rattle.magnetar_matrix.specs.RowCheck.{first_not};
ghost use Rattle.magnetar_relation.specs.Stray.{stray_answer, stray_found, searched, stray_outcome, Masks, AllMarked, NonePast, Flipped, InWords, apart};

use crate::login;
use magnetar_field::refusal::{Refusal, require};
use magnetar_layout::limits::{MOST_LOGINS, MOST_SEGMENTS, MOST_WITNESS};
use magnetar_layout::{layout, tests};
use magnetar_matrix::step;
use magnetar_r1cs::r1cs;

// A stray bit: its login, and its column.
#[derive(Clone, Copy, Debug, PartialEq, Eq)]
pub struct StrayBit {
    pub login: usize,
    pub column: usize,
}

// How many words a mask of the most witness columns has.
const MASK_WORDS: usize = MOST_WITNESS / 64;

// t ones.
fn ones(t: usize) -> u64
    requires { t ≤ 64 }
    ensures { result ≡ 2 ^ t - 1 }
{
    if t < 64 { (1 << t) - 1 } else { u64::MAX }
}

// Flips the bits of t columns from y on, which lie in one word.
fn flip(mask: &mut [u64], y: usize, t: usize)
    requires { (y % 64 + t ≤ 64) × (y / 64 < length mask.old) }
    ensures { Flipped y t mask.old mask.new }
{
    step::add_word(mask, y / 64, step::shifted(ones(t), y % 64));
}

// Flips the bits of n columns from o on, word by word.
fn flip_run(mask: &mut [u64], o: usize, n: usize)
    requires some { 0 < n }
    requires in_words { InWords o n }
    requires n_bound { (o + n ≤ 64 * length mask.old) × (o + n ≤ 65536) }
    ensures { Flipped o n mask.old mask.new }
{
    let t = n.min(64);
    for y in (o..o + n).step_by(t) {
        flip(mask, y, t);
    }
}

// Takes the columns of the segments out of the mask of all w columns.
fn take_out(mask: &mut [u64], w: usize, lens: &[usize], places: &[usize])
    requires layout_fits { LayoutFits w lens.now × (take (length lens.now) places.now ≡ offsets lens.now) × (512 ≤ length mask.old) }
    requires all_marked { AllMarked w mask.old }
    ensures { Masks w lens.now mask.new }
{
    for (i, n) in lens.iter().enumerate() {
        flip_run(mask, places[i], *n);
    }
}

// Sets the mask, whose words are 0, to the columns outside.
fn mark_outside(mask: &mut [u64], w: usize, lens: &[usize])
    requires lens_value { layout_refusal w lens.now ≡ 0 }
    requires mask_value { mask.old ≡ replicate 512 0 }
    ensures { Masks w lens.now mask.new }
{
    let mut places = [0; MOST_SEGMENTS];
    let _built = layout::build(w, lens, &mut places);
    flip_run(mask, 0, w);
    take_out(mask, w, lens, &places);
}

// The first of w columns at which a login's words and the mask have a bit in common.
fn first_column(mask: &[u64], words: &[u64], w: usize) -> Option<usize>
    requires words_in_bounds { (length words.now ≤ length mask.now) × (length mask.now ≤ 512) }
    requires none_past { NonePast w mask.now }
    ensures first { unwrap_or result w ≡ first_not (apart mask.now words.now) w }
    ensures inside { IfSome result (λ y. y < w) }
{
    for (k, word) in words.iter().enumerate() {
        let common = *word & mask[k];
        if common != 0 {
            return Some(64 * k + common.trailing_zeros() as usize);
        }
    }
    None
}

// The first login with such a column, and its first one.
fn first_login(mask: &[u64], packed: &[u64], q: usize, w: usize, lens: &[usize]) -> Option<StrayBit>
    requires { (w ≤ 32768) × (length mask.now ≡ 512) × Masks w lens.now mask.now }
    ensures { stray_found result ≡ searched q w lens.now (unpacked q w packed.now) }
{
    for login in 0..q {
        if let Some(column) = first_column(mask, login::part(packed, w, login), w) {
            return Some(StrayBit { login, column });
        }
    }
    None
}

// 1: no such columns or logins; 2: not as many packed words.
#[tactic(auto, using(magnetar_layout::proofs::Passing::passing), unfolding(magnetar_layout::specs::Tests::or_refuse))]
fn sizes(packed: &[u64], q: usize, w: usize) -> Result<(), Refusal>
    ensures { number_of result ≡ first_refusal 0 (size_tests (2 * w) q ++ packed_tests w q packed.now) }
{
    require(tests::is_size(1, MOST_WITNESS, w), Refusal::Size)?;
    require(tests::is_size(1, MOST_LOGINS, q), Refusal::Size)?;
    require(
        packed.len() == q * r1cs::login_words(w),
        Refusal::PackedWords,
    )
}

// The first stray bit of the q logins that the packed words hold: the lowest login, and then the lowest of its w columns. 1: no such
// columns or logins; 2: not as many packed words; 8 to 10: the segments.
pub fn first_stray(
    packed: &[u64],
    q: usize,
    w: usize,
    lens: &[usize],
) -> Result<Option<StrayBit>, Refusal>
    ensures { stray_answer result ≡ stray_outcome q w lens.now packed.now }
{
    sizes(packed, q, w)?;
    layout::refusal(w, lens)?;
    let mut mask = [0; MASK_WORDS];
    mark_outside(&mut mask, w, lens);
    Ok(first_login(&mask, packed, q, w, lens))
}
