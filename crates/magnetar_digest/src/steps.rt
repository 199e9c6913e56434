// The numbers that are fed to the hash before the entries, and those of an entry.
ghost use Rattle.std.specs.Prelude.{◌≡◌, [], ◌∷◌};
ghost use Rattle.magnetar_matrix.specs.Numbers.{entry_of};
ghost use Rattle.magnetar_digest.specs.Digest.{shape_numbers, system_numbers, entry_numbers};
ghost use Rattle.magnetar_digest.specs.Feeding.{words_fed, each_fed, head_fed, size_of};

use magnetar_hash::hasher;
use magnetar_hash::hasher::Sponge;
use magnetar_matrix::entries::Entry;
use magnetar_relation::shapes::{Shape, Shapes, SystemShape};

// A number is fed.
#[tactic(auto, unfolding(crate::specs::Feeding::words_fed))]
fn feed_number(s: Sponge, n: usize) -> Sponge
    ensures { result ≡ words_fed s (n ∷ []) }
{
    hasher::feed(s, &[n as u64])
}

// The numbers of a slice are fed.
fn feed_numbers(s: Sponge, ns: &[usize]) -> Sponge
    ensures { result ≡ each_fed (λ n. n ∷ []) ns.now s }
{
    let mut acc = s;
    for n in ns {
        acc = feed_number(acc, *n);
    }
    acc
}

// The shape of a matrix is fed.
#[tactic(auto, unfolding(crate::specs::Feeding::words_fed))]
fn feed_shape(s: Sponge, h: Shape) -> Sponge
    ensures { result ≡ words_fed s (shape_numbers h) }
{
    hasher::feed(s, &[h.rows as u64, h.cols as u64, h.entries as u64])
}

// The shapes of a system are fed.
fn feed_system(s: Sponge, t: SystemShape) -> Sponge
    ensures { result ≡ words_fed s (system_numbers t) }
{
    let s = feed_shape(s, t.a);
    let s = feed_shape(s, t.b);
    feed_shape(s, t.c)
}

// How many bytes the numbers of l segments and n entries have, modulo 2^64: nothing overflows, and where nothing is refused it is exact.
fn size(l: u64, n: u64) -> u64
    ensures { result ≡ size_of l n }
{
    l.wrapping_add(21).wrapping_add(n << 2) << 3
}

// The hash is started, for n entries, and fed all numbers before the entries.
pub(crate) fn head(m: usize, q: usize, lens: &[usize], sh: Shapes, n: usize) -> Sponge
    ensures { result ≡ head_fed m q lens.now sh n }
{
    let k = size(lens.len() as u64, n as u64);
    let s = hasher::start(b"magnetar/relation/v1", k);
    let s = hasher::feed(s, &[m as u64, q as u64, lens.len() as u64]);
    let s = feed_numbers(s, lens);
    let s = feed_system(s, sh.bin);
    feed_system(s, sh.fld)
}

// An entry is fed.
pub(crate) fn feed_entry(s: Sponge, e: Entry) -> Sponge
    ensures { result ≡ words_fed s (entry_numbers (entry_of e)) }
{
    hasher::feed(s, &[e.row as u64, e.col as u64, e.lo, e.hi])
}
