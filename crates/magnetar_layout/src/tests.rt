// The tests of sizes and lengths.
ghost use Rattle.std.specs.Prelude.{◌≡◌};
ghost use Rattle.magnetar_layout.specs.Every.{every};
ghost use Rattle.magnetar_layout.specs.Layout.{is_length};
ghost use Rattle.magnetar_layout.specs.Tests.{is_size};

use magnetar_field::sizes;

// n is a power of two from least to most.
#[tactic(auto, using(std::proofs::lemmas::Bool::Decides::nat_tests), unfolding(crate::specs::Tests::is_size))]
pub fn is_size(least: usize, most: usize, n: usize) -> bool
    ensures { result ≡ is_size least most n }
{
    least <= n && n <= most && sizes::is_power_of_two(n)
}

// A segment of w columns may have the length n.
#[tactic(auto, using(std::proofs::lemmas::Bool::Decides::nat_tests), unfolding(crate::specs::Layout::is_length))]
fn is_length(w: usize, n: usize) -> bool
    ensures { result ≡ is_length w n }
{
    0 < n && n <= w && sizes::is_power_of_two(n)
}

// 8: each segment may have its length.
pub(crate) fn all_lengths(w: usize, lens: &[usize]) -> bool
    ensures { result ≡ every (is_length w) lens.now }
{
    lens.iter().all(|n| is_length(w, *n))
}
