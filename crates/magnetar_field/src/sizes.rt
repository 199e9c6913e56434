// Powers of two, and the larger and the smaller of two sizes.
ghost use Rattle.std.specs.Prelude.{◌≡◌, ◌%◌, ◌^◌, ◌≤◌, min, max};
ghost use Rattle.magnetar_field.specs.Sizes.{log₂, power_of_two};

// The logarithm to the base 2, rounded down; that of 0 is 0. Its bound is for callers that compute with it.
pub fn log2(n: usize) -> usize
    ensures { (result ≡ log₂ n) × (result ≤ 63) }
{
    if n == 0 { 0 } else { n.ilog2() as usize }
}

// Whether n is a power of two.
pub fn is_power_of_two(n: usize) -> bool
    ensures { result ≡ power_of_two n }
{
    n.is_power_of_two()
}

// 2^k modulo 2^64: 0 where k is 64 or more.
pub fn power_of_two(k: usize) -> usize
    ensures { result ≡ 2 ^ k % 2 ^ 64 }
{
    if k < 64 { 1 << k } else { 0 }
}

// The larger of two sizes.
pub fn larger(a: usize, b: usize) -> usize
    ensures { result ≡ max a b }
{
    a.max(b)
}

// The smaller of two sizes.
pub fn least(a: usize, b: usize) -> usize
    ensures { (result ≡ min a b) × (result ≤ b) }
{
    a.min(b)
}
