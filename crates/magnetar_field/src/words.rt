// Slices of words that hold elements: word 2i is the low half of element i, and word 2i + 1 its high half.
ghost use Rattle.std.specs.Prelude.{◌≡◌, length, replicate, slice_index};
ghost use Rattle.magnetar_field.specs.Gf128.{value};
ghost use Rattle.magnetar_field.specs.Words.{elements, stored, overlaid};

use crate::gf128::{Gf128, ZERO};

// The element at index i, or 0 where there is none.
pub fn get(s: &[u64], i: usize) -> Gf128
    ensures { value result ≡ slice_index (elements s.now) i }
{
    if i < s.len() / 2 {
        let k = 2 * i;
        Gf128 {
            lo: s[k],
            hi: s[k + 1],
        }
    } else {
        ZERO
    }
}

// Stores the element e at index i, where there is room for it.
pub fn put(s: &mut [u64], i: usize, e: Gf128)
    ensures { s.new ≡ stored s.old i (value e) }
{
    if i < s.len() / 2 {
        let k = 2 * i;
        s[k] = e.lo;
        s[k + 1] = e.hi;
    }
}

// Sets every word to 0.
pub fn clear(s: &mut [u64])
    ensures { s.new ≡ replicate (length s.old) 0 }
{
    s.fill(0);
}

// Copies the words of src over those of dst, as many as both have.
pub fn copy(src: &[u64], dst: &mut [u64])
    ensures { dst.new ≡ overlaid src.now dst.old }
{
    // Word by word: `copy_from_slice` would have the library for C need memmove.
    let n = src.len().min(dst.len());
    for i in 0..n {
        dst[i] = src[i];
    }
}
