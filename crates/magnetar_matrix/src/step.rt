// What one entry adds to a table, and the bit of a login that it meets.
ghost use Rattle.std.specs.Prelude.{◌≡◌, ◌*◌, ◌%◌, ◌^◌, ◌<◌};
ghost use Rattle.magnetar_field.specs.Gf128.{value, ◌⊗◌};
ghost use Rattle.magnetar_matrix.specs.Packed.{packed_bit};
ghost use Rattle.magnetar_matrix.specs.Table.{added_in, added_at};

use magnetar_field::gf128::Gf128;
use magnetar_field::{gf128, words};

// Adds e to the element at index k, where there is one.
#[tactic(auto, unfolding(crate::specs::Table::added_in))]
pub fn add_at(out: &mut [u64], k: usize, e: Gf128)
    ensures { out.new ≡ added_in out.old k (value e) }
{
    words::put(out, k, words::get(out, k) + e);
}

// Adds the bits of a word to the word at index k, where there is one.
pub fn add_word(out: &mut [u64], k: usize, word: u64)
    ensures { out.new ≡ added_at out.old k word }
{
    if k < out.len() {
        out[k] ^= word;
    }
}

// A word moved up by t bits, without those past its end.
#[tactic(auto, using(crate::proofs::Digits::shift_past))]
pub fn shifted(word: u64, t: usize) -> u64
    ensures { result ≡ word * 2 ^ t % 2 ^ 64 }
{
    if t < 64 { word << t } else { 0 }
}

// v times e, by a mask where v is 0 or 1.
pub fn scale(v: Gf128, e: Gf128) -> Gf128
    ensures { value result ≡ value v ⊗ value e }
{
    if gf128::is_bit(v) {
        gf128::mul_bit(e, v)
    } else {
        gf128::mul(v, e)
    }
}

// The bit at column c of a login's words, 0 where they have no such column.
pub fn bit_at(login: &[u64], c: usize) -> u64
    ensures value { result ≡ packed_bit login.now c }
    ensures upper_bound { result < 2 }
{
    let k = c / 64;
    if k < login.len() {
        (login[k] >> (c % 64)) % 2
    } else {
        0
    }
}
