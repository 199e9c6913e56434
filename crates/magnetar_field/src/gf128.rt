// K = GF(2)[x] / (x^128 + x^7 + x^2 + x + 1). An element is two words, the low one first: bit i of the 128 is the
// coefficient of x^i.
//
// The product takes four bits of each word of one factor at a time through the sixteen multiples of the other
// factor, and reduces once, at the end.
ghost use Rattle.std.specs.Prelude.{◌≡◌, ◌+◌, ◌*◌, ◌/◌, ◌%◌, ◌^◌, ◌<◌, length, ◌==◌, nat_lt};
ghost use Rattle.magnetar_field.specs.Gf128.{value, ◌⊕◌, ◌⊗◌, times_x, power, inverse};
ghost use Rattle.magnetar_field.specs.Residue.{wide, residue, Multiples, Combined};

use std::ops::Add;

#[derive(Clone, Copy, Debug, PartialEq, Eq)]
pub struct Gf128 {
    pub lo: u64,
    pub hi: u64,
}

pub const ZERO: Gf128 = Gf128 { lo: 0, hi: 0 };

pub const ONE: Gf128 = Gf128 { lo: 1, hi: 0 };

// The sum: XOR.
pub fn add(a: Gf128, b: Gf128) -> Gf128
    ensures { value result ≡ value a ⊕ value b }
{
    Gf128 {
        lo: a.lo ^ b.lo,
        hi: a.hi ^ b.hi,
    }
}

impl Add for Gf128 {
    ghost use Rattle.magnetar_field.specs.Gf128.{value, ◌⊕◌};

    type Output = Gf128;

    ghost add_gives = { λ a b sum. value sum ≡ value a ⊕ value b };

    fn add(self, other: Gf128) -> Gf128 {
        add(self, other)
    }
}

// r times the bit 0 of b, by a mask: the product where b is 0 or 1.
pub fn mul_bit(r: Gf128, b: Gf128) -> Gf128
    ensures { value result ≡ value b % 2 * value r }
{
    let mask = (b.lo % 2).wrapping_neg();
    Gf128 {
        lo: r.lo & mask,
        hi: r.hi & mask,
    }
}

// Whether two elements are equal.
pub fn equal(a: Gf128, b: Gf128) -> bool
    ensures { result ≡ (value a == value b) }
{
    a == b
}

// Whether the element is 0 or 1.
pub fn is_bit(a: Gf128) -> bool
    ensures { result ≡ nat_lt (value a) 2 }
{
    a.hi == 0 && a.lo < 2
}

// The product.
pub fn mul(a: Gf128, b: Gf128) -> Gf128
    ensures { value result ≡ value a ⊗ value b }
{
    reduce256(clmul128(a, b))
}

// The square.
pub fn square(a: Gf128) -> Gf128
    ensures { value result ≡ value a ⊗ value a }
{
    mul(a, a)
}

// The inverse, a to the power 2^128 - 2; that of 0 is 0.
pub fn inv(a: Gf128) -> Gf128
    ensures { value result ≡ inverse (value a) }
{
    pow(a, 0xffff_ffff_ffff_fffe, 0xffff_ffff_ffff_ffff)
}

// a to the power k, of which the words are k_lo and k_hi.
pub fn pow(a: Gf128, k_lo: u64, k_hi: u64) -> Gf128
    ensures { value result ≡ power (value a) (k_hi * 2 ^ 64 + k_lo) }
{
    let start = Powers {
        result: ONE,
        base: a,
    };
    pow_word(pow_word(start, k_lo), k_hi).result
}

// ---- The power's parts.

// A power so far, and the base of the powers to come.
#[derive(Clone, Copy)]
struct Powers {
    result: Gf128,
    base: Gf128,
}

// One bit of an exponent.
fn pow_bit(p: Powers, bit: u64) -> Powers
    requires { (bit < 2) × (value p.result < 2 ^ 128) × (value p.base < 2 ^ 128) }
    ensures result { value result.result ≡ value p.result ⊗ power (value p.base) bit }
    ensures base { value result.base ≡ value p.base ⊗ value p.base }
{
    Powers {
        result: if bit == 0 {
            p.result
        } else {
            mul(p.result, p.base)
        },
        base: square(p.base),
    }
}

// The 64 bits of a word of an exponent, the lowest first.
fn pow_word(p: Powers, k: u64) -> Powers
    requires { (value p.result < 2 ^ 128) × (value p.base < 2 ^ 128) }
    ensures result { value result.result ≡ value p.result ⊗ power (value p.base) k }
    ensures base { value result.base ≡ power (value p.base) (2 ^ 64) }
{
    let mut q = p;
    let mut rest = k;
    for _ in 0..u64::BITS {
        q = pow_bit(q, rest % 2);
        rest /= 2;
    }
    q
}

// ---- The product's parts.

// A polynomial of degree below 256, as four words, the lowest first.
#[derive(Clone, Copy)]
struct Wide {
    w0: u64,
    w1: u64,
    w2: u64,
    w3: u64,
}

// h times x^k, without what passes x^127.
fn shl(h: Gf128, k: u32) -> Gf128
    requires { (0 < k) × (k < 64) }
    ensures { value result ≡ value h * 2 ^ k % 2 ^ 128 }
{
    Gf128 {
        lo: h.lo << k,
        hi: (h.hi << k) | (h.lo >> (64 - k)),
    }
}

// a times x.
fn times_x(a: Gf128) -> Gf128
    ensures { value result ≡ times_x (value a) }
{
    let wrapped = Gf128 {
        lo: (a.hi >> 63) * 0x87,
        hi: 0,
    };
    wrapped + shl(a, 1)
}

// The multiples 2k and 2k + 1 of a, where those below 2k are there.
fn multiples_step(lo: &mut [u64; 16], hi: &mut [u64; 16], k: usize, a: Gf128)
    requires { (0 < k) × (k < 8) × Multiples (value a) lo.old hi.old (2 * k) }
    ensures { Multiples (value a) lo.new hi.new (2 * (k + 1)) }
{
    let twice = times_x(Gf128 {
        lo: lo[k],
        hi: hi[k],
    });
    let more = twice + a;
    lo[2 * k] = twice.lo;
    hi[2 * k] = twice.hi;
    lo[2 * k + 1] = more.lo;
    hi[2 * k + 1] = more.hi;
}

// The sixteen multiples of a by the polynomials of degree below 4.
fn multiples_of(lo: &mut [u64; 16], hi: &mut [u64; 16], a: Gf128)
    requires { (length lo.old ≡ 16) × (length hi.old ≡ 16) }
    ensures { Multiples (value a) lo.new hi.new 16 }
{
    lo[0] = 0;
    hi[0] = 0;
    lo[1] = a.lo;
    hi[1] = a.hi;
    for k in 1..8 {
        multiples_step(lo, hi, k, a);
    }
}

// Four bits of a word, from bit 4i on.
fn nibble(w: u64, i: u32) -> usize
    requires { i < 16 }
    ensures { result ≡ w / 2 ^ (4 * i) % 16 }
{
    (w >> (4 * i)) as usize % 16
}

// acc times x^4, plus x, plus y times x^64.
fn comb(acc: Wide, x: Gf128, y: Gf128) -> Wide
    requires { acc.w3 < 2 ^ 60 }
    ensures { Combined acc (value x) (value y) result }
{
    Wide {
        w0: (acc.w0 << 4) ^ x.lo,
        w1: ((acc.w1 << 4) | (acc.w0 >> 60)) ^ x.hi ^ y.lo,
        w2: ((acc.w2 << 4) | (acc.w1 >> 60)) ^ y.hi,
        w3: (acc.w3 << 4) | (acc.w2 >> 60),
    }
}

// A polynomial that is congruent to the product of a and b.
fn clmul128(a: Gf128, b: Gf128) -> Wide
    ensures { residue (wide result) ≡ value a ⊗ value b }
{
    let mut lo = [0u64; 16];
    let mut hi = [0u64; 16];
    multiples_of(&mut lo, &mut hi, a);
    let mut acc = Wide {
        w0: 0,
        w1: 0,
        w2: 0,
        w3: 0,
    };
    for i in (0..16).rev() {
        let j = nibble(b.lo, i);
        let k = nibble(b.hi, i);
        let x = Gf128 {
            lo: lo[j],
            hi: hi[j],
        };
        let y = Gf128 {
            lo: lo[k],
            hi: hi[k],
        };
        acc = comb(acc, x, y);
    }
    acc
}

// The remainder modulo x^128 + x^7 + x^2 + x + 1.
fn reduce256(t: Wide) -> Gf128
    ensures { value result ≡ residue (wide t) }
{
    let h = Gf128 { lo: t.w2, hi: t.w3 };
    let low = Gf128 { lo: t.w0, hi: t.w1 };
    let folded = (shl(h, 7) + shl(h, 2)) + (shl(h, 1) + h);
    let q = (t.w3 >> 57) ^ (t.w3 >> 62) ^ (t.w3 >> 63);
    let rest = Gf128 {
        lo: (q << 7) ^ (q << 2) ^ (q << 1) ^ q,
        hi: 0,
    };
    low + (folded + rest)
}
