// Keccak-f[1600], the permutation of FIPS 202. Lane x, y of the state is entry 5 * y + x.
ghost use Rattle.std.specs.Prelude.{◌≡◌, ◌<◌, ◌%◌, ◌/◌};
ghost use Rattle.magnetar_keccak.specs.State.{complement, ◌⊕◌, ◌·◌, lane};
ghost use Rattle.magnetar_field.specs.Tabulate.{tabulate};
ghost use Rattle.magnetar_keccak.specs.Offsets.{offset};
ghost use Rattle.magnetar_keccak.specs.Rounds.{round_constant};
ghost use Rattle.magnetar_keccak.specs.Keccak as fips;
ghost use Rattle.magnetar_keccak.specs.Planes.{Effects, plane};

// The offsets of rho, modulo 64.
const OFFSETS: [u32; 25] = [
    0, 1, 62, 28, 27, 36, 44, 6, 55, 20, 3, 10, 43, 25, 39, 41, 45, 15, 21, 8, 18, 2, 61, 56, 14,
];

// The constants of the 24 rounds.
const ROUND_CONSTANTS: [u64; 24] = [
    0x0000000000000001,
    0x0000000000008082,
    0x800000000000808a,
    0x8000000080008000,
    0x000000000000808b,
    0x0000000080000001,
    0x8000000080008081,
    0x8000000000008009,
    0x000000000000008a,
    0x0000000000000088,
    0x0000000080008009,
    0x000000008000000a,
    0x000000008000808b,
    0x800000000000008b,
    0x8000000000008089,
    0x8000000000008003,
    0x8000000000008002,
    0x8000000000000080,
    0x000000000000800a,
    0x800000008000000a,
    0x8000000080008081,
    0x8000000000008080,
    0x0000000080000001,
    0x8000000080008008,
];

fn offset_at(i: usize) -> u32
    requires { i < 25 }
    ensures { result ≡ offset (i % 5) (i / 5) % 64 }
{
    OFFSETS[i]
}

fn round_constant(i: usize) -> u64
    requires { i < 24 }
    ensures { result ≡ round_constant i }
{
    ROUND_CONSTANTS[i]
}

// The parity of column x.
fn parity(a: &[u64; 25], x: usize) -> u64
    requires { x < 5 }
    ensures { result ≡ fips.parity a.now x }
{
    a[x] ^ a[5 + x] ^ a[10 + x] ^ a[15 + x] ^ a[20 + x]
}

// What theta adds to column x.
fn effect(a: &[u64; 25], x: usize) -> u64
    requires { x < 5 }
    ensures { result ≡ fips.effect a.now x }
{
    parity(a, (x + 4) % 5) ^ parity(a, (x + 1) % 5).rotate_left(1)
}

fn effects(a: &[u64; 25]) -> [u64; 5]
    ensures { result ≡ tabulate (fips.effect a.now) 5 }
{
    [
        effect(a, 0),
        effect(a, 1),
        effect(a, 2),
        effect(a, 3),
        effect(a, 4),
    ]
}

// The lane at x, y after theta, rho and pi, where d has what theta adds to each column.
fn moved(a: &[u64; 25], d: &[u64; 5], x: usize, y: usize) -> u64
    requires { Effects a.now d.now × (x < 5) × (y < 5) }
    ensures { result ≡ lane (fips.pi (fips.rho (fips.theta a.now))) x y }
{
    let u = (x + 3 * y) % 5;
    let i = 5 * x + u;
    (a[i] ^ d[u]).rotate_left(offset_at(i))
}

// What chi makes of three lanes of a plane that follow each other.
fn chi(u: u64, v: u64, w: u64) -> u64
    ensures { result ≡ u ⊕ complement v · w }
{
    u ^ (!v & w)
}

// The plane y after theta, rho, pi and chi.
fn plane_at(a: &[u64; 25], d: &[u64; 5], y: usize) -> [u64; 5]
    requires { Effects a.now d.now × (y < 5) }
    ensures { result ≡ plane (fips.chi (fips.pi (fips.rho (fips.theta a.now)))) y }
{
    let p = moved(a, d, 0, y);
    let q = moved(a, d, 1, y);
    let r = moved(a, d, 2, y);
    let s = moved(a, d, 3, y);
    let t = moved(a, d, 4, y);
    [
        chi(p, q, r),
        chi(q, r, s),
        chi(r, s, t),
        chi(s, t, p),
        chi(t, p, q),
    ]
}

// Round i. The steps theta to chi go plane by plane. Lane by lane, since `copy_from_slice` of a plane makes a hash a third slower.
fn round(a: [u64; 25], i: usize) -> [u64; 25]
    requires { i < 24 }
    ensures { result ≡ fips.round a i }
{
    let d = effects(&a);
    let mut b = [0u64; 25];
    for y in 0..5 {
        let p = plane_at(&a, &d, y);
        for x in 0..5 {
            b[5 * y + x] = p[x];
        }
    }
    b[0] ^= round_constant(i);
    b
}

// Keccak-f[1600].
pub fn permute(a: [u64; 25]) -> [u64; 25]
    ensures { result ≡ fips.permuted a }
{
    let mut b = a;
    for i in 0..24 {
        // The call's array does not go straight into `b`: the checker has no proof rules for that.
        let c = round(b, i);
        b = c;
    }
    b
}
