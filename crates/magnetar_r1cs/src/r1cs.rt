// Sparse matrices: their products with a vector and with the logins of a batch, and their extensions.
ghost use Rattle.std.specs.Prelude.{◌≡◌, true, ◌+◌, ◌*◌, ◌/◌, ◌%◌, ◌≤◌, ◌++◌, leb, length, take, drop, replicate};
ghost use Rattle.magnetar_field.specs.Gf128.{value};
ghost use Rattle.magnetar_field.specs.Number.{number_of};
ghost use Rattle.magnetar_field.specs.Tabulate.{tabulate};
ghost use Rattle.magnetar_field.specs.Words.{elements, words};
ghost use Rattle.magnetar_layout.specs.Every.{every};
ghost use Rattle.magnetar_layout.specs.Tests.{first_refusal, batch_tests, counted, placed, size_tests, packed_tests_of, public_tests_of, rows_tests};
ghost use Rattle.magnetar_layout.specs.Tests.{matrix_column_tests};
ghost use Rattle.magnetar_multilinear.specs.EqTable.{eq_table};
ghost use Rattle.magnetar_multilinear.specs.Entries.{answer};
ghost use Rattle.magnetar_matrix.specs.Matrix.{sum_over, row_total, share, binary, bit_up_to, bit_valued};
ghost use Rattle.magnetar_matrix.specs.Lent.{matrix_of};
ghost use Rattle.magnetar_matrix.specs.Numbers.{entries_by, lent_by, exchanged};
ghost use Rattle.magnetar_matrix.specs.Packed.{login_words, public_words};
ghost use Rattle.magnetar_matrix.specs.Sum.{blocks};
ghost use Rattle.magnetar_matrix.specs.Table.{raised, public_share, bit_share, cross, login_block, public_rows, laid_behind, Point};
ghost use Rattle.magnetar_r1cs.specs.Entries.{apply_refusal, apply_out, table_refusal, table_out, table_scratch, at_answer, at_scratch, flagged};
ghost use Rattle.magnetar_r1cs.specs.Entries.{flagged_of, binary_refusal, packed_refusal, packed_out, logins_tests, range_refusal, range_matrix};
ghost use Rattle.magnetar_r1cs.specs.Entries.{range_out, matrix_tests, mask_tests_of, masks_refusal, masks_out};
ghost use Rattle.magnetar_r1cs.specs.Inside.{inside};

use crate::{lent, masks, walk};
use magnetar_field::gf128::{Gf128, ONE};
use magnetar_field::refusal::{Refusal, require};
use magnetar_field::{sizes, words};
use magnetar_layout::limits::{MOST_BATCH_ROWS, MOST_LOGINS, MOST_ROWS, MOST_WITNESS};
use magnetar_layout::tests;
use magnetar_matrix::columns;
use magnetar_matrix::entries::{Entries, Exchanged, Part};
use magnetar_multilinear::eq::EqBits;

// Sets out to the product of the entries with the factors.
fn product<E: Entries>(es: &E, factors: &[u64], out: &mut [u64])
    requires { length out.old % 2 ≡ 0 }
    ensures { out.new ≡ words (tabulate (row_total (share (elements factors.now)) (entries_by (E.numbers es.now))) (length out.old / 2)) }
{
    words::clear(out);
    walk::add_product(es, factors, out);
}

// The product with the vector z. 1: no such columns; 4: no such rows; 6: over 1,048,576 entries, or lists of unequal length; 7: an
// entry outside; 11: z is not of the columns' length; 15: too little room.
#[tactic(auto, using(magnetar_layout::proofs::Passing::passing), unfolding(crate::specs::Entries::apply_refusal, magnetar_layout::specs::Tests::or_refuse))]
pub fn apply<E: Entries>(
    rows: usize,
    cols: usize,
    es: &E,
    z: &[u64],
    out: &mut [u64],
) -> Result<(), Refusal>
    ensures answer { number_of result ≡ apply_refusal (lent_by rows cols (E.numbers es.now)) z.now out.old }
    ensures product { out.new ≡ apply_out (lent_by rows cols (E.numbers es.now)) z.now out.old }
{
    lent::lone(rows, cols, es)?;
    require(z.len() == 2 * cols, Refusal::Length)?;
    let end = 2 * rows;
    require(end <= out.len(), Refusal::Room)?;
    product(es, z, &mut out[..end]);
    Ok(())
}

// The table of the extension at the row point; s is room for the eq table, and is left 0.
fn table_in<E: Entries>(es: &E, point: &[u64], out: &mut [u64], s: &mut [u64])
    requires out_len { length out.old % 2 ≡ 0 }
    requires point { Point point.now s.old }
    ensures out_after { out.new ≡ words (tabulate (row_total (share (eq_table (elements point.now))) (entries_by (exchanged (E.numbers es.now))))
        (length out.old / 2)) }
    ensures s_after { s.new ≡ replicate (length s.old) 0 }
{
    let _done = EqBits::build(point, ONE, s);
    product(&Exchanged { entries: es }, s, out);
    words::clear(s);
}

// The extension at the row point and every column. 1, 4, 6, 7 as for `apply`; 11: the point is not of the rows' length;
// 15: too little room.
#[tactic(auto, using(magnetar_layout::proofs::Passing::passing), unfolding(crate::specs::Entries::table_refusal, magnetar_layout::specs::Tests::or_refuse))]
pub fn eval_mle_table<E: Entries>(
    rows: usize,
    cols: usize,
    es: &E,
    point: &[u64],
    out: &mut [u64],
    scratch: &mut [u64],
) -> Result<(), Refusal>
    ensures answer { number_of result ≡ table_refusal (lent_by rows cols (E.numbers es.now)) point.now out.old scratch.old }
    ensures table { out.new ≡ table_out (lent_by rows cols (E.numbers es.now)) point.now out.old scratch.old }
    ensures cleared { scratch.new ≡ table_scratch (lent_by rows cols (E.numbers es.now)) point.now out.old scratch.old }
{
    lent::lone(rows, cols, es)?;
    require(point.len() == 2 * sizes::log2(rows), Refusal::Length)?;
    let end = 2 * cols;
    let room = 2 * rows;
    require(end <= out.len() && room <= scratch.len(), Refusal::Room)?;
    table_in(es, point, &mut out[..end], &mut scratch[..room]);
    Ok(())
}

// The sum over the entries at both points; s is room for the two eq tables, the first of n elements, and is left 0.
fn sum_in<E: Entries>(es: &E, r: &[u64], c: &[u64], n: usize, s: &mut [u64]) -> Gf128
    requires n_bound { (n ≤ 65536) × (every (inside 65536 65536) (entries_by (E.numbers es.now)) ≡ true) × (2 * n ≤ length s.old) }
    requires point { Point r.now (take (2 * n) s.old) }
    requires point_2 { Point c.now (drop (2 * n) s.old) }
    ensures result_value { value result ≡ sum_over (cross (eq_table (elements r.now) ++ eq_table (elements c.now)) n) (entries_by (E.numbers es.now)) }
    ensures s_after { s.new ≡ replicate (length s.old) 0 }
{
    let k = 2 * n;
    let _rows = EqBits::build(r, ONE, &mut s[..k]);
    let _cols = EqBits::build(c, ONE, &mut s[k..]);
    let v = walk::sum_products(es, s, n);
    words::clear(s);
    v
}

// The extension at the row point and the column point. 1, 4, 6, 7 as for `apply`; 11: a point is not of the wanted length;
// 15: too little room.
#[tactic(auto, using(magnetar_layout::proofs::Passing::passing), unfolding(crate::specs::Entries::at_refusal, magnetar_layout::specs::Tests::or_refuse))]
pub fn eval_mle_at<E: Entries>(
    rows: usize,
    cols: usize,
    es: &E,
    r: &[u64],
    c: &[u64],
    scratch: &mut [u64],
) -> Result<Gf128, Refusal>
    ensures value { answer result ≡ at_answer (lent_by rows cols (E.numbers es.now)) r.now c.now scratch.old }
    ensures cleared { scratch.new ≡ at_scratch (lent_by rows cols (E.numbers es.now)) r.now c.now scratch.old }
{
    lent::lone(rows, cols, es)?;
    require(r.len() == 2 * sizes::log2(rows), Refusal::Length)?;
    require(c.len() == 2 * sizes::log2(cols), Refusal::Length)?;
    let room = 2 * (rows + cols);
    require(room <= scratch.len(), Refusal::Room)?;
    Ok(sum_in(es, r, c, rows, &mut scratch[..room]))
}

// Every value is 0 or 1. Refused with 1, 4, 6 and 7 as `apply` is.
#[tactic(auto, using(magnetar_layout::proofs::Passing::passing), unfolding(crate::specs::Entries::binary_refusal))]
pub fn is_binary<E: Entries>(rows: usize, cols: usize, es: &E) -> Result<bool, Refusal>
    ensures { flagged result ≡ flagged_of (binary_refusal (lent_by rows cols (E.numbers es.now))) (binary (matrix_of (lent_by rows cols (E.numbers es.now)))) }
{
    lent::lone(rows, cols, es)?;
    Ok(walk::all_bits(es))
}

// The part of a login's product that comes from its public columns x.
fn public_part<E: Entries>(es: &E, w: usize, x: &[u64], out: &mut [u64])
    requires { length out.old % 2 ≡ 0 }
    ensures { out.new ≡ words (tabulate (row_total (public_share w (elements x.now)) (entries_by (E.numbers es.now))) (length out.old / 2)) }
{
    words::clear(out);
    walk::add_public(es, w, x, out);
}

// Adds the part of the product that comes from a login's bits.
fn bit_part<E: Entries>(es: &E, w: usize, login: &[u64], out: &mut [u64])
    requires { length out.old % 2 ≡ 0 }
    ensures { out.new ≡ words (raised (row_total (bit_share w login.now) (entries_by (E.numbers es.now))) (elements out.old)) }
{
    walk::add_bits(es, w, login, out);
}

// The next login's public part, behind the first n elements, where there is a next login: these hold the public part of a login with the
// first l words of x. They are carried on where the matrix has no column past w, or where the next login's l words are the same.
fn next_public<E: Entries>(
    es: &E,
    w: usize,
    x: &[u64],
    l: usize,
    n: usize,
    within: bool,
    out: &mut [u64],
)
    requires within_value { within ≡ every (λ e. leb e.col w) (entries_by (E.numbers es.now)) }
    requires n_bound { (n ≤ 65536) × (l ≤ 65536) × (2 * n ≤ length out.old) × (4 * n ≤ length out.old → 2 * l ≤ length x.now) }
    requires out_value { take (2 * n) out.old ≡ words (public_rows w (elements (take l x.now)) (entries_by (E.numbers es.now)) n) }
    ensures { out.new ≡ take (2 * n) out.old
        ++ laid_behind (2 * n) (words (public_rows w (elements (take l (drop l x.now))) (entries_by (E.numbers es.now)) n)) out.old }
{
    let m = 2 * n;
    let e = 4 * n;
    if out.len() < e {
        return;
    }
    if within || columns::repeats(x, l) {
        out.copy_within(..m, m);
        return;
    }
    let f = 2 * l;
    public_part(es, w, &x[l..f], &mut out[m..e]);
}

// One login's product, of n rows: the first n elements hold its public part. The next login's is laid behind them before the part of the
// login's bits is added.
fn login_product<E: Entries>(
    es: &E,
    w: usize,
    login: &[u64],
    x: &[u64],
    l: usize,
    n: usize,
    within: bool,
    out: &mut [u64],
)
    requires within_value { within ≡ every (λ e. leb e.col w) (entries_by (E.numbers es.now)) }
    requires n_bound { (n ≤ 65536) × (l ≤ 65536) × (2 * n ≤ length out.old) × (4 * n ≤ length out.old → 2 * l ≤ length x.now) }
    requires out_value { take (2 * n) out.old ≡ words (public_rows w (elements (take l x.now)) (entries_by (E.numbers es.now)) n) }
    ensures { out.new ≡ words (raised (row_total (bit_share w login.now) (entries_by (E.numbers es.now))) (elements (take (2 * n) out.old)))
        ++ laid_behind (2 * n) (words (public_rows w (elements (take l (drop l x.now))) (entries_by (E.numbers es.now)) n)) out.old }
{
    next_public(es, w, x, l, n, within, out);
    let m = 2 * n;
    bit_part(es, w, login, &mut out[..m]);
}

// How many words a login of w columns has.
#[tactic(auto, unfolding(magnetar_layout::specs::Login::login_words))]
pub fn login_words(w: usize) -> usize
    ensures { result ≡ login_words w }
{
    2 * w.div_ceil(128)
}

// The products of the q logins, one behind the other, n rows each.
fn products<E: Entries>(
    es: &E,
    packed: &[u64],
    x: &[u64],
    q: usize,
    w: usize,
    n: usize,
    out: &mut [u64],
)
    requires le_w { (1 ≤ w) × (w ≤ 32768) × (1 ≤ q) × (q ≤ 4096) × (1 ≤ n) × (n ≤ 65536) }
    requires packed_len { (length packed.now ≡ q * login_words w) × (length x.now ≡ q * public_words w) × (length out.old ≡ q * (2 * n)) }
    ensures { out.new ≡ words (blocks (login_block w x.now packed.now (entries_by (E.numbers es.now)) n) q) }
{
    let k = login_words(w);
    let l = 2 * w - 2;
    let m = 2 * n;
    let within = walk::all_columns_up_to(es, w);
    public_part(es, w, &x[..l], &mut out[..m]);
    for u in 0..q {
        let a = u * k;
        let b = a + k;
        let c = u * l;
        let d = u * m;
        login_product(es, w, &packed[a..b], &x[c..], l, n, within, &mut out[d..]);
    }
}

// 1 of q logins of w columns.
#[tactic(auto, using(magnetar_layout::proofs::Passing::passing), unfolding(magnetar_layout::specs::Tests::or_refuse))]
fn size_refusal(q: usize, w: usize) -> Result<(), Refusal>
    ensures { number_of result ≡ first_refusal 0 (size_tests (2 * w) q) }
{
    require(tests::is_size(1, MOST_WITNESS, w), Refusal::Size)?;
    require(tests::is_size(1, MOST_LOGINS, q), Refusal::Size)
}

// 2 of so many packed words.
#[tactic(auto, using(magnetar_layout::proofs::Passing::passing, crate::proofs::Lone::words_fit), unfolding(magnetar_layout::specs::Tests::or_refuse))]
fn packed_refusal(packed: usize, q: usize, w: usize) -> Result<(), Refusal>
    requires { (w ≤ 32768) × (q ≤ 4096) }
    ensures { number_of result ≡ first_refusal 0 (packed_tests_of w q packed) }
{
    require(packed == q * login_words(w), Refusal::PackedWords)
}

// 3 of so many public words.
#[tactic(auto, using(magnetar_layout::proofs::Passing::passing, crate::proofs::Lone::public_fit), unfolding(magnetar_layout::specs::Tests::or_refuse))]
fn public_refusal(x: usize, q: usize, w: usize) -> Result<(), Refusal>
    requires { (1 ≤ w) × (w ≤ 32768) × (q ≤ 4096) }
    ensures { number_of result ≡ first_refusal 0 (public_tests_of (2 * w) q x) }
{
    require(x == q * (2 * w - 2), Refusal::PublicWords)
}

// 4 of n rows for q logins.
#[tactic(auto, using(magnetar_layout::proofs::Passing::passing, crate::proofs::Lone::rows_fit), unfolding(magnetar_layout::specs::Tests::or_refuse))]
fn rows_refusal(q: usize, n: usize) -> Result<(), Refusal>
    requires { q ≤ 4096 }
    ensures { number_of result ≡ first_refusal 0 (rows_tests q n) }
{
    require(tests::is_size(1, MOST_ROWS, n), Refusal::Rows)?;
    require(q * n <= MOST_BATCH_ROWS, Refusal::Rows)
}

// 1, 2, 3 and 4 of n rows for q logins of w columns, with so many packed and public words.
pub fn logins_refusal(packed: usize, x: usize, q: usize, w: usize, n: usize) -> Result<(), Refusal>
    ensures { number_of result ≡ first_refusal 0 (logins_tests packed x q w n) }
{
    size_refusal(q, w)?;
    packed_refusal(packed, q, w)?;
    public_refusal(x, q, w)?;
    rows_refusal(q, n)
}

// 5, 6 and 7 of a matrix for logins of w columns.
fn shape_refusal<E: Entries>(rows: usize, cols: usize, es: &E, w: usize) -> Result<(), Refusal>
    requires { w ≤ 32768 }
    ensures { let a = lent_by rows cols (E.numbers es.now) in number_of result ≡ first_refusal 0 (matrix_column_tests (2 * w) cols ++ (counted a ++ placed a)) }
{
    require(cols == 2 * w, Refusal::Columns)?;
    lent::entries(rows, cols, es)
}

// 1, 2, 3, 4, 5, 6 and 7 of a matrix for q logins of w columns.
fn batch_refusal<E: Entries>(
    rows: usize,
    cols: usize,
    es: &E,
    packed: &[u64],
    x: &[u64],
    q: usize,
    w: usize,
) -> Result<(), Refusal>
    ensures { number_of result ≡ first_refusal 0 (batch_tests (lent_by rows cols (E.numbers es.now)) packed.now x.now q w) }
{
    logins_refusal(packed.len(), x.len(), q, w, rows)?;
    shape_refusal(rows, cols, es, w)
}

// The products of a batch's logins, one behind the other; yes where all of them are 0 or 1 because every value is and no
// column exceeds w. 1: no such columns or logins; 2: not as many packed words; 3: not as many public words; 4: no such rows;
// 5: other columns; 6, 7 as for `apply`; 15: too little room.
#[tactic(auto, using(magnetar_layout::proofs::Passing::passing), unfolding(crate::specs::Entries::packed_refusal, magnetar_layout::specs::Tests::or_refuse))]
pub fn apply_simd_packed<E: Entries>(
    rows: usize,
    cols: usize,
    es: &E,
    packed: &[u64],
    x: &[u64],
    q: usize,
    w: usize,
    out: &mut [u64],
) -> Result<bool, Refusal>
    ensures flag { flagged result ≡ flagged_of (packed_refusal (lent_by rows cols (E.numbers es.now)) packed.now x.now q w out.old)
        (bit_valued w (matrix_of (lent_by rows cols (E.numbers es.now)))) }
    ensures products { out.new ≡ packed_out (lent_by rows cols (E.numbers es.now)) packed.now x.now q w out.old }
{
    batch_refusal(rows, cols, es, packed, x, q, w)?;
    let end = q * (2 * rows);
    require(end <= out.len(), Refusal::Room)?;
    products(es, packed, x, q, w, rows, &mut out[..end]);
    Ok(walk::all_bits_up_to(es, w))
}

// The products of a batch's logins with a matrix of n rows, one behind the other; its entries are those from a to b. 1 to 4 as for
// `apply_simd_packed`; 15: too little room.
#[tactic(auto, using(magnetar_layout::proofs::Passing::passing), unfolding(crate::specs::Entries::range_refusal, magnetar_layout::specs::Tests::or_refuse))]
pub fn products_in<E: Entries>(
    es: &E,
    a: usize,
    b: usize,
    packed: &[u64],
    x: &[u64],
    q: usize,
    w: usize,
    n: usize,
    out: &mut [u64],
) -> Result<(), Refusal>
    ensures answer { number_of result ≡ range_refusal n packed.now x.now q w out.old }
    ensures products { out.new ≡ range_out (range_matrix n (2 * w) a b (E.numbers es.now)) packed.now x.now q w out.old }
{
    logins_refusal(packed.len(), x.len(), q, w, n)?;
    let end = q * (2 * n);
    require(end <= out.len(), Refusal::Room)?;
    let part = Part {
        entries: es,
        from: a,
        to: b,
    };
    products(&part, packed, x, q, w, n, &mut out[..end]);
    Ok(())
}

// 1, 2, 4, 5, 6 and 7 of a matrix for q logins of w columns.
fn matrix_refusal<E: Entries>(
    rows: usize,
    cols: usize,
    es: &E,
    packed: &[u64],
    q: usize,
    w: usize,
) -> Result<(), Refusal>
    ensures { number_of result ≡ first_refusal 0 (matrix_tests (lent_by rows cols (E.numbers es.now)) packed.now q w) }
{
    size_refusal(q, w)?;
    packed_refusal(packed.len(), q, w)?;
    rows_refusal(q, rows)?;
    shape_refusal(rows, cols, es, w)
}

// 12 and 13 of the masks of 2^v logins.
#[tactic(auto, using(magnetar_layout::proofs::Passing::passing, std::proofs::lemmas::Bool::Decides::nat_tests), unfolding(magnetar_layout::specs::Tests::or_refuse))]
fn bits_refusal<E: Entries>(es: &E, q: usize, w: usize, v: usize) -> Result<(), Refusal>
    ensures { number_of result ≡ first_refusal 0 (mask_tests_of (every (bit_up_to w) (entries_by (E.numbers es.now))) q v) }
{
    require(walk::all_bits_up_to(es, w), Refusal::NotBits)?;
    require(v <= sizes::log2(q), Refusal::MaskBits)?;
    require(v <= 6, Refusal::MaskBits)
}

// The products of a batch's logins where all of them are 0 or 1, as masks: bit t of word low * rows + r is that of login
// t * 2^(s - v) + low at row r, q being 2^s. 1, 2, 4, 5, 6, 7 as for `apply_simd_packed`; 12: a value exceeds 1 or a column
// exceeds w; 13: v is over s or over 6; 15: too little room.
#[tactic(auto, using(magnetar_layout::proofs::Passing::passing), unfolding(magnetar_layout::specs::Tests::or_refuse))]
pub fn apply_simd_bit_masks<E: Entries>(
    rows: usize,
    cols: usize,
    es: &E,
    packed: &[u64],
    q: usize,
    w: usize,
    v: usize,
    out: &mut [u64],
) -> Result<(), Refusal>
    ensures answer { number_of result ≡ masks_refusal (lent_by rows cols (E.numbers es.now)) packed.now q w v out.old }
    ensures written { out.new ≡ masks_out (lent_by rows cols (E.numbers es.now)) packed.now q w v out.old }
{
    matrix_refusal(rows, cols, es, packed, q, w)?;
    bits_refusal(es, q, w, v)?;
    let d = q >> v;
    let c = 1 << v;
    let end = d * rows;
    require(end <= out.len(), Refusal::Room)?;
    masks::mask_all(es, packed, q, w, d, c, rows, &mut out[..end]);
    Ok(())
}
