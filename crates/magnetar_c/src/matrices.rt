// A matrix alone: its rows and columns, and its entries in four slices.
ghost use Rattle.std.specs.Prelude.{◌≡◌};
ghost use Rattle.magnetar_matrix.specs.Lent.{lent, matrix_of};
ghost use Rattle.magnetar_matrix.specs.Matrix.{binary, bit_valued};
ghost use Rattle.magnetar_r1cs.specs.Entries.{apply_refusal, apply_out, table_refusal, table_out, table_scratch, at_answer, at_scratch, flagged_of, binary_refusal, packed_refusal, packed_out, masks_refusal, masks_out};
ghost use Rattle.magnetar_c.specs.CStructs as across;

use crate::across;
use crate::across::{MagnetarFlag, MagnetarValue};
use magnetar_matrix::entries::Slices;
use magnetar_r1cs::r1cs;

// The product with the vector z.
#[unsafe(no_mangle)]
pub extern "C" fn magnetar_apply(
    rows: usize,
    cols: usize,
    row: &[usize],
    col: &[usize],
    lo: &[u64],
    hi: &[u64],
    z: &[u64],
    out: &mut [u64],
) -> u32
    ensures answer { let A = lent rows cols row.now col.now lo.now hi.now in
        result ≡ apply_refusal A z.now out.old }
    ensures product { let A = lent rows cols row.now col.now lo.now hi.now in
        out.new ≡ apply_out A z.now out.old }
{
    let es = Slices { row, col, lo, hi };
    across::number_out(r1cs::apply(rows, cols, &es, z, out))
}

// The extension at the row point and every column.
#[unsafe(no_mangle)]
pub extern "C" fn magnetar_eval_mle_table(
    rows: usize,
    cols: usize,
    row: &[usize],
    col: &[usize],
    lo: &[u64],
    hi: &[u64],
    point: &[u64],
    out: &mut [u64],
    scratch: &mut [u64],
) -> u32
    ensures answer { let A = lent rows cols row.now col.now lo.now hi.now in
        result ≡ table_refusal A point.now out.old scratch.old }
    ensures table { let A = lent rows cols row.now col.now lo.now hi.now in
        out.new ≡ table_out A point.now out.old scratch.old }
    ensures cleared { let A = lent rows cols row.now col.now lo.now hi.now in
        scratch.new ≡ table_scratch A point.now out.old scratch.old }
{
    let es = Slices { row, col, lo, hi };
    across::number_out(r1cs::eval_mle_table(rows, cols, &es, point, out, scratch))
}

// The extension at the row point and the column point.
#[unsafe(no_mangle)]
pub extern "C" fn magnetar_eval_mle_at(
    rows: usize,
    cols: usize,
    row: &[usize],
    col: &[usize],
    lo: &[u64],
    hi: &[u64],
    r: &[u64],
    c: &[u64],
    scratch: &mut [u64],
) -> MagnetarValue
    ensures value { let A = lent rows cols row.now col.now lo.now hi.now in
        result ≡ across.evaluated (at_answer A r.now c.now scratch.old) }
    ensures cleared { let A = lent rows cols row.now col.now lo.now hi.now in
        scratch.new ≡ at_scratch A r.now c.now scratch.old }
{
    let es = Slices { row, col, lo, hi };
    across::value_out(r1cs::eval_mle_at(rows, cols, &es, r, c, scratch))
}

// Whether every value is 0 or 1.
#[unsafe(no_mangle)]
pub extern "C" fn magnetar_is_binary(
    rows: usize,
    cols: usize,
    row: &[usize],
    col: &[usize],
    lo: &[u64],
    hi: &[u64],
) -> MagnetarFlag
    ensures { let A = lent rows cols row.now col.now lo.now hi.now in
        result ≡ across.flag (flagged_of (binary_refusal A) (binary (matrix_of A))) }
{
    let es = Slices { row, col, lo, hi };
    across::flag_out(r1cs::is_binary(rows, cols, &es))
}

// The products of a batch's logins, one behind the other, and whether all of them are 0 or 1 because every value is and no column exceeds w.
#[unsafe(no_mangle)]
pub extern "C" fn magnetar_apply_simd_packed(
    rows: usize,
    cols: usize,
    row: &[usize],
    col: &[usize],
    lo: &[u64],
    hi: &[u64],
    packed: &[u64],
    x: &[u64],
    q: usize,
    w: usize,
    out: &mut [u64],
) -> MagnetarFlag
    ensures flag { let A = lent rows cols row.now col.now lo.now hi.now in
        result ≡ across.flag (flagged_of (packed_refusal A packed.now x.now q w out.old) (bit_valued w (matrix_of A))) }
    ensures products { let A = lent rows cols row.now col.now lo.now hi.now in
        out.new ≡ packed_out A packed.now x.now q w out.old }
{
    let es = Slices { row, col, lo, hi };
    across::flag_out(r1cs::apply_simd_packed(rows, cols, &es, packed, x, q, w, out))
}

// The products of a batch's logins where all of them are 0 or 1, as masks.
#[unsafe(no_mangle)]
pub extern "C" fn magnetar_apply_simd_bit_masks(
    rows: usize,
    cols: usize,
    row: &[usize],
    col: &[usize],
    lo: &[u64],
    hi: &[u64],
    packed: &[u64],
    q: usize,
    w: usize,
    v: usize,
    out: &mut [u64],
) -> u32
    ensures answer { let A = lent rows cols row.now col.now lo.now hi.now in
        result ≡ masks_refusal A packed.now q w v out.old }
    ensures written { let A = lent rows cols row.now col.now lo.now hi.now in
        out.new ≡ masks_out A packed.now q w v out.old }
{
    let es = Slices { row, col, lo, hi };
    across::number_out(r1cs::apply_simd_bit_masks(rows, cols, &es, packed, q, w, v, out))
}
