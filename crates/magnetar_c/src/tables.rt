// Elements and tables of elements.
ghost use Rattle.std.specs.Prelude.{◌≡◌, length};
ghost use Rattle.magnetar_field.specs.Gf128.{value, ◌⊗◌};
ghost use Rattle.magnetar_field.specs.Words.{elements};
ghost use Rattle.magnetar_multilinear.specs.Multilinear.{mle};
ghost use Rattle.magnetar_multilinear.specs.Entries.{answered, eq_refusal, eq_out, bind_refusal, bind_out, mle_refusal, mle_scratch};
ghost use Rattle.magnetar_sumcheck_prover.specs.Entries.{drop_refusal, drop_out};
ghost use Rattle.magnetar_c.specs.CStructs as across;

use crate::across;
use crate::across::{MagnetarElement, MagnetarValue};
use magnetar_batch::fold;
use magnetar_field::gf128;
use magnetar_multilinear::eq::EqBits;
use magnetar_multilinear::multilinear;
use magnetar_sumcheck_prover::public;

// The product of two elements.
#[unsafe(no_mangle)]
pub extern "C" fn magnetar_mul(a: MagnetarElement, b: MagnetarElement) -> MagnetarElement
    ensures { value (across.element result) ≡ value (across.element a) ⊗ value (across.element b) }
{
    across::element_out(gf128::mul(across::element_in(a), across::element_in(b)))
}

// The table of eq at the point, from start.
#[unsafe(no_mangle)]
pub extern "C" fn magnetar_eq_build(point: &[u64], start: MagnetarElement, out: &mut [u64]) -> u32
    ensures refusal { result ≡ eq_refusal point.now out.old }
    ensures table { out.new ≡ eq_out point.now (value (across.element start)) out.old }
{
    across::number_out(EqBits::build(point, across::element_in(start), out))
}

// Variable var of the table is bound to r.
#[unsafe(no_mangle)]
pub extern "C" fn magnetar_bind_var(table: &mut [u64], var: usize, r: MagnetarElement) -> u32
    ensures refusal { result ≡ bind_refusal table.old var }
    ensures bound { table.new ≡ bind_out table.old var (value (across.element r)) }
{
    across::number_out(multilinear::bind_var(table, var, across::element_in(r)))
}

// The eq table without variable v.
#[unsafe(no_mangle)]
pub extern "C" fn magnetar_drop_var(table: &mut [u64], v: usize) -> u32
    ensures refusal { result ≡ drop_refusal (length table.old) v }
    ensures dropped { table.new ≡ drop_out table.old v }
{
    across::number_out(public::drop_var(table, v))
}

// The value at the point of the multilinear polynomial with the given table of values.
#[unsafe(no_mangle)]
pub extern "C" fn magnetar_eval_mle(
    values: &[u64],
    point: &[u64],
    scratch: &mut [u64],
) -> MagnetarValue
    ensures value { result ≡ across.evaluated (answered
        (mle_refusal values.now point.now scratch.old)
        (mle (elements values.now) (elements point.now))) }
    ensures cleared { scratch.new ≡ mle_scratch values.now point.now scratch.old }
{
    across::value_out(multilinear::eval_mle(values, point, scratch))
}

// The fold of a vector with an element for each login.
#[unsafe(no_mangle)]
pub extern "C" fn magnetar_fold_instances(
    vector: &[u64],
    point: &[u64],
    scratch: &mut [u64],
) -> MagnetarValue
    ensures value { result ≡ across.evaluated (answered
        (mle_refusal vector.now point.now scratch.old)
        (mle (elements vector.now) (elements point.now))) }
    ensures cleared { scratch.new ≡ mle_scratch vector.now point.now scratch.old }
{
    across::value_out(fold::fold_instances(vector, point, scratch))
}
