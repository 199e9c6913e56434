// The layout of the segments over the witness columns: each segment starts at the next multiple of its length. A layout is
// its w witness columns and the lengths of its segments, in their order.
ghost use Rattle.std.specs.Prelude.{◌≡◌, true, ◌++◌, ◌+◌, ◌*◌, ◌<◌, ◌≤◌, ltb, length, take, drop, get_or};
ghost use Rattle.magnetar_field.specs.Number.{number_of};
ghost use Rattle.magnetar_layout.specs.Every.{every};
ghost use Rattle.magnetar_layout.specs.Layout.{is_length, layout_end, offsets, offset, local_vars, suffix_bits, suffix, LayoutFits};
ghost use Rattle.magnetar_layout.specs.Entries.{layout_refusal, build_refusal, build_out, read, read_of, read_vars, vars_of, segment_part};

use crate::limits::{MOST_SEGMENTS, MOST_WITNESS};
use crate::tests;
use magnetar_field::refusal::{Refusal, require};
use magnetar_field::sizes;

// The segments end past w columns.
fn ends_past(w: usize, lens: &[usize]) -> bool
    requires w_bound { w ≤ 32768 }
    requires lens_value { every (is_length w) lens.now ≡ true }
    ensures { result ≡ ltb w (layout_end lens.now) }
{
    let mut c: usize = 0;
    for n in lens {
        c = c.next_multiple_of(*n) + *n;
        if c > w {
            return true;
        }
    }
    false
}

// 1, 8, 9 and 10 of a layout.
#[tactic(auto, using(crate::proofs::Passing::passing), unfolding(crate::specs::Entries::layout_refusal, crate::specs::Tests::or_refuse))]
pub fn refusal(w: usize, lens: &[usize]) -> Result<(), Refusal>
    ensures { number_of result ≡ layout_refusal w lens.now }
{
    require(tests::is_size(1, MOST_WITNESS, w), Refusal::Size)?;
    require(tests::all_lengths(w, lens), Refusal::SegmentLength)?;
    require(!ends_past(w, lens), Refusal::LayoutEnd)?;
    require(lens.len() <= MOST_SEGMENTS, Refusal::SegmentCount)
}

// The offset of segment k.
fn place(w: usize, lens: &[usize], k: usize) -> usize
    requires layout_fits { LayoutFits w lens.now }
    requires k_in_bounds { k < length lens.now }
    ensures { result ≡ offset lens.now k }
{
    let mut c: usize = 0;
    for n in &lens[..k] {
        c = c.next_multiple_of(*n) + *n;
    }
    c.next_multiple_of(lens[k])
}

// Writes the offsets of all segments.
fn fill(w: usize, lens: &[usize], out: &mut [usize])
    requires layout_fits { LayoutFits w lens.now }
    requires lens_in_bounds { length lens.now ≤ length out.old }
    ensures { out.new ≡ offsets lens.now ++ drop (length lens.now) out.old }
{
    let mut c: usize = 0;
    for (i, n) in lens.iter().enumerate() {
        let o = c.next_multiple_of(*n);
        out[i] = o;
        c = o + *n;
    }
}

// The offsets of the segments. 1: no such columns; 8: no such length; 9: the segments end past the columns; 10: too many
// segments; 15: too little room.
#[tactic(auto, using(crate::proofs::Readings::building), unfolding(crate::specs::Tests::or_refuse))]
pub fn build(w: usize, lens: &[usize], offsets: &mut [usize]) -> Result<(), Refusal>
    ensures answer { number_of result ≡ build_refusal w lens.now offsets.old }
    ensures written { offsets.new ≡ build_out w lens.now offsets.old }
{
    refusal(w, lens)?;
    require(lens.len() <= offsets.len(), Refusal::Room)?;
    fill(w, lens, offsets);
    Ok(())
}

// The column where segment i starts; nothing where there is no segment i.
pub fn offset(w: usize, lens: &[usize], i: usize) -> Result<Option<usize>, Refusal>
    ensures { read result ≡ read_of w lens.now i (offset lens.now i) }
{
    refusal(w, lens)?;
    if i < lens.len() {
        Ok(Some(place(w, lens, i)))
    } else {
        Ok(None)
    }
}

// How many variables number the columns of segment i.
pub fn local_vars(w: usize, lens: &[usize], i: usize) -> Result<Option<usize>, Refusal>
    ensures { read result ≡ read_of w lens.now i (local_vars lens.now i) }
{
    refusal(w, lens)?;
    if i < lens.len() {
        Ok(Some(sizes::log2(lens[i])))
    } else {
        Ok(None)
    }
}

// How many of the witness variables are left above those of segment i.
pub fn suffix_bits(w: usize, lens: &[usize], i: usize) -> Result<Option<usize>, Refusal>
    ensures { read result ≡ read_of w lens.now i (suffix_bits w lens.now i) }
{
    refusal(w, lens)?;
    if i < lens.len() {
        Ok(Some(sizes::log2(w) - sizes::log2(lens[i])))
    } else {
        Ok(None)
    }
}

// The offset of segment i divided by its length: the value of a column's bits above those of the segment.
pub fn b_i(w: usize, lens: &[usize], i: usize) -> Result<Option<usize>, Refusal>
    ensures { read result ≡ read_of w lens.now i (suffix lens.now i) }
{
    refusal(w, lens)?;
    if i < lens.len() {
        Ok(Some(place(w, lens, i) / lens[i]))
    } else {
        Ok(None)
    }
}

// How many variables number the witness columns.
#[tactic(auto, using(crate::proofs::Passing::passing), unfolding(crate::specs::Entries::vars_refusal, crate::specs::Tests::or_refuse))]
pub fn witness_vars(w: usize) -> Result<usize, Refusal>
    ensures { read_vars result ≡ vars_of w }
{
    require(tests::is_size(1, MOST_WITNESS, w), Refusal::Size)?;
    Ok(sizes::log2(w))
}

// The words of segment i among those of all columns.
fn part<'a>(folded: &'a [u64], w: usize, lens: &[usize], i: usize) -> &'a [u64]
    requires layout_fits { LayoutFits w lens.now }
    requires i_in_bounds { i < length lens.now }
    requires whole { length folded.now ≡ 2 * w }
    ensures { result.now ≡ take (2 * get_or lens.now i 0) (drop (2 * offset lens.now i) folded.now) }
{
    let a = 2 * place(w, lens, i);
    &folded[a..a + 2 * lens[i]]
}

// The part of the folded vector that segment i has; an empty part where the layout is refused, the vector has not two
// words for each witness column, or there is no segment i.
pub fn segment<'a>(folded: &'a [u64], w: usize, lens: &[usize], i: usize) -> &'a [u64]
    ensures { result.now ≡ segment_part w lens.now i folded.now }
{
    if refusal(w, lens).is_err() || folded.len() != 2 * w || i >= lens.len() {
        return &folded[..0];
    }
    part(folded, w, lens, i)
}
