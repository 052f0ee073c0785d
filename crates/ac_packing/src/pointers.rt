//! The bit allocation pointers of a frame (A/52 7.2.2).
ghost use Rattle.std.specs.Prelude.{◌<◌, ◌≤◌, ◌-◌, ℕ, [], slice_index_or};
ghost use Rattle.ac_expo.specs.Raw.{channels};
ghost use Rattle.ac_sent.specs.Asked.{IsQuantised};
ghost use Rattle.ac_packing.specs.Listing.{ArePointersIn, ArePointersOf, ArePointers};

use ac_alloc::{Mask, Params, baps};
use ac_sent::Quantised;

/// Those of coded channel `c` in block `b`.
fn allocate(q: &Quantised, c: u8, b: u8, out: &mut [u8; 256])
    requires asked { IsQuantised q.now }
    requires channel { c < channels q.now.shape }
    requires block { b < 6 }
    ensures value { ArePointersIn q.now c b out.new }
{
    let span = q.shape.span(c);
    let exps = &q.exps[usize::from(c)][usize::from(b)];
    let mask = Mask::of(&Params::encoder(q.shape.fscod), &span, exps);
    baps(&mask, &span, exps, q.t, q.t == 0, out);
}

/// Those of coded channel `c` in block `b`, behind those of the blocks before: where the block reuses exponents, its pointers
/// are those of the block before.
fn allocate_block(q: &Quantised, c: u8, b: u8, rows: &mut [[u8; 256]; 6])
    requires asked { IsQuantised q.now }
    requires channel { c < channels q.now.shape }
    requires block { b < 6 }
    requires before { (a : ℕ) → a < b → ArePointersIn q.now c a (slice_index_or rows.old a []) }
    ensures value { (a : ℕ) → a ≤ b → ArePointersIn q.now c a (slice_index_or rows.new a []) }
{
    let at = usize::from(b);
    if q.assign.w[usize::from(c)].code(b) == 0 {
        rows[at] = rows[at - 1];
    } else {
        allocate(q, c, b, &mut rows[at]);
    }
}

/// Those of coded channel `c`.
fn allocate_channel(q: &Quantised, c: u8, rows: &mut [[u8; 256]; 6])
    requires asked { IsQuantised q.now }
    requires channel { c < channels q.now.shape }
    ensures value { ArePointersOf q.now c rows.new }
{
    for b in 0..6 {
        allocate_block(q, c, b, rows);
    }
}

/// The pointers of the frame at the bins of its coded channels.
pub fn allocate_frame(q: &Quantised, baps: &mut [[[u8; 256]; 6]; 7])
    requires { IsQuantised q.now }
    ensures { ArePointers q.now baps.new }
{
    for c in 0..q.shape.coded() {
        allocate_channel(q, c, &mut baps[usize::from(c)]);
    }
}
