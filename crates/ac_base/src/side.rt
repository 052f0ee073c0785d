//! The side bits of a frame: the rows of its syntax other than exponents and mantissas.
ghost use Rattle.std.specs.Prelude.{◌≡◌, ◌≤◌, ◌+◌, ◌*◌, ℕ, Bool, Option, sum};
ghost use Rattle.ac_base.specs.Shape.{IsCoupling, subbands, rematrix_bands, is_stereo};
ghost use Rattle.ac_base.specs.Fit.{side_of};
ghost use Rattle.ac_base.specs.SideBits.{head_rows, first_block_rows, later_block_rows, side_front, side_total, when, head_formula, first_block_formula, later_block_formula};

use crate::shapes::Shape;
use crate::sizes::{Parts, TAIL_BITS};
use crate::spans::{coupling_subbands, rematrix_bands};

/// syncinfo and bsi (A/52 5.3.1, 5.3.2).
fn head_bits(shape: &Shape) -> u32
    ensures { result ≡ sum (head_rows shape.now.acmod) }
{
    match shape.acmod {
        1 => 65,
        5 | 7 => 69,
        _ => 67,
    }
}

/// The subbands of a coupling, or 0.
fn subband_count(shape: &Shape) -> u32
    ensures { result ≡ subbands shape.now.couple }
{
    match shape.couple {
        Some((begin, end)) => u32::from(coupling_subbands(begin, end)),
        None => 0,
    }
}

/// rematstr and rematflg in block 0, for two channels (A/52 5.4.3.19, 7.5.2).
fn rematrix_bits(shape: &Shape) -> u32
    ensures { result ≡ when (is_stereo shape.now.acmod) (1 + rematrix_bands shape.now.couple) }
{
    if shape.acmod == 2 {
        1 + u32::from(rematrix_bands(shape.couple))
    } else {
        0
    }
}

/// Block 0 (A/52 5.3.3). Coupling adds its strategy, the coordinates of each channel and band,
/// and the exponent strategy, offset, gain and leaks of the coupling channel.
fn first_block_bits(shape: &Shape) -> u32
    ensures { result ≡ sum (first_block_rows shape.now.acmod shape.now.lfe shape.now.couple) }
{
    let full = u32::from(shape.full());
    let stereo = u32::from(shape.acmod == 2);
    let bands = subband_count(shape);
    let plain = 24 + 11 * full + 8 * u32::from(shape.lfe) + rematrix_bits(shape);
    match shape.couple {
        Some(_) => plain + 4 * full + 8 * (full * bands) + stereo + bands + 23,
        None => plain,
    }
}

/// A block from 1 to 5 (A/52 5.3.3).
fn later_block_bits(shape: &Shape) -> u32
    ensures { result ≡ sum (later_block_rows shape.now.acmod shape.now.lfe shape.now.couple) }
{
    let full = u32::from(shape.full());
    let plain = 6 + 4 * full + u32::from(shape.lfe) + u32::from(shape.acmod == 2);
    match shape.couple {
        Some(_) => plain + full + 3,
        None => plain,
    }
}

/// The bits of each part's rows, without exponents, chbwcod, gainrng, skip bytes and mantissas
/// (A/52 5.3): the head with block 0 and one later block, the whole frame, and nothing.
#[tactic(auto, unfolding(crate::specs::SideBits::side_front, crate::specs::SideBits::side_total))]
pub fn side_bits(shape: &Shape) -> Parts
    ensures value { result ≡ side_of shape.now.acmod shape.now.lfe shape.now.couple }
{
    let start = head_bits(shape) + first_block_bits(shape);
    let later = later_block_bits(shape);
    Parts {
        front: start + later,
        total: start + 5 * later + TAIL_BITS,
        last: 0,
    }
}

/// The sums of the rows in closed form, at every layout and coupling.
pub fn side_bits_law()
    ensures head { (acmod : ℕ) → 1 ≤ acmod → acmod ≤ 7 → sum (head_rows acmod) ≡ head_formula acmod }
    ensures first { (acmod : ℕ) → (lfe : Bool) → (couple : Option (ℕ × ℕ)) → 1 ≤ acmod → acmod ≤ 7 → IsCoupling acmod couple →
        sum (first_block_rows acmod lfe couple) ≡ first_block_formula acmod lfe couple }
    ensures later { (acmod : ℕ) → (lfe : Bool) → (couple : Option (ℕ × ℕ)) → 1 ≤ acmod → acmod ≤ 7 → IsCoupling acmod couple →
        sum (later_block_rows acmod lfe couple) ≡ later_block_formula acmod lfe couple }
{}

#[cfg(test)]
mod tests;
