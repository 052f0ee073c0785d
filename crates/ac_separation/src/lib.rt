//! Coupled and rematrixed channels, taken apart: the decoder's side of joint coding (A/52 7.4, 7.5).
#![tactic(auto)]

ghost use Rattle.std.specs.Prelude.{◌≡◌, ◌≢◌, ◌<◌, ◌≤◌, ◌^◌, ℕ, unsigned_abs};
ghost use Rattle.ac_energy.specs.Coefficients.{entry};
ghost use Rattle.ac_rows.specs.declared.head.Head.{Head};
ghost use Rattle.ac_rows.specs.Filled.{spans_of, HasSpans};
ghost use Rattle.ac_separation.specs.Separation.{uncoupled_of, unrematrixed_of};

mod bands;
mod leads;
mod rows;
mod scale;

use crate::bands::{band_start, cut};
use crate::leads::{coupling_channel, is_coupled};
use crate::rows::{separate, shared_of, sums};
use ac_base::{Coefs, Span};
use ac_rows::{Block, holds};

/// Gives each coupled channel of block `b` its coefficients at the bins of the coupling channel (A/52 7.4.3). The block is one that
/// `filled` gave, and the spans are its own.
pub fn uncouple(values: &mut Coefs, block: &Block, spans: &[Span; 7], b: u8)
    requires block { b ≤ 5 }
    requires spans { (h : Head) × (spans.now ≡ spans_of h block.now) × HasSpans h block.now }
    requires small { (c k : ℕ) → c < 7 → k < 256 → unsigned_abs (entry values.old.c c b k) ≤ 2 ^ 24 }
    ensures value { (h : Head) → spans.now ≡ spans_of h block.now → HasSpans h block.now → (c k : ℕ) → c < 7 → k < 256
        → entry values.new.c c b k ≡ uncoupled_of h block.now (λ d j. entry values.old.c d b j) c k }
    ensures rest { (c j k : ℕ) → j ≢ b → entry values.new.c c j k ≡ entry values.old.c c j k }
    ensures bound { (c k : ℕ) → c < 7 → k < 256 → unsigned_abs (entry values.new.c c b k) ≤ 2 ^ 24 }
{
    let full = coupling_channel(spans);
    if full < 7 {
        let b = usize::from(b);
        let shared = shared_of(values, block, spans[full], full, b);
        for c in 0..5 {
            if is_coupled(spans[c].lead) {
                separate(values, &shared, block, c, b);
            }
        }
    }
}

/// Gives the two channels of block `b` their own coefficients in each band where they have sum and difference (A/52 7.5.3). The block is
/// one that `filled` gave, and the spans are its own.
pub fn unrematrix(values: &mut Coefs, block: &Block, spans: &[Span; 7], b: u8)
    requires block { b ≤ 5 }
    requires spans { (h : Head) × (spans.now ≡ spans_of h block.now) × HasSpans h block.now }
    requires small { (c k : ℕ) → c < 7 → k < 256 → unsigned_abs (entry values.old.c c b k) ≤ 2 ^ 24 }
    ensures value { (h : Head) → spans.now ≡ spans_of h block.now → HasSpans h block.now → (c k : ℕ) → c < 7 → k < 256
        → entry values.new.c c b k ≡ unrematrixed_of h block.now (λ d j. entry values.old.c d b j) c k }
    ensures rest { (c j k : ℕ) → j ≢ b → entry values.new.c c j k ≡ entry values.old.c c j k }
    ensures bound { (c k : ℕ) → c < 7 → k < 256 → unsigned_abs (entry values.new.c c b k) ≤ 2 ^ 24 }
{
    let end = usize::from(cut(block, spans[0].end.min(spans[1].end)));
    for band in 0..4 {
        if holds(block.rematflg[band]) {
            let start = band_start(band);
            sums(values, usize::from(b), start, band_start(band + 1).min(end));
        }
    }
}

#[cfg(test)]
mod tests;
