//! The cheapest assignment of a shape.
ghost use Rattle.std.specs.Prelude.{◌≡◌, ◌≤◌, ◌+◌, List, ℕ};
ghost use Rattle.ac_base.specs.Fit.{exponents_in};
ghost use Rattle.ac_base.specs.Spans.{greatest_kind};
ghost use Rattle.ac_expo.specs.Raw.{channels, channel_span};
ghost use Rattle.ac_cost.specs.Parts.{parts_at, cheapest_assign};

use crate::blocks::{exponent_bits, side};
use ac_base::{Lead, Parts, Shape};

/// The coarsest kind of exponents that a channel takes: D45, of LFE D15 (A/52 5.4.3.21 to 5.4.3.23).
fn coarsest(lead: Lead) -> u8
    ensures { result ≡ greatest_kind lead }
{
    match lead {
        Lead::Free | Lead::Coupled | Lead::Coupling => 3,
        Lead::Low => 1,
    }
}

/// The bits of the coarsest exponents of all coded channels.
fn fewest_exponents(shape: &Shape) -> u32
    ensures value { result ≡ exponents_in (channel_span shape.now) (channels shape.now) (cheapest_assign shape.now) 0 }
    ensures bound { result ≤ 4200 }
{
    let mut bits = 0;
    for c in 0..shape.coded() {
        let span = shape.span(c);
        bits += exponent_bits(coarsest(span.lead), &span);
    }
    bits
}

/// The bits of the three parts at offset 0, where there are no mantissas, of the assignment with the fewest: D45 in block 0 and
/// reuse after it, LFE having D15 in block 0.
pub fn cheapest(shape: &Shape) -> Parts
    ensures value { (raw : List (List (List ℕ))) → result ≡ parts_at shape.now raw 0 (cheapest_assign shape.now) }
{
    let side = side(shape);
    let exponents = fewest_exponents(shape);
    Parts {
        front: side.front + exponents,
        total: side.total + exponents,
        last: 0,
    }
}
