//! The kinds of exponents that a coded channel takes.
ghost use Rattle.std.specs.Prelude.{◌≡◌, ◌≤◌, ℕ, slice_index};
ghost use Rattle.ac_base.specs.Fit.{exponent_bits};
ghost use Rattle.ac_base.specs.Shape.{IsSpan};
ghost use Rattle.ac_base.specs.Spans.{greatest_kind};

use ac_base::{Lead, Span};
use ac_cost::exponent_bits;

/// The kinds of exponents that a coded channel takes, from 1 to `count`, and the bits of a list of each.
#[derive(Clone, Copy, Debug)]
pub struct Kinds {
    pub count: u8,
    pub bits: [u32; 4],
    pub ghost some: { 1 ≤ count },
    pub ghost most: { count ≤ 3 },
    pub ghost small: { (kind : ℕ) → slice_index bits kind ≤ 600 },
}

impl Kinds {
    /// Those of a channel (A/52 5.4.3.21 to 5.4.3.23).
    pub fn of(span: &Span) -> Kinds
        requires { IsSpan span.now }
        ensures count { result.count ≡ greatest_kind span.now.lead }
        ensures bits { (kind : ℕ) → 1 ≤ kind → kind ≤ result.count → slice_index result.bits kind ≡ exponent_bits kind span.now }
    {
        match span.lead {
            Lead::Free | Lead::Coupled | Lead::Coupling => Kinds {
                count: 3,
                bits: [
                    0,
                    exponent_bits(1, span),
                    exponent_bits(2, span),
                    exponent_bits(3, span),
                ],
            },
            Lead::Low => Kinds {
                count: 1,
                bits: [0, exponent_bits(1, span), 0, 0],
            },
        }
    }
}
