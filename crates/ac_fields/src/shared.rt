//! The coupling coordinates.
ghost use Rattle.std.specs.Prelude.{◌≡◌, ◌&&◌, ◌<◌, None, nat_lt};
ghost use Rattle.ac_base.specs.Shape.{full_of, subbands};
ghost use Rattle.ac_rows.specs.Filled.{listed};
ghost use Rattle.ac_rows.specs.Groups.{shared_of};
ghost use Rattle.ac_sent.specs.Fields.{coordinate_at, sent_fields, when};

use crate::arrays::{below, coordinate_exponents, coordinate_mantissas, flags, numbers};
use ac_rows::both;
use ac_rows::groups::Shared;
use ac_rows::known::subband_count;
use ac_sent::Quantised;

/// The exponents of all coordinates, by channel and band, in the first block.
#[tactic(auto, unfolding(ac_rows::specs::Filled::listed))]
fn all_exponents(q: &Quantised, first: bool) -> [[Option<u8>; 18]; 5]
    ensures { result ≡ listed 5 0 (λ i. listed 18 0 (λ k. when (first && nat_lt i (full_of q.now.shape.acmod)
        && nat_lt k (subbands q.now.shape.couple)) (coordinate_at q.now i k).exp)) }
{
    let full = usize::from(q.shape.full());
    let bands = subband_count(q.shape.couple);
    [
        coordinate_exponents(both(first, below(0, full)), bands, &q.coords.of[0]),
        coordinate_exponents(both(first, below(1, full)), bands, &q.coords.of[1]),
        coordinate_exponents(both(first, below(2, full)), bands, &q.coords.of[2]),
        coordinate_exponents(both(first, below(3, full)), bands, &q.coords.of[3]),
        coordinate_exponents(both(first, below(4, full)), bands, &q.coords.of[4]),
    ]
}

/// The mantissas of all coordinates, likewise.
#[tactic(auto, unfolding(ac_rows::specs::Filled::listed))]
fn all_mantissas(q: &Quantised, first: bool) -> [[Option<u8>; 18]; 5]
    ensures { result ≡ listed 5 0 (λ i. listed 18 0 (λ k. when (first && nat_lt i (full_of q.now.shape.acmod)
        && nat_lt k (subbands q.now.shape.couple)) (coordinate_at q.now i k).mant)) }
{
    let full = usize::from(q.shape.full());
    let bands = subband_count(q.shape.couple);
    [
        coordinate_mantissas(both(first, below(0, full)), bands, &q.coords.of[0]),
        coordinate_mantissas(both(first, below(1, full)), bands, &q.coords.of[1]),
        coordinate_mantissas(both(first, below(2, full)), bands, &q.coords.of[2]),
        coordinate_mantissas(both(first, below(3, full)), bands, &q.coords.of[3]),
        coordinate_mantissas(both(first, below(4, full)), bands, &q.coords.of[4]),
    ]
}

/// The coordinates of all channels: the first block sends them, and no phase flags (A/52 5.4.3.14 to 5.4.3.18).
#[tactic(auto, unfolding(ac_sent::specs::Fields::sent_fields))]
pub fn shared(q: &Quantised, first: bool) -> Shared
    ensures { result ≡ shared_of (sent_fields q.now first 0 None) }
{
    let full = usize::from(q.shape.full());
    let coupled = q.shape.couple.is_some();
    Shared {
        cplcoe: flags(coupled, full, first),
        mstrcplco: numbers(both(first, coupled), full, 0),
        cplcoexp: all_exponents(q, first),
        cplcomant: all_mantissas(q, first),
        phsflg: [None; 18],
    }
}
