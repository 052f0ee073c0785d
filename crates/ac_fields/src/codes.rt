//! Rematrixing, the exponent strategies and the bandwidths.
ghost use Rattle.std.specs.Prelude.{◌≡◌, ◌<◌, ◌≤◌, ◌&&◌, None, is_some, nat_lt, not, if◌then◌else◌};
ghost use Rattle.ac_base.specs.Shape.{full_of, is_stereo, rematrix_bands};
ghost use Rattle.ac_rows.specs.Filled.{listed};
ghost use Rattle.ac_rows.specs.Groups.{codes_of};
ghost use Rattle.ac_sent.specs.Fields.{code_at, low_number, rematrixed, sent_fields, when};

use crate::arrays::{below, flag, number};
use ac_base::rematrix_bands;
use ac_rows::both;
use ac_rows::channels::stereo;
use ac_rows::groups::Codes;
use ac_sent::Quantised;

/// The strategy code of a coded channel in a block.
pub fn code_at(q: &Quantised, c: usize, b: usize) -> u8
    requires channel { c < 7 }
    requires block { b < 6 }
    ensures value { result ≡ code_at q.now c b }
    ensures bound { result ≤ 3 }
{
    q.assign.w[c].code(b as u8)
}

/// Whether a full channel sends exponents in a block.
pub fn sends(q: &Quantised, i: usize, b: usize) -> bool
    requires channel { i < 5 }
    requires block { b < 6 }
    ensures { result ≡ (nat_lt i (full_of q.now.shape.acmod) && nat_lt 0 (code_at q.now i b)) }
{
    both(
        below(i, usize::from(q.shape.full())),
        below(0, usize::from(code_at(q, i, b))),
    )
}

/// LFE's number among the coded channels.
pub fn low_number(q: &Quantised) -> usize
    ensures value { result ≡ low_number q.now.shape }
    ensures bound { result < 7 }
{
    usize::from(q.shape.full()) + usize::from(q.shape.couple.is_some())
}

/// The strategy code of a full channel in a block, 0 where there is no such channel.
fn full_code(q: &Quantised, i: usize, b: usize) -> u8
    requires channel { i < 5 }
    requires block { b < 6 }
    ensures { result ≡ if nat_lt i (full_of q.now.shape.acmod) then code_at q.now i b else 0 }
{
    if below(i, usize::from(q.shape.full())) {
        code_at(q, i, b)
    } else {
        0
    }
}

/// The strategy codes of the full channels in a block.
#[tactic(auto, unfolding(ac_rows::specs::Filled::listed))]
fn full_codes(q: &Quantised, b: usize) -> [u8; 5]
    requires { b < 6 }
    ensures { result ≡ listed 5 0 (λ i. if nat_lt i (full_of q.now.shape.acmod) then code_at q.now i b else 0) }
{
    [
        full_code(q, 0, b),
        full_code(q, 1, b),
        full_code(q, 2, b),
        full_code(q, 3, b),
        full_code(q, 4, b),
    ]
}

/// The bandwidth of a full channel that isn't coupled and sends exponents.
fn width(q: &Quantised, i: usize, b: usize) -> Option<u8>
    requires channel { i < 5 }
    requires block { b < 6 }
    ensures { result ≡ when (nat_lt i (full_of q.now.shape.acmod) && not (is_some q.now.shape.couple)
        && nat_lt 0 (code_at q.now i b)) q.now.shape.bw }
{
    let there = below(i, usize::from(q.shape.full()));
    let sends = below(0, usize::from(code_at(q, i, b)));
    number(
        both(there, both(!q.shape.couple.is_some(), sends)),
        q.shape.bw,
    )
}

/// The bandwidths of the full channels.
#[tactic(auto, unfolding(ac_rows::specs::Filled::listed))]
fn widths(q: &Quantised, b: usize) -> [Option<u8>; 5]
    requires { b < 6 }
    ensures { result ≡ listed 5 0 (λ i. when (nat_lt i (full_of q.now.shape.acmod) && not (is_some q.now.shape.couple)
        && nat_lt 0 (code_at q.now i b)) q.now.shape.bw) }
{
    [
        width(q, 0, b),
        width(q, 1, b),
        width(q, 2, b),
        width(q, 3, b),
        width(q, 4, b),
    ]
}

/// The rematrix flags of two channels, in the first block.
#[tactic(auto, unfolding(ac_rows::specs::Filled::listed))]
fn rematrix_flags(q: &Quantised, first: bool) -> [Option<bool>; 4]
    ensures { result ≡ listed 4 0 (λ k. when (first && is_stereo q.now.shape.acmod
        && nat_lt k (rematrix_bands q.now.shape.couple)) (rematrixed q.now k)) }
{
    let two = stereo(q.shape.acmod);
    let bands = usize::from(rematrix_bands(q.shape.couple));
    [
        flag(both(first, both(two, below(0, bands))), q.remat[0]),
        flag(both(first, both(two, below(1, bands))), q.remat[1]),
        flag(both(first, both(two, below(2, bands))), q.remat[2]),
        flag(both(first, both(two, below(3, bands))), q.remat[3]),
    ]
}

/// The rematrix flags, strategy codes and bandwidths of block b (A/52 5.4.3.19 to 5.4.3.24).
#[tactic(auto, unfolding(ac_sent::specs::Fields::sent_fields))]
pub fn codes(q: &Quantised, first: bool, b: usize) -> Codes
    requires { b < 6 }
    ensures { result ≡ codes_of (sent_fields q.now first b None) }
{
    let coupling = code_at(q, usize::from(q.shape.full()), b);
    let low = code_at(q, low_number(q), b);
    Codes {
        rematstr: flag(stereo(q.shape.acmod), first),
        rematflg: rematrix_flags(q, first),
        cplexpstr: number(q.shape.couple.is_some(), coupling),
        chexpstr: full_codes(q, b),
        lfeexpstr: flag(q.shape.lfe, below(0, usize::from(low))),
        chbwcod: widths(q, b),
    }
}
