//! The exponents of all channels.
ghost use Rattle.std.specs.Prelude.{◌≡◌, ◌<◌, ◌&&◌, None, is_some, nat_lt, if◌then◌else◌};
ghost use Rattle.ac_base.specs.Shape.{full_of};
ghost use Rattle.ac_expo.specs.Raw.{channels};
ghost use Rattle.ac_fields.specs.Asked.{HasFields};
ghost use Rattle.ac_rows.specs.Filled.{listed};
ghost use Rattle.ac_rows.specs.Groups.{exponents_of};
ghost use Rattle.ac_sent.specs.Fields.{code_at, low_number, sent_fields, spelling_at, when};

use crate::arrays::{below, number};
use crate::codes::{code_at, low_number, sends};
use ac_expo::{Spelled, group};
use ac_rows::groups::Exponents;
use ac_sent::Quantised;

/// The exponents of a coded channel in groups, where the block sends any (A/52 7.1.3).
fn spelling(q: &Quantised, c: usize, b: usize) -> Option<Spelled>
    requires asked { HasFields q.now b }
    requires block { b < 6 }
    requires channel { c < channels q.now.shape }
    ensures { result ≡ spelling_at q.now c b }
{
    let span = q.shape.span(c as u8);
    let code = code_at(q, c, b);
    if code > 0 {
        Some(group(code, &span, &q.exps[c][b]))
    } else {
        None
    }
}

/// Those of a full channel.
fn full_spelling(q: &Quantised, i: usize, b: usize) -> Option<Spelled>
    requires asked { HasFields q.now b }
    requires block { b < 6 }
    ensures { result ≡ if nat_lt i (full_of q.now.shape.acmod) then spelling_at q.now i b else None }
{
    if i < usize::from(q.shape.full()) {
        spelling(q, i, b)
    } else {
        None
    }
}

/// Those of the coupling channel.
fn coupling_spelling(q: &Quantised, b: usize) -> Option<Spelled>
    requires asked { HasFields q.now b }
    requires block { b < 6 }
    ensures { result ≡ if is_some q.now.shape.couple then spelling_at q.now (full_of q.now.shape.acmod) b else None }
{
    if q.shape.couple.is_some() {
        spelling(q, usize::from(q.shape.full()), b)
    } else {
        None
    }
}

/// Those of LFE.
fn low_spelling(q: &Quantised, b: usize) -> Option<Spelled>
    requires asked { HasFields q.now b }
    requires block { b < 6 }
    ensures { result ≡ if q.now.shape.lfe then spelling_at q.now (low_number q.now.shape) b else None }
{
    if q.shape.lfe {
        spelling(q, low_number(q), b)
    } else {
        None
    }
}

/// Those of all full channels.
#[tactic(auto, unfolding(ac_rows::specs::Filled::listed))]
fn full_spellings(q: &Quantised, b: usize) -> [Option<Spelled>; 5]
    requires asked { HasFields q.now b }
    requires block { b < 6 }
    ensures { result ≡ listed 5 0 (λ i. if nat_lt i (full_of q.now.shape.acmod) then spelling_at q.now i b else None) }
{
    [
        full_spelling(q, 0, b),
        full_spelling(q, 1, b),
        full_spelling(q, 2, b),
        full_spelling(q, 3, b),
        full_spelling(q, 4, b),
    ]
}

/// gainrng of all full channels: 0 beside exponents (A/52 5.4.3.28).
#[tactic(auto, unfolding(ac_rows::specs::Filled::listed))]
fn gains(q: &Quantised, b: usize) -> [Option<u8>; 5]
    requires { b < 6 }
    ensures { result ≡ listed 5 0 (λ i. when (nat_lt i (full_of q.now.shape.acmod) && nat_lt 0 (code_at q.now i b)) 0) }
{
    [
        number(sends(q, 0, b), 0),
        number(sends(q, 1, b), 0),
        number(sends(q, 2, b), 0),
        number(sends(q, 3, b), 0),
        number(sends(q, 4, b), 0),
    ]
}

/// The exponents of block b (A/52 5.4.3.25 to 5.4.3.29).
#[tactic(auto, unfolding(ac_sent::specs::Fields::sent_fields))]
pub fn exponents(q: &Quantised, first: bool, b: usize) -> Exponents
    requires asked { HasFields q.now b }
    requires block { b < 6 }
    ensures { result ≡ exponents_of (sent_fields q.now first b None) }
{
    Exponents {
        cplabsexp: coupling_spelling(q, b),
        exps: full_spellings(q, b),
        gainrng: gains(q, b),
        lfeexps: low_spelling(q, b),
    }
}
