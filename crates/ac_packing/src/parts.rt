//! The bits of a frame's blocks, by which its padding is shared out.
ghost use Rattle.std.specs.Prelude.{◌≡◌, ◌<◌, ◌≤◌, ◌+◌, ◌*◌, ◌-◌, ◌^◌, length};
ghost use Rattle.ac_base.specs.Counts.{tally_of, exact_of};
ghost use Rattle.ac_base.specs.Fit.{list_bits, exponent_bits, exponents_in};
ghost use Rattle.ac_base.specs.Shape.{IsSpan};
ghost use Rattle.ac_base.specs.Spans.{greatest_kind};
ghost use Rattle.ac_expo.specs.Raw.{channels, channel_span};
ghost use Rattle.ac_mant.specs.Groups.{pointers, AreCoded};
ghost use Rattle.ac_sent.specs.Asked.{IsQuantised};
ghost use Rattle.ac_sent.specs.Fields.{parts_at};
ghost use Rattle.ac_packing.specs.Listing.{AreListed, exponents_of, mantissas_of};

use crate::mantissas::{MOST, listed};
use ac_base::{Lead, Span, side_bits};
use ac_expo::groups;
use ac_mant::{Coded, Counts, exact};
use ac_sent::Quantised;

/// The bits of a list of exponents in so many groups, with chbwcod and gainrng where the channel has them (A/52 5.3.3, 7.1.3).
fn list_bits(lead: Lead, groups: u8) -> u32
    ensures value { result ≡ list_bits lead groups }
    ensures bound { result ≤ 12 + 7 * groups }
{
    let grouped = 7 * u32::from(groups);
    match lead {
        Lead::Free => 6 + 4 + grouped + 2,
        Lead::Coupled => 4 + grouped + 2,
        Lead::Coupling | Lead::Low => 4 + grouped,
    }
}

/// The exponent bits of a channel in a block, by its strategy code there: none where it reuses.
fn exponent_bits(code: u8, span: &Span) -> u32
    requires code { code ≤ greatest_kind span.now.lead }
    requires span { IsSpan span.now }
    ensures value { result ≡ exponent_bits code span.now }
    ensures bound { result ≤ 600 }
{
    if code == 0 {
        0
    } else {
        list_bits(span.lead, groups(code, span))
    }
}

/// The exponent bits of coded channel `c` in block `b`.
fn channel_exponents(q: &Quantised, c: u8, b: u8) -> u32
    requires asked { IsQuantised q.now }
    requires channel { c < channels q.now.shape }
    requires block { b < 6 }
    ensures value { result ≡ exponents_of q.now b c }
    ensures bound { result ≤ 600 }
{
    let code = q.assign.w[usize::from(c)].code(b);
    exponent_bits(code, &q.shape.span(c))
}

/// The exponent bits of block `b`.
fn block_exponents(q: &Quantised, b: u8) -> u32
    requires asked { IsQuantised q.now }
    requires block { b < 6 }
    ensures value { result ≡ exponents_in (channel_span q.now.shape) (channels q.now.shape) q.now.assign.w b }
    ensures bound { result ≤ 4200 }
{
    let mut sum = 0;
    for c in 0..q.shape.coded() {
        sum += channel_exponents(q, c, b);
    }
    sum
}

/// The bits of mantissas.
fn cost(list: &[Coded]) -> u32
    requires few { length list.now ≤ 1792 }
    requires coded { AreCoded list.now }
    ensures value { result ≡ exact_of (tally_of (pointers list.now)) }
    ensures bound { result ≤ 2 ^ 16 }
{
    let mut counts = Counts {
        linear: 0,
        n1: 0,
        n2: 0,
        n4: 0,
    };
    for i in 0..list.len() {
        counts.add(list[i].bap);
    }
    exact(&counts)
}

/// The bits of the mantissas of block `b`, which are listed.
fn block_mantissas(q: &Quantised, lists: &[[Coded; MOST]; 6], counts: &[usize; 6], b: u8) -> u32
    requires asked { IsQuantised q.now }
    requires listed { AreListed q.now 6 lists.now counts.now }
    requires block { b < 6 }
    ensures value { result ≡ mantissas_of q.now b }
    ensures bound { result ≤ 2 ^ 16 }
{
    cost(listed(lists, counts, b))
}

/// The bits of all parts of the frame but its padding, and those of block 5's mantissas.
pub fn parts(q: &Quantised, lists: &[[Coded; MOST]; 6], counts: &[usize; 6]) -> (u32, u32)
    requires asked { IsQuantised q.now }
    requires listed { AreListed q.now 6 lists.now counts.now }
    ensures total { result.0 ≡ (parts_at q.now).total }
    ensures last { result.1 ≡ (parts_at q.now).last }
{
    let mut total = side_bits(&q.shape).total;
    for b in 0..5 {
        total += block_exponents(q, b) + block_mantissas(q, lists, counts, b);
    }
    let last = block_mantissas(q, lists, counts, 5);
    (total + block_exponents(q, 5) + last, last)
}
