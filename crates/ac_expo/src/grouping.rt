//! From a list of exponents to its groups.
ghost use Rattle.std.specs.Prelude.{◌≡◌, ℕ, ◌+◌, ◌-◌, ◌*◌, ◌<◌, ◌≤◌, length, slice_index};
ghost use Rattle.ac_base.specs.Spans.{IsKind};
ghost use Rattle.ac_base.specs.Shape.{IsSpan};
ghost use Rattle.ac_base.specs.Spans.{groups_of};
ghost use Rattle.ac_expo.specs.Steps.{bin_of};
ghost use Rattle.ac_expo.specs.Greatest.{IsSpellable};
ghost use Rattle.ac_expo.specs.Groups.{first_of, reference, past, at_step, group_of, spelled_of};

use crate::spelled::Spelled;
use crate::steps::{coupling, groups, step};
use ac_base::{Lead, Span};

/// The first bin of a step that isn't step 0.
#[tactic(auto, unfolding(crate::specs::Steps::bin_of))]
fn first_bin(kind: u8, span: &Span, at: usize) -> usize
    requires kind { IsKind kind span.now }
    requires some { 0 < at }
    requires bound { at ≤ 252 }
    ensures { result ≡ bin_of kind span.now at }
{
    let first = usize::from(span.start) + usize::from(!coupling(span.lead));
    match kind {
        1 => first + (at - 1),
        2 => first + 2 * (at - 1),
        _ => first + 4 * (at - 1),
    }
}

/// The 4-bit exponent: that of bin 0, or half that of the coupling start.
fn first(span: &Span, exps: &[u8; 256]) -> u8
    ensures { result ≡ first_of span.now exps.now }
{
    if coupling(span.lead) {
        exps[usize::from(span.start)] / 2
    } else {
        exps[0]
    }
}

/// The exponent before the first difference.
pub fn before(lead: Lead, first: u8) -> u8
    requires { first ≤ 15 }
    ensures value { result ≡ reference lead first }
    ensures bound { result ≤ 30 }
{
    if coupling(lead) { 2 * first } else { first }
}

/// The exponent of a step past the end: the greatest that can be spelled.
#[tactic(auto, unfolding(crate::specs::Groups::past))]
fn beyond(kind: u8, span: &Span, exps: &[u8; 256], at: usize) -> u8
    requires kind { IsKind kind span.now }
    requires span { IsSpan span.now }
    requires bound { at ≤ 252 }
    ensures { result ≡ past kind span.now exps.now at }
{
    let last = usize::from(span.end) - 1;
    let steps = at.saturating_sub(step(kind, span, last));
    (usize::from(exps[last]) + 2 * steps).min(24) as u8
}

/// The exponent of a step.
fn exponent(kind: u8, span: &Span, exps: &[u8; 256], at: usize) -> u8
    requires kind { IsKind kind span.now }
    requires span { IsSpan span.now }
    requires can { IsSpellable kind span.now exps.now }
    requires bound { at ≤ 252 }
    ensures { result ≡ at_step kind span.now exps.now at }
{
    if at == 0 {
        return before(span.lead, first(span, exps));
    }
    let bin = first_bin(kind, span, at);
    if bin < usize::from(span.end) {
        exps[bin]
    } else {
        beyond(kind, span, exps, at)
    }
}

/// The difference of an exponent from the one before it, plus 2.
#[inline]
fn difference(before: u8, after: u8) -> u8
    requires small { after ≤ 24 }
    requires up { after ≤ before + 2 }
    requires down { before ≤ after + 2 }
    ensures value { result ≡ after + 2 - before }
    ensures bound { result ≤ 4 }
{
    after + 2 - before
}

/// A group of three differences in 7 bits, behind the exponent before it; and the last exponent of the group.
#[inline]
fn packed(kind: u8, span: &Span, exps: &[u8; 256], place: usize, before: u8) -> (u8, u8)
    requires kind { IsKind kind span.now }
    requires span { IsSpan span.now }
    requires can { IsSpellable kind span.now exps.now }
    requires bound { place < 84 }
    requires before { before ≡ at_step kind span.now exps.now (3 * place) }
    ensures group { result.0 ≡ group_of kind span.now exps.now place }
    ensures last { result.1 ≡ at_step kind span.now exps.now (3 * (place + 1)) }
{
    let first = exponent(kind, span, exps, 3 * place + 1);
    let second = exponent(kind, span, exps, 3 * place + 2);
    let third = exponent(kind, span, exps, 3 * place + 3);
    let high = 25 * difference(before, first) + 5 * difference(first, second);
    (high + difference(second, third), third)
}

/// The spelling of a list of exponents that its kind can spell (A/52 7.1.3): a group is `25 * M1 + 5 * M2 + M3`, each M
/// a difference plus 2, and steps past the end of the span rise as far as they can.
pub fn group(kind: u8, span: &Span, exps: &[u8; 256]) -> Spelled
    requires kind { IsKind kind span.now }
    requires span { IsSpan span.now }
    requires can { IsSpellable kind span.now exps.now }
    ensures value { result ≡ spelled_of kind span.now exps.now }
    ensures count { length result.groups ≡ groups_of kind span.now }
    ensures first { result.first ≤ 15 }
    ensures bound { (place : ℕ) → place < length result.groups → slice_index result.groups place ≤ 124 }
{
    let reference = first(span, exps);
    let mut spelled = Spelled::new(reference);
    let mut last = before(span.lead, reference);
    for place in 0..groups(kind, span) {
        let (group, next) = packed(kind, span, exps, usize::from(place), last);
        spelled.push(group);
        last = next;
    }
    spelled
}
