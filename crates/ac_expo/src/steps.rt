//! Steps and groups of exponents.
ghost use Rattle.std.specs.Prelude.{◌≡◌, ◌+◌, ◌-◌, ◌≤◌};
ghost use Rattle.ac_base.specs.Spans.{IsIn, IsKind, is_coupling};
ghost use Rattle.ac_base.specs.Shape.{IsSpan};
ghost use Rattle.ac_base.specs.Spans.{groups_of};
ghost use Rattle.ac_expo.specs.Steps.{step_of, last_step};

use ac_base::{Lead, Span};

/// Whether it is the coupling channel.
#[inline]
pub fn coupling(lead: Lead) -> bool
    ensures { result ≡ is_coupling lead }
{
    match lead {
        Lead::Coupling => true,
        Lead::Free | Lead::Coupled | Lead::Low => false,
    }
}

/// The number of groups of a span's exponents in a kind, at most 84 (A/52 7.1.3).
#[tactic(auto, unfolding(ac_base::specs::Spans::groups_of))]
pub fn groups(kind: u8, span: &Span) -> u8
    requires kind { IsKind kind span.now }
    requires span { IsSpan span.now }
    ensures value { result ≡ groups_of kind span.now }
    ensures bound { result ≤ 84 }
{
    let bins = span.end - span.start;
    if coupling(span.lead) {
        match kind {
            1 => bins / 3,
            2 => bins / 6,
            _ => bins / 12,
        }
    } else {
        match kind {
            1 => (bins - 1) / 3,
            2 => ((u16::from(bins) + 2) / 6) as u8,
            _ => ((u16::from(bins) + 8) / 12) as u8,
        }
    }
}

/// The step of a bin.
#[inline]
#[tactic(auto, unfolding(crate::specs::Steps::step_of))]
fn quotient(kind: u8, span: &Span, bin: usize) -> usize
    requires kind { IsKind kind span.now }
    requires within { IsIn span.now bin }
    requires end { span.now.end ≤ 253 }
    ensures { result ≡ step_of kind span.now bin }
{
    let at = bin - span.start as usize;
    let open = usize::from(coupling(span.lead));
    match kind {
        1 => at + open,
        2 => (at + 1 + open) / 2,
        _ => (at + 3 + open) / 4,
    }
}

/// The step of a bin: 0 at bin 0, then one for each difference; the first step of the coupling channel is 1.
#[inline]
pub fn step(kind: u8, span: &Span, bin: usize) -> usize
    requires kind { IsKind kind span.now }
    requires span { IsSpan span.now }
    requires within { IsIn span.now bin }
    ensures value { result ≡ step_of kind span.now bin }
    ensures bound { result ≤ last_step kind span.now }
    ensures small { result ≤ 252 }
{
    quotient(kind, span, bin)
}
