//! What the coded channels of a block are.
ghost use Rattle.std.specs.Prelude.{◌≡◌, ◌<◌, ◌≤◌, ℕ, true, false};
ghost use Rattle.ac_base.specs.Spans.{is_coupling};
ghost use Rattle.ac_separation.specs.Written.{is_coupled_lead, lead_at};

use ac_base::{Lead, Span};

/// Whether it is the coupling channel.
#[inline]
fn is_coupling(lead: Lead) -> bool
    ensures { result ≡ is_coupling lead }
{
    match lead {
        Lead::Coupling => true,
        Lead::Free | Lead::Coupled | Lead::Low => false,
    }
}

/// Whether it is a coupled channel.
#[inline]
pub fn is_coupled(lead: Lead) -> bool
    ensures { result ≡ is_coupled_lead lead }
{
    match lead {
        Lead::Coupled => true,
        Lead::Free | Lead::Coupling | Lead::Low => false,
    }
}

/// The coupling channel among the coded channels; 7 where there is none.
pub fn coupling_channel(spans: &[Span; 7]) -> usize
    ensures found { result < 7 → is_coupling (lead_at spans.now result) ≡ true }
    ensures first { (c : ℕ) → c < result → is_coupling (lead_at spans.now c) ≡ false }
    ensures bound { result ≤ 7 }
{
    for c in 0..7 {
        if is_coupling(spans[c].lead) {
            return c;
        }
    }
    7
}
