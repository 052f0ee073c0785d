//! The bins of coded channels (A/52 7.1.3).
ghost use Rattle.std.specs.Prelude.{◌≡◌, ◌≤◌};
ghost use Rattle.ac_base.specs.Shape.{IsSpan, full_span, next_span};
ghost use Rattle.ac_rows.specs.BlockRows.{HasSubbands};

use ac_base::{Span, coupled_span, coupling_span, free_span, low_span};

/// The bins of a full channel: those of a coupled one, or by chbwcod.
pub fn full_span(range: Option<(u8, u8)>, chbwcod: u8) -> Span
    requires range { HasSubbands range }
    requires width { chbwcod ≤ 60 }
    ensures value { result ≡ full_span chbwcod range }
    ensures bound { IsSpan result }
{
    match range {
        Some((begin, _)) => coupled_span(begin),
        None => free_span(chbwcod),
    }
}

/// The bins of the channel behind the full ones: the coupling channel, or else LFE.
pub fn next_span(range: Option<(u8, u8)>) -> Span
    requires range { HasSubbands range }
    ensures value { result ≡ next_span range }
    ensures bound { IsSpan result }
{
    match range {
        Some((begin, end)) => coupling_span(begin, end),
        None => low_span(),
    }
}
