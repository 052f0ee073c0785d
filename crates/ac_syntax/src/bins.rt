//! The bins of a block's coded channels (A/52 7.1.3).
ghost use Rattle.std.specs.Prelude.{◌≡◌, ◌<◌, ◌≤◌, ◌+◌, ◌*◌, ◌==◌, if◌then◌else◌, Option, None};
ghost use Rattle.std.specs.Option.{ForSome};
ghost use Rattle.ac_base.specs.Shape.{full_span, next_span, low_span};
ghost use Rattle.ac_syntax.specs.Later.{later_span};
ghost use Rattle.ac_rows.specs.Groups.{strategy_of};
ghost use Rattle.ac_rows.specs.Filled.{number, holds, listed, range_of, is_coupled, blank_span, span_in, spans_of, HasSpans};

use ac_base::{Lead, Span};
use ac_rows::{Block, Head, both, full_channels, holds, number};

/// cplbegf and cplendf, where coupling is in use.
fn range(b: &Block) -> Option<(u8, u8)>
    ensures { result ≡ range_of (strategy_of b.now) }
{
    if holds(b.cplinu) {
        Some((number(b.cplbegf), number(b.cplendf)))
    } else {
        None
    }
}

/// The range of the coupling of full channel `i`, where it is coupled.
fn own_range(b: &Block, i: usize) -> Option<(u8, u8)>
    requires { i < 5 }
    ensures { result ≡ if is_coupled (strategy_of b.now) i then range_of (strategy_of b.now) else None }
{
    if both(holds(b.cplinu), holds(b.chincpl[i])) {
        range(b)
    } else {
        None
    }
}

/// No channel.
fn blank() -> Span
    ensures { result ≡ blank_span }
{
    Span {
        start: 0,
        end: 0,
        lead: Lead::Free,
    }
}

/// The bins of a full channel: up to the coupling where it is coupled, or by its bandwidth.
fn full_bins(range: Option<(u8, u8)>, chbwcod: u8) -> Span
    requires range { ForSome range (λ p. p.0 ≤ 15) }
    requires width { range ≡ None → chbwcod ≤ 60 }
    ensures { result ≡ full_span chbwcod range }
{
    match range {
        Some((begin, _)) => Span {
            start: 0,
            end: 37 + 12 * begin,
            lead: Lead::Coupled,
        },
        None => Span {
            start: 0,
            end: 37 + 3 * (chbwcod + 12),
            lead: Lead::Free,
        },
    }
}

/// The bins of the channel behind the full ones: the coupling channel where coupling is in use, or else LFE.
fn next_bins(range: Option<(u8, u8)>) -> Span
    requires { ForSome range (λ p. (p.0 ≤ 15) × (p.1 ≤ 15)) }
    ensures { result ≡ next_span range }
{
    match range {
        Some((begin, end)) => Span {
            start: 37 + 12 * begin,
            end: 37 + 12 * (end + 3),
            lead: Lead::Coupling,
        },
        None => low_bins(),
    }
}

/// The bins of LFE.
fn low_bins() -> Span
    ensures { result ≡ low_span }
{
    Span {
        start: 0,
        end: 7,
        lead: Lead::Low,
    }
}

/// The bins of the channel that stands behind the full ones and the coupling channel.
fn last_bins(there: bool) -> Span
    ensures { result ≡ if there then low_span else blank_span }
{
    if there { low_bins() } else { blank() }
}

/// The bins of coded channel `c`, which is none of the full ones.
fn later_bins(h: &Head, b: &Block, c: usize, full: usize) -> Span
    requires range { ForSome (range_of (strategy_of b.now)) (λ p. (p.0 ≤ 15) × (p.1 ≤ 15)) }
    requires full { full ≤ 5 }
    ensures { result ≡ later_span h.now b.now full c }
{
    if holds(b.cplinu) {
        if c == full {
            next_bins(range(b))
        } else {
            last_bins(both(c == full + 1, h.lfeon))
        }
    } else {
        last_bins(both(c == full, h.lfeon))
    }
}

/// The bins of coded channel `c`.
fn bins(h: &Head, b: &Block, c: usize) -> Span
    requires { HasSpans h.now b.now }
    ensures { result ≡ span_in h.now b.now c }
{
    let full = usize::from(full_channels(h.acmod));
    if c < full {
        full_bins(own_range(b, c), number(b.chbwcod[c]))
    } else {
        later_bins(h, b, c, full)
    }
}

/// The bins of each coded channel of a filled block, in their order: the full channels, the coupling channel where coupling is
/// in use, and LFE. Each further entry has start 0, end 0 and the lead Free (A/52 7.1.3).
///
/// The head is one that is read, and the block one that `filled` gave.
#[tactic(auto, unfolding(ac_rows::specs::Filled::listed))]
pub fn spans(head: &Head, block: &Block) -> [Span; 7]
    requires { HasSpans head.now block.now }
    ensures { result ≡ spans_of head.now block.now }
{
    [
        bins(head, block, 0),
        bins(head, block, 1),
        bins(head, block, 2),
        bins(head, block, 3),
        bins(head, block, 4),
        bins(head, block, 5),
        bins(head, block, 6),
    ]
}
