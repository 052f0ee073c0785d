ghost use Rattle.std.specs.Prelude.{◌≡◌, ◌≤◌, ◌<◌};
ghost use Rattle.ac_base.specs.Shape.{IsSpan};
ghost use Rattle.ac_base.specs.Spans.{greatest_kind};

use super::*;
use crate::expanding::expand;
use crate::grouping::group;
use crate::laws::exponent_laws;
use ac_base::Shape;
use std::process::Abort;

/// The span of a channel of stereo with LFE.
fn span(rt: &impl Abort, bw: u8, couple: Option<(u8, u8)>, c: u8) -> Span
    ensures { IsSpan result }
{
    let shape = Shape::new(0, 2, true, bw, couple, 768).expect(rt, "the shape is one");
    assert!(rt; c < shape.coded());
    shape.span(c)
}

/// The number of kinds.
fn kinds(lead: Lead) -> u8
    ensures { result ≡ greatest_kind lead }
{
    match lead {
        Lead::Low => 1,
        Lead::Free | Lead::Coupled | Lead::Coupling => 3,
    }
}

#[test]
fn greatest_list(rt: HostRuntime) {
    let free = span(&rt, 60, None, 0);
    let mut raw = [[24; 256]; 6];
    raw[2][1] = 0;
    assert!(rt; free.lead == Lead::Free);
    let run = Run {
        from: 0,
        to: 6,
        kind: 1,
    };
    let mut out = [99; 256];
    greatest(&raw, &run, &free, &mut out);
    for (k, exponent) in [(0, 2), (1, 0), (2, 2), (3, 4), (4, 6), (252, 24), (253, 99)] {
        assert!(rt; k < 256);
        assert_eq!(rt; out[k], exponent, "bin {k}");
    }
    exponent_laws();
}

#[test]
fn blocks_outside_a_run_count_for_nothing(rt: HostRuntime) {
    let free = span(&rt, 60, None, 0);
    let mut raw = [[24; 256]; 6];
    raw[1][40] = 3;
    raw[4][40] = 5;
    raw[5][40] = 7;
    assert!(rt; free.lead == Lead::Free);
    for (from, to, exponent) in [
        (0, 1, 24),
        (0, 6, 3),
        (1, 2, 3),
        (2, 5, 5),
        (2, 4, 24),
        (5, 6, 7),
    ] {
        assert!(rt; from < to && to <= 6);
        let mut out = [0; 256];
        greatest(&raw, &Run { from, to, kind: 1 }, &free, &mut out);
        assert_eq!(rt; out[40], exponent, "blocks {from} to {to}");
    }
}

#[test]
fn silence_exponents(rt: HostRuntime) {
    let free = span(&rt, 60, None, 0);
    assert!(rt; free.lead == Lead::Free);
    let mut out = [0; 256];
    let run = Run {
        from: 0,
        to: 6,
        kind: 3,
    };
    greatest(&[[24; 256]; 6], &run, &free, &mut out);
    assert_eq!(rt; out[0], 15);
    for k in 1..253usize {
        let exponent = (17 + 2 * ((k - 1) / 4)).min(24);
        assert_eq!(rt; usize::from(out[k]), exponent, "bin {k}");
    }
    let spelled = group(3, &free, &out);
    assert_eq!(rt; spelled.first(), 15);
    assert_eq!(rt; spelled.len(), 21);
    for (place, wanted) in [(0, 124), (1, 117), (2, 62), (20, 62)] {
        assert!(rt; place < spelled.len());
        assert_eq!(rt; spelled.group_at(place), wanted, "group {place}");
    }
}

#[test]
fn exponent_group(rt: HostRuntime) {
    let free = span(&rt, 60, None, 0);
    assert!(rt; free.lead == Lead::Free);
    let mut raw = [[11; 256]; 6];
    raw[0] = [24; 256];
    raw[1][0] = 10;
    raw[1][1] = 12;
    raw[1][2] = 12;
    let run = Run {
        from: 0,
        to: 2,
        kind: 1,
    };
    let mut out = [0; 256];
    greatest(&raw, &run, &free, &mut out);
    let spelled = group(1, &free, &out);
    assert_eq!(rt; spelled.first(), 10);
    assert!(rt; spelled.len() == 84);
    assert_eq!(rt; spelled.group_at(0), 111);
    assert_eq!(rt; spelled.group_at(1), 62);
}

/// The exponents from 0 to n, as bits.
fn up_to(n: u8) -> u32 {
    u32::MAX >> (31 - u32::from(n.min(24)))
}

/// The exponents within 2 of one of a set.
fn near(set: u32) -> u32 {
    set | (set << 1) | (set << 2) | (set >> 1) | (set >> 2)
}

/// What each step can have in any list of `count` steps that is within `least`, whose neighbours are within 2, and whose
/// first step is at most `first`: a set of exponents, as bits.
fn by_sets(least: &[u8; 256], count: usize, first: u8) -> [u32; 256]
    requires { count ≤ 256 }
{
    let mut sets = [0; 256];
    sets[0] = up_to(least[0].min(first));
    for k in 1..count {
        sets[k] = up_to(least[k]) & near(sets[k - 1]);
    }
    for k in (1..count).rev() {
        sets[k - 1] &= near(sets[k]);
    }
    sets
}

#[test]
fn no_other_list_is_greater(rt: HostRuntime) {
    let mut draw: u32 = 1;
    for (couple, c, kind, first) in [
        (None, 0, 1, 15),
        (None, 0, 2, 15),
        (None, 0, 3, 15),
        (Some((0, 0)), 0, 1, 15),
        (Some((0, 0)), 0, 2, 15),
        (Some((0, 0)), 0, 3, 15),
        (Some((2, 0)), 2, 1, 24),
        (Some((2, 0)), 2, 2, 24),
        (Some((2, 0)), 2, 3, 24),
        (None, 2, 1, 15),
    ] {
        let span = span(&rt, 0, couple, c);
        assert!(rt; kind >= 1 && kind <= kinds(span.lead) && span.start < span.end);
        for low in [0, 12, 20] {
            let mut raw = [[24; 256]; 6];
            let mut least = [24; 256];
            for b in 2..4usize {
                for k in usize::from(span.start)..usize::from(span.end) {
                    draw = draw.wrapping_mul(1_664_525).wrapping_add(1_013_904_223);
                    let value = (low + (draw >> 28) as u8).min(24);
                    let at = step_in_test(kind, &span, k);
                    assert!(rt; at < 256 && k < 256);
                    raw[b][k] = value;
                    least[at] = least[at].min(value);
                }
            }
            let last = step_in_test(kind, &span, usize::from(span.end) - 1);
            assert!(rt; last < 256);
            let sets = by_sets(&least, last + 1, first);
            let mut out = [0; 256];
            let run = Run {
                from: 2,
                to: 4,
                kind,
            };
            greatest(&raw, &run, &span, &mut out);
            for k in usize::from(span.start)..usize::from(span.end) {
                let at = step_in_test(kind, &span, k);
                assert!(rt; at < 256 && k < 256);
                let bits = 32 - sets[at].leading_zeros();
                assert_eq!(rt; u32::from(out[k]) + 1, bits, "kind {kind}, bin {k}");
            }
        }
    }
}

/// The step of a bin, from 0 in each channel.
fn step_in_test(kind: u8, span: &Span, k: usize) -> usize
    requires within { span.now.start ≤ k }
    requires bin { k < 256 }
{
    let at = k - usize::from(span.start);
    let ahead = usize::from(span.lead != Lead::Coupling);
    match kind {
        1 => at,
        2 => (at + ahead) / 2,
        _ => (at + 3 * ahead) / 4,
    }
}

#[test]
fn groups_give_exponents_back(rt: HostRuntime) {
    let mut draw: u32 = 7;
    for (bw, couple, c) in [
        (60, None, 0),
        (0, None, 1),
        (60, Some((0, 15)), 0),
        (60, Some((15, 15)), 1),
        (60, Some((2, 0)), 2),
        (60, Some((0, 15)), 2),
        (60, None, 2),
    ] {
        let span = span(&rt, bw, couple, c);
        for kind in 1..kinds(span.lead) + 1 {
            let mut raw = [[0; 256]; 6];
            for b in 0..6usize {
                for k in 0..256usize {
                    draw = draw.wrapping_mul(1_664_525).wrapping_add(1_013_904_223);
                    raw[b][k] = (draw >> 27).min(24) as u8;
                }
            }
            let mut out = [77; 256];
            greatest(
                &raw,
                &Run {
                    from: 4,
                    to: 6,
                    kind,
                },
                &span,
                &mut out,
            );
            let spelled = group(kind, &span, &out);
            let mut back = [77; 256];
            assert!(rt; expand(kind, &span, &spelled, &mut back).is_ok());
            assert!(rt; back == out);
        }
    }
}
