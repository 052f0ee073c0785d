ghost use Rattle.ac_base.specs.Shape.{IsSpan};

use super::*;
use crate::steps::groups;
use ac_base::Shape;
use std::process::Abort;

/// The span of the first channel of mono at full bandwidth.
fn widest(rt: &impl Abort) -> Span
    ensures { IsSpan result }
{
    let shape = Shape::new(0, 1, false, 60, None, 768).expect(rt, "the shape is one");
    assert!(rt; 0 < shape.coded());
    shape.span(0)
}

#[test]
fn refused_groups(rt: HostRuntime) {
    let span = widest(&rt);
    assert!(rt; span.lead == Lead::Free);
    for (first, groups_, place) in [
        (0, [62, 62, 125, 125], Some(2)),
        (0, [62, 124, 124, 255], Some(3)),
        (0, [12, 62, 62, 62], Some(0)),
        (0, [112, 12, 12, 62], Some(2)),
        (15, [124, 124, 62, 62], Some(1)),
        (15, [124, 112, 112, 62], Some(2)),
        (15, [124, 87, 62, 62], None),
        (2, [12, 112, 62, 62], None),
    ] {
        let mut spelled = Spelled::new(first);
        for group in groups_ {
            assert!(rt; spelled.len() < 84);
            spelled.push(group);
        }
        for _place in 0..80u8 {
            assert!(rt; spelled.len() < 84);
            spelled.push(62);
        }
        assert!(rt; spelled.len() == groups(1, &span) && spelled.first() <= 15);
        let mut out = [99; 256];
        match expand(1, &span, &spelled, &mut out) {
            Ok(()) => assert!(rt; place.is_none() && out[0] == first && out[253] == 99),
            Err(bad) => assert!(rt; Some(bad.place) == place && out == [99; 256]),
        }
    }
}

#[test]
fn bad_exponent_at_zero(rt: HostRuntime) {
    let span = widest(&rt);
    assert!(rt; span.lead == Lead::Free);
    let mut spelled = Spelled::new(0);
    assert!(rt; spelled.is_empty());
    spelled.push(12);
    for _place in 0..83u8 {
        assert!(rt; spelled.len() < 84);
        spelled.push(62);
    }
    assert!(rt; spelled.len() == groups(1, &span) && spelled.first() <= 15);
    let mut out = [0; 256];
    assert!(rt; expand(1, &span, &spelled, &mut out) == Err(BadExponent { place: 0 }));
}
