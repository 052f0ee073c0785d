use super::*;
use crate::spans::Lead;

#[test]
fn refused_shapes(rt: HostRuntime) {
    for (fscod, acmod, bw, couple, words) in [
        (3, 2, 60, None, 768),
        (0, 0, 60, None, 768),
        (0, 8, 60, None, 768),
        (0, 2, 61, None, 768),
        (0, 2, 60, None, 63),
        (0, 2, 60, None, 1921),
        (0, 1, 60, Some((0, 15)), 768),
        (0, 2, 60, Some((16, 15)), 768),
        (0, 2, 60, Some((0, 16)), 768),
        (0, 2, 60, Some((11, 8)), 768),
    ] {
        let shape = Shape::new(fscod, acmod, false, bw, couple, words);
        assert!(rt;
            shape.is_none(),
            "fscod {fscod}, acmod {acmod}, bw {bw}, {words} words"
        );
    }
}

#[test]
fn channels_by_layout(rt: HostRuntime) {
    for (acmod, lfe, couple, full, coded) in [
        (1, false, None, 1, 1),
        (2, false, Some((0, 15)), 2, 3),
        (3, false, None, 3, 3),
        (4, true, None, 3, 4),
        (5, false, None, 4, 4),
        (6, false, None, 4, 4),
        (7, true, Some((10, 8)), 5, 7),
    ] {
        let shape = Shape::new(0, acmod, lfe, 60, couple, 1920).expect(&rt, "the shape is one");
        assert_eq!(rt; shape.full(), full, "at {acmod}");
        assert_eq!(rt; shape.coded(), coded, "at {acmod}");
    }
}

#[test]
fn spans_of_coded_channels(rt: HostRuntime) {
    let free = Shape::new(1, 2, true, 60, None, 835).expect(&rt, "the shape is one");
    let coupled = Shape::new(1, 7, true, 0, Some((3, 12)), 835).expect(&rt, "the shape is one");
    for (shape, c, start, end, lead) in [
        (free, 0, 0, 253, Lead::Free),
        (free, 1, 0, 253, Lead::Free),
        (free, 2, 0, 7, Lead::Low),
        (coupled, 0, 0, 73, Lead::Coupled),
        (coupled, 4, 0, 73, Lead::Coupled),
        (coupled, 5, 73, 217, Lead::Coupling),
        (coupled, 6, 0, 7, Lead::Low),
    ] {
        assert!(rt; c < shape.coded());
        assert_eq!(rt; shape.span(c), Span { start, end, lead }, "channel {c}");
    }
}
