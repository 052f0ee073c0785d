use super::*;

// Counted from the rows of the syntax by a program of its own.
#[test]
fn side_bits_by_layout(rt: HostRuntime) {
    side_bits_law();
    for (acmod, lfe, couple, front, total) in [
        (1, false, None, 65 + 35 + 10, 65 + 35 + 5 * 10 + 18),
        (2, false, None, 133, 211),
        (3, true, None, 151, 245),
        (7, true, None, 183, 309),
        (2, false, Some((0, 15)), 474, 572),
        (2, true, Some((2, 15)), 450, 552),
        (4, false, Some((1, 0)), 233, 347),
        (5, false, Some((8, 6)), 238, 372),
        (6, true, Some((15, 13)), 245, 383),
        (7, true, Some((3, 12)), 726, 884),
    ] {
        let shape = Shape::new(0, acmod, lfe, 60, couple, 768).expect(&rt, "the shape is one");
        let want = Parts {
            front,
            total,
            last: 0,
        };
        assert_eq!(rt; side_bits(&shape), want, "at {acmod}");
    }
}
