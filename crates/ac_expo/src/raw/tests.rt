use super::*;
use crate::raws::RawExps;
use ac_base::{Coefs, Shape};

#[test]
fn raw_exponents(rt: HostRuntime) {
    for (c, exponent) in [
        (23_241, 9),
        (0, 24),
        (16_777_215, 0),
        (-16_777_215, 0),
        (1, 23),
        (-1, 23),
        (8_388_608, 0),
        (8_388_607, 1),
        (-8_388_608, 0),
    ] {
        let c: i32 = c;
        assert!(rt; c.unsigned_abs() < 1 << 24);
        assert_eq!(rt; raw_exponent(c), exponent, "of {c}");
    }
}

#[test]
fn raw_exponents_of_silence(rt: HostRuntime) {
    let shape = Shape::new(0, 2, true, 60, None, 768).expect(&rt, "the shape is one");
    let raw = RawExps::of(&shape, &Coefs::zeros());
    for (c, b, k) in [(0, 0, 0), (1, 5, 252), (2, 3, 6), (6, 5, 255)] {
        assert!(rt; c < 7 && b < 6 && k < 256);
        assert_eq!(rt; raw.e[c][b][k], 24, "at {c} {b} {k}");
    }
}
