ghost use Rattle.std.specs.Prelude.{◌<◌, ◌^◌, ℕ, unsigned_abs};
ghost use Rattle.ac_energy.specs.Coefficients.{entry};
ghost use Rattle.ac_energy.specs.Energy.{AreSmallIn};

use super::{Coordinate, Joint, join};
use ac_base::{Coefs, Shape};

/// Each coefficient 0.
fn silence() -> Coefs
    ensures { (c : ℕ) → AreSmallIn (entry result.c c) 0 256 }
{
    Coefs::zeros()
}

fn put(coefs: &mut Coefs, c: usize, b: usize, k: usize, x: i32)
    requires channel { c < 7 }
    requires block { b < 6 }
    requires bin { k < 256 }
    requires small { unsigned_abs x < 2 ^ 24 }
    requires before { (c : ℕ) → AreSmallIn (entry coefs.old.c c) 0 256 }
    ensures { (c : ℕ) → AreSmallIn (entry coefs.new.c c) 0 256 }
{
    coefs.c[c][b][k] = x;
}

/// Two channels that are equal at bins 13, 25 and 37, and a LFE: by hand, both bands below the coupling are rematrixed, the coupling
/// channel is the channels' mean, rounded downwards, and LFE moves behind it.
#[test]
fn coupled_and_rematrixed(rt: HostRuntime) {
    let shape = Shape::new(0, 2, true, 60, Some((0, 0)), 768).expect(&rt, "the shape is one");
    let mut coefs = silence();
    for (c, k, x) in [
        (0, 13, 100),
        (1, 13, 100),
        (0, 25, 7),
        (1, 25, 7),
        (0, 37, 100),
        (1, 37, 100),
        (0, 49, 4),
        (1, 49, -5),
        (2, 3, 55),
    ] {
        let x: i32 = x;
        assert!(rt; c < 7 && k < 256 && x.unsigned_abs() < 1 << 24);
        put(&mut coefs, c, 2, k, x);
    }
    let joint = join(&mut coefs, &shape);
    assert!(rt; joint.remat == [true, true, false, false]);
    for (c, k, x) in [
        (0, 13, 100),
        (1, 13, 0),
        (0, 25, 7),
        (1, 25, 0),
        (2, 37, 100),
        (2, 49, -1),
        (3, 3, 55),
    ] {
        assert!(rt; c < 7 && k < 256);
        assert_eq!(rt; coefs.c[c][2][k], x, "channel {c} at bin {k}");
    }
    for (c, band, exp, mant) in [
        (0, 0, 2, 0),
        (1, 0, 2, 0),
        (0, 1, 0, 0),
        (1, 1, 0, 4),
        (0, 2, 0, 15),
        (0, 3, 0, 0),
        (2, 0, 0, 0),
    ] {
        assert!(rt; c < 5 && band < 18);
        assert_eq!(rt;
            joint.coords.of[c][band],
            Coordinate { exp, mant },
            "channel {c}, band {band}"
        );
    }
}

/// Three channels without a coupling stay as they are.
#[test]
fn three_channels_alone(rt: HostRuntime) {
    let shape = Shape::new(0, 3, false, 60, None, 768).expect(&rt, "the shape is one");
    let mut coefs = silence();
    put(&mut coefs, 0, 5, 20, 9);
    put(&mut coefs, 1, 5, 20, 9);
    let before = coefs;
    let Joint { remat, coords } = join(&mut coefs, &shape);
    assert!(rt; remat == [false; 4]);
    assert!(rt; coefs == before);
    assert!(rt; coords.of == [[Coordinate { exp: 0, mant: 0 }; 18]; 5]);
}
