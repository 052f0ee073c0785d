ghost use Rattle.std.specs.Prelude.{◌<◌, ◌^◌, ℕ, unsigned_abs};
ghost use Rattle.ac_energy.specs.Coefficients.{entry};
ghost use Rattle.ac_energy.specs.Energy.{AreSmallIn};

use super::rematrix;
use ac_base::{Coefs, Shape};
use std::process::Abort;

/// Each coefficient 0.
fn silence() -> Coefs
    ensures { (c : ℕ) → AreSmallIn (entry result.c c) 0 256 }
{
    Coefs::zeros()
}

fn put(coefs: &mut Coefs, c: usize, b: usize, k: usize, x: i32)
    requires channel { c < 7 }
    requires block { b < 6 }
    requires bin { k < 256 }
    requires small { unsigned_abs x < 2 ^ 24 }
    requires before { (c : ℕ) → AreSmallIn (entry coefs.old.c c) 0 256 }
    ensures { (c : ℕ) → AreSmallIn (entry coefs.new.c c) 0 256 }
{
    coefs.c[c][b][k] = x;
}

/// Pairs of the left and the right channel at the first bins of each band in block 0, and what they become.
fn check(rt: &impl Abort, pairs: &[(i32, i32)], flag: bool, coded: &[(i32, i32)]) {
    let shape = Shape::new(0, 2, false, 60, None, 768).expect(rt, "the shape is one");
    for (band, start) in [(0, 13), (1, 25), (2, 37), (3, 61)] {
        let mut coefs = silence();
        for (i, (l, r)) in pairs.iter().enumerate() {
            assert!(rt;
                l.unsigned_abs() < 1 << 24 && r.unsigned_abs() < 1 << 24 && start < 64 && i < 12
            );
            put(&mut coefs, 0, 0, start + i, *l);
            put(&mut coefs, 1, 0, start + i, *r);
        }
        let mut flags = [false; 4];
        assert!(rt; band < 4 && shape.acmod == 2);
        flags[band] = flag;
        assert!(rt;
            rematrix(&mut coefs, &shape) == flags,
            "the flags at band {band}"
        );
        for (i, (l, r)) in coded.iter().enumerate() {
            assert!(rt; start < 64 && i < 12);
            assert_eq!(rt; coefs.c[0][0][start + i], *l, "left at band {band}");
            assert_eq!(rt; coefs.c[1][0][start + i], *r, "right at band {band}");
        }
    }
}

#[test]
fn rematrix_pairs(rt: HostRuntime) {
    check(&rt, &[(-8510, -8510)], true, &[(-8510, 0)]);
    check(
        &rt,
        &[(-17089, 17089), (12757, -12757)],
        true,
        &[(0, -17089), (0, 12757)],
    );
    check(
        &rt,
        &[(30709, 0), (-4757, 0), (-14058, 0)],
        false,
        &[(30709, 0), (-4757, 0), (-14058, 0)],
    );
    check(
        &rt,
        &[
            (23807, 23804),
            (-2466, -2465),
            (-30346, -30347),
            (-4115, -4111),
        ],
        true,
        &[(23805, 1), (-2466, -1), (-30347, 0), (-4113, -2)],
    );
    check(
        &rt,
        &[
            (19255, 9627),
            (8141, 4070),
            (-29586, -14793),
            (30676, 15338),
            (-7395, -3697),
            (18460, 9230),
        ],
        true,
        &[
            (14441, 4814),
            (6105, 2035),
            (-22190, -7397),
            (23007, 7669),
            (-5546, -1849),
            (13845, 4615),
        ],
    );
    check(
        &rt,
        &[
            (638, -230),
            (13096, -6490),
            (20084, -10023),
            (-11232, 5690),
            (16398, -8186),
            (31768, -15837),
            (11692, -5815),
            (5874, -2865),
        ],
        true,
        &[
            (204, 434),
            (3303, 9793),
            (5030, 15053),
            (-2771, -8461),
            (4106, 12292),
            (7965, 23802),
            (2938, 8753),
            (1504, 4369),
        ],
    );
    check(
        &rt,
        &[
            (24282, 6070),
            (-31126, -7781),
            (-12280, -3070),
            (5730, 1432),
            (-6542, -1635),
            (2090, 522),
            (-19089, -4772),
            (22543, 5635),
            (-30812, -7703),
            (3414, 853),
            (-25348, -6337),
            (14445, 3611),
        ],
        false,
        &[
            (24282, 6070),
            (-31126, -7781),
            (-12280, -3070),
            (5730, 1432),
            (-6542, -1635),
            (2090, 522),
            (-19089, -4772),
            (22543, 5635),
            (-30812, -7703),
            (3414, 853),
            (-25348, -6337),
            (14445, 3611),
        ],
    );
    check(
        &rt,
        &[
            (8988, -3188),
            (-21296, -2589),
            (-14449, -228),
            (3115, -1112),
            (-26406, -8072),
            (21830, 10617),
            (-17343, -7095),
            (14884, 3672),
            (31542, 5809),
            (-22813, -14707),
            (15099, 5307),
            (-10625, -6630),
        ],
        true,
        &[
            (2900, 6088),
            (-11943, -9354),
            (-7339, -7111),
            (1001, 2113),
            (-17239, -9167),
            (16223, 5606),
            (-12219, -5124),
            (9278, 5606),
            (18675, 12866),
            (-18760, -4053),
            (10203, 4896),
            (-8628, -1998),
        ],
    );
    check(
        &rt,
        &[
            (-599, 83),
            (-22521, -6991),
            (11435, 7935),
            (16606, 10531),
            (6612, -369),
            (13398, 5180),
            (20813, 5453),
            (16931, 7377),
            (24512, 6328),
            (-30357, -11905),
            (-1352, -2547),
            (12882, 8171),
        ],
        true,
        &[
            (-258, -341),
            (-14756, -7765),
            (9685, 1750),
            (13568, 3037),
            (3121, 3490),
            (9289, 4109),
            (13133, 7680),
            (12154, 4777),
            (15420, 9092),
            (-21131, -9226),
            (-1950, 597),
            (10526, 2355),
        ],
    );
    check(
        &rt,
        &[
            (6804, 3888),
            (-24743, -14138),
            (19591, 11194),
            (-32558, -18604),
            (-15733, -8990),
            (2773, 1584),
            (20023, 11441),
            (-5780, -3302),
            (-7651, -4372),
            (32241, 18423),
            (15016, 8580),
            (1365, 780),
        ],
        true,
        &[
            (5346, 1458),
            (-19441, -5303),
            (15392, 4198),
            (-25581, -6977),
            (-12362, -3372),
            (2178, 594),
            (15732, 4291),
            (-4541, -1239),
            (-6012, -1640),
            (25332, 6909),
            (11798, 3218),
            (1072, 292),
        ],
    );
}

fn sample(b: usize, k: usize) -> i32
    requires block { b < 6 }
    requires bin { k < 256 }
    ensures { unsigned_abs result < 2 ^ 24 }
{
    (b * 1000 + k) as i32 - 3000
}

fn fill(coefs: &mut Coefs, c: usize)
    requires channel { c < 7 }
    requires before { (c : ℕ) → AreSmallIn (entry coefs.old.c c) 0 256 }
    ensures { (c : ℕ) → AreSmallIn (entry coefs.new.c c) 0 256 }
{
    for i in 0..1536 {
        put(coefs, c, i / 256, i % 256, sample(i / 256, i % 256));
    }
}

#[test]
fn rematrix_equal_channels(rt: HostRuntime) {
    let shape = Shape::new(0, 2, false, 0, None, 768).expect(&rt, "the shape is one");
    let mut coefs = silence();
    fill(&mut coefs, 0);
    fill(&mut coefs, 1);
    assert!(rt; shape.acmod == 2);
    assert!(rt; rematrix(&mut coefs, &shape) == [true; 4]);
    for b in 0..6 {
        for k in 0..256 {
            let right = if k < 13 || k >= 73 { sample(b, k) } else { 0 };
            assert_eq!(rt;
                coefs.c[0][b][k],
                sample(b, k),
                "left in block {b} at bin {k}"
            );
            assert_eq!(rt; coefs.c[1][b][k], right, "right in block {b} at bin {k}");
        }
    }
}
