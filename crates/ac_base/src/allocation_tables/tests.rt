use super::*;

#[test]
fn log_addition_by_the_printed_table(rt: HostRuntime) {
    for (i, want) in [
        (0, 64),
        (11, 53),
        (12, 52),
        (13, 52),
        (100, 10),
        (158, 3),
        (159, 2),
        (177, 2),
        (178, 1),
        (209, 1),
        (210, 0),
        (255, 0),
    ] {
        assert_eq!(rt; latab(i), want, "at {i}");
    }
}

#[test]
fn bands_by_the_printed_tables(rt: HostRuntime) {
    for (b, want) in [
        (0, 0),
        (27, 27),
        (28, 28),
        (29, 31),
        (35, 49),
        (49, 229),
        (50, 253),
    ] {
        assert_eq!(rt; band_start(b), want, "of band {b}");
    }
    for (bin, want) in [(0, 0), (30, 28), (31, 29), (132, 44), (133, 45), (252, 49)] {
        assert_eq!(rt; band_of(bin), want, "of bin {bin}");
    }
}

#[test]
fn thresholds_and_pointers_by_the_printed_tables(rt: HostRuntime) {
    for (fscod, band, want) in [
        (0, 0, 0x4d0),
        (0, 33, 0x2f0),
        (0, 49, 0x840),
        (1, 2, 0x460),
        (1, 47, 0x630),
        (2, 0, 0x580),
        (2, 35, 0x2f0),
        (2, 49, 0x4e0),
    ] {
        assert_eq!(rt;
            hearing(fscod, band),
            want,
            "of band {band} at fscod {fscod}"
        );
    }
    for (a, want) in [
        (0, 0),
        (1, 1),
        (5, 1),
        (6, 2),
        (46, 13),
        (47, 14),
        (54, 14),
        (55, 15),
        (63, 15),
    ] {
        assert_eq!(rt; baptab(a), want, "at {a}");
    }
}
