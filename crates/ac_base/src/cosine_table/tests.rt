use super::*;

#[test]
fn quarter_table(rt: HostRuntime) {
    let computed = cosines();
    let written = quarter();
    for (j, want) in [(0usize, 1_073_741_824), (256, 759_250_125), (512, 0)] {
        assert_eq!(rt; computed[j], want, "computed at {j}");
        assert_eq!(rt; written[j], want, "written at {j}");
    }
}

#[test]
fn a_period_of_cosines(rt: HostRuntime) {
    let table = quarter();
    for (phase, want) in [
        (0, 1_073_741_824),
        (256, 759_250_125),
        (512, 0),
        (768, -759_250_125),
        (1024, -1_073_741_824),
        (1536, 0),
        (1792, 759_250_125),
        (2048, 1_073_741_824),
    ] {
        assert_eq!(rt; cosine(table, phase), want, "at {phase}");
    }
}
