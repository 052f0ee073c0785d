use super::*;

#[test]
fn window_rises_and_falls(rt: HostRuntime) {
    for (n, want) in [
        (0, 4),
        (1, 7),
        (255, 32767),
        (256, 32767),
        (510, 7),
        (511, 4),
    ] {
        assert_eq!(rt; window(n), want, "at {n}");
    }
}
