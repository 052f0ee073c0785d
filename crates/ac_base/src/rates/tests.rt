use super::*;

#[test]
fn first_middle_and_last_rate(rt: HostRuntime) {
    for (code, want) in [(0, 32), (10, 192), (18, 640)] {
        assert_eq!(rt; rate(code), want, "at {code}");
    }
}
