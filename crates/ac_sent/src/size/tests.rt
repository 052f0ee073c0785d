use super::*;

/// By Table 5.18: 32, 192, 384 and 640 kbit/s, and a size that no frame has.
#[test]
fn codes_at_48_khz(rt: HostRuntime) {
    for (words, want) in [
        (64, Some(0)),
        (384, Some(20)),
        (768, Some(28)),
        (1280, Some(36)),
        (385, None),
    ] {
        assert_eq!(rt; frame_code(0, words), want, "{words} words");
    }
}

/// By Table 5.18: both sizes of 32 and of 192 kbit/s, the greater of 640 kbit/s, and a size that no frame has.
#[test]
fn codes_at_44_khz(rt: HostRuntime) {
    for (words, want) in [
        (69, Some(0)),
        (70, Some(1)),
        (417, Some(20)),
        (418, Some(21)),
        (1394, Some(37)),
        (71, None),
    ] {
        assert_eq!(rt; frame_code(1, words), want, "{words} words");
    }
}

/// By Table 5.18: 32 and 640 kbit/s, and a size that no frame has.
#[test]
fn codes_at_32_khz(rt: HostRuntime) {
    for (words, want) in [(96, Some(0)), (1920, Some(36)), (64, None)] {
        assert_eq!(rt; frame_code(2, words), want, "{words} words");
    }
}
