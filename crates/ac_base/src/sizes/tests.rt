use super::*;

#[test]
fn crc_part_words(rt: HostRuntime) {
    for (words, front, room, last) in [
        (64, 40, 640, 358),
        (69, 42, 672, 406),
        (1920, 1200, 19_200, 11_494),
    ] {
        assert_eq!(rt; front_words(words), front, "at {words}");
        let want = Parts {
            front: room,
            total: 16 * u32::from(words),
            last,
        };
        assert_eq!(rt; rooms(words), want, "at {words}");
    }
}

#[test]
fn alternating_frame_sizes(rt: HostRuntime) {
    for (rate, fscod, frame, want) in [
        (192, 1, 0, 417),
        (192, 1, 1, 418),
        (32, 1, 0, 69),
        (640, 1, 4_294_967_295, 1393),
        (32, 0, 9, 64),
        (640, 2, 5, 1920),
    ] {
        assert_eq!(rt;
            frame_words(rate, fscod, frame),
            want,
            "{rate} kbit/s, frame {frame}"
        );
    }
}

#[test]
fn parts_are_told_apart(rt: HostRuntime) {
    assert_ne!(rt; Part::Front, Part::Total);
    assert_ne!(rt; Part::Total, Part::Last);
}

// A/52 Table 5.18 at 48, 44.1 and 32 kHz.
#[test]
fn words_of_each_code(rt: HostRuntime) {
    for (code, at_48, at_44, at_32) in [
        (0, 64, 69, 96),
        (1, 64, 70, 96),
        (2, 80, 87, 120),
        (3, 80, 88, 120),
        (4, 96, 104, 144),
        (5, 96, 105, 144),
        (6, 112, 121, 168),
        (7, 112, 122, 168),
        (8, 128, 139, 192),
        (9, 128, 140, 192),
        (10, 160, 174, 240),
        (11, 160, 175, 240),
        (12, 192, 208, 288),
        (13, 192, 209, 288),
        (14, 224, 243, 336),
        (15, 224, 244, 336),
        (16, 256, 278, 384),
        (17, 256, 279, 384),
        (18, 320, 348, 480),
        (19, 320, 349, 480),
        (20, 384, 417, 576),
        (21, 384, 418, 576),
        (22, 448, 487, 672),
        (23, 448, 488, 672),
        (24, 512, 557, 768),
        (25, 512, 558, 768),
        (26, 640, 696, 960),
        (27, 640, 697, 960),
        (28, 768, 835, 1152),
        (29, 768, 836, 1152),
        (30, 896, 975, 1344),
        (31, 896, 976, 1344),
        (32, 1024, 1114, 1536),
        (33, 1024, 1115, 1536),
        (34, 1152, 1253, 1728),
        (35, 1152, 1254, 1728),
        (36, 1280, 1393, 1920),
        (37, 1280, 1394, 1920),
    ] {
        assert!(rt; code <= 37);
        assert_eq!(rt; code_words(0, code), at_48, "code {code}");
        assert_eq!(rt; code_words(1, code), at_44, "code {code}");
        assert_eq!(rt; code_words(2, code), at_32, "code {code}");
    }
}

#[test]
fn parts_at_their_rooms_fit(rt: HostRuntime) {
    for (front, total, last, fit) in [
        (471, 597, 0, true),
        (640, 1024, 358, true),
        (641, 1024, 358, false),
        (640, 1025, 358, false),
        (640, 1024, 359, false),
    ] {
        let parts = Parts { front, total, last };
        assert_eq!(rt; parts.fit(64), fit, "{front} {total} {last}");
    }
}
