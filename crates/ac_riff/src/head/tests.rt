use super::*;
use crate::fault::Field;
use crate::law::head_law;
use crate::memory;
use ac_io::StdSource;
use std::test::Fail;

/// A head of 44 bytes: PCM, one channel of 16 bits at 48 kHz, no data.
static PLAIN: [u8; 44] = [
    82, 73, 70, 70, 0, 0, 0, 0, 87, 65, 86, 69, 102, 109, 116, 32, 16, 0, 0, 0, 1, 0, 1, 0, 128,
    187, 0, 0, 0, 119, 1, 0, 2, 0, 16, 0, 100, 97, 116, 97, 0, 0, 0, 0,
];

/// A head of 68 bytes: the extensible form, one channel of 24 bits at 48 kHz with mask 4, data to the end.
static WIDE: [u8; 68] = [
    82, 73, 70, 70, 255, 255, 255, 255, 87, 65, 86, 69, 102, 109, 116, 32, 40, 0, 0, 0, 254, 255,
    1, 0, 128, 187, 0, 0, 128, 50, 2, 0, 3, 0, 24, 0, 22, 0, 24, 0, 4, 0, 0, 0, 1, 0, 0, 0, 0, 0,
    16, 0, 128, 0, 0, 170, 0, 56, 155, 113, 100, 97, 116, 97, 255, 255, 255, 255,
];

/// A number that is written over the bytes at a place: the place, the number, the count of its bytes.
type Edit = (u8, u32, u8);

const NONE: Edit = (0, 0, 0);

fn write(bytes: &mut [u8], edit: Edit) {
    let value = edit.1.to_le_bytes();
    for i in 0..4usize {
        let at = usize::from(edit.0) + i;
        if i < usize::from(edit.2) && at < bytes.len() {
            bytes[at] = value[i];
        }
    }
}

/// What the bytes are read as, with two edits.
fn read_edited(bytes: &mut [u8], first: Edit, second: Edit) -> Result<WavHead, WavFault> {
    write(bytes, first);
    write(bytes, second);
    let mut source = StdSource::new(&*bytes);
    WavHead::read(&mut source, 1000)
}

#[test]
fn refused_heads(rt: HostRuntime) {
    head_law();
    for (first, second, kind, place) in [
        ((0, 0x58464952, 4), NONE, WavKind::NotRiff, 0),
        ((8, 0x58564157, 4), NONE, WavKind::NotRiff, 8),
        ((3, 88, 1), (8, 88, 1), WavKind::NotRiff, 0),
        ((16, 14, 4), NONE, WavKind::BadFmt(Field::Size), 16),
        ((20, 3, 2), NONE, WavKind::Unsupported(Field::Tag, 3), 20),
        ((20, 0xFFFE, 2), NONE, WavKind::BadFmt(Field::Size), 16),
        (
            (22, 0, 2),
            NONE,
            WavKind::Unsupported(Field::Channels, 0),
            22,
        ),
        (
            (22, 7, 2),
            NONE,
            WavKind::Unsupported(Field::Channels, 7),
            22,
        ),
        (
            (24, 8000, 4),
            NONE,
            WavKind::Unsupported(Field::Rate, 8000),
            24,
        ),
        ((34, 8, 2), NONE, WavKind::Unsupported(Field::Bits, 8), 34),
        ((32, 4, 2), NONE, WavKind::BadFmt(Field::Align), 32),
        ((12, 0x61746164, 4), NONE, WavKind::NoFmt, 12),
        ((16, 14, 4), (20, 3, 2), WavKind::BadFmt(Field::Size), 16),
        (
            (20, 3, 2),
            (22, 0, 2),
            WavKind::Unsupported(Field::Tag, 3),
            20,
        ),
        (
            (20, 0xFFFE, 2),
            (22, 0, 2),
            WavKind::BadFmt(Field::Size),
            16,
        ),
        (
            (22, 7, 2),
            (24, 8000, 4),
            WavKind::Unsupported(Field::Channels, 7),
            22,
        ),
        (
            (24, 8000, 4),
            (34, 8, 2),
            WavKind::Unsupported(Field::Rate, 8000),
            24,
        ),
        (
            (34, 8, 2),
            (32, 4, 2),
            WavKind::Unsupported(Field::Bits, 8),
            34,
        ),
        (
            (16, 17, 4),
            (20, 3, 2),
            WavKind::Unsupported(Field::Tag, 3),
            20,
        ),
        ((16, 0xFFFFFFFF, 4), (20, 3, 2), WavKind::Short, 44),
        ((36, 0x20746D66, 4), NONE, WavKind::NoData, 44),
    ] {
        let mut bytes = PLAIN;
        assert!(rt;
            read_edited(&mut bytes, first, second) == Err(WavFault::Bad(kind, place)),
            "{first:?} {second:?}"
        );
    }
}

#[test]
fn refused_extensions(rt: HostRuntime) {
    for (first, second, kind, place) in [
        ((36, 21, 2), NONE, WavKind::BadFmt(Field::Extra), 36),
        ((40, 5, 4), NONE, WavKind::Unsupported(Field::Mask, 5), 40),
        ((40, 3, 4), NONE, WavKind::BadFmt(Field::Mask), 40),
        (
            (44, 3, 2),
            NONE,
            WavKind::Unsupported(Field::Subformat, 3),
            44,
        ),
        (
            (59, 0, 1),
            NONE,
            WavKind::Unsupported(Field::Subformat, 1),
            44,
        ),
        ((32, 4, 2), (36, 21, 2), WavKind::BadFmt(Field::Align), 32),
        ((36, 21, 2), (40, 5, 4), WavKind::BadFmt(Field::Extra), 36),
        (
            (40, 5, 4),
            (44, 3, 2),
            WavKind::Unsupported(Field::Mask, 5),
            40,
        ),
        ((40, 3, 4), (44, 3, 2), WavKind::BadFmt(Field::Mask), 40),
        ((16, 39, 4), (22, 0, 2), WavKind::BadFmt(Field::Size), 16),
        (
            (40, 0x80000004, 4),
            NONE,
            WavKind::Unsupported(Field::Mask, 0x80000004),
            40,
        ),
    ] {
        let mut bytes = WIDE;
        assert!(rt;
            read_edited(&mut bytes, first, second) == Err(WavFault::Bad(kind, place)),
            "{first:?} {second:?}"
        );
    }
}

#[test]
fn heads_that_end_early(rt: HostRuntime) {
    for k in 0..44usize {
        let bytes = PLAIN;
        let mut source = StdSource::new(&bytes[..k]);
        let kind = if k == 12 || k == 36 {
            WavKind::NoData
        } else {
            WavKind::Short
        };
        assert!(rt;
            WavHead::read(&mut source, 1000) == Err(WavFault::Bad(kind, k as u64)),
            "{k}"
        );
    }
}

#[test]
fn faults_before_the_next_chunk(rt: HostRuntime) {
    // the first rule that fails is answered, whatever comes behind it
    for (place, value, length, kind, at) in [
        (20, 3, 36, WavKind::Unsupported(Field::Tag, 3), 20),
        (22, 7, 40, WavKind::Unsupported(Field::Channels, 7), 22),
        (32, 4, 44, WavKind::BadFmt(Field::Align), 32),
        (20, 3, 35, WavKind::Short, 35),
        (0, 0, 11, WavKind::Short, 11),
        (0, 0, 12, WavKind::NotRiff, 0),
        (12, 0x61746164, 20, WavKind::NoFmt, 12),
        (12, 0x61746164, 19, WavKind::Short, 19),
    ] {
        let mut bytes = PLAIN;
        write(
            &mut bytes,
            (place, value, if place == 0 || place == 12 { 4 } else { 2 }),
        );
        let mut source = StdSource::new(&bytes[..length]);
        assert!(rt;
            WavHead::read(&mut source, 1000) == Err(WavFault::Bad(kind, at)),
            "{place} {value} {length}"
        );
    }
}

#[test]
fn limits_of_refusals(rt: HostRuntime) {
    // a refusal that needs no byte past the limit, and one that needs the next one
    for limit in 35..38u64 {
        let mut bytes = PLAIN;
        write(&mut bytes, (20, 3, 2));
        let mut source = StdSource::new(bytes.as_slice());
        let fault = if limit < 36 {
            WavFault::TooLong
        } else {
            WavFault::Bad(WavKind::Unsupported(Field::Tag, 3), 20)
        };
        assert!(rt; WavHead::read(&mut source, limit) == Err(fault), "{limit}");
    }
}

#[test]
fn limits_of_heads(rt: HostRuntime) {
    for limit in 0..46u64 {
        let mut source = StdSource::new(PLAIN.as_slice());
        let read = WavHead::read(&mut source, limit);
        assert!(rt; read.is_ok() == (limit >= 44), "{limit}");
        assert!(rt; limit >= 44 || read == Err(WavFault::TooLong), "{limit}");
    }
    // a list that ends at the limit is short and not too long
    let mut source = StdSource::new(&PLAIN[..20]);
    assert!(rt; WavHead::read(&mut source, 20) == Err(WavFault::Bad(WavKind::Short, 20)));
}

#[test]
fn extensible_layouts(rt: HostRuntime) {
    for (mask, channels, acmod, lfe, order) in [
        (0x4u32, 1u8, 1u8, false, [0, 0, 0, 0, 0, 0]),
        (0x1, 1, 1, false, [0, 0, 0, 0, 0, 0]),
        (0, 1, 1, false, [0, 0, 0, 0, 0, 0]),
        (0x603, 4, 6, false, [0, 1, 2, 3, 0, 0]),
        (0xB, 3, 2, true, [0, 1, 2, 0, 0, 0]),
        (0x10F, 5, 5, true, [0, 2, 1, 4, 3, 0]),
        (0x60F, 6, 7, true, [0, 2, 1, 4, 5, 3]),
        (0, 6, 7, true, [0, 2, 1, 4, 5, 3]),
        (0xC, 2, 1, true, [0, 1, 0, 0, 0, 0]),
        (0x9, 2, 1, true, [0, 1, 0, 0, 0, 0]),
        (0x3, 2, 2, false, [0, 1, 0, 0, 0, 0]),
        (0, 2, 2, false, [0, 1, 0, 0, 0, 0]),
        (0x7, 3, 3, false, [0, 2, 1, 0, 0, 0]),
        (0, 3, 3, false, [0, 2, 1, 0, 0, 0]),
        (0xF, 4, 3, true, [0, 2, 1, 3, 0, 0]),
        (0x103, 3, 4, false, [0, 1, 2, 0, 0, 0]),
        (0x10B, 4, 4, true, [0, 1, 3, 2, 0, 0]),
        (0x107, 4, 5, false, [0, 2, 1, 3, 0, 0]),
        (0x33, 4, 6, false, [0, 1, 2, 3, 0, 0]),
        (0, 4, 6, false, [0, 1, 2, 3, 0, 0]),
        (0x3B, 5, 6, true, [0, 1, 3, 4, 2, 0]),
        (0x37, 5, 7, false, [0, 2, 1, 3, 4, 0]),
        (0x607, 5, 7, false, [0, 2, 1, 3, 4, 0]),
        (0, 5, 7, false, [0, 2, 1, 3, 4, 0]),
        (0x3F, 6, 7, true, [0, 2, 1, 4, 5, 3]),
    ] {
        let mut bytes = WIDE;
        write(&mut bytes, (22, u32::from(channels), 2));
        let read = read_edited(&mut bytes, (32, 3 * u32::from(channels), 2), (40, mask, 4));
        let head = WavHead {
            fscod: 0,
            acmod,
            lfe,
            bits: 24,
            channels,
            order,
            size: None,
            taken: 68,
        };
        assert!(rt; read == Ok(head), "{mask} {channels}");
    }
}

/// An odd chunk with its pad byte, the `fmt ` chunk, a second one which isn't looked at, and the data.
static CHUNKS: [u8; 72] = [
    82, 73, 70, 70, 0, 0, 0, 0, 87, 65, 86, 69, 76, 73, 83, 84, 3, 0, 0, 0, 1, 2, 3, 0, 102, 109,
    116, 32, 16, 0, 0, 0, 1, 0, 2, 0, 68, 172, 0, 0, 16, 177, 2, 0, 4, 0, 16, 0, 102, 109, 116, 32,
    2, 0, 0, 0, 3, 0, 100, 97, 116, 97, 8, 0, 0, 0, 1, 0, 2, 0, 3, 0,
];

#[test]
fn chunks_are_passed_over(rt: HostRuntime) -> Result<(), Fail> {
    let mut source = memory::source(&rt, &CHUNKS, &[])?;
    let head = WavHead {
        fscod: 1,
        acmod: 2,
        lfe: false,
        bits: 16,
        channels: 2,
        order: [0, 1, 0, 0, 0, 0],
        size: Some(8),
        taken: 66,
    };
    assert_eq!(rt; WavHead::read(&mut source, 66), Ok(head));
    // a fault behind an odd chunk, at its field's place in the input
    let mut bytes = CHUNKS;
    assert_eq!(rt;
        read_edited(&mut bytes, (34, 9, 2), NONE),
        Err(WavFault::Bad(WavKind::Unsupported(Field::Channels, 9), 34))
    );
    // an odd chunk without its pad byte
    let mut short = StdSource::new(&CHUNKS[..23]);
    assert_eq!(rt;
        WavHead::read(&mut short, 1000),
        Err(WavFault::Bad(WavKind::Short, 23))
    );
    // the third read fails
    let mut broken = memory::source(&rt, &CHUNKS, &[2])?;
    assert_eq!(rt; WavHead::read(&mut broken, 1000), Err(WavFault::ReadFault));
    Ok(())
}
