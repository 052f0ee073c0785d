//! Heads that are cut or contradict themselves.
use super::{EMPTY, NONE, WIDE, encoded, front, head_of, left_by, refuses, words, write, zeros};
use crate::{Field, Status, WavKind};
use std::alloc::{AllocError, Global};
use std::test::Fail;

#[test]
fn short_head(rt: HostRuntime) -> Result<(), Fail> {
    let left = encoded(rt, &EMPTY[..30])?;
    assert!(rt;
        refuses(
            &left,
            Status::BadWav(WavKind::Short, 30),
            "status 2 bad wav short 30\n"
        )
    );
    Ok(())
}

// Each length below a whole head ends inside it, or where a chunk could begin.
#[test]
fn every_cut_head(rt: HostRuntime) -> Result<(), Fail> {
    let words = words(rt, "192")?;
    for cut in 0..44usize {
        let left = left_by(rt, &words, &EMPTY[..cut], NONE)?;
        let kind = if cut == 12 || cut == 36 {
            WavKind::NoData
        } else {
            WavKind::Short
        };
        assert_eq!(rt; left.status, Status::BadWav(kind, cut as u64));
        assert!(rt; left.output.bytes().is_empty(), "at {cut}");
    }
    Ok(())
}

/// Bytes written over those of the head: where and which, the kind and the place of the refusal, and its line.
const REFUSED: [(usize, &[u8], WavKind, u64, &str); 14] = [
    (
        0,
        b"RIFX",
        WavKind::NotRiff,
        0,
        "status 2 bad wav notriff 0\n",
    ),
    (
        8,
        b"wAVE",
        WavKind::NotRiff,
        8,
        "status 2 bad wav notriff 8\n",
    ),
    (
        12,
        b"data",
        WavKind::NoFmt,
        12,
        "status 2 bad wav nofmt 12\n",
    ),
    (
        12,
        b"fMt ",
        WavKind::NoFmt,
        36,
        "status 2 bad wav nofmt 36\n",
    ),
    (
        36,
        b"Data",
        WavKind::NoData,
        44,
        "status 2 bad wav nodata 44\n",
    ),
    (
        16,
        &[14],
        WavKind::BadFmt(Field::Size),
        16,
        "status 2 bad wav badfmt 16\n",
    ),
    (
        20,
        &[3],
        WavKind::Unsupported(Field::Tag, 3),
        20,
        "status 2 bad wav unsupported 20\n",
    ),
    (
        20,
        &[0xfe, 0xff],
        WavKind::BadFmt(Field::Size),
        16,
        "status 2 bad wav badfmt 16\n",
    ),
    (
        22,
        &[0],
        WavKind::Unsupported(Field::Channels, 0),
        22,
        "status 2 bad wav unsupported 22\n",
    ),
    (
        22,
        &[7],
        WavKind::Unsupported(Field::Channels, 7),
        22,
        "status 2 bad wav unsupported 22\n",
    ),
    (
        24,
        &[0x40, 0x1f],
        WavKind::Unsupported(Field::Rate, 8000),
        24,
        "status 2 bad wav unsupported 24\n",
    ),
    (
        32,
        &[4],
        WavKind::BadFmt(Field::Align),
        32,
        "status 2 bad wav badfmt 32\n",
    ),
    (
        34,
        &[8],
        WavKind::Unsupported(Field::Bits, 8),
        34,
        "status 2 bad wav unsupported 34\n",
    ),
    (40, &[2], WavKind::Short, 44, "status 2 bad wav short 44\n"),
];

// The kind and the place of the first rule that fails, and their line.
#[test]
fn refused_heads(rt: HostRuntime) -> Result<(), Fail> {
    let words = words(rt, "192")?;
    for (at, new, kind, place, line) in REFUSED {
        let mut head = EMPTY;
        write(&mut head, at, new);
        let left = left_by(rt, &words, &head, NONE)?;
        assert!(rt;
            refuses(&left, Status::BadWav(kind, place), line),
            "at {at}"
        );
    }
    Ok(())
}

// In the extensible form the mask is one of the profile's, and has as many bits as there are channels.
#[test]
fn refused_masks(rt: HostRuntime) -> Result<(), Fail> {
    let words = words(rt, "192")?;
    for (channels, mask, kind) in [
        (1u8, 3u8, WavKind::BadFmt(Field::Mask)),
        (2, 5, WavKind::Unsupported(Field::Mask, 5)),
    ] {
        let mut head = WIDE;
        write(&mut head, 22, &[channels]);
        write(&mut head, 32, &[channels.saturating_mul(3)]);
        write(&mut head, 40, &[mask]);
        let left = left_by(rt, &words, &head, NONE)?;
        assert_eq!(rt; left.status, Status::BadWav(kind, 40), "mask {mask}");
        assert!(rt; left.output.bytes().is_empty());
    }
    Ok(())
}

// Data of no stated size run to the end of the input, which may follow at once; a byte behind the last sample is passed over.
#[test]
fn data_of_odd_sizes(rt: HostRuntime) -> Result<(), Fail> {
    let left = encoded(rt, &head_of(u32::MAX))?;
    assert!(rt; refuses(&left, Status::Ok, "status 0 ok\n"));
    let left = encoded(rt, &zeros(rt, &head_of(3), 3)?)?;
    assert_eq!(rt; left.status, Status::Ok);
    assert_eq!(rt; left.output.bytes().len(), 768);
    let left = encoded(rt, &zeros(rt, &head_of(2561), 2661)?)?;
    assert_eq!(rt; left.status, Status::Ok);
    assert_eq!(rt; left.output.bytes().len(), 768);
    Ok(())
}

/// The WAV without data, with a chunk before its format and one before its data.
fn with_chunks(alloc: Global) -> Result<Vec<u8>, AllocError> {
    let mut bytes = Vec::with_capacity(alloc, 66)?;
    bytes.extend_from_slice(&EMPTY[..12])?;
    bytes.extend_from_slice(b"LIST\x03\0\0\0abc\0")?;
    bytes.extend_from_slice(&EMPTY[12..36])?;
    bytes.extend_from_slice(b"fact\x02\0\0\0xy")?;
    bytes.extend_from_slice(&EMPTY[36..])?;
    Ok(bytes)
}

fn chunked(rt: HostRuntime) -> Result<Vec<u8>, Fail> {
    Ok(again!(rt; with_chunks(rt.alloc())))
}

// Chunks of odd and even size before the data are passed over with their pad bytes; a chunk of odd size without one is short.
#[test]
fn chunks_are_passed_over(rt: HostRuntime) -> Result<(), Fail> {
    let bytes = chunked(rt)?;
    assert_eq!(rt; encoded(rt, &bytes)?.status, Status::Ok);
    for (cut, kind) in [
        (23, WavKind::Short),
        (24, WavKind::NoData),
        (31, WavKind::Short),
        (57, WavKind::Short),
    ] {
        let left = encoded(rt, front(&bytes, cut))?;
        assert_eq!(rt; left.status, Status::BadWav(kind, cut as u64), "at {cut}");
    }
    Ok(())
}
