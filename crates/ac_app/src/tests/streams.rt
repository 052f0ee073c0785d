//! Streams that are decoded, and why others are refused.
use super::decoded::DECODED;
use super::refused::REFUSED;
use super::{Left, NONE, left_by, refuses, reports, spoken};
use crate::Status;
use std::alloc::{AllocError, Global};
use std::test::Fail;

/// The number of a digit in hexadecimal.
fn digit(code: u8) -> u8 {
    if code < b'a' {
        code.wrapping_sub(b'0')
    } else {
        code.wrapping_sub(b'a').wrapping_add(10)
    }
}

/// The bytes that are written in hexadecimal.
fn bytes_of(alloc: Global, digits: &str) -> Result<Vec<u8>, AllocError> {
    let mut bytes = Vec::new(alloc);
    for pair in digits.as_bytes().chunks_exact(2) {
        bytes.push(digit(pair[0]).wrapping_mul(16).wrapping_add(digit(pair[1])))?;
    }
    Ok(bytes)
}

/// FNV-1a of 64 bits.
fn digest(bytes: &[u8]) -> u64 {
    let mut digest = 0xcbf29ce484222325u64;
    for byte in bytes {
        digest = (digest ^ u64::from(*byte)).wrapping_mul(0x100000001b3);
    }
    digest
}

/// Decodes a stream that is written in hexadecimal.
fn decoded(rt: HostRuntime, digits: &str) -> Result<Left, Fail> {
    let bytes = again!(rt; bytes_of(rt.alloc(), digits));
    left_by(rt, &spoken(rt, &["decode", "-", "-", "-"])?, &bytes, NONE)
}

// The WAV is byte by byte that of a second program.
#[test]
fn streams_decoded(rt: HostRuntime) -> Result<(), Fail> {
    for (stream, size, wav, report) in DECODED {
        let left = decoded(rt, stream)?;
        assert_eq!(rt; left.status, Status::Ok);
        assert!(rt; reports(&left, report), "{report}");
        assert_eq!(rt; left.output.bytes().len(), size);
        assert!(rt; digest(left.output.bytes()) == wav, "{report}");
    }
    Ok(())
}

// All streams of a second program that break a rule of the frame.
#[test]
fn streams_refused(rt: HostRuntime) -> Result<(), Fail> {
    for record in REFUSED.split('|') {
        let (stream, report) = record.split_once(' ').expect(&rt, "a report");
        let left = decoded(rt, stream)?;
        assert!(rt; reports(&left, report), "{report}");
    }
    Ok(())
}

#[test]
fn decode_empty_and_short(rt: HostRuntime) -> Result<(), Fail> {
    let empty = decoded(rt, "")?;
    assert!(rt; refuses(&empty, Status::Ok, "status 0 ok\n"));
    let short = decoded(rt, "0b7700")?;
    assert!(rt; short.output.bytes().is_empty());
    assert!(rt; reports(&short, "status 4 bad stream 0 short\n"));
    Ok(())
}

/// The stream that an encode of 1,000 samples of silence at 32 kHz gives at 640 kbit/s.
fn silent_stream(rt: HostRuntime) -> Result<Left, Fail> {
    let mut bytes = super::silence(rt, 1000)?;
    super::write(&mut bytes, 24, &32_000u16.to_le_bytes());
    left_by(
        rt,
        &spoken(rt, &["encode", "--rate", "640", "-", "-", "-"])?,
        &bytes,
        NONE,
    )
}

// Of silence come samples of 0, behind a head of 68 bytes.
#[test]
fn decode_silence(rt: HostRuntime) -> Result<(), Fail> {
    let stream = silent_stream(rt)?;
    let words = spoken(rt, &["decode", "-", "-", "-"])?;
    let left = left_by(rt, &words, stream.output.bytes(), NONE)?;
    assert!(rt; reports(&left, "frame 0 size 3840 read\nstatus 0 ok\n"));
    assert_eq!(rt; left.output.bytes().len(), 68 + 4608);
    for (place, byte) in left.output.bytes().iter().enumerate() {
        assert!(rt; place < 68 || *byte == 0, "at {place}");
    }
    Ok(())
}
