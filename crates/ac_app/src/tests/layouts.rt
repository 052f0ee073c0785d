//! Sounds of more than one channel.
use super::{Left, NONE, WIDE, front, left_by, refuses, reports, sample, spoken, write};
use crate::{Part, Status, decode_law, input_law, run_law, stream_law};
use std::alloc::{AllocError, Global};
use std::test::Fail;

#[test]
fn laws(rt: HostRuntime) {
    stream_law();
    input_law();
    run_law();
    decode_law();
    assert_eq!(rt; WIDE.len(), 68);
}

/// The head of a WAV of 16 bits at 48 kHz in the extensible form, with data to the end of the input: how many channels, and which.
fn head_for(channels: u8, mask: u8) -> [u8; 68] {
    let mut head = WIDE;
    write(&mut head, 22, &[channels]);
    write(&mut head, 32, &[channels.saturating_mul(2)]);
    write(&mut head, 34, &[16]);
    write(&mut head, 38, &[16]);
    write(&mut head, 40, &[mask]);
    head
}

/// The head of 5.1 channels.
fn surround() -> [u8; 68] {
    head_for(6, 0x3f)
}

/// The head of two channels.
fn stereo() -> [u8; 68] {
    head_for(2, 3)
}

fn with_silence(alloc: Global, head: &[u8], count: u32) -> Result<Vec<u8>, AllocError> {
    let mut bytes = Vec::from_slice(alloc, head)?;
    for _ in 0..count {
        bytes.push(0)?;
    }
    Ok(bytes)
}

/// A head and this many bytes of 0 behind it.
fn silent(rt: HostRuntime, head: &[u8], count: u32) -> Result<Vec<u8>, Fail> {
    Ok(again!(rt; with_silence(rt.alloc(), head, count)))
}

fn run_of(rt: HostRuntime, words: &[&str], bytes: &[u8]) -> Result<Left, Fail> {
    left_by(rt, &spoken(rt, words)?, bytes, NONE)
}

/// Whether a run was Ok and left so many bytes.
fn made(left: &Left, bytes: usize) -> bool {
    left.status == Status::Ok && left.output.bytes().len() == bytes
}

/// Six channels of 32 kbit/s in the widest band, and in the least.
const WIDEST: [&str; 10] = [
    "encode", "--rate", "32", "--bw", "60", "--couple", "off", "-", "-", "-",
];

const LEAST: [&str; 8] = ["encode", "--rate", "32", "--couple", "off", "-", "-", "-"];

// The rate is too low for the layout: nothing is written, whatever stands behind the head.
#[test]
fn rate_too_low(rt: HostRuntime) -> Result<(), Fail> {
    let left = run_of(rt, &WIDEST, &surround())?;
    let wanted = Status::RateTooLow {
        part: Part::Total,
        needed: 1122,
        room: 1024,
    };
    assert!(rt; refuses(&left, wanted, "status 3 rate too low total 1122 1024\n"));
    Ok(())
}

// With the bandwidth that the rate gives the same layout fits: 597 bits of 1,024.
#[test]
fn lowest_rate_fits(rt: HostRuntime) -> Result<(), Fail> {
    let left = run_of(rt, &LEAST, &silent(rt, &surround(), 1200)?)?;
    assert!(rt; made(&left, 128));
    Ok(())
}

const LOUD: [&str; 10] = [
    "encode", "--rate", "640", "--bw", "0", "--couple", "off", "-", "-", "-",
];

// Where there is room for all of it the offset is the greatest.
#[test]
fn stereo_silence_best_top(rt: HostRuntime) -> Result<(), Fail> {
    let mut head = stereo();
    write(&mut head, 24, &[0x00, 0x7d]);
    let left = run_of(rt, &LOUD, &silent(rt, &head, 4000)?)?;
    assert!(rt; made(&left, 3840));
    assert!(rt; reports(&left, "frame 0 size 3840 best 1023\nstatus 0 ok\n"));
    Ok(())
}

/// Two channels that are equal: each sample is there twice, and its place squared makes it rise ever faster.
fn equal_channels(alloc: Global) -> Result<Vec<u8>, AllocError> {
    let mut bytes = Vec::from_slice(alloc, &stereo())?;
    for place in 0..1000u16 {
        let both = sample(place.wrapping_mul(place));
        bytes.extend_from_slice(&both)?;
        bytes.extend_from_slice(&both)?;
    }
    Ok(bytes)
}

const SHARED: [&str; 6] = ["encode", "--rate", "80", "-", "-", "-"];

// Behind 67 bits of the head and five of block 0 stand cplstre, cplinu and chincpl, all set, phsflginu, 0, cplbegf, 8, cplendf, 12,
// and cplbndstrc, 0. Then come cplcoe, 1, mstrcplco, 0, and the first band's exponent, 2, and mantissa, 0.
#[test]
fn coupled_stereo(rt: HostRuntime) -> Result<(), Fail> {
    let bytes = again!(rt; equal_channels(rt.alloc()));
    let left = run_of(rt, &SHARED, &bytes)?;
    assert!(rt; made(&left, 320));
    assert!(rt; front(left.output.bytes(), 13).ends_with(&[0xf4, 0x60, 0x10, 0x80]));
    Ok(())
}

/// 48,000 samples of each of six channels, with a chunk before the data.
fn long_sound(alloc: Global) -> Result<Vec<u8>, AllocError> {
    let mut bytes = Vec::from_slice(alloc, front(&surround(), 60))?;
    bytes.extend_from_slice(b"LIST\x04\0\0\0abcddata\xff\xff\xff\xff")?;
    for place in 0..288_000u32 {
        bytes.extend_from_slice(&sample((place % 48_000) as u16))?;
    }
    Ok(bytes)
}

const ROUND: [&str; 6] = ["encode", "--rate", "448", "-", "-", "-"];

// A second of 5.1 channels: 32 frames of 1,792 bytes.
#[test]
fn six_channel_extensible(rt: HostRuntime) -> Result<(), Fail> {
    let bytes = again!(rt; long_sound(rt.alloc()));
    let left = run_of(rt, &ROUND, &bytes)?;
    assert!(rt; made(&left, 57_344));
    Ok(())
}
