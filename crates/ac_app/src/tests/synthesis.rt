//! Generated sounds, encoded and decoded again.
use super::{Left, NONE, left_by, reports, spoken};
use crate::Status;
use std::alloc::{AllocError, Global};
use std::test::Fail;

/// A run of synth, of seed 0.
fn synth(rt: HostRuntime, frames: &str) -> Result<Left, Fail> {
    let words = spoken(
        rt,
        &["synth", "--seed", "0", "--frames", frames, "-", "-", "-"],
    )?;
    left_by(rt, &words, &[], NONE)
}

/// The sum of the magnitudes of the samples of a WAV of 24 bits, behind its head.
fn magnitudes(wav: &[u8]) -> u64 {
    let mut sum = 0u64;
    for sample in wav[68.min(wav.len())..].chunks_exact(3) {
        let level = i32::from_le_bytes([0, sample[0], sample[1], sample[2]]) >> 8;
        sum = sum.wrapping_add(u64::from(level.unsigned_abs()));
    }
    sum
}

/// The report of synth.
fn line_of(alloc: Global, frames: &str, marks: &str, sum: u64) -> Result<String, AllocError> {
    format!(in alloc; "synth frames {frames} {marks} sum {sum}\nstatus 0 ok\n")
}

/// Whether a run left this report.
fn reported(rt: HostRuntime, left: &Left, frames: &str, marks: &str) -> Result<bool, Fail> {
    let decode = spoken(rt, &["decode", "-", "-", "-"])?;
    let wav = left_by(rt, &decode, left.output.bytes(), NONE)?;
    let sum = magnitudes(wav.output.bytes());
    let line = again!(rt; line_of(rt.alloc(), frames, marks, sum));
    Ok(wav.status == Status::Ok && reports(left, &line))
}

// The sum is that of the samples in the WAV that decode makes of the same bytes.
#[test]
fn synth_one_frame(rt: HostRuntime) -> Result<(), Fail> {
    let left = synth(rt, "1")?;
    assert_eq!(rt; left.status, Status::Ok);
    assert_eq!(rt; left.output.bytes().len(), 768);
    let best = reported(rt, &left, "1", "best 1 bounded 0")?;
    let bounded = reported(rt, &left, "1", "best 0 bounded 1")?;
    assert!(rt; best || bounded);
    Ok(())
}

#[test]
fn synth_two_frames(rt: HostRuntime) -> Result<(), Fail> {
    let left = synth(rt, "2")?;
    assert_eq!(rt; left.status, Status::Ok);
    assert_eq!(rt; left.output.bytes().len(), 1536);
    let best = reported(rt, &left, "2", "best 2 bounded 0")?;
    let one = reported(rt, &left, "2", "best 1 bounded 1")?;
    let bounded = reported(rt, &left, "2", "best 0 bounded 2")?;
    assert!(rt; best || one || bounded);
    Ok(())
}
