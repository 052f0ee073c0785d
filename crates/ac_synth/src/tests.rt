//! A generated sound from end to end.
ghost use Rattle.std.specs.Prelude.{◌≤◌};

use crate::synth;
use ac_dec::{Decoder, Pcm};
use ac_io::MemSink;
use ac_status::Status;
use std::alloc::{AllocError, Global};
use std::test::Fail;

/// What a run left.
#[derive(Drop)]
struct Left {
    status: Status,
    output: MemSink,
    report: MemSink,
}

/// Whether memory was wanting in a run, or in one of its sinks.
fn is_starved(left: &Left) -> bool {
    left.status == Status::NoMemory || left.output.starved() > 0 || left.report.starved() > 0
}

/// So many frames of seed 0; the calls of the output with these numbers fail.
fn once(alloc: Global, frames: u32, failing: &[u64]) -> Result<Left, AllocError>
    requires least { 1 ≤ frames }
    requires most { frames ≤ 200 }
{
    let mut output = MemSink::new(Vec::new(alloc), Vec::from_slice(alloc, failing)?);
    let mut report = MemSink::new(Vec::new(alloc), Vec::new(alloc));
    let status = synth(alloc, 0, frames, &mut output, &mut report);
    Ok(Left {
        status,
        output,
        report,
    })
}

/// The same, made again where memory was wanting.
fn run(rt: HostRuntime, frames: u32, failing: &[u64]) -> Result<Left, Fail>
    requires least { 1 ≤ frames }
    requires most { frames ≤ 200 }
{
    match once(rt.alloc(), frames, failing) {
        Ok(left) if !is_starved(&left) => Ok(left),
        _ => {
            println!(rt; "made again")?;
            Ok(once(rt.alloc(), frames, failing)?)
        }
    }
}

/// The sum of the magnitudes of a row.
fn magnitudes(row: &[i32; 1536]) -> u64 {
    let mut sum: u64 = 0;
    for sample in row {
        sum = sum.saturating_add(u64::from(sample.unsigned_abs()));
    }
    sum
}

/// That of the samples that a decoder makes of a frame.
fn decoded(decoder: &mut Decoder, frame: &[u8]) -> Option<u64> {
    let mut pcm = Pcm { s: [[0; 1536]; 6] };
    match decoder.frame(frame, &mut pcm) {
        Ok(_) => Some(magnitudes(&pcm.s[0]).saturating_add(magnitudes(&pcm.s[1]))),
        Err(_) => None,
    }
}

/// The same by a decoder of its own, made again where memory was wanting.
fn decoded_alone(rt: HostRuntime, frame: &[u8]) -> Result<Option<u64>, Fail> {
    if let Ok(mut decoder) = Decoder::new(rt.alloc()) {
        return Ok(decoded(&mut decoder, frame));
    }
    println!(rt; "made again")?;
    match Decoder::new(rt.alloc()) {
        Ok(mut decoder) => Ok(decoded(&mut decoder, frame)),
        Err(_) => Ok(None),
    }
}

/// The line of one frame.
fn line(alloc: Global, marks: &str, sum: u64) -> Result<String, AllocError> {
    format!(in alloc; "synth frames 1 {marks} sum {sum}\n")
}

fn reports(rt: HostRuntime, left: &Left, marks: &str, sum: u64) -> Result<bool, Fail> {
    let line = match line(rt.alloc(), marks, sum) {
        Ok(line) => line,
        Err(_) => {
            println!(rt; "made again")?;
            line(rt.alloc(), marks, sum)?
        }
    };
    Ok(left.report.bytes() == line.as_bytes())
}

// A second decoder makes samples of the same sum.
#[test]
fn one_frame(rt: HostRuntime) -> Result<(), Fail> {
    let left = run(rt, 1, &[])?;
    assert_eq!(rt; left.status, Status::Ok);
    assert_eq!(rt; left.output.bytes().len(), 768);
    let Some(sum) = decoded_alone(rt, left.output.bytes())? else {
        panic!(rt; "not decoded");
    };
    let best = reports(rt, &left, "best 1 bounded 0", sum)?;
    let bounded = reports(rt, &left, "best 0 bounded 1", sum)?;
    assert!(rt; best || bounded);
    Ok(())
}

#[test]
fn failing_output(rt: HostRuntime) -> Result<(), Fail> {
    let left = run(rt, 2, &[1])?;
    assert_eq!(rt; left.status, Status::WriteFault);
    assert_eq!(rt; left.output.bytes().len(), 768);
    assert!(rt; left.report.bytes().is_empty());
    Ok(())
}
