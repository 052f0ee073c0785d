//! The worked examples of decode, over a source and sinks in memory.
use crate::{Broken, Decoder, FrameFault, Halt, Unread, decode, open};
use ac_io::{MemSink, MemSource};
use std::alloc::{AllocError, Global};

/// Two frames of a second program, of one channel and LFE at 44.1 kHz: 138 and 140 bytes.
static FRAMES: [u8; 278] = [
    11, 119, 223, 91, 64, 64, 63, 132, 11, 174, 106, 105, 66, 135, 77, 210, 165, 208, 210, 210,
    226, 27, 218, 121, 127, 30, 100, 192, 53, 159, 157, 211, 171, 58, 115, 70, 205, 85, 206, 187,
    100, 140, 92, 0, 3, 159, 189, 20, 57, 91, 116, 169, 41, 100, 182, 195, 41, 179, 148, 215, 0, 2,
    170, 126, 52, 128, 163, 110, 34, 88, 184, 108, 115, 114, 70, 221, 58, 0, 11, 64, 172, 103, 208,
    246, 226, 24, 76, 37, 174, 72, 58, 117, 123, 196, 0, 6, 153, 242, 108, 17, 50, 21, 42, 137,
    102, 146, 19, 155, 103, 148, 176, 9, 238, 244, 13, 123, 18, 42, 146, 245, 237, 211, 46, 211,
    48, 216, 133, 109, 106, 253, 36, 128, 0, 0, 0, 0, 147, 178, 11, 119, 0, 174, 65, 64, 63, 132,
    11, 240, 207, 161, 195, 126, 253, 245, 122, 240, 225, 191, 126, 250, 189, 120, 80, 235, 195,
    134, 43, 231, 217, 127, 38, 165, 66, 205, 61, 50, 177, 57, 170, 35, 151, 207, 89, 101, 96, 64,
    1, 110, 202, 149, 139, 61, 157, 145, 98, 28, 68, 28, 54, 160, 0, 49, 141, 116, 246, 65, 19, 26,
    196, 188, 132, 172, 196, 97, 184, 103, 208, 225, 191, 126, 250, 189, 120, 112, 225, 191, 125,
    14, 189, 120, 85, 21, 63, 0, 31, 32, 174, 154, 66, 84, 146, 117, 4, 57, 97, 132, 32, 3, 228,
    200, 185, 243, 191, 12, 242, 123, 48, 100, 52, 36, 32, 2, 96, 72, 119, 232, 190, 211, 180, 216,
    88, 13, 97, 178, 96, 0, 126, 169,
];

/// What a decode left.
#[derive(Drop)]
struct Left {
    end: Result<(), Halt>,
    output: MemSink,
    report: MemSink,
}

/// What decode leaves of these bytes, where the calls with these numbers fail.
fn decoded(
    alloc: Global,
    bytes: &[u8],
    reads: &[u64],
    writes: &[u64],
    lines: &[u64],
) -> Result<Left, AllocError> {
    let Ok(mut decoder) = Decoder::new(alloc) else {
        return Err(AllocError);
    };
    let mut work = open(alloc)?;
    let mut input = MemSource::new(
        Vec::from_slice(alloc, bytes)?,
        Vec::from_slice(alloc, reads)?,
    );
    let mut output = MemSink::new(Vec::new(alloc), Vec::from_slice(alloc, writes)?);
    let mut report = MemSink::new(Vec::new(alloc), Vec::from_slice(alloc, lines)?);
    let end = decode(
        &mut decoder,
        &mut work,
        &mut input,
        &mut output,
        &mut report,
    );
    Ok(Left {
        end,
        output,
        report,
    })
}

/// The digest, FNV-1a of 64 bits, of these bytes.
fn digest(bytes: &[u8]) -> u64 {
    let mut h = 0xcbf29ce484222325u64;
    for byte in bytes {
        h = (h ^ u64::from(*byte)).wrapping_mul(0x100000001b3);
    }
    h
}

#[test]
fn of_no_bytes_nothing_is_written(rt: HostRuntime) -> Result<(), AllocError> {
    let left = decoded(rt.alloc(), &[], &[], &[], &[])?;
    assert_eq!(rt; left.end, Ok(()));
    assert!(rt; left.output.bytes().is_empty());
    assert!(rt; left.report.bytes().is_empty());
    Ok(())
}

#[test]
fn three_bytes_are_short(rt: HostRuntime) -> Result<(), AllocError> {
    let left = decoded(rt.alloc(), &[0x0B, 0x77, 0x00], &[], &[], &[])?;
    assert_eq!(rt;
        left.end,
        Err(Halt::Stream {
            frame: 0,
            fault: FrameFault::Short { have: 3 }
        })
    );
    assert!(rt; left.output.bytes().is_empty());
    assert!(rt; left.report.bytes().is_empty());
    Ok(())
}

#[test]
fn two_frames_of_a_second_program(rt: HostRuntime) -> Result<(), AllocError> {
    let left = decoded(rt.alloc(), &FRAMES, &[], &[], &[])?;
    assert_eq!(rt; left.end, Ok(()));
    assert_eq!(rt; left.output.bytes().len(), 18500);
    assert_eq!(rt; digest(left.output.bytes()), 0xacb8867fe63e3a62);
    assert_eq!(rt;
        left.report.bytes(),
        "frame 0 size 138 read\nframe 1 size 140 read\n".as_bytes()
    );
    Ok(())
}

#[test]
fn faults_in_mid_stream(rt: HostRuntime) -> Result<(), AllocError> {
    let read = decoded(rt.alloc(), &FRAMES, &[2], &[], &[])?;
    assert_eq!(rt; read.end, Err(Halt::Input(Unread::Failed)));
    assert_eq!(rt; read.output.bytes().len(), 68 + 9216);
    assert_eq!(rt; read.report.bytes(), "frame 0 size 138 read\n".as_bytes());
    let head = decoded(rt.alloc(), &FRAMES, &[], &[0], &[])?;
    assert_eq!(rt; head.end, Err(Halt::Sink(Broken::Output)));
    assert!(rt; head.output.bytes().is_empty() && head.report.bytes().is_empty());
    let line = decoded(rt.alloc(), &FRAMES, &[], &[], &[1])?;
    assert_eq!(rt; line.end, Err(Halt::Sink(Broken::Report)));
    assert_eq!(rt; line.output.bytes().len(), 68 + 2 * 9216);
    assert_eq!(rt; line.report.bytes(), "frame 0 size 138 read\n".as_bytes());
    Ok(())
}
