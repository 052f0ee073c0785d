//! Sounds, their frames and the lines of these.
use super::{
    EMPTY, Left, NONE, WIDE, answer, encoded, head_of, is_starved, left_by, may_leave, plain,
    refuses, reports, sample, silence, sink, source, spoken, words, write,
};
use crate::{NullSink, Status};
use std::alloc::{AllocError, Global};
use std::test::Fail;

#[test]
fn empty_mono(rt: HostRuntime) -> Result<(), Fail> {
    let left = encoded(rt, &EMPTY)?;
    assert!(rt; refuses(&left, Status::Ok, "status 0 ok\n"));
    Ok(())
}

#[test]
fn frame_count(rt: HostRuntime) -> Result<(), Fail> {
    let one = encoded(rt, &silence(rt, 1280)?)?;
    assert_eq!(rt; one.status, Status::Ok);
    assert_eq!(rt; one.output.bytes().len(), 768);
    assert!(rt; one.report.bytes() == "frame 0 size 768 best 628\nstatus 0 ok\n".as_bytes());
    let two = encoded(rt, &silence(rt, 1281)?)?;
    assert_eq!(rt; two.output.bytes().len(), 1536);
    assert!(rt;
        two.report.bytes()
            == "frame 0 size 768 best 628\nframe 1 size 768 best 628\nstatus 0 ok\n".as_bytes()
    );
    Ok(())
}

/// A WAV of 2,000 samples, whose bytes are squares.
fn squares(alloc: Global) -> Result<Vec<u8>, AllocError> {
    let mut bytes = Vec::with_capacity(alloc, 4044)?;
    bytes.extend_from_slice(&head_of(4000))?;
    for place in 0..4000u32 {
        bytes.push((place * place % 251) as u8)?;
    }
    Ok(bytes)
}

fn square_bytes(rt: HostRuntime) -> Result<Vec<u8>, Fail> {
    Ok(again!(rt; squares(rt.alloc())))
}

// Two frames of a sound: bytes 4 to 7 of each are the head's.
#[test]
fn mono_header_bytes(rt: HostRuntime) -> Result<(), Fail> {
    let bytes = square_bytes(rt)?;
    let left = encoded(rt, &bytes)?;
    assert_eq!(rt; left.output.bytes().len(), 1536);
    for frame in [0, 768] {
        assert!(rt;
            left.output.bytes()[frame + 4..frame + 8] == [0x14, 0x40, 0x2f, 0x84],
            "at {frame}"
        );
    }
    Ok(())
}

// Fewer bins leave more room to each.
#[test]
fn bandwidth_0(rt: HostRuntime) -> Result<(), Fail> {
    let words = spoken(rt, &["encode", "--rate", "192", "--bw", "0", "-", "-", "-"])?;
    let left = left_by(rt, &words, &silence(rt, 1000)?, NONE)?;
    assert_eq!(rt; left.status, Status::Ok);
    assert!(rt; reports(&left, "frame 0 size 768 best 824\nstatus 0 ok\n"));
    Ok(())
}

/// A run whose report goes nowhere.
fn without_report(alloc: Global, words: &[String], bytes: &[u8]) -> Result<Left, AllocError> {
    let mut input = source(alloc, bytes, &[])?;
    let mut output = sink(alloc, &[])?;
    let report = sink(alloc, &[])?;
    let status = answer(alloc, words, &mut input, &mut output, &mut NullSink);
    Ok(Left {
        status,
        output,
        report,
        is_told: false,
    })
}

/// A run whose output goes nowhere.
fn without_output(alloc: Global, words: &[String], bytes: &[u8]) -> Result<Left, AllocError> {
    let mut input = source(alloc, bytes, &[])?;
    let output = sink(alloc, &[])?;
    let mut report = sink(alloc, &[])?;
    let status = answer(alloc, words, &mut input, &mut NullSink, &mut report);
    Ok(Left {
        status,
        output,
        report,
        is_told: true,
    })
}

fn unreported(rt: HostRuntime, words: &[String], bytes: &[u8]) -> Result<Left, Fail> {
    Ok(left!(rt; without_report(rt.alloc(), words, bytes)))
}

fn unkept(rt: HostRuntime, words: &[String], bytes: &[u8]) -> Result<Left, Fail> {
    Ok(left!(rt; without_output(rt.alloc(), words, bytes)))
}

// What one sink gains doesn't depend on whether the other tells anything.
#[test]
fn each_sink_alone(rt: HostRuntime) -> Result<(), Fail> {
    let words = words(rt, "192")?;
    let bytes = square_bytes(rt)?;
    let both = left_by(rt, &words, &bytes, NONE)?;
    let unreported = unreported(rt, &words, &bytes)?;
    assert_eq!(rt; unreported.status, Status::Ok);
    assert_eq!(rt; unreported.output.bytes().len(), 1536);
    assert!(rt; unreported.output.bytes() == both.output.bytes());
    let unkept = unkept(rt, &words, &bytes)?;
    assert_eq!(rt; unkept.status, Status::Ok);
    assert!(rt;
        reports(
            &unkept,
            "frame 0 size 768 best 240\nframe 1 size 768 best 335\nstatus 0 ok\n"
        )
    );
    assert!(rt; unkept.report.bytes() == both.report.bytes());
    Ok(())
}

/// The same of 24 bits.
fn wide_sound(alloc: Global) -> Result<Vec<u8>, AllocError> {
    let mut bytes = Vec::with_capacity(alloc, 9068)?;
    bytes.extend_from_slice(&WIDE)?;
    for place in 0..3000u16 {
        bytes.push(0)?;
        bytes.extend_from_slice(&sample(place))?;
    }
    Ok(bytes)
}

fn wide(rt: HostRuntime) -> Result<Vec<u8>, Fail> {
    Ok(again!(rt; wide_sound(rt.alloc())))
}

// The same samples in the plain form and in 24 bits of the extensible form are one stream.
#[test]
fn forms_of_one_sound(rt: HostRuntime) -> Result<(), Fail> {
    let left = encoded(rt, &plain(rt)?)?;
    let again = encoded(rt, &wide(rt)?)?;
    assert_eq!(rt; left.status, Status::Ok);
    assert_eq!(rt; left.output.bytes().len(), 3 * 768);
    assert_eq!(rt; again.status, Status::Ok);
    assert!(rt; left.output.bytes() == again.output.bytes());
    assert!(rt; left.report.bytes() == again.report.bytes());
    Ok(())
}

// At 44.1 kHz and 192 kbit/s frames 0 and 1 have 417 and 418 words, and the codes 20 and 21; at 32 kHz each has 576.
#[test]
fn alternating_frame_sizes(rt: HostRuntime) -> Result<(), Fail> {
    let mut bytes = silence(rt, 2000)?;
    write(&mut bytes, 24, &[0x44, 0xac]);
    let left = encoded(rt, &bytes)?;
    assert_eq!(rt; left.status, Status::Ok);
    assert!(rt;
        left.report.bytes()
            == "frame 0 size 834 best 636\nframe 1 size 836 best 636\nstatus 0 ok\n".as_bytes()
    );
    assert_eq!(rt; left.output.bytes().len(), 834 + 836);
    assert_eq!(rt; left.output.bytes()[4], 0x40 + 20);
    assert!(rt; left.output.bytes()[834..836] == [0x0b, 0x77]);
    assert_eq!(rt; left.output.bytes()[834 + 4], 0x40 + 21);
    write(&mut bytes, 24, &[0x00, 0x7d]);
    let left = encoded(rt, &bytes)?;
    assert_eq!(rt; left.output.bytes().len(), 2 * 1152);
    assert_eq!(rt; left.output.bytes()[4], 0x80 + 20);
    Ok(())
}

#[test]
fn words_outside_the_grammar(rt: HostRuntime) -> Result<(), Fail> {
    for rate in ["193", "0192", "-192", ""] {
        let words = words(rt, rate)?;
        let left = left_by(rt, &words, &EMPTY, NONE)?;
        assert!(rt; refuses(&left, Status::Usage, "status 1 usage\n"), "{rate}");
    }
    let left = left_by(rt, &[], &EMPTY, NONE)?;
    assert!(rt; refuses(&left, Status::Usage, "status 1 usage\n"));
    Ok(())
}
