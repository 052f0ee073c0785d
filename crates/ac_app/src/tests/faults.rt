//! Data that are cut, and calls of the outside that fail.
use super::{
    EMPTY, Failing, Left, NONE, encoded, front, head_of, left_by, plain, refuses, reports, silence,
    words, zeros,
};
use crate::{Part, Status, WavKind};
use std::test::Fail;

#[test]
fn failing_output(rt: HostRuntime) -> Result<(), Fail> {
    let words = words(rt, "192")?;
    let failing = Failing {
        output: &[1],
        ..NONE
    };
    let left = left_by(rt, &words, &silence(rt, 3000)?, failing)?;
    assert_eq!(rt; left.status, Status::WriteFault);
    assert_eq!(rt; left.output.bytes().len(), 768);
    assert!(rt;
        left.report.bytes() == "frame 0 size 768 best 628\nstatus 7 write fault\n".as_bytes()
    );
    Ok(())
}

#[test]
fn failing_input(rt: HostRuntime) -> Result<(), Fail> {
    let words = words(rt, "192")?;
    let failing = Failing {
        input: &[0],
        ..NONE
    };
    let left = left_by(rt, &words, &silence(rt, 3000)?, failing)?;
    assert!(rt; refuses(&left, Status::ReadFault, "status 6 read fault\n"));
    Ok(())
}

#[test]
fn short_data(rt: HostRuntime) -> Result<(), Fail> {
    let mut bytes = silence(rt, 4)?;
    bytes.truncate(50);
    let left = encoded(rt, &bytes)?;
    assert!(rt;
        refuses(
            &left,
            Status::BadWav(WavKind::Short, 50),
            "status 2 bad wav short 50\n"
        )
    );
    Ok(())
}

// The frame that was whole is written before the data are found to be short.
#[test]
fn frame_before_short(rt: HostRuntime) -> Result<(), Fail> {
    let bytes = zeros(rt, &head_of(6144), 4000)?;
    let left = encoded(rt, &bytes)?;
    assert_eq!(rt; left.status, Status::BadWav(WavKind::Short, 4044));
    assert_eq!(rt; left.output.bytes().len(), 768);
    assert!(rt;
        reports(
            &left,
            "frame 0 size 768 best 628\nstatus 2 bad wav short 4044\n"
        )
    );
    Ok(())
}

// The report fails at its second line: both frames are written, and the status line follows the first line.
#[test]
fn report_fails_second(rt: HostRuntime) -> Result<(), Fail> {
    let words = words(rt, "192")?;
    let failing = Failing {
        report: &[1],
        ..NONE
    };
    let left = left_by(rt, &words, &silence(rt, 3000)?, failing)?;
    assert_eq!(rt; left.status, Status::WriteFault);
    assert_eq!(rt; left.output.bytes().len(), 1536);
    assert!(rt; reports(&left, "frame 0 size 768 best 628\nstatus 7 write fault\n"));
    Ok(())
}

#[test]
fn report_fails_first(rt: HostRuntime) -> Result<(), Fail> {
    let words = words(rt, "192")?;
    let failing = Failing {
        report: &[0],
        ..NONE
    };
    let left = left_by(rt, &words, &EMPTY, failing)?;
    assert!(rt; refuses(&left, Status::WriteFault, ""));
    Ok(())
}

/// The lines of the first three frames of a sound at 48 kHz and 192 kbit/s, of 26 bytes each.
const LINES: &str =
    "frame 0 size 768 best 272\nframe 1 size 768 best 271\nframe 2 size 768 best 524\n";

/// What a run that a fault stopped leaves: whole frames of the plain run, lines of the report, and the status line.
#[derive(Clone, Copy)]
struct Stopped {
    status: Status,
    frames: usize,
    lines: usize,
    end: &'static str,
}

/// Whether a report is these lines and then this end.
fn ends_so(report: &[u8], lines: &[u8], end: &[u8]) -> bool {
    report.len() == lines.len().saturating_add(end.len())
        && report.starts_with(lines)
        && report.ends_with(end)
}

/// Whether a run left this, beside what the plain run left.
fn stops_so(left: &Left, plain: &Left, wanted: Stopped) -> bool {
    let frames = front(plain.output.bytes(), wanted.frames.saturating_mul(768));
    let lines = front(LINES.as_bytes(), wanted.lines.saturating_mul(26));
    left.status == wanted.status
        && left.output.bytes() == frames
        && ends_so(left.report.bytes(), lines, wanted.end.as_bytes())
}

/// What is left where this call of the output fails, over three frames.
fn at_output(call: usize) -> Stopped {
    Stopped {
        status: Status::WriteFault,
        frames: call,
        lines: call,
        end: "status 7 write fault\n",
    }
}

/// What is left where this call of the report fails, over three frames: the last one is the status line's.
fn at_report(call: usize) -> Stopped {
    if call == 3 {
        return Stopped {
            status: Status::WriteFault,
            frames: 3,
            lines: 3,
            end: "",
        };
    }
    Stopped {
        status: Status::WriteFault,
        frames: call.saturating_add(1),
        lines: call,
        end: "status 7 write fault\n",
    }
}

const DONE: Stopped = Stopped {
    status: Status::Ok,
    frames: 3,
    lines: 3,
    end: "status 0 ok\n",
};

/// What is left where this read fails: the head takes four, and then each frame's samples one.
fn at_input(call: usize) -> Stopped {
    let frames = call.saturating_sub(4);
    Stopped {
        status: Status::ReadFault,
        frames,
        lines: frames,
        end: "status 6 read fault\n",
    }
}

/// What is left where the input ends behind so many bytes of its data.
fn cut_behind(bytes: usize, end: &'static str) -> Stopped {
    let frames = bytes / 3072;
    Stopped {
        status: Status::BadWav(WavKind::Short, (bytes as u64).saturating_add(44)),
        frames,
        lines: frames,
        end,
    }
}

/// A sound of three frames, and what a plain run over it left.
#[derive(Drop)]
struct Plain {
    words: Vec<String>,
    bytes: Vec<u8>,
    left: Left,
}

fn plain_run(rt: HostRuntime) -> Result<Plain, Fail> {
    let words = words(rt, "192")?;
    let bytes = plain(rt)?;
    let left = left_by(rt, &words, &bytes, NONE)?;
    Ok(Plain { words, bytes, left })
}

// Over three frames each read of the input fails in turn: the frames before it are written.
#[test]
fn each_read_fails_in_turn(rt: HostRuntime) -> Result<(), Fail> {
    let plain = plain_run(rt)?;
    assert_eq!(rt; plain.left.output.bytes().len(), 3 * 768);
    for call in 0..7usize {
        let failing = Failing {
            input: &[call as u64],
            ..NONE
        };
        let left = left_by(rt, &plain.words, &plain.bytes, failing)?;
        let wanted = if call < 6 { at_input(call) } else { DONE };
        assert!(rt; stops_so(&left, &plain.left, wanted), "read {call}");
    }
    Ok(())
}

// Exactly the whole frames are written of data that are cut: 1,536 samples of two bytes each.
#[test]
fn whole_frames_of_cut_data(rt: HostRuntime) -> Result<(), Fail> {
    let plain = plain_run(rt)?;
    for (bytes, end) in [
        (0usize, "status 2 bad wav short 44\n"),
        (3071, "status 2 bad wav short 3115\n"),
        (3072, "status 2 bad wav short 3116\n"),
        (5999, "status 2 bad wav short 6043\n"),
    ] {
        let left = left_by(rt, &plain.words, front(&plain.bytes, 44 + bytes), NONE)?;
        assert!(rt;
            stops_so(&left, &plain.left, cut_behind(bytes, end)),
            "{bytes} bytes"
        );
    }
    Ok(())
}

// So does each write of the output.
#[test]
fn each_write_fails_in_turn(rt: HostRuntime) -> Result<(), Fail> {
    let plain = plain_run(rt)?;
    for call in 0..4usize {
        let failing = Failing {
            output: &[call as u64],
            ..NONE
        };
        let left = left_by(rt, &plain.words, &plain.bytes, failing)?;
        let wanted = if call < 3 { at_output(call) } else { DONE };
        assert!(rt; stops_so(&left, &plain.left, wanted), "write {call}");
    }
    Ok(())
}

// So does each line of the report.
#[test]
fn each_line_fails_in_turn(rt: HostRuntime) -> Result<(), Fail> {
    let plain = plain_run(rt)?;
    for call in 0..5usize {
        let failing = Failing {
            report: &[call as u64],
            ..NONE
        };
        let left = left_by(rt, &plain.words, &plain.bytes, failing)?;
        let wanted = if call < 4 { at_report(call) } else { DONE };
        assert!(rt; stops_so(&left, &plain.left, wanted), "line {call}");
    }
    Ok(())
}

/// The answer where the last part of a frame is too large.
const LOW: Status = Status::RateTooLow {
    part: Part::Last,
    needed: 2,
    room: 1,
};

#[test]
fn codes(rt: HostRuntime) {
    for (status, code) in [
        (Status::Ok, 0),
        (Status::Usage, 1),
        (Status::BadWav(WavKind::Short, 1), 2),
        (LOW, 3),
        (Status::ReadFault, 6),
        (Status::WriteFault, 7),
        (Status::NoMemory, 9),
        (Status::TooLong { limit: 7 }, 11),
    ] {
        assert_eq!(rt; status.code(), code);
    }
}
