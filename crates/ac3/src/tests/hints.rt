//! What is said at a terminal, by what it is said of.

use crate::hints::{Hint, Reason, Unopened};
use ac_app::{Field, FrameFault, Names, Part, Refused, Row, Status, WavKind};
use std::alloc::{AllocError, Global};
use std::io::{self, ErrorKind};
use std::test::Fail;

/// The names in every test.
const NAMED: Names<'static> = Names {
    from: "in",
    to: "out",
    report: "log",
};

/// Whether this is said of a reason.
fn says(alloc: Global, reason: Reason, wanted: &str) -> Result<bool, AllocError> {
    let hint = Hint {
        named: NAMED,
        reason,
    };
    Ok(format!(in alloc; "{hint}")?.as_str() == wanted)
}

#[test]
fn a_status_in_words(rt: HostRuntime) -> Result<(), Fail> {
    let low = Status::RateTooLow {
        part: Part::Total,
        needed: 1500,
        room: 1000,
    };
    for (status, wanted) in [
        (Status::Ok, ""),
        (
            low,
            "in: the rate is too low by 500 bits: a whole frame takes 1500 without coupling, and has room for 1000; try a higher --rate, a lower --bw, or --couple B,E",
        ),
        (
            Status::ReadFault,
            "in: a read failed: look at the disk or the pipe",
        ),
        (
            Status::WriteFault,
            "out or log: a write failed: the device is full, or nobody reads the pipe",
        ),
        (
            Status::NoMemory,
            "out of memory: nothing was encoded or decoded",
        ),
        (
            Status::TooLong { limit: 7 },
            "in: more than 7 bytes: cut it into parts",
        ),
    ] {
        assert!(rt;
            says(rt.alloc(), Reason::Ended(status), wanted)?,
            "{wanted}"
        );
    }
    Ok(())
}

#[test]
fn a_refused_wav_in_words(rt: HostRuntime) -> Result<(), Fail> {
    for (kind, place, wanted) in [
        (
            WavKind::Short,
            20,
            "in: ends at byte 20, inside its head, a chunk or its data: it was cut, or states a wrong size",
        ),
        (
            WavKind::NotRiff,
            0,
            "in: no RIFF at byte 0: it isn't a WAV, convert it",
        ),
        (
            WavKind::NotRiff,
            8,
            "in: no WAVE at byte 8: it isn't a WAV, convert it",
        ),
        (
            WavKind::NoFmt,
            12,
            "in: data at byte 12 before the fmt chunk, which says what they are",
        ),
        (
            WavKind::NoData,
            36,
            "in: ends at byte 36 without a data chunk",
        ),
        (
            WavKind::BadFmt(Field::Align),
            32,
            "in: the block align at byte 32 contradicts the rest of the fmt chunk",
        ),
        (
            WavKind::Unsupported(Field::Tag, 3),
            20,
            "in: format tag 3 at byte 20: only PCM is encoded, tag 1 or 65534",
        ),
        (
            WavKind::Unsupported(Field::Channels, 8),
            22,
            "in: 8 channels at byte 22: only 1 to 6 are encoded",
        ),
        (
            WavKind::Unsupported(Field::Rate, 96000),
            24,
            "in: 96000 Hz at byte 24: only 48000, 44100 and 32000 are encoded",
        ),
        (
            WavKind::Unsupported(Field::Bits, 32),
            34,
            "in: 32 bits at byte 34: only 16 and 24 are encoded",
        ),
        (
            WavKind::Unsupported(Field::Mask, 48),
            40,
            "in: channel mask 0x30 at byte 40: no layout that is encoded",
        ),
        (
            WavKind::Unsupported(Field::Subformat, 3),
            44,
            "in: subformat 0x3 at byte 44: only PCM is encoded",
        ),
    ] {
        let reason = Reason::Ended(Status::BadWav(kind, place));
        assert!(rt; says(rt.alloc(), reason, wanted)?, "{wanted}");
    }
    Ok(())
}

#[test]
fn a_refused_frame_in_words(rt: HostRuntime) -> Result<(), Fail> {
    for (fault, wanted) in [
        (
            FrameFault::Short { have: 5 },
            "in: frame 3: only 5 bytes are left of it: the stream was cut",
        ),
        (
            FrameFault::BadCrc1(1),
            "in: frame 3: the CRC word of its first five eighths is wrong: bits were turned",
        ),
        (
            FrameFault::BadCrc2(1),
            "in: frame 3: the CRC word of the whole frame is wrong: bits were turned",
        ),
        (
            FrameFault::Changed(Row::Acmod),
            "in: frame 3: the field Acmod isn't that of the first frame: cut the stream there",
        ),
        (
            FrameFault::Field(Refused::BadSync),
            "in: frame 3: doesn't begin with 0B 77: bytes were lost or put in before it",
        ),
        (
            FrameFault::Field(Refused::Reserved(Row::Fscod)),
            "in: frame 3: the field Fscod has a reserved value",
        ),
        (
            FrameFault::Field(Refused::BadBsid(16)),
            "in: frame 3: bsid is 16: only 8 is decoded",
        ),
        (
            FrameFault::Field(Refused::DualMono),
            "in: frame 3: two programmes of one channel each aren't decoded",
        ),
        (
            FrameFault::Field(Refused::ShortBlock),
            "in: frame 3: short transforms aren't decoded",
        ),
        (
            FrameFault::Field(Refused::Dither),
            "in: frame 3: dither isn't decoded",
        ),
        (
            FrameFault::Field(Refused::Delta),
            "in: frame 3: delta bit allocation isn't decoded",
        ),
        (
            FrameFault::Field(Refused::NoReuse(Row::Baie)),
            "in: frame 3: the field Baie asks for an earlier block's value, and none fits",
        ),
        (
            FrameFault::Field(Refused::BadExponent {
                channel: 1,
                place: 2,
            }),
            "in: frame 3: group 2 of the exponents of coded channel 1 is none",
        ),
        (
            FrameFault::Field(Refused::BadGroup { place: 9 }),
            "in: frame 3: the group of mantissas at 9 is none",
        ),
        (
            FrameFault::Field(Refused::OutOfBits),
            "in: frame 3: its fields or mantissas need more bits than it has",
        ),
    ] {
        let reason = Reason::Ended(Status::BadStream { frame: 3, fault });
        assert!(rt; says(rt.alloc(), reason, wanted)?, "{wanted}");
    }
    Ok(())
}

#[test]
fn names_that_are_not_opened_in_words(rt: HostRuntime) -> Result<(), Fail> {
    let error = io::Error::from(ErrorKind::NotFound);
    for (reason, wanted) in [
        (
            Reason::Refused(Unopened::Input(error)),
            "in: can't be opened: entity not found",
        ),
        (
            Reason::Refused(Unopened::Output(error)),
            "out: can't be created: entity not found",
        ),
        (
            Reason::Refused(Unopened::Report(error)),
            "log: can't be created: entity not found",
        ),
        (
            Reason::OneFile,
            "two of in, out and log mean one file: nothing was opened",
        ),
        (
            Reason::Unsaid,
            "standard output: the status line couldn't be printed",
        ),
    ] {
        assert!(rt; says(rt.alloc(), reason, wanted)?, "{wanted}");
    }
    Ok(())
}
