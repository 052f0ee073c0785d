//! What a person at a terminal reads beside the report: why the program didn't end with ok, in words, and what to try.
ghost use Rattle.std.specs.Prelude.{◌≡◌, ◌↔◌, None};
ghost use Rattle.ac3.specs.Ends.{code_of_end};

use crate::perform::Ended;
use ac_app::{Field, FrameFault, Names, Part, Refused, Status, WavKind, WordsFault};
use std::{fmt, io};

/// The words that are taken, and where to read on.
const SYNOPSIS: &str = "\
usage: ac3 encode --rate K [--nodes N] [--bw C] [--couple off|auto|B,E] IN OUT REPORT
       ac3 decode IN OUT REPORT
       ac3 synth --seed S --frames M IN OUT REPORT
IN and OUT may be - for a standard stream, REPORT - for none; docs/USING.md and docs/ac3.1 say more";

/// What couldn't be opened or created, and the system's reason.
#[derive(Clone, Copy)]
pub enum Unopened {
    /// The input.
    Input(io::Error),
    /// The output.
    Output(io::Error),
    /// The report.
    Report(io::Error),
}

/// Why the program didn't end with ok.
#[derive(Clone, Copy)]
pub enum Reason {
    /// A run, or the reading of the words, came to this status.
    Ended(Status),
    /// A thing couldn't be opened or created.
    Refused(Unopened),
    /// Two of the names mean one file.
    OneFile,
    /// The program's own line couldn't be printed.
    Unsaid,
}

/// Why the program ended so.
fn reason_of<S, O, N>(ended: &Ended<S, O, N>, unopened: Option<Unopened>) -> Reason {
    match (ended, unopened) {
        (Ended::Ran(status, _), _) => Reason::Ended(*status),
        (Ended::NoWords(WordsFault::Usage), _) => Reason::Ended(Status::Usage),
        (Ended::NoWords(WordsFault::NoMemory), _) => Reason::Ended(Status::NoMemory),
        (Ended::OpenFault, Some(unopened)) => Reason::Refused(unopened),
        (Ended::OpenFault, None) => Reason::OneFile,
        (Ended::Unsaid, _) => Reason::Unsaid,
    }
}

/// Why the program didn't end with ok, where it didn't; `unopened` is the last thing that was refused.
pub fn failure_of<S, O, N>(ended: &Ended<S, O, N>, unopened: Option<Unopened>) -> Option<Reason>
    ensures { (result ≡ None) ↔ (code_of_end ended.now ≡ 0) }
{
    if ended.code() == 0 {
        return None;
    }
    Some(reason_of(ended, unopened))
}

/// A reason in words, one line but for the synopsis, with no line feed behind it.
#[derive(Clone, Copy)]
pub struct Hint<'a> {
    /// The names in the words.
    pub named: Names<'a>,
    /// Why the program didn't end with ok.
    pub reason: Reason,
}

/// An input's name, as it is said.
fn input_name(name: &str) -> &str {
    if name == "-" { "standard input" } else { name }
}

/// An output's name, as it is said.
fn output_name(name: &str) -> &str {
    if name == "-" { "standard output" } else { name }
}

/// A field of the `fmt ` chunk.
fn field_name(field: Field) -> &'static str {
    match field {
        Field::Size => "the size of the fmt chunk",
        Field::Tag => "the format tag",
        Field::Channels => "the number of channels",
        Field::Rate => "the sampling rate",
        Field::Bits => "the number of bits",
        Field::Align => "the block align",
        Field::Extra => "the size of the extension",
        Field::Mask => "the channel mask",
        Field::Subformat => "the subformat",
    }
}

/// A field that has a value outside the profile.
fn unsupported_hint<W: fmt::Write>(
    f: &mut fmt::Formatter<W>,
    field: Field,
    value: u32,
    place: u64,
) -> fmt::Result {
    match field {
        Field::Tag => write!(
            f,
            "format tag {value} at byte {place}: only PCM is encoded, tag 1 or 65534"
        ),
        Field::Channels => write!(
            f,
            "{value} channels at byte {place}: only 1 to 6 are encoded"
        ),
        Field::Rate => write!(
            f,
            "{value} Hz at byte {place}: only 48000, 44100 and 32000 are encoded"
        ),
        Field::Bits => write!(
            f,
            "{value} bits at byte {place}: only 16 and 24 are encoded"
        ),
        Field::Mask => write!(
            f,
            "channel mask 0x{value:x} at byte {place}: no layout that is encoded"
        ),
        Field::Subformat => write!(
            f,
            "subformat 0x{value:x} at byte {place}: only PCM is encoded"
        ),
        Field::Size | Field::Align | Field::Extra => {
            let name = field_name(field);
            write!(f, "{name} at byte {place} is {value}, which isn't encoded")
        }
    }
}

/// Why an input is no WAV that is encoded.
fn wav_hint<W: fmt::Write>(f: &mut fmt::Formatter<W>, kind: WavKind, place: u64) -> fmt::Result {
    match kind {
        WavKind::Short => write!(
            f,
            "ends at byte {place}, inside its head, a chunk or its data: it was cut, or states a wrong size"
        ),
        WavKind::NotRiff if place == 0 => write!(
            f,
            "no RIFF at byte 0: it isn't a WAV, convert it"
        ),
        WavKind::NotRiff => write!(f, "no WAVE at byte {place}: it isn't a WAV, convert it"),
        WavKind::NoFmt => write!(
            f,
            "data at byte {place} before the fmt chunk, which says what they are"
        ),
        WavKind::NoData => write!(f, "ends at byte {place} without a data chunk"),
        WavKind::BadFmt(field) => {
            let name = field_name(field);
            write!(
                f,
                "{name} at byte {place} contradicts the rest of the fmt chunk"
            )
        }
        WavKind::Unsupported(field, value) => unsupported_hint(f, field, value, place),
    }
}

/// A part of a frame.
fn part_name(part: Part) -> &'static str {
    match part {
        Part::Front => "the front of a frame",
        Part::Total => "a whole frame",
        Part::Last => "the last block of a frame",
    }
}

/// By how much a rate is too low, and what to try.
fn rate_hint<W: fmt::Write>(
    f: &mut fmt::Formatter<W>,
    part: Part,
    needed: u32,
    room: u32,
) -> fmt::Result {
    let name = part_name(part);
    let missing = needed.saturating_sub(room);
    write!(
        f,
        "the rate is too low by {missing} bits: {name} takes {needed} without coupling, and has room for {room}; "
    )?;
    f.write_str("try a higher --rate, a lower --bw, or --couple B,E")
}

/// Why a field or a mantissa of a frame is refused.
fn refused_hint<W: fmt::Write>(f: &mut fmt::Formatter<W>, refused: Refused) -> fmt::Result {
    match refused {
        Refused::BadSync => f.write_str(
            "doesn't begin with 0B 77: bytes were lost or put in before it",
        ),
        Refused::Reserved(row) => write!(f, "the field {row:?} has a reserved value"),
        Refused::BadBsid(bsid) => write!(f, "bsid is {bsid}: only 8 is decoded"),
        Refused::DualMono => f.write_str("two programmes of one channel each aren't decoded"),
        Refused::ShortBlock => f.write_str("short transforms aren't decoded"),
        Refused::Dither => f.write_str("dither isn't decoded"),
        Refused::Delta => f.write_str("delta bit allocation isn't decoded"),
        Refused::NoReuse(row) => write!(
            f,
            "the field {row:?} asks for an earlier block's value, and none fits"
        ),
        Refused::BadExponent { channel, place } => write!(
            f,
            "group {place} of the exponents of coded channel {channel} is none"
        ),
        Refused::BadGroup { place } => write!(f, "the group of mantissas at {place} is none"),
        Refused::OutOfBits => f.write_str("its fields or mantissas need more bits than it has"),
    }
}

/// Why bytes are no frame of a stream that is decoded.
fn frame_hint<W: fmt::Write>(f: &mut fmt::Formatter<W>, fault: FrameFault) -> fmt::Result {
    match fault {
        FrameFault::Short { have } => write!(
            f,
            "only {have} bytes are left of it: the stream was cut"
        ),
        FrameFault::BadCrc1(_) => f.write_str(
            "the CRC word of its first five eighths is wrong: bits were turned",
        ),
        FrameFault::BadCrc2(_) => f.write_str(
            "the CRC word of the whole frame is wrong: bits were turned",
        ),
        FrameFault::Changed(row) => write!(
            f,
            "the field {row:?} isn't that of the first frame: cut the stream there"
        ),
        FrameFault::Field(refused) => refused_hint(f, refused),
    }
}

/// What was written where a write failed: which of the two it was isn't known.
fn write_hint<W: fmt::Write>(f: &mut fmt::Formatter<W>, named: Names<'_>) -> fmt::Result {
    f.write_str(output_name(named.to))?;
    if named.report != "-" {
        write!(f, " or {}", named.report)?;
    }
    f.write_str(": a write failed: the device is full, or nobody reads the pipe")
}

/// Why a run came to a status; nothing of ok.
fn status_hint<W: fmt::Write>(
    f: &mut fmt::Formatter<W>,
    named: Names<'_>,
    status: Status,
) -> fmt::Result {
    let input = input_name(named.from);
    match status {
        Status::Ok => Ok(()),
        Status::Usage => f.write_str(SYNOPSIS),
        Status::BadWav(kind, place) => {
            write!(f, "{input}: ")?;
            wav_hint(f, kind, place)
        }
        Status::RateTooLow { part, needed, room } => {
            write!(f, "{input}: ")?;
            rate_hint(f, part, needed, room)
        }
        Status::BadStream { frame, fault } => {
            write!(f, "{input}: frame {frame}: ")?;
            frame_hint(f, fault)
        }
        Status::ReadFault => write!(f, "{input}: a read failed: look at the disk or the pipe"),
        Status::WriteFault => write_hint(f, named),
        Status::NoMemory => f.write_str("out of memory: nothing was encoded or decoded"),
        Status::TooLong { limit } => write!(
            f,
            "{input}: more than {limit} bytes: cut it into parts"
        ),
    }
}

/// What couldn't be opened or created, and why.
fn unopened_hint<W: fmt::Write>(
    f: &mut fmt::Formatter<W>,
    named: Names<'_>,
    unopened: Unopened,
) -> fmt::Result {
    match unopened {
        Unopened::Input(error) => write!(f, "{}: can't be opened: {error}", named.from),
        Unopened::Output(error) => write!(f, "{}: can't be created: {error}", named.to),
        Unopened::Report(error) => write!(f, "{}: can't be created: {error}", named.report),
    }
}

/// Two of the names mean one file.
fn one_file_hint<W: fmt::Write>(f: &mut fmt::Formatter<W>, named: Names<'_>) -> fmt::Result {
    let input = input_name(named.from);
    let output = output_name(named.to);
    if named.report == "-" {
        return write!(f, "{input} and {output} mean one file: nothing was opened");
    }
    let report = named.report;
    write!(
        f,
        "two of {input}, {output} and {report} mean one file: nothing was opened"
    )
}

impl fmt::Display for Hint<'_> {
    fn fmt<W: fmt::Write>(&self, f: &mut fmt::Formatter<W>) -> fmt::Result {
        match self.reason {
            Reason::Ended(status) => status_hint(f, self.named, status),
            Reason::Refused(unopened) => unopened_hint(f, self.named, unopened),
            Reason::OneFile => one_file_hint(f, self.named),
            Reason::Unsaid => f.write_str("standard output: the status line couldn't be printed"),
        }
    }
}
