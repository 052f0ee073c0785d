//! The line of a status.
ghost use Rattle.std.specs.Prelude.{◌≡◌, ◌≤◌, length};
ghost use Rattle.ac_status.specs.Lines.{status_line, kind_word, part_word, refused_word, fault_word};

use crate::status::Status;
use ac_base::Part;
use ac_codec::Refused;
use ac_record::FrameFault;
use ac_riff::WavKind;
use ac_world::{Line, push_number};

fn word_of(kind: WavKind) -> &'static str
    ensures value { result.now ≡ kind_word kind }
{
    match kind {
        WavKind::Short => "short ",
        WavKind::NotRiff => "notriff ",
        WavKind::NoFmt => "nofmt ",
        WavKind::NoData => "nodata ",
        WavKind::BadFmt(_) => "badfmt ",
        WavKind::Unsupported(_, _) => "unsupported ",
    }
}

fn refusal(kind: WavKind, place: u64) -> Line
    ensures { result.bytes ≡ status_line (Status.BadWav kind place) }
{
    let mut line = Line::new();
    line.push_str("status 2 bad wav ");
    line.push_str(word_of(kind));
    push_number(&mut line, place);
    line.push_str("\n");
    line
}

fn part_name(part: Part) -> &'static str
    ensures value { result.now ≡ part_word part }
{
    match part {
        Part::Front => "front ",
        Part::Total => "total ",
        Part::Last => "last ",
    }
}

fn rate_too_low(part: Part, needed: u32, room: u32) -> Line
    ensures { result.bytes ≡ status_line (Status.RateTooLow part needed room) }
{
    let mut line = Line::new();
    line.push_str("status 3 rate too low ");
    line.push_str(part_name(part));
    push_number(&mut line, u64::from(needed));
    line.push_str(" ");
    push_number(&mut line, u64::from(room));
    line.push_str("\n");
    line
}

fn refused_word(refused: Refused) -> &'static str
    ensures value { result.now ≡ refused_word refused }
{
    match refused {
        Refused::BadSync => "badsync",
        Refused::Reserved(_) => "reserved",
        Refused::BadBsid(_) => "badbsid",
        Refused::DualMono => "dualmono",
        Refused::ShortBlock => "shortblock",
        Refused::Dither => "dither",
        Refused::Delta => "delta",
        Refused::NoReuse(_) => "noreuse",
        Refused::BadExponent { .. } => "badexponent",
        Refused::BadGroup { .. } => "badgroup",
        Refused::OutOfBits => "outofbits",
    }
}

fn fault_word(fault: FrameFault) -> &'static str
    ensures value { result.now ≡ fault_word fault }
{
    match fault {
        FrameFault::Short { .. } => "short",
        FrameFault::BadCrc1(_) => "badcrc1",
        FrameFault::BadCrc2(_) => "badcrc2",
        FrameFault::Changed(_) => "changed",
        FrameFault::Field(refused) => refused_word(refused),
    }
}

fn bad_stream(frame: u64, fault: FrameFault) -> Line
    ensures { result.bytes ≡ status_line (Status.BadStream frame fault) }
{
    let mut line = Line::new();
    line.push_str("status 4 bad stream ");
    push_number(&mut line, frame);
    line.push_str(" ");
    line.push_str(fault_word(fault));
    line.push_str("\n");
    line
}

fn too_long(limit: u64) -> Line
    ensures { result.bytes ≡ status_line (Status.TooLong limit) }
{
    let mut line = Line::new();
    line.push_str("status 11 too long ");
    push_number(&mut line, limit);
    line.push_str("\n");
    line
}

fn fixed(text: &'static str) -> Line
    requires { length text.now ≤ 128 }
    ensures { result.bytes ≡ text.now }
{
    let mut line = Line::new();
    line.push_str(text);
    line
}

/// The line of a status, the last of a report.
pub fn status_line(status: Status) -> Line
    ensures { result.bytes ≡ status_line status }
{
    match status {
        Status::Ok => fixed("status 0 ok\n"),
        Status::Usage => fixed("status 1 usage\n"),
        Status::BadWav(kind, place) => refusal(kind, place),
        Status::RateTooLow { part, needed, room } => rate_too_low(part, needed, room),
        Status::BadStream { frame, fault } => bad_stream(frame, fault),
        Status::ReadFault => fixed("status 6 read fault\n"),
        Status::WriteFault => fixed("status 7 write fault\n"),
        Status::NoMemory => fixed("status 9 no memory\n"),
        Status::TooLong { limit } => too_long(limit),
    }
}
