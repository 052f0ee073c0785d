//! The worked examples of the top call, over a source and sinks in memory.
use crate::{MemSink, MemSource, Sink, Status, run};
use std::alloc::{AllocError, Global};
use std::test::Fail;

/// The head of a mono WAV of 16 bits at 48 kHz without data.
const EMPTY: [u8; 44] =
    *b"RIFF\x24\0\0\0WAVEfmt \x10\0\0\0\x01\0\x01\0\x80\xbb\0\0\0\x77\x01\0\x02\0\x10\0data\0\0\0\0";

/// The head of a mono WAV of 24 bits at 48 kHz in the extensible form, with data to the end of the input.
const WIDE: [u8; 68] =
    *b"RIFF\xff\xff\xff\xffWAVEfmt \x28\0\0\0\xfe\xff\x01\0\x80\xbb\0\0\x80\x32\x02\0\x03\0\x18\0\x16\0\x18\0\x04\0\0\0\x01\0\0\0\0\0\x10\0\x80\0\0\xaa\0\x38\x9b\x71data\xff\xff\xff\xff";

/// What takes memory, made again where memory was wanting.
macro_rules! again {
    ($rt:expr; $made:expr) => {
        match $made {
            Ok(made) => made,
            Err(AllocError) => {
                println!($rt; "made again")?;
                $made?
            }
        }
    };
}

/// What a run left, made again where memory was wanting in it or in a sink. One that left what it may not is handed
/// back as it is, for the test to refuse.
macro_rules! left {
    ($rt:expr; $made:expr) => {{
        let first = again!($rt; $made);
        if is_starved(&first) {
            println!($rt; "made again")?;
            let plain = $made?;
            if may_leave(&first, &plain) { plain } else { first }
        } else {
            first
        }
    }};
}

/// What a run left.
#[derive(Drop)]
struct Left {
    status: Status,
    output: MemSink,
    report: MemSink,
    /// Whether the report takes its first line, and tells it.
    is_told: bool,
}

/// Whether memory was wanting in a run, or in one of its sinks.
fn is_starved(left: &Left) -> bool {
    left.status == Status::NoMemory || left.output.starved() > 0 || left.report.starved() > 0
}

/// Whether a run that wanted memory left what it may: nothing but the status line, or, where a sink wanted it, a front of
/// the plain output, and another answer than Ok.
fn may_leave(left: &Left, plain: &Left) -> bool {
    if left.status == Status::NoMemory {
        let line = if left.is_told {
            "status 9 no memory\n"
        } else {
            ""
        };
        return refuses(left, Status::NoMemory, line);
    }
    left.status != Status::Ok && plain.output.bytes().starts_with(left.output.bytes())
}

/// The objects' calls that fail, by their numbers.
#[derive(Clone, Copy)]
struct Failing<'a> {
    input: &'a [u64],
    output: &'a [u64],
    report: &'a [u64],
}

const NONE: Failing<'static> = Failing {
    input: &[],
    output: &[],
    report: &[],
};

fn texts(alloc: Global, words: &[&str]) -> Result<Vec<String>, AllocError> {
    let mut made = Vec::with_capacity(alloc, words.len())?;
    for word in words {
        made.push(String::from_str(alloc, word)?)?;
    }
    Ok(made)
}

fn spoken(rt: HostRuntime, words: &[&str]) -> Result<Vec<String>, Fail> {
    Ok(again!(rt; texts(rt.alloc(), words)))
}

/// The words of an encode at this rate.
fn words(rt: HostRuntime, rate: &str) -> Result<Vec<String>, Fail> {
    spoken(rt, &["encode", "--rate", rate, "-", "-", "-"])
}

fn source(alloc: Global, bytes: &[u8], failing: &[u64]) -> Result<MemSource, AllocError> {
    Ok(MemSource::new(
        Vec::from_slice(alloc, bytes)?,
        Vec::from_slice(alloc, failing)?,
    ))
}

fn sink(alloc: Global, failing: &[u64]) -> Result<MemSink, AllocError> {
    Ok(MemSink::new(Vec::new(alloc), Vec::from_slice(alloc, failing)?))
}

/// A run, of which its answer alone is known.
fn answer<O: Sink, N: Sink>(
    alloc: Global,
    words: &[String],
    input: &mut MemSource,
    output: &mut O,
    report: &mut N,
) -> Status {
    run(alloc, words, input, output, report)
}

fn once(
    alloc: Global,
    words: &[String],
    bytes: &[u8],
    failing: Failing<'_>,
) -> Result<Left, AllocError> {
    let mut input = source(alloc, bytes, failing.input)?;
    let mut output = sink(alloc, failing.output)?;
    let mut report = sink(alloc, failing.report)?;
    let status = answer(alloc, words, &mut input, &mut output, &mut report);
    Ok(Left {
        status,
        output,
        report,
        is_told: !failing.report.contains(&0),
    })
}

fn left_by(
    rt: HostRuntime,
    words: &[String],
    bytes: &[u8],
    failing: Failing<'_>,
) -> Result<Left, Fail> {
    Ok(left!(rt; once(rt.alloc(), words, bytes, failing)))
}

fn encoded(rt: HostRuntime, bytes: &[u8]) -> Result<Left, Fail> {
    left_by(rt, &words(rt, "192")?, bytes, NONE)
}

/// Writes bytes over those from `at` on.
fn write(bytes: &mut [u8], at: usize, new: &[u8]) {
    for (place, byte) in new.iter().enumerate() {
        let here = at.saturating_add(place);
        if here < bytes.len() {
            bytes[here] = *byte;
        }
    }
}

fn front(bytes: &[u8], count: usize) -> &[u8] {
    &bytes[..count.min(bytes.len())]
}

/// The head with this size of the data.
fn head_of(size: u32) -> [u8; 44] {
    let mut head = EMPTY;
    head[40..44].copy_from_slice(&size.to_le_bytes());
    head
}

/// A head and this many bytes of 0 behind it.
fn with_zeros(alloc: Global, head: &[u8; 44], count: u32) -> Result<Vec<u8>, AllocError> {
    let mut bytes = Vec::with_capacity(alloc, head.len() + count as usize)?;
    bytes.extend_from_slice(head)?;
    bytes.resize(head.len() + count as usize, 0)?;
    Ok(bytes)
}

/// A head and this many bytes of 0 behind it.
fn zeros(rt: HostRuntime, head: &[u8; 44], count: u32) -> Result<Vec<u8>, Fail> {
    Ok(again!(rt; with_zeros(rt.alloc(), head, count)))
}

/// A WAV of `samples` zero samples.
fn silence(rt: HostRuntime, samples: u16) -> Result<Vec<u8>, Fail> {
    let size = 2 * u32::from(samples);
    zeros(rt, &head_of(size), size)
}

/// Whether a run left this report.
fn reports(left: &Left, report: &str) -> bool {
    left.report.bytes() == report.as_bytes()
}

/// Whether a run answered this, with an empty output and this report.
fn refuses(left: &Left, status: Status, report: &str) -> bool {
    left.status == status && left.output.bytes().is_empty() && reports(left, report)
}

/// Sample `place` of a sound.
fn sample(place: u16) -> [u8; 2] {
    place.wrapping_mul(7919).to_le_bytes()
}

fn plain_sound(alloc: Global) -> Result<Vec<u8>, AllocError> {
    let mut bytes = Vec::with_capacity(alloc, 6044)?;
    bytes.extend_from_slice(&head_of(6000))?;
    for place in 0..3000u16 {
        bytes.extend_from_slice(&sample(place))?;
    }
    Ok(bytes)
}

/// A WAV of the sound's first 3,000 samples, of 16 bits.
fn plain(rt: HostRuntime) -> Result<Vec<u8>, Fail> {
    Ok(again!(rt; plain_sound(rt.alloc())))
}

mod decoded;
mod faults;
mod heads;
mod layouts;
mod mono;
mod refused;
mod sounds;
mod streams;
mod synthesis;
