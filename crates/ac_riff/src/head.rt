//! The head of a WAV.
ghost use Rattle.std.specs.Prelude.{◌≡◌, ◌≢◌, ℕ, ◌+◌, ◌≤◌, ◌<◌, List, drop, codes, Option, Some, None, take, IfOk, IfErr, OnOk, MatchOption, MatchResult, IsErrOf, Err};
ghost use Rattle.ac_io.specs.Outside.{Rose};
ghost use Rattle.ac_riff.specs.Format.{fault_of, fscod_of, IsFine};
ghost use Rattle.ac_riff.specs.Form.{name_of, size_of, padded, whole_length, IsRiff, IsOpen, IsFormatted, IsHead, head_of, data_size, IsOfProfile};
ghost use Rattle.ac_riff.specs.Refusal.{Reaches, IsNoRiff, IsStopped, RefusalLeaves, HeadRead, ReadsExactly};
ghost use Rattle.ac_io.specs.Within.{IsAt, TakesAtMost};
ghost use Rattle.ac_riff.specs.Pieces.{IsUntaken, FormatRead, IsFound, DataFound};
ghost use Rattle.ac_riff.specs.declared.fault.WavFault.{WavFault};

use crate::chunk::{ChunkHead, Name, read_chunk_head};
use crate::fault::{WavFault, WavKind};
use crate::format::Format;
use crate::layout;
use crate::pieces::{pass_over, read_exact};
use ac_io::Source;

/// What the head of a WAV says.
#[derive(Clone, Copy, Debug, PartialEq, Eq)]
pub struct WavHead {
    /// The code of the sampling rate: 0 for 48 kHz, 1 for 44.1 kHz, 2 for 32 kHz (A/52 5.4.1.3).
    pub fscod: u8,
    /// The audio coding mode, 1 to 7 (A/52 5.4.2.3).
    pub acmod: u8,
    /// Whether there is an LFE channel.
    pub lfe: bool,
    /// Bits a sample, 16 or 24.
    pub bits: u8,
    /// The number of channels, LFE included.
    pub channels: u8,
    /// The WAV place of each coded channel; LFE is coded last. Places past the channels are 0.
    pub order: [u8; 6],
    /// The number of the data's bytes; `None` where they run to the end of the input.
    pub size: Option<u32>,
    /// The number of bytes before the data.
    pub taken: u64,
}

/// The first `fmt ` chunk, and the place behind it.
#[derive(Clone, Copy)]
struct Found {
    format: Format,
    end: u64,
}

/// The place behind the head of the `data` chunk, and the size that it states.
#[derive(Clone, Copy)]
struct Samples {
    place: u64,
    size: u32,
}

/// The place of a name that isn't that of a WAV.
fn other_name(riff: &[u8; 12]) -> Option<u64>
    ensures { MatchOption result (take 4 riff.now ≡ codes "RIFF" × take 4 (drop 8 riff.now) ≡ codes "WAVE") (IsNoRiff riff.now) }
{
    if &riff[..4] == b"RIFF".as_slice() {
        if &riff[8..12] == b"WAVE".as_slice() {
            return None;
        }
        return Some(8);
    }
    Some(0)
}

/// Reads the 12-byte head.
fn read_riff<S: Source>(input: &mut S, limit: u64) -> Result<(), WavFault>
    ensures bound { OnOk result (12 ≤ limit) }
    ensures told { (bytes : List ℕ) → S.left input.old ≡ Some bytes → MatchResult result
        (λ _. IsRiff bytes × IsAt bytes 12 (S.left input.new))
        (λ fault. RefusalLeaves bytes limit fault (S.left input.new)) }
    ensures cause { (bytes : List ℕ) → S.left input.old ≡ Some bytes → IfErr result (IsStopped bytes limit) }
    ensures most_read { (bytes : List ℕ) → S.left input.old ≡ Some bytes → TakesAtMost bytes (limit + 1) (S.left input.new) }
    ensures no_further { (bytes : List ℕ) → S.left input.old ≡ Some bytes → IsErrOf result WavFault.ReadFault
        → TakesAtMost bytes 12 (S.left input.new) }
    ensures rose { IsErrOf result WavFault.ReadFault → Rose (S.faults input.old) (S.faults input.new) }
    ensures never_falls { S.faults input.old ≤ S.faults input.new }
{
    let mut riff = [0; 12];
    read_exact(input, 0, limit, &mut riff)?;
    match other_name(&riff) {
        None => Ok(()),
        Some(place) => Err(WavFault::Bad(WavKind::NotRiff, place)),
    }
}

/// Reads the bytes of the `fmt ` chunk of this size that begins at `place`, and its pad byte.
fn read_format<S: Source>(
    input: &mut S,
    place: u64,
    limit: u64,
    size: u32,
) -> Result<Format, WavFault>
    requires { place + 8 ≤ limit }
    ensures bound { IfOk result (λ _. place + whole_length size ≤ limit) }
    ensures told { (bytes : List ℕ) → IsAt bytes (place + 8) (S.left input.old) → size ≡ size_of (drop place bytes) → MatchResult result
        (λ format. FormatRead bytes place format (S.left input.new))
        (λ fault. RefusalLeaves bytes limit fault (S.left input.new)) }
    ensures cause { (bytes : List ℕ) → IsAt bytes (place + 8) (S.left input.old) → size ≡ size_of (drop place bytes)
        → IfErr result (IsUntaken bytes (place + 8) (padded size) limit) }
    ensures size { IfOk result (λ format. format.size ≡ size) }
    ensures most_read { (bytes : List ℕ) → IsAt bytes (place + 8) (S.left input.old) → TakesAtMost bytes (limit + 1) (S.left input.new) }
    ensures no_further { (bytes : List ℕ) → IsAt bytes (place + 8) (S.left input.old) → IsErrOf result WavFault.ReadFault
        → TakesAtMost bytes (place + whole_length size) (S.left input.new) }
    ensures rose { IsErrOf result WavFault.ReadFault → Rose (S.faults input.old) (S.faults input.new) }
    ensures never_falls { S.faults input.old ≤ S.faults input.new }
{
    let mut body = [0; 40];
    let front = size.min(40);
    read_exact(input, place + 8, limit, &mut body[..front as usize])?;
    let rest = u64::from(size - front) + u64::from(size % 2);
    pass_over(input, place + 8 + u64::from(front), limit, rest)?;
    Ok(Format::read(size, &body))
}

/// Reads and tests the first `fmt ` chunk, which begins at `place`.
fn accept<S: Source>(input: &mut S, place: u64, limit: u64, size: u32) -> Result<Found, WavFault>
    requires { place + 8 ≤ limit }
    ensures bound { IfOk result (λ found. found.end ≤ limit) }
    ensures fine { IfOk result (λ found. fault_of found.format ≡ None) }
    ensures told { (bytes : List ℕ) → IsOpen bytes place → IsAt bytes (place + 8) (S.left input.old)
        → name_of (drop place bytes) ≡ codes "fmt "
        → size ≡ size_of (drop place bytes) → MatchResult result
        (λ found. IsFound bytes found (S.left input.new))
        (λ fault. RefusalLeaves bytes limit fault (S.left input.new)) }
    ensures cause { (bytes : List ℕ) → IsOpen bytes place → IsAt bytes (place + 8) (S.left input.old)
        → name_of (drop place bytes) ≡ codes "fmt "
        → size ≡ size_of (drop place bytes) → IfErr result (IsStopped bytes limit) }
    ensures most_read { (bytes : List ℕ) → IsAt bytes (place + 8) (S.left input.old) → TakesAtMost bytes (limit + 1) (S.left input.new) }
    ensures no_further { (bytes : List ℕ) → IsAt bytes (place + 8) (S.left input.old) → IsErrOf result WavFault.ReadFault
        → TakesAtMost bytes (place + whole_length size) (S.left input.new) }
    ensures rose { IsErrOf result WavFault.ReadFault → Rose (S.faults input.old) (S.faults input.new) }
    ensures never_falls { S.faults input.old ≤ S.faults input.new }
{
    let format = read_format(input, place, limit, size)?;
    match format.fault() {
        Some(fault) => Err(WavFault::Bad(fault.kind, place + fault.place)),
        None => {
            let end = place + 8 + u64::from(size) + u64::from(size % 2);
            Ok(Found { format, end })
        }
    }
}

/// Passes over the chunk that begins at `place`, whose head was read, and gives the place behind it.
fn pass_chunk<S: Source>(
    input: &mut S,
    place: u64,
    limit: u64,
    chunk: &ChunkHead,
) -> Result<u64, WavFault>
    requires { place + 8 ≤ limit }
    ensures value { IfOk result (λ end. end ≡ place + whole_length chunk.now.size) }
    ensures bound { IfOk result (λ end. end ≤ limit) }
    ensures told { (bytes : List ℕ) → Reaches bytes place → IsAt bytes (place + 8) (S.left input.old)
        → name_of (drop place bytes) ≢ codes "data"
        → chunk.now.size ≡ size_of (drop place bytes) → MatchResult result
        (λ end. IsAt bytes end (S.left input.new))
        (λ fault. RefusalLeaves bytes limit fault (S.left input.new)) }
    ensures cause { (bytes : List ℕ) → Reaches bytes place → IsAt bytes (place + 8) (S.left input.old)
        → name_of (drop place bytes) ≢ codes "data"
        → chunk.now.size ≡ size_of (drop place bytes) → IfErr result (IsStopped bytes limit) }
    ensures most_read { (bytes : List ℕ) → IsAt bytes (place + 8) (S.left input.old) → TakesAtMost bytes (limit + 1) (S.left input.new) }
    ensures no_further { (bytes : List ℕ) → IsAt bytes (place + 8) (S.left input.old) → IsErrOf result WavFault.ReadFault
        → TakesAtMost bytes (place + whole_length chunk.now.size) (S.left input.new) }
    ensures rose { IsErrOf result WavFault.ReadFault → Rose (S.faults input.old) (S.faults input.new) }
    ensures never_falls { S.faults input.old ≤ S.faults input.new }
{
    let padded = chunk.padded();
    pass_over(input, place + 8, limit, padded)?;
    Ok(place + 8 + padded)
}

/// Reads to the end of the first `fmt ` chunk.
fn find_format<S: Source>(input: &mut S, limit: u64) -> Result<Found, WavFault>
    requires { 12 ≤ limit }
    ensures bound { IfOk result (λ found. found.end ≤ limit) }
    ensures fine { IfOk result (λ found. fault_of found.format ≡ None) }
    ensures told { (bytes : List ℕ) → IsOpen bytes 12 → IsAt bytes 12 (S.left input.old) → MatchResult result
        (λ found. IsFound bytes found (S.left input.new))
        (λ fault. RefusalLeaves bytes limit fault (S.left input.new)) }
    ensures cause { (bytes : List ℕ) → IsOpen bytes 12 → IsAt bytes 12 (S.left input.old) → IfErr result (IsStopped bytes limit) }
    ensures most_read { (bytes : List ℕ) → IsOpen bytes 12 → IsAt bytes 12 (S.left input.old)
        → TakesAtMost bytes (limit + 1) (S.left input.new) }
    ensures before_data { (bytes : List ℕ) (head : WavHead) → IsOpen bytes 12 → IsAt bytes 12 (S.left input.old) → IsHead bytes head
        → IsErrOf result WavFault.ReadFault → TakesAtMost bytes head.taken (S.left input.new) }
    ensures rose { IsErrOf result WavFault.ReadFault → Rose (S.faults input.old) (S.faults input.new) }
    ensures never_falls { S.faults input.old ≤ S.faults input.new }
{
    let mut place = 12;
    loop {
        let chunk = read_chunk_head(input, place, limit)?;
        match chunk.name {
            Name::Format => return accept(input, place, limit, chunk.size),
            Name::Samples => return Err(WavFault::Bad(WavKind::NoFmt, place)),
            Name::Other => place = pass_chunk(input, place, limit, &chunk)?,
        }
    }
}

/// Reads to the first byte of the data, from the place behind the `fmt ` chunk on.
fn find_samples<S: Source>(input: &mut S, start: u64, limit: u64) -> Result<Samples, WavFault>
    requires { start ≤ limit }
    ensures bound { IfOk result (λ samples. samples.place ≤ limit) }
    ensures told { (bytes chunk : List ℕ) → IsFormatted bytes chunk start → IsAt bytes start (S.left input.old) → MatchResult result
        (λ samples. DataFound bytes chunk samples (S.left input.new))
        (λ fault. RefusalLeaves bytes limit fault (S.left input.new)) }
    ensures cause { (bytes chunk : List ℕ) → IsFormatted bytes chunk start → IsAt bytes start (S.left input.old)
        → IfErr result (IsStopped bytes limit) }
    ensures most_read { (bytes chunk : List ℕ) → IsFormatted bytes chunk start → IsAt bytes start (S.left input.old)
        → TakesAtMost bytes (limit + 1) (S.left input.new) }
    ensures before_data { (bytes chunk : List ℕ) (head : WavHead) → IsFormatted bytes chunk start → IsAt bytes start (S.left input.old)
        → IsHead bytes head → IsErrOf result WavFault.ReadFault → TakesAtMost bytes head.taken (S.left input.new) }
    ensures rose { IsErrOf result WavFault.ReadFault → Rose (S.faults input.old) (S.faults input.new) }
    ensures never_falls { S.faults input.old ≤ S.faults input.new }
{
    let mut place = start;
    loop {
        let chunk = read_chunk_head(input, place, limit)?;
        match chunk.name {
            Name::Samples => {
                return Ok(Samples {
                    place: place + 8,
                    size: chunk.size,
                });
            }
            _ => place = pass_chunk(input, place, limit, &chunk)?,
        }
    }
}

/// The size of the data; none where they run to the end of the input.
fn stated_size(size: u32) -> Option<u32>
    ensures { result ≡ data_size size }
{
    if size == u32::MAX { None } else { Some(size) }
}

/// The code of a rate.
fn fscod(rate: u32) -> u8
    ensures value { result ≡ fscod_of rate }
    ensures most { result ≤ 2 }
{
    match rate {
        48000 => 0,
        44100 => 1,
        _ => 2,
    }
}

/// What an accepted format and the `data` chunk say.
fn head(format: &Format, samples: &Samples) -> WavHead
    requires { IsFine format.now }
    ensures says { result ≡ head_of format.now samples.now.size samples.now.place }
    ensures profile { IsOfProfile result }
{
    let mask = format.layout();
    let acmod = layout::acmod(mask);
    let lfe = layout::names_lfe(mask);
    WavHead {
        fscod: fscod(format.rate),
        acmod,
        lfe,
        bits: format.bits as u8,
        channels: format.channels as u8,
        order: layout::order(acmod, lfe),
        size: stated_size(samples.size),
        taken: samples.place,
    }
}

impl WavHead {
    /// Reads a WAV to the first byte of its data. Takes at most `limit` + 1 bytes, and none of the data, whatever it answers.
    ///
    /// # Errors
    ///
    /// `Bad` with the first rule that fails and its place, `TooLong` where more than `limit` bytes are needed
    /// and there, `ReadFault` where a read failed.
    pub fn read<S: Source>(input: &mut S, limit: u64) -> Result<WavHead, WavFault>
        ensures told { (bytes : List ℕ) → S.left input.old ≡ Some bytes → MatchResult result
            (λ head. HeadRead bytes limit head (S.left input.new))
            (λ fault. RefusalLeaves bytes limit fault (S.left input.new)) }
        ensures cause { (bytes : List ℕ) → S.left input.old ≡ Some bytes → IfErr result (IsStopped bytes limit) }
        ensures complete { (bytes : List ℕ) → S.left input.old ≡ Some bytes → result ≢ Err WavFault.ReadFault
            → ReadsExactly bytes limit result }
        ensures profile { IfOk result (λ head. IsOfProfile head) }
        ensures bound { IfOk result (λ head. head.taken ≤ limit) }
        ensures most_read { (bytes : List ℕ) → S.left input.old ≡ Some bytes → TakesAtMost bytes (limit + 1) (S.left input.new) }
        ensures before_data { (bytes : List ℕ) (head : WavHead) → S.left input.old ≡ Some bytes → IsHead bytes head
            → TakesAtMost bytes head.taken (S.left input.new) }
        ensures rose { IsErrOf result WavFault.ReadFault → Rose (S.faults input.old) (S.faults input.new) }
        ensures never_falls { S.faults input.old ≤ S.faults input.new }
    {
        read_riff(input, limit)?;
        let found = find_format(input, limit)?;
        let samples = find_samples(input, found.end, limit)?;
        Ok(head(&found.format, &samples))
    }
}

#[cfg(test)]
mod tests;
