//! What a decoded frame adds to the WAV, and its line, written.
ghost use Rattle.std.specs.Prelude.{◌≤◌, ◌++◌, OnOk, OnErr, IfErr};
ghost use Rattle.ac_io.specs.Outside.{Rose, Adds, AddsFront};
ghost use Rattle.ac_wav.specs.Written.{head_bytes, frame_samples};
ghost use Rattle.ac_world.specs.Emits.{Emits, RoseAt};
ghost use Rattle.ac_world.specs.World.{sinks, SinksNeverFall};
ghost use Rattle.ac_decode.specs.Lines.{frame_line};
ghost use Rattle.ac_decode.specs.Sound.{at_start};

use crate::lines;
use crate::work::SAMPLE_BYTES;
use ac_dec::Heard;
use ac_io::{Failed, Sink};
use ac_wav::{Pcm, wav_head, wav_samples};
use ac_world::Broken;

/// Writes the head of the WAV before frame 0.
fn start<O: Sink>(i: u64, heard: &Heard, output: &mut O) -> Result<(), Failed>
    requires acmod_least { 1 ≤ heard.now.acmod }
    requires acmod_most { heard.now.acmod ≤ 7 }
    requires fscod { heard.now.fscod ≤ 2 }
    ensures adds { OnOk result (Adds (O.held output.old) (O.held output.new)
        (at_start i (head_bytes heard.now.acmod heard.now.lfe heard.now.fscod))) }
    ensures front { OnErr result (AddsFront (O.held output.old) (O.held output.new)
        (at_start i (head_bytes heard.now.acmod heard.now.lfe heard.now.fscod))) }
    ensures rose { OnErr result (Rose (O.faults output.old) (O.faults output.new)) }
    ensures never_falls { O.faults output.old ≤ O.faults output.new }
{
    if i > 0 {
        return Ok(());
    }
    let mut head = [0; 68];
    wav_head(heard.acmod, heard.lfe, heard.fscod, &mut head);
    output.write(&head)
}

/// Writes the head of the WAV before frame 0, then the samples of frame `i` and its line, each by one write.
///
/// # Errors
///
/// Which sink failed; the output took a front of the head and the samples, or the report a front of the line.
pub fn emit<O: Sink, N: Sink>(
    i: u64,
    heard: &Heard,
    pcm: &Pcm,
    samples: &mut [u8; SAMPLE_BYTES],
    output: &mut O,
    report: &mut N,
) -> Result<(), Broken>
    requires acmod_least { 1 ≤ heard.now.acmod }
    requires acmod_most { heard.now.acmod ≤ 7 }
    requires fscod { heard.now.fscod ≤ 2 }
    ensures told { Emits (at_start i (head_bytes heard.now.acmod heard.now.lfe heard.now.fscod)
        ++ frame_samples heard.now.acmod heard.now.lfe pcm.now.s) (frame_line i heard.now.size) result
        (sinks O.held O.faults N.held N.faults output.old report.old) (sinks O.held O.faults N.held N.faults output.new report.new) }
    ensures rose { IfErr result (λ broken. RoseAt broken
        (sinks O.held O.faults N.held N.faults output.old report.old) (sinks O.held O.faults N.held N.faults output.new report.new)) }
    ensures never_falls { SinksNeverFall
        (sinks O.held O.faults N.held N.faults output.old report.old) (sinks O.held O.faults N.held N.faults output.new report.new) }
{
    match start(i, heard, output) {
        Ok(()) => {}
        Err(_) => return Err(Broken::Output),
    }
    let size = wav_samples(heard.acmod, heard.lfe, pcm, samples);
    let line = lines::frame(i, heard.size);
    ac_world::emit(&samples[..size], line.as_bytes(), output, report)
}
