//! The loop over the frames: each frame's samples are read, and it is written and reported before the next is read.
ghost use Rattle.std.specs.Prelude.{◌≡◌, ℕ, ◌+◌, ◌*◌, ◌^◌, ◌<◌, ◌≤◌, List, IfOk, IfErr, MatchResult};
ghost use Rattle.ac_enc.specs.Encoding.{at_first};
ghost use Rattle.ac_enc.specs.Layout.{layout_of};
ghost use Rattle.ac_riff.specs.Form.{IsOfProfile};
ghost use Rattle.ac_io.specs.Within.{TakesAtMost};
ghost use Rattle.ac_riff.specs.Refusal.{HeadRead};
ghost use Rattle.ac_encode.specs.Frames.{Frames, FramesLeave, RowsFit, StandsAt};
ghost use Rattle.ac_world.specs.Emits.{RoseAt};
ghost use Rattle.ac_encode.specs.Input.{Suits};
ghost use Rattle.ac_world.specs.Limit.{limit};
ghost use Rattle.ac_encode.specs.Loop.{EndsWith, AllRead, StopLeaves, StopRose};
ghost use Rattle.ac_encode.specs.Encodes.{Encodes};
ghost use Rattle.ac_encode.specs.Sound.{Sound, frame_count, frames_of};
ghost use Rattle.ac_world.specs.World.{Sinks, sinks, SinksNeverFall, world, NeverFalls};

use crate::frame::frame;
use crate::known::depends;
use crate::work::{Work, clear};
use ac_enc::Encoder;
use ac_io::{Sink, Source};
use ac_wav::{WavBody, WavFault, WavHead};
use ac_world::{Broken, LIMIT};

/// Why the frames stopped.
#[derive(Clone, Copy, Debug, PartialEq, Eq)]
pub enum Stop {
    /// The input is refused, goes on past the limit, or failed.
    Input(WavFault),
    /// A sink failed.
    Sink(Broken),
}

impl From<WavFault> for Stop {
    ghost use Rattle.ac_encode.specs.declared.frames.Stop.TheVariants.{Input};

    ghost from_gives = { λ fault e. e ≡ Input fault };

    fn from(fault: WavFault) -> Stop {
        Stop::Input(fault)
    }
}

impl From<Broken> for Stop {
    ghost use Rattle.ac_encode.specs.declared.frames.Stop.TheVariants.{Sink};

    ghost from_gives = { λ broken e. e ≡ Sink broken };

    fn from(broken: Broken) -> Stop {
        Stop::Sink(broken)
    }
}

/// What was read when the data ended: so many frames that are full, and behind them fewer than 1,536 samples of each channel.
#[derive(Clone, Copy)]
struct Read {
    frames: u32,
    rest: usize,
}

/// Reads the frames that are full, and encodes, writes and reports each before it reads the next. The samples behind them stand
/// in the rows in the end.
fn full_frames<S: Source, O: Sink, N: Sink>(
    head: &WavHead,
    encoder: &mut Encoder,
    work: &mut Work,
    input: &mut S,
    output: &mut O,
    report: &mut N,
) -> Result<Read, Stop>
    requires profile { IsOfProfile head.now }
    requires suits { Suits encoder.old.options head.now }
    requires within { head.now.taken ≤ limit }
    requires first { encoder.old ≡ at_first encoder.old.options (layout_of head.now) }
    ensures told { (bytes : List ℕ) → HeadRead bytes limit head.now (S.left input.old) → MatchResult result
        (λ read. AllRead encoder.old.options bytes head.now read encoder.new work.new
        (world S.left S.faults O.held O.faults N.held N.faults input.old output.old report.old)
        (world S.left S.faults O.held O.faults N.held N.faults input.new output.new report.new))
        (λ stop. StopLeaves encoder.old.options stop bytes
        (world S.left S.faults O.held O.faults N.held N.faults input.old output.old report.old)
        (world S.left S.faults O.held O.faults N.held N.faults input.new output.new report.new)) }
    ensures count { IfOk result (λ read. (read.frames < 2 ^ 31) × (read.rest < 1536)) }
    ensures rows { IfOk result (λ _. RowsFit (layout_of head.now) work.new.rows) }
    ensures next { IfOk result (λ read. StandsAt encoder.old.options (layout_of head.now) read.frames encoder.new) }
    ensures most_read { (bytes : List ℕ) → HeadRead bytes limit head.now (S.left input.old)
        → TakesAtMost bytes (limit + 1) (S.left input.new) }
    ensures rose { IfErr result (λ stop. StopRose stop
        (world S.left S.faults O.held O.faults N.held N.faults input.old output.old report.old)
        (world S.left S.faults O.held O.faults N.held N.faults input.new output.new report.new)) }
    ensures never_falls { NeverFalls
        (world S.left S.faults O.held O.faults N.held N.faults input.old output.old report.old)
        (world S.left S.faults O.held O.faults N.held N.faults input.new output.new report.new) }
{
    depends();
    let mut body = WavBody::new(head, LIMIT);
    let mut frames = 0;
    loop {
        let rest = body.samples(input, &mut work.rows)?;
        if rest < 1536 {
            return Ok(Read { frames, rest });
        }
        frame(frames, encoder, work, output, report)?;
        frames += 1;
    }
}

/// The number of frames for this many samples of each channel: none for none, and else as many as hold the samples and the
/// 256 places before them.
fn frames_for(samples: u64) -> u32
    requires { samples < 2 ^ 42 }
    ensures { result ≡ frame_count samples }
{
    if samples == 0 {
        return 0;
    }
    ((samples + 256 + 1535) / 1536) as u32
}

/// The frames behind those that are full: none where there was no sample, and else one, or two where the samples of the first
/// reach into its last 256 places.
fn last_frames<O: Sink, N: Sink>(
    read: Read,
    encoder: &mut Encoder,
    work: &mut Work,
    output: &mut O,
    report: &mut N,
) -> Result<(), Broken>
    requires frames { read.frames < 2 ^ 31 }
    requires rest { read.rest < 1536 }
    requires stands { StandsAt encoder.old.options encoder.old.layout read.frames encoder.old }
    requires rows { RowsFit encoder.old.layout work.old.rows }
    ensures told { (s : Sound) (start : Sinks) → EndsWith s read encoder.old work.old
        → Frames encoder.old.options s read.frames start (sinks O.held O.faults N.held N.faults output.old report.old)
        → FramesLeave encoder.old.options s read.frames (frames_of s) result start
        (sinks O.held O.faults N.held N.faults output.new report.new) }
    ensures rose { IfErr result (λ broken. RoseAt broken
        (sinks O.held O.faults N.held N.faults output.old report.old) (sinks O.held O.faults N.held N.faults output.new report.new)) }
    ensures never_falls { SinksNeverFall
        (sinks O.held O.faults N.held N.faults output.old report.old) (sinks O.held O.faults N.held N.faults output.new report.new) }
{
    let count = frames_for(1536 * u64::from(read.frames) + read.rest as u64);
    for i in read.frames..count {
        frame(i, encoder, work, output, report)?;
        clear(work);
    }
    Ok(())
}

/// Reads the samples behind a head, a frame's at a time, and encodes, writes and reports each frame before it reads the next.
///
/// # Errors
///
/// `Input` where the samples are refused or a read failed, `Sink` where a write failed.
pub fn frames<S: Source, O: Sink, N: Sink>(
    head: &WavHead,
    encoder: &mut Encoder,
    work: &mut Work,
    input: &mut S,
    output: &mut O,
    report: &mut N,
) -> Result<(), Stop>
    requires profile { IsOfProfile head.now }
    requires suits { Suits encoder.old.options head.now }
    requires within { head.now.taken ≤ limit }
    requires first { encoder.old ≡ at_first encoder.old.options (layout_of head.now) }
    ensures told { (bytes : List ℕ) → HeadRead bytes limit head.now (S.left input.old) → MatchResult result
        (λ _. Encodes encoder.old.options bytes
        (world S.left S.faults O.held O.faults N.held N.faults input.old output.old report.old)
        (world S.left S.faults O.held O.faults N.held N.faults input.new output.new report.new))
        (λ stop. StopLeaves encoder.old.options stop bytes
        (world S.left S.faults O.held O.faults N.held N.faults input.old output.old report.old)
        (world S.left S.faults O.held O.faults N.held N.faults input.new output.new report.new)) }
    ensures most_read { (bytes : List ℕ) → HeadRead bytes limit head.now (S.left input.old)
        → TakesAtMost bytes (limit + 1) (S.left input.new) }
    ensures rose { IfErr result (λ stop. StopRose stop
        (world S.left S.faults O.held O.faults N.held N.faults input.old output.old report.old)
        (world S.left S.faults O.held O.faults N.held N.faults input.new output.new report.new)) }
    ensures never_falls { NeverFalls
        (world S.left S.faults O.held O.faults N.held N.faults input.old output.old report.old)
        (world S.left S.faults O.held O.faults N.held N.faults input.new output.new report.new) }
{
    depends();
    let read = full_frames(head, encoder, work, input, output, report)?;
    last_frames(read, encoder, work, output, report)?;
    Ok(())
}
