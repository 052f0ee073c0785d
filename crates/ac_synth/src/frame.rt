//! One frame of a generated sound.
ghost use Rattle.std.specs.Prelude.{◌≡◌, ◌+◌, ◌*◌, ◌^◌, ◌<◌, ◌≤◌, IfOk, OnErr, MatchResult};
ghost use Rattle.ac_io.specs.Outside.{Rose};
ghost use Rattle.ac_synth.specs.Loop.{StandsBefore, IsOfSynth, IsPassed, IsCut};

use crate::hearing::hear;
use crate::making::make;
use crate::work::Work;
use ac_dec::Decoder;
use ac_enc::Encoder;
use ac_io::{Failed, Sink};
use ac_noise::Noise;
use ac_plan::Mark;

/// What is told of a frame: the mark of its plan, and the sum of the magnitudes of the samples that are decoded of it.
#[derive(Clone, Copy)]
pub struct Passed {
    pub mark: Mark,
    pub sum: u64,
}

/// Makes the next frame, writes it by one write, and decodes it.
///
/// # Errors
///
/// `Failed` where the write failed; the output took a front of the frame.
pub fn frame<O: Sink>(
    noise: &mut Noise,
    encoder: &mut Encoder,
    decoder: &mut Decoder,
    work: &mut Work,
    output: &mut O,
) -> Result<Passed, Failed>
    requires few { noise.old.given < 200 }
    requires stands { StandsBefore noise.old encoder.old }
    requires kind { IsOfSynth decoder.old.kind }
    ensures told { MatchResult result
        (λ passed. IsPassed noise.old passed (O.held output.old) (O.held output.new) decoder.old decoder.new)
        (λ _. IsCut noise.old (O.held output.old) (O.held output.new)) }
    ensures bound { IfOk result (λ passed. passed.sum ≤ 2 * 1536 * 2 ^ 23) }
    ensures next { StandsBefore noise.new encoder.new }
    ensures seed { noise.new.seed ≡ noise.old.seed }
    ensures frames { noise.new.frames ≡ noise.old.frames }
    ensures given { noise.new.given ≡ noise.old.given + 1 }
    ensures rose { OnErr result (Rose (O.faults output.old) (O.faults output.new)) }
    ensures never_falls { O.faults output.old ≤ O.faults output.new }
{
    let done = make(noise, encoder, work);
    output.write(&work.bytes[..done.size])?;
    let sum = hear(decoder, &work.bytes[..done.size], &mut work.pcm);
    Ok(Passed {
        mark: done.plan.mark,
        sum,
    })
}
