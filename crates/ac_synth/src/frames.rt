//! The frames of a generated sound.
ghost use Rattle.std.specs.Prelude.{◌≡◌, ◌≤◌, OnErr, MatchResult};
ghost use Rattle.ac_dec.specs.Decoding.{at_first};
ghost use Rattle.ac_io.specs.Outside.{Rose};
ghost use Rattle.ac_synth.specs.Loop.{StandsBefore, AllDone, FewerDone};

use crate::frame::frame;
use crate::tally::{Tally, counted};
use crate::work::Work;
use ac_dec::{Decoder, sound_law};
use ac_enc::Encoder;
use ac_io::{Failed, Sink};
use ac_noise::Noise;

/// Makes, writes and decodes all frames, one after the other.
///
/// # Errors
///
/// `Failed` where a write failed.
pub fn all_frames<O: Sink>(
    count: u32,
    noise: &mut Noise,
    encoder: &mut Encoder,
    decoder: &mut Decoder,
    work: &mut Work,
    output: &mut O,
) -> Result<Tally, Failed>
    requires most { count ≤ 200 }
    requires first { noise.old.given ≡ 0 }
    requires frames { noise.old.frames ≡ count }
    requires stands { StandsBefore noise.old encoder.old }
    requires silent { decoder.old ≡ at_first }
    ensures told { MatchResult result
        (λ tally. AllDone noise.old.seed count tally (O.held output.old) (O.held output.new))
        (λ _. FewerDone noise.old.seed count (O.held output.old) (O.held output.new)) }
    ensures rose { OnErr result (Rose (O.faults output.old) (O.faults output.new)) }
    ensures never_falls { O.faults output.old ≤ O.faults output.new }
{
    sound_law();
    let mut tally = Tally {
        best: 0,
        bounded: 0,
        sum: 0,
    };
    for i in 0..count {
        let passed = frame(noise, encoder, decoder, work, output)?;
        tally = counted(tally, passed.mark, passed.sum);
    }
    Ok(tally)
}
