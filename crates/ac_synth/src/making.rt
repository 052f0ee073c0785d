//! The next frame of a generated sound.
ghost use Rattle.std.specs.Prelude.{◌≡◌, ◌+◌, ◌<◌, ◌≤◌, take};
ghost use Rattle.ac_bits.specs.Bits.{frame_bytes};
ghost use Rattle.ac_enc.specs.Frame.{IsFrame};
ghost use Rattle.ac_encode.specs.Stream.{places};
ghost use Rattle.ac_synth.specs.Loop.{sound_in, StandsBefore};
ghost use Rattle.ac_synth.specs.Synth.{synth_options, synth_layout};

use crate::known::{depends, rows_law};
use crate::work::Work;
use ac_enc::{Encoder, FrameDone};
use ac_noise::Noise;

/// Draws the samples of the next frame and encodes them.
pub fn make(noise: &mut Noise, encoder: &mut Encoder, work: &mut Work) -> FrameDone
    requires few { noise.old.given < 200 }
    requires stands { StandsBefore noise.old encoder.old }
    ensures count { result.size ≤ frame_bytes }
    ensures frame { IsFrame synth_options synth_layout noise.old.given (places (sound_in noise.old) noise.old.given) result.plan
        (take result.size work.new.bytes) }
    ensures next { StandsBefore noise.new encoder.new }
    ensures seed { noise.new.seed ≡ noise.old.seed }
    ensures frames { noise.new.frames ≡ noise.old.frames }
    ensures given { noise.new.given ≡ noise.old.given + 1 }
{
    depends();
    noise.frame(&mut work.rows);
    rows_law(&work.rows);
    encoder.frame(&work.rows, &mut work.bytes)
}
