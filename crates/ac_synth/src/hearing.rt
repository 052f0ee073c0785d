//! A frame of a generated sound, decoded again.
ghost use Rattle.std.specs.Prelude.{◌*◌, ◌^◌, ◌≤◌};
ghost use Rattle.ac_record.specs.Frames.{FrameCodes};
ghost use Rattle.ac_record.specs.Readings.{IsReading};
ghost use Rattle.ac_synth.specs.Loop.{IsOfSynth, IsSomeFrame, IsHeardAs};

use crate::magnitudes::pcm_sum;
use ac_dec::{Decoder, Pcm, sound_law};

/// Decodes a frame, and gives the sum of the magnitudes of its samples. A lawful frame is never refused.
pub fn hear(decoder: &mut Decoder, frame: &[u8], pcm: &mut Pcm) -> u64
    requires frame { IsSomeFrame frame.now }
    requires kind { IsOfSynth decoder.old.kind }
    ensures value { (g : FrameCodes) × IsReading frame.now g × IsHeardAs g result decoder.old decoder.new }
    ensures bound { result ≤ 2 * 1536 * 2 ^ 23 }
{
    sound_law();
    match decoder.frame(frame, pcm) {
        Ok(_) => pcm_sum(pcm),
        Err(_) => unreachable!(),
    }
}
