//! The sound of a generated job, frame by frame.
ghost use Rattle.std.specs.Prelude.{◌≡◌, ◌+◌, ◌-◌, ◌*◌, ◌^◌, ◌<◌, ℕ, [], min, slice_index_or};
ghost use Rattle.ac_base.specs.Sigma.{Lists, Within};
ghost use Rattle.ac_noise.specs.Noise.{Noising, at_first, behind, noise_at, sample_count};

use crate::rows::fill;
use std::marker::Model;

/// The sound of a generated job. Contracts see its seed, the number of frames, and how many frames of samples were given.
#[derive(Drop)]
pub struct Noise {
    seed: u64,
    frames: u32,
    given: u64,
    /// Where the draws of the next frame begin.
    state: u64,
}

impl Model for Noise {
    ghost use Rattle.ac_noise.specs.Noise.{Noising};

    ghost Value = { Noising };

    ghost use Rattle.ac_noise.specs.State.{noising_of, IsNoise};

    ghost view = { noising_of };

    ghost invariant = { IsNoise };
}

/// How many samples of a frame stand before the end of the sound, with so many frames before it.
fn samples_in(frames: u32, given: u64) -> usize
    requires { given < 2 ^ 32 }
    ensures { result ≡ min 1536 (sample_count frames - 1536 * given) }
{
    let frames = u64::from(frames);
    if given + 1 < frames {
        1536
    } else if given + 1 == frames {
        1280
    } else {
        0
    }
}

impl Noise {
    /// The sound of so many frames, before its first sample.
    pub fn new(seed: u64, frames: u32) -> Noise
        ensures value { result ≡ at_first seed frames }
    {
        Noise {
            seed,
            frames,
            given: 0,
            state: seed,
        }
    }

    /// The next 1,536 samples of each channel, in 24 bits: of two channels, while the others are silent, as all are behind the end.
    pub fn frame(&mut self, rows: &mut [[i32; 1536]; 6])
        requires few { self.old.given < 2 ^ 32 }
        ensures value { (c : ℕ) → c < 6
            → Lists 1536 (λ n. noise_at self.old.seed self.old.frames c (1536 * self.old.given + n)) (slice_index_or rows.new c []) }
        ensures bound { (c : ℕ) → c < 6 → Within (2 ^ 23) 1536 (slice_index_or rows.new c []) }
        ensures count { self.new ≡ behind self.old }
    {
        let mut left = [0; 1536];
        let mut right = [0; 1536];
        let step = (self.given % 8) as u32;
        let end = samples_in(self.frames, self.given);
        self.state = fill(self.state, step, end, &mut left, &mut right);
        self.given += 1;
        let silence = [0; 1536];
        *rows = [left, right, silence, silence, silence, silence];
    }
}
