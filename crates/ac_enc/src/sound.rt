//! The rate of sampling and the channels of a sound.
ghost use Rattle.std.specs.Prelude.{◌≡◌, ◌+◌, ◌≤◌};
ghost use Rattle.ac_base.specs.Shape.{full_of, count_of};

/// The full-bandwidth channels by acmod (A/52 Table 5.8).
static FULL: [u8; 8] = [2, 1, 2, 3, 3, 4, 4, 5];

/// What is the same in all frames of a sound.
#[derive(Clone, Copy)]
pub struct Sound {
    /// The rate of sampling: 0 for 48, 1 for 44.1, 2 for 32 kHz (A/52 5.4.1.3).
    pub fscod: u8,
    /// The full-bandwidth channels, from 1 to 7 (A/52 5.4.2.3).
    pub acmod: u8,
    /// Whether there is a low-frequency channel (A/52 5.4.2.7).
    pub lfe: bool,
    pub ghost sampling: { fscod ≤ 2 },
    pub ghost some_channel: { 1 ≤ acmod },
    pub ghost modes: { acmod ≤ 7 },
}

impl Sound {
    /// The number of full-bandwidth channels.
    pub fn full(&self) -> u8
        ensures value { result ≡ full_of self.now.acmod }
        ensures least { 1 ≤ result }
        ensures most { result ≤ 5 }
    {
        FULL[usize::from(self.acmod)]
    }

    /// The number of channels, LFE among them.
    pub fn channels(&self) -> u8
        ensures value { result ≡ full_of self.now.acmod + count_of self.now.lfe }
        ensures most { result ≤ 6 }
    {
        self.full() + u8::from(self.lfe)
    }
}
