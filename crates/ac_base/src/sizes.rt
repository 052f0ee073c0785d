//! The sizes of frames, and the parts of a frame that have a room of their own.
ghost use Rattle.std.specs.Prelude.{◌≡◌, ◌≤◌, ◌<◌, ◌^◌, ◌+◌, ◌-◌, ◌*◌, ◌/◌, ◌⊎◌, ◌↔◌, IsTrue};
ghost use Rattle.ac_base.specs.Sizes.{frame_words_of, words_before, table_words, front_words_of, code_words, least_words, most_words};
ghost use Rattle.ac_base.specs.Rates.{last_rate_code};
ghost use Rattle.ac_base.specs.Fit.{FitIn, rooms_of};

use crate::rates::rate;

/// The words of the smallest frame (A/52 Table 5.18).
pub const LEAST_WORDS: u16 = 64;

/// The words of the largest frame (A/52 Table 5.18).
pub const MOST_WORDS: u16 = 1920;

/// The bits of auxdatae, crcrsv and crc2, with which each frame ends (A/52 5.3.4, 5.3.5).
pub const TAIL_BITS: u32 = 18;

/// The bits that a skip field may leave over, since its bytes are whole (A/52 5.4.3.60).
const SKIP_SPARE: u32 = 8;

/// A part of a frame that has a room of its own.
#[derive(Clone, Copy, Debug, PartialEq, Eq)]
pub enum Part {
    /// What ends within the words that crc1 covers: the head and blocks 0 and 1.
    Front,
    /// The whole frame.
    Total,
    /// The mantissas of block 5.
    Last,
}

/// A number of bits for each part of a frame.
#[derive(Clone, Copy, Debug, PartialEq, Eq)]
pub struct Parts {
    /// Of the head and blocks 0 and 1.
    pub front: u32,
    /// Of the whole frame.
    pub total: u32,
    /// Of the mantissas of block 5.
    pub last: u32,
}

impl Parts {
    /// Whether parts of these bits fit a frame of so many words, from 64 to 1920.
    pub fn fit(&self, words: u16) -> bool
        requires least { least_words ≤ words }
        requires most { words ≤ most_words }
        ensures value { IsTrue result ↔ FitIn words self.now }
    {
        let rooms = rooms(words);
        self.front <= rooms.front && self.total <= rooms.total && self.last <= rooms.last
    }
}

/// The words that crc1 covers, five eighths of the frame's (A/52 5.4.1.2).
pub fn front_words(words: u16) -> u16
    ensures value { result ≡ front_words_of words }
    ensures bound { result ≤ words }
{
    words / 2 + words / 8
}

/// The bits that each part of a frame of so many words, from 64 to 1920, has room for. The last part is less by the bits of
/// auxdatae, crcrsv and crc2 (A/52 5.3.4, 5.3.5), and by those that a skip field may leave over.
pub fn rooms(words: u16) -> Parts
    requires least { least_words ≤ words }
    requires most { words ≤ most_words }
    ensures value { result ≡ rooms_of words }
{
    let front = 16 * u32::from(front_words(words));
    let total = 16 * u32::from(words);
    Parts {
        front,
        total,
        last: total - front - TAIL_BITS - SKIP_SPARE,
    }
}

/// The words of the first n frames at 44.1 kHz.
fn words_ahead(rate: u16, n: u64) -> u64
    requires rate { rate ≤ 640 }
    requires frames { n ≤ 2 ^ 32 }
    ensures { result ≡ words_before rate n }
{
    320 * u64::from(rate) * n / 147
}

/// The words of a frame at a rate in kbit/s, by fscod and the number of the frame. At 44.1 kHz
/// the sizes vary by a word, so that the frames so far keep to the rate (A/52 5.4.1.4).
pub fn frame_words(rate: u16, fscod: u8, frame: u64) -> u16
    requires rate { rate ≤ 640 }
    requires sampling { fscod ≤ 2 }
    requires frame { frame < 2 ^ 32 }
    ensures value { result ≡ frame_words_of rate fscod frame }
    ensures listed { (result ≡ table_words rate fscod) ⊎ ((fscod ≡ 1) × (result ≡ table_words rate fscod + 1)) }
    ensures least { 32 ≤ rate → least_words ≤ result }
    ensures most { result ≤ most_words }
{
    match fscod {
        0 => 2 * rate,
        1 => (words_ahead(rate, frame + 1) - words_ahead(rate, frame)) as u16,
        _ => 3 * rate,
    }
}

/// The words of a frame by fscod, at most 2, and frmsizecod, at most 37 (A/52 5.4.1.4, Table 5.18).
pub fn code_words(fscod: u8, frmsizecod: u8) -> u16
    requires sampling { fscod ≤ 2 }
    requires code { frmsizecod ≤ 2 * last_rate_code + 1 }
    ensures value { result ≡ code_words fscod frmsizecod }
    ensures least { least_words ≤ result }
    ensures most { result ≤ most_words }
{
    let rate = rate(frmsizecod / 2);
    match fscod {
        0 => 2 * rate,
        1 => (320 * u32::from(rate) / 147) as u16 + u16::from(frmsizecod % 2),
        _ => 3 * rate,
    }
}

#[cfg(test)]
mod tests;
