//! The bytes of decoded sound.
ghost use Rattle.std.specs.Prelude.{◌≡◌, ℕ, ◌+◌, ◌*◌, ◌<◌, ◌≤◌, ◌++◌, length, take, drop, pos, slice_index, slice_index_or, []};
ghost use Rattle.byteorder.specs.Endian.{little_bytes};
ghost use Rattle.ac_riff.specs.Layout.{channel_count};
ghost use Rattle.ac_wav.specs.Written.{head_of_layout, head_bytes, sample_bytes, places_bytes, frame_samples};

use ac_riff::layout;
use byteorder::{ByteOrder, LittleEndian};

/// The samples of a frame: 1,536 of each coded channel, LFE last, of 24 bits.
#[derive(Clone, Copy, Debug, PartialEq, Eq)]
pub struct Pcm {
    /// Coded channels by samples.
    pub s: [[i32; 1536]; 6],
}

/// The bytes before the number of channels.
const FRONT: [u8; 22] = [
    82, 73, 70, 70, 255, 255, 255, 255, 87, 65, 86, 69, 102, 109, 116, 32, 40, 0, 0, 0, 254, 255,
];

/// Bits, the size of the extension, valid bits.
const DEPTH: [u8; 6] = [24, 0, 22, 0, 24, 0];

/// The subformat of PCM, and the head of the `data` chunk.
const END: [u8; 24] = [
    1, 0, 0, 0, 0, 0, 16, 0, 128, 0, 0, 170, 0, 56, 155, 113, 100, 97, 116, 97, 255, 255, 255, 255,
];

/// Samples a second, by fscod.
const RATES: [u32; 3] = [48000, 44100, 32000];

/// Writes these bytes at a place.
fn put(out: &mut [u8; 68], at: usize, piece: &[u8])
    requires { at + length piece.now ≤ 68 }
    ensures { take (at + length piece.now) out.new ≡ take at out.old ++ piece.now }
{
    out[at..at + piece.len()].copy_from_slice(piece);
}

/// Writes a number of two bytes at a place.
fn put_short(out: &mut [u8; 68], at: usize, value: u16)
    requires { at ≤ 66 }
    ensures { take (at + 2) out.new ≡ take at out.old ++ little_bytes 2 value }
{
    let mut bytes = [0; 2];
    LittleEndian::write_u16(&mut bytes, value);
    put(out, at, &bytes);
}

/// Writes a number of four bytes at a place.
fn put_long(out: &mut [u8; 68], at: usize, value: u32)
    requires { at ≤ 64 }
    ensures { take (at + 4) out.new ≡ take at out.old ++ little_bytes 4 value }
{
    let mut bytes = [0; 4];
    LittleEndian::write_u32(&mut bytes, value);
    put(out, at, &bytes);
}

/// Writes the head of a WAV of this many channels with this rate and mask.
fn put_head(channels: u8, rate: u32, mask: u32, out: &mut [u8; 68])
    requires channels { channels ≤ 6 }
    requires rate { rate ≤ 48000 }
    ensures { out.new ≡ head_of_layout channels rate mask }
{
    let align = 3 * channels;
    put(out, 0, &FRONT);
    put_short(out, 22, u16::from(channels));
    put_long(out, 24, rate);
    put_long(out, 28, rate * u32::from(align));
    put_short(out, 32, u16::from(align));
    put(out, 34, &DEPTH);
    put_long(out, 40, mask);
    put(out, 44, &END);
}

/// Writes the head of a WAV of samples of 24 bits whose size isn't known.
pub fn wav_head(acmod: u8, lfe: bool, fscod: u8, out: &mut [u8; 68])
    requires acmod_least { 1 ≤ acmod }
    requires acmod_most { acmod ≤ 7 }
    requires fscod { fscod ≤ 2 }
    ensures { out.new ≡ head_bytes acmod lfe fscod }
{
    let mask = layout::mask(acmod) + if lfe { 8 } else { 0 };
    put_head(
        layout::channels(acmod, lfe),
        RATES[fscod as usize],
        mask,
        out,
    );
}

/// Writes a sample at a place; the bytes behind it stay.
#[tactic(auto, using(crate::proofs::Writes::rest_stays))]
fn put_sample(out: &mut [u8; 27648], at: usize, sample: i32)
    requires { at + 3 ≤ 27648 }
    ensures front { take (at + 3) out.new ≡ take at out.old ++ sample_bytes sample }
    ensures rest { drop (at + 3) out.new ≡ drop (at + 3) out.old }
{
    let mut bytes = [0; 3];
    LittleEndian::write_i24(&mut bytes, sample);
    out[at..at + 3].copy_from_slice(&bytes);
}

/// Sample `t` of coded channel `c`.
fn sample(pcm: &Pcm, c: u8, t: usize) -> i32
    requires channel { c < 6 }
    requires place { t < 1536 }
    ensures { result ≡ slice_index_or (slice_index_or pcm.now.s c []) t (pos 0) }
{
    pcm.s[c as usize][t]
}

/// Writes sample `t` of each channel at a place; the bytes behind them stay.
fn put_samples(pcm: &Pcm, coded: &[u8; 6], channels: u8, t: usize, out: &mut [u8; 27648], at: usize)
    requires channels { channels ≤ 6 }
    requires coded { (p : ℕ) → p < 6 → slice_index coded.now p < 6 }
    requires place { t < 1536 }
    requires room { at + 3 * channels ≤ 27648 }
    ensures front { take (at + 3 * channels) out.new ≡ take at out.old ++ places_bytes pcm.now.s coded.now t channels }
    ensures rest { drop (at + 3 * channels) out.new ≡ drop (at + 3 * channels) out.old }
{
    for p in 0..usize::from(channels) {
        put_sample(out, at + 3 * p, sample(pcm, coded[p], t));
    }
}

/// Writes 1,536 samples of each channel in WAV order, of 24 bits, and gives the number of bytes. The bytes behind them stay.
pub fn wav_samples(acmod: u8, lfe: bool, pcm: &Pcm, out: &mut [u8; 27648]) -> usize
    requires acmod_least { 1 ≤ acmod }
    requires acmod_most { acmod ≤ 7 }
    ensures count { result ≡ 1536 * (3 * channel_count acmod lfe) }
    ensures bytes { take result out.new ≡ frame_samples acmod lfe pcm.now.s }
    ensures rest { drop result out.new ≡ drop result out.old }
{
    let coded = layout::coded(acmod, lfe);
    let channels = layout::channels(acmod, lfe);
    let align = 3 * usize::from(channels);
    for t in 0..1536usize {
        put_samples(pcm, &coded, channels, t, out, align * t);
    }
    1536 * align
}

#[cfg(test)]
mod tests;
