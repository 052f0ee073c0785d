//! The samples in the bytes of the data.
ghost use Rattle.std.specs.Prelude.{◌≡◌, ◌+◌, ◌-◌, ◌*◌, ◌/◌, ◌^◌, ◌<◌, ◌≤◌, length, ℤ, pos, ◌*ℤ◌, unsigned_abs, ◌%◌};
ghost use Rattle.byteorder.specs.Endian.{twos_complement};
ghost use Rattle.ac_riff.specs.Form.{IsOfProfile};
ghost use Rattle.ac_wav.specs.Samples.{align_of, value_of, offset_of, sample_in, RowIs, RowWithin, RowsAre, RowsWithin};

use ac_riff::WavHead;
use byteorder::{ByteOrder, LittleEndian};

/// A word of 16 bits in two's complement, as a sample of 24 bits.
fn widened(word: u16) -> i32
    ensures value { result ≡ twos_complement 2 word *ℤ pos 256 }
    ensures bound { unsigned_abs result ≤ 2 ^ 23 }
{
    let wide = i32::from(word);
    let sample = if wide < 32768 { wide } else { wide - 65536 };
    sample * 256
}

/// A word of 24 bits in two's complement.
fn signed(word: u32) -> i32
    requires { word < 2 ^ 24 }
    ensures value { result ≡ twos_complement 3 word }
    ensures bound { unsigned_abs result ≤ 2 ^ 23 }
{
    let wide = word as i32;
    if wide < 8388608 {
        wide
    } else {
        wide - 16777216
    }
}

/// The sample in the first bytes.
fn value(bits: u8, bytes: &[u8]) -> i32
    requires long { bits / 8 ≤ length bytes.now }
    requires least { 16 ≤ bits }
    requires most { bits ≤ 24 }
    requires whole { bits % 8 ≡ 0 }
    ensures value { result ≡ value_of bits bytes.now }
    ensures bound { unsigned_abs result ≤ 2 ^ 23 }
{
    if bits == 16 {
        widened(LittleEndian::read_u16(bytes))
    } else {
        signed(LittleEndian::read_u24(bytes))
    }
}

/// The bytes of one sample of all channels.
pub fn align(head: &WavHead) -> usize
    requires { IsOfProfile head.now }
    ensures value { result ≡ align_of head.now }
    ensures least { 1 ≤ result }
    ensures most { result ≤ 18 }
{
    usize::from(head.channels) * usize::from(head.bits / 8)
}

/// How far behind the first of `length` bytes sample `t` of coded channel `c` stands.
fn place(head: &WavHead, length: usize, c: usize, t: usize) -> usize
    requires profile { IsOfProfile head.now }
    requires channel { c < head.now.channels }
    requires most { c < 6 }
    requires below { t < length / align_of head.now }
    ensures value { result ≡ offset_of head.now c t }
    ensures room { result + head.now.bits / 8 ≤ length }
{
    t * align(head) + usize::from(head.order[c]) * usize::from(head.bits / 8)
}

/// Sample `t` of coded channel `c` among `count` in the piece; 0 elsewhere.
#[tactic(auto, unfolding(crate::specs::Samples::sample_in))]
fn sample(head: &WavHead, piece: &[u8], count: usize, c: usize, t: usize) -> i32
    requires profile { IsOfProfile head.now }
    requires count { count ≡ length piece.now / align_of head.now }
    requires channel { c < 6 }
    ensures value { result ≡ sample_in head.now count piece.now c t }
    ensures bound { unsigned_abs result ≤ 2 ^ 23 }
{
    if c < usize::from(head.channels) && t < count {
        let place = place(head, piece.len(), c, t);
        value(head.bits, &piece[place..])
    } else {
        0
    }
}

/// The samples of coded channel `c` in the piece, and zeros behind them.
fn channel(head: &WavHead, piece: &[u8], c: usize, row: &mut [i32; 1536])
    requires profile { IsOfProfile head.now }
    requires channel { c < 6 }
    ensures rows { RowIs (sample_in head.now (length piece.now / align_of head.now) piece.now c) row.new }
    ensures bound { RowWithin row.new }
{
    let count = piece.len() / align(head);
    for t in 0..1536 {
        row[t] = sample(head, piece, count, c, t);
    }
}

/// The samples of each coded channel in the piece, and zeros behind them.
pub fn spread(head: &WavHead, piece: &[u8], out: &mut [[i32; 1536]; 6])
    requires { IsOfProfile head.now }
    ensures rows { RowsAre (sample_in head.now (length piece.now / align_of head.now) piece.now) out.new }
    ensures bound { RowsWithin out.new }
{
    for c in 0..6 {
        channel(head, piece, c, &mut out[c]);
    }
}
