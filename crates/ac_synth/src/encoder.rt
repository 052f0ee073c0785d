//! The encoder of a generated sound.
ghost use Rattle.std.specs.Prelude.{◌≡◌, IfOk};
ghost use Rattle.ac_enc.specs.Encoding.{at_first};
ghost use Rattle.ac_synth.specs.Synth.{synth_options, synth_layout};

use ac_base::NoMemory;
use ac_enc::{Encoder, NewFault};
use ac_wav::WavHead;
use ac_words::{Couple, Options};
use std::alloc::Global;

/// 192 kbit/s, and what the command encode takes where nothing is asked.
const OPTIONS: Options = Options {
    rate: 192,
    nodes: 20_000,
    bw: None,
    couple: Couple::Auto,
};

/// Two channels at 48 kHz. No bytes stand behind this head.
const HEAD: WavHead = WavHead {
    fscod: 0,
    acmod: 2,
    lfe: false,
    bits: 16,
    channels: 2,
    order: [0, 1, 0, 0, 0, 0],
    size: Some(0),
    taken: 44,
};

/// The encoder before its first frame. The rate is enough for two channels.
///
/// # Errors
///
/// `NoMemory` where the memory wasn't there.
pub fn encoder(alloc: Global) -> Result<Encoder, NoMemory>
    ensures value { IfOk result (λ e. e ≡ at_first synth_options synth_layout) }
{
    match Encoder::new(alloc, OPTIONS, &HEAD) {
        Ok(encoder) => Ok(encoder),
        Err(NewFault::NoMemory) => Err(NoMemory),
        Err(NewFault::RateTooLow { .. }) => unreachable!(),
    }
}
