//! The decoder of a stream, frame by frame.
ghost use Rattle.std.specs.Prelude.{◌≡◌, ℕ, ◌+◌, ◌^◌, ◌<◌, ◌≤◌, [], slice_index_or, Ok, Err, IfOk, IfErr, IsOk};
ghost use Rattle.std.specs.Option.{ForSome};
ghost use Rattle.ac_base.specs.Shape.{full_of, count_of};
ghost use Rattle.ac_base.specs.Sigma.{Within};
ghost use Rattle.ac_reading.specs.Framed.{Reading};
ghost use Rattle.ac_record.specs.declared.codes.FrameFault.{FrameFault};
ghost use Rattle.ac_record.specs.Readings.{IsReading};
ghost use Rattle.ac_dec.specs.Decoding.{at_first, kind_of, Decodes, IsRefusal};

use crate::kind::Heard;
use crate::state::State;
use ac_base::{Coefs, NoMemory};
use ac_record::{FrameCodes, FrameFault};
use ac_wav::Pcm;
use std::alloc::Global;
use std::marker::Model;

/// The decoder of a stream: the bytes of each frame go in, and its samples come out. Contracts see what the first frame fixed of the
/// others and what each channel's last block left. What it keeps, and the arrays that it works in, is one piece of memory, which is all
/// that it takes.
#[derive(Drop)]
pub struct Decoder {
    state: Box<State>,
}

impl Model for Decoder {
    ghost use Rattle.ac_dec.specs.Decoding.{Decoding};

    ghost Value = { Decoding };

    ghost use Rattle.ac_dec.specs.Inside.{decoding_of, IsDecoder};

    ghost view = { decoding_of };

    ghost invariant = { IsDecoder };
}

impl Decoder {
    /// The decoder of a stream, before its first frame. Before the first block there is silence.
    ///
    /// # Errors
    ///
    /// `NoMemory` where the memory wasn't there.
    pub fn new(alloc: Global) -> Result<Decoder, NoMemory>
        ensures value { IfOk result (λ d. d ≡ at_first) }
    {
        let state = State {
            first: None,
            delays: [[0; 256]; 6],
            codes: FrameCodes::empty(),
            coefs: Coefs::zeros(),
        };
        match Box::new(alloc, state) {
            Ok(state) => Ok(Decoder { state }),
            Err(_) => Err(NoMemory),
        }
    }

    /// Decodes the frame with which these bytes begin: the 1,536 samples of each of its channels in coding order, LFE last, which go on
    /// from those of the frame before, into the front rows of `out`. Rows of no channel stay. Bytes behind the frame aren't read.
    ///
    /// # Errors
    ///
    /// The fault of the bytes, as `ac_reading::read` has it, and else `Changed` with the first of `Fscod`, `Acmod` and `Lfeon` that
    /// differs from that of the first frame. Then nothing has changed: the next frame goes on from the one before.
    pub fn frame(&mut self, bytes: &[u8], out: &mut Pcm) -> Result<Heard, FrameFault>
        ensures value { IfOk result (λ heard. (g : Reading) × Decodes bytes.now self.old g heard out.new self.new) }
        ensures bound { IfOk result (λ heard. (c : ℕ) → c < full_of heard.acmod + count_of heard.lfe
            → Within (2 ^ 23) 1536 (slice_index_or out.new.s c [])) }
        ensures rest { IfOk result (λ heard. (c : ℕ) → full_of heard.acmod + count_of heard.lfe ≤ c
            → slice_index_or out.new.s c [] ≡ slice_index_or out.old.s c []) }
        ensures complete { (g : Reading) → IsReading bytes.now g → ForSome self.old.kind (λ k. k ≡ kind_of g) → IsOk result }
        ensures cause { IfErr result (λ fault. IsRefusal self.old bytes.now fault) }
        ensures refused { (fault : FrameFault) → IsRefusal self.old bytes.now fault → result ≡ Err fault }
        ensures kept { IfErr result (λ _. (self.new ≡ self.old) × (out.new ≡ out.old)) }
    {
        self.state.frame(bytes, out)
    }
}
