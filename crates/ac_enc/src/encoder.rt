//! The encoder of a sound, frame by frame.
ghost use Rattle.std.specs.Prelude.{◌≡◌, ℕ, ◌+◌, ◌*◌, ◌^◌, ◌<◌, ◌≤◌, [], take, drop, slice_index_or, slice_range, IfOk, IfErr};
ghost use Rattle.ac_base.specs.Sigma.{Within};
ghost use Rattle.ac_base.specs.Sizes.{frame_words_of};
ghost use Rattle.ac_bits.specs.Bits.{frame_bytes};
ghost use Rattle.ac_coding.specs.Asked.{AreRawOf};
ghost use Rattle.ac_joint.specs.Joint.{joint_of};
ghost use Rattle.ac_riff.specs.Form.{IsOfProfile};
ghost use Rattle.ac_words.specs.Lawful.{AreOptions};
ghost use Rattle.ac_enc.specs.Encoding.{at_first};
ghost use Rattle.ac_enc.specs.Frame.{IsShapeOf, IsFrame, coefficients, joined_by};
ghost use Rattle.ac_enc.specs.Layout.{layout_of, channels_in, IsEnough, IsNewFault};

use crate::fault::NewFault;
use crate::shapes::{enough, plain_shape};
use crate::sound::Sound;
use crate::state::{FrameDone, State};
use ac_base::{Coefs, Shape, frame_words};
use ac_bits::FRAME_BYTES;
use ac_expo::{Assign, RawExps, word_at};
use ac_joint::{Coordinate, Coordinates};
use ac_plan::Work;
use ac_riff::WavHead;
use ac_sent::Quantised;
use ac_words::Options;
use std::alloc::Global;
use std::marker::Model;

/// Coordinates where there is no coupling.
const NONE: Coordinates = Coordinates {
    of: [[Coordinate { exp: 0, mant: 0 }; 18]; 5],
};

/// The raw exponents of silence.
static SILENCE: RawExps = RawExps {
    e: [[[24; 256]; 6]; 7],
};

/// The values of a frame before any was put together.
fn blank(shape: Shape) -> Quantised {
    Quantised::new(
        shape,
        0,
        Assign { w: [word_at(0); 7] },
        [[[0; 256]; 6]; 7],
        [[[0; 256]; 6]; 7],
        [false; 4],
        NONE,
    )
}

/// The encoder of a sound: its samples go in frame by frame, and each frame comes out with its plan. Contracts see its options, its
/// sampling code and layout, how many frames it has made, and the last samples of each channel. What it keeps, and the arrays that it
/// works in, is one piece of memory, which is all that it takes.
#[derive(Drop)]
pub struct Encoder {
    state: Box<State>,
}

impl Model for Encoder {
    ghost use Rattle.ac_enc.specs.Encoding.{Encoding};

    ghost Value = { Encoding };

    ghost use Rattle.ac_enc.specs.State.{encoding_of, IsEncoder};

    ghost view = { encoding_of };

    ghost invariant = { IsEncoder };
}

impl Encoder {
    /// The encoder of the sound behind a head, before its first frame. The 256 samples before the first are 0.
    ///
    /// # Errors
    ///
    /// `RateTooLow` where no shape of a frame fits the rate at the layout, `NoMemory` where the memory wasn't there.
    pub fn new(alloc: Global, options: Options, head: &WavHead) -> Result<Encoder, NewFault>
        requires options { AreOptions options }
        requires profile { IsOfProfile head.now }
        ensures value { IfOk result (λ e. e ≡ at_first options (layout_of head.now)) }
        ensures enough { IfOk result (λ _. IsEnough options (layout_of head.now)) }
        ensures fault { IfErr result (λ fault. IsNewFault options (layout_of head.now) fault) }
    {
        let sound = Sound {
            fscod: head.fscod,
            acmod: head.acmod,
            lfe: head.lfe,
        };
        if let Err(fault) = enough(&options, &sound) {
            return Err(fault);
        }
        let words = frame_words(options.rate, sound.fscod, 0);
        let shape = plain_shape(&options, &sound, words);
        let state = State {
            options,
            sound,
            frames: 0,
            last: [[0; 256]; 6],
            coefs: Coefs::zeros(),
            work: Work::of(&shape, &SILENCE),
            q: blank(shape),
        };
        match Box::new(alloc, state) {
            Ok(state) => Ok(Encoder { state }),
            Err(_) => Err(NewFault::NoMemory),
        }
    }

    /// Makes the next frame, of 1,536 samples of each channel behind the last 256 of the frame before, at the front of `out`. What
    /// `out` holds behind the frame stays. Samples have 24 bits, and stand by channel in coding order, LFE last.
    ///
    /// Its plan has the greatest SNR offset at which some assignment of exponent strategies fits, or a bound of it where the search
    /// would pass the budget. At 44.1 kHz the frames' sizes vary by a word, so that the frames so far keep to the rate (A/52 5.4.1.4).
    pub fn frame(&mut self, pcm: &[[i32; 1536]; 6], out: &mut [u8; FRAME_BYTES]) -> FrameDone
        requires few { self.old.frames < 2 ^ 32 }
        requires pcm { (c : ℕ) → c < channels_in self.old.layout → Within (2 ^ 23) 1536 (slice_index_or pcm.now c []) }
        ensures size { result.size ≡ 2 * frame_words_of self.old.options.rate self.old.layout.fscod self.old.frames }
        ensures count { result.size ≤ frame_bytes }
        ensures frame { IsFrame self.old.options self.old.layout self.old.frames (joined_by self.old.last pcm.now) result.plan
            (take result.size out.new) }
        ensures rest { drop result.size out.new ≡ drop result.size out.old }
        ensures same_options { self.new.options ≡ self.old.options }
        ensures same_layout { self.new.layout ≡ self.old.layout }
        ensures frames { self.new.frames ≡ self.old.frames + 1 }
        ensures last { (c : ℕ) → c < channels_in self.old.layout
            → slice_index_or self.new.last c [] ≡ slice_range (slice_index_or pcm.now c []) 1280 1536 }
    {
        self.state.frame(pcm, out)
    }

    /// Goes over the next frame, of these samples, without making it: the encoder stands afterwards as `frame` would leave it.
    pub fn pass(&mut self, pcm: &[[i32; 1536]; 6])
        requires few { self.old.frames < 2 ^ 32 }
        requires pcm { (c : ℕ) → c < channels_in self.old.layout → Within (2 ^ 23) 1536 (slice_index_or pcm.now c []) }
        ensures same_options { self.new.options ≡ self.old.options }
        ensures same_layout { self.new.layout ≡ self.old.layout }
        ensures frames { self.new.frames ≡ self.old.frames + 1 }
        ensures last { (c : ℕ) → c < channels_in self.old.layout
            → slice_index_or self.new.last c [] ≡ slice_range (slice_index_or pcm.now c []) 1280 1536 }
    {
        self.state.pass(pcm);
    }

    /// What the next frame, of these samples, would be planned with: its shape, and the raw exponents of its coefficients by coded
    /// channel.
    pub fn raw_of(&self, pcm: &[[i32; 1536]; 6]) -> (Shape, RawExps)
        requires few { self.now.frames < 2 ^ 32 }
        requires pcm { (c : ℕ) → c < channels_in self.now.layout → Within (2 ^ 23) 1536 (slice_index_or pcm.now c []) }
        ensures shape { IsShapeOf self.now.options self.now.layout self.now.frames (coefficients (joined_by self.now.last pcm.now))
            result.0 }
        ensures raw { AreRawOf result.0 (joint_of result.0 (coefficients (joined_by self.now.last pcm.now))) result.1.e }
    {
        self.state.raw_of(pcm)
    }
}
