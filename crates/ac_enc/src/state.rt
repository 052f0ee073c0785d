//! What an encoder keeps between two frames, and the frame that it makes next.
ghost use Rattle.std.specs.Prelude.{◌≡◌, ◌⊎◌, ℕ, ◌+◌, ◌*◌, ◌^◌, ◌<◌, ◌≤◌, List, [], take, drop, slice_index_or, slice_range};
ghost use Rattle.ac_base.specs.Sigma.{Within};
ghost use Rattle.ac_base.specs.Sizes.{frame_words_of, table_words, least_words, most_words};
ghost use Rattle.ac_coding.specs.Asked.{AreRawOf};
ghost use Rattle.ac_coding.specs.Laws.{Agree};
ghost use Rattle.ac_cost.specs.Parts.{FitsAt, cheapest_assign};
ghost use Rattle.ac_coupling.specs.Coupling.{AreCoordinates};
ghost use Rattle.ac_energy.specs.Coefficients.{entry};
ghost use Rattle.ac_expo.specs.Raw.{AreRaw, AreSmall};
ghost use Rattle.ac_joint.specs.Joint.{joint_flags, joint_of};
ghost use Rattle.ac_words.specs.Lawful.{AreOptions};
ghost use Rattle.ac_enc.specs.Frame.{IsShapeFor, IsShapeOf, IsFrame, coefficients, joined_by};
ghost use Rattle.ac_enc.specs.Layout.{channels_in, IsEnough};
ghost use Rattle.ac_enc.specs.Sounds.{layout_in};

use crate::shapes::shape_for;
use crate::sound::Sound;
use crate::transform::transform_channels;
use ac_base::{Coefs, Shape, frame_words};
use ac_bits::FRAME_BYTES;
use ac_coding::code_frame;
use ac_expo::RawExps;
use ac_joint::{Joint, join};
use ac_plan::{Plan, Work, plan_in};
use ac_sent::Quantised;
use ac_words::Options;

/// A frame that was made.
#[derive(Clone, Copy, Debug, PartialEq, Eq)]
pub struct FrameDone {
    /// Its number of bytes.
    pub size: usize,
    /// Its plan.
    pub plan: Plan,
}

/// What an encoder keeps, and the arrays that it works in.
#[derive(Drop)]
pub struct State {
    pub options: Options,
    /// The rate of sampling and the channels.
    pub sound: Sound,
    /// How many frames were made.
    pub frames: u64,
    /// The last 256 samples of each channel.
    pub last: [[i32; 256]; 6],
    /// The coefficients of a frame.
    pub coefs: Coefs,
    /// What is worked out while a frame is planned.
    pub work: Work,
    /// What is handed in for a frame.
    pub q: Quantised,
}

/// What a frame is planned by.
#[derive(Clone, Copy)]
struct Prepared {
    shape: Shape,
    joint: Joint,
    raw: RawExps,
}

/// The last 256 samples of a frame.
fn keep_last(pcm: &[i32; 1536], last: &mut [i32; 256])
    ensures { last.new ≡ slice_range pcm.now 1280 1536 }
{
    last.copy_from_slice(&pcm[1280..]);
}

/// Those of each row.
fn keep(rows: &[[i32; 1536]; 6], last: &mut [[i32; 256]; 6])
    ensures { (c : ℕ) → c < 6 → slice_index_or last.new c [] ≡ slice_range (slice_index_or rows.now c []) 1280 1536 }
{
    for c in 0..6usize {
        keep_last(&rows[c], &mut last[c]);
    }
}

/// The shape of a frame of so many words, its coefficients by coded channel, and their raw exponents.
fn prepare(
    options: &Options,
    sound: &Sound,
    words: u16,
    last: &[[i32; 256]; 6],
    pcm: &[[i32; 1536]; 6],
    coefs: &mut Coefs,
) -> Prepared
    requires options { AreOptions options.now }
    requires enough { IsEnough options.now (layout_in sound.now) }
    requires size { (words ≡ table_words options.now.rate sound.now.fscod) ⊎ (words ≡ table_words options.now.rate sound.now.fscod + 1) }
    requires least { least_words ≤ words }
    requires most { words ≤ most_words }
    requires last { (c : ℕ) → c < channels_in (layout_in sound.now) → Within (2 ^ 23) 256 (slice_index_or last.now c []) }
    requires pcm { (c : ℕ) → c < channels_in (layout_in sound.now) → Within (2 ^ 23) 1536 (slice_index_or pcm.now c []) }
    ensures shape { IsShapeFor options.now (layout_in sound.now) words (coefficients (joined_by last.now pcm.now)) result.shape }
    ensures cheapest { (raw : List (List (List ℕ))) → FitsAt result.shape raw 0 (cheapest_assign result.shape) }
    ensures flags { result.joint.remat ≡ joint_flags result.shape (coefficients (joined_by last.now pcm.now)) }
    ensures coordinates { AreCoordinates result.shape (coefficients (joined_by last.now pcm.now)) result.joint.coords }
    ensures joint { Agree result.shape (entry coefs.new.c) (joint_of result.shape (coefficients (joined_by last.now pcm.now))) }
    ensures small { AreSmall result.shape coefs.new.c }
    ensures raw { AreRaw result.shape coefs.new.c result.raw.e }
{
    transform_channels(last, pcm, sound.channels(), coefs);
    let shape = shape_for(options, sound, words, coefs);
    let joint = join(coefs, &shape);
    let raw = RawExps::of(&shape, coefs);
    Prepared { shape, joint, raw }
}

impl State {
    ghost use Rattle.ac_enc.specs.State.{IsState};

    /// The words of the next frame.
    fn words(&self) -> u16
        requires state { IsState self.now }
        requires few { self.now.frames < 2 ^ 32 }
        ensures value { result ≡ frame_words_of self.now.options.rate self.now.sound.fscod self.now.frames }
        ensures size { (result ≡ table_words self.now.options.rate self.now.sound.fscod)
            ⊎ (result ≡ table_words self.now.options.rate self.now.sound.fscod + 1) }
        ensures least { least_words ≤ result }
        ensures most { result ≤ most_words }
    {
        frame_words(self.options.rate, self.sound.fscod, self.frames)
    }

    /// Makes the next frame, of 1,536 samples of each channel behind the last 256 of the frame before.
    pub fn frame(&mut self, pcm: &[[i32; 1536]; 6], out: &mut [u8; FRAME_BYTES]) -> FrameDone
        requires state { IsState self.old }
        requires few { self.old.frames < 2 ^ 32 }
        requires pcm { (c : ℕ) → c < channels_in (layout_in self.old.sound) → Within (2 ^ 23) 1536 (slice_index_or pcm.now c []) }
        ensures size { result.size ≡ 2 * frame_words_of self.old.options.rate self.old.sound.fscod self.old.frames }
        ensures frame { IsFrame self.old.options (layout_in self.old.sound) self.old.frames (joined_by self.old.last pcm.now) result.plan
            (take result.size out.new) }
        ensures rest { drop result.size out.new ≡ drop result.size out.old }
        ensures same_options { self.new.options ≡ self.old.options }
        ensures same_sound { self.new.sound ≡ self.old.sound }
        ensures frames { self.new.frames ≡ self.old.frames + 1 }
        ensures last { (c : ℕ) → c < channels_in (layout_in self.old.sound)
            → slice_index_or self.new.last c [] ≡ slice_range (slice_index_or pcm.now c []) 1280 1536 }
        ensures state { IsState self.new }
    {
        let words = self.words();
        let made = prepare(
            &self.options,
            &self.sound,
            words,
            &self.last,
            pcm,
            &mut self.coefs,
        );
        let plan = plan_in(&made.shape, &made.raw, self.options.nodes, &mut self.work);
        self.q.shape = made.shape;
        self.q.remat = made.joint.remat;
        self.q.coords = made.joint.coords;
        let size = code_frame(
            &self.coefs,
            &made.raw,
            plan.offset,
            &plan.assign,
            &mut self.q,
            out,
        );
        keep(pcm, &mut self.last);
        self.frames += 1;
        FrameDone { size, plan }
    }

    /// Goes over the next frame, of these samples: it counts, and its last samples are kept.
    pub fn pass(&mut self, pcm: &[[i32; 1536]; 6])
        requires state { IsState self.old }
        requires few { self.old.frames < 2 ^ 32 }
        requires pcm { (c : ℕ) → c < channels_in (layout_in self.old.sound) → Within (2 ^ 23) 1536 (slice_index_or pcm.now c []) }
        ensures same_options { self.new.options ≡ self.old.options }
        ensures same_sound { self.new.sound ≡ self.old.sound }
        ensures frames { self.new.frames ≡ self.old.frames + 1 }
        ensures last { (c : ℕ) → c < channels_in (layout_in self.old.sound)
            → slice_index_or self.new.last c [] ≡ slice_range (slice_index_or pcm.now c []) 1280 1536 }
        ensures state { IsState self.new }
    {
        keep(pcm, &mut self.last);
        self.frames += 1;
    }

    /// What the next frame, of these samples, would be planned with.
    pub fn raw_of(&self, pcm: &[[i32; 1536]; 6]) -> (Shape, RawExps)
        requires state { IsState self.now }
        requires few { self.now.frames < 2 ^ 32 }
        requires pcm { (c : ℕ) → c < channels_in (layout_in self.now.sound) → Within (2 ^ 23) 1536 (slice_index_or pcm.now c []) }
        ensures shape { IsShapeOf self.now.options (layout_in self.now.sound) self.now.frames
            (coefficients (joined_by self.now.last pcm.now)) result.0 }
        ensures raw { AreRawOf result.0 (joint_of result.0 (coefficients (joined_by self.now.last pcm.now))) result.1.e }
    {
        let words = self.words();
        let mut coefs = Coefs::zeros();
        let made = prepare(
            &self.options,
            &self.sound,
            words,
            &self.last,
            pcm,
            &mut coefs,
        );
        (made.shape, made.raw)
    }
}
