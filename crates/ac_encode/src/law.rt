//! What holds of every stream, of every list of bytes that is to be an input, and of every run that does all.
ghost use Rattle.std.specs.Prelude.{◌↔◌, ◌≡◌, ◌⊎◌, ℕ, ◌+◌, ◌*◌, ◌<◌, ◌≤◌, false, List, ◌++◌, length, take, drop};
ghost use Rattle.ac_base.specs.Rates.{IsRate};
ghost use Rattle.ac_base.specs.declared.sizes.Part.{Part};
ghost use Rattle.ac_plan.specs.declared.answer.Mark.TheVariants.{Best};
ghost use Rattle.ac_record.specs.Laws.{AreBytes};
ghost use Rattle.ac_riff.specs.declared.fault.WavKind.{WavKind};
ghost use Rattle.ac_riff.specs.declared.head.WavHead.{WavHead};
ghost use Rattle.ac_words.specs.declared.meaning.Options.{Options};
ghost use Rattle.ac_encode.specs.Input.{IsInput, IsRefused, IsTooLong, IsRateTooLow};
ghost use Rattle.ac_encode.specs.Sound.{Sound, Continues};
ghost use Rattle.ac_encode.specs.Stream.{IsFrameAt, IsStream, frame_size, stream_size};

use crate::known::known;

/// What is true of the first frames of a sound and their lines: they have the bytes that their rate gives; a front of them
/// is the first frames again; each frame stands at its own place, and its line behind those of the frames before; the
/// same frame of one sound has the same four bytes behind crc1, from fscod on (A/52 5.3.1, 5.3.2), by whatever plan, and by
/// one plan it is one list of bytes with one line; of one channel without LFE its plan is the best; and the samples of these
/// frames alone tell them: the first k frames are those of every sound that continues the first 1,536 k samples.
pub fn stream_law()
    ensures size { (o : Options) (k : ℕ) (x : Sound) (stream lines : List ℕ) → IsRate o.rate → x.layout.fscod ≤ 2
        → IsStream o x k stream lines → length stream ≡ stream_size o x k }
    ensures front { (o : Options) (k more : ℕ) (x : Sound) (stream lines : List ℕ) → IsStream o x (k + more) stream lines
        → (front said back later : List ℕ) × IsStream o x k front said × (stream ≡ front ++ back) × (lines ≡ said ++ later) }
    ensures frame { (o : Options) (k i : ℕ) (x : Sound) (stream lines : List ℕ) → IsRate o.rate → x.layout.fscod ≤ 2
        → IsStream o x k stream lines → i < k → (said line later : List ℕ) × (lines ≡ said ++ (line ++ later))
        × IsFrameAt o x i (take (frame_size o x i) (drop (stream_size o x i) stream)) line }
    ensures heads { (o : Options) (i : ℕ) (x : Sound) (frame line other another : List ℕ) → IsRate o.rate → x.layout.fscod ≤ 2
        → AreBytes frame → AreBytes other → IsFrameAt o x i frame line → IsFrameAt o x i other another
        → take 4 (drop 4 frame) ≡ take 4 (drop 4 other) }
    ensures one { (o : Options) (i : ℕ) (x : Sound) (frame line other another : List ℕ) → IsRate o.rate → x.layout.fscod ≤ 2
        → AreBytes frame → AreBytes other → (here : IsFrameAt o x i frame line) → (there : IsFrameAt o x i other another)
        → here.plan ≡ there.plan → (frame ≡ other) × (line ≡ another) }
    ensures mono { (o : Options) (i : ℕ) (x : Sound) (frame line : List ℕ) → x.layout.acmod ≡ 1 → x.layout.lfe ≡ false
        → (here : IsFrameAt o x i frame line) → here.plan.mark ≡ Best }
    ensures depends { (o : Options) (k : ℕ) (x y : Sound) (stream lines : List ℕ) → Continues x (1536 * k) y
        → IsStream o x k stream lines ↔ IsStream o y k stream lines }
{
    known();
}

/// A list of bytes is a WAV within the limit that the rate is enough for, refused, or goes on past the limit where it is needed, or
/// begins with a head that the rate is too low for: one of the four, with one head, and for one reason at one place.
pub fn input_law()
    ensures each { (o : Options) (bytes : List ℕ) → IsRate o.rate → ((head : WavHead) × IsInput o bytes head)
        ⊎ (((kind : WavKind) × (place : ℕ) × IsRefused o bytes kind place)
        ⊎ (IsTooLong o bytes ⊎ ((part : Part) × (needed room : ℕ) × IsRateTooLow o bytes part needed room))) }
    ensures never_both { (o : Options) (bytes : List ℕ) (head : WavHead) (kind : WavKind) (place : ℕ) → IsInput o bytes head
        → IsRefused o bytes kind place → ⊥ }
    ensures never_longer { (o : Options) (bytes : List ℕ) (head : WavHead) → IsInput o bytes head → IsTooLong o bytes → ⊥ }
    ensures never_refused { (o : Options) (bytes : List ℕ) (kind : WavKind) (place : ℕ) → IsRefused o bytes kind place
        → IsTooLong o bytes → ⊥ }
    ensures never_low { (o : Options) (bytes : List ℕ) (part : Part) (needed room : ℕ) → IsRateTooLow o bytes part needed room
        → ((head : WavHead) → IsInput o bytes head → ⊥) × ((kind : WavKind) (place : ℕ) → IsRefused o bytes kind place → ⊥)
        × (IsTooLong o bytes → ⊥) }
    ensures one_head { (o : Options) (bytes : List ℕ) (head other : WavHead) → IsInput o bytes head → IsInput o bytes other
        → head ≡ other }
    ensures one_refusal { (o : Options) (bytes : List ℕ) (kind other : WavKind) (place there : ℕ) → IsRefused o bytes kind place
        → IsRefused o bytes other there → (kind ≡ other) × (place ≡ there) }
    ensures one_low { (o : Options) (bytes : List ℕ) (part other : Part) (needed room much little : ℕ)
        → IsRateTooLow o bytes part needed room → IsRateTooLow o bytes other much little
        → (part ≡ other) × (needed ≡ much) × (room ≡ little) }
{}
