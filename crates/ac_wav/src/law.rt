//! What holds of the heads, WAVs and refusals of every list of bytes.
ghost use Rattle.std.specs.Prelude.{◌≡◌, ◌⊎◌, ℕ, List};
ghost use Rattle.ac_riff.specs.declared.fault.WavKind.{WavKind};
ghost use Rattle.ac_riff.specs.declared.head.WavHead.{WavHead};
ghost use Rattle.ac_wav.specs.Whole.{IsWav};
ghost use Rattle.ac_wav.specs.Whole.{RefusesWav, NeedsMore, EndsWithin, RefusedWithin};

/// Each list of bytes is a WAV, with one head and all its data, or is refused for one reason at one place, and never both.
/// Under a limit the WAV ends at the limit or before, or a refusal needs no byte past it, or a byte past the limit is needed
/// and there, and only one of these.
pub fn wav_law()
    ensures never_both { (bytes : List ℕ) (head : WavHead) (kind : WavKind) (place : ℕ) → IsWav bytes head
        → RefusesWav bytes kind place → ⊥ }
    ensures one_head { (bytes : List ℕ) (head other : WavHead) → IsWav bytes head → IsWav bytes other → head ≡ other }
    ensures one_refusal { (bytes : List ℕ) (kind other : WavKind) (place there : ℕ) → RefusesWav bytes kind place
        → RefusesWav bytes other there → (kind ≡ other) × (place ≡ there) }
    ensures each { (bytes : List ℕ)
        → ((head : WavHead) × IsWav bytes head) ⊎ ((kind : WavKind) × (place : ℕ) × RefusesWav bytes kind place) }
    ensures each_within { (bytes : List ℕ) (limit : ℕ) → ((head : WavHead) × EndsWithin bytes head limit)
        ⊎ (((kind : WavKind) × (place : ℕ) × RefusedWithin bytes kind place limit) ⊎ NeedsMore bytes limit) }
    ensures never_ends_and_needs { (bytes : List ℕ) (head : WavHead) (limit : ℕ) → EndsWithin bytes head limit → NeedsMore bytes limit → ⊥ }
    ensures never_refused_and_needs { (bytes : List ℕ) (kind : WavKind) (place limit : ℕ) → RefusedWithin bytes kind place limit
        → NeedsMore bytes limit → ⊥ }
    ensures never_ends_and_refused { (bytes : List ℕ) (head : WavHead) (kind : WavKind) (place limit : ℕ) → EndsWithin bytes head limit
        → RefusedWithin bytes kind place limit → ⊥ }
{}
