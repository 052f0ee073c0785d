//! What holds of the heads and refusals of every list of bytes.
ghost use Rattle.std.specs.Prelude.{◌≡◌, ◌⊎◌, ℕ, List};
ghost use Rattle.ac_riff.specs.declared.fault.WavKind.{WavKind};
ghost use Rattle.ac_riff.specs.declared.head.WavHead.{WavHead};
ghost use Rattle.ac_riff.specs.Form.{IsHead};
ghost use Rattle.ac_riff.specs.Refusal.{Refuses};

/// Each list of bytes begins with the head of a WAV or is refused, and never both. It begins with one head only, and is
/// refused for one reason at one place, in bytes from the first.
pub fn head_law()
    ensures never_both { (bytes : List ℕ) (head : WavHead) (kind : WavKind) (place : ℕ) → IsHead bytes head → Refuses bytes kind place → ⊥ }
    ensures one_head { (bytes : List ℕ) (head other : WavHead) → IsHead bytes head → IsHead bytes other → head ≡ other }
    ensures one_refusal { (bytes : List ℕ) (kind other : WavKind) (place there : ℕ) → Refuses bytes kind place
        → Refuses bytes other there → (kind ≡ other) × (place ≡ there) }
    ensures each { (bytes : List ℕ) → ((head : WavHead) × IsHead bytes head) ⊎ ((kind : WavKind) × (place : ℕ) × Refuses bytes kind place) }
{}
