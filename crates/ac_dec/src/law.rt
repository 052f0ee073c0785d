//! The sound of frames one behind the other.
ghost use Rattle.std.specs.Prelude.{◌≡◌, ℕ, ◌+◌, ◌*◌, ◌<◌, List, [], ◌∷◌, ◌++◌, length, pos, slice_index_or};
ghost use Rattle.ac_reading.specs.Framed.{Reading};
ghost use Rattle.ac_wav.specs.declared.written.Pcm.{Pcm};
ghost use Rattle.ac_dec.specs.declared.kind.Heard.{Heard};
ghost use Rattle.ac_dec.specs.Decoding.{Decoding, at_first, Decodes};
ghost use Rattle.ac_dec.specs.Heard.{channels_of};
ghost use Rattle.ac_dec.specs.Sound.{sound_of, IsBehind};

/// Frames that are decoded one behind the other give the sound of all of them (A/52 7.9.4): before the first there is silence; where
/// the decoder stands behind some frames, the samples of the next are those of the sound with it, and then the decoder stands behind
/// it too; and the sound of the first frames is a front of the sound of all.
pub fn sound_law()
    ensures first { (c : ℕ) → c < 6 → IsBehind [] c (slice_index_or at_first.delays c []) }
    ensures next { (gs : List Reading) (bytes : List ℕ) (old new : Decoding) (g : Reading) (heard : Heard) (out : Pcm) (c b t : ℕ)
        → Decodes bytes old g heard out new → IsBehind gs c (slice_index_or old.delays c []) → c < channels_of g → b < 6 → t < 256
        → slice_index_or (slice_index_or out.s c []) (256 * b + t) (pos 0) ≡ sound_of (gs ++ g ∷ []) c (6 * length gs + b) t }
    ensures behind { (gs : List Reading) (bytes : List ℕ) (old new : Decoding) (g : Reading) (heard : Heard) (out : Pcm) (c : ℕ)
        → Decodes bytes old g heard out new → IsBehind gs c (slice_index_or old.delays c []) → c < channels_of g
        → IsBehind (gs ++ g ∷ []) c (slice_index_or new.delays c []) }
    ensures front { (gs more : List Reading) (c j t : ℕ) → j < 6 * length gs → sound_of (gs ++ more) c j t ≡ sound_of gs c j t }
{}
