//! What holds of every run that does all, and of every stream that was encoded.
ghost use Rattle.std.specs.Prelude.{◌≡◌, ℕ, ◌+◌, ◌≤◌, List, length, Some};
ghost use Rattle.ac_base.specs.Rates.{IsRate};
ghost use Rattle.ac_record.specs.Laws.{AreBytes};
ghost use Rattle.ac_record.specs.declared.codes.FrameFault.{FrameFault};
ghost use Rattle.ac_words.specs.Grammar.{Text};
ghost use Rattle.ac_words.specs.declared.meaning.Options.{Options};
ghost use Rattle.ac_app.specs.Decoded.{ComesUnless};
ghost use Rattle.ac_app.specs.Run.{AsksEncode, AsksDecode, IsEncoded, HasCause};
ghost use Rattle.ac_decode.specs.Stream.{IsBadStream, IsTooLong};
ghost use Rattle.ac_encode.specs.Sound.{Sound, sound_of, frames_of};
ghost use Rattle.ac_encode.specs.Stream.{IsStream, stream_size};
ghost use Rattle.ac_status.specs.declared.status.Status.{Status};
ghost use Rattle.ac_status.specs.declared.status.Status.TheVariants.{Ok};
ghost use Rattle.ac_world.specs.Limit.{limit};
ghost use Rattle.ac_world.specs.World.{World};

use ac_encode::stream_law;
use ac_synth::again_law;

/// Two runs that did all that the same words ask of the same input leave the same of it, add as many bytes to their outputs,
/// those of the stream of the sound at the rate that is asked for, and the same fields of each frame's head.
pub fn run_law()
    ensures left { (ws : List Text) (o p : Options) (bytes : List ℕ) (old new again after : World) → AsksEncode ws o → AsksEncode ws p
        → IsEncoded o bytes old new → IsEncoded p bytes again after → new.input.bytes ≡ after.input.bytes }
    ensures size { (ws : List Text) (o : Options) (bytes before out : List ℕ) (old new : World) → AsksEncode ws o
        → (e : IsEncoded o bytes old new) → old.sinks.output.bytes ≡ Some before → new.sinks.output.bytes ≡ Some out
        → length out ≡ length before + stream_size o (sound_of e.head bytes) (frames_of (sound_of e.head bytes)) }
    ensures same_size { (ws : List Text) (o p : Options) (bytes before out other : List ℕ) (old new again after : World)
        → AsksEncode ws o → AsksEncode ws p → IsEncoded o bytes old new → IsEncoded p bytes again after
        → old.sinks.output.bytes ≡ Some before → new.sinks.output.bytes ≡ Some out
        → again.sinks.output.bytes ≡ Some before → after.sinks.output.bytes ≡ Some other → length out ≡ length other }
{
    stream_law();
}

/// What is encoded is decoded again: decode refuses no frame of the stream of a sound, and within the limit no such stream is too long for
/// it. So a run of decode answers `Ok` on it, unless something failed or memory was wanting.
pub fn decode_law()
    ensures accepted { (o : Options) (k : ℕ) (x : Sound) (stream lines : List ℕ) (i : ℕ) (fault : FrameFault) → AreBytes stream
        → IsRate o.rate → x.layout.fscod ≤ 2 → IsStream o x k stream lines → IsBadStream stream i fault → ⊥ }
    ensures ends { (o : Options) (k : ℕ) (x : Sound) (stream lines : List ℕ) → IsStream o x k stream lines → length stream ≤ limit
        → IsTooLong stream → ⊥ }
    ensures answers { (ws : List Text) (o : Options) (k : ℕ) (x : Sound) (stream lines : List ℕ) (status : Status) → AreBytes stream
        → IsRate o.rate → x.layout.fscod ≤ 2 → IsStream o x k stream lines → length stream ≤ limit
        → AsksDecode ws → HasCause ws status stream → ComesUnless Ok status }
{
    stream_law();
    again_law();
}
