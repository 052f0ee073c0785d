//! What holds of every frame that is decoded again.
ghost use Rattle.std.specs.Prelude.{◌≡◌, ℕ, ◌+◌, List, length};
ghost use Rattle.ac_enc.specs.Frame.{Places, IsFrame};
ghost use Rattle.ac_enc.specs.Layout.{Layout, IsEnough};
ghost use Rattle.ac_encode.specs.Stream.{IsStream};
ghost use Rattle.ac_plan.specs.declared.answer.Plan.{Plan};
ghost use Rattle.ac_record.specs.declared.codes.FrameFault.{FrameFault};
ghost use Rattle.ac_record.specs.Faults.{IsFault};
ghost use Rattle.ac_record.specs.Frames.{FrameCodes};
ghost use Rattle.ac_record.specs.Laws.{AreBytes};
ghost use Rattle.ac_record.specs.Readings.{IsReading};
ghost use Rattle.ac_words.specs.declared.meaning.Options.{Options};
ghost use Rattle.ac_synth.specs.Synth.{synth_options, synth_layout, generated, IsMade};

/// A lawful frame has no fault, and what is read of it has the sampling rate and the channels of its layout. The frames of a generated
/// sound are the stream of that sound, as many as are read, and the plan of each is the best or has a bound. The rate is enough.
pub fn again_law()
    ensures whole { (o : Options) (l : Layout) (i : ℕ) (x : Places) (plan : Plan) (frame : List ℕ) (fault : FrameFault) → AreBytes frame
        → IsFrame o l i x plan frame → IsFault frame fault → ⊥ }
    ensures kind { (o : Options) (l : Layout) (i : ℕ) (x : Places) (plan : Plan) (frame : List ℕ) (g : FrameCodes)
        → IsFrame o l i x plan frame → IsReading frame g
        → (g.head.fscod ≡ l.fscod) × (g.head.acmod ≡ l.acmod) × (g.head.lfeon ≡ l.lfe) }
    ensures stream { (seed frames k : ℕ) (stream : List ℕ) (gs : List FrameCodes) (best bounded : ℕ)
        → IsMade seed frames k stream gs best bounded → (lines : List ℕ) × IsStream synth_options (generated seed frames) k stream lines }
    ensures each { (seed frames k : ℕ) (stream : List ℕ) (gs : List FrameCodes) (best bounded : ℕ)
        → IsMade seed frames k stream gs best bounded → (length gs ≡ k) × (best + bounded ≡ k) }
    ensures enough { IsEnough synth_options synth_layout }
{}
