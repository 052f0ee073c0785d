//! What holds of every frame.
ghost use Rattle.std.specs.Prelude.{◌↔◌, ◌⊎◌, ◌≡◌, ℕ, ◌+◌, ◌*◌, ◌/◌, ◌<◌, ◌≤◌, List, length, take, drop, false, Option, None};
ghost use Rattle.ac_base.specs.Rates.{IsRate};
ghost use Rattle.ac_base.specs.Sizes.{frame_words_of, table_words, words_before};
ghost use Rattle.ac_bits.specs.Bits.{bits_of};
ghost use Rattle.ac_crc.specs.Remainder.{IsRemainder};
ghost use Rattle.ac_plan.specs.declared.answer.Plan.{Plan};
ghost use Rattle.ac_plan.specs.declared.answer.Mark.TheVariants.{Best};
ghost use Rattle.ac_record.specs.Laws.{AreBytes};
ghost use Rattle.ac_words.specs.declared.meaning.Options.{Options};
ghost use Rattle.ac_cost.specs.Parts.{IsFeasible};
ghost use Rattle.ac_base.specs.declared.shapes.Shape.{Shape};
ghost use Rattle.ac_base.specs.declared.sizes.Part.{Part};
ghost use Rattle.ac_enc.specs.Frame.{Places, IsFrame, size_code, words_so_far};
ghost use Rattle.ac_enc.specs.Layout.{Layout, channels_in, range_of, IsShapeWith, IsTooLow};

/// What is true of frame `i` of a stream, the frame of a sound by a plan: its size, the remainders of both CRC parts (A/52 7.10.1), that
/// it is one list of bytes, that it depends on the 1,792 places that it transforms alone, and that its plan is the best.
/// Its words and its frmsizecod are those of one line of the table (A/52 Table 5.18). At 44.1 kHz the first n frames take
/// 320 · rate · n / 147 words, rounded down (A/52 5.4.1.4).
pub fn frame_law()
    ensures size { (o : Options) (l : Layout) (i : ℕ) (x : Places) (plan : Plan) (frame : List ℕ) → IsRate o.rate → l.fscod ≤ 2
        → IsFrame o l i x plan frame → length frame ≡ 2 * frame_words_of o.rate l.fscod i }
    ensures first_part { (o : Options) (l : Layout) (i : ℕ) (x : Places) (plan : Plan) (frame : List ℕ) → IsFrame o l i x plan frame
        → let words = frame_words_of o.rate l.fscod i in IsRemainder (bits_of (drop 2 (take (2 * (words / 2 + words / 8)) frame))) 0 }
    ensures both_parts { (o : Options) (l : Layout) (i : ℕ) (x : Places) (plan : Plan) (frame : List ℕ) → IsFrame o l i x plan frame
        → IsRemainder (bits_of (drop 2 frame)) 0 }
    ensures one { (o : Options) (l : Layout) (i : ℕ) (x : Places) (plan : Plan) (f g : List ℕ) → IsRate o.rate → l.fscod ≤ 2
        → AreBytes f → AreBytes g → IsFrame o l i x plan f → IsFrame o l i x plan g → f ≡ g }
    ensures depends { (o : Options) (l : Layout) (i : ℕ) (x y : Places) (plan : Plan) (frame : List ℕ)
        → ((c p : ℕ) → c < channels_in l → p < 1792 → x c p ≡ y c p) → IsFrame o l i x plan frame ↔ IsFrame o l i y plan frame }
    ensures mono { (o : Options) (l : Layout) (i : ℕ) (x : Places) (plan : Plan) (frame : List ℕ) → l.acmod ≡ 1 → l.lfe ≡ false
        → IsFrame o l i x plan frame → plan.mark ≡ Best }
    ensures too_low { (o : Options) (l : Layout) (part : Part) (needed room t : ℕ) (raw : List (List (List ℕ)))
        (couple : Option (ℕ × ℕ)) (shape : Shape) → IsTooLow o l part needed room → (couple ≡ None) ⊎ (couple ≡ range_of o l)
        → IsShapeWith o l (table_words o.rate l.fscod) couple shape → IsFeasible shape raw t → ⊥ }
    ensures listed { (rate fscod i code : ℕ) → let words = frame_words_of rate fscod i in let table = table_words rate fscod in
        let frmsizecod = size_code rate fscod i code in ((words ≡ table) × (frmsizecod ≡ 2 * code))
        ⊎ ((fscod ≡ 1) × (words ≡ table + 1) × (frmsizecod ≡ 2 * code + 1)) }
    ensures keeps_rate { (rate n : ℕ) → words_so_far rate 1 n ≡ words_before rate n }
{}
