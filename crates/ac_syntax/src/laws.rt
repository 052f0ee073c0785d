//! Laws of the fields of a frame.
ghost use Rattle.std.specs.Prelude.{List, [], ◌∷◌, ◌++◌};
ghost use Rattle.ac_codec.specs.Meaning.{IsFaithful};
ghost use Rattle.ac_rows.specs.Blocks.{Block};
ghost use Rattle.ac_rows.specs.declared.head.Head.{Head};
ghost use Rattle.ac_rows.specs.Filled.{filled_of, HasSpans};
ghost use Rattle.ac_rows.specs.HeadRows.{head_fields, whole_head};
ghost use Rattle.ac_rows.specs.BlockRows.{block_fields, whole_block, AreLawful};
ghost use Rattle.ac_syntax.specs.Sent.{HeadIsSide, FirstIsSide, LaterIsSide};

/// One list of bits stands for at most one head, and for at most one block behind given blocks; reading gives back what was
/// written; each list begins with a lawful head or block, or is refused for one reason at one place, and never both. Blocks
/// that are read one after the other are those of a frame, and each that is filled has spans.
pub fn syntax_laws()
    ensures head { IsFaithful whole_head }
    ensures block { (h : Head) (earlier : List Block) → IsFaithful (whole_block h earlier) }
    ensures front { (h : Head) (earlier : List Block) (b : Block) → AreLawful h earlier
        → (block_fields h earlier).Lawful b → AreLawful h (earlier ++ b ∷ []) }
    ensures spans { (h : Head) (earlier : List Block) (b : Block) → head_fields.Lawful h → AreLawful h earlier
        → (block_fields h earlier).Lawful b →
        HasSpans h (filled_of h earlier b) }
{}

/// The fields of heads and blocks, as this encoder fills them, have as many bits as `side_bits` says, but for chbwcod, exponents
/// and gainrng.
pub fn side_laws()
    ensures head { HeadIsSide }
    ensures first { FirstIsSide }
    ensures later { LaterIsSide }
{}
