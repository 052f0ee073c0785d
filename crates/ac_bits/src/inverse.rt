//! Laws of the definitions that the contracts cite.
ghost use Rattle.ac_bits.specs.Bits.{NumUndoesBits, BitsUndoNum};

/// A number and its bits give one another back, most significant bit first (A/52 5.2).
pub fn bits_laws()
    ensures number { NumUndoesBits }
    ensures bits { BitsUndoNum }
{}
