//! A law of the bits of mantissas.
ghost use Rattle.ac_mant.specs.Laws.{OneReading};

/// Bits are those of one list of codes alone, whatever fills the last groups (A/52 7.3.5).
pub fn reading_law()
    ensures { OneReading }
{}
