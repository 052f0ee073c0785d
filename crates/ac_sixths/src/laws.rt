//! The laws of the sixths.
ghost use Rattle.ac_sixths.specs.Keys.{WeightsAreSixths};
ghost use Rattle.ac_sixths.specs.Runs.{StepsAreShared};

/// The weights of pointers are the sixths of tallies of one mantissa. The exponents of a kind are equal in the pieces by
/// which they are added.
pub fn sixths_laws()
    ensures weights { WeightsAreSixths }
    ensures steps { StepsAreShared }
{}
