//! Laws of what exponents and mantissas cost.
ghost use Rattle.ac_base.specs.Counts.{SixthsAreWithinExact, TalliesJoin};
ghost use Rattle.ac_base.specs.Fit.{PartsAreByRuns};

/// Six times the exact bits of mantissas are at least their sixths, and the counts of two lists in a row are those of both
/// (A/52 7.3.5). The parts of a frame have the exponents of the runs that begin in them.
pub fn cost_laws()
    ensures sixths { SixthsAreWithinExact }
    ensures join { TalliesJoin }
    ensures parts { PartsAreByRuns }
{}
