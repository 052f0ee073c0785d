//! Laws of what assignments cost.
ghost use Rattle.ac_cost.specs.Laws.{RunExponentsAreGreatest, SixthsAreWithinParts, SixthsRise, FeasibleMakesCheapestFit};

/// The exponents of a run are the greatest list that can be spelled. The sixths of an assignment are at most six times its bits in
/// each part, and those of a run never fall as the offset rises. Where the cheapest assignment doesn't fit at offset 0, none fits
/// at any offset.
pub fn assignment_laws()
    ensures greatest { RunExponentsAreGreatest }
    ensures within { SixthsAreWithinParts }
    ensures rises { SixthsRise }
    ensures cheapest { FeasibleMakesCheapestFit }
{}
