//! Laws of lower bounds.
ghost use Rattle.ac_bound.specs.Laws.{WaysAreWords, LeastExists, LowerIsBelow, ClosedStays, FeasibleIsBelowRoot};

/// The ways on from the start are the runs of words, and there are least costs from each boundary on. The lower bound of a partial
/// assignment is at most six times the bits of each assignment that completes it. What is closed at an offset is closed at each
/// higher one, and no offset above the root is feasible.
pub fn bound_laws()
    ensures ways { WaysAreWords }
    ensures exists { LeastExists }
    ensures below { LowerIsBelow }
    ensures stays { ClosedStays }
    ensures root { FeasibleIsBelowRoot }
{}
