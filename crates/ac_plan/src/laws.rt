//! Laws of the floor.
ghost use Rattle.ac_plan.specs.Uniform.{FloorIsBelowRoot, FloorIsOne};

/// The greatest offset at which some uniform assignment fits is one, and it is at most the root offset.
pub fn floor_law()
    ensures root { FloorIsBelowRoot }
    ensures one { FloorIsOne }
{}
