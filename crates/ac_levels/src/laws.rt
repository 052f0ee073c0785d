//! Laws of the exponents of runs.
ghost use Rattle.ac_levels.specs.Union.{UnionIsLeast, RunIsLeastOfBlocks, UnionIsGreatest};

/// The greatest list of a run is, bin by bin, the least of the greatest lists of its blocks, and of those of any two
/// runs that it is cut into.
pub fn union_laws()
    ensures two { UnionIsLeast }
    ensures blocks { RunIsLeastOfBlocks }
    ensures greatest { UnionIsGreatest }
{}
