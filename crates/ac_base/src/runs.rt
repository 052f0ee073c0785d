//! The runs of blocks that share exponents.
ghost use Rattle.ac_base.specs.Words.{RunsTile, RunsAreStretches, EachStretchIsARun, UniformIsAssignment};

/// The blocks from `from` up to but not `to` share the exponents that are sent in block `from` by the strategy
/// `kind`: 1 for D15, 2 for D25, 3 for D45 (A/52 5.4.3.22).
#[derive(Clone, Copy, Debug, Default, PartialEq, Eq)]
pub struct Run {
    /// The block that sends the exponents, from 0 to 5.
    pub from: u8,
    /// The block behind the last, from 1 to 6.
    pub to: u8,
    /// The strategy, from 1 to 3.
    pub kind: u8,
}

/// The runs of a word are its stretches of blocks that share exponents, each as long as it can be, one behind the other from
/// block 0 to block 5 (A/52 5.4.3.21 to 5.4.3.23). A uniform assignment is one.
pub fn run_laws()
    ensures tile { RunsTile }
    ensures stretches { RunsAreStretches }
    ensures all { EachStretchIsARun }
    ensures uniform { UniformIsAssignment }
{}
