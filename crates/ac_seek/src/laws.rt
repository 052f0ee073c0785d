//! Laws of the tree.
ghost use Rattle.ac_seek.specs.Laws.{ClosedIsOver, ClosedHasNoFit, ChildrenAreNext, ChildrenCover, RootHasAll, SizeIsWhole, SizeIsOne, SizeExists, SizeIsBounded, OneChannelIsSmall};

/// What is closed has a lower bound over a room, and nothing below it fits. The children of a node are the runs that may
/// come next, and cover all that begins with its runs; all assignments begin with no run. The tree of an offset has one size, at
/// most 4,096 with one coded channel.
pub fn tree_laws()
    ensures over { ClosedIsOver }
    ensures closed { ClosedHasNoFit }
    ensures children { ChildrenAreNext }
    ensures cover { ChildrenCover }
    ensures root { RootHasAll }
    ensures whole { SizeIsWhole }
    ensures one { SizeIsOne }
    ensures exists { SizeExists }
    ensures bound { SizeIsBounded }
    ensures small { OneChannelIsSmall }
{}
