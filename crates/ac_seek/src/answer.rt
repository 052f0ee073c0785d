//! What a search of one offset found.

use ac_expo::Assign;

/// An assignment that fits; that none does, and how many nodes the tree has; or that the tree has more nodes than the budget.
#[derive(Clone, Copy, Debug, PartialEq, Eq)]
pub enum Seek {
    Fits(Assign),
    Never { used: u32 },
    Spent,
}
