//! Trees of reasons.

use ac_base::Part;
use sqlite_items::Items;

/// Why no whole assignment that begins as a partial one fits at an offset.
#[derive(Drop)]
pub enum Tree {
    /// Its lower bound in this part is over the room.
    Closed(Part),
    /// It is whole, and its exact bits in this part are over the room.
    Full(Part),
    /// None fits that begins as one of its children, a tree for each run that may come next: by the run's end, and within one end
    /// by its kind.
    Split(Items<Tree>),
}
