//! Why a text is refused while it is read.

/// Why reading ends.
#[derive(Clone, Copy, Debug, PartialEq, Eq)]
pub enum Fault {
    /// No text of a certificate goes on so.
    Bad,
    /// A 43rd bracket would stand open.
    Deep,
    /// Memory was wanting.
    NoMemory,
}
