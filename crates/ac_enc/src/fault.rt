use ac_base::Part;
use thiserror::Error;

/// Why there is no encoder.
#[derive(Debug, Clone, Copy, PartialEq, Eq, Error)]
pub enum NewFault {
    /// The cheapest assignment doesn't fit the smaller frame size, neither without coupling nor with it. Without it, this is the first
    /// part that is too large, in the order total, front, last, with its bits and the room for them.
    #[error("the rate is too low")]
    RateTooLow { part: Part, needed: u32, room: u32 },
    /// There was not enough memory.
    #[error("out of memory")]
    NoMemory,
}
