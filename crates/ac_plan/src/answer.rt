//! What is planned for a frame.

use ac_expo::Assign;

/// What is known of the offsets above that of a plan.
#[derive(Clone, Copy, Debug, PartialEq, Eq)]
pub enum Mark {
    /// No assignment fits at any of them.
    Best,
    /// No assignment fits above `upper`; the search of the offsets up to it was cut short.
    Bounded { upper: u16 },
}

/// An SNR offset t = 16 csnroffst + fsnroffst and the exponent strategies of a frame (A/52 5.4.3.37, 5.4.3.40, 5.4.3.21 to
/// 5.4.3.23).
#[derive(Clone, Copy, Debug, PartialEq, Eq)]
pub struct Plan {
    pub offset: u16,
    pub assign: Assign,
    pub mark: Mark,
}
