//! How far an input is read.

/// The most bytes of an input that are read, but for one byte behind them.
pub const LIMIT: u64 = (1 << 32) + (1 << 20);
