//! The codes of the bit allocation that the encoder sends in each frame: this project's profile (A/52 5.4.3.31 to 5.4.3.46).

/// The slow decay (A/52 Table 7.6).
pub const SDCYCOD: u8 = 2;

/// The fast decay (A/52 Table 7.7).
pub const FDCYCOD: u8 = 1;

/// The slow gain (A/52 Table 7.8).
pub const SGAINCOD: u8 = 1;

/// The knee (A/52 Table 7.9).
pub const DBPBCOD: u8 = 3;

/// The floor (A/52 Table 7.10).
pub const FLOORCOD: u8 = 7;

/// The fast gain of each coded channel (A/52 Table 7.11).
pub const FGAINCOD: u8 = 4;

/// The fast leak of the coupling channel before its first band: the lowest (A/52 5.4.3.45).
pub const CPLFLEAK: u8 = 0;

/// The slow leak of the coupling channel before its first band: the lowest (A/52 5.4.3.46).
pub const CPLSLEAK: u8 = 0;
