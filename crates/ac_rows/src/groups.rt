//! The fields of a block in groups, as they follow one another.
use ac_expo::Spelled;

/// The first fields of a block (A/52 5.4.3.1 to 5.4.3.4).
#[derive(Clone, Copy)]
pub struct Start {
    pub blksw: [bool; 5],
    pub dithflag: [bool; 5],
    pub dynrnge: bool,
    pub dynrng: Option<u8>,
}

/// The coupling strategy (A/52 5.4.3.7 to 5.4.3.13).
#[derive(Clone, Copy)]
pub struct Strategy {
    pub cplstre: bool,
    pub cplinu: Option<bool>,
    pub chincpl: [Option<bool>; 5],
    pub phsflginu: Option<bool>,
    pub cplbegf: Option<u8>,
    pub cplendf: Option<u8>,
    pub cplbndstrc: [Option<bool>; 18],
}

/// What the other rows of a block see of its coupling, whether it was sent in the block or before.
#[derive(Clone, Copy)]
pub struct Coupling {
    /// cplbegf and cplendf, where coupling is in use.
    pub range: Option<(u8, u8)>,
    /// Which full channels are coupled.
    pub coupled: [bool; 5],
    /// Whether phase flags are in use.
    pub phases: bool,
    /// The number of bands.
    pub bands: usize,
}

/// The coupling coordinates of one channel (A/52 5.4.3.14 to 5.4.3.17).
#[derive(Clone, Copy)]
pub struct ChannelShared {
    pub cplcoe: Option<bool>,
    pub mstrcplco: Option<u8>,
    pub cplcoexp: [Option<u8>; 18],
    pub cplcomant: [Option<u8>; 18],
}

/// The coupling coordinates of all channels, and the phase flags (A/52 5.4.3.14 to 5.4.3.18).
#[derive(Clone, Copy)]
pub struct Shared {
    pub cplcoe: [Option<bool>; 5],
    pub mstrcplco: [Option<u8>; 5],
    pub cplcoexp: [[Option<u8>; 18]; 5],
    pub cplcomant: [[Option<u8>; 18]; 5],
    pub phsflg: [Option<bool>; 18],
}

/// Rematrixing, the exponent strategies and the bandwidths (A/52 5.4.3.19 to 5.4.3.24).
#[derive(Clone, Copy)]
pub struct Codes {
    pub rematstr: Option<bool>,
    pub rematflg: [Option<bool>; 4],
    pub cplexpstr: Option<u8>,
    pub chexpstr: [u8; 5],
    pub lfeexpstr: Option<bool>,
    pub chbwcod: [Option<u8>; 5],
}

/// The exponents of all channels (A/52 5.4.3.25 to 5.4.3.29).
#[derive(Clone, Copy)]
pub struct Exponents {
    pub cplabsexp: Option<Spelled>,
    pub exps: [Option<Spelled>; 5],
    pub gainrng: [Option<u8>; 5],
    pub lfeexps: Option<Spelled>,
}

/// The parameters of the bit allocation (A/52 5.4.3.30 to 5.4.3.46).
#[derive(Clone, Copy)]
pub struct Allocation {
    pub baie: bool,
    pub sdcycod: Option<u8>,
    pub fdcycod: Option<u8>,
    pub sgaincod: Option<u8>,
    pub dbpbcod: Option<u8>,
    pub floorcod: Option<u8>,
    pub snroffste: bool,
    pub csnroffst: Option<u8>,
    pub cplfsnroffst: Option<u8>,
    pub cplfgaincod: Option<u8>,
    pub fsnroffst: [Option<u8>; 5],
    pub fgaincod: [Option<u8>; 5],
    pub lfefsnroffst: Option<u8>,
    pub lfefgaincod: Option<u8>,
    pub cplleake: Option<bool>,
    pub cplfleak: Option<u8>,
    pub cplsleak: Option<u8>,
}

/// The last fields before the mantissas (A/52 5.4.3.47, 5.4.3.58 to 5.4.3.60).
#[derive(Clone, Copy)]
pub struct Rest {
    pub deltbaie: bool,
    pub skiple: bool,
    pub skipl: Option<u16>,
}

/// What the rows of a block see of the blocks before it.
#[derive(Clone, Copy)]
pub struct Known {
    /// Whether there is a block before.
    pub begun: bool,
    /// The latest of each row of the coupling strategy.
    pub strategy: Strategy,
    /// The number of bands of each channel's latest coordinates.
    pub coordinates: [Option<usize>; 5],
    /// cplbegf and cplendf at the latest exponents of the coupling channel.
    pub sent: Option<(u8, u8)>,
    /// The end of each full channel's latest exponents.
    pub ends: [Option<usize>; 5],
    /// The latest chbwcod of each full channel.
    pub widths: [Option<u8>; 5],
    /// Whether LFE's exponents were sent.
    pub low: bool,
    /// Whether the coupling channel's offset was sent.
    pub offset: bool,
    /// Whether the coupling channel's leaks were sent.
    pub leaks: bool,
}
