use ac_expo::Spelled;
use std::alloc::AllocError;

/// The fields of a block before its mantissas, by their names in A/52 5.3.3. A field that is there only in some blocks is
/// an Option. Arrays of 5 go by full channel, arrays of 18 by band or subband, arrays of 4 by rematrix band; entries that
/// stand for none are None, 0 or false. An exponent and the groups beside it are one field. The skip bytes are free and
/// are no field.
///
/// A coordinate's number is an `Option<u8>` in every call of these crates; it is a parameter so that a block can be made
/// in one place, for whichever type.
pub struct Block<C: Copy = Option<u8>> {
    /// Whether the transform is short, which this profile refuses (A/52 5.4.3.1).
    pub blksw: [bool; 5],
    /// Whether mantissas of no bits are dithered, which this profile refuses (A/52 5.4.3.2).
    pub dithflag: [bool; 5],
    /// Whether dynrng is there (A/52 5.4.3.3).
    pub dynrnge: bool,
    /// The gain for a smaller range of loudness (A/52 5.4.3.4).
    pub dynrng: Option<u8>,
    /// Whether the coupling strategy is sent (A/52 5.4.3.7).
    pub cplstre: bool,
    /// Whether coupling is in use, where the strategy is sent (A/52 5.4.3.8).
    pub cplinu: Option<bool>,
    /// Which channels are coupled (A/52 5.4.3.9).
    pub chincpl: [Option<bool>; 5],
    /// Whether phase flags are in use, where there are two channels (A/52 5.4.3.10).
    pub phsflginu: Option<bool>,
    /// The first subband of the coupling channel, 4 bits (A/52 5.4.3.11).
    pub cplbegf: Option<u8>,
    /// The last subband of the coupling channel less 2, 4 bits (A/52 5.4.3.12).
    pub cplendf: Option<u8>,
    /// Which subbands of the coupling channel but the first belong to the band of the one before (A/52 5.4.3.13).
    pub cplbndstrc: [Option<bool>; 18],
    /// Whether the coordinates of a coupled channel are sent (A/52 5.4.3.14).
    pub cplcoe: [Option<bool>; 5],
    /// The range of a channel's coordinates, 2 bits (A/52 5.4.3.15).
    pub mstrcplco: [Option<u8>; 5],
    /// The exponent of the coordinate of each band, 4 bits (A/52 5.4.3.16).
    pub cplcoexp: [[C; 18]; 5],
    /// The mantissa of the coordinate of each band, 4 bits (A/52 5.4.3.17).
    pub cplcomant: [[C; 18]; 5],
    /// Whether the right channel is turned in a band (A/52 5.4.3.18).
    pub phsflg: [Option<bool>; 18],
    /// Whether the rematrix flags are sent, where there are two channels (A/52 5.4.3.19).
    pub rematstr: Option<bool>,
    /// Whether a rematrix band has sum and difference (A/52 5.4.3.20).
    pub rematflg: [Option<bool>; 4],
    /// The exponent strategy of the coupling channel, 2 bits (A/52 5.4.3.21).
    pub cplexpstr: Option<u8>,
    /// The exponent strategy of each full channel, 2 bits (A/52 5.4.3.22).
    pub chexpstr: [u8; 5],
    /// The exponent strategy of LFE, where there is one (A/52 5.4.3.23).
    pub lfeexpstr: Option<bool>,
    /// The bandwidth of each uncoupled channel that sends exponents, at most 60 (A/52 5.4.3.24).
    pub chbwcod: [Option<u8>; 5],
    /// The exponents of the coupling channel (A/52 5.4.3.25, 5.4.3.26).
    pub cplabsexp: Option<Spelled>,
    /// The exponents of each full channel (A/52 5.4.3.27).
    pub exps: [Option<Spelled>; 5],
    /// The greatest gain in each full channel, 2 bits (A/52 5.4.3.28).
    pub gainrng: [Option<u8>; 5],
    /// The exponents of LFE (A/52 5.4.3.29).
    pub lfeexps: Option<Spelled>,
    /// Whether the five parameters of the bit allocation are sent (A/52 5.4.3.30).
    pub baie: bool,
    /// The slow decay, 2 bits (A/52 5.4.3.31).
    pub sdcycod: Option<u8>,
    /// The fast decay, 2 bits (A/52 5.4.3.32).
    pub fdcycod: Option<u8>,
    /// The slow gain, 2 bits (A/52 5.4.3.33).
    pub sgaincod: Option<u8>,
    /// The knee, 2 bits (A/52 5.4.3.34).
    pub dbpbcod: Option<u8>,
    /// The floor of the mask, 3 bits (A/52 5.4.3.35).
    pub floorcod: Option<u8>,
    /// Whether the offsets and fast gains are sent (A/52 5.4.3.36).
    pub snroffste: bool,
    /// The coarse offset of all channels, 6 bits (A/52 5.4.3.37).
    pub csnroffst: Option<u8>,
    /// The fine offset of the coupling channel, 4 bits (A/52 5.4.3.38).
    pub cplfsnroffst: Option<u8>,
    /// The fast gain of the coupling channel, 3 bits (A/52 5.4.3.39).
    pub cplfgaincod: Option<u8>,
    /// The fine offset of each full channel, 4 bits (A/52 5.4.3.40).
    pub fsnroffst: [Option<u8>; 5],
    /// The fast gain of each full channel, 3 bits (A/52 5.4.3.41).
    pub fgaincod: [Option<u8>; 5],
    /// The fine offset of LFE, 4 bits (A/52 5.4.3.42).
    pub lfefsnroffst: Option<u8>,
    /// The fast gain of LFE, 3 bits (A/52 5.4.3.43).
    pub lfefgaincod: Option<u8>,
    /// Whether the leaks of the coupling channel are sent (A/52 5.4.3.44).
    pub cplleake: Option<bool>,
    /// The fast leak of the coupling channel, 3 bits (A/52 5.4.3.45).
    pub cplfleak: Option<u8>,
    /// The slow leak of the coupling channel, 3 bits (A/52 5.4.3.46).
    pub cplsleak: Option<u8>,
    /// Whether there is delta bit allocation, which this profile refuses (A/52 5.4.3.47).
    pub deltbaie: bool,
    /// Whether there are skip bytes (A/52 5.4.3.58).
    pub skiple: bool,
    /// The number of skip bytes, 9 bits (A/52 5.4.3.59).
    pub skipl: Option<u16>,
}

impl<C: Copy> Clone for Block<C> {
    fn clone(&self) -> Result<Self, AllocError> {
        Ok(*self)
    }
}

impl<C: Copy> Copy for Block<C> {}
