//! Why bits are no frame, and which field is meant.

/// A field of a frame before its mantissas, by its name in A/52 5.3 with a capital first letter.
#[derive(Clone, Copy, Debug, PartialEq, Eq)]
pub enum Row {
    Syncword,
    Crc1,
    Fscod,
    Frmsizecod,
    Bsid,
    Bsmod,
    Acmod,
    Cmixlev,
    Surmixlev,
    Dsurmod,
    Lfeon,
    Dialnorm,
    Compre,
    Compr,
    Langcode,
    Langcod,
    Audprodie,
    Mixlevel,
    Roomtyp,
    Copyrightb,
    Origbs,
    Timecod1e,
    Timecod1,
    Timecod2e,
    Timecod2,
    Addbsie,
    Addbsil,
    Blksw,
    Dithflag,
    Dynrnge,
    Dynrng,
    Cplstre,
    Cplinu,
    Chincpl,
    Phsflginu,
    Cplbegf,
    Cplendf,
    Cplbndstrc,
    Cplcoe,
    Mstrcplco,
    Cplcoexp,
    Cplcomant,
    Phsflg,
    Rematstr,
    Rematflg,
    Cplexpstr,
    Chexpstr,
    Lfeexpstr,
    Chbwcod,
    Cplabsexp,
    Exps,
    Gainrng,
    Lfeexps,
    Baie,
    Sdcycod,
    Fdcycod,
    Sgaincod,
    Dbpbcod,
    Floorcod,
    Snroffste,
    Csnroffst,
    Cplfsnroffst,
    Cplfgaincod,
    Fsnroffst,
    Fgaincod,
    Lfefsnroffst,
    Lfefgaincod,
    Cplleake,
    Cplfleak,
    Cplsleak,
    Deltbaie,
    Skiple,
    Skipl,
}

/// Why bits are refused: the first field in their order that no lawful frame has there.
#[derive(Clone, Copy, Debug, PartialEq, Eq)]
pub enum Refused {
    /// The frame doesn't begin with the synchronisation word (A/52 5.4.1.1).
    BadSync,
    /// The field has a value that is reserved, or that no decoder can follow.
    Reserved(Row),
    /// bsid isn't 8 (A/52 5.4.2.1).
    BadBsid(u8),
    /// Two programmes of one channel each (A/52 5.4.2.3).
    DualMono,
    /// A short transform (A/52 5.4.3.1).
    ShortBlock,
    /// Dither (A/52 5.4.3.2).
    Dither,
    /// Delta bit allocation (A/52 5.4.3.47).
    Delta,
    /// The field asks for a value of an earlier block of the frame, and no such block has one that fits.
    NoReuse(Row),
    /// The group at `place` of coded channel `channel` is over 124, or gives an exponent outside 0 to 24.
    BadExponent { channel: u8, place: u8 },
    /// The group of mantissas whose first is at `place` isn't one (A/52 7.3.5).
    BadGroup { place: u16 },
    /// The bits end before the field does.
    OutOfBits,
}
