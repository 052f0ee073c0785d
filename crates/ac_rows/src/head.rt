/// The fields of a frame before block 0, by their names in A/52 5.3.1 and 5.3.2. A field that is there only after another
/// one is an Option. The bytes of addbsi are free and are no field.
#[derive(Clone, Copy, Debug, PartialEq, Eq)]
pub struct Head {
    /// The synchronisation word, 0x0B77 (A/52 5.4.1.1).
    pub syncword: u16,
    /// The first CRC word (A/52 5.4.1.2).
    pub crc1: u16,
    /// The rate of sampling: 0 for 48, 1 for 44.1, 2 for 32 kHz (A/52 5.4.1.3).
    pub fscod: u8,
    /// The size of the frame, at most 37 (A/52 5.4.1.4).
    pub frmsizecod: u8,
    /// The version of the syntax, 8 (A/52 5.4.2.1).
    pub bsid: u8,
    /// The kind of service, 3 bits (A/52 5.4.2.2).
    pub bsmod: u8,
    /// The full channels, from 1 to 7 (A/52 5.4.2.3).
    pub acmod: u8,
    /// The level of the center in a mix, 2 bits, where there is a center among three channels in front (A/52 5.4.2.4).
    pub cmixlev: Option<u8>,
    /// The level of the surround channels in a mix, 2 bits, where there are any (A/52 5.4.2.5).
    pub surmixlev: Option<u8>,
    /// Whether two channels are coded for surround, 2 bits, where there are two (A/52 5.4.2.6).
    pub dsurmod: Option<u8>,
    /// Whether there is a low-frequency channel, LFE (A/52 5.4.2.7).
    pub lfeon: bool,
    /// The level of dialogue, 5 bits (A/52 5.4.2.8).
    pub dialnorm: u8,
    /// Whether compr is there (A/52 5.4.2.9).
    pub compre: bool,
    /// The gain for a small range of loudness (A/52 5.4.2.10).
    pub compr: Option<u8>,
    /// Whether langcod is there (A/52 5.4.2.11).
    pub langcode: bool,
    /// The code of the language (A/52 5.4.2.12).
    pub langcod: Option<u8>,
    /// Whether mixlevel and roomtyp are there (A/52 5.4.2.13).
    pub audprodie: bool,
    /// The level of mixing, 5 bits (A/52 5.4.2.14).
    pub mixlevel: Option<u8>,
    /// The kind of room, 2 bits (A/52 5.4.2.15).
    pub roomtyp: Option<u8>,
    /// Whether the stream is under copyright (A/52 5.4.2.24).
    pub copyrightb: bool,
    /// Whether the stream is an original (A/52 5.4.2.25).
    pub origbs: bool,
    /// Whether timecod1 is there (A/52 5.4.2.26).
    pub timecod1e: bool,
    /// The first half of the time code, 14 bits (A/52 5.4.2.27).
    pub timecod1: Option<u16>,
    /// Whether timecod2 is there (A/52 5.4.2.26).
    pub timecod2e: bool,
    /// The second half of the time code, 14 bits (A/52 5.4.2.28).
    pub timecod2: Option<u16>,
    /// Whether addbsil and addbsi are there (A/52 5.4.2.29).
    pub addbsie: bool,
    /// One less than the number of bytes of addbsi, 6 bits (A/52 5.4.2.30).
    pub addbsil: Option<u8>,
}
