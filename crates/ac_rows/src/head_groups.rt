//! The fields of a head in groups, as they follow one another.

/// The fields up to the level of dialogue (A/52 5.4.1, 5.4.2.1 to 5.4.2.8).
#[derive(Clone, Copy)]
pub struct Layout {
    pub syncword: u16,
    pub crc1: u16,
    pub fscod: u8,
    pub frmsizecod: u8,
    pub bsid: u8,
    pub bsmod: u8,
    pub acmod: u8,
    pub cmixlev: Option<u8>,
    pub surmixlev: Option<u8>,
    pub dsurmod: Option<u8>,
    pub lfeon: bool,
    pub dialnorm: u8,
}

/// The fields behind it, of which no decoding depends (A/52 5.4.2.9 to 5.4.2.30).
#[derive(Clone, Copy)]
pub struct Service {
    pub compre: bool,
    pub compr: Option<u8>,
    pub langcode: bool,
    pub langcod: Option<u8>,
    pub audprodie: bool,
    pub mixlevel: Option<u8>,
    pub roomtyp: Option<u8>,
    pub copyrightb: bool,
    pub origbs: bool,
    pub timecod1e: bool,
    pub timecod1: Option<u16>,
    pub timecod2e: bool,
    pub timecod2: Option<u16>,
    pub addbsie: bool,
    pub addbsil: Option<u8>,
}
