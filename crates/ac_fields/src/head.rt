//! The head of a frame.
ghost use Rattle.std.specs.Prelude.{◌≡◌};
ghost use Rattle.ac_sent.specs.Fields.{sent_head};

use crate::arrays::number;
use ac_base::Shape;
use ac_rows::Head;
use ac_rows::channels::{center, stereo, surround};

/// The head of a frame of this shape, with this frmsizecod and this crc1 (A/52 5.3.1, 5.3.2).
pub fn frame_head(shape: &Shape, frmsizecod: u8, crc1: u16) -> Head
    ensures value { result ≡ sent_head shape.now frmsizecod crc1 }
{
    Head {
        syncword: 0x0B77,
        crc1,
        fscod: shape.fscod,
        frmsizecod,
        bsid: 8,
        bsmod: 0,
        acmod: shape.acmod,
        cmixlev: number(center(shape.acmod), 0),
        surmixlev: number(surround(shape.acmod), 0),
        dsurmod: number(stereo(shape.acmod), 0),
        lfeon: shape.lfe,
        dialnorm: 31,
        compre: false,
        compr: None,
        langcode: false,
        langcod: None,
        audprodie: false,
        mixlevel: None,
        roomtyp: None,
        copyrightb: false,
        origbs: true,
        timecod1e: false,
        timecod1: None,
        timecod2e: false,
        timecod2: None,
        addbsie: false,
        addbsil: None,
    }
}
