//! Reading a head.
ghost use Rattle.std.specs.Prelude.{IfOk, IfErr};
ghost use Rattle.ac_codec.specs.Meaning.{HasRead, ReadsEach, RefusesEach};
ghost use Rattle.ac_codec.specs.Codec.{Codec, Gives, GivesPart, field};
ghost use Rattle.ac_rows.specs.HeadRows.{sync_only, eight_only, no_dual, layout, service, head_fields, whole_head};

use ac_bits::BitSource;
use ac_codec::read::{bit, limited, optional, optional_wide, pass, small, wide};
use ac_codec::{Refused, Row};
use ac_rows::Head;
use ac_rows::channels::{center, stereo, surround};
use ac_rows::free_bits::extra;
use ac_rows::head_groups::{Layout, Service};

/// The synchronisation word.
fn sync(source: &mut BitSource) -> Result<u16, Refused>
    ensures { Gives result source.new ((field 16 sync_only).read source.old) }
{
    let before = source.copy();
    match source.take(16) {
        Ok(0x0B77) => Ok(0x0B77),
        Ok(_) => {
            *source = before;
            Err(Refused::BadSync)
        }
        Err(_) => Err(Refused::OutOfBits),
    }
}

/// The version of the syntax.
fn version(source: &mut BitSource) -> Result<u8, Refused>
    ensures { Gives result source.new ((field 5 eight_only).read source.old) }
{
    let before = source.copy();
    match source.take(5) {
        Ok(8) => Ok(8),
        Ok(v) => {
            *source = before;
            Err(Refused::BadBsid(v as u8))
        }
        Err(_) => Err(Refused::OutOfBits),
    }
}

/// The full channels.
fn mode(source: &mut BitSource) -> Result<u8, Refused>
    ensures { Gives result source.new ((field 3 no_dual).read source.old) }
{
    let before = source.copy();
    match source.take(3) {
        Ok(0) => {
            *source = before;
            Err(Refused::DualMono)
        }
        Ok(v) => Ok(v as u8),
        Err(_) => Err(Refused::OutOfBits),
    }
}

#[tactic(auto, unfolding(ac_rows::specs::HeadRows::layout, ac_rows::specs::HeadRows::layout_rows, ac_codec::specs::Codec::pair, ac_codec::specs::Codec::shaped))]
fn read_layout(source: &mut BitSource) -> Result<Layout, Refused>
    ensures { Gives result source.new (layout.read source.old) }
{
    let syncword = sync(source)?;
    let crc1 = wide(source, 16)?;
    let fscod = limited(source, 2, 3, Row::Fscod)?;
    let frmsizecod = limited(source, 6, 38, Row::Frmsizecod)?;
    let bsid = version(source)?;
    let bsmod = small(source, 3)?;
    let acmod = mode(source)?;
    let cmixlev = optional(source, center(acmod), 2)?;
    let surmixlev = optional(source, surround(acmod), 2)?;
    let dsurmod = optional(source, stereo(acmod), 2)?;
    let lfeon = bit(source)?;
    let dialnorm = small(source, 5)?;
    Ok(Layout {
        syncword,
        crc1,
        fscod,
        frmsizecod,
        bsid,
        bsmod,
        acmod,
        cmixlev,
        surmixlev,
        dsurmod,
        lfeon,
        dialnorm,
    })
}

#[tactic(auto, unfolding(ac_rows::specs::HeadRows::service, ac_rows::specs::HeadRows::service_rows, ac_codec::specs::Codec::pair, ac_codec::specs::Codec::shaped))]
fn read_service(source: &mut BitSource) -> Result<Service, Refused>
    ensures { Gives result source.new (service.read source.old) }
{
    let compre = bit(source)?;
    let compr = optional(source, compre, 8)?;
    let langcode = bit(source)?;
    let langcod = optional(source, langcode, 8)?;
    let audprodie = bit(source)?;
    let mixlevel = optional(source, audprodie, 5)?;
    let roomtyp = optional(source, audprodie, 2)?;
    let copyrightb = bit(source)?;
    let origbs = bit(source)?;
    let timecod1e = bit(source)?;
    let timecod1 = optional_wide(source, timecod1e, 14)?;
    let timecod2e = bit(source)?;
    let timecod2 = optional_wide(source, timecod2e, 14)?;
    let addbsie = bit(source)?;
    let addbsil = optional(source, addbsie, 6)?;
    Ok(Service {
        compre,
        compr,
        langcode,
        langcod,
        audprodie,
        mixlevel,
        roomtyp,
        copyrightb,
        origbs,
        timecod1e,
        timecod1,
        timecod2e,
        timecod2,
        addbsie,
        addbsil,
    })
}

#[tactic(auto, unfolding(ac_rows::specs::HeadRows::head_fields, ac_codec::specs::Codec::pair, ac_codec::specs::Codec::shaped))]
fn read_fields(source: &mut BitSource) -> Result<Head, Refused>
    ensures { Gives result source.new (head_fields.read source.old) }
{
    let a = read_layout(source)?;
    let b = read_service(source)?;
    Ok(Head {
        syncword: a.syncword,
        crc1: a.crc1,
        fscod: a.fscod,
        frmsizecod: a.frmsizecod,
        bsid: a.bsid,
        bsmod: a.bsmod,
        acmod: a.acmod,
        cmixlev: a.cmixlev,
        surmixlev: a.surmixlev,
        dsurmod: a.dsurmod,
        lfeon: a.lfeon,
        dialnorm: a.dialnorm,
        compre: b.compre,
        compr: b.compr,
        langcode: b.langcode,
        langcod: b.langcod,
        audprodie: b.audprodie,
        mixlevel: b.mixlevel,
        roomtyp: b.roomtyp,
        copyrightb: b.copyrightb,
        origbs: b.origbs,
        timecod1e: b.timecod1e,
        timecod1: b.timecod1,
        timecod2e: b.timecod2e,
        timecod2: b.timecod2,
        addbsie: b.addbsie,
        addbsil: b.addbsil,
    })
}

#[tactic(auto, unfolding(ac_rows::specs::HeadRows::whole_head, ac_codec::specs::Codec::pair))]
fn read_whole(source: &mut BitSource) -> Result<Head, Refused>
    ensures { GivesPart (λ x. x.0) result source.new (whole_head.read source.old) }
{
    let head = read_fields(source)?;
    pass(source, extra(head.addbsil))?;
    Ok(head)
}

/// The fields of a frame before block 0 (A/52 5.3.1, 5.3.2); the bytes of addbsi are passed over.
///
/// # Errors
///
/// The refusal of the first field, in the order of the bits, that no lawful head has there. The source then stands where
/// that field began.
pub fn read_head(source: &mut BitSource) -> Result<Head, Refused>
    ensures value { IfOk result (λ a. HasRead whole_head source.old source.new a) }
    ensures complete { ReadsEach whole_head source.old source.new result }
    ensures cause { IfErr result (λ e. whole_head.Refuses source.old e source.new) }
    ensures refused { RefusesEach whole_head source.old source.new result }
{
    read_whole(source)
}
