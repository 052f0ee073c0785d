//! The parameters of the bit allocation, and the last fields before the mantissas.
ghost use Rattle.std.specs.Prelude.{◌≡◌, ◌<◌, ◌&&◌, ◌||◌, not, is_some};
ghost use Rattle.ac_codec.specs.Codec.{Gives};
ghost use Rattle.ac_rows.specs.BlockRows.{offset_each, parameters, offsets, leaks, allocation, rest};

use ac_bits::BitSource;
use ac_codec::read::{
    bit, bit_one_where, bit_zero_where, optional, optional_wide, optional_zero_where,
};
use ac_codec::{Refused, Row};
use ac_rows::groups::{Allocation, Coupling, Known, Rest};
use ac_rows::optional::{both, count_where, holds};

/// The fine offset and the fast gain of each full channel.
type Offsets = ([Option<u8>; 5], [Option<u8>; 5]);

#[tactic(auto, unfolding(ac_rows::specs::BlockRows::offset_each, ac_rows::specs::BlockRows::alternating, ac_codec::specs::Codec::fitted, ac_codec::specs::Codec::pair, ac_codec::specs::Codec::each, ac_codec::specs::Codec::cons, ac_codec::specs::Codec::absent))]
fn read_each(source: &mut BitSource, full: usize) -> Result<Offsets, Refused>
    ensures { Gives result source.new ((offset_each full).read source.old) }
{
    let offset_0 = optional(source, 0 < full, 4)?;
    let gain_0 = optional(source, 0 < full, 3)?;
    let offset_1 = optional(source, 1 < full, 4)?;
    let gain_1 = optional(source, 1 < full, 3)?;
    let offset_2 = optional(source, 2 < full, 4)?;
    let gain_2 = optional(source, 2 < full, 3)?;
    let offset_3 = optional(source, 3 < full, 4)?;
    let gain_3 = optional(source, 3 < full, 3)?;
    let offset_4 = optional(source, 4 < full, 4)?;
    let gain_4 = optional(source, 4 < full, 3)?;
    let offsets = [offset_0, offset_1, offset_2, offset_3, offset_4];
    Ok((offsets, [gain_0, gain_1, gain_2, gain_3, gain_4]))
}

/// Whether the offsets of the block before may be kept.
fn may_keep(known: &Known, c: &Coupling) -> bool
    ensures { result ≡ (known.now.begun && (not (is_some c.now.range) || known.now.offset)) }
{
    known.begun && (c.range.is_none() || known.offset)
}

/// The parameters of the bit allocation.
#[tactic(auto, unfolding(ac_rows::specs::BlockRows::allocation, ac_rows::specs::BlockRows::parameters, ac_rows::specs::BlockRows::offsets, ac_rows::specs::BlockRows::leaks, ac_codec::specs::Codec::pair, ac_codec::specs::Codec::shaped))]
pub fn read_allocation(
    source: &mut BitSource,
    full: u8,
    low: bool,
    known: &Known,
    c: &Coupling,
) -> Result<Allocation, Refused>
    ensures { Gives result source.new ((allocation full low known.now c.now).read source.old) }
{
    let baie = bit_zero_where(source, known.begun, Refused::NoReuse(Row::Baie))?;
    let sdcycod = optional(source, baie, 2)?;
    let fdcycod = optional(source, baie, 2)?;
    let sgaincod = optional(source, baie, 2)?;
    let dbpbcod = optional(source, baie, 2)?;
    let floorcod = optional(source, baie, 3)?;
    let may = may_keep(known, c);
    let snroffste = bit_zero_where(source, may, Refused::NoReuse(Row::Snroffste))?;
    let csnroffst = optional(source, snroffste, 6)?;
    let coupled = both(snroffste, c.range.is_some());
    let cplfsnroffst = optional(source, coupled, 4)?;
    let cplfgaincod = optional(source, coupled, 3)?;
    let (fsnroffst, fgaincod) = read_each(source, count_where(snroffste, usize::from(full)))?;
    let lfefsnroffst = optional(source, both(snroffste, low), 4)?;
    let lfefgaincod = optional(source, both(snroffste, low), 3)?;
    let new = Refused::NoReuse(Row::Cplleake);
    let cplleake = optional_zero_where(source, c.range.is_some(), known.leaks, new)?;
    let leaks = holds(cplleake);
    let cplfleak = optional(source, leaks, 3)?;
    let cplsleak = optional(source, leaks, 3)?;
    Ok(Allocation {
        baie,
        sdcycod,
        fdcycod,
        sgaincod,
        dbpbcod,
        floorcod,
        snroffste,
        csnroffst,
        cplfsnroffst,
        cplfgaincod,
        fsnroffst,
        fgaincod,
        lfefsnroffst,
        lfefgaincod,
        cplleake,
        cplfleak,
        cplsleak,
    })
}

/// deltbaie and skipl.
#[tactic(auto, unfolding(ac_rows::specs::BlockRows::rest, ac_codec::specs::Codec::pair, ac_codec::specs::Codec::shaped))]
pub fn read_rest(source: &mut BitSource) -> Result<Rest, Refused>
    ensures { Gives result source.new (rest.read source.old) }
{
    let deltbaie = bit_one_where(source, false, Refused::Delta)?;
    let skiple = bit(source)?;
    let skipl = optional_wide(source, skiple, 9)?;
    Ok(Rest {
        deltbaie,
        skiple,
        skipl,
    })
}
