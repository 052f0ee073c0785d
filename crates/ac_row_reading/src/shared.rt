//! Coupling coordinates and phase flags.
ghost use Rattle.std.specs.Prelude.{◌<◌};
ghost use Rattle.ac_codec.specs.Codec.{Gives};
ghost use Rattle.ac_rows.specs.Filled.{channel_coupled};
ghost use Rattle.ac_rows.specs.Known.{may_keep_coordinates};
ghost use Rattle.ac_rows.specs.BlockRows.{coordinate_each, channel_shared, phase_each, shared};

use ac_bits::BitSource;
use ac_codec::read::{bits, optional, optional_zero_where};
use ac_codec::{Refused, Row};
use ac_rows::groups::{ChannelShared, Coupling, Known, Shared};
use ac_rows::optional::{both, count_where, either, holds};
use ac_rows::reuse::may_keep_coordinates;

/// cplcoexp and cplcomant of each band.
fn read_pairs(
    source: &mut BitSource,
    bands: usize,
) -> Result<([Option<u8>; 18], [Option<u8>; 18]), Refused>
    ensures { Gives result source.new ((coordinate_each bands).read source.old) }
{
    let mut exps = [None; 18];
    let mut mants = [None; 18];
    for k in 0..18 {
        exps[k] = optional(source, k < bands, 4)?;
        mants[k] = optional(source, k < bands, 4)?;
    }
    Ok((exps, mants))
}

/// The coordinates of a channel.
#[tactic(auto, unfolding(ac_rows::specs::BlockRows::channel_shared, ac_codec::specs::Codec::pair, ac_codec::specs::Codec::shaped))]
fn read_channel(
    source: &mut BitSource,
    coupled: bool,
    may: bool,
    bands: usize,
) -> Result<ChannelShared, Refused>
    ensures { Gives result source.new ((channel_shared coupled may bands).read source.old) }
{
    let cplcoe = optional_zero_where(source, coupled, may, Refused::NoReuse(Row::Cplcoe))?;
    let sent = holds(cplcoe);
    let mstrcplco = optional(source, sent, 2)?;
    let (cplcoexp, cplcomant) = read_pairs(source, count_where(sent, bands))?;
    Ok(ChannelShared {
        cplcoe,
        mstrcplco,
        cplcoexp,
        cplcomant,
    })
}

/// The coordinates of full channel i.
fn read_own(
    source: &mut BitSource,
    known: &Known,
    c: &Coupling,
    i: usize,
) -> Result<ChannelShared, Refused>
    requires { i < 5 }
    ensures { Gives result source.new ((channel_shared (channel_coupled c.now i)
        (may_keep_coordinates known.now c.now i) c.now.bands).read source.old) }
{
    let may = may_keep_coordinates(known, c, i);
    read_channel(source, c.coupled[i], may, c.bands)
}

/// The phase flag of each band.
#[tactic(auto, unfolding(ac_rows::specs::BlockRows::phase_each))]
fn read_phases(source: &mut BitSource, bands: usize) -> Result<[Option<bool>; 18], Refused>
    ensures { Gives result source.new ((phase_each bands).read source.old) }
{
    bits(source, 0, bands)
}

/// The coordinates of all channels, and the phase flags.
#[tactic(auto, unfolding(ac_rows::specs::BlockRows::shared, ac_rows::specs::BlockRows::shared_each, ac_codec::specs::Codec::pair, ac_codec::specs::Codec::fitted, ac_codec::specs::Codec::each, ac_codec::specs::Codec::cons, ac_codec::specs::Codec::absent))]
pub fn read_shared(source: &mut BitSource, known: &Known, c: &Coupling) -> Result<Shared, Refused>
    ensures { Gives result source.new ((shared known.now c.now).read source.old) }
{
    let ChannelShared {
        cplcoe: coe_0,
        mstrcplco: master_0,
        cplcoexp: exps_0,
        cplcomant: mants_0,
    } = read_own(source, known, c, 0)?;
    let ChannelShared {
        cplcoe: coe_1,
        mstrcplco: master_1,
        cplcoexp: exps_1,
        cplcomant: mants_1,
    } = read_own(source, known, c, 1)?;
    let ChannelShared {
        cplcoe: coe_2,
        mstrcplco: master_2,
        cplcoexp: exps_2,
        cplcomant: mants_2,
    } = read_own(source, known, c, 2)?;
    let ChannelShared {
        cplcoe: coe_3,
        mstrcplco: master_3,
        cplcoexp: exps_3,
        cplcomant: mants_3,
    } = read_own(source, known, c, 3)?;
    let ChannelShared {
        cplcoe: coe_4,
        mstrcplco: master_4,
        cplcoexp: exps_4,
        cplcomant: mants_4,
    } = read_own(source, known, c, 4)?;
    let later = either(holds(coe_3), either(holds(coe_4), false));
    let some = either(
        holds(coe_0),
        either(holds(coe_1), either(holds(coe_2), later)),
    );
    let phsflg = read_phases(source, count_where(both(c.phases, some), c.bands))?;
    Ok(Shared {
        cplcoe: [coe_0, coe_1, coe_2, coe_3, coe_4],
        mstrcplco: [master_0, master_1, master_2, master_3, master_4],
        cplcoexp: [exps_0, exps_1, exps_2, exps_3, exps_4],
        cplcomant: [mants_0, mants_1, mants_2, mants_3, mants_4],
        phsflg,
    })
}
