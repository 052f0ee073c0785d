//! The coupling strategy.
ghost use Rattle.std.specs.Prelude.{◌≡◌, false};
ghost use Rattle.ac_codec.specs.Codec.{Gives, field, given};
ghost use Rattle.ac_rows.specs.BlockRows.{coupled_each, joined_each, no_less, sent_subbands, strategy};

use ac_bits::BitSource;
use ac_codec::read::{
    bit_zero_where, bits, optional, optional_bit, optional_one_where, optional_zero_where,
};
use ac_codec::{Refused, Row};
use ac_rows::groups::Strategy;
use ac_rows::optional::{both, either, holds, number};

/// chincpl of each channel: one at least is 1.
#[tactic(auto, unfolding(ac_rows::specs::BlockRows::coupled_each, ac_codec::specs::Codec::cons_then, ac_codec::specs::Codec::absent))]
fn read_coupled(source: &mut BitSource, sent: bool, full: u8) -> Result<[Option<bool>; 5], Refused>
    ensures { Gives result source.new ((coupled_each 5 0 sent full false).read source.old) }
{
    let none = Refused::Reserved(Row::Chincpl);
    let first = optional_zero_where(source, both(sent, 0 < full), either(1 < full, false), none)?;
    let seen = either(false, holds(first));
    let second = optional_zero_where(source, both(sent, 1 < full), either(2 < full, seen), none)?;
    let seen = either(seen, holds(second));
    let third = optional_zero_where(source, both(sent, 2 < full), either(3 < full, seen), none)?;
    let seen = either(seen, holds(third));
    let fourth = optional_zero_where(source, both(sent, 3 < full), either(4 < full, seen), none)?;
    let seen = either(seen, holds(fourth));
    let fifth = optional_zero_where(source, both(sent, 4 < full), either(5 < full, seen), none)?;
    Ok([first, second, third, fourth, fifth])
}

/// cplendf, which leaves a subband.
fn read_last(source: &mut BitSource, cplbegf: u8) -> Result<u8, Refused>
    ensures { Gives result source.new ((field 4 (no_less cplbegf)).read source.old) }
{
    let before = source.copy();
    match source.take(4) {
        Ok(v) if v + 2 >= u32::from(cplbegf) => Ok(v as u8),
        Ok(_) => {
            *source = before;
            Err(Refused::Reserved(Row::Cplendf))
        }
        Err(_) => Err(Refused::OutOfBits),
    }
}

#[tactic(auto, unfolding(ac_codec::specs::Codec::given))]
fn read_optional_last(
    source: &mut BitSource,
    there: bool,
    cplbegf: u8,
) -> Result<Option<u8>, Refused>
    ensures { Gives result source.new ((given there (field 4 (no_less cplbegf))).read source.old) }
{
    if there {
        Ok(Some(read_last(source, cplbegf)?))
    } else {
        Ok(None)
    }
}

/// The number of subbands of a strategy that is sent.
fn subbands(sent: bool, cplbegf: Option<u8>, cplendf: Option<u8>) -> usize
    ensures { result ≡ sent_subbands sent cplbegf cplendf }
{
    if sent {
        (3 + usize::from(number(cplendf))).saturating_sub(usize::from(number(cplbegf)))
    } else {
        0
    }
}

/// cplbndstrc of each subband but the first.
#[tactic(auto, unfolding(ac_rows::specs::BlockRows::joined_each))]
fn read_joined(source: &mut BitSource, subbands: usize) -> Result<[Option<bool>; 18], Refused>
    ensures { Gives result source.new ((joined_each subbands).read source.old) }
{
    bits(source, 1, subbands)
}

/// The fields of the coupling strategy.
#[tactic(auto, unfolding(ac_rows::specs::BlockRows::strategy, ac_codec::specs::Codec::pair, ac_codec::specs::Codec::shaped))]
pub fn read_strategy(
    source: &mut BitSource,
    full: u8,
    stereo: bool,
    begun: bool,
) -> Result<Strategy, Refused>
    ensures { Gives result source.new ((strategy full stereo begun).read source.old) }
{
    let cplstre = bit_zero_where(source, begun, Refused::NoReuse(Row::Cplstre))?;
    let cplinu = optional_one_where(source, cplstre, 1 < full, Refused::Reserved(Row::Cplinu))?;
    let sent = holds(cplinu);
    let chincpl = read_coupled(source, sent, full)?;
    let phsflginu = optional_bit(source, both(sent, stereo))?;
    let cplbegf = optional(source, sent, 4)?;
    let cplendf = read_optional_last(source, sent, number(cplbegf))?;
    let cplbndstrc = read_joined(source, subbands(sent, cplbegf, cplendf))?;
    Ok(Strategy {
        cplstre,
        cplinu,
        chincpl,
        phsflginu,
        cplbegf,
        cplendf,
        cplbndstrc,
    })
}
