//! The coupling strategy.
ghost use Rattle.std.specs.Prelude.{◌≡◌, None};
ghost use Rattle.ac_rows.specs.Groups.{strategy_of};
ghost use Rattle.ac_sent.specs.Fields.{begin_code, end_code, sent_fields};

use crate::arrays::{flag, flags, later_flags, number};
use ac_rows::both;
use ac_rows::channels::stereo;
use ac_rows::groups::Strategy;
use ac_rows::known::subband_count;
use ac_sent::Quantised;

/// cplbegf, or 0 without coupling.
fn begin_code(couple: Option<(u8, u8)>) -> u8
    ensures { result ≡ begin_code couple }
{
    match couple {
        Some((begin, _)) => begin,
        None => 0,
    }
}

/// cplendf, or 0 without coupling.
fn end_code(couple: Option<(u8, u8)>) -> u8
    ensures { result ≡ end_code couple }
{
    match couple {
        Some((_, end)) => end,
        None => 0,
    }
}

/// The coupling strategy of the first block or of a later one (A/52 5.4.3.7 to 5.4.3.13). It is the same whatever the number of the
/// block and its padding are.
#[tactic(auto, unfolding(ac_sent::specs::Fields::sent_fields))]
pub fn strategy(q: &Quantised, first: bool) -> Strategy
    ensures { result ≡ strategy_of (sent_fields q.now first 0 None) }
{
    let full = usize::from(q.shape.full());
    let coupled = q.shape.couple.is_some();
    Strategy {
        cplstre: first,
        cplinu: flag(first, coupled),
        chincpl: flags(both(first, coupled), full, true),
        phsflginu: flag(both(both(first, coupled), stereo(q.shape.acmod)), false),
        cplbegf: number(both(first, coupled), begin_code(q.shape.couple)),
        cplendf: number(both(first, coupled), end_code(q.shape.couple)),
        cplbndstrc: later_flags(first, subband_count(q.shape.couple), false),
    }
}
