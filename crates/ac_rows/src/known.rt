//! What the rows of a block see of the blocks before it.
ghost use Rattle.std.specs.Prelude.{◌≡◌, ◌<◌, ◌-◌, [], Option, take, is_some};
ghost use Rattle.std.specs.List.{count_by};
ghost use Rattle.std.specs.Option.{option_or};
ghost use Rattle.ac_base.specs.Shape.{subbands};
ghost use Rattle.ac_rows.specs.Groups.{strategy_of};
ghost use Rattle.ac_rows.specs.Filled.{holds, entry, listed, over, range_of, is_coupled, bands_of, coupling_of};
ghost use Rattle.ac_rows.specs.Known.{known_of, after, bands_given, range_sent, end_sent};

use crate::block::Block;
use crate::groups::{Coupling, Known, Strategy};
use crate::optional::{both, holds, number};
use crate::reuse::channel_end;

/// Entry by entry, the first or else the second.
#[tactic(auto, unfolding(crate::specs::Filled::listed))]
fn over_channels(own: &[Option<bool>; 5], kept: &[Option<bool>; 5]) -> [Option<bool>; 5]
    ensures { result ≡ listed 5 0 (λ i. option_or (entry own.now i) (entry kept.now i)) }
{
    [
        own[0].or(kept[0]),
        own[1].or(kept[1]),
        own[2].or(kept[2]),
        own[3].or(kept[3]),
        own[4].or(kept[4]),
    ]
}

/// The same of subbands.
fn over_subbands(own: &[Option<bool>; 18], kept: &[Option<bool>; 18]) -> [Option<bool>; 18]
    ensures { result ≡ listed 18 0 (λ k. option_or (entry own.now k) (entry kept.now k)) }
{
    let mut all = [None; 18];
    for k in 0..18 {
        all[k] = own[k].or(kept[k]);
    }
    all
}

/// The coupling strategy that holds: row by row the first or else the second.
pub fn over(s: &Strategy, kept: &Strategy) -> Strategy
    ensures { result ≡ over s.now kept.now }
{
    Strategy {
        cplstre: s.cplstre,
        cplinu: s.cplinu.or(kept.cplinu),
        chincpl: over_channels(&s.chincpl, &kept.chincpl),
        phsflginu: s.phsflginu.or(kept.phsflginu),
        cplbegf: s.cplbegf.or(kept.cplbegf),
        cplendf: s.cplendf.or(kept.cplendf),
        cplbndstrc: over_subbands(&s.cplbndstrc, &kept.cplbndstrc),
    }
}

/// cplbegf and cplendf, where coupling is in use.
fn range_of(s: &Strategy) -> Option<(u8, u8)>
    ensures { result ≡ range_of s.now }
{
    if holds(s.cplinu) {
        Some((number(s.cplbegf), number(s.cplendf)))
    } else {
        None
    }
}

/// The subbands of a coupling.
pub fn subband_count(range: Option<(u8, u8)>) -> usize
    ensures { result ≡ subbands range }
{
    match range {
        Some((begin, end)) => (3 + usize::from(end)).saturating_sub(usize::from(begin)),
        None => 0,
    }
}

/// How many of the first subbands belong to the band of the one before.
fn joined_count(cplbndstrc: &[Option<bool>; 18], subbands: usize) -> usize
    ensures { result ≡ count_by holds (take subbands cplbndstrc.now) }
{
    let mut count = 0;
    for joined in &cplbndstrc[..subbands.min(18)] {
        if holds(*joined) {
            count += 1;
        }
    }
    count
}

/// The bands of the coupling channel.
fn band_count(s: &Strategy) -> usize
    ensures { result ≡ bands_of s.now }
{
    let subbands = subband_count(range_of(s));
    subbands.saturating_sub(joined_count(&s.cplbndstrc, subbands))
}

/// Whether full channel i is coupled.
fn is_coupled(s: &Strategy, i: usize) -> bool
    requires { i < 5 }
    ensures { result ≡ is_coupled s.now i }
{
    both(holds(s.cplinu), holds(s.chincpl[i]))
}

/// What the rows of a block see of its coupling.
#[tactic(auto, unfolding(crate::specs::Filled::listed))]
pub fn coupling_of(s: &Strategy) -> Coupling
    ensures { result ≡ coupling_of s.now }
{
    Coupling {
        range: range_of(s),
        coupled: [
            is_coupled(s, 0),
            is_coupled(s, 1),
            is_coupled(s, 2),
            is_coupled(s, 3),
            is_coupled(s, 4),
        ],
        phases: both(holds(s.cplinu), holds(s.phsflginu)),
        bands: band_count(s),
    }
}

/// The bands for which a block gives a channel coordinates.
fn bands_given(c: &Coupling, b: &Block, i: usize) -> Option<usize>
    requires { i < 5 }
    ensures { result ≡ bands_given c.now b.now i }
{
    if holds(b.cplcoe[i]) {
        Some(c.bands)
    } else {
        None
    }
}

/// The range for which a block sends exponents of the coupling channel.
fn range_sent(c: &Coupling, b: &Block) -> Option<(u8, u8)>
    ensures { result ≡ range_sent c.now b.now }
{
    if number(b.cplexpstr) == 0 {
        None
    } else {
        c.range
    }
}

/// The end up to which a block sends exponents of a full channel.
fn end_sent(c: &Coupling, b: &Block, i: usize) -> Option<usize>
    requires { i < 5 }
    ensures { result ≡ end_sent c.now b.now i }
{
    if b.chexpstr[i] == 0 {
        None
    } else {
        channel_end(c, i, b.chbwcod[i])
    }
}

/// The coupling strategy of a block.
pub fn strategy_of(b: &Block) -> Strategy
    ensures { result ≡ strategy_of b.now }
{
    Strategy {
        cplstre: b.cplstre,
        cplinu: b.cplinu,
        chincpl: b.chincpl,
        phsflginu: b.phsflginu,
        cplbegf: b.cplbegf,
        cplendf: b.cplendf,
        cplbndstrc: b.cplbndstrc,
    }
}

/// What is known one block later.
#[tactic(auto, unfolding(crate::specs::Filled::listed))]
fn after(k: &Known, b: &Block) -> Known
    ensures { result ≡ after k.now b.now }
{
    let s = over(&strategy_of(b), &k.strategy);
    let c = coupling_of(&s);
    Known {
        begun: true,
        strategy: Strategy {
            cplstre: false,
            ..s
        },
        coordinates: [
            bands_given(&c, b, 0).or(k.coordinates[0]),
            bands_given(&c, b, 1).or(k.coordinates[1]),
            bands_given(&c, b, 2).or(k.coordinates[2]),
            bands_given(&c, b, 3).or(k.coordinates[3]),
            bands_given(&c, b, 4).or(k.coordinates[4]),
        ],
        sent: range_sent(&c, b).or(k.sent),
        ends: [
            end_sent(&c, b, 0).or(k.ends[0]),
            end_sent(&c, b, 1).or(k.ends[1]),
            end_sent(&c, b, 2).or(k.ends[2]),
            end_sent(&c, b, 3).or(k.ends[3]),
            end_sent(&c, b, 4).or(k.ends[4]),
        ],
        widths: [
            b.chbwcod[0].or(k.widths[0]),
            b.chbwcod[1].or(k.widths[1]),
            b.chbwcod[2].or(k.widths[2]),
            b.chbwcod[3].or(k.widths[3]),
            b.chbwcod[4].or(k.widths[4]),
        ],
        low: k.low || holds(b.lfeexpstr),
        offset: k.offset || b.cplfsnroffst.is_some(),
        leaks: k.leaks || holds(b.cplleake),
    }
}

/// What is known before a frame's first block.
#[tactic(auto, unfolding(crate::specs::Known::known_of, crate::specs::Filled::listed, crate::specs::Filled::latest_in))]
fn nothing() -> Known
    ensures { result ≡ known_of [] }
{
    Known {
        begun: false,
        strategy: Strategy {
            cplstre: false,
            cplinu: None,
            chincpl: [None; 5],
            phsflginu: None,
            cplbegf: None,
            cplendf: None,
            cplbndstrc: [None; 18],
        },
        coordinates: [None; 5],
        sent: None,
        ends: [None; 5],
        widths: [None; 5],
        low: false,
        offset: false,
        leaks: false,
    }
}

/// What the rows of a block see of these blocks before it.
pub fn known(earlier: &[Block]) -> Known
    ensures { result ≡ known_of earlier.now }
{
    let mut known = nothing();
    for block in earlier {
        known = after(&known, block);
    }
    known
}
