//! A block with each value that it lacks and needs (A/52 5.4.3).
ghost use Rattle.std.specs.Prelude.{◌≡◌, ◌<◌, ◌≤◌, ◌&&◌, nat_lt, nat_le, is_some, if◌then◌else◌, [], Option, Some, None};
ghost use Rattle.std.specs.Prelude.{slice_index_or};
ghost use Rattle.std.specs.Option.{option_or};
ghost use Rattle.ac_base.specs.Shape.{full_of, is_stereo, subbands, rematrix_bands};
ghost use Rattle.ac_rows.specs.Groups.{strategy_of};
ghost use Rattle.ac_rows.specs.Filled.{entry, holds, listed, channel_coupled, coupling_of, over, filled_of};
ghost use Rattle.ac_syntax.specs.Filling.{or_if, filled_by};

use crate::latest::latest;
use ac_base::rematrix_bands;
use ac_expo::Spelled;
use ac_rows::known::{strategy_of, subband_count};
use ac_rows::{Block, Coupling, Head, both, coupling_of, full_channels, holds, over, stereo};

/// Whether a place is below an end.
#[inline]
fn below(i: usize, end: usize) -> bool
    ensures { result ≡ nat_lt i end }
{
    i < end
}

/// Its own value, or else the one kept where it is needed.
#[inline]
fn needed_flag(there: bool, own: Option<bool>, kept: Option<bool>) -> Option<bool>
    ensures { result ≡ or_if there own kept }
{
    if there { own.or(kept) } else { own }
}

/// Its own value, or else the one kept where it is needed.
#[inline]
fn needed_number(there: bool, own: Option<u8>, kept: Option<u8>) -> Option<u8>
    ensures { result ≡ or_if there own kept }
{
    if there { own.or(kept) } else { own }
}

/// Its own value, or else the one kept where it is needed.
#[inline]
fn needed_list(there: bool, own: Option<Spelled>, kept: Option<Spelled>) -> Option<Spelled>
    ensures { result ≡ or_if there own kept }
{
    if there { own.or(kept) } else { own }
}

/// Of each full channel, its own number or else the one kept.
#[tactic(auto, unfolding(ac_rows::specs::Filled::listed))]
fn full_numbers(h: &Head, own: &[Option<u8>; 5], kept: &[Option<u8>; 5]) -> [Option<u8>; 5]
    requires { h.now.acmod ≤ 7 }
    ensures { result ≡ listed 5 0 (λ i. or_if (nat_lt i (full_of h.now.acmod)) (entry own.now i) (entry kept.now i)) }
{
    let full = usize::from(full_channels(h.acmod));
    [
        needed_number(below(0, full), own[0], kept[0]),
        needed_number(below(1, full), own[1], kept[1]),
        needed_number(below(2, full), own[2], kept[2]),
        needed_number(below(3, full), own[3], kept[3]),
        needed_number(below(4, full), own[4], kept[4]),
    ]
}

/// The same of exponents.
#[tactic(auto, unfolding(ac_rows::specs::Filled::listed))]
fn full_lists(
    h: &Head,
    own: &[Option<Spelled>; 5],
    kept: &[Option<Spelled>; 5],
) -> [Option<Spelled>; 5]
    requires { h.now.acmod ≤ 7 }
    ensures { result ≡ listed 5 0 (λ i. or_if (nat_lt i (full_of h.now.acmod)) (entry own.now i) (entry kept.now i)) }
{
    let full = usize::from(full_channels(h.acmod));
    [
        needed_list(below(0, full), own[0], kept[0]),
        needed_list(below(1, full), own[1], kept[1]),
        needed_list(below(2, full), own[2], kept[2]),
        needed_list(below(3, full), own[3], kept[3]),
        needed_list(below(4, full), own[4], kept[4]),
    ]
}

/// The same of flags, where coupling is in use.
#[tactic(auto, unfolding(ac_rows::specs::Filled::listed))]
fn coupled_flags(
    h: &Head,
    c: &Coupling,
    own: &[Option<bool>; 5],
    kept: &[Option<bool>; 5],
) -> [Option<bool>; 5]
    requires { h.now.acmod ≤ 7 }
    ensures { result ≡ listed 5 0 (λ i. or_if (is_some c.now.range
        && nat_lt i (full_of h.now.acmod)) (entry own.now i) (entry kept.now i)) }
{
    let full = usize::from(full_channels(h.acmod));
    let used = is_used(c);
    [
        needed_flag(both(used, below(0, full)), own[0], kept[0]),
        needed_flag(both(used, below(1, full)), own[1], kept[1]),
        needed_flag(both(used, below(2, full)), own[2], kept[2]),
        needed_flag(both(used, below(3, full)), own[3], kept[3]),
        needed_flag(both(used, below(4, full)), own[4], kept[4]),
    ]
}

/// Of each coupled channel, its own number or else the one kept.
#[tactic(auto, unfolding(ac_rows::specs::Filled::listed))]
fn coupled_numbers(c: &Coupling, own: &[Option<u8>; 5], kept: &[Option<u8>; 5]) -> [Option<u8>; 5]
    ensures { result ≡ listed 5 0 (λ i. or_if (channel_coupled c.now i) (entry own.now i) (entry kept.now i)) }
{
    [
        needed_number(c.coupled[0], own[0], kept[0]),
        needed_number(c.coupled[1], own[1], kept[1]),
        needed_number(c.coupled[2], own[2], kept[2]),
        needed_number(c.coupled[3], own[3], kept[3]),
        needed_number(c.coupled[4], own[4], kept[4]),
    ]
}

/// The bandwidth of a channel that isn't coupled.
#[inline]
fn needed_width(coupled: bool, there: bool, own: Option<u8>, kept: Option<u8>) -> Option<u8>
    ensures { result ≡ if coupled then None else or_if there own kept }
{
    if coupled {
        None
    } else {
        needed_number(there, own, kept)
    }
}

/// The bandwidth of each full channel that isn't coupled.
#[tactic(auto, unfolding(ac_rows::specs::Filled::listed))]
fn widths(h: &Head, c: &Coupling, own: &[Option<u8>; 5], kept: &[Option<u8>; 5]) -> [Option<u8>; 5]
    requires { h.now.acmod ≤ 7 }
    ensures { result ≡ listed 5 0 (λ i. if channel_coupled c.now i
        then None else or_if (nat_lt i (full_of h.now.acmod)) (entry own.now i) (entry kept.now i)) }
{
    let full = usize::from(full_channels(h.acmod));
    [
        needed_width(c.coupled[0], below(0, full), own[0], kept[0]),
        needed_width(c.coupled[1], below(1, full), own[1], kept[1]),
        needed_width(c.coupled[2], below(2, full), own[2], kept[2]),
        needed_width(c.coupled[3], below(3, full), own[3], kept[3]),
        needed_width(c.coupled[4], below(4, full), own[4], kept[4]),
    ]
}

/// Which subbands belong to the band of the one before, for the subbands that there are.
fn structure_of(
    count: usize,
    own: &[Option<bool>; 18],
    kept: &[Option<bool>; 18],
) -> [Option<bool>; 18]
    ensures { result ≡ listed 18 0 (λ j. or_if (nat_le 1 j && nat_lt j count) (entry own.now j) (entry kept.now j)) }
{
    let mut all = [None; 18];
    for j in 0..18 {
        all[j] = needed_flag(both(below(0, j), below(j, count)), own[j], kept[j]);
    }
    all
}

/// The coordinates of a channel, for the bands that there are.
fn channel_bands(
    coupled: bool,
    bands: usize,
    own: &[Option<u8>; 18],
    kept: &[Option<u8>; 18],
) -> [Option<u8>; 18]
    ensures { result ≡ listed 18 0 (λ j. or_if (coupled && nat_lt j bands) (entry own.now j) (entry kept.now j)) }
{
    let mut all = [None; 18];
    for j in 0..18 {
        all[j] = needed_number(both(coupled, below(j, bands)), own[j], kept[j]);
    }
    all
}

/// The coordinates of each channel.
#[tactic(auto, unfolding(ac_rows::specs::Filled::listed))]
fn coordinates(
    c: &Coupling,
    own: &[[Option<u8>; 18]; 5],
    kept: &[[Option<u8>; 18]; 5],
) -> [[Option<u8>; 18]; 5]
    ensures { result ≡ listed 5 0 (λ i. listed 18 0 (λ j. or_if (channel_coupled c.now i && nat_lt j c.now.bands)
        (entry (slice_index_or own.now i []) j) (entry (slice_index_or kept.now i []) j))) }
{
    [
        channel_bands(c.coupled[0], c.bands, &own[0], &kept[0]),
        channel_bands(c.coupled[1], c.bands, &own[1], &kept[1]),
        channel_bands(c.coupled[2], c.bands, &own[2], &kept[2]),
        channel_bands(c.coupled[3], c.bands, &own[3], &kept[3]),
        channel_bands(c.coupled[4], c.bands, &own[4], &kept[4]),
    ]
}

/// A phase flag, which is 0 where phase flags aren't in use or none was sent.
#[inline]
fn phase(there: bool, phases: bool, own: Option<bool>, kept: Option<bool>) -> Option<bool>
    ensures { result ≡ if there then Some (phases && holds (option_or own kept)) else None }
{
    if there {
        Some(both(phases, holds(own.or(kept))))
    } else {
        None
    }
}

/// The phase flags, where there are two channels.
fn phase_flags_where(
    two: bool,
    c: &Coupling,
    own: &[Option<bool>; 18],
    kept: &[Option<bool>; 18],
) -> [Option<bool>; 18]
    ensures { result ≡ listed 18 0 (λ j. if two && nat_lt j c.now.bands
        then Some (c.now.phases && holds (option_or (entry own.now j) (entry kept.now j))) else None) }
{
    let mut all = [None; 18];
    for j in 0..18 {
        all[j] = phase(both(two, below(j, c.bands)), c.phases, own[j], kept[j]);
    }
    all
}

/// A rematrix flag, which is 0 where none was sent.
#[inline]
fn rematrix(there: bool, own: Option<bool>, kept: Option<bool>) -> Option<bool>
    ensures { result ≡ if there then Some (holds (option_or own kept)) else None }
{
    if there {
        Some(holds(own.or(kept)))
    } else {
        None
    }
}

/// The rematrix flags of two channels.
#[tactic(auto, unfolding(ac_rows::specs::Filled::listed))]
fn rematrix_flags(
    h: &Head,
    c: &Coupling,
    own: &[Option<bool>; 4],
    kept: &[Option<bool>; 4],
) -> [Option<bool>; 4]
    ensures { result ≡ listed 4 0 (λ j. if is_stereo h.now.acmod && nat_lt j (rematrix_bands c.now.range)
        then Some (holds (option_or (entry own.now j) (entry kept.now j))) else None) }
{
    let count = usize::from(rematrix_bands(c.range));
    let two = stereo(h.acmod);
    [
        rematrix(both(two, below(0, count)), own[0], kept[0]),
        rematrix(both(two, below(1, count)), own[1], kept[1]),
        rematrix(both(two, below(2, count)), own[2], kept[2]),
        rematrix(both(two, below(3, count)), own[3], kept[3]),
    ]
}

/// The phase flags of two channels.
fn phase_flags(
    h: &Head,
    c: &Coupling,
    own: &[Option<bool>; 18],
    kept: &[Option<bool>; 18],
) -> [Option<bool>; 18]
    ensures { result ≡ listed 18 0 (λ j. if is_stereo h.now.acmod && nat_lt j c.now.bands
        then Some (c.now.phases && holds (option_or (entry own.now j) (entry kept.now j))) else None) }
{
    phase_flags_where(stereo(h.acmod), c, own, kept)
}

/// Which subbands belong to the band of the one before.
fn structure(
    c: &Coupling,
    own: &[Option<bool>; 18],
    kept: &[Option<bool>; 18],
) -> [Option<bool>; 18]
    ensures { result ≡ listed 18 0 (λ j. or_if (nat_le 1 j && nat_lt j (subbands c.now.range)) (entry own.now j) (entry kept.now j)) }
{
    structure_of(subband_count(c.range), own, kept)
}

/// Whether coupling is in use.
#[inline]
fn is_used(c: &Coupling) -> bool
    ensures { result ≡ is_some c.now.range }
{
    c.range.is_some()
}

/// The block with this coupling, filled by what was kept.
fn filled_by(h: &Head, c: &Coupling, k: &Block, b: &Block) -> Block
    requires { h.now.acmod ≤ 7 }
    ensures { result ≡ filled_by h.now c.now k.now b.now }
{
    let two = stereo(h.acmod);
    let used = is_used(c);
    let mut all = *b;
    all.cplinu = b.cplinu.or(k.cplinu);
    all.chincpl = coupled_flags(h, c, &b.chincpl, &k.chincpl);
    all.phsflginu = needed_flag(both(used, two), b.phsflginu, k.phsflginu);
    all.cplbegf = needed_number(used, b.cplbegf, k.cplbegf);
    all.cplendf = needed_number(used, b.cplendf, k.cplendf);
    all.cplbndstrc = structure(c, &b.cplbndstrc, &k.cplbndstrc);
    all.mstrcplco = coupled_numbers(c, &b.mstrcplco, &k.mstrcplco);
    all.cplcoexp = coordinates(c, &b.cplcoexp, &k.cplcoexp);
    all.cplcomant = coordinates(c, &b.cplcomant, &k.cplcomant);
    all.phsflg = phase_flags(h, c, &b.phsflg, &k.phsflg);
    all.rematflg = rematrix_flags(h, c, &b.rematflg, &k.rematflg);
    all.chbwcod = widths(h, c, &b.chbwcod, &k.chbwcod);
    all.cplabsexp = needed_list(used, b.cplabsexp, k.cplabsexp);
    all.exps = full_lists(h, &b.exps, &k.exps);
    all.lfeexps = needed_list(h.lfeon, b.lfeexps, k.lfeexps);
    all.sdcycod = b.sdcycod.or(k.sdcycod);
    all.fdcycod = b.fdcycod.or(k.fdcycod);
    all.sgaincod = b.sgaincod.or(k.sgaincod);
    all.dbpbcod = b.dbpbcod.or(k.dbpbcod);
    all.floorcod = b.floorcod.or(k.floorcod);
    all.csnroffst = b.csnroffst.or(k.csnroffst);
    all.cplfsnroffst = needed_number(used, b.cplfsnroffst, k.cplfsnroffst);
    all.cplfgaincod = needed_number(used, b.cplfgaincod, k.cplfgaincod);
    all.fsnroffst = full_numbers(h, &b.fsnroffst, &k.fsnroffst);
    all.fgaincod = full_numbers(h, &b.fgaincod, &k.fgaincod);
    all.lfefsnroffst = needed_number(h.lfeon, b.lfefsnroffst, k.lfefsnroffst);
    all.lfefgaincod = needed_number(h.lfeon, b.lfefgaincod, k.lfefgaincod);
    all.cplfleak = needed_number(used, b.cplfleak, k.cplfleak);
    all.cplsleak = needed_number(used, b.cplsleak, k.cplsleak);
    all
}

/// The coupling that holds in a block.
fn coupling_in(kept: &Block, block: &Block) -> Coupling
    ensures { result ≡ coupling_of (over (strategy_of block.now) (strategy_of kept.now)) }
{
    coupling_of(&over(&strategy_of(block), &strategy_of(kept)))
}

/// The block with each value that it lacks and needs: that of the last of the earlier blocks of its frame that has it, in
/// their order; a phase flag or a rematrix flag that none has sent is 0 (A/52 5.4.3).
///
/// The head is one that is read, and the blocks are lawful after it.
pub fn filled(head: &Head, earlier: &[Block], block: &Block) -> Block
    requires { head.now.acmod ≤ 7 }
    ensures { result ≡ filled_of head.now earlier.now block.now }
{
    let kept = latest(block, earlier);
    let coupling = coupling_in(&kept, block);
    filled_by(head, &coupling, &kept, block)
}
