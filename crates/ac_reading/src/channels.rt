//! The coded channels of a filled block, and the parameters of their bit allocation (A/52 5.4.3, 7.2.2).
ghost use Rattle.std.specs.Prelude.{◌≡◌, true, ◌<◌, ◌≤◌, ◌+◌, ◌*◌, ◌&&◌, ◌==◌};
ghost use Rattle.ac_base.specs.Shape.{full_of, count_of};
ghost use Rattle.ac_base.specs.Sigma.{sum_below};
ghost use Rattle.ac_rows.specs.Filled.{holds, number};
ghost use Rattle.ac_record.specs.Channels.{coded_in};
ghost use Rattle.ac_reading.specs.Kept.{HaveSameCurves, HaveSameLeaks};
ghost use Rattle.ac_record.specs.Held.{fine_of, gain_of, offset_of, is_silent, params_in};

use ac_alloc::Params;
use ac_rows::{Block, Head, both, full_channels, holds, number};

/// 1 where it is there.
fn count(there: bool) -> usize
    ensures { result ≡ count_of there }
{
    if there { 1 } else { 0 }
}

/// How many coded channels a filled block has.
pub fn coded(head: &Head, block: &Block) -> usize
    requires { head.now.acmod ≤ 7 }
    ensures value { result ≡ coded_in head.now block.now }
    ensures bound { result ≤ 7 }
{
    usize::from(full_channels(head.acmod)) + count(holds(block.cplinu)) + count(head.lfeon)
}

/// Whether coded channel `c` is the coupling channel.
pub fn is_shared(head: &Head, block: &Block, c: usize) -> bool
    requires { head.now.acmod ≤ 7 }
    ensures { result ≡ (holds block.now.cplinu && c == full_of head.now.acmod) }
{
    both(
        holds(block.cplinu),
        c == usize::from(full_channels(head.acmod)),
    )
}

/// The fine SNR offset code of a coded channel.
pub fn fine(head: &Head, block: &Block, c: usize) -> u8
    requires { head.now.acmod ≤ 7 }
    ensures { result ≡ fine_of head.now block.now c }
{
    if c < usize::from(full_channels(head.acmod)) {
        number(block.fsnroffst[c])
    } else if is_shared(head, block, c) {
        number(block.cplfsnroffst)
    } else {
        number(block.lfefsnroffst)
    }
}

/// The fast gain code of a coded channel.
fn gain(head: &Head, block: &Block, c: usize) -> u8
    requires { head.now.acmod ≤ 7 }
    ensures { result ≡ gain_of head.now block.now c }
{
    if c < usize::from(full_channels(head.acmod)) {
        number(block.fgaincod[c])
    } else if is_shared(head, block, c) {
        number(block.cplfgaincod)
    } else {
        number(block.lfefgaincod)
    }
}

/// The SNR offset of a coded channel: 16 times the coarse code and the fine one (A/52 7.2.2.1).
pub fn offset(head: &Head, block: &Block, c: usize) -> u16
    requires { head.now.acmod ≤ 7 }
    ensures { result ≡ offset_of head.now block.now c }
{
    16 * u16::from(number(block.csnroffst)) + u16::from(fine(head, block, c))
}

/// The sum of all fine SNR offset codes.
fn fine_sum(head: &Head, block: &Block) -> u16
    requires { head.now.acmod ≤ 7 }
    ensures value { result ≡ sum_below (coded_in head.now block.now) (fine_of head.now block.now) }
    ensures bound { result ≤ 1785 }
{
    let mut sum = 0;
    for c in 0..coded(head, block) {
        sum += u16::from(fine(head, block, c));
    }
    sum
}

/// Whether all SNR offset codes of the block are 0, so that no bin has bits (A/52 7.2.2.7).
pub fn silent(head: &Head, block: &Block) -> bool
    requires { head.now.acmod ≤ 7 }
    ensures { result ≡ is_silent head.now block.now }
{
    u16::from(number(block.csnroffst)) + fine_sum(head, block) == 0
}

/// The parameters of a coded channel's bit allocation.
pub fn params(head: &Head, block: &Block, c: usize) -> Params
    requires { head.now.acmod ≤ 7 }
    ensures { result ≡ params_in head.now block.now c }
{
    Params {
        fscod: head.fscod.min(2),
        sdcycod: number(block.sdcycod).min(3),
        fdcycod: number(block.fdcycod).min(3),
        sgaincod: number(block.sgaincod).min(3),
        dbpbcod: number(block.dbpbcod).min(3),
        floorcod: number(block.floorcod).min(7),
        fgaincod: gain(head, block, c).min(7),
        cplfleak: number(block.cplfleak).min(7),
        cplsleak: number(block.cplsleak).min(7),
    }
}

/// Whether a coded channel has the same parameters in both blocks.
pub fn same_params(head: &Head, a: &Block, b: &Block, c: usize) -> bool
    requires { head.now.acmod ≤ 7 }
    ensures { result ≡ true → params_in head.now a.now c ≡ params_in head.now b.now c }
{
    same_curves(a, b) && same_leaks(a, b) && gain(head, a, c) == gain(head, b, c)
}

/// Whether decays, slow gain, knee and floor are the same.
fn same_curves(a: &Block, b: &Block) -> bool
    ensures { result ≡ true → HaveSameCurves a.now b.now }
{
    number(a.sdcycod) == number(b.sdcycod)
        && number(a.fdcycod) == number(b.fdcycod)
        && number(a.sgaincod) == number(b.sgaincod)
        && number(a.dbpbcod) == number(b.dbpbcod)
        && number(a.floorcod) == number(b.floorcod)
}

/// Whether the leaks of the coupling channel are the same.
fn same_leaks(a: &Block, b: &Block) -> bool
    ensures { result ≡ true → HaveSameLeaks a.now b.now }
{
    number(a.cplfleak) == number(b.cplfleak) && number(a.cplsleak) == number(b.cplsleak)
}
