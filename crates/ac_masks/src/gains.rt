//! What the codes of the parameters stand for (A/52 7.2.2.1).
ghost use Rattle.std.specs.Prelude.{◌≡◌, ◌≤◌, ◌+◌};
ghost use Rattle.ac_alloc.specs.Codes.{fast_gain, slow_gain, fast_decay, slow_decay, fast_start, slow_start, knee};
ghost use Rattle.ac_masks.specs.Steps.{raise};

use ac_alloc::Params;

/// By sdcycod (A/52 Table 7.6).
static SLOW_DECAYS: [u16; 4] = [0x0f, 0x11, 0x13, 0x15];

/// By fdcycod (A/52 Table 7.7).
static FAST_DECAYS: [u16; 4] = [0x3f, 0x53, 0x67, 0x7b];

/// By sgaincod (A/52 Table 7.8).
static SLOW_GAINS: [u16; 4] = [0x540, 0x4d8, 0x478, 0x410];

/// By dbpbcod (A/52 Table 7.9).
static KNEES: [u16; 4] = [0, 0x700, 0x900, 0xb00];

/// How far the fast leak stands below the density of a band (A/52 Table 7.11).
pub(crate) fn fast_gain(p: &Params) -> u16
    ensures value { result ≡ fast_gain p.now }
    ensures bound { result ≤ 2000 }
{
    128 * (u16::from(p.fgaincod) + 1)
}

/// How far the slow leak stands below the density of a band.
pub(crate) fn slow_gain(p: &Params) -> u16
    ensures value { result ≡ slow_gain p.now }
    ensures bound { result ≤ 2000 }
{
    SLOW_GAINS[p.sgaincod as usize]
}

/// How far the fast leak falls in each band.
pub(crate) fn fast_decay(p: &Params) -> u16
    ensures { result ≡ fast_decay p.now }
{
    FAST_DECAYS[p.fdcycod as usize]
}

/// How far the slow leak falls in each band.
pub(crate) fn slow_decay(p: &Params) -> u16
    ensures { result ≡ slow_decay p.now }
{
    SLOW_DECAYS[p.sdcycod as usize]
}

/// The fast leak of the coupling channel before its first band, raised.
pub(crate) fn fast_start(p: &Params) -> u16
    ensures value { result ≡ fast_start p.now + raise }
    ensures bound { result ≤ 9648 }
{
    256 * u16::from(p.cplfleak) + 768 + 4096
}

/// The slow leak of the coupling channel before its first band, raised.
pub(crate) fn slow_start(p: &Params) -> u16
    ensures value { result ≡ slow_start p.now + raise }
    ensures bound { result ≤ 9648 }
{
    256 * u16::from(p.cplsleak) + 768 + 4096
}

/// The density below which the excitation grows.
pub(crate) fn knee(p: &Params) -> u16
    ensures value { result ≡ knee p.now }
    ensures bound { result ≤ 2816 }
{
    KNEES[p.dbpbcod as usize]
}
