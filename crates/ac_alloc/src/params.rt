//! The parameters of the bit allocation, and what their codes stand for (A/52 5.4.3.31 to 5.4.3.46, 7.2.2.1).
ghost use Rattle.std.specs.Prelude.{◌≡◌, ◌≤◌, ◌+◌, ◌*◌, ◌-◌};

use ac_base::{CPLFLEAK, CPLSLEAK, DBPBCOD, FDCYCOD, FGAINCOD, FLOORCOD, SDCYCOD, SGAINCOD};

/// The parameters of a coded channel's bit allocation in a block, each within the width of its field: fscod at most 2,
/// those of two bits at most 3, those of three bits at most 7 (A/52 5.4.1.3, 5.4.3.31 to 5.4.3.46).
#[derive(Clone, Copy, Debug, PartialEq, Eq)]
pub struct Params {
    /// The sample rate: 0 for 48 kHz, 1 for 44.1 kHz, 2 for 32 kHz.
    pub fscod: u8,
    /// The slow decay.
    pub sdcycod: u8,
    /// The fast decay.
    pub fdcycod: u8,
    /// The slow gain.
    pub sgaincod: u8,
    /// The knee, below which the excitation grows.
    pub dbpbcod: u8,
    /// The floor.
    pub floorcod: u8,
    /// The fast gain of the channel.
    pub fgaincod: u8,
    /// The fast leak of the coupling channel before its first band.
    pub cplfleak: u8,
    /// The slow leak of the coupling channel before its first band.
    pub cplsleak: u8,
    pub ghost sampling: { fscod ≤ 2 },
    pub ghost slow_code: { sdcycod ≤ 3 },
    pub ghost fast_code: { fdcycod ≤ 3 },
    pub ghost gain_code: { sgaincod ≤ 3 },
    pub ghost knee_code: { dbpbcod ≤ 3 },
    pub ghost floor_code: { floorcod ≤ 7 },
    pub ghost fast_gain_code: { fgaincod ≤ 7 },
    pub ghost fast_leak_code: { cplfleak ≤ 7 },
    pub ghost slow_leak_code: { cplsleak ≤ 7 },
}

/// By sdcycod (A/52 Table 7.6).
static SLOW_DECAYS: [u16; 4] = [0x0f, 0x11, 0x13, 0x15];

/// By fdcycod (A/52 Table 7.7).
static FAST_DECAYS: [u16; 4] = [0x3f, 0x53, 0x67, 0x7b];

/// By sgaincod (A/52 Table 7.8).
static SLOW_GAINS: [u16; 4] = [0x540, 0x4d8, 0x478, 0x410];

/// By dbpbcod (A/52 Table 7.9).
static KNEES: [u16; 4] = [0, 0x700, 0x900, 0xb00];

/// By floorcod (A/52 Table 7.10).
static FLOORS: [i32; 8] = [0x2f0, 0x2b0, 0x270, 0x230, 0x1f0, 0x170, 0x0f0, -2048];

impl Params {
    ghost use Rattle.ac_alloc.specs.Excitation.{most_leak};
    ghost use Rattle.ac_alloc.specs.Masking.{IsFloor};
    ghost use Rattle.ac_alloc.specs.Codes.{fast_gain, slow_gain, fast_decay, slow_decay, fast_start, slow_start, knee, floor_of, encoder_params};

    /// The parameters with which the encoder writes at a sample rate; the coupling leaks start lowest.
    pub fn encoder(fscod: u8) -> Params
        requires { fscod ≤ 2 }
        ensures value { (rate : fscod ≤ 2) → result ≡ encoder_params fscod rate }
    {
        Params {
            fscod,
            sdcycod: SDCYCOD,
            fdcycod: FDCYCOD,
            sgaincod: SGAINCOD,
            dbpbcod: DBPBCOD,
            floorcod: FLOORCOD,
            fgaincod: FGAINCOD,
            cplfleak: CPLFLEAK,
            cplsleak: CPLSLEAK,
        }
    }

    /// How far the fast leak stands below the density of a band (A/52 Table 7.11).
    pub(crate) fn fast_gain(&self) -> u16
        ensures value { result ≡ fast_gain self.now }
        ensures least { 128 ≤ result }
        ensures most { result ≤ 2000 }
    {
        128 * (u16::from(self.fgaincod) + 1)
    }

    /// How far the slow leak stands below the density of a band.
    pub(crate) fn slow_gain(&self) -> u16
        ensures value { result ≡ slow_gain self.now }
        ensures least { 128 ≤ result }
        ensures most { result ≤ 2000 }
    {
        SLOW_GAINS[self.sgaincod as usize]
    }

    /// How far the fast leak falls in each band.
    pub(crate) fn fast_decay(&self) -> u16
        ensures value { result ≡ fast_decay self.now }
        ensures most { result ≤ 2000 }
    {
        FAST_DECAYS[self.fdcycod as usize]
    }

    /// How far the slow leak falls in each band.
    pub(crate) fn slow_decay(&self) -> u16
        ensures value { result ≡ slow_decay self.now }
        ensures most { result ≤ 2000 }
    {
        SLOW_DECAYS[self.sdcycod as usize]
    }

    /// The fast leak of the coupling channel before its first band.
    pub(crate) fn fast_start(&self) -> u16
        ensures value { result ≡ fast_start self.now }
        ensures most { result ≤ most_leak }
    {
        256 * u16::from(self.cplfleak) + 768
    }

    /// The slow leak of the coupling channel before its first band.
    pub(crate) fn slow_start(&self) -> u16
        ensures value { result ≡ slow_start self.now }
        ensures most { result ≤ most_leak }
    {
        256 * u16::from(self.cplsleak) + 768
    }

    /// The density below which the excitation grows.
    pub(crate) fn knee(&self) -> u16
        ensures value { result ≡ knee self.now }
        ensures most { result ≤ 2816 }
    {
        KNEES[self.dbpbcod as usize]
    }

    /// The floor under the masks.
    pub(crate) fn floor(&self) -> i32
        ensures value { result ≡ floor_of self.now }
        ensures bound { IsFloor result }
    {
        FLOORS[self.floorcod as usize]
    }
}
