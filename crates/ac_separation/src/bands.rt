//! The bands of the coupling channel and of rematrixing.
ghost use Rattle.std.specs.Prelude.{◌≡◌, ◌<◌, ◌≤◌, ◌+◌, ℕ, true, if◌then◌else◌, slice_index_or};
ghost use Rattle.ac_rematrix.specs.Rematrix.{band_start};
ghost use Rattle.ac_rows.specs.Groups.{strategy_of};
ghost use Rattle.ac_rows.specs.Filled.{holds, number, range_of};
ghost use Rattle.ac_separation.specs.Separation.{band_of, cut_at};

use ac_rows::{Block, holds, number};

/// The first bins of the bands of rematrixing, and the bin behind the last of the last one (A/52 Table 7.25 to 7.28).
static STARTS: [u8; 5] = [13, 25, 37, 61, 253];

/// The first bin of a band of rematrixing; of band 4 the bin behind the last one.
#[inline]
pub fn band_start(band: usize) -> usize
    requires { band ≤ 4 }
    ensures value { result ≡ band_start band }
    ensures bound { result ≤ 253 }
{
    usize::from(STARTS[band])
}

/// The bin, or the first of the coupling channel where that comes sooner.
pub fn cut(block: &Block, end: u8) -> u8
    requires { holds block.now.cplinu ≡ true → number block.now.cplbegf ≤ 15 }
    ensures { result ≡ cut_at (range_of (strategy_of block.now)) end }
{
    if holds(block.cplinu) {
        end.min(37 + 12 * number(block.cplbegf))
    } else {
        end
    }
}

/// The band of a subband, from that of the one before.
#[inline]
fn next(band: u8, joined: bool) -> u8
    requires { band < 18 }
    ensures { result ≡ if joined then band else band + 1 }
{
    if joined { band } else { band + 1 }
}

/// The band of each subband of the coupling channel (A/52 5.4.3.13).
pub fn subband_bands(block: &Block) -> [u8; 18]
    ensures value { (n : ℕ) → n < 18 → slice_index_or result n 0 ≡ band_of block.now n }
{
    let mut bands = [0; 18];
    for n in 1..18 {
        bands[n] = next(bands[n - 1], holds(block.cplbndstrc[n]));
    }
    bands
}
