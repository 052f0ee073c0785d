//! The bands of rematrixing.
ghost use Rattle.std.specs.Prelude.{◌≡◌, ◌≤◌, [], slice_index_or};
ghost use Rattle.ac_energy.specs.Coefficients.{cell_of};
ghost use Rattle.ac_energy.specs.Energy.{AreSmallIn};
ghost use Rattle.ac_rematrix.specs.Halves.{IsBandDone};
ghost use Rattle.ac_rematrix.specs.Rematrix.{band_start, is_weaker};

use crate::energies::is_weaker;
use crate::halves::halve;

/// The first bins of the bands, and the bin behind the last of the last one (A/52 Table 7.25 to 7.28).
static STARTS: [u8; 5] = [13, 25, 37, 61, 253];

/// The first bin of a band; of band 4 the bin behind the last one.
#[inline]
pub fn band_start(band: u8) -> usize
    requires { band ≤ 4 }
    ensures value { result ≡ band_start band }
    ensures bound { result ≤ 253 }
{
    usize::from(STARTS[usize::from(band)])
}

/// Rematrixes the bins from `start` up to the one before `end` where it is worth it, and says whether it was.
pub fn rematrix_bins(rows: &mut [[[i32; 256]; 6]; 7], start: usize, end: usize) -> bool
    requires some { start ≤ end }
    requires end { end ≤ 256 }
    requires left { AreSmallIn (cell_of (slice_index_or rows.old 0 [])) start end }
    requires right { AreSmallIn (cell_of (slice_index_or rows.old 1 [])) start end }
    ensures flag { result ≡ is_weaker (cell_of (slice_index_or rows.old 0 [])) (cell_of (slice_index_or rows.old 1 [])) start end }
    ensures band { IsBandDone result start end rows.old rows.new }
{
    let flag = is_weaker(&rows[0], &rows[1], start, end);
    if flag {
        let (left, right) = rows.split_at_mut(1);
        halve(&mut left[0], &mut right[0], start, end);
    }
    flag
}
