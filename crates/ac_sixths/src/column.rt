//! A column of a table.
ghost use Rattle.std.specs.Prelude.{◌≡◌, ◌<◌, slice_index};
ghost use Rattle.ac_sixths.specs.Runs.{column};

#[inline]
fn entry(row: &[u16; 64], i: usize) -> u16
    requires { i < 64 }
    ensures { result ≡ slice_index row.now i }
{
    row[i]
}

/// The base of a band in a column.
#[inline]
pub(crate) fn base_at(bases: &[[u16; 64]; 50], b: usize, i: usize) -> u16
    requires row { b < 50 }
    requires column { i < 64 }
    ensures { result ≡ slice_index (column bases.now i) b }
{
    entry(&bases[b], i)
}
