//! The table of the sixths, by how far the offset is above the key.
ghost use Rattle.std.specs.Prelude.{◌≡◌, ◌<◌, ◌≤◌, ◌-◌, ℕ, pos, ◌-ℤ◌, slice_index};
ghost use Rattle.ac_alloc.specs.Keys.{place};
ghost use Rattle.ac_sixths.specs.Keys.{weight, sixths};
ghost use Rattle.ac_sixths.specs.Runs.{IsSixthTable};

use ac_base::baptab;

/// By the pointer.
static WEIGHTS: [u16; 16] = [
    0, 10, 14, 18, 21, 24, 30, 36, 42, 48, 54, 60, 66, 72, 84, 96,
];

/// What a mantissa costs, in sixths of a bit, by how far the offset is above the key.
#[derive(Clone, Copy)]
pub struct SixthTable {
    /// By 3000 and the offset less the key.
    pub f: [u16; 4128],
}

#[inline]
pub(crate) fn weight(bap: u8) -> u16
    requires { bap ≤ 15 }
    ensures { result ≡ weight bap }
{
    WEIGHTS[bap as usize]
}

/// The address at an index.
fn address(i: usize) -> u8
    ensures value { result ≡ place (pos 3000 -ℤ pos i) }
    ensures bound { result ≤ 63 }
{
    (i.saturating_sub(1713) / 8).min(63) as u8
}

pub(crate) fn entry(i: usize) -> u16
    ensures { result ≡ sixths (pos 3000 -ℤ pos i) }
{
    weight(baptab(address(i)))
}

/// The entries that change with the index, among zeros.
fn low_entries() -> [u16; 4128]
    ensures low { (i : ℕ) → i < 2217 → slice_index result i ≡ sixths (pos 3000 -ℤ pos i) }
{
    let mut f = [0u16; 4128];
    for i in 1713..2217usize {
        f[i] = entry(i);
    }
    f
}

/// Those at which the place is 0 are 0, and those at which it is 63 are the greatest weight.
fn entries() -> [u16; 4128]
    ensures { IsSixthTable result }
{
    let mut f = low_entries();
    for i in 2217..4128usize {
        f[i] = 96;
    }
    f
}

impl SixthTable {
    /// The table, computed.
    pub fn new() -> SixthTable
        ensures { IsSixthTable result.f }
    {
        SixthTable { f: entries() }
    }
}
