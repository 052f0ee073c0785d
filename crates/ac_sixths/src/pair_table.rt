//! The table of the sixths of two bins.
ghost use Rattle.std.specs.Prelude.{◌≡◌, ◌<◌, ◌≤◌, ◌+◌, ◌*◌, ◌-◌, ◌/◌, ◌%◌, pos, ◌-ℤ◌};
ghost use Rattle.ac_alloc.specs.Keys.{place};
ghost use Rattle.ac_sixths.specs.Keys.{sixths};
ghost use Rattle.ac_sixths.specs.Pairs.{pair_sixths, IsPairTable};

use crate::table::{entry, weight};
use ac_base::baptab;

/// What two mantissas cost, in sixths of a bit, by how far the offset is above the first's key, and by their exponents'
/// difference.
#[derive(Clone, Copy)]
pub struct PairTable {
    /// Five tables of 4128 entries.
    pub f: [u16; 20640],
}

/// The address at an index of the second bin.
fn second_address(i: usize) -> u8
    ensures value { result ≡ place (pos 3064 -ℤ pos i) }
    ensures bound { result ≤ 63 }
{
    (i.saturating_sub(1777) / 8).min(63) as u8
}

fn second(i: usize) -> u16
    ensures value { result ≡ sixths (pos 3064 -ℤ pos i) }
{
    weight(baptab(second_address(i)))
}

fn pair_entry(d: usize, i: usize) -> u16
    requires few { d ≤ 4 }
    requires within { i < 4128 }
    ensures { result ≡ pair_sixths d i }
{
    entry(i) + second(i + 32 * d)
}

fn pair_entries() -> [u16; 20640]
    ensures { IsPairTable result }
{
    let mut f = [0u16; 20640];
    for n in 0..20640usize {
        f[n] = pair_entry(n / 4128, n % 4128);
    }
    f
}

impl PairTable {
    /// The table, computed.
    pub fn new() -> PairTable
        ensures { IsPairTable result.f }
    {
        PairTable { f: pair_entries() }
    }
}
