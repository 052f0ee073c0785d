//! Log-addition by a table (A/52 7.2.2.3).
ghost use Rattle.std.specs.Prelude.{◌≡◌, ◌≤◌, ◌<◌, ◌+◌, ◌*◌, ◌-◌, ℕ, slice_index};
ghost use Rattle.ac_alloc.specs.Integration.{logadd};
ghost use Rattle.ac_masks.specs.Adding.{most_sum, IsAddTable};

use ac_base::latab;

/// What a log-addition adds to a level of 5552.
#[derive(Clone, Copy)]
pub struct AddTable {
    /// By the level that is added.
    pub rises: [u16; 9633],
}

/// What adding the level `x` adds.
#[inline]
#[tactic(auto, unfolding(ac_alloc::specs::Integration::logadd))]
fn rise(x: u16) -> u16
    requires { x < 9633 }
    ensures { result ≡ logadd most_sum x - most_sum }
{
    let apart = (x.abs_diff(5552) / 2).min(255);
    x.max(5552) - 5552 + u16::from(latab(apart as u8))
}

/// The entries of levels that aren't far above, those of levels far below among them, which are 0.
fn low_entries() -> [u16; 9633]
    ensures { (x : ℕ) → x < 6063 → slice_index result x ≡ logadd most_sum x - most_sum }
{
    let mut rises = [0u16; 9633];
    for x in 5042..6063usize {
        rises[x] = rise(x as u16);
    }
    rises
}

/// Those of levels far above are their distance.
fn entries() -> [u16; 9633]
    ensures { IsAddTable result }
{
    let mut rises = low_entries();
    for x in 6063..9633usize {
        rises[x] = x as u16 - 5552;
    }
    rises
}

impl AddTable {
    /// The table, computed.
    pub fn new() -> AddTable
        ensures { IsAddTable result.rises }
    {
        AddTable { rises: entries() }
    }
}

/// The level `a` with a bin of this level added.
#[inline]
pub(crate) fn added(rises: &[u16; 9633], a: usize, level: u8) -> usize
    requires table { IsAddTable rises.now }
    requires bound { a ≤ most_sum }
    ensures value { result ≡ logadd a (16 * level) }
    ensures bound { (m : ℕ) → 4080 ≤ m → a ≤ m → result ≤ m + 64 }
{
    a + usize::from(rises[5552 + 16 * usize::from(level) - a])
}
