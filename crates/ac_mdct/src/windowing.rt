//! The 512 places of a block under the window.
ghost use Rattle.std.specs.Prelude.{◌≡◌, ◌<◌, ◌≤◌, ◌^◌, ◌-◌, ◌++◌, pos, slice_index_or};
ghost use Rattle.ac_base.specs.Sigma.{Within};
ghost use Rattle.ac_mdct.specs.Forward.{windowed};
ghost use Rattle.ac_base.specs.Sigma.{Lists};

use crate::rounding::weigh;

/// Place `n` of the samples before and those of now, one of the samples before.
#[inline]
fn early(prev: &[i32; 256], now: &[i32; 256], n: usize) -> i32
    requires { n < 256 }
    ensures { result ≡ slice_index_or (prev.now ++ now.now) n (pos 0) }
{
    prev[n]
}

/// Place `n` of the samples before and those of now, one of those of now.
#[inline]
fn late(prev: &[i32; 256], now: &[i32; 256], n: usize) -> i32
    requires least { 256 ≤ n }
    requires below { n < 512 }
    ensures { result ≡ slice_index_or (prev.now ++ now.now) n (pos 0) }
{
    now[n - 256]
}

/// The samples before and those of now, each times its window (A/52 8.2.3.1): the rising half and the falling one, each a plain loop
/// over its half of the table.
pub fn windowed(prev: &[i32; 256], now: &[i32; 256], out: &mut [i32; 512])
    requires before { Within (2 ^ 23) 256 prev.now }
    requires after { Within (2 ^ 23) 256 now.now }
    ensures value { Lists 512 (windowed (prev.now ++ now.now)) out.new }
    ensures bound { Within (2 ^ 23) 512 out.new }
{
    for n in 0..256usize {
        out[n] = weigh(early(prev, now, n), ac_base::window(n as u16));
    }
    for m in 256..512usize {
        out[m] = weigh(late(prev, now, m), ac_base::window(m as u16));
    }
}
