//! The sum of the magnitudes of a frame's samples.
ghost use Rattle.std.specs.Prelude.{◌≡◌, ℕ, ◌*◌, ◌^◌, ◌<◌, ◌≤◌, [], slice_index_or, unsigned_abs};
ghost use Rattle.ac_base.specs.Sigma.{Within};
ghost use Rattle.ac_synth.specs.Sums.{row_sum, pcm_sum};

use ac_dec::Pcm;

/// The magnitude of a sample.
#[inline]
fn magnitude(x: i32) -> u64
    ensures { result ≡ unsigned_abs x }
{
    u64::from(x.unsigned_abs())
}

/// That of a row.
fn row_sum(row: &[i32; 1536]) -> u64
    requires { Within (2 ^ 23) 1536 row.now }
    ensures value { result ≡ row_sum row.now 1536 }
    ensures bound { result ≤ 1536 * 2 ^ 23 }
{
    let mut sum: u64 = 0;
    for t in 0..1536usize {
        sum += magnitude(row[t]);
    }
    sum
}

/// That of the first two rows.
pub fn pcm_sum(pcm: &Pcm) -> u64
    requires { (c : ℕ) → c < 2 → Within (2 ^ 23) 1536 (slice_index_or pcm.now.s c []) }
    ensures value { result ≡ pcm_sum pcm.now }
    ensures bound { result ≤ 2 * 1536 * 2 ^ 23 }
{
    row_sum(&pcm.s[0]) + row_sum(&pcm.s[1])
}
