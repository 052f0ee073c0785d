//! The samples of a frame from its coefficients (A/52 7.9.4).
ghost use Rattle.std.specs.Prelude.{◌≡◌, ◌⊎◌, ℕ, ◌+◌, ◌*◌, ◌^◌, ◌<◌, ◌≤◌, [], pos, slice_index_or};
ghost use Rattle.ac_base.specs.Shape.{count_of};
ghost use Rattle.ac_base.specs.Sigma.{Within};
ghost use Rattle.ac_mdct.specs.Inverse.{IsDelay};
ghost use Rattle.ac_dec.specs.Sounding.{row_at, coded_block, IsBlockSound, AreSounds, AreRest};

use ac_base::Coefs;
use ac_mdct::inverse;

/// 1 where it is there.
#[inline]
fn count(there: bool) -> usize
    ensures value { result ≡ count_of there }
    ensures bound { result ≤ 1 }
{
    if there { 1 } else { 0 }
}

/// The coded channel of channel `c` in block `b`.
#[inline]
fn row_at(full: usize, used: &[bool; 6], c: usize, b: usize) -> usize
    requires full { full ≤ 5 }
    requires block { b < 6 }
    ensures value { result ≡ row_at full used.now c b }
    ensures bound { result < 7 }
{
    if c < full { c } else { full + count(used[b]) }
}

/// The samples of block `b` of a channel.
fn block_sound(coefs: &[i32; 256], delay: &mut [i64; 256], out: &mut [i32; 1536], b: usize)
    requires block { b < 6 }
    requires coefs { Within (2 ^ 24) 256 coefs.now }
    requires delay { Within (2 ^ 55) 256 delay.old }
    ensures sound { IsBlockSound coefs.now delay.old b out.new }
    ensures rest { (j : ℕ) → (j < 256 * b) ⊎ (256 * b + 256 ≤ j) → slice_index_or out.new j (pos 0) ≡ slice_index_or out.old j (pos 0) }
    ensures delay { IsDelay coefs.now delay.new }
    ensures bound { Within (2 ^ 55) 256 delay.new }
{
    let mut samples = [0; 256];
    inverse(coefs, delay, &mut samples);
    out[256 * b..256 * b + 256].copy_from_slice(&samples);
}

/// The samples of channel `c`.
fn channel_sound(
    coefs: &Coefs,
    full: usize,
    used: &[bool; 6],
    c: usize,
    delay: &mut [i64; 256],
    out: &mut [i32; 1536],
)
    requires full { full ≤ 5 }
    requires coefs { (b : ℕ) → b < 6 → Within (2 ^ 24) 256 (coded_block coefs.now.c full used.now c b) }
    requires delay { Within (2 ^ 55) 256 delay.old }
    ensures sound { AreSounds (coded_block coefs.now.c full used.now c) delay.old 6 out.new }
    ensures delay { AreRest (coded_block coefs.now.c full used.now c) delay.old 6 delay.new }
    ensures bound { Within (2 ^ 55) 256 delay.new }
{
    for b in 0..6usize {
        let row = row_at(full, used, c, b);
        block_sound(&coefs.c[row][b], delay, out, b);
    }
}

/// The samples of all channels; rows of no channel stay.
pub fn sound(
    coefs: &Coefs,
    full: usize,
    low: bool,
    used: &[bool; 6],
    delays: &mut [[i64; 256]; 6],
    out: &mut [[i32; 1536]; 6],
)
    requires full { full ≤ 5 }
    requires coefs { (c b : ℕ) → c < full + count_of low → b < 6 → Within (2 ^ 24) 256 (coded_block coefs.now.c full used.now c b) }
    requires delays { (c : ℕ) → c < 6 → Within (2 ^ 55) 256 (slice_index_or delays.old c []) }
    ensures sound { (c : ℕ) → c < full + count_of low
        → AreSounds (coded_block coefs.now.c full used.now c) (slice_index_or delays.old c []) 6 (slice_index_or out.new c []) }
    ensures delay { (c : ℕ) → c < full + count_of low
        → AreRest (coded_block coefs.now.c full used.now c) (slice_index_or delays.old c []) 6 (slice_index_or delays.new c []) }
    ensures bound { (c : ℕ) → c < 6 → Within (2 ^ 55) 256 (slice_index_or delays.new c []) }
    ensures rest { (c : ℕ) → full + count_of low ≤ c → slice_index_or out.new c [] ≡ slice_index_or out.old c [] }
{
    for c in 0..full + count(low) {
        channel_sound(coefs, full, used, c, &mut delays[c], &mut out[c]);
    }
}
