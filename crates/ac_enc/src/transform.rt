//! The coefficients of a frame's six blocks.
ghost use Rattle.std.specs.Prelude.{◌≡◌, ℕ, ◌+◌, ◌*◌, ◌-◌, ◌^◌, ◌<◌, ◌≤◌, [], length, slice_index_or, unsigned_abs};
ghost use Rattle.ac_base.specs.Sigma.{Within, Lists};
ghost use Rattle.ac_enc.specs.Frame.{coefficient_at, AreTransformed, joined, joined_by};

use ac_base::Coefs;
use ac_mdct::forward;

/// Place `p` of the samples behind the last ones.
fn place(last: &[i32; 256], pcm: &[i32; 1536], p: usize) -> i32
    requires place { p < 1792 }
    requires last { Within (2 ^ 23) 256 last.now }
    requires pcm { Within (2 ^ 23) 1536 pcm.now }
    ensures value { result ≡ joined last.now pcm.now p }
    ensures bound { unsigned_abs result ≤ 2 ^ 23 }
{
    if p < 256 { last[p] } else { pcm[p - 256] }
}

/// The 256 places from `256 b` on.
fn places(last: &[i32; 256], pcm: &[i32; 1536], b: usize) -> [i32; 256]
    requires block { b < 7 }
    requires last { Within (2 ^ 23) 256 last.now }
    requires pcm { Within (2 ^ 23) 1536 pcm.now }
    ensures len { length result ≡ 256 }
    ensures value { Lists 256 (λ n. joined last.now pcm.now (256 * b + n)) result }
    ensures bound { Within (2 ^ 23) 256 result }
{
    let mut block = [0; 256];
    for n in 0..256usize {
        block[n] = place(last, pcm, 256 * b + n);
    }
    block
}

/// The coefficients of block `b`.
fn transform_block(last: &[i32; 256], pcm: &[i32; 1536], b: usize, row: &mut [i32; 256])
    requires block { b < 6 }
    requires last { Within (2 ^ 23) 256 last.now }
    requires pcm { Within (2 ^ 23) 1536 pcm.now }
    ensures value { Lists 256 (coefficient_at (joined last.now pcm.now) b) row.new }
    ensures bound { Within (2 ^ 24 - 1) 256 row.new }
{
    let prev = places(last, pcm, b);
    let now = places(last, pcm, b + 1);
    forward(&prev, &now, row);
}

/// The coefficients of the six blocks of the samples behind the last ones.
fn transform(last: &[i32; 256], pcm: &[i32; 1536], rows: &mut [[i32; 256]; 6])
    requires last { Within (2 ^ 23) 256 last.now }
    requires pcm { Within (2 ^ 23) 1536 pcm.now }
    ensures value { AreTransformed (joined last.now pcm.now) rows.new }
    ensures bound { (b : ℕ) → b < 6 → Within (2 ^ 24 - 1) 256 (slice_index_or rows.new b []) }
{
    for b in 0..6usize {
        transform_block(last, pcm, b, &mut rows[b]);
    }
}

/// Those of the first `count` channels.
pub fn transform_channels(
    last: &[[i32; 256]; 6],
    pcm: &[[i32; 1536]; 6],
    count: u8,
    coefs: &mut Coefs,
)
    requires count { count ≤ 6 }
    requires last { (c : ℕ) → c < count → Within (2 ^ 23) 256 (slice_index_or last.now c []) }
    requires pcm { (c : ℕ) → c < count → Within (2 ^ 23) 1536 (slice_index_or pcm.now c []) }
    ensures value { (c : ℕ) → c < count → AreTransformed (joined_by last.now pcm.now c) (slice_index_or coefs.new.c c []) }
    ensures bound { (c b : ℕ) → c < count → b < 6 → Within (2 ^ 24 - 1) 256 (slice_index_or (slice_index_or coefs.new.c c []) b []) }
{
    for c in 0..usize::from(count) {
        transform(&last[c], &pcm[c], &mut coefs.c[c]);
    }
}

#[cfg(test)]
mod tests;
