//! The coupling channel: the mean of the full channels, rounded downwards (this project's own choice, A/52 7.4 leaves it open).
ghost use Rattle.std.specs.Prelude.{◌≡◌, ◌+◌, ◌-◌, ◌*◌, ◌<◌, ◌≤◌, ◌^◌, ◌+ℤ◌, ℕ, pos, slice_index_or, unsigned_abs};
ghost use Rattle.ac_base.specs.Sigma.{sigma};
ghost use Rattle.ac_energy.specs.Coefficients.{entry, cell_of};
ghost use Rattle.ac_energy.specs.Energy.{AreSmallIn};
ghost use Rattle.ac_coupling.specs.Coupling.{mean_of};

use ac_base::Coefs;

/// `sum + x`, without overflow.
#[inline]
fn added(sum: i32, x: i32) -> i32
    requires { unsigned_abs sum + unsigned_abs x < 2 ^ 31 }
    ensures { result ≡ sum +ℤ x }
{
    sum + x
}

/// The sum of the full channels at a bin.
fn sum_at(coefs: &Coefs, full: u8, b: usize, k: usize) -> i32
    requires full { full ≤ 5 }
    requires block { b < 6 }
    requires bin { k < 256 }
    requires small { (c : ℕ) → c < full → unsigned_abs (entry coefs.now.c c b k) < 2 ^ 24 }
    ensures value { result ≡ sigma full (λ c. entry coefs.now.c c b k) }
    ensures bound { unsigned_abs result ≤ full * (2 ^ 24 - 1) }
{
    let mut sum: i32 = 0;
    for c in 0..usize::from(full) {
        sum = added(sum, coefs.c[c][b][k]);
    }
    sum
}

/// The mean of the full channels at a bin.
fn mean_at(coefs: &Coefs, full: u8, b: usize, k: usize) -> i32
    requires some { 1 ≤ full }
    requires full { full ≤ 5 }
    requires block { b < 6 }
    requires bin { k < 256 }
    requires small { (c : ℕ) → c < full → unsigned_abs (entry coefs.now.c c b k) < 2 ^ 24 }
    ensures { result ≡ mean_of full (entry coefs.now.c) b k }
{
    sum_at(coefs, full, b, k).div_euclid(i32::from(full))
}

/// The mean at the bins of a block from `start` up to the one before `end`.
fn fill_block(coefs: &Coefs, full: u8, b: usize, start: u8, end: u8, out: &mut [i32; 256])
    requires some { 1 ≤ full }
    requires full { full ≤ 5 }
    requires block { b < 6 }
    requires small { (c : ℕ) → c < full → (k : ℕ) → start ≤ k → k < end → unsigned_abs (entry coefs.now.c c b k) < 2 ^ 24 }
    ensures { (k : ℕ) → start ≤ k → k < end → slice_index_or out.new k (pos 0) ≡ mean_of full (entry coefs.now.c) b k }
{
    for k in start..end {
        let at = usize::from(k);
        out[at] = mean_at(coefs, full, b, at);
    }
}

/// The mean at the bins from `start` up to the one before `end`, and 0 elsewhere.
pub fn means(coefs: &Coefs, full: u8, start: u8, end: u8) -> [[i32; 256]; 6]
    requires some { 1 ≤ full }
    requires full { full ≤ 5 }
    requires small { (c : ℕ) → c < full → AreSmallIn (entry coefs.now.c c) start end }
    ensures mean { (b k : ℕ) → b < 6 → start ≤ k → k < end → cell_of result b k ≡ mean_of full (entry coefs.now.c) b k }
    ensures small { AreSmallIn (cell_of result) start end }
{
    let mut rows = [[0; 256]; 6];
    for b in 0..6usize {
        fill_block(coefs, full, b, start, end, &mut rows[b]);
    }
    rows
}
