//! Energies of coefficients.
#![tactic(auto)]

ghost use Rattle.std.specs.Prelude.{◌≡◌, ◌+◌, ◌-◌, ◌*◌, ◌<◌, ◌≤◌, ◌^◌, ℕ, pos, slice_index_or, unsigned_abs};
ghost use Rattle.ac_base.specs.Sigma.{sum_below};
ghost use Rattle.ac_energy.specs.Coefficients.{cell_of};
ghost use Rattle.ac_energy.specs.Energy.{square, energy_of, AreSmallIn};

/// The square of a coefficient.
fn squared(x: i32) -> u64
    requires { unsigned_abs x < 2 ^ 24 }
    ensures value { result ≡ square x }
    ensures bound { result ≤ 2 ^ 48 }
{
    let size = u64::from(x.unsigned_abs());
    size * size
}

/// The energy of one block.
fn block_energy(row: &[i32; 256], start: u8, end: u8) -> u64
    requires { (k : ℕ) → start ≤ k → k < end → unsigned_abs (slice_index_or row.now k (pos 0)) < 2 ^ 24 }
    ensures value { result ≡ sum_below (end - start) (λ i. square (slice_index_or row.now (start + i) (pos 0))) }
    ensures bound { result ≤ 255 * 2 ^ 48 }
{
    let mut sum: u64 = 0;
    for k in start..end {
        sum += squared(row[usize::from(k)]);
    }
    sum
}

/// The energy of a channel: the sum of the squares of its coefficients in a frame's six blocks, at the bins from `start` up to
/// the one before `end`. They are below 2^24 in magnitude.
pub fn energy(rows: &[[i32; 256]; 6], start: u8, end: u8) -> u64
    requires small { AreSmallIn (cell_of rows.now) start end }
    ensures value { result ≡ energy_of (cell_of rows.now) start end }
    ensures bound { result ≤ 2 ^ 59 }
{
    let mut sum: u64 = 0;
    for b in 0..6 {
        sum += block_energy(&rows[b], start, end);
    }
    sum
}

#[cfg(test)]
mod tests;
