//! Half the sum and half the difference of two channels.
ghost use Rattle.std.specs.Prelude.{◌≡◌, ◌<◌, ◌≤◌, ◌^◌, ◌+ℤ◌, neg_ℤ, pos, ℕ, slice_index_or, unsigned_abs};
ghost use Rattle.ac_energy.specs.Coefficients.{cell_of};
ghost use Rattle.ac_energy.specs.Energy.{AreSmallIn};
ghost use Rattle.ac_rematrix.specs.Halves.{AreHalved, AreHalvedIn};
ghost use Rattle.ac_rematrix.specs.Rematrix.{half_of};

/// Half the sum of two coefficients, rounded downwards.
#[inline]
fn half_sum(l: i32, r: i32) -> i32
    requires left { unsigned_abs l < 2 ^ 24 }
    requires right { unsigned_abs r < 2 ^ 24 }
    ensures { result ≡ half_of (l +ℤ r) }
{
    (l + r) >> 1
}

/// Half their difference, rounded downwards.
#[inline]
fn half_difference(l: i32, r: i32) -> i32
    requires left { unsigned_abs l < 2 ^ 24 }
    requires right { unsigned_abs r < 2 ^ 24 }
    ensures { result ≡ half_of (l +ℤ neg_ℤ r) }
{
    (l - r) >> 1
}

/// Half the sum and half the difference at the bins from `start` up to the one before `end`.
fn halve_row(left: &mut [i32; 256], right: &mut [i32; 256], start: usize, end: usize)
    requires some { start ≤ end }
    requires end { end ≤ 256 }
    requires left { (k : ℕ) → start ≤ k → k < end → unsigned_abs (slice_index_or left.old k (pos 0)) < 2 ^ 24 }
    requires right { (k : ℕ) → start ≤ k → k < end → unsigned_abs (slice_index_or right.old k (pos 0)) < 2 ^ 24 }
    ensures { AreHalved start end
        (λ k. slice_index_or left.old k (pos 0)) (λ k. slice_index_or right.old k (pos 0))
        (λ k. slice_index_or left.new k (pos 0)) (λ k. slice_index_or right.new k (pos 0)) }
{
    for k in start..end {
        let l = left[k];
        let r = right[k];
        left[k] = half_sum(l, r);
        right[k] = half_difference(l, r);
    }
}

/// The same in each of six blocks.
pub fn halve(left: &mut [[i32; 256]; 6], right: &mut [[i32; 256]; 6], start: usize, end: usize)
    requires some { start ≤ end }
    requires end { end ≤ 256 }
    requires left { AreSmallIn (cell_of left.old) start end }
    requires right { AreSmallIn (cell_of right.old) start end }
    ensures { AreHalvedIn 6 start end (cell_of left.old) (cell_of right.old) (cell_of left.new) (cell_of right.new) }
{
    for b in 0..6 {
        halve_row(&mut left[b], &mut right[b], start, end);
    }
}
