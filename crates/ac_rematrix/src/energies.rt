//! The energies of a band: those of both channels, of their sum and of their difference, in one pass.
ghost use Rattle.std.specs.Prelude.{◌≡◌, ◌<◌, ◌≤◌, ◌^◌, ◌+◌, ◌-◌, ◌*◌, ◌+ℤ◌, neg_ℤ, pos, ℕ, slice_index_or, min, unsigned_abs};
ghost use Rattle.ac_energy.specs.Coefficients.{cell_of};
ghost use Rattle.ac_energy.specs.Energy.{square, AreSmallIn};
ghost use Rattle.ac_rematrix.specs.Energies.{with_row, blocks_energies, AreAtMost, AreSmallBins};
ghost use Rattle.ac_rematrix.specs.Rematrix.{is_weaker};

/// The energies of the left channel, the right channel, their sum and their difference.
#[derive(Clone, Copy, Debug, PartialEq, Eq)]
pub struct Energies {
    pub left: u64,
    pub right: u64,
    pub plus: u64,
    pub less: u64,
}

/// The square of a number below 2^25 in magnitude.
#[inline]
fn square(x: i32) -> u64
    requires { unsigned_abs x < 2 ^ 25 }
    ensures value { result ≡ square x }
    ensures bound { result < 2 ^ 50 }
{
    let size = u64::from(x.unsigned_abs());
    size * size
}

/// The sum of two coefficients.
#[inline]
fn plus(l: i32, r: i32) -> i32
    requires left { unsigned_abs l < 2 ^ 24 }
    requires right { unsigned_abs r < 2 ^ 24 }
    ensures value { result ≡ l +ℤ r }
    ensures bound { unsigned_abs result < 2 ^ 25 }
{
    l + r
}

/// Their difference.
#[inline]
fn less(l: i32, r: i32) -> i32
    requires left { unsigned_abs l < 2 ^ 24 }
    requires right { unsigned_abs r < 2 ^ 24 }
    ensures value { result ≡ l +ℤ neg_ℤ r }
    ensures bound { unsigned_abs result < 2 ^ 25 }
{
    l - r
}

/// The energies with those of one bin more.
#[inline]
fn add_bin(sums: Energies, l: i32, r: i32) -> Energies
    requires left { unsigned_abs l < 2 ^ 24 }
    requires right { unsigned_abs r < 2 ^ 24 }
    requires room { AreAtMost (2 ^ 62) sums }
    ensures left { result.left ≡ sums.left + square l }
    ensures right { result.right ≡ sums.right + square r }
    ensures plus { result.plus ≡ sums.plus + square (l +ℤ r) }
    ensures less { result.less ≡ sums.less + square (l +ℤ neg_ℤ r) }
{
    Energies {
        left: sums.left + square(l),
        right: sums.right + square(r),
        plus: sums.plus + square(plus(l, r)),
        less: sums.less + square(less(l, r)),
    }
}

/// The energies with those of `count` bins of a block.
fn add_row(
    energies: Energies,
    left: &[i32; 256],
    right: &[i32; 256],
    start: usize,
    count: usize,
) -> Energies
    requires end { start + count ≤ 256 }
    requires left { AreSmallBins (λ k. slice_index_or left.now k (pos 0)) start count }
    requires right { AreSmallBins (λ k. slice_index_or right.now k (pos 0)) start count }
    requires room { AreAtMost (5 * 2 ^ 58) energies }
    ensures { result ≡ with_row energies (λ k. slice_index_or left.now k (pos 0)) (λ k. slice_index_or right.now k (pos 0)) start count }
{
    let mut sums = energies;
    for i in 0..count {
        sums = add_bin(sums, left[start + i], right[start + i]);
    }
    sums
}

/// The energies of `count` bins of six blocks.
fn sum_blocks(
    left: &[[i32; 256]; 6],
    right: &[[i32; 256]; 6],
    start: usize,
    count: usize,
) -> Energies
    requires end { start + count ≤ 256 }
    requires left { (b : ℕ) → b < 6 → AreSmallBins (cell_of left.now b) start count }
    requires right { (b : ℕ) → b < 6 → AreSmallBins (cell_of right.now b) start count }
    ensures value { result ≡ blocks_energies (cell_of left.now) (cell_of right.now) start count 6 }
    ensures bound { AreAtMost (6 * 2 ^ 58) result }
{
    let mut sums = Energies {
        left: 0,
        right: 0,
        plus: 0,
        less: 0,
    };
    for b in 0..6 {
        sums = add_row(sums, &left[b], &right[b], start, count);
    }
    sums
}

/// Whether the sum or the difference has less than four times the energy of the weaker channel in the bins from `start` up to the one
/// before `end`.
#[tactic(auto, unfolding(ac_energy::specs::Energy::energy_of))]
pub fn is_weaker(left: &[[i32; 256]; 6], right: &[[i32; 256]; 6], start: usize, end: usize) -> bool
    requires some { start ≤ end }
    requires end { end ≤ 256 }
    requires left { AreSmallIn (cell_of left.now) start end }
    requires right { AreSmallIn (cell_of right.now) start end }
    ensures { result ≡ is_weaker (cell_of left.now) (cell_of right.now) start end }
{
    let e = sum_blocks(left, right, start, end - start);
    e.plus.min(e.less) < 4 * e.left.min(e.right)
}
