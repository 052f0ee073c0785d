ghost use Rattle.std.specs.Prelude.{◌<◌, ◌^◌, ℕ, pos, IsTrue, slice_index_or, unsigned_abs};
ghost use Rattle.ac_energy.specs.Coefficients.{cell_of, entry};

use super::{couple, couples, energy};
use ac_base::{Coefs, Shape};
use std::process::Abort;

mod cases;

use cases::{CASES, Case, FULL, SHARED};

/// Whether the coefficients of a block are less than 2^24 in magnitude.
fn is_small_row(row: &[i32; 256]) -> bool
    ensures { IsTrue result → (k : ℕ) → k < 256 → unsigned_abs (slice_index_or row.now k (pos 0)) < 2 ^ 24 }
{
    for k in 0..256usize {
        if row[k].unsigned_abs() >= 1 << 24 {
            return false;
        }
    }
    true
}

/// Whether those of a channel are.
fn is_small_channel(rows: &[[i32; 256]; 6]) -> bool
    ensures { IsTrue result → (b k : ℕ) → b < 6 → k < 256 → unsigned_abs (cell_of rows.now b k) < 2 ^ 24 }
{
    for b in 0..6usize {
        if !is_small_row(&rows[b]) {
            return false;
        }
    }
    true
}

/// Whether those of all channels are.
fn are_small(coefs: &Coefs) -> bool
    ensures { IsTrue result → (c b k : ℕ) → c < 7 → b < 6 → k < 256 → unsigned_abs (entry coefs.now.c c b k) < 2 ^ 24 }
{
    for c in 0..7usize {
        if !is_small_channel(&coefs.c[c]) {
            return false;
        }
    }
    true
}

fn full_at(at: usize) -> i32 {
    if at < 136 { FULL[at] } else { 0 }
}

fn shared_at(at: usize) -> i32 {
    if at < 42 { SHARED[at] } else { 0 }
}

/// The channels of a case from bin 37 of block 3 on, and 5 at the first place of LFE behind them.
fn coefs_of(case: &Case, full: usize) -> Coefs
    requires { full < 6 }
{
    let mut coefs = Coefs::zeros();
    let bins = usize::from(case.bins);
    for c in 0..full {
        for i in 0..bins.min(12) {
            coefs.c[c][3][37 + i] = full_at(usize::from(case.full_at) + c * bins + i);
        }
    }
    coefs.c[full][0][0] = 5;
    coefs
}

/// Whether the coupling channel has the case's coefficients.
fn is_shared(row: &[i32; 256], case: &Case) -> bool {
    for i in 0..usize::from(case.bins.min(12)) {
        if row[37 + i] != shared_at(usize::from(case.shared_at) + i) {
            return false;
        }
    }
    true
}

fn assert_case(rt: &impl Abort, case: &Case) {
    let shape = Shape::new(0, case.acmod, true, 60, Some((0, 0)), 768).expect(
        rt,
        "the shape is one",
    );
    let full = usize::from(shape.full());
    let mut coefs = coefs_of(case, full);
    assert!(rt; are_small(&coefs));
    assert!(rt; couples(&coefs, &shape) == case.worth);
    couple(&mut coefs, &shape);
    assert!(rt; is_shared(&coefs.c[full][3], case));
    assert_eq!(rt; coefs.c[full + 1][0][0], 5);
    assert!(rt; is_small_channel(&coefs.c[full]));
    assert_eq!(rt; energy(&coefs.c[full], 37, 73), case.energy);
}

#[test]
fn couples_by_energies(rt: HostRuntime) {
    for case in &CASES {
        assert_case(&rt, case);
    }
}
