// The bases beside those of the masks of single runs.
ghost use Rattle.std.specs.Prelude.{◌≤◌, ◌<◌, ℕ, slice_index};
ghost use Rattle.ac_base.specs.Shape.{IsSpan};

use crate::{AddTable, fill_bases};
use ac_alloc::{Mask, Params};
use ac_base::{Span, band_of, coupled_span, coupling_span, free_span, low_span};
use ac_sixths::bases;
use std::process::Abort;

/// Draws exponents.
#[derive(Drop)]
struct Draws {
    x: u64,
}

impl Draws {
    /// The next one, by the one before.
    fn next(&mut self, exponent: u8) -> u8
        ensures { result ≤ 24 }
    {
        self.x = self
            .x
            .wrapping_mul(6364136223846793005)
            .wrapping_add(1442695040888963407);
        (exponent.min(24) + (self.x >> 61) as u8)
            .saturating_sub(3)
            .min(24)
    }
}

/// The exponents of a run.
fn draw(draws: &mut Draws) -> [u8; 256]
    ensures { (k : ℕ) → k < 256 → slice_index result k ≤ 24 }
{
    let mut exps = [24u8; 256];
    let mut exponent = 6;
    for k in 0..256 {
        exponent = draws.next(exponent);
        exps[k] = exponent;
    }
    exps
}

fn level_row(exps: &[u8; 256]) -> [u8; 256]
    requires { (k : ℕ) → k < 256 → slice_index exps.now k ≤ 24 }
{
    let mut levels = [0; 256];
    for k in 0..256 {
        levels[k] = 8 * (24 - exps[k]);
    }
    levels
}

/// A few rows of a span, among silence.
fn compare(rt: &impl Abort, span: &Span, fscod: u8, seed: u64)
    requires span { IsSpan span.now }
    requires fscod { fscod ≤ 2 }
{
    let p = Params::encoder(fscod);
    let table = AddTable::new();
    let mut draws = Draws { x: seed };
    let mut levels = [[0; 256]; 63];
    let mut wanted = [[0; 64]; 50];
    for row in [0, 6, 7, 40, 62] {
        let row: usize = row;
        assert!(rt; row < 63);
        let exps = draw(&mut draws);
        levels[row] = level_row(&exps);
        bases(&Mask::of(&p, span, &exps), row, &mut wanted);
    }
    let mut given = [[7; 64]; 50];
    fill_bases(&table, &p, span, &levels, &mut given);
    for b in band_of(span.start)..band_of(span.end - 1) + 1 {
        let b = b as usize;
        for row in [0, 6, 7, 40, 62] {
            let row: usize = row;
            assert!(rt; row < 63 && b < 50);
            assert_eq!(rt; given[b][row], wanted[b][row], "{span:?} {b} {row}");
        }
    }
}

#[test]
fn bases_of_single_runs(rt: HostRuntime) {
    for seed in 1..4u64 {
        compare(&rt, &free_span(60), 0, seed);
        compare(&rt, &coupled_span(5), 1, seed);
        compare(&rt, &coupling_span(3, 9), 2, seed);
        compare(&rt, &low_span(), 0, seed);
    }
}
