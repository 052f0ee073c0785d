// Windows and counts beside what the table of runs says at single offsets.
ghost use Rattle.std.specs.Prelude.{◌≡◌, ◌≤◌, ◌<◌};
ghost use Rattle.ac_base.specs.Spans.{greatest_kind};

use crate::{RunRows, Window};
use ac_base::{Lead, Run, Shape};
use ac_cost::{RunTable, row_count, run_at};
use ac_expo::RawExps;
use ac_mant::{Counts, sixths};
use std::process::Abort;

static SILENCE: RawExps = RawExps {
    e: [[[24; 256]; 6]; 7],
};

static BLANK: Window = Window {
    six: [[[7; 16]; 63]; 7],
};

/// Draws numbers from 0 to 15.
#[derive(Drop)]
struct Draws {
    x: u64,
}

impl Draws {
    /// The next one.
    fn next(&mut self) -> u8
        ensures { result < 16 }
    {
        self.x = self
            .x
            .wrapping_mul(6364136223846793005)
            .wrapping_add(1442695040888963407);
        (self.x >> 60) as u8
    }
}

/// The raw exponents of a block.
fn draw_block(draws: &mut Draws, lift: u8, out: &mut [u8; 256])
    requires { lift ≤ 8 }
{
    for k in 0..256 {
        out[k] = (lift + draws.next() % 4 + draws.next() / 8 * (k / 24) as u8).min(24);
    }
}

/// Raw exponents that are drawn.
fn draw(seed: u64) -> RawExps {
    let silence = &SILENCE;
    let mut raw = *silence;
    let mut draws = Draws { x: seed };
    for c in 0..7 {
        for b in 0..6 {
            let lift = draws.next() / 2;
            draw_block(&mut draws, lift, &mut raw.e[c][b]);
        }
    }
    raw
}

/// The coarsest kind of a channel.
fn kinds(lead: Lead) -> u8
    ensures { result ≡ greatest_kind lead }
{
    match lead {
        Lead::Low => 1,
        Lead::Free | Lead::Coupled | Lead::Coupling => 3,
    }
}

/// A run's counts by the table and by what is held.
fn both_counts(
    rt: &impl Abort,
    table: &RunTable,
    rows: &RunRows,
    shape: &Shape,
    t: u16,
    c: u8,
    run: &Run,
) -> (Counts, Counts)
    requires table { table.now.shape ≡ shape.now }
    requires rows { rows.now.shape ≡ shape.now }
    requires t { t ≤ 1023 }
{
    assert!(rt; c < shape.coded());
    assert!(rt; run.from < run.to && run.to <= 6);
    assert!(rt; 1 <= run.kind && run.kind <= kinds(shape.span(c).lead));
    (table.run_counts(c, run), rows.counts(t, c, run))
}

/// All runs at an offset, which has place j in a window.
fn compare(rt: &impl Abort, shape: &Shape, raw: &RawExps, rows: &RunRows, t: u16, j: u16)
    requires rows { rows.now.shape ≡ shape.now }
    requires t { t ≤ 1023 }
{
    assert!(rt; j < 16 && j <= t && t - j <= 1008);
    let table = RunTable::build(shape, raw, t);
    let blank = &BLANK;
    let mut window = *blank;
    rows.window(t - j, &mut window);
    for c in 0..shape.coded() {
        for row in 0..row_count(shape.span(c).lead) {
            let (wanted, given) = both_counts(rt, &table, rows, shape, t, c, &run_at(row));
            assert_eq!(rt; given, wanted, "counts {t} {c} {row}");
            assert!(rt;
                wanted.linear <= 4048 && wanted.n1 <= 253 && wanted.n2 <= 253 && wanted.n4 <= 253
            );
            assert_eq!(rt;
                u32::from(window.six[c as usize][row as usize][j as usize]),
                sixths(&wanted),
                "sixths {t} {c} {row}"
            );
        }
    }
}

fn compare_offsets(rt: &impl Abort, shape: &Shape, seed: u64) {
    let raw = draw(seed);
    let rows = RunRows::of(shape, &raw);
    compare(rt, shape, &raw, &rows, 0, 0);
    compare(rt, shape, &raw, &rows, 1, 1);
    compare(rt, shape, &raw, &rows, 500, 7);
    compare(rt, shape, &raw, &rows, 1023, 15);
}

#[test]
fn windows_of_mono(rt: HostRuntime) {
    let shape = Shape::new(0, 1, false, 60, None, 768).expect(&rt, "the shape is one");
    compare_offsets(&rt, &shape, 1);
}

#[test]
fn windows_of_coupled_stereo(rt: HostRuntime) {
    let shape = Shape::new(1, 2, true, 60, Some((3, 9)), 768).expect(&rt, "the shape is one");
    compare_offsets(&rt, &shape, 2);
}
