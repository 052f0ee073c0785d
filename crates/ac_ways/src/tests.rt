// Potentials of silence, which are worked out by hand, those of frames beside those of single offsets, and root offsets by a program
// in another language.
ghost use Rattle.std.specs.Prelude.{◌<◌, ℕ, List, IsTrue};
ghost use Rattle.ac_cost.specs.Parts.{FitsAt, cheapest_assign};

use crate::{Ways, pots_at, root, ways};
use ac_base::Shape;
use ac_bound::Pots;
use ac_cost::{RunTable, cheapest};
use ac_expo::RawExps;
use ac_windows::{RunRows, Window};
use std::process::Abort;

mod cases;
mod rows;

use cases::{SILENCE, draw_raw, shape_of};
use rows::CASES;

static WINDOW: Window = Window {
    six: [[[0; 16]; 63]; 7],
};

static WAYS: Ways = Ways {
    p: [[[[0; 16]; 7]; 3]; 7],
};

/// Whether the cheapest assignment fits.
fn cheapest_fits(shape: &Shape) -> bool
    ensures { (raw : List (List (List ℕ))) → IsTrue result → FitsAt shape.now raw 0 (cheapest_assign shape.now) }
{
    cheapest(shape).fit(shape.words)
}

fn root_of(rt: &impl Abort, shape: &Shape, raw: &RawExps) -> u16 {
    assert!(rt; cheapest_fits(shape));
    let window = &WINDOW;
    let mut window = *window;
    let none = &WAYS;
    let mut at_each = *none;
    root(shape, &RunRows::of(shape, raw), &mut window, &mut at_each).offset
}

/// The potentials at sixteen offsets.
fn ways_from(rt: &impl Abort, shape: &Shape, raw: &RawExps, t0: u16) -> Ways {
    assert!(rt; t0 <= 1008);
    let window = &WINDOW;
    let mut window = *window;
    let found = &WAYS;
    let mut found = *found;
    RunRows::of(shape, raw).window(t0, &mut window);
    ways(shape, &window, &mut found);
    found
}

/// Those at one offset.
fn single(rt: &impl Abort, shape: &Shape, raw: &RawExps, t: u16) -> Pots {
    assert!(rt; t <= 1023);
    Pots::of(shape, &RunTable::build(shape, raw, t))
}

#[test]
fn silence_potentials(rt: HostRuntime) {
    let shape = Shape::new(2, 1, false, 60, None, 1920).expect(&rt, "the shape is one");
    let found = ways_from(&rt, &shape, &SILENCE, 1008);
    let pots = pots_at(&found, 15);
    assert_eq!(rt; pots.p[0][0][0], 49530);
    assert_eq!(rt; pots.p[0][1][0], 146682);
    assert_eq!(rt; pots.p[0][2][0], 24288);
    assert_eq!(rt; found.p[0][1][6][15], 0);
}

#[test]
fn potentials_of_frames(rt: HostRuntime) {
    for case in &CASES[6..12] {
        let shape = shape_of(&rt, case);
        let raw = draw_raw(&shape, case);
        for t0 in [0, 290] {
            let found = ways_from(&rt, &shape, &raw, t0);
            for j in [0u16, 7, 15] {
                assert!(rt; t0 <= 1008);
                assert_eq!(rt;
                    pots_at(&found, usize::from(j)),
                    single(&rt, &shape, &raw, t0 + j),
                    "{t0} {j}"
                );
            }
        }
    }
}

#[test]
fn roots(rt: HostRuntime) {
    for case in &CASES {
        let shape = shape_of(&rt, case);
        let raw = draw_raw(&shape, case);
        assert_eq!(rt;
            root_of(&rt, &shape, &raw),
            case.offsets[0],
            "{}",
            case.seed
        );
    }
}
