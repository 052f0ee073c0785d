// Bounds of silence, which are worked out by hand, and of frames by a program in another language.
ghost use Rattle.std.specs.Prelude.{ℕ, List, IsTrue};
ghost use Rattle.ac_cost.specs.Parts.{FitsAt, cheapest_assign};

use crate::{Partial, Pots, bound_laws, is_over, lower, root_offset};
use ac_base::Shape;
use ac_cost::{RunTable, cheapest};
use ac_expo::RawExps;
use std::process::Abort;

mod cases;

use cases::{CASES, SILENCE, draw_raw, shape_of};

/// Whether the cheapest assignment fits.
fn cheapest_fits(shape: &Shape) -> bool
    ensures { (raw : List (List (List ℕ))) → IsTrue result → FitsAt shape.now raw 0 (cheapest_assign shape.now) }
{
    cheapest(shape).fit(shape.words)
}

fn root_of(rt: &impl Abort, shape: &Shape, raw: &RawExps) -> u16 {
    assert!(rt; cheapest_fits(shape));
    root_offset(shape, raw)
}

#[test]
fn root_offset_top(rt: HostRuntime) {
    let shape = Shape::new(2, 2, false, 0, None, 1920).expect(&rt, "the shape is one");
    assert_eq!(rt; root_of(&rt, &shape, &SILENCE), 1023);
    bound_laws();
}

#[test]
fn root_bound_over_room(rt: HostRuntime) {
    let shape = Shape::new(2, 1, false, 60, None, 1536).expect(&rt, "the shape is one");
    let table = RunTable::build(&shape, &SILENCE, 1023);
    let nothing = Partial {
        done: 0,
        at: 0,
        spent: [0; 3],
    };
    let bounds = lower(&shape, &Pots::of(&shape, &table), &nothing);
    assert_eq!(rt; bounds[1], 147690);
    assert!(rt; is_over(&shape, &bounds));
}

#[test]
fn potentials_of_silence(rt: HostRuntime) {
    let shape = Shape::new(2, 1, false, 60, None, 1920).expect(&rt, "the shape is one");
    let pots = Pots::of(&shape, &RunTable::build(&shape, &SILENCE, 1023));
    // one list of D45 for all that is left, 159 bits, and 4,048 bits of mantissas in each block
    for at in 0..6usize {
        let blocks = 6 - at as u32;
        assert_eq!(rt; pots.p[0][1][at], 6 * (159 + 4048 * blocks), "{at}");
        assert_eq!(rt; pots.p[0][2][at], 6 * 4048, "{at}");
        assert_eq!(rt; pots.p[1][1][at], 0, "{at}");
    }
}

#[test]
fn root_offsets(rt: HostRuntime) {
    for case in &CASES {
        let shape = shape_of(&rt, case);
        let raw = draw_raw(&shape, case);
        assert_eq!(rt;
            root_of(&rt, &shape, &raw),
            case.offsets[0],
            "{}",
            case.seed
        );
    }
}
