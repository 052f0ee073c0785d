// Plans of silence, and of frames by a program in another language.
ghost use Rattle.std.specs.Prelude.{ℕ, List, IsTrue};
ghost use Rattle.ac_cost.specs.Parts.{FitsAt, cheapest_assign};
ghost use Rattle.ac_cost.specs.Runs.{TakesLow};

use crate::{Mark, Plan, Seek, floor_law, plan, seek};
use ac_base::{Parts, Shape};
use ac_bound::{Partial, Pots, is_over, lower, root_offset};
use ac_cost::{RunTable, cheapest};
use ac_expo::{Assign, RawExps, word_at};
use std::process::Abort;

mod cases;
mod rows;

use cases::{Case, SILENCE, draw_five, draw_raw, shape_of};
use rows::CASES;

/// Whether the cheapest assignment fits.
fn cheapest_fits(shape: &Shape) -> bool
    ensures { (raw : List (List (List ℕ))) → IsTrue result → FitsAt shape.now raw 0 (cheapest_assign shape.now) }
{
    cheapest(shape).fit(shape.words)
}

fn plan_of(rt: &impl Abort, shape: &Shape, raw: &RawExps, nodes: u32) -> Plan {
    assert!(rt; cheapest_fits(shape));
    assert!(rt; nodes <= 10000000);
    plan(shape, raw, nodes)
}

fn root_of(rt: &impl Abort, shape: &Shape, raw: &RawExps) -> u16 {
    assert!(rt; cheapest_fits(shape));
    root_offset(shape, raw)
}

fn seek_at(rt: &impl Abort, shape: &Shape, raw: &RawExps, t: u16, nodes: u32) -> Seek {
    assert!(rt; t <= 1023);
    assert!(rt; nodes <= 10000000);
    let table = RunTable::build(shape, raw, t);
    seek(shape, &table, &Pots::of(shape, &table), nodes)
}

/// Whether there is no LFE.
fn has_no_low(shape: &Shape) -> bool
    ensures { (assign : List (List ℕ)) → IsTrue result → TakesLow shape.now assign }
{
    !shape.lfe
}

/// Whether an assignment fits.
fn fits(rt: &impl Abort, shape: &Shape, raw: &RawExps, t: u16, a: &Assign) -> bool {
    assert!(rt; t <= 1023);
    assert!(rt; has_no_low(shape));
    RunTable::build(shape, raw, t).fits(a)
}

fn parts(rt: &impl Abort, shape: &Shape, raw: &RawExps, t: u16, a: &Assign) -> Parts {
    assert!(rt; t <= 1023);
    assert!(rt; has_no_low(shape));
    RunTable::build(shape, raw, t).parts(a)
}

/// D45 in block 0 and reuse after it, in each channel.
fn coarse() -> Assign {
    Assign {
        w: [word_at(2048); 7],
    }
}

/// The lower bounds where nothing is decided of silence at the top.
fn silence_bounds(shape: &Shape) -> [u64; 3] {
    let table = RunTable::build(shape, &SILENCE, 1023);
    let nothing = Partial {
        done: 0,
        at: 0,
        spent: [0; 3],
    };
    lower(shape, &Pots::of(shape, &table), &nothing)
}

fn mono(rt: &impl Abort, words: u16) -> Shape {
    Shape::new(2, 1, false, 60, None, words).expect(rt, "the shape is one")
}

fn stereo(rt: &impl Abort) -> Shape {
    Shape::new(2, 2, false, 0, None, 1920).expect(rt, "the shape is one")
}

#[test]
fn silence_best_top(rt: HostRuntime) {
    let plan = plan_of(&rt, &mono(&rt, 1920), &SILENCE, 10000000);
    assert_eq!(rt; plan.offset, 1023);
    assert_eq!(rt; plan.mark, Mark::Best);
}

#[test]
fn stereo_silence_parts(rt: HostRuntime) {
    let top = parts(&rt, &stereo(&rt), &SILENCE, 1023, &coarse());
    assert_eq!(rt; top.front, 4913);
    assert_eq!(rt; top.total, 14335);
    assert_eq!(rt; top.last, 2336);
}

#[test]
fn plan_without_nodes(rt: HostRuntime) {
    let plan = plan_of(&rt, &stereo(&rt), &SILENCE, 0);
    assert_eq!(rt; plan.offset, 1023);
    assert_eq!(rt; plan.mark, Mark::Best);
    floor_law();
}

#[test]
fn seek_one_node(rt: HostRuntime) {
    let shape = mono(&rt, 1536);
    assert_eq!(rt;
        seek_at(&rt, &shape, &SILENCE, 1023, 1),
        Seek::Never { used: 1 }
    );
    assert_eq!(rt; seek_at(&rt, &shape, &SILENCE, 1023, 0), Seek::Spent);
}

#[test]
fn silence_potentials(rt: HostRuntime) {
    let shape = mono(&rt, 1920);
    let pots = Pots::of(&shape, &RunTable::build(&shape, &SILENCE, 1023));
    assert_eq!(rt; pots.p[0][0][0], 49530);
    assert_eq!(rt; pots.p[0][1][0], 146682);
    assert_eq!(rt; pots.p[0][2][0], 24288);
}

#[test]
fn search_answers_unchanged(rt: HostRuntime) {
    let top = parts(&rt, &mono(&rt, 1920), &SILENCE, 1023, &coarse());
    assert_eq!(rt; top.front, 8365);
    assert_eq!(rt; top.total, 24615);
    assert_eq!(rt; top.last, 4048);
    assert_eq!(rt; root_of(&rt, &stereo(&rt), &SILENCE), 1023);
    let small = mono(&rt, 1536);
    let bounds = silence_bounds(&small);
    assert_eq!(rt; bounds[1], 147690);
    assert!(rt; is_over(&small, &bounds));
}

#[test]
fn five_channel_search(rt: HostRuntime) {
    let shape = Shape::new(0, 7, false, 0, None, 896).expect(&rt, "the shape is one");
    let raw = draw_five(&shape, 0);
    let root = root_of(&rt, &shape, &raw);
    // the seed is the first for which no uniform assignment fits at the root offset
    let floor = plan_of(&rt, &shape, &raw, 0);
    assert!(rt; floor.offset < root);
    let plan = plan_of(&rt, &shape, &raw, 20000);
    assert!(rt; plan.offset <= root);
    assert!(rt; fits(&rt, &shape, &raw, plan.offset, &plan.assign));
}

#[test]
fn mono_always_best(rt: HostRuntime) {
    for case in &CASES[..8] {
        let shape = shape_of(&rt, case);
        let raw = draw_raw(&shape, case);
        let plan = plan_of(&rt, &shape, &raw, 0);
        assert_eq!(rt; plan.offset, case.offsets[2], "{}", case.seed);
        assert_eq!(rt; plan.mark, Mark::Best, "{}", case.seed);
    }
}

/// The mark at an offset below a bound, or at it.
fn mark(offset: u16, upper: u16) -> Mark {
    if offset == upper {
        Mark::Best
    } else {
        Mark::Bounded { upper }
    }
}

#[test]
fn floor_without_nodes(rt: HostRuntime) {
    for case in &CASES[8..16] {
        let shape = shape_of(&rt, case);
        let raw = draw_raw(&shape, case);
        let [upper, floor, _] = case.offsets;
        let plan = plan_of(&rt, &shape, &raw, 0);
        assert_eq!(rt; plan.offset, floor, "{}", case.seed);
        assert_eq!(rt; plan.mark, mark(floor, upper), "{}", case.seed);
    }
}

#[test]
fn best_with_nodes(rt: HostRuntime) {
    for case in &CASES[8..] {
        let shape = shape_of(&rt, case);
        let raw = draw_raw(&shape, case);
        assert_eq!(rt;
            root_of(&rt, &shape, &raw),
            case.offsets[0],
            "{}",
            case.seed
        );
        let plan = plan_of(&rt, &shape, &raw, 1000000);
        assert_eq!(rt; plan.offset, case.offsets[2], "{}", case.seed);
        assert_eq!(rt; plan.mark, Mark::Best, "{}", case.seed);
    }
}

#[test]
fn bound_where_nodes_are_spent(rt: HostRuntime) {
    for case in &CASES[16..22] {
        let shape = shape_of(&rt, case);
        let raw = draw_raw(&shape, case);
        let [_, floor, best] = case.offsets;
        let nodes = case
            .sizes
            .iter()
            .fold(0u32, |sum, size| sum.wrapping_add(*size));
        let plan = plan_of(&rt, &shape, &raw, nodes);
        assert_eq!(rt; plan.offset, floor, "{}", case.seed);
        assert_eq!(rt; plan.mark, mark(floor, best), "{}", case.seed);
    }
}

/// The tree of an offset has so many nodes.
fn check_size(rt: &impl Abort, shape: &Shape, raw: &RawExps, t: u16, used: u32) {
    let whole = seek_at(rt, shape, raw, t, used);
    assert_eq!(rt; whole, Seek::Never { used }, "{t}");
    let cut = seek_at(rt, shape, raw, t, used.saturating_sub(1));
    assert_eq!(rt; cut, Seek::Spent, "{t}");
}

fn check_sizes(rt: &impl Abort, case: &Case) {
    let shape = shape_of(rt, case);
    let raw = draw_raw(&shape, case);
    let mut t = case.offsets[0];
    for size in case.sizes.iter().filter(|size| **size > 0) {
        check_size(rt, &shape, &raw, t, *size);
        t = t.wrapping_sub(1);
    }
    assert_eq!(rt; t, case.offsets[2]);
}

#[test]
fn tree_sizes(rt: HostRuntime) {
    for case in &CASES {
        check_sizes(&rt, case);
    }
}
