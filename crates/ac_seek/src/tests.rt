// Trees of silence, and of frames by a program in another language.

use crate::{Seek, seek, tree_laws};
use ac_base::Shape;
use ac_bound::Pots;
use ac_cost::RunTable;
use ac_expo::RawExps;
use std::process::Abort;

mod cases;

use cases::{CASES, SILENCE, draw_raw, shape_of};

/// Searches at an offset.
fn seek_at(rt: &impl Abort, shape: &Shape, raw: &RawExps, t: u16, nodes: u32) -> Seek {
    assert!(rt; t <= 1023);
    assert!(rt; nodes <= 10000000);
    let table = RunTable::build(shape, raw, t);
    let pots = Pots::of(shape, &table);
    seek(shape, &table, &pots, nodes)
}

#[test]
fn silence_closed_at_the_root(rt: HostRuntime) {
    let shape = Shape::new(2, 1, false, 60, None, 1536).expect(&rt, "the shape is one");
    assert_eq!(rt;
        seek_at(&rt, &shape, &SILENCE, 1023, 1),
        Seek::Never { used: 1 }
    );
    assert_eq!(rt; seek_at(&rt, &shape, &SILENCE, 1023, 0), Seek::Spent);
    tree_laws();
}

#[test]
fn tree_sizes(rt: HostRuntime) {
    for case in &CASES {
        let shape = shape_of(&rt, case);
        let raw = draw_raw(&shape, case);
        let used = case.nodes;
        let whole = seek_at(&rt, &shape, &raw, case.offset, used);
        assert_eq!(rt; whole, Seek::Never { used }, "{}", case.seed);
        let cut = seek_at(&rt, &shape, &raw, case.offset, used.saturating_sub(1));
        assert_eq!(rt; cut, Seek::Spent, "{}", case.seed);
        let best = seek_at(&rt, &shape, &raw, case.best, 100000);
        assert!(rt; matches!(best, Seek::Fits(_)), "{}", case.seed);
    }
}
