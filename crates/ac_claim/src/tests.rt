// Certificates of silence, made by hand.

use crate::{Cert, Level, Levels, No, Tree, Verdict, certificate_laws, check};
use ac_base::{Part, Run, Shape};
use ac_bound::Pots;
use ac_cost::RunTable;
use ac_expo::{Assign, RawExps, Word, word_at};
use sqlite_items::Items;
use std::alloc::Global;
use std::process::Abort;

static SILENCE: RawExps = RawExps {
    e: [[[24; 256]; 6]; 7],
};

static GREATEST: Pots = Pots {
    p: [[[u32::MAX; 6]; 3]; 7],
};

fn silence() -> RawExps {
    let silence = &SILENCE;
    *silence
}

/// D45 in block 0 and reuse after it, in mono.
fn coarse(rt: &impl Abort) -> Assign {
    let word = Word::new([3, 0, 0, 0, 0, 0]).expect(rt, "the word is one");
    let other = word_at(0);
    Assign {
        w: [word, other, other, other, other, other, other],
    }
}

fn mono(rt: &impl Abort, words: u16) -> Shape {
    Shape::new(2, 1, false, 60, None, words).expect(rt, "the shape is one")
}

#[test]
fn smallest_certificate(rt: HostRuntime) {
    let mut cert = Cert {
        shape: mono(&rt, 1920),
        raw: silence(),
        offset: 1023,
        upper: 1023,
        assign: coarse(&rt),
        top: 1023,
        over: None,
        trees: Levels::from_vec(Vec::new(rt.alloc())),
    };
    let verdict = Verdict {
        offset: 1023,
        upper: 1023,
    };
    assert_eq!(rt; check(&cert), Ok(verdict));
    cert.upper = 1022;
    let no = No::BadClaim {
        low: 1023,
        high: 1022,
    };
    assert_eq!(rt; check(&cert), Err(no));
    certificate_laws();
}

/// The potentials of silence at the top.
fn pots_of(rt: &impl Abort) -> Pots {
    let shape = mono(rt, 1536);
    Pots::of(&shape, &RunTable::build(&shape, &SILENCE, 1023))
}

/// A certificate of silence with one level.
fn hand(rt: &impl Abort, alloc: Global, upper: u16, pots: Pots, tree: Tree) -> Cert {
    let mut levels = Vec::new(alloc);
    levels
        .push(Level { pots, tree })
        .expect(rt, "there is memory");
    Cert {
        shape: mono(rt, 1536),
        raw: silence(),
        offset: 0,
        upper,
        assign: coarse(rt),
        top: 1023,
        over: None,
        trees: Levels::from_vec(levels),
    }
}

#[test]
fn hand_certificate(rt: HostRuntime) {
    let cert = hand(
        &rt,
        rt.alloc(),
        1022,
        pots_of(&rt),
        Tree::Closed(Part::Total),
    );
    let verdict = Verdict {
        offset: 0,
        upper: 1022,
    };
    assert_eq!(rt; check(&cert), Ok(verdict));
}

#[test]
fn hand_closed_by_front(rt: HostRuntime) {
    let cert = hand(
        &rt,
        rt.alloc(),
        1022,
        pots_of(&rt),
        Tree::Closed(Part::Front),
    );
    let no = No::Loose {
        offset: 1023,
        part: Part::Front,
        bound: 50190,
        room: 92160,
    };
    assert_eq!(rt; check(&cert), Err(no));
}

#[test]
fn hand_level_missing(rt: HostRuntime) {
    let cert = hand(
        &rt,
        rt.alloc(),
        1021,
        pots_of(&rt),
        Tree::Closed(Part::Total),
    );
    assert_eq!(rt; check(&cert), Err(No::Missing { have: 1, want: 2 }));
}

#[test]
fn hand_potential_raised(rt: HostRuntime) {
    let mut pots = pots_of(&rt);
    let raised = pots.p[0][1][0].saturating_add(1);
    pots.p[0][1][0] = raised;
    let cert = hand(&rt, rt.alloc(), 1022, pots, Tree::Closed(Part::Total));
    let Err(
        No::Potential {
            offset,
            channel,
            part,
            left,
            right,
            ..
        },
    ) = check(&cert)
    else {
        panic!(rt; "another answer");
    };
    assert_eq!(rt; (offset, channel, part), (1023, 0, Part::Total));
    assert_eq!(rt; left, u64::from(raised));
    assert_eq!(rt; right.checked_add(1), Some(left));
}

#[test]
fn hand_empty_split(rt: HostRuntime) {
    let cert = hand(
        &rt,
        rt.alloc(),
        1022,
        pots_of(&rt),
        Tree::Split(Items::new(rt.alloc())),
    );
    let no = No::Children {
        offset: 1023,
        have: 0,
        want: 18,
    };
    assert_eq!(rt; check(&cert), Err(no));
}

#[test]
fn greatest_potentials(rt: HostRuntime) {
    let greatest = &GREATEST;
    let cert = hand(&rt, rt.alloc(), 1022, *greatest, Tree::Closed(Part::Total));
    let no = No::Potential {
        offset: 1023,
        channel: 0,
        part: Part::Front,
        run: Run {
            from: 0,
            to: 6,
            kind: 1,
        },
        left: 4294967295,
        right: 52176,
    };
    assert_eq!(rt; check(&cert), Err(no));
}

#[test]
fn raw_exponent_over(rt: HostRuntime) {
    let mut cert = hand(
        &rt,
        rt.alloc(),
        1022,
        pots_of(&rt),
        Tree::Closed(Part::Total),
    );
    cert.raw.e[0][0][0] = 25;
    let no = No::BadRaw {
        channel: 0,
        block: 0,
        bin: 0,
    };
    assert_eq!(rt; check(&cert), Err(no));
}

/// A split for each boundary down to a whole assignment in one first child after the other, and one split more.
fn too_deep(rt: &impl Abort, alloc: Global) -> Tree {
    let mut tree = Tree::Split(Items::new(alloc));
    for left in 1..7u32 {
        let mut children = Items::new(alloc);
        children.push(tree).expect(rt, "there is memory");
        for _ in 1..3 * left {
            let closed = Tree::Closed(Part::Total);
            children.push(closed).expect(rt, "there is memory");
        }
        tree = Tree::Split(children);
    }
    tree
}

#[test]
fn split_below_whole(rt: HostRuntime) {
    let tree = too_deep(&rt, rt.alloc());
    let cert = hand(&rt, rt.alloc(), 1022, pots_of(&rt), tree);
    let no = No::Children {
        offset: 1023,
        have: 0,
        want: 0,
    };
    assert_eq!(rt; check(&cert), Err(no));
}
