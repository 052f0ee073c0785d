// Certificates of silence, and of frames by a program in another language.
ghost use Rattle.std.specs.Prelude.{◌<◌, ◌≤◌, ℕ, List, IsTrue, slice_index};
ghost use Rattle.ac_cost.specs.Parts.{FitsAt, cheapest_assign};
ghost use Rattle.ac_trees.specs.Made.{AreInRange};

use crate::certify;
use ac_base::{Part, Shape};
use ac_claim::{Cert, Levels, No, Tree, Verdict, check};
use ac_cost::cheapest;
use ac_expo::RawExps;
use std::alloc::Global;
use std::process::Abort;

mod cases;

use cases::{CASES, Case, SILENCE, draw_raw, shape_of};

/// Whether the cheapest assignment fits.
fn cheapest_fits(shape: &Shape) -> bool
    ensures { (raw : List (List (List ℕ))) → IsTrue result → FitsAt shape.now raw 0 (cheapest_assign shape.now) }
{
    cheapest(shape).fit(shape.words)
}

/// Whether no entry of a row is over 24.
fn is_low(row: &[u8; 256]) -> bool
    ensures { IsTrue result → (k : ℕ) → k < 256 → slice_index row.now k ≤ 24 }
{
    row.iter().all(|e| *e <= 24)
}

/// Whether no raw exponent is over 24.
fn is_in_range(shape: &Shape, raw: &RawExps) -> bool
    ensures { IsTrue result → AreInRange shape.now raw.now.e }
{
    let _ = shape;
    for place in 0..42usize {
        if !is_low(&raw.e[place / 6][place % 6]) {
            return false;
        }
    }
    true
}

fn cert_of(rt: &impl Abort, alloc: Global, shape: &Shape, raw: &RawExps) -> Cert {
    assert!(rt; cheapest_fits(shape));
    assert!(rt; is_in_range(shape, raw));
    certify(alloc, shape, raw, 1000).expect(rt, "there is memory")
}

/// How many nodes a tree has.
fn nodes(tree: &Tree) -> u32 {
    match tree {
        Tree::Closed(_) | Tree::Full(_) => 1,
        Tree::Split(trees) => {
            let mut sum = 1u32;
            for tree in trees.as_slice() {
                sum = sum.wrapping_add(nodes(tree));
            }
            sum
        }
    }
}

#[test]
fn silence_at_the_top(rt: HostRuntime) {
    let shape = Shape::new(2, 1, false, 60, None, 1920).expect(&rt, "the shape is one");
    let cert = cert_of(&rt, rt.alloc(), &shape, &SILENCE);
    assert_eq!(rt; cert.top, 1023);
    assert!(rt; cert.over.is_none());
    assert_eq!(rt; cert.trees.len(), 0);
    assert_eq!(rt;
        check(&cert),
        Ok(Verdict {
            offset: 1023,
            upper: 1023
        })
    );
}

fn check_case(rt: &impl Abort, alloc: Global, case: &Case) {
    let shape = shape_of(rt, case);
    let raw = draw_raw(&shape, case);
    let cert = cert_of(rt, alloc, &shape, &raw);
    let [root, best] = case.offsets;
    assert_eq!(rt; cert.top, root);
    assert_eq!(rt;
        check(&cert),
        Ok(Verdict {
            offset: best,
            upper: best
        })
    );
    let mut sizes = [0; 5];
    for (size, level) in sizes.iter_mut().zip(cert.trees.as_slice()) {
        *size = nodes(&level.tree);
    }
    assert_eq!(rt; sizes, case.sizes);
}

#[test]
fn trees_of_frames(rt: HostRuntime) {
    for case in &CASES {
        check_case(&rt, rt.alloc(), case);
    }
}

/// A certificate's levels with one more in the potential of channel 0, the whole frame and boundary 0 of the first.
fn raised(cert: Cert) -> Cert {
    let Cert {
        shape,
        raw,
        offset,
        upper,
        assign,
        top,
        over,
        trees,
    } = cert;
    let mut levels = trees.into_vec();
    if let Some(level) = levels.first_mut() {
        level.pots.p[0][1][0] = level.pots.p[0][1][0].wrapping_add(1);
    }
    Cert {
        shape,
        raw,
        offset,
        upper,
        assign,
        top,
        over,
        trees: Levels::from_vec(levels),
    }
}

#[test]
fn raised_potential(rt: HostRuntime) {
    let case = &CASES[0];
    let shape = shape_of(&rt, case);
    let cert = raised(cert_of(&rt, rt.alloc(), &shape, &draw_raw(&shape, case)));
    let Err(
        No::Potential {
            offset,
            channel,
            part,
            left,
            right,
            ..
        },
    ) = check(&cert)
    else {
        panic!(rt; "the potential is passed");
    };
    assert_eq!(rt; offset, cert.top);
    assert_eq!(rt; channel, 0);
    assert_eq!(rt; part, Part::Total);
    assert_eq!(rt; left, right.wrapping_add(1));
}
