//! Tests of potentials.
ghost use Rattle.std.specs.Prelude.{◌≡◌, ◌<◌, ◌≤◌, ◌^◌};
ghost use Rattle.ac_expo.specs.Raw.{channels};
ghost use Rattle.ac_cost.specs.Runs.{IsRunOf};
ghost use Rattle.ac_bound.specs.Steps.{kinds_of};
ghost use Rattle.ac_bound.specs.Ways.{potential};
ghost use Rattle.ac_claim.specs.Potentials.{number_of, run_no, kinds_no, ends_no, starts_no, first_part, pots_no, empty_no};
ghost use Rattle.ac_claim.specs.Tests.{result_of};
ghost use Rattle.ac_claim.specs.Walks.{IsBasis};

use crate::basis::{Basis, number, room};
use crate::no::No;
use ac_base::{Lead, Part, Run, Shape};
use ac_bound::{Partial, Pots, lower};

/// Nothing is decided.
pub const NOTHING: Partial = Partial {
    done: 0,
    at: 0,
    spent: [0; 3],
};

/// The kinds of exponents that a coded channel takes (A/52 5.4.3.21 to 5.4.3.23).
pub fn kinds(shape: &Shape, c: u8) -> u8
    requires { c < channels shape.now }
    ensures { result ≡ kinds_of shape.now c }
{
    match shape.span(c).lead {
        Lead::Free | Lead::Coupled | Lead::Coupling => 3,
        Lead::Low => 1,
    }
}

/// The potential of a coded channel in a part at a boundary; there is none at the end of the frame.
fn potential(pots: &Pots, c: u8, part: Part, at: u8) -> u64
    requires channel { c < 7 }
    ensures value { result ≡ potential pots.now.p c (number_of part) at }
    ensures bound { result < 2 ^ 32 }
{
    if at >= 6 {
        return 0;
    }
    u64::from(pots.p[usize::from(c)][number(part)][usize::from(at)])
}

/// Whether a run costs what the potentials fall by.
fn run_test(basis: &Basis, c: u8, part: Part, run: Run) -> Result<(), No>
    requires basis { IsBasis basis.now }
    requires run { IsRunOf basis.now.table.now.shape c run }
    ensures { result ≡ result_of (run_no basis.now.table.now (potential basis.now.pots.now.p) c part run) }
{
    let left = potential(basis.pots, c, part, run.from);
    let cost = basis.table.run_sixths(c, &run)[number(part)];
    let right = u64::from(cost) + potential(basis.pots, c, part, run.to);
    if left > right {
        return Err(No::Potential {
            offset: basis.offset,
            channel: c,
            part,
            run,
            left,
            right,
        });
    }
    Ok(())
}

/// Whether the runs between two boundaries do.
#[tactic(auto, using(crate::proofs::Answering::ends))]
fn kinds_test(basis: &Basis, c: u8, part: Part, from: u8, to: u8) -> Result<(), No>
    requires basis { IsBasis basis.now }
    requires channel { c < channels basis.now.table.now.shape }
    requires order { from < to }
    requires end { to ≤ 6 }
    ensures { result ≡ result_of (kinds_no basis.now.table.now (potential basis.now.pots.now.p) c part from to) }
{
    for coarser in 0..kinds(basis.shape, c) {
        let kind = coarser + 1;
        run_test(basis, c, part, Run { from, to, kind })?;
    }
    Ok(())
}

/// Whether the runs from a boundary on do.
#[tactic(auto, using(crate::proofs::Answering::ends))]
fn ends_test(basis: &Basis, c: u8, part: Part, from: u8) -> Result<(), No>
    requires basis { IsBasis basis.now }
    requires channel { c < channels basis.now.table.now.shape }
    requires start { from < 6 }
    ensures { result ≡ result_of (ends_no basis.now.table.now (potential basis.now.pots.now.p) c part from) }
{
    for longer in 0..6 - from {
        kinds_test(basis, c, part, from, from + 1 + longer)?;
    }
    Ok(())
}

/// Whether all runs of a coded channel do, in a part.
#[tactic(auto, using(crate::proofs::Answering::ends))]
fn starts_test(basis: &Basis, c: u8, part: Part) -> Result<(), No>
    requires basis { IsBasis basis.now }
    requires channel { c < channels basis.now.table.now.shape }
    ensures { result ≡ result_of (starts_no basis.now.table.now (potential basis.now.pots.now.p) c part) }
{
    for from in 0..6u8 {
        ends_test(basis, c, part, from)?;
    }
    Ok(())
}

/// In each part.
#[tactic(auto, using(crate::proofs::Answering::first_fails, crate::proofs::Answering::second, crate::proofs::Answering::none_ok))]
fn channel_test(basis: &Basis, c: u8) -> Result<(), No>
    requires basis { IsBasis basis.now }
    requires channel { c < channels basis.now.table.now.shape }
    ensures { result ≡ result_of (first_part (starts_no basis.now.table.now (potential basis.now.pots.now.p) c)) }
{
    starts_test(basis, c, Part::Front)?;
    starts_test(basis, c, Part::Total)?;
    starts_test(basis, c, Part::Last)
}

/// Whether no run of a coded channel costs less than what the potentials fall by from its first block to its end, or which the
/// first is.
#[tactic(auto, using(crate::proofs::Answering::ends))]
pub fn potential_test(basis: &Basis) -> Result<(), No>
    requires basis { IsBasis basis.now }
    ensures { result ≡ result_of (pots_no basis.now.table.now (potential basis.now.pots.now.p)) }
{
    for c in 0..basis.shape.coded() {
        channel_test(basis, c)?;
    }
    Ok(())
}

/// Whether the potentials alone close the assignment of which nothing is decided.
pub fn empty_test(basis: &Basis) -> Result<(), No>
    requires basis { IsBasis basis.now }
    ensures { result ≡ result_of (empty_no basis.now.table.now (potential basis.now.pots.now.p)) }
{
    let bounds = lower(basis.shape, basis.pots, &NOTHING);
    let total = room(basis.shape, Part::Total);
    if bounds[0] > room(basis.shape, Part::Front)
        || bounds[1] > total
        || bounds[2] > room(basis.shape, Part::Last)
    {
        return Ok(());
    }
    Err(No::Loose {
        offset: basis.offset,
        part: Part::Total,
        bound: bounds[1],
        room: total,
    })
}
