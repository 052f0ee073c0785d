//! What a search looks up.
ghost use Rattle.std.specs.Prelude.{◌≡◌, ◌≤◌, ◌<◌, ◌+◌, ◌*◌, ◌/◌, ◌%◌, ◌^◌, ◌↔◌, ℕ, IsTrue, slice_index};
ghost use Rattle.ac_base.specs.Words.{IsRun};
ghost use Rattle.ac_expo.specs.Raw.{channels};
ghost use Rattle.ac_cost.specs.Runs.{IsRunOf};
ghost use Rattle.ac_bound.specs.Steps.{kinds_of};
ghost use Rattle.ac_bound.specs.Ways.{ArePots, potential};
ghost use Rattle.ac_seek.specs.Boards.{place_of, HasCost, AreCosts, AreSmall, HasBound, HasLimit, AreLimits, IsStand, IsBoard};

use crate::step::Step;
use ac_base::{Lead, Run, Shape, rooms};
use ac_bound::{Partial, Pots, lower};
use ac_cost::RunCosts;

/// How many places there are for runs.
pub const PLACES: usize = 882;

/// How many places there are for boundaries.
const BOUNDARIES: usize = 48;

/// The sixths of each run, the least spent sixths that close a partial assignment at each boundary of a channel, in each part, and
/// the kinds of exponents of each coded channel.
#[derive(Drop)]
pub struct Board<'a, C> {
    pub shape: &'a Shape,
    pub table: &'a C,
    pub costs: [[u32; 3]; 882],
    pub limits: [[u64; 3]; 48],
    pub kinds: [u8; 7],
}

/// The place of a run.
pub fn place(step: &Step) -> usize
    requires channel { step.now.channel < 7 }
    requires run { IsRun step.now.run }
    ensures value { result ≡ place_of step.now }
    ensures bound { result < 882 }
{
    126 * usize::from(step.channel)
        + 42 * usize::from(step.run.kind - 1)
        + 7 * usize::from(step.run.from)
        + usize::from(step.run.to)
}

/// The kinds of exponents that a coded channel takes (A/52 5.4.3.21 to 5.4.3.23).
pub fn kinds(shape: &Shape, c: u8) -> u8
    requires { c < channels shape.now }
    ensures { result ≡ kinds_of shape.now c }
{
    match shape.span(c).lead {
        Lead::Free | Lead::Coupled | Lead::Coupling => 3,
        Lead::Low => 1,
    }
}

/// Those of each coded channel.
fn all_kinds(shape: &Shape) -> [u8; 7]
    ensures { (c : ℕ) → c < channels shape.now → slice_index result c ≡ kinds_of shape.now c }
{
    let mut all = [0; 7];
    for c in 0..shape.coded() {
        all[usize::from(c)] = kinds(shape, c);
    }
    all
}

/// Whether a coded channel can have a run.
pub fn is_run(shape: &Shape, channel: u8, run: &Run) -> bool
    ensures { IsTrue result ↔ IsRunOf shape.now channel run.now }
{
    channel < shape.coded()
        && run.from < run.to
        && run.to <= 6
        && 1 <= run.kind
        && run.kind <= kinds(shape, channel)
}

/// The sixths of the run of a place, in each part.
fn cost<C: RunCosts>(shape: &Shape, table: &C, place: usize) -> [u32; 3]
    requires same { (C.offset table.now).shape ≡ shape.now }
    requires place { place < 882 }
    ensures value { HasCost (C.offset table.now) place result }
    ensures small { (part : ℕ) → slice_index result part ≤ 2 ^ 19 }
{
    let channel = (place / 126) as u8;
    let run = Run {
        from: (place % 42 / 7) as u8,
        to: (place % 7) as u8,
        kind: (place % 126 / 42 + 1) as u8,
    };
    if is_run(shape, channel, &run) {
        table.run_sixths(channel, &run)
    } else {
        [0; 3]
    }
}

/// Those of all places; behind the coded channels there are no runs.
fn costs<C: RunCosts>(shape: &Shape, table: &C) -> [[u32; 3]; 882]
    requires { (C.offset table.now).shape ≡ shape.now }
    ensures value { AreCosts (C.offset table.now) result }
    ensures small { AreSmall result }
{
    let mut costs = [[0; 3]; PLACES];
    let coded = usize::from(shape.coded());
    for place in 0..126 * coded {
        costs[place] = cost(shape, table, place);
    }
    costs
}

/// What of an assignment is decided at a place, where nothing is spent.
fn stand(shape: &Shape, place: usize) -> Partial
    requires { place < 48 }
    ensures value { IsStand shape.now place result }
{
    let done = (place / 6) as u8;
    let coded = shape.coded();
    if done < coded {
        Partial {
            done,
            at: (place % 6) as u8,
            spent: [0; 3],
        }
    } else {
        Partial {
            done: coded,
            at: 0,
            spent: [0; 3],
        }
    }
}

/// The lower bound at a place in each part, where nothing is spent.
fn bound(shape: &Shape, pots: &Pots, place: usize) -> [u64; 3]
    requires { place < 48 }
    ensures value { HasBound shape.now (potential pots.now.p) place result }
{
    lower(shape, pots, &stand(shape, place))
}

/// The least spent sixths that close a partial assignment at a place, in each part.
fn limit(shape: &Shape, pots: &Pots, place: usize) -> [u64; 3]
    requires { place < 48 }
    ensures value { HasLimit shape.now (potential pots.now.p) place result }
{
    let bound = bound(shape, pots, place);
    let rooms = rooms(shape.words);
    [
        (6 * u64::from(rooms.front) + 1).saturating_sub(bound[0]),
        (6 * u64::from(rooms.total) + 1).saturating_sub(bound[1]),
        (6 * u64::from(rooms.last) + 1).saturating_sub(bound[2]),
    ]
}

/// Those of the boundaries of all coded channels, and behind the last.
fn limits(shape: &Shape, pots: &Pots) -> [[u64; 3]; 48]
    ensures { AreLimits shape.now (potential pots.now.p) result }
{
    let mut limits = [[0; 3]; BOUNDARIES];
    let coded = usize::from(shape.coded());
    for place in 0..6 * coded + 6 {
        limits[place] = limit(shape, pots, place);
    }
    limits
}

impl<'a, C: RunCosts> Board<'a, C> {
    /// What a search at the offset of a table looks up.
    pub fn of(shape: &'a Shape, table: &'a C, pots: &Pots) -> Board<'a, C>
        requires same { (C.offset table.now).shape ≡ shape.now }
        requires potentials { ArePots (C.offset table.now) (potential pots.now.p) }
        ensures board { IsBoard C.offset result }
        ensures table { result.table.now ≡ table.now }
    {
        Board {
            shape,
            table,
            costs: costs(shape, table),
            limits: limits(shape, pots),
            kinds: all_kinds(shape),
        }
    }
}

/// The kinds of exponents that a coded channel takes.
#[tactic(auto, using(crate::proofs::Places::few_coded))]
pub fn kinds_at<C: RunCosts>(board: &Board<C>, c: u8) -> u8
    requires board { IsBoard C.offset board.now }
    requires channel { c < channels (C.offset board.now.table.now).shape }
    ensures { result ≡ kinds_of (C.offset board.now.table.now).shape c }
{
    board.kinds[usize::from(c)]
}
