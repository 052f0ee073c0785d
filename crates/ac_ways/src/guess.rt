//! Where the root offset may be: guesses, which may be wrong.
ghost use Rattle.std.specs.Prelude.{◌≡◌, ◌<◌, ◌≤◌};
ghost use Rattle.ac_expo.specs.Raw.{channels};
ghost use Rattle.ac_bound.specs.Steps.{kinds_of};

use crate::bracket::Bracket;
use crate::kinds::Kinds;
use ac_base::{Run, Shape, rooms, side_bits};
use ac_windows::RunRows;

/// What a coded channel costs at an offset with one list of a kind for all blocks, in sixths of a bit.
fn whole(shape: &Shape, rows: &RunRows, t: u16, c: u8, kind: u8, bits: u32) -> u64
    requires same { rows.now.shape ≡ shape.now }
    requires t { t ≤ 1023 }
    requires channel { c < channels shape.now }
    requires some { 1 ≤ kind }
    requires taken { kind ≤ kinds_of shape.now c }
{
    let run = Run {
        from: 0,
        to: 6,
        kind,
    };
    let first = t.min(1008);
    let six = rows.run_window(first, c, &run)[usize::from(t - first)];
    6 * u64::from(bits) + 6 * u64::from(six)
}

/// The lesser cost of its finest and its coarsest list.
fn lesser_whole(shape: &Shape, rows: &RunRows, t: u16, c: u8) -> u64
    requires same { rows.now.shape ≡ shape.now }
    requires t { t ≤ 1023 }
    requires channel { c < channels shape.now }
{
    let kinds = Kinds::of(&shape.span(c));
    let finest = whole(shape, rows, t, c, 1, kinds.bits[1]);
    if kinds.count == 1 {
        return finest;
    }
    finest.min(whole(
        shape,
        rows,
        t,
        c,
        kinds.count,
        kinds.bits[usize::from(kinds.count)],
    ))
}

/// About what a whole frame costs at an offset.
fn estimate(shape: &Shape, rows: &RunRows, t: u16) -> u64
    requires same { rows.now.shape ≡ shape.now }
    requires t { t ≤ 1023 }
{
    let mut cost = 6 * u64::from(side_bits(shape).total);
    for c in 0..shape.coded() {
        cost = cost.saturating_add(lesser_whole(shape, rows, t, c));
    }
    cost
}

/// From an offset and its cost, where a line that gains so much in so many offsets comes to the room.
fn crossing(t: u16, cost: u64, room: u64, offsets: u64, gain: u64) -> u16
    ensures { result ≤ 1023 }
{
    let by = cost.abs_diff(room).saturating_mul(offsets) / gain.max(1);
    let t = u64::from(t);
    if cost <= room {
        t.saturating_add(by).min(1023) as u16
    } else {
        t.saturating_sub(by).min(1023) as u16
    }
}

/// A guess before any window, by three turns of the secant.
pub fn first_guess(shape: &Shape, rows: &RunRows) -> u16
    requires { rows.now.shape ≡ shape.now }
{
    let room = 6 * u64::from(rooms(shape.words).total);
    let mut t = 280;
    let mut cost = estimate(shape, rows, t);
    let mut offsets = 64;
    let mut gain = cost.abs_diff(estimate(shape, rows, 0));
    for _turn in 0..2u32 {
        let next = crossing(t, cost, room, offsets, gain);
        let next_cost = estimate(shape, rows, next);
        offsets = u64::from(next.abs_diff(t));
        gain = next_cost.abs_diff(cost);
        t = next;
        cost = next_cost;
    }
    crossing(t, cost, room, offsets, gain)
}

/// Where a part's total comes to its room, by a window from t0 on.
fn part_guess(totals: &[u64; 16], room: u32, t0: u16) -> u16 {
    let room = 6 * u64::from(room);
    let gain = totals[15].abs_diff(totals[0]);
    crossing(t0, totals[0], room, 15, gain)
}

/// A guess by a window from t0 on: where the first of the parts comes to its room. After three windows the middle of what is left.
pub fn next_guess(
    shape: &Shape,
    totals: &[[u64; 16]; 3],
    t0: u16,
    left: &Bracket,
    turns: u32,
) -> u16 {
    if turns >= 3 {
        return left.low / 2 + left.high / 2;
    }
    let rooms = rooms(shape.words);
    part_guess(&totals[0], rooms.front, t0)
        .min(part_guess(&totals[1], rooms.total, t0))
        .min(part_guess(&totals[2], rooms.last, t0))
}
