//! The samples of a frame.
ghost use Rattle.std.specs.Prelude.{◌≡◌, ◌+◌, ◌*◌, ◌^◌, ◌<◌, ◌≤◌, ◌+ℤ◌, ◌*ℤ◌, pos, unsigned_abs};
ghost use Rattle.ac_base.specs.Floor.{floor_div};
ghost use Rattle.ac_noise.specs.Noise.{draw_at, left_by, right_by, state_at};
ghost use Rattle.ac_noise.specs.State.{IsFilled};

use crate::draws::{next, top};

/// One sample of both channels, and the state behind its two draws.
#[derive(Clone, Copy)]
struct Sample {
    left: i32,
    right: i32,
    x: u64,
}

/// z / 2^k rounded downwards, in 24 bits.
#[inline]
fn scaled(z: i32, k: u32) -> i32
    requires few { k ≤ 8 }
    requires small { unsigned_abs z ≤ 2 ^ k * 2 ^ 15 }
    ensures value { result ≡ floor_div z (2 ^ k) *ℤ pos 256 }
    ensures bound { unsigned_abs result ≤ 2 ^ 23 }
{
    (z >> k) * 256
}

/// The next sample, divided by 2^step and twice that.
#[inline]
fn sample_of(x: u64, step: u32) -> Sample
    requires { step < 8 }
    ensures left { result.left ≡ floor_div (draw_at x 0) (2 ^ step) *ℤ pos 256 }
    ensures right { result.right ≡ floor_div (draw_at x 0 +ℤ draw_at x 1) (2 * 2 ^ step) *ℤ pos 256 }
    ensures bound_left { unsigned_abs result.left ≤ 2 ^ 23 }
    ensures bound_right { unsigned_abs result.right ≤ 2 ^ 23 }
    ensures state { result.x ≡ state_at x 2 }
{
    let first = next(x);
    let second = next(first);
    let a = top(first);
    Sample {
        left: scaled(a, step),
        right: scaled(a + top(second), step + 1),
        x: second,
    }
}

/// Fills both rows up to `end` with the samples behind the state x, and gives the state behind them.
pub(crate) fn fill(
    x: u64,
    step: u32,
    end: usize,
    left: &mut [i32; 1536],
    right: &mut [i32; 1536],
) -> u64
    requires step { step < 8 }
    requires end { end ≤ 1536 }
    ensures left { IsFilled end (λ t. left_by (2 ^ step) x t *ℤ pos 256) left.old left.new }
    ensures right { IsFilled end (λ t. right_by (2 ^ step) x t *ℤ pos 256) right.old right.new }
    ensures state { result ≡ state_at x (2 * end) }
{
    let mut state = x;
    for t in 0..end {
        let both = sample_of(state, step);
        left[t] = both.left;
        right[t] = both.right;
        state = both.x;
    }
    state
}
