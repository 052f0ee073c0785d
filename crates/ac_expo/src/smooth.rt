//! Lists whose neighbours differ by at most 2.
ghost use Rattle.std.specs.Prelude.{◌≡◌, ℕ, ◌+◌, ◌-◌, ◌<◌, ◌≤◌, length, slice_index};
ghost use Rattle.ac_expo.specs.Least.{spread};

/// Lowers each step as little as its neighbours ask, in a pass up and a pass down.
pub fn smooth(steps: &mut [u8])
    requires some { 0 < length steps.old }
    requires small { (k : ℕ) → slice_index steps.old k ≤ 24 }
    ensures { (k : ℕ) → k < length steps.old → slice_index steps.new k ≡ spread (length steps.old - 1) (slice_index steps.old) k }
{
    for k in 1..steps.len() {
        steps[k] = steps[k].min(steps[k - 1] + 2);
    }
    for k in (1..steps.len()).rev() {
        steps[k - 1] = steps[k - 1].min(steps[k] + 2);
    }
}
