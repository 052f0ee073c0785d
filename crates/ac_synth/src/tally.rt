//! What is counted of the frames.
ghost use Rattle.std.specs.Prelude.{◌≡◌, ◌+◌, ◌<◌, ◌^◌};
ghost use Rattle.ac_synth.specs.Synth.{best_count, bounded_count};

use ac_plan::Mark;

/// The numbers of frames whose plan is the best and whose plan has a bound, and the sum of the magnitudes of the samples decoded.
#[derive(Clone, Copy)]
pub struct Tally {
    pub best: u32,
    pub bounded: u32,
    pub sum: u64,
}

/// One frame more, of a plan with this mark and of this sum.
pub fn counted(tally: Tally, mark: Mark, sum: u64) -> Tally
    requires few { tally.best + tally.bounded < 2 ^ 31 }
    requires small { tally.sum + sum < 2 ^ 63 }
    ensures best { result.best ≡ tally.best + best_count mark }
    ensures bounded { result.bounded ≡ tally.bounded + bounded_count mark }
    ensures sum { result.sum ≡ tally.sum + sum }
{
    let sum = tally.sum + sum;
    match mark {
        Mark::Best => Tally {
            best: tally.best + 1,
            bounded: tally.bounded,
            sum,
        },
        Mark::Bounded { .. } => Tally {
            best: tally.best,
            bounded: tally.bounded + 1,
            sum,
        },
    }
}
