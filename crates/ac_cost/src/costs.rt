//! What tells the costs of the runs of a frame at an offset.
ghost use Rattle.std.specs.Prelude.{◌≡◌, ◌≤◌, ◌^◌, ℕ, slice_index};
ghost use Rattle.ac_mant.specs.Counts.{tally};
ghost use Rattle.ac_cost.specs.Pointers.{run_tally};
ghost use Rattle.ac_cost.specs.Prices.{AreFew};
ghost use Rattle.ac_cost.specs.Records.{AtOffset};
ghost use Rattle.ac_cost.specs.Runs.{IsRunOf};
ghost use Rattle.ac_cost.specs.Sixths.{sixths_by_part};

use ac_base::Run;
use ac_mant::Counts;

/// What each run of each coded channel costs, for one shape, raw exponents and offset.
pub trait RunCosts {
    /// The shape, the raw exponents and the offset.
    ghost offset: { Self → AtOffset };

    /// The mantissas of a run of a coded channel in one of its blocks, which are the same in each (A/52 7.3.5).
    fn run_counts(&self, channel: u8, run: &Run) -> Counts
        requires { IsRunOf (offset self.now).shape channel run.now }
        ensures value { tally result ≡ run_tally (offset self.now).shape (offset self.now).raw (offset self.now).t channel run.now }
        ensures bound { AreFew 1 result };

    /// What a run costs in sixths of a bit, each mantissa with its share of a group: in the front, in the whole frame, and in the
    /// mantissas of block 5.
    fn run_sixths(&self, channel: u8, run: &Run) -> [u32; 3]
        requires { IsRunOf (offset self.now).shape channel run.now }
        ensures value { result ≡ sixths_by_part (offset self.now).shape (offset self.now).raw (offset self.now).t channel run.now }
        ensures bound { (part : ℕ) → slice_index result part ≤ 2 ^ 19 };
}
