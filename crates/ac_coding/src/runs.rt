//! The run that has a block.
ghost use Rattle.std.specs.Prelude.{◌≡◌, ◌<◌};
ghost use Rattle.ac_cost.specs.Runs.{has, run_with};
ghost use Rattle.ac_coding.specs.Values.{run_at};

use ac_base::Run;
use ac_expo::{Assign, runs};

/// Whether a run has a block.
fn has(run: &Run, block: u8) -> bool
    ensures { result ≡ has run.now block }
{
    run.from <= block && block < run.to
}

/// The first of these runs that has a block.
fn find(runs: &[Run], block: u8) -> Run
    ensures { result ≡ run_with runs.now block }
{
    for run in runs {
        if has(run, block) {
            return *run;
        }
    }
    Run {
        from: 0,
        to: 0,
        kind: 0,
    }
}

/// The run of coded channel `c` that has a block.
pub fn run_at(assign: &Assign, c: u8, block: u8) -> Run
    requires { c < 7 }
    ensures { result ≡ run_at assign.now.w c block }
{
    find(runs(&assign.w[usize::from(c)]).as_slice(), block)
}
