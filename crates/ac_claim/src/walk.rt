//! The runs of a partial assignment, one by one.
ghost use Rattle.std.specs.Prelude.{◌≡◌, ◌≤◌, ◌<◌, ◌+◌, ◌^◌, ℕ, slice_index, [], ◌∷◌, IfSome, MatchOption};
ghost use Rattle.ac_seek.specs.Games.{IsNext, channel_of, boundary_of, channel_after, boundary_after};
ghost use Rattle.ac_seek.specs.Walks.{later_steps};
ghost use Rattle.ac_seek.specs.Words.{game_of};
ghost use Rattle.ac_claim.specs.Walks.{Stands};

use crate::path::Path;
use crate::potentials::kinds;
use ac_base::{Run, Shape};
use ac_bound::Partial;
use ac_cost::RunTable;
use ac_seek::Step;

/// The first run that may come next.
pub fn first(partial: &Partial) -> Step
    requires { partial.now.at < 6 }
    ensures { result ≡ record { channel = partial.now.done; run = record { from = partial.now.at; to = partial.now.at + 1; kind = 1 } } }
{
    Step {
        channel: partial.done,
        run: Run {
            from: partial.at,
            to: partial.at + 1,
            kind: 1,
        },
    }
}

/// The run behind this one in the order of those that may come in its place.
pub fn sibling(shape: &Shape, table: &RunTable, step: &Step) -> Option<Step>
    requires same { table.now.shape ≡ shape.now }
    requires run { IsNext (game_of table.now) step.now.channel step.now.run.from step.now }
    ensures next { let kinds = (game_of table.now).kinds in
        MatchOption result (later_steps kinds step.now ≡ []) (λ next. later_steps kinds step.now ≡ next ∷ later_steps kinds next) }
    ensures fine { IfSome result (λ next. IsNext (game_of table.now) step.now.channel step.now.run.from next) }
{
    let _ = table;
    let run = step.run;
    if run.kind < kinds(shape, step.channel) {
        Some(Step {
            channel: step.channel,
            run: Run {
                kind: run.kind + 1,
                ..run
            },
        })
    } else if run.to < 6 {
        Some(Step {
            channel: step.channel,
            run: Run {
                to: run.to + 1,
                kind: 1,
                ..run
            },
        })
    } else {
        None
    }
}

/// Where a run leads: a channel, and a boundary between its blocks.
fn after(step: &Step) -> (u8, u8)
    requires channel { step.now.channel < 7 }
    ensures channel { result.0 ≡ channel_after step.now }
    ensures boundary { result.1 ≡ boundary_after step.now }
{
    if step.run.to == 6 {
        (step.channel + 1, 0)
    } else {
        (step.channel, step.run.to)
    }
}

/// The sum of each two.
fn more(a: &[u64; 3], b: &[u32; 3]) -> [u64; 3]
    requires few { (part : ℕ) → part < 3 → slice_index a.now part ≤ 2 ^ 40 }
    requires small { (part : ℕ) → slice_index b.now part ≤ 2 ^ 19 }
    ensures { (part : ℕ) → part < 3 → slice_index result part ≡ slice_index a.now part + slice_index b.now part }
{
    [
        a[0] + u64::from(b[0]),
        a[1] + u64::from(b[1]),
        a[2] + u64::from(b[2]),
    ]
}

/// Decides one run more.
pub fn add(table: &RunTable, path: &mut Path, partial: &Partial, step: Step) -> Partial
    requires stands { Stands table.now path.old partial.now }
    requires next { IsNext (game_of table.now) (channel_of path.old) (boundary_of path.old) step }
    ensures path { path.new ≡ step ∷ path.old }
    ensures stands { Stands table.now path.new result }
{
    let (done, at) = after(&step);
    let cost = table.run_sixths(step.channel, &step.run);
    let spent = more(&partial.spent, &cost);
    path.push(step);
    Partial { done, at, spent }
}
