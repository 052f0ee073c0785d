//! One look at a partial assignment, and the way to the next.
ghost use Rattle.std.specs.Prelude.{◌≡◌, ◌≤◌, ◌<◌, ◌+◌, ◌-◌, ◌*◌, ◌^◌, ◌||◌, ℕ, nat_le, slice_index, slice_index_or, [], ◌∷◌, IfSome, IsNone, IsTrue, IsFalse, MatchOption};
ghost use Rattle.ac_expo.specs.Raw.{channels};
ghost use Rattle.ac_cost.specs.Parts.{FitsAt};
ghost use Rattle.ac_cost.specs.Runs.{IsAssignmentOf};
ghost use Rattle.ac_seek.specs.Boards.{IsBoard};
ghost use Rattle.ac_seek.specs.Games.{IsNext, channel_of, boundary_of, channel_after, boundary_after};
ghost use Rattle.ac_seek.specs.Walks.{Holds, later_steps, laters, IsPassed, IsTurn};
ghost use Rattle.ac_seek.specs.Words.{game_of, FitsHere};

use crate::board::{Board, kinds_at, place};
use crate::known::Known;
use crate::path::Path;
use crate::step::Step;
use crate::words::{assignment, codes};
use ac_base::Run;
use ac_bound::Partial;
use ac_cost::{RunCosts, assign_fits};
use ac_expo::Assign;

/// The first run that may come next.
fn first(partial: &Partial) -> Step
    requires { partial.now.at < 6 }
    ensures { result ≡ record { channel = partial.now.done; run = record { from = partial.now.at; to = partial.now.at + 1; kind = 1 } } }
{
    Step {
        channel: partial.done,
        run: Run {
            from: partial.at,
            to: partial.at + 1,
            kind: 1,
        },
    }
}

/// The run behind this one in the order of those that may come in its place.
fn sibling<C: RunCosts>(board: &Board<C>, step: &Step) -> Option<Step>
    requires board { IsBoard C.offset board.now }
    requires run { IsNext (game_of (C.offset board.now.table.now)) step.now.channel step.now.run.from step.now }
    ensures next { let kinds = (game_of (C.offset board.now.table.now)).kinds in
        MatchOption result (later_steps kinds step.now ≡ []) (λ next. later_steps kinds step.now ≡ next ∷ later_steps kinds next) }
    ensures fine { IfSome result (λ next. IsNext (game_of (C.offset board.now.table.now)) step.now.channel step.now.run.from next) }
{
    let run = step.run;
    if run.kind < kinds_at(board, step.channel) {
        Some(Step {
            channel: step.channel,
            run: Run {
                kind: run.kind + 1,
                ..run
            },
        })
    } else if run.to < 6 {
        Some(Step {
            channel: step.channel,
            run: Run {
                to: run.to + 1,
                kind: 1,
                ..run
            },
        })
    } else {
        None
    }
}

/// Where a run leads: a channel, and a boundary between its blocks.
fn after(step: &Step) -> (u8, u8)
    requires channel { step.now.channel < 7 }
    ensures channel { result.0 ≡ channel_after step.now }
    ensures boundary { result.1 ≡ boundary_after step.now }
{
    if step.run.to == 6 {
        (step.channel + 1, 0)
    } else {
        (step.channel, step.run.to)
    }
}

/// The sum of each two.
fn more(a: &[u64; 3], b: &[u32; 3]) -> [u64; 3]
    requires few { (part : ℕ) → part < 3 → slice_index a.now part ≤ 2 ^ 40 }
    requires small { (part : ℕ) → slice_index b.now part ≤ 2 ^ 19 }
    ensures { (part : ℕ) → part < 3 → slice_index result part ≡ slice_index a.now part + slice_index b.now part }
{
    [
        a[0] + u64::from(b[0]),
        a[1] + u64::from(b[1]),
        a[2] + u64::from(b[2]),
    ]
}

/// The difference of each two.
fn less(a: &[u64; 3], b: &[u32; 3]) -> [u64; 3]
    requires { (part : ℕ) → part < 3 → slice_index b.now part ≤ slice_index a.now part }
    ensures { (part : ℕ) → part < 3 → slice_index result part ≡ slice_index a.now part - slice_index b.now part }
{
    [
        a[0] - u64::from(b[0]),
        a[1] - u64::from(b[1]),
        a[2] - u64::from(b[2]),
    ]
}

/// Decides one run more.
fn add<C: RunCosts>(board: &Board<C>, path: &mut Path, partial: &mut Partial, step: Step)
    requires board { IsBoard C.offset board.now }
    requires held { Holds (game_of (C.offset board.now.table.now)) path.old partial.old }
    requires next { IsNext (game_of (C.offset board.now.table.now)) (channel_of path.old) (boundary_of path.old) step }
    ensures path { path.new ≡ step ∷ path.old }
    ensures held { Holds (game_of (C.offset board.now.table.now)) path.new partial.new }
{
    let (done, at) = after(&step);
    let cost = board.costs[place(&step)];
    let spent = more(&partial.spent, &cost);
    *partial = Partial { done, at, spent };
    path.push(step);
}

/// Takes the latest run back.
fn take<C: RunCosts>(board: &Board<C>, path: &mut Path, partial: &mut Partial) -> Option<Step>
    requires board { IsBoard C.offset board.now }
    requires held { Holds (game_of (C.offset board.now.table.now)) path.old partial.old }
    ensures path { MatchOption result ((path.old ≡ []) × (path.new ≡ [])) (λ step. path.old ≡ step ∷ path.new) }
    ensures held { Holds (game_of (C.offset board.now.table.now)) path.new partial.new }
{
    let step = path.pop()?;
    let cost = board.costs[place(&step)];
    let spent = less(&partial.spent, &cost);
    *partial = Partial {
        done: step.channel,
        at: step.run.from,
        spent,
    };
    Some(step)
}

/// Goes to the next partial assignment that is to be looked at, and says whether there is one.
fn advance<C: RunCosts>(board: &Board<C>, path: &mut Path, partial: &mut Partial) -> bool
    requires board { IsBoard C.offset board.now }
    requires held { Holds (game_of (C.offset board.now.table.now)) path.old partial.old }
    ensures next { let kinds = (game_of (C.offset board.now.table.now)).kinds in
        IsTrue result → laters kinds path.old ≡ path.new ∷ laters kinds path.new }
    ensures end { IsFalse result → laters (game_of (C.offset board.now.table.now)).kinds path.old ≡ [] }
    ensures held { Holds (game_of (C.offset board.now.table.now)) path.new partial.new }
{
    while let Some(step) = take(board, path, partial) {
        if let Some(next) = sibling(board, &step) {
            add(board, path, partial, next);
            return true;
        }
    }
    false
}

/// Whether the lower bound of a partial assignment is over the room in some part.
fn is_closed<C: RunCosts>(board: &Board<C>, partial: &Partial) -> bool
    requires channel { partial.now.done < 8 }
    requires boundary { partial.now.at < 6 }
    ensures { let limits = slice_index_or board.now.limits (6 * partial.now.done + partial.now.at) [] in
        result ≡ (nat_le (slice_index limits 0) (slice_index partial.now.spent 0)
        || nat_le (slice_index limits 1) (slice_index partial.now.spent 1)
        || nat_le (slice_index limits 2) (slice_index partial.now.spent 2)) }
{
    let limits = board.limits[6 * usize::from(partial.done) + usize::from(partial.at)];
    limits[0] <= partial.spent[0] || limits[1] <= partial.spent[1] || limits[2] <= partial.spent[2]
}

/// The words of a whole assignment, if they fit.
fn fitting<C: RunCosts>(
    board: &Board<C>,
    known: &mut Known<C>,
    path: &Path,
    partial: &Partial,
) -> Option<Assign>
    requires board { IsBoard C.offset board.now }
    requires known { known.old ≡ C.offset board.now.table.now }
    requires held { Holds (game_of (C.offset board.now.table.now)) path.now partial.now }
    requires whole { channels (C.offset board.now.table.now).shape ≤ partial.now.done }
    ensures some { IfSome result (λ a. IsAssignmentOf (C.offset board.now.table.now).shape a.w) }
    ensures fits { let v = C.offset board.now.table.now in IfSome result (λ a. FitsAt v.shape v.raw v.t a.w) }
    ensures none { IsNone result → FitsHere (C.offset board.now.table.now) path.now → ⊥ }
    ensures kept { known.new ≡ known.old }
{
    known.learn(board.shape, path.steps());
    let assign = assignment(&codes(path));
    if assign_fits(board.shape, known, &assign) {
        Some(assign)
    } else {
        None
    }
}

/// What one look found: an assignment that fits, that nothing is left, or that the search goes on.
#[derive(Clone, Copy, Debug)]
pub enum Turn {
    Found(Assign),
    Ended,
    Goes,
}

/// Goes on where nothing that begins as this partial assignment fits.
fn pass<C: RunCosts>(board: &Board<C>, path: &mut Path, partial: &mut Partial) -> Turn
    requires board { IsBoard C.offset board.now }
    requires held { Holds (game_of (C.offset board.now.table.now)) path.old partial.old }
    ensures held { Holds (game_of (C.offset board.now.table.now)) path.new partial.new }
    ensures step { IsPassed (C.offset board.now.table.now) path.old path.new result }
{
    if advance(board, path, partial) {
        Turn::Goes
    } else {
        Turn::Ended
    }
}

/// Looks at one partial assignment, and goes to the next.
pub fn look<C: RunCosts>(
    board: &Board<C>,
    known: &mut Known<C>,
    path: &mut Path,
    partial: &mut Partial,
) -> Turn
    requires board { IsBoard C.offset board.now }
    requires known { known.old ≡ C.offset board.now.table.now }
    requires held { Holds (game_of (C.offset board.now.table.now)) path.old partial.old }
    ensures held { Holds (game_of (C.offset board.now.table.now)) path.new partial.new }
    ensures step { IsTurn (C.offset board.now.table.now) path.old path.new result }
    ensures kept { known.new ≡ known.old }
{
    if is_closed(board, partial) {
        return pass(board, path, partial);
    }
    if partial.done < board.shape.coded() {
        let step = first(partial);
        add(board, path, partial, step);
        return Turn::Goes;
    }
    match fitting(board, known, path, partial) {
        Some(assign) => Turn::Found(assign),
        None => pass(board, path, partial),
    }
}
