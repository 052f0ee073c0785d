//! Partial assignments.
ghost use Rattle.std.specs.Prelude.{◌≡◌, ◌<◌, ◌≤◌, ◌+◌, ◌*◌, ◌^◌, ℕ, List, [], ◌∷◌, slice_index, IfSome, MatchOption};
ghost use Rattle.ac_expo.specs.Raw.{channels};
ghost use Rattle.ac_bound.specs.Steps.{kinds_of};
ghost use Rattle.ac_seek.specs.declared.step.Step.{Step};
ghost use Rattle.ac_seek.specs.Games.{IsNext, channel_after, boundary_after};
ghost use Rattle.ac_seek.specs.Walks.{later_steps};
ghost use Rattle.ac_seek.specs.Words.{game_of};
ghost use Rattle.ac_trees.specs.Nodes.{IsAt, IsUnfit, AreWith};

use ac_base::{Lead, Run, Shape};
use ac_bound::Partial;
use ac_cost::RunTable;
use ac_seek::Step;

/// What of an assignment is decided, and the strategy codes of its runs, six for each of seven channels. What isn't decided has
/// D15 in block 0 and reuse after it.
#[derive(Clone, Copy, Debug)]
pub struct Node {
    pub partial: Partial,
    pub codes: [u8; 42],
}

/// The codes before any run.
static START: [u8; 42] = [
    1, 0, 0, 0, 0, 0, 1, 0, 0, 0, 0, 0, 1, 0, 0, 0, 0, 0, 1, 0, 0, 0, 0, 0, 1, 0, 0, 0, 0, 0, 1, 0,
    0, 0, 0, 0, 1, 0, 0, 0, 0, 0,
];

impl Node {
    /// Nothing is decided.
    pub fn root(table: &RunTable) -> Node
        ensures at { IsAt table.now [] result }
    {
        let _ = table;
        Node {
            partial: Partial {
                done: 0,
                at: 0,
                spent: [0; 3],
            },
            codes: START,
        }
    }
}

/// The kinds of exponents that a coded channel takes (A/52 5.4.3.21 to 5.4.3.23).
pub fn kinds(shape: &Shape, c: u8) -> u8
    requires { c < channels shape.now }
    ensures { result ≡ kinds_of shape.now c }
{
    match shape.span(c).lead {
        Lead::Free | Lead::Coupled | Lead::Coupling => 3,
        Lead::Low => 1,
    }
}

/// The first run that may come next.
pub fn first(partial: &Partial) -> Step
    requires { partial.now.at < 6 }
    ensures { result ≡ record { channel = partial.now.done; run = record { from = partial.now.at; to = partial.now.at + 1; kind = 1 } } }
{
    Step {
        channel: partial.done,
        run: Run {
            from: partial.at,
            to: partial.at + 1,
            kind: 1,
        },
    }
}

/// The run behind this one in the order of those that may come in its place, where its channel takes so many kinds.
pub fn sibling(table: &RunTable, kinds: u8, step: &Step) -> Option<Step>
    requires kinds { kinds ≡ (game_of table.now).kinds step.now.channel }
    requires run { IsNext (game_of table.now) step.now.channel step.now.run.from step.now }
    ensures next { let kinds = (game_of table.now).kinds in
        MatchOption result (later_steps kinds step.now ≡ []) (λ next. later_steps kinds step.now ≡ next ∷ later_steps kinds next) }
    ensures fine { IfSome result (λ next. IsNext (game_of table.now) step.now.channel step.now.run.from next) }
{
    let _ = table;
    let run = step.run;
    if run.kind < kinds {
        Some(Step {
            channel: step.channel,
            run: Run {
                kind: run.kind + 1,
                ..run
            },
        })
    } else if run.to < 6 {
        Some(Step {
            channel: step.channel,
            run: Run {
                to: run.to + 1,
                kind: 1,
                ..run
            },
        })
    } else {
        None
    }
}

/// Where a run leads: a channel, and a boundary between its blocks.
fn after(step: &Step) -> (u8, u8)
    requires channel { step.now.channel < 7 }
    ensures channel { result.0 ≡ channel_after step.now }
    ensures boundary { result.1 ≡ boundary_after step.now }
{
    if step.run.to == 6 {
        (step.channel + 1, 0)
    } else {
        (step.channel, step.run.to)
    }
}

/// The sum of each two.
fn more(a: &[u64; 3], b: &[u32; 3]) -> [u64; 3]
    requires few { (part : ℕ) → part < 3 → slice_index a.now part ≤ 2 ^ 40 }
    requires small { (part : ℕ) → slice_index b.now part ≤ 2 ^ 19 }
    ensures { (part : ℕ) → part < 3 → slice_index result part ≡ slice_index a.now part + slice_index b.now part }
{
    [
        a[0] + u64::from(b[0]),
        a[1] + u64::from(b[1]),
        a[2] + u64::from(b[2]),
    ]
}

/// Codes with that of one run more.
fn with_code(codes: &[u8; 42], step: &Step) -> [u8; 42]
    requires channel { step.now.channel < 7 }
    requires block { step.now.run.from < 6 }
    ensures { AreWith codes.now step.now result }
{
    let mut codes = *codes;
    codes[6 * usize::from(step.channel) + usize::from(step.run.from)] = step.run.kind;
    codes
}

/// One run more is decided. Where nothing that begins with the runs of the node fits, nothing does that begins with the child's.
pub fn child(table: &RunTable, node: &Node, step: &Step) -> Node
    requires unfit { IsUnfit table.now node.now }
    requires next { IsNext (game_of table.now) node.now.partial.done node.now.partial.at step.now }
    ensures at { (path : List Step) → IsAt table.now path node.now → IsAt table.now (step.now ∷ path) result }
    ensures unfit { IsUnfit table.now result }
    ensures channel { result.partial.done ≡ channel_after step.now }
    ensures boundary { result.partial.at ≡ boundary_after step.now }
{
    let cost = table.run_sixths(step.channel, &step.run);
    let (done, at) = after(step);
    Node {
        partial: Partial {
            done,
            at,
            spent: more(&node.partial.spent, &cost),
        },
        codes: with_code(&node.codes, step),
    }
}
