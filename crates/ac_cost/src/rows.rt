//! The runs of a coded channel by number.
ghost use Rattle.std.specs.Prelude.{◌≡◌, ◌<◌, ◌≤◌};
ghost use Rattle.ac_base.specs.Words.{IsRun};
ghost use Rattle.ac_cost.specs.Rows.{run_of, row_of, rows_of};

use ac_base::{Lead, Run};

/// How many runs a channel can have: 21 ranges of blocks, in three kinds.
pub const ROWS: usize = 63;

/// How many ranges of blocks there are.
const RANGES: u8 = 21;

/// The first block of each range.
static FROMS: [u8; 21] = [
    0, 0, 0, 0, 0, 0, 1, 1, 1, 1, 1, 2, 2, 2, 2, 3, 3, 3, 4, 4, 5,
];

/// The block behind its last.
static TOS: [u8; 21] = [
    1, 2, 3, 4, 5, 6, 2, 3, 4, 5, 6, 3, 4, 5, 6, 4, 5, 6, 5, 6, 6,
];

/// The number of the first range from each block on.
static FIRSTS: [u8; 6] = [0, 6, 11, 15, 18, 20];

/// How many of the rows are runs of a channel: LFE has one kind alone.
pub fn row_count(lead: Lead) -> u8
    ensures value { result ≡ rows_of lead }
    ensures bound { result ≤ 63 }
{
    match lead {
        Lead::Free | Lead::Coupled | Lead::Coupling => 63,
        Lead::Low => 21,
    }
}

/// The run of a row.
pub fn run_at(row: u8) -> Run
    requires { row < 63 }
    ensures value { result ≡ run_of row }
    ensures run { IsRun result }
{
    let range = usize::from(row % RANGES);
    Run {
        from: FROMS[range],
        to: TOS[range],
        kind: row / RANGES + 1,
    }
}

/// The row of a run.
pub fn row(run: &Run) -> usize
    requires { IsRun run.now }
    ensures value { result ≡ row_of run.now }
    ensures bound { result < 63 }
{
    let first = FIRSTS[usize::from(run.from)];
    usize::from(RANGES * (run.kind - 1) + first + (run.to - run.from - 1))
}
