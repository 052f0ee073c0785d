//! Potentials at sixteen offsets.
ghost use Rattle.std.specs.Prelude.{◌≡◌, ◌<◌, ℕ, [], slice_index, slice_index_or};
ghost use Rattle.ac_cost.specs.Records.{AtOffset};
ghost use Rattle.ac_bound.specs.Ways.{ArePots, potential};
ghost use Rattle.ac_ways.specs.Columns.{entry_of};
ghost use Rattle.ac_ways.specs.Sixteen.{ways_at};

use ac_bound::Pots;

/// The least sixths of a bit of all ways on to the end of the frame at sixteen SNR offsets side by side: by coded channel, part (0
/// the front, 1 the whole frame, 2 the mantissas of block 5), boundary between blocks, and offset. At boundary 6 they are 0.
#[derive(Clone, Copy, Debug)]
pub struct Ways {
    pub p: [[[[u32; 16]; 7]; 3]; 7],
}

static ZEROS: Pots = Pots {
    p: [[[0; 6]; 3]; 7],
};

/// Those of a part at one of the offsets.
fn column(rows: &[[u32; 16]; 7], j: usize) -> [u32; 6]
    requires { j < 16 }
    ensures { (at : ℕ) → at < 6 → slice_index result at ≡ entry_of rows.now at j }
{
    [
        rows[0][j], rows[1][j], rows[2][j], rows[3][j], rows[4][j], rows[5][j],
    ]
}

/// Those of a coded channel.
fn columns(parts: &[[[u32; 16]; 7]; 3], j: usize) -> [[u32; 6]; 3]
    requires { j < 16 }
    ensures { (part at : ℕ) → part < 3 → at < 6
        → slice_index (slice_index_or result part []) at ≡ entry_of (slice_index_or parts.now part []) at j }
{
    [
        column(&parts[0], j),
        column(&parts[1], j),
        column(&parts[2], j),
    ]
}

/// The potentials at one of the offsets, the first being 0.
pub fn pots_at(ways: &Ways, j: usize) -> Pots
    requires { j < 16 }
    ensures value { (c part at : ℕ) → c < 7 → part < 3 → at < 6 → potential result.p c part at ≡ ways_at ways.now.p j c part at }
    ensures pots { (v : AtOffset) → ArePots v (ways_at ways.now.p j) → ArePots v (potential result.p) }
{
    let zeros = &ZEROS;
    let mut pots = *zeros;
    for c in 0..7usize {
        pots.p[c] = columns(&ways.p[c], j);
    }
    pots
}
