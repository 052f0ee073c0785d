//! What is known of each frame.
ghost use Rattle.std.specs.Prelude.{ℕ, ◌<◌, ◌≡◌, [], length, slice_index_or};
ghost use Rattle.ac_encode.specs.Stream.{FramesDepend};

use ac_enc::frame_law;

/// A frame depends on the places that it transforms alone.
pub fn depends()
    ensures { FramesDepend }
{
    frame_law();
}

/// A row has the samples of a frame.
fn row_law(row: &[i32; 1536])
    ensures { length row.now ≡ 1536 }
{
    let _ = row;
}

/// Each row has the samples of a frame.
pub fn rows_law(rows: &[[i32; 1536]; 6])
    ensures { (c : ℕ) → c < 6 → length (slice_index_or rows.now c []) ≡ 1536 }
{
    row_law(&rows[0]);
    row_law(&rows[1]);
    row_law(&rows[2]);
    row_law(&rows[3]);
    row_law(&rows[4]);
    row_law(&rows[5]);
}
