//! Rows of bins in arrays by coded channel and block.
ghost use Rattle.std.specs.Prelude.{◌≡◌, ◌<◌, ℕ, true, slice_index};
ghost use Rattle.ac_reading.specs.Cells.{IsPutIn, IsPut};

use ac_rows::both;

/// Puts a row into a block of a channel.
fn put_in_channel(out: &mut [[u8; 256]; 6], b: usize, row: &[u8; 256])
    requires { b < 6 }
    ensures { IsPutIn out.old out.new b row.now }
{
    out[b] = *row;
}

/// Puts a row into a block of a channel.
pub fn put(out: &mut [[[u8; 256]; 6]; 7], c: usize, b: usize, row: &[u8; 256])
    requires channel { c < 7 }
    requires block { b < 6 }
    ensures { IsPut out.old out.new c b row.now }
{
    put_in_channel(&mut out[c], b, row);
}

/// Puts a row of codes into a block of a channel.
fn put_codes_in_channel(out: &mut [[u16; 256]; 6], b: usize, row: &[u16; 256])
    requires { b < 6 }
    ensures { IsPutIn out.old out.new b row.now }
{
    out[b] = *row;
}

/// Puts a row of codes into a block of a channel.
pub fn put_codes(out: &mut [[[u16; 256]; 6]; 7], c: usize, b: usize, row: &[u16; 256])
    requires channel { c < 7 }
    requires block { b < 6 }
    ensures { IsPut out.old out.new c b row.now }
{
    put_codes_in_channel(&mut out[c], b, row);
}

/// Whether two rows are the same.
pub fn same_row(a: &[u8; 256], b: &[u8; 256]) -> bool
    ensures { result ≡ true → (k : ℕ) → k < 256 → slice_index a.now k ≡ slice_index b.now k }
{
    let mut same = true;
    for k in 0..256usize {
        same = both(same, a[k] == b[k]);
    }
    same
}
