//! The values of a frame's mantissas (A/52 7.3.3, 7.3.4).
ghost use Rattle.std.specs.Prelude.{◌≡◌, true, ℕ, ◌<◌, ◌≤◌, ◌^◌, [], slice_index, slice_index_or, unsigned_abs};
ghost use Rattle.ac_base.specs.Sigma.{Within, Lists};
ghost use Rattle.ac_energy.specs.Coefficients.{entry};
ghost use Rattle.ac_mant.specs.Quantiser.{value_of};
ghost use Rattle.ac_dec.specs.Heard.{values_of};
ghost use Rattle.ac_dec.specs.Values.{IsReadable, IsReadableRow, AreReadableRows, AreReadable};

use ac_base::Coefs;
use ac_mant::value;
use ac_record::FrameCodes;
use ac_rows::both;

/// The value of a code; 0, without a division, for pointer 0.
#[inline]
#[tactic(auto, using(crate::proofs::Worth::zero_value))]
fn value_at(code: u16, bap: u8, exponent: u8) -> i32
    requires { IsReadable code bap exponent }
    ensures value { result ≡ value_of code bap exponent }
    ensures bound { unsigned_abs result ≤ 2 ^ 24 }
{
    if bap == 0 {
        0
    } else {
        value(code, bap, exponent)
    }
}

/// Whether no bin of a row has bits.
fn is_silent(baps: &[u8; 256]) -> bool
    ensures { result ≡ true → (k : ℕ) → k < 256 → slice_index baps.now k ≡ 0 }
{
    let mut none = true;
    for k in 0..256usize {
        none = both(none, baps[k] == 0);
    }
    none
}

/// The values of a row of codes, code by code.
fn coded_row(codes: &[u16; 256], baps: &[u8; 256], exps: &[u8; 256], row: &mut [i32; 256])
    requires { IsReadableRow codes.now baps.now exps.now }
    ensures value { Lists 256 (λ k. value_of (slice_index codes.now k) (slice_index baps.now k) (slice_index exps.now k)) row.new }
    ensures bound { Within (2 ^ 24) 256 row.new }
{
    for k in 0..256usize {
        row[k] = value_at(codes[k], baps[k], exps[k]);
    }
}

/// The values of a row of codes.
#[tactic(auto, using(crate::proofs::Worth::silent_values))]
fn value_row(codes: &[u16; 256], baps: &[u8; 256], exps: &[u8; 256], row: &mut [i32; 256])
    requires { IsReadableRow codes.now baps.now exps.now }
    ensures value { Lists 256 (λ k. value_of (slice_index codes.now k) (slice_index baps.now k) (slice_index exps.now k)) row.new }
    ensures bound { Within (2 ^ 24) 256 row.new }
{
    if is_silent(baps) {
        *row = [0; 256];
    } else {
        coded_row(codes, baps, exps, row);
    }
}

/// The values of a channel's six rows.
fn channel_values(
    codes: &[[u16; 256]; 6],
    baps: &[[u8; 256]; 6],
    exps: &[[u8; 256]; 6],
    rows: &mut [[i32; 256]; 6],
)
    requires { AreReadableRows codes.now baps.now exps.now }
    ensures value { (b : ℕ) → b < 6 → Lists 256 (λ k. value_of (slice_index (slice_index_or codes.now b []) k)
        (slice_index (slice_index_or baps.now b []) k) (slice_index (slice_index_or exps.now b []) k)) (slice_index_or rows.new b []) }
    ensures bound { (b : ℕ) → b < 6 → Within (2 ^ 24) 256 (slice_index_or rows.new b []) }
{
    for b in 0..6usize {
        value_row(&codes[b], &baps[b], &exps[b], &mut rows[b]);
    }
}

/// The values of a frame.
pub fn values(codes: &FrameCodes, coefs: &mut Coefs)
    requires { AreReadable codes.now }
    ensures value { (c b k : ℕ) → c < 7 → b < 6 → k < 256 → entry coefs.new.c c b k ≡ values_of codes.now b c k }
    ensures bound { (c b k : ℕ) → c < 7 → b < 6 → k < 256 → unsigned_abs (entry coefs.new.c c b k) ≤ 2 ^ 24 }
{
    for c in 0..7usize {
        channel_values(
            &codes.codes[c],
            &codes.baps[c],
            &codes.exps[c],
            &mut coefs.c[c],
        );
    }
}
