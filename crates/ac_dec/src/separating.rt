//! The coefficients of a frame from its values: coupled channels taken apart, then left and right (A/52 7.4.3, 7.5.3).
ghost use Rattle.std.specs.Prelude.{◌≡◌, ◌≢◌, ℕ, ◌<◌, false, slice_index_or};
ghost use Rattle.ac_energy.specs.Coefficients.{entry};
ghost use Rattle.ac_rows.specs.Filled.{holds, HasSpans};
ghost use Rattle.ac_dec.specs.Heard.{block_at};
ghost use Rattle.ac_dec.specs.Separated.{HasValues, HasSeparated};

use ac_base::Coefs;
use ac_record::FrameCodes;
use ac_rows::holds;
use ac_separation::{uncouple, unrematrix};
use ac_syntax::{filled, spans};

/// Block `b`: whether coupling is in use in it.
fn separate_block(codes: &FrameCodes, b: usize, coefs: &mut Coefs) -> bool
    requires block { b < 6 }
    requires spans { HasSpans codes.now.head (block_at codes.now b) }
    requires values { HasValues codes.now b coefs.old.c }
    ensures used { result ≡ holds (block_at codes.now b).cplinu }
    ensures value { HasSeparated codes.now b coefs.new.c }
    ensures rest { (c e k : ℕ) → e ≢ b → entry coefs.new.c c e k ≡ entry coefs.old.c c e k }
{
    let block = filled(&codes.head, &codes.block[..b], &codes.block[b]);
    let spans = spans(&codes.head, &block);
    uncouple(coefs, &block, &spans, b as u8);
    unrematrix(coefs, &block, &spans, b as u8);
    holds(block.cplinu)
}

/// All six blocks: in which of them coupling is in use.
pub fn separate(codes: &FrameCodes, coefs: &mut Coefs) -> [bool; 6]
    requires spans { (b : ℕ) → b < 6 → HasSpans codes.now.head (block_at codes.now b) }
    requires values { (b : ℕ) → b < 6 → HasValues codes.now b coefs.old.c }
    ensures used { (b : ℕ) → b < 6 → slice_index_or result b false ≡ holds (block_at codes.now b).cplinu }
    ensures value { (b : ℕ) → b < 6 → HasSeparated codes.now b coefs.new.c }
{
    let mut used = [false; 6];
    for b in 0..6usize {
        used[b] = separate_block(codes, b, coefs);
    }
    used
}
