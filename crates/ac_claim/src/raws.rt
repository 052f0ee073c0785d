//! Tests of raw exponents.
ghost use Rattle.std.specs.Prelude.{◌≡◌, ◌≤◌};
ghost use Rattle.ac_claim.specs.Tests.{bin_no, row_no, blocks_no, raw_no, result_of};

use crate::no::No;
use ac_base::{Shape, Span};
use ac_expo::RawExps;

/// Whether a raw exponent is over 24.
fn bin_test(row: &[u8; 256], channel: u8, block: u8, bin: u8) -> Result<(), No>
    ensures { result ≡ result_of (bin_no row.now channel block bin) }
{
    if row[bin as usize] > 24 {
        return Err(No::BadRaw {
            channel,
            block,
            bin,
        });
    }
    Ok(())
}

/// The first raw exponent over 24 in the bins of a span.
#[tactic(auto, using(crate::proofs::Answering::ends))]
fn row_test(span: &Span, row: &[u8; 256], channel: u8, block: u8) -> Result<(), No>
    requires order { span.now.start ≤ span.now.end }
    ensures { result ≡ result_of (row_no span.now row.now channel block) }
{
    for i in 0..span.end - span.start {
        bin_test(row, channel, block, span.start + i)?;
    }
    Ok(())
}

/// The first in the blocks of a coded channel.
#[tactic(auto, using(crate::proofs::Answering::ends))]
fn blocks_test(span: &Span, rows: &[[u8; 256]; 6], channel: u8) -> Result<(), No>
    requires order { span.now.start ≤ span.now.end }
    ensures { result ≡ result_of (blocks_no span.now rows.now channel) }
{
    for block in 0..6u8 {
        row_test(span, &rows[block as usize], channel, block)?;
    }
    Ok(())
}

/// The first in the bins of all coded channels.
#[tactic(auto, using(crate::proofs::Answering::ends))]
pub fn raw_test(shape: &Shape, raw: &RawExps) -> Result<(), No>
    ensures { result ≡ result_of (raw_no shape.now raw.now.e) }
{
    for channel in 0..shape.coded() {
        let bins = shape.span(channel);
        blocks_test(&bins, &raw.e[channel as usize], channel)?;
    }
    Ok(())
}
