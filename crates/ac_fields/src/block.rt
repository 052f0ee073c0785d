//! A block of a frame.
ghost use Rattle.std.specs.Prelude.{◌≡◌, ◌<◌, ◌==◌, false, None, is_some, replicate};
ghost use Rattle.ac_fields.specs.Asked.{HasFields};
ghost use Rattle.ac_sent.specs.Fields.{sent_fields};

use crate::allocation::allocation;
use crate::codes::codes;
use crate::exponents::exponents;
use crate::shared::shared;
use crate::strategy::strategy;
use ac_rows::Block;
use ac_rows::groups::{Rest, Start};
use ac_rows::joining::join;
use ac_sent::Quantised;

/// No short transform, no dither and no dynrng (A/52 5.4.3.1 to 5.4.3.4).
fn start() -> Start
    ensures { result ≡ record { blksw = replicate 5 false; dithflag = replicate 5 false; dynrnge = false; dynrng = None } }
{
    Start {
        blksw: [false; 5],
        dithflag: [false; 5],
        dynrnge: false,
        dynrng: None,
    }
}

/// No delta bit allocation, and this many skip bytes (A/52 5.4.3.47, 5.4.3.58, 5.4.3.59).
fn rest(skipl: Option<u16>) -> Rest
    ensures { result ≡ record { deltbaie = false; skiple = is_some skipl; skipl = skipl } }
{
    Rest {
        deltbaie: false,
        skiple: skipl.is_some(),
        skipl,
    }
}

/// The fields of block b before its mantissas, b below 6, with this skipl (A/52 5.3.3). Block 0 sends each strategy, coordinate,
/// flag and parameter; exponents go by the strategy codes.
pub fn frame_block(q: &Quantised, b: usize, skipl: Option<u16>) -> Block
    requires asked { HasFields q.now b }
    requires block { b < 6 }
    ensures value { result ≡ sent_fields q.now (b == 0) b skipl }
{
    let first = b == 0;
    join(
        &start(),
        &strategy(q, first),
        &shared(q, first),
        &codes(q, first, b),
        &exponents(q, first, b),
        &allocation(q, first),
        &rest(skipl),
    )
}
