//! Tests of what a certificate says before its levels.
ghost use Rattle.std.specs.Prelude.{◌≡◌, ◌≤◌, nat_lt, if◌then◌else◌, None, Some};
ghost use Rattle.ac_cost.specs.Runs.{TakesLow};
ghost use Rattle.ac_claim.specs.declared.no.No.TheVariants.{Unfit};
ghost use Rattle.ac_claim.specs.Tests.{is_high, word_no, claim_no, fit_no, missing, missing_no, result_of};
ghost use Rattle.ac_claim.specs.Trees.{given};

use crate::certs::Cert;
use crate::no::No;
use ac_base::{Part, Shape, rooms};
use ac_cost::RunTable;
use ac_expo::{Assign, Word};

/// Whether a code of a word is over 1.
fn is_high(word: &Word) -> bool
    ensures { result ≡ is_high word.now }
{
    let codes = word.codes();
    codes[0] > 1 || codes[1] > 1 || codes[2] > 1 || codes[3] > 1 || codes[4] > 1 || codes[5] > 1
}

/// Whether LFE's word, where there is LFE, has D15 alone (A/52 5.4.3.23).
pub fn word_test(shape: &Shape, assign: &Assign) -> Result<(), No>
    ensures { result ≡ result_of (word_no shape.now assign.now.w) }
{
    if !shape.lfe {
        return Ok(());
    }
    let channel = shape.coded() - 1;
    if is_high(&assign.w[usize::from(channel)]) {
        return Err(No::BadWord { channel });
    }
    Ok(())
}

/// Whether the offset, the upper, the top and 1023 are in this order.
pub fn claim_test(cert: &Cert) -> Result<(), No>
    ensures { result ≡ result_of (claim_no cert.now.offset cert.now.upper cert.now.top) }
{
    if cert.offset > cert.upper {
        return Err(No::BadClaim {
            low: cert.offset,
            high: cert.upper,
        });
    }
    if cert.upper > cert.top {
        return Err(No::BadClaim {
            low: cert.upper,
            high: cert.top,
        });
    }
    if cert.top > 1023 {
        return Err(No::BadClaim {
            low: cert.top,
            high: 1023,
        });
    }
    Ok(())
}

/// Whether a part is within its room.
fn part_test(part: Part, needed: u32, room: u32) -> Result<(), No>
    ensures { result ≡ result_of (if nat_lt room needed then Some (Unfit part needed room) else None) }
{
    if needed > room {
        return Err(No::Unfit { part, needed, room });
    }
    Ok(())
}

/// Whether the assignment fits at the offset of a table.
#[tactic(auto, using(crate::proofs::Answering::first_fails, crate::proofs::Answering::second, crate::proofs::Answering::none_ok))]
pub fn fit_test(shape: &Shape, table: &RunTable, assign: &Assign) -> Result<(), No>
    requires same { table.now.shape ≡ shape.now }
    requires low { TakesLow shape.now assign.now.w }
    ensures { result ≡ result_of (fit_no table.now assign.now.w) }
{
    let parts = table.parts(assign);
    let rooms = rooms(shape.words);
    part_test(Part::Total, parts.total, rooms.total)?;
    part_test(Part::Front, parts.front, rooms.front)?;
    part_test(Part::Last, parts.last, rooms.last)
}

/// A count, or the greatest number that 32 bits hold.
pub fn given(count: usize) -> u32
    ensures { result ≡ given count }
{
    u32::try_from(count).unwrap_or(u32::MAX)
}

/// Whether there are as many as there should be.
fn count_test(have: usize, want: u16) -> Result<(), No>
    ensures { result ≡ result_of (missing have want) }
{
    if have == usize::from(want) {
        return Ok(());
    }
    Err(No::Missing {
        have: given(have),
        want: u32::from(want),
    })
}

/// Whether there is a level for each offset above the upper up to the top, and potentials above the top exactly where it isn't
/// 1023.
#[tactic(auto, using(crate::proofs::Answering::first_fails, crate::proofs::Answering::second, crate::proofs::Answering::none_ok))]
pub fn missing_test(cert: &Cert) -> Result<(), No>
    requires order { cert.now.upper ≤ cert.now.top }
    ensures { result ≡ result_of (missing_no cert.now) }
{
    count_test(cert.trees.len(), cert.top - cert.upper)?;
    let have = usize::from(cert.over.is_some());
    count_test(have, u16::from(cert.top < 1023))
}
