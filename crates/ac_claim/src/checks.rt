//! The check of certificates.
ghost use Rattle.std.specs.Prelude.{◌≡◌, ◌≤◌, ◌<◌, ◌+◌, Some, [], IfOk};
ghost use Rattle.ac_cost.specs.Records.{exponents, at_offset};
ghost use Rattle.ac_claim.specs.Claims.{IsClaim};
ghost use Rattle.ac_bound.specs.Ways.{potential};
ghost use Rattle.ac_claim.specs.Trees.{tree_no};
ghost use Rattle.ac_claim.specs.Walks.{IsBasis};
ghost use Rattle.ac_claim.specs.Tests.{over_no, level_no, levels_no, count_of, first_no, result_of, answer_of};

use crate::basis::Basis;
use crate::certs::{Cert, Level};
use crate::heads::{claim_test, fit_test, missing_test, word_test};
use crate::no::{No, Verdict};
use crate::nodes::tree_test;
use crate::path::Path;
use crate::potentials::{NOTHING, empty_test, potential_test};
use crate::raws::raw_test;
use crate::tree::Tree;
use crate::words::word_codes;
use ac_base::Shape;
use ac_bound::Pots;
use ac_cost::{RunLists, RunTable};

/// Whether potentials at the offset of a table rule each assignment out by themselves.
#[tactic(auto, using(crate::proofs::Answering::first_fails, crate::proofs::Answering::second, crate::proofs::Answering::none_ok))]
fn over_test(shape: &Shape, table: &RunTable, offset: u16, pots: &Pots) -> Result<(), No>
    requires same { table.now.shape ≡ shape.now }
    requires here { table.now.t ≡ offset }
    ensures { result ≡ result_of (over_no table.now (Some pots.now)) }
{
    let basis = Basis {
        shape,
        table,
        offset,
        pots,
    };
    potential_test(&basis)?;
    empty_test(&basis)
}

/// The first fault of a tree from no run on.
fn root_test(basis: &Basis, tree: &Tree) -> Result<(), No>
    requires basis { IsBasis basis.now }
    ensures { result ≡ result_of (tree_no basis.now.table.now (potential basis.now.pots.now.p) tree.now []) }
{
    let mut path = Path::new();
    tree_test(basis, &mut path, &NOTHING, tree)
}

/// Whether a level shows that no assignment fits at the offset of a table.
#[tactic(auto, using(crate::proofs::Answering::first_fails, crate::proofs::Answering::second, crate::proofs::Answering::none_ok))]
fn level_test(shape: &Shape, table: &RunTable, offset: u16, level: &Level) -> Result<(), No>
    requires same { table.now.shape ≡ shape.now }
    requires here { table.now.t ≡ offset }
    ensures { result ≡ result_of (level_no table.now level.now) }
{
    let basis = Basis {
        shape,
        table,
        offset,
        pots: &level.pots,
    };
    potential_test(&basis)?;
    root_test(&basis, &level.tree)
}

/// Whether each of the levels does, from the top down.
fn levels_test(shape: &Shape, lists: &RunLists, top: u16, levels: &[Level]) -> Result<(), No>
    requires same { lists.now.shape ≡ shape.now }
    requires top { top ≤ 1023 }
    ensures { result ≡ result_of (levels_no shape.now lists.now.raw top levels.now) }
{
    let mut t = top;
    for level in levels {
        let table = lists.at(t);
        level_test(shape, &table, t, level)?;
        t = t.saturating_sub(1);
    }
    Ok(())
}

/// Whether the potentials above the top, if there are any, rule each assignment out by themselves.
fn above_test(cert: &Cert, lists: &RunLists) -> Result<(), No>
    requires lists { lists.now ≡ exponents cert.now.shape cert.now.raw.e }
    requires over { count_of cert.now.over ≡ 1 → cert.now.top < 1023 }
    ensures { result ≡ result_of (over_no (at_offset cert.now.shape cert.now.raw.e (cert.now.top + 1)) cert.now.over) }
{
    match &cert.over {
        None => Ok(()),
        Some(pots) => {
            let above = cert.top + 1;
            let table = lists.at(above);
            over_test(&cert.shape, &table, above, pots)
        }
    }
}

/// The first test that fails.
#[tactic(auto, using(crate::proofs::Answering::first_fails, crate::proofs::Answering::second, crate::proofs::Answering::none_ok))]
fn first_test(cert: &Cert) -> Result<(), No>
    ensures { result ≡ result_of (first_no cert.now) }
{
    raw_test(&cert.shape, &cert.raw)?;
    word_test(&cert.shape, &cert.assign)?;
    claim_test(cert)?;
    let lists = RunLists::of(&cert.shape, &cert.raw);
    let table = lists.at(cert.offset);
    fit_test(&cert.shape, &table, &cert.assign)?;
    missing_test(cert)?;
    above_test(cert, &lists)?;
    levels_test(&cert.shape, &lists, cert.top, cert.trees.as_slice())
}

/// What a certificate claims, or the first of its faults. A yes says that its assignment fits at the offset and that none fits at
/// any offset above the upper, whoever made the certificate. No memory is taken.
pub fn check(cert: &Cert) -> Result<Verdict, No>
    ensures value { result ≡ answer_of cert.now (first_no cert.now) }
    ensures sound { IfOk result (λ v. IsClaim cert.now.shape cert.now.raw.e cert.now.assign.w v.offset v.upper) }
{
    let _ = word_codes(&cert.assign);
    first_test(cert)?;
    Ok(Verdict {
        offset: cert.offset,
        upper: cert.upper,
    })
}
