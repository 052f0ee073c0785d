//! Laws of certificates.
ghost use Rattle.ac_claim.specs.Laws.{PassedIsBound, ClosedRulesOutAbove, TreeIsTrue, PassesIsClaim};

/// Potentials that pass their test bound every way on from each boundary between blocks; what they close at one offset fits at no
/// higher one. Where a tree has no fault nothing fits, and what passes every test claims what is so.
pub fn certificate_laws()
    ensures bound { PassedIsBound }
    ensures above { ClosedRulesOutAbove }
    ensures tree { TreeIsTrue }
    ensures claim { PassesIsClaim }
{}
