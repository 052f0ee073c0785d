//! Laws of the definitions that the contracts cite.
ghost use Rattle.ac_expo.specs.Greatest.{FormulaIsGreatest, GreatestIsOne, GreatestExists};
ghost use Rattle.ac_expo.specs.Groups.{ExpandUndoesGroup};
ghost use Rattle.ac_expo.specs.Raw.{RawIsGreatest};
ghost use Rattle.ac_expo.specs.Words.{EachNumberIsOneWord, EachWordHasANumber};

/// A raw exponent is the greatest e. The exponents of a run exist, they are one list, and the formula gives it; its groups give it back.
pub fn exponent_laws()
    ensures raw { RawIsGreatest }
    ensures formula { FormulaIsGreatest }
    ensures exists { GreatestExists }
    ensures one { GreatestIsOne }
    ensures back { ExpandUndoesGroup }
{}

/// The numbers 0 to 3071 and the words are as many.
pub fn word_laws()
    ensures one { EachNumberIsOneWord }
    ensures each { EachWordHasANumber }
{}
