//! The law of what is asked.
ghost use Rattle.ac_fields.specs.Asked.{QuantisedHasFields};

/// Values that may be handed in for a frame have the fields of each block.
pub fn asked_law()
    ensures asked { QuantisedHasFields }
{}
