//! The laws of the bit allocation.
ghost use Rattle.ac_alloc.specs.Masking.{MasksAreLevels, FloorsAreFloors};
ghost use Rattle.ac_alloc.specs.Pointers.{MasksAreBySpan, PointersAreBySpan, BapsRise, BapRisesWithOffset};
ghost use Rattle.ac_alloc.specs.Keys.{LowestIsSent, BapsAreByKey, ChannelsAreByKey, SixthsRise};

/// The masks of a coded channel are within their bounds, and depend on the exponents of its span alone, as its bit
/// allocation pointers do. A pointer never falls as the offset rises: for any mask and floor that can stand, and for the
/// masks of each coded channel with any parameters and exponents.
pub fn allocation_laws()
    ensures masks { MasksAreLevels }
    ensures floors { FloorsAreFloors }
    ensures masks_by_span { MasksAreBySpan }
    ensures pointers_by_span { PointersAreBySpan }
    ensures levels { BapsRise }
    ensures rises { BapRisesWithOffset }
{}

/// With the floor that the encoder sends, the lowest, a bin's pointer depends on its key less the offset alone, and so do
/// the sixths of a bit that its mantissa costs, which never fall as that difference does.
pub fn key_laws()
    ensures floor { LowestIsSent }
    ensures keys { BapsAreByKey }
    ensures channels { ChannelsAreByKey }
    ensures rises { SixthsRise }
{}
