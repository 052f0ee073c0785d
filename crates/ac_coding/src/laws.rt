//! What is true of every frame of coefficients.
ghost use Rattle.ac_coding.specs.Laws.{ValuesAreQuantised, OneFrameOfCoefficients, ReadingGivesCoefficients, FrameIsBySpans, FrameIsByCoefficients, FrameHasSize};

/// What is handed in for coefficients, an offset and an assignment that fits is what a frame is asked to have, and reading its frame
/// gives it back. There is one frame of coefficients, of its size, and it depends on those at the bins of the spans alone.
pub fn coding_laws()
    ensures quantised { ValuesAreQuantised }
    ensures one { OneFrameOfCoefficients }
    ensures back { ReadingGivesCoefficients }
    ensures spans { FrameIsBySpans }
    ensures agree { FrameIsByCoefficients }
    ensures size { FrameHasSize }
{}
