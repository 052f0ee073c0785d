//! What is known of each frame.
ghost use Rattle.ac_encode.specs.Stream.{FramesDepend, FramesAreSized, FramesAreOne, MonoIsBest};

use ac_enc::frame_law;

/// A frame depends on the places that it transforms alone.
pub fn depends()
    ensures { FramesDepend }
{
    known();
}

/// What the laws of streams need of the encoder's.
pub fn known()
    ensures depends { FramesDepend }
    ensures sized { FramesAreSized }
    ensures one { FramesAreOne }
    ensures mono { MonoIsBest }
{
    frame_law();
}
