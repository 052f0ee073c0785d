//! Laws of frames and their records.
ghost use Rattle.ac_record.specs.Laws.{OneRecord, FramesHaveNoFault, OneFault};

/// One list of bits stands for at most one record; bytes that begin with a frame have no fault, and no bytes have two (A/52 5.3).
pub fn record_laws()
    ensures one { OneRecord }
    ensures apart { FramesHaveNoFault }
    ensures fault { OneFault }
{}
