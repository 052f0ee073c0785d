//! Laws of what is sent.
ghost use Rattle.ac_sent.specs.Laws.{SentIsRecord, SentHasSize, PaddingKeepsRooms, ReadingGivesBack, OneFrame};

/// What is sent is a record of the frame's size; its padding keeps both rooms, for each assignment that fits; its reading is what
/// was handed in; and there is at most one such frame (A/52 5.3, 7.10.1).
pub fn sent_laws()
    ensures record { SentIsRecord }
    ensures size { SentHasSize }
    ensures rooms { PaddingKeepsRooms }
    ensures back { ReadingGivesBack }
    ensures one { OneFrame }
{}
