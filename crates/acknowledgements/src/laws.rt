//! Laws of what an answer leaves. Nothing is done when they run.

ghost use Rattle.acknowledgements.specs.Laws.{AcksHold, GreatestHolds};

/// The greatest version of a key's writes is one of theirs, and none of them is later.
pub fn greatest_holds()
    ensures { GreatestHolds }
{}

/// An answer leaves one entry of each, and an entry that is below the greatest version is replaced.
pub fn acks_hold()
    ensures { AcksHold }
{}
