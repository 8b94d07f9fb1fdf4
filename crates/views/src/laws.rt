//! Laws of views. Nothing is done when they run.

ghost use Rattle.views.specs.Laws.{ChangesAreOne, ChangesFollow};

/// From the documents that were shown before, the changes of a snapshot lead to those that it shows.
pub fn changes_follow()
    ensures { ChangesFollow }
{}

/// The documents that were shown before and those that a snapshot shows determine its changes.
pub fn changes_are_one()
    ensures { ChangesAreOne }
{}
