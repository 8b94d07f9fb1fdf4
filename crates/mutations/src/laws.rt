//! Laws of masks and transforms. Nothing is done when they run.

ghost use Rattle.mutations.specs.Laws.{AppendsHold, ChangesHold, EffectsAreOne, MasksHold, RemovesHold};

/// The order of a mask's paths doesn't matter, and a mask leaves one result.
pub fn masks_hold()
    ensures { MasksHold }
{}

/// What is appended is there behind the items, and nothing else.
pub fn appends_hold()
    ensures { AppendsHold }
{}

/// What is removed is gone, and nothing else.
pub fn removes_hold()
    ensures { RemovesHold }
{}

/// A change makes one value, most changes may be repeated, and a sum stops at the ends of its range.
pub fn changes_hold()
    ensures { ChangesHold }
{}

/// A write has one effect on a document at one time.
pub fn effects_are_one()
    ensures { EffectsAreOne }
{}
