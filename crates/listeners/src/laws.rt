//! Laws of refreshes. Nothing is done when they run.

ghost use Rattle.listeners.specs.Laws.{RaisedStaysSettled, RefreshIsOne, RefreshSettles, SettledStays, SettledStaysTouched};

/// After a refresh a view is settled, over the same documents and with the same standing.
pub fn refresh_settles()
    ensures { RefreshSettles }
{}

/// While its target isn't current, a settled view stays settled where the documents that its target
/// concerns stay.
pub fn settled_stays()
    ensures { SettledStays }
{}

/// A settled view stays settled where the documents that its target concerns stay, and of the keys
/// that it concerns the touched ones.
pub fn settled_stays_touched()
    ensures { SettledStaysTouched }
{}

/// Where a view has raised a snapshot, whether it may start says nothing of its being settled.
pub fn raised_stays_settled()
    ensures { RaisedStaysSettled }
{}

/// A refresh has one outcome: what is raised, what is in limbo, and the view after it.
pub fn refresh_is_one()
    ensures { RefreshIsOne }
{}
