//! The law of the definitions. This function does nothing: its contract is the law.

ghost use Rattle.watch_points.specs.PointCommit.{PointsCommitOnce};

/// A point of some calls commits one list of entries and one list of rows over a state.
pub fn a_point_commits_once()
    ensures { PointsCommitOnce }
{}
