//! What a point of the stream of listeners commits.
//!
//! A point is a message of Firestore's Listen with a read time and no ids of targets. `point_commit` makes of what the stream
//! told up to it (`watch_aggregator`'s `WatchPoint`) the entries and rows of a `Commit::Point`, as a `PointCommit`: the entries
//! that wait and replace what is known of their keys, that the documents are missing which targets lack, and a row for each
//! target with a token. `specs/PointCommit.antt` says what it is, and `a_point_commits_once` that it is just one.
#![tactic(auto)]

mod entries;
mod laws;
mod point;
mod rows;
mod shown;

pub use laws::a_point_commits_once;
pub use point::{PointCommit, point_commit};
pub use shown::show_keys;
