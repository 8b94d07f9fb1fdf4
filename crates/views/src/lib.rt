//! What a listener shows, and when it is told of it.
//!
//! A `View` keeps a listener's query and the last snapshot that it raised. `View::refresh` works out the answer over the
//! documents of a store, tells which of its keys are in limbo by what is known of the target (`Standing`), and raises a
//! snapshot where what would be printed differs from what was last raised (`specs/Refresh.antt`). `View::snapshot` lends that
//! snapshot with the store: its documents are not copied, and the store cannot change while it is held. A view keeps a copy of
//! each document that it raised, shared from one snapshot to the next while the document stays, and an index of them by key.
//! `specs/Printed.antt` says what is printed of a document, `specs/Changes.antt` what changed since the last snapshot.
#![tactic(auto)]

mod change;
mod laws;
mod printed;
mod raised;
mod rows;
mod shown;
mod snapshot;
mod standing;
mod view;

pub use change::{Change, Kind};
pub use laws::{changes_are_one, changes_follow};
pub use snapshot::Snapshot;
pub use standing::Standing;
pub use view::{Refresh, View};
