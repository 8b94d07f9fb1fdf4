ghost use Rattle.std.specs.Prelude.{◌≡◌, []};

use document_keys::{DocumentKey, KeySet};
use mutations::Batch;
use outcome_codec::{KeyedEntry, PointRow};
use overlays::Overlay;
use queries::Target;
use std::alloc::Global;
use value_model::{Seal, Timestamp};

/// What a commit does beside the entries that it changes.
#[derive(Debug, Drop)]
pub enum Step {
    /// A batch joins the pending ones.
    Enqueue(Batch),
    /// The first pending batch leaves.
    Settle,
    /// A target gets the next id.
    Allocate(Target),
    /// The backend told these rows up to the time.
    Tell(Timestamp, Vec<PointRow>),
    /// The rows of these ids hold nothing any more.
    Blank(Vec<u32>),
}

/// A commit for which all memory is taken.
#[derive(Debug, Drop)]
pub struct Ready {
    pub(crate) step: Step,
    /// The new entries of keys.
    pub(crate) changes: Vec<KeyedEntry>,
    /// The seal of each of them.
    pub(crate) seal: Seal,
    /// The keys that lose their entries.
    pub(crate) dropped: KeySet,
    /// The overlays of keys that pending writes name then.
    pub(crate) overlays: Vec<Overlay>,
    /// The keys that no pending write names any more.
    pub(crate) lifted: Vec<DocumentKey>,
}

impl Ready {
    /// A step that changes no entry and no overlay.
    pub(crate) fn alone(alloc: Global, step: Step) -> Ready
        ensures step { result.step ≡ step }
        ensures changes { result.changes.items ≡ [] }
        ensures dropped { result.dropped ≡ [] }
        ensures overlays { result.overlays.items ≡ [] }
        ensures lifted { result.lifted.items ≡ [] }
    {
        Ready {
            step,
            changes: Vec::new(alloc),
            seal: Seal::Seen,
            dropped: KeySet::new(alloc),
            overlays: Vec::new(alloc),
            lifted: Vec::new(alloc),
        }
    }
}
