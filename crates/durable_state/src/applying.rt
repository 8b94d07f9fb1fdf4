//! A step that is ready, put into each table. Nothing here takes memory.

ghost use Rattle.std.specs.Prelude.{◌≡◌, ◌<◌, ◌≤◌, ◌^◌, ◌++◌, ◌∷◌, [], ℕ, pos, List, length, IsTrue};
ghost use Rattle.std.specs.List.{All};
ghost use Rattle.key_table.specs.Table.{has_key};
ghost use Rattle.overlays.specs.Table as overlay;
ghost use Rattle.remote_documents.specs.Table.{IsMapOf, entries_in};
ghost use Rattle.durable_state.specs.Ready.{HasRoomFor, HavePlaces, batches_by, last_read_by, lift_over, next_by, put_changes, put_over, rows_by};
ghost use Rattle.durable_state.specs.Rows.{HasRow, blanked, told};
ghost use Rattle.target_cache.specs.Cache.{blank as blank_row, id_at};
ghost use Rattle.target_cache.specs.Kept.{IsNew};
ghost use Rattle.durable_state.specs.Cached.{dropped, with_all};

use crate::ready::Step;
use document_keys::{DocumentKey, KeySet};
use mutation_queue::MutationQueue;
use outcome_codec::{KeyedEntry, PointRow};
use overlays::{Overlay, Overlays};
use queries::Target;
use remote_documents::RemoteDocuments;
use std::alloc::Global;
use target_cache::TargetCache;
use value_model::{Seal, Timestamp};

impl Step {
    /// The id of the next batch behind it.
    pub(crate) fn next_batch(&self, next: u64) -> u64
        requires { next < 2 ^ 63 }
        ensures { result ≡ next_by next self.now }
    {
        match self {
            Step::Enqueue(_) => next + 1,
            _ => next,
        }
    }

    /// The last read time behind it.
    pub(crate) fn last_read(&self, last: Option<Timestamp>) -> Option<Timestamp>
        ensures { result ≡ last_read_by last self.now }
    {
        match self {
            Step::Tell(at, _) => Some(*at),
            _ => last,
        }
    }
}

/// Puts the entries, each with the seal, in place of their keys' old ones, each of which has a place.
pub(crate) fn put(entries: &mut RemoteDocuments, changes: Vec<KeyedEntry>, seal: Seal)
    requires places { HavePlaces entries.old changes.items }
    requires map { IsMapOf entries.old }
    ensures is { entries_in entries.new
        ≡ with_all (entries_in entries.old) (put_changes seal changes.items) }
    ensures map { IsMapOf entries.new }
{
    for change in changes {
        let KeyedEntry { key, entry } = change;
        entries.set(&key, entry, seal);
        entries.is_map();
    }
}

/// Takes the entries of the keys away.
pub(crate) fn forget(entries: &mut RemoteDocuments, keys: &KeySet)
    requires { IsMapOf entries.old }
    ensures is { entries_in entries.new ≡ with_all (entries_in entries.old) (dropped keys.now) }
    ensures map { IsMapOf entries.new }
{
    for key in keys.as_slice() {
        entries.remove(key);
        entries.is_map();
    }
}

/// Puts the overlays in their places.
pub(crate) fn lay(overlays: &mut Overlays, laid: Vec<Overlay>)
    requires { All (λ o. IsTrue (has_key overlays.old o.key)) laid.items }
    ensures { (q : List (List ℕ)) → overlay.overlay_of overlays.new q
        ≡ put_over q (overlay.overlay_of overlays.old q) laid.items }
{
    for overlay in laid {
        overlays.set(overlay);
    }
}

/// Takes the overlays of the keys away.
pub(crate) fn lift(overlays: &mut Overlays, keys: Vec<DocumentKey>)
    ensures { (q : List (List ℕ)) → overlay.overlay_of overlays.new q
        ≡ lift_over q (overlay.overlay_of overlays.old q) keys.items }
{
    for key in keys {
        overlays.remove(&key);
    }
}

/// The id as the targets have it.
pub(crate) fn signed(id: u32) -> i32
    requires { id < 2 ^ 31 }
    ensures { result ≡ pos id }
{
    id as i32
}

/// Puts what the point tells into the rows.
pub(crate) fn tell(targets: &mut TargetCache, at: Timestamp, rows: Vec<PointRow>)
    requires { All (λ row. HasRow targets.old.rows row.id) rows.items }
    ensures { targets.new.rows ≡ told at rows.items targets.old.rows }
{
    for row in rows {
        let _last = targets.next_id();
        let PointRow { id, token, keys } = row;
        targets.set_row(signed(id), token, at, keys);
    }
}

/// Makes the rows of the ids hold nothing.
pub(crate) fn blank(targets: &mut TargetCache, ids: Vec<u32>)
    requires { All (HasRow targets.old.rows) ids.items }
    ensures { targets.new.rows ≡ blanked ids.items targets.old.rows }
{
    for id in ids {
        let _last = targets.next_id();
        targets.reset(signed(id));
    }
}

/// Gives the target the next id, for which there is room.
fn allocate(alloc: Global, targets: &mut TargetCache, target: Target)
    requires room { 0 < targets.old.spare }
    requires last { id_at (length targets.old.rows) ≤ 2147483646 }
    requires new { IsNew targets.old.rows target }
    ensures { targets.new.rows ≡ targets.old.rows ++ blank_row target ∷ [] }
{
    let Ok(_) = targets.allocate(alloc, target) else {
        unreachable!();
    };
}

/// Puts the step into the pending batches and the targets.
pub(crate) fn take_step(
    alloc: Global,
    pending: &mut MutationQueue,
    targets: &mut TargetCache,
    step: Step,
)
    requires { HasRoomFor pending.old targets.old step }
    ensures batches { pending.new.batches ≡ batches_by pending.old.batches step }
    ensures rows { targets.new.rows ≡ rows_by targets.old.rows step }
{
    match step {
        Step::Enqueue(batch) => pending.push_reserved(batch),
        Step::Settle => {
            let _first = pending.remove_first();
        }
        Step::Allocate(target) => allocate(alloc, targets, target),
        Step::Tell(at, rows) => tell(targets, at, rows),
        Step::Blank(ids) => blank(targets, ids),
    }
}
