//! Which commits fit a state.

ghost use Rattle.std.specs.Prelude.{◌↔◌, ◌<◌, ℕ, pos, length, option_map, IsTrue};
ghost use Rattle.target_cache.specs.Kept.{TellsRow};
ghost use Rattle.std.specs.List.{All, Contains};
ghost use Rattle.durable_state.specs.Rows.{HasRow, IsHeld};
ghost use Rattle.durable_state.specs.State.{IsAllocation, IsAnswered, IsDrop, IsFirst, IsNotBelow, IsPointOf, IsReset};

use crate::applying::signed;
use document_keys::KeySet;
use mutation_queue::MutationQueue;
use mutations::{WriteResult, fit_writes};
use outcome_codec::PointRow;
use queries::Target;
use target_cache::{Row, TargetCache};
use value_model::Timestamp;

/// The greatest target id.
const LAST_ID: u32 = 2_147_483_646;

/// Whether the id is that of the first pending batch.
pub(crate) fn is_first(pending: &MutationQueue, id: u64) -> bool
    ensures { IsTrue result ↔ IsFirst pending.now.batches id }
{
    match pending.first() {
        Some(batch) => batch.id == id,
        None => false,
    }
}

/// Whether the first pending batch has the id, and the results are those of its writes.
pub(crate) fn is_answered(pending: &MutationQueue, id: u64, results: &[WriteResult]) -> bool
    ensures { IsTrue result ↔ IsAnswered pending.now.batches id results.now }
{
    match pending.first() {
        Some(batch) => batch.id == id && fit_writes(batch.writes.as_slice(), results),
        None => false,
    }
}

/// Whether the id is the next one, which is left, and no row has the target.
pub(crate) fn is_allocation(targets: &TargetCache, id: u32, target: &Target) -> bool
    ensures { IsTrue result ↔ IsAllocation targets.now.rows id target.now }
{
    id == targets.next_id() && id <= LAST_ID && targets.find(target).is_none()
}

/// Whether there was no read time yet, or it isn't later.
fn is_not_below(last: Option<Timestamp>, at: Timestamp) -> bool
    ensures { IsTrue result ↔ IsNotBelow last at }
{
    match last {
        Some(last) => {
            at.seconds > last.seconds || (at.seconds == last.seconds && at.nanos >= last.nanos)
        }
        None => true,
    }
}

/// The row of the id, or `None` exactly where it has none.
fn row_of(targets: &TargetCache, id: u32) -> Option<&Row>
    ensures { TellsRow targets.now.rows (pos id) (option_map (λ row. row.now) result) }
{
    let _last = targets.next_id();
    if id > LAST_ID {
        return None;
    }
    targets.row(signed(id))
}

/// Whether the id has a row.
fn has_row(targets: &TargetCache, id: u32) -> bool
    ensures { IsTrue result ↔ HasRow targets.now.rows id }
{
    match row_of(targets, id) {
        Some(_) => true,
        None => false,
    }
}

/// Whether the id has a row that holds something.
fn is_held(targets: &TargetCache, id: u32) -> bool
    ensures { IsTrue result ↔ IsHeld targets.now.rows id }
{
    match row_of(targets, id) {
        Some(row) => row.held.is_some(),
        None => false,
    }
}

/// Whether each id has a row.
fn have_rows(targets: &TargetCache, ids: &[u32]) -> bool
    ensures { IsTrue result ↔ All (HasRow targets.now.rows) ids.now }
{
    for id in ids {
        if !has_row(targets, *id) {
            return false;
        }
    }
    true
}

/// Whether one of the ids has a row that holds something.
fn is_one_held(targets: &TargetCache, ids: &[u32]) -> bool
    ensures { IsTrue result ↔ ((id : ℕ) × Contains ids.now id × IsHeld targets.now.rows id) }
{
    for id in ids {
        if is_held(targets, *id) {
            return true;
        }
    }
    false
}

/// Whether each row of a point is that of a target.
fn are_known(targets: &TargetCache, rows: &[PointRow]) -> bool
    ensures { IsTrue result ↔ All (λ row. HasRow targets.now.rows row.id) rows.now }
{
    for row in rows {
        if !has_row(targets, row.id) {
            return false;
        }
    }
    true
}

/// Whether no row of a point has an empty token.
fn have_tokens(rows: &[PointRow]) -> bool
    ensures { IsTrue result ↔ All (λ row. 0 < length row.token) rows.now }
{
    for row in rows {
        if row.token.as_slice().is_empty() {
            return false;
        }
    }
    true
}

/// Whether each id has a row, and one of these holds something.
pub(crate) fn is_reset(targets: &TargetCache, ids: &[u32]) -> bool
    ensures { IsTrue result ↔ IsReset targets.now.rows ids.now }
{
    have_rows(targets, ids) && is_one_held(targets, ids)
}

/// Whether the read time isn't below the last one, each row is that of a target, and none has an empty token.
pub(crate) fn is_point(
    last: Option<Timestamp>,
    at: Timestamp,
    targets: &TargetCache,
    rows: &[PointRow],
) -> bool
    ensures { IsTrue result ↔ IsPointOf last at targets.now.rows rows.now }
{
    is_not_below(last, at) && are_known(targets, rows) && have_tokens(rows)
}

/// Whether there is a key, and each id has a row.
pub(crate) fn is_drop(targets: &TargetCache, keys: &KeySet, ids: &[u32]) -> bool
    ensures { IsTrue result ↔ IsDrop targets.now.rows keys.now ids.now }
{
    keys.len() > 0 && have_rows(targets, ids)
}
