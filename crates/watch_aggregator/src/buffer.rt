//! The entries that wait for the next point.

ghost use Rattle.std.specs.Prelude.{◌≡◌, ◌||◌, OnOk, OnErr, IfOk};
ghost use Rattle.std.specs.List.{list_any};
ghost use Rattle.std.specs.Option.{option_copied};
ghost use Rattle.listen_protocol.specs.Buffer.{is_earlier, stays};
ghost use Rattle.watch_aggregator.specs.Buffer.{Keeps, KeepsLeft, Same, changed_by, counts_in, deleted_by};
ghost use Rattle.watch_aggregator.specs.Steps.{AreAscending};

use crate::watched::{Watched, place};
use document_keys::{DocumentKey, NoMemory};
use std::alloc::Global;
use std::cmp::Ordering;
use std::collections::BTreeMap;
use value_model::{DocumentChange, DocumentDelete, Entry, Timestamp};

/// Whether the first time is the earlier one.
fn is_earlier(a: Timestamp, b: Timestamp) -> bool
    ensures { result ≡ is_earlier a b }
{
    a.cmp(&b) == Ordering::Less
}

/// Whether the entry stays in place of a new one: the new one's version is lower.
fn is_kept(old: Option<&Entry>, new: &Entry) -> bool
    ensures { result ≡ stays (option_copied old.entry) new.now }
{
    match old {
        Some(old) => is_earlier(new.version(), old.version()),
        None => false,
    }
}

/// Keeps the entry for the next point, in place of the key's old one unless its version is lower.
pub(crate) fn keep(
    buffer: &mut BTreeMap<DocumentKey, Entry>,
    key: DocumentKey,
    entry: Entry,
) -> Result<(), NoMemory>
    ensures done { OnOk result (Keeps key entry buffer.old buffer.new) }
    ensures undone { OnErr result (Same buffer.old buffer.new) }
{
    if is_kept(buffer.get(&key), &entry) {
        return Ok(());
    }
    buffer.insert(key, entry)?;
    Ok(())
}

/// Keeps what a message left, if it left an entry.
pub(crate) fn keep_left(
    buffer: &mut BTreeMap<DocumentKey, Entry>,
    left: Option<(DocumentKey, Entry)>,
) -> Result<(), NoMemory>
    ensures done { OnOk result (KeepsLeft left buffer.old buffer.new) }
    ensures undone { OnErr result (Same buffer.old buffer.new) }
{
    match left {
        Some((key, entry)) => keep(buffer, key, entry),
        None => Ok(()),
    }
}

/// Whether the id counts.
fn counts_at(watched: &[Watched], id: &i32) -> bool
    ensures { AreAscending watched.now → result ≡ counts_in watched.now id.now }
{
    match place(watched, id) {
        Ok(at) => watched[at].counts,
        Err(_at) => false,
    }
}

/// Whether any of the ids counts.
fn counting(watched: &[Watched], ids: &[i32]) -> bool
    ensures { AreAscending watched.now → result ≡ list_any (counts_in watched.now) ids.now }
{
    for id in ids {
        if counts_at(watched, id) {
            return true;
        }
    }
    false
}

/// Whether any of the ids of either list counts.
fn either_counting(watched: &[Watched], ids: &[i32], removed: &[i32]) -> bool
    ensures { AreAscending watched.now
        → result ≡ (list_any (counts_in watched.now) ids.now || list_any
        (counts_in watched.now) removed.now) }
{
    counting(watched, ids) || counting(watched, removed)
}

/// The entry that a change of a document leaves, with its key.
pub(crate) fn left_by_change(
    alloc: Global,
    watched: &[Watched],
    change: &DocumentChange,
) -> Result<Option<(DocumentKey, Entry)>, NoMemory>
    ensures { IfOk result (λ left. AreAscending watched.now → left ≡ changed_by watched.now change.now) }
{
    if !either_counting(
        watched,
        change.target_ids.as_slice(),
        change.removed_target_ids.as_slice(),
    ) {
        return Ok(None);
    }
    let key = change.key.copy(alloc)?;
    let fields = change.fields.copy(alloc)?;
    Ok(Some((key, Entry::Found(fields, change.update_time))))
}

/// The entry that a delete leaves, with its key.
pub(crate) fn left_by_delete(
    alloc: Global,
    watched: &[Watched],
    delete: &DocumentDelete,
) -> Result<Option<(DocumentKey, Entry)>, NoMemory>
    ensures { IfOk result (λ left. AreAscending watched.now → left ≡ deleted_by watched.now delete.now) }
{
    if !counting(watched, delete.removed_target_ids.as_slice()) {
        return Ok(None);
    }
    match delete.read_time {
        Some(at) => {
            let key = delete.key.copy(alloc)?;
            Ok(Some((key, Entry::Missing(at))))
        }
        None => Ok(None),
    }
}
