//! The greatest version of a key's writes, and what they leave of the key's entry.

ghost use Rattle.std.specs.Prelude.{◌≡◌, IfOk};
ghost use Rattle.std.specs.List.{All};
ghost use Rattle.acknowledgements.specs.Acked.{acked, greatest, is_below, is_earlier, latest, left_by, lent_entry};
ghost use Rattle.mutations.specs.Effect.{IsOfFieldsOnly};
ghost use Rattle.mutations.specs.Results.{FitsWrites};

use document_keys::{DocumentKey, NoMemory};
use keyed_writes::KeyedWrites;
use mutations::{WriteResult, apply_result};
use std::alloc::Global;
use value_model::{Entry, Timestamp};

/// Whether one time is before another.
fn is_earlier(time: Timestamp, other: Timestamp) -> bool
    ensures { result ≡ is_earlier time other }
{
    time.cmp(&other).is_lt()
}

/// The later of two times, where there are two.
fn latest(found: Option<Timestamp>, time: Timestamp) -> Option<Timestamp>
    ensures { result ≡ latest found time }
{
    match found {
        None => Some(time),
        Some(other) => {
            if is_earlier(other, time) {
                Some(time)
            } else {
                Some(other)
            }
        }
    }
}

/// The greatest version of the key's writes; `None` where no write has the key.
fn greatest(
    key: &DocumentKey,
    writes: &KeyedWrites,
    results: &[WriteResult],
    commit: Timestamp,
) -> Option<Timestamp>
    requires { FitsWrites writes.now results.now }
    ensures { result ≡ greatest key.now writes.now results.now commit }
{
    let count = writes.as_slice().len();
    let mut found = None;
    let mut place = writes.first(key);
    while place < count {
        let version = results[place].version(commit);
        found = latest(found, version);
        place = writes.after(place);
    }
    found
}

/// Whether there is no entry, or its version is below the time.
fn is_below(entry: Option<&Entry>, time: Timestamp) -> bool
    ensures { result ≡ is_below (lent_entry entry.entry) time }
{
    match entry {
        None => true,
        Some(entry) => is_earlier(entry.version(), time),
    }
}

/// A copy of the entry, where there is one.
fn copied(alloc: Global, entry: Option<&Entry>) -> Result<Option<Entry>, NoMemory>
    ensures { IfOk result (λ copy. copy ≡ lent_entry entry.entry) }
{
    match entry {
        None => Ok(None),
        Some(entry) => Ok(Some(entry.copy(alloc)?)),
    }
}

/// The entry after the key's writes, each with its own result, at the version.
fn left_by(
    alloc: Global,
    key: &DocumentKey,
    version: Timestamp,
    entry: Option<Entry>,
    writes: &KeyedWrites,
    results: &[WriteResult],
) -> Result<Option<Entry>, NoMemory>
    requires paths { All IsOfFieldsOnly writes.now }
    requires fits { FitsWrites writes.now results.now }
    ensures { IfOk result (λ left. left ≡ left_by key.now version entry writes.now results.now) }
{
    let all = writes.as_slice();
    let mut left = entry;
    let mut place = writes.first(key);
    while place < all.len() {
        apply_result(alloc, &mut left, &all[place], &results[place], version)?;
        place = writes.after(place);
    }
    Ok(left)
}

/// What the answer to a batch leaves of the key's entry: the entry anew, or `None` exactly where it stays, since no write
/// has the key or the entry isn't below the greatest version of the key's writes. No write has a path `__name__`, and the
/// results fit the writes.
///
/// # Errors
/// `NoMemory`
pub fn acknowledged_entry(
    alloc: Global,
    key: &DocumentKey,
    entry: Option<&Entry>,
    writes: &KeyedWrites,
    results: &[WriteResult],
    commit: Timestamp,
) -> Result<Option<Entry>, NoMemory>
    requires paths { All IsOfFieldsOnly writes.now }
    requires fits { FitsWrites writes.now results.now }
    ensures { IfOk result (λ left.
        left ≡ acked (lent_entry entry.entry) key.now writes.now results.now commit) }
{
    let Some(version) = greatest(key, writes, results, commit) else {
        return Ok(None);
    };
    if !is_below(entry, version) {
        return Ok(None);
    }
    let entry = copied(alloc, entry)?;
    left_by(alloc, key, version, entry, writes, results)
}
