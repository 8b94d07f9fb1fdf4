//! What a commit needs before it is made: entries, overlays, and a place for each.

ghost use Rattle.std.specs.Prelude.{◌≡◌, IsTrue, IfOk, IfSome, OnOk, option_map};
ghost use Rattle.std.specs.List.{All, filter_map};
ghost use Rattle.value_model.specs.declared.document.Seal.{Seal};
ghost use Rattle.value_model.specs.declared.document.Seal.TheVariants.{Committed};
ghost use Rattle.key_table.specs.Table.{KeepsKeys, has_key};
ghost use Rattle.mutations.specs.Effect.{IsOfFieldsOnly};
ghost use Rattle.mutations.specs.Results.{FitsWrites};
ghost use Rattle.remote_documents.specs.Table.{IsMapOf, entries_in};
ghost use Rattle.durable_state.specs.Cached.{answered_by, cached, with_all};
ghost use Rattle.durable_state.specs.Ready.{HavePlaces, first_keys, put_change, put_changes};

use crate::news::News;
use acknowledgements::acknowledged_entry;
use document_keys::{DocumentKey, NoMemory};
use keyed_writes::KeyedWrites;
use mutations::{Write, WriteResult};
use outcome_codec::KeyedEntry;
use remote_documents::RemoteDocuments;
use std::alloc::Global;
use value_model::{Entry, Timestamp};

/// The answer to a batch: its writes, with their results, and the time of the commit.
#[derive(Drop)]
pub(crate) struct Answer<'a> {
    pub(crate) writes: &'a [Write],
    pub(crate) results: &'a [WriteResult],
    pub(crate) at: Timestamp,
}

/// The entry of the key, without its seal.
pub(crate) fn known<'a>(entries: &'a RemoteDocuments, key: &DocumentKey) -> Option<&'a Entry>
    requires { IsMapOf entries.now }
    ensures { option_map (λ e. e.now) result ≡ cached (entries_in entries.now) key.now }
{
    match entries.entry(key) {
        Some((entry, _)) => Some(entry),
        None => None,
    }
}

/// The entry of the key after the changes, without its seal, whatever seal the changes have.
pub(crate) fn known_after<'a>(
    entries: &'a RemoteDocuments,
    news: &News<'a>,
    key: &DocumentKey,
) -> Option<&'a Entry>
    requires { IsMapOf entries.now }
    ensures { (seal : Seal) → option_map (λ e. e.now) result
        ≡ cached (with_all (entries_in entries.now) (put_changes seal news.now)) key.now }
{
    match news.entry(key) {
        Some(entry) => Some(entry),
        None => known(entries, key),
    }
}

/// Makes a place for the key's entry. No entry changes.
///
/// # Errors
/// `NoMemory`
fn make_place(entries: &mut RemoteDocuments, key: &DocumentKey) -> Result<(), NoMemory>
    requires { IsMapOf entries.old }
    ensures same { entries_in entries.new ≡ entries_in entries.old }
    ensures map { IsMapOf entries.new }
    ensures places { KeepsKeys entries.old entries.new }
    ensures place { OnOk result (IsTrue (has_key entries.new key.now)) }
{
    let made = entries.reserve(key);
    entries.is_map();
    made
}

/// The entry that the answer to the writes leaves of the key, if it changes, with a place for it.
///
/// # Errors
/// `NoMemory`
fn answered_key(
    alloc: Global,
    entries: &mut RemoteDocuments,
    key: &DocumentKey,
    writes: &KeyedWrites,
    answer: &Answer,
) -> Result<Option<KeyedEntry>, NoMemory>
    requires paths { All IsOfFieldsOnly writes.now }
    requires fits { FitsWrites writes.now answer.now.results.now }
    requires map { IsMapOf entries.old }
    ensures same { entries_in entries.new ≡ entries_in entries.old }
    ensures map { IsMapOf entries.new }
    ensures places { KeepsKeys entries.old entries.new }
    ensures change { IfOk result (λ found. option_map (put_change (Committed answer.now.at)) found
        ≡ answered_by (entries_in entries.old) writes.now answer.now.results.now
        answer.now.at key.now) }
    ensures place { IfOk result (λ found. IfSome found (λ c. IsTrue (has_key entries.new c.key))) }
{
    let entry = known(entries, key);
    let left = acknowledged_entry(alloc, key, entry, writes, answer.results, answer.at)?;
    let Some(entry) = left else {
        return Ok(None);
    };
    make_place(entries, key)?;
    let key = key.copy(alloc)?;
    Ok(Some(KeyedEntry { key, entry }))
}

/// The entries that the answer leaves of the keys that the writes name, and a place for each.
///
/// # Errors
/// `NoMemory`
fn answer_each(
    alloc: Global,
    entries: &mut RemoteDocuments,
    writes: &KeyedWrites,
    answer: &Answer,
) -> Result<Vec<KeyedEntry>, NoMemory>
    requires paths { All IsOfFieldsOnly writes.now }
    requires fits { FitsWrites writes.now answer.now.results.now }
    requires map { IsMapOf entries.old }
    ensures same { entries_in entries.new ≡ entries_in entries.old }
    ensures map { IsMapOf entries.new }
    ensures changes { IfOk result (λ changes. put_changes (Committed answer.now.at) changes.items
        ≡ filter_map (answered_by (entries_in entries.old) writes.now answer.now.results.now
        answer.now.at) (first_keys writes.now)) }
    ensures places { IfOk result (λ changes. HavePlaces entries.new changes.items) }
{
    let all = writes.as_slice();
    let mut changes = Vec::with_capacity(alloc, all.len())?;
    for place in 0..all.len() {
        let key = all[place].key();
        if writes.first(key) == place {
            let found = answered_key(alloc, entries, key, writes, answer)?;
            if let Some(change) = found {
                changes.push(change)?;
            }
        }
    }
    Ok(changes)
}

/// The entries that the answer leaves of the keys that its writes name, and a place for each.
///
/// # Errors
/// `NoMemory`
pub(crate) fn answered(
    alloc: Global,
    entries: &mut RemoteDocuments,
    answer: &Answer,
) -> Result<Vec<KeyedEntry>, NoMemory>
    requires paths { All IsOfFieldsOnly answer.now.writes.now }
    requires fits { FitsWrites answer.now.writes.now answer.now.results.now }
    requires map { IsMapOf entries.old }
    ensures same { entries_in entries.new ≡ entries_in entries.old }
    ensures map { IsMapOf entries.new }
    ensures changes { IfOk result (λ changes. put_changes (Committed answer.now.at) changes.items
        ≡ filter_map (answered_by (entries_in entries.old) answer.now.writes.now answer.now.results.now
        answer.now.at) (first_keys answer.now.writes.now)) }
    ensures places { IfOk result (λ changes. HavePlaces entries.new changes.items) }
{
    let writes = KeyedWrites::new(alloc, answer.writes)?;
    answer_each(alloc, entries, &writes, answer)
}

/// Takes the memory of so many places. No entry changes.
///
/// # Errors
/// `NoMemory`
fn reserve_places(entries: &mut RemoteDocuments, places: usize) -> Result<(), NoMemory>
    requires { IsMapOf entries.old }
    ensures same { entries_in entries.new ≡ entries_in entries.old }
    ensures map { IsMapOf entries.new }
{
    let made = entries.make_room(places);
    entries.is_map();
    made
}

/// Makes a place for each of the changes. No entry changes.
///
/// # Errors
/// `NoMemory`
pub(crate) fn make_places(
    entries: &mut RemoteDocuments,
    changes: &[KeyedEntry],
) -> Result<(), NoMemory>
    requires { IsMapOf entries.old }
    ensures same { entries_in entries.new ≡ entries_in entries.old }
    ensures map { IsMapOf entries.new }
    ensures places { OnOk result (HavePlaces entries.new changes.now) }
{
    // where the table has less than these, its memory is taken at once, and not in steps that are each copied
    reserve_places(entries, changes.len())?;
    for change in changes {
        make_place(entries, &change.key)?;
    }
    Ok(())
}
