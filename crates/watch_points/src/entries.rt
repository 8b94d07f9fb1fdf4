//! The entries of a point: those that wait, and the documents that targets lack.

ghost use Rattle.std.specs.Prelude.{◌≡◌, None, map, OnOk, IfOk, option_map};
ghost use Rattle.std.specs.BTreeMap.{IsOrdered, get};
ghost use Rattle.std.specs.List.{All, AllPairs};
ghost use Rattle.std.specs.Option.{option_copied};
ghost use Rattle.acknowledgements.specs.Acked.{is_earlier};
ghost use Rattle.document_keys.specs.Order.{PathBefore};
ghost use Rattle.listen_protocol.specs.Calls.{Key, key_cmp};
ghost use Rattle.record_parts.specs.Spelling.{IsSpelledKey};
ghost use Rattle.durable_state.specs.Documents.{sealed_entry_of};
ghost use Rattle.durable_state.specs.Tables.{state_in};
ghost use Rattle.watch_points.specs.PointCommit.{entry_among};
ghost use Rattle.watch_points.specs.Steps.{keyed_entry, lacked, missed_of, missed_over, misses, put_of, replaces, untold};

use crate::shown::show_key;
use document_keys::{DocumentKey, KeySet, NoMemory};
use durable_state::DurableState;
use outcome_codec::KeyedEntry;
use std::alloc::Global;
use std::cmp::Ordering;
use std::collections::BTreeMap;
use value_model::{Entry, Seal, Timestamp};
use watch_aggregator::WatchTarget;

/// Whether the entry replaces what is known of the key.
fn is_put(tables: &DurableState, key: &DocumentKey, entry: &Entry) -> bool
    ensures { result ≡ replaces (sealed_entry_of (state_in tables.now) key.now) entry.now }
{
    tables.is_replaced(key, entry)
}

/// The entries that replace what is known of their keys.
fn put_all(
    alloc: Global,
    tables: &DurableState,
    entries: Vec<(DocumentKey, Entry)>,
) -> Result<BTreeMap<DocumentKey, Entry>, NoMemory>
    ensures { IfOk result (λ table. (k : Key) → get key_cmp table k
        ≡ put_of (state_in tables.now) entries.items k) }
{
    let mut table = BTreeMap::new(alloc);
    for (key, entry) in entries {
        if is_put(tables, &key, &entry) {
            table.insert(key, entry)?;
        }
    }
    Ok(table)
}

/// The key, unless it was told.
fn untold<'a>(told: &KeySet, key: &'a DocumentKey) -> Option<&'a DocumentKey>
    ensures { option_map (λ k. k.now) result ≡ untold told.now (Some key.now) }
{
    if told.has(key) { None } else { Some(key) }
}

/// The document that the target lacks.
fn lacked(target: &WatchTarget) -> Option<&DocumentKey>
    ensures { option_map (λ k. k.now) result ≡ lacked target.now }
{
    if !target.current {
        return None;
    }
    match &target.document {
        Some(key) => untold(&target.told, key),
        None => None,
    }
}

/// Whether the first time is the earlier one.
fn is_earlier(a: Timestamp, b: Timestamp) -> bool
    ensures { result ≡ is_earlier a b }
{
    a.cmp(&b) == Ordering::Less
}

/// Whether the key isn't known to be missing, and that it is at the read time replaces what is known, once this is put.
fn misses(tables: &DurableState, at: Timestamp, key: &DocumentKey, put: Option<&Entry>) -> bool
    ensures { result ≡ misses (state_in tables.now) at key.now (option_copied put.entry) }
{
    match put {
        Some(Entry::Missing(_)) => false,
        Some(entry) => is_earlier(entry.version(), at),
        None => match tables.entry(key) {
            Some((Entry::Missing(_), Seal::Seen)) => false,
            _ => is_put(tables, key, &Entry::Missing(at)),
        },
    }
}

/// That the document is missing which the target lacks, if it lacks one.
fn miss(
    alloc: Global,
    tables: &DurableState,
    at: Timestamp,
    table: &mut BTreeMap<DocumentKey, Entry>,
    target: &WatchTarget,
) -> Result<(), NoMemory>
    ensures { OnOk result ((k : Key) → get key_cmp table.new k
        ≡ missed_over (state_in tables.now) at k (get key_cmp table.old k) target.now) }
{
    let Some(key) = lacked(target) else {
        return Ok(());
    };
    if !misses(tables, at, key, table.get(key)) {
        return Ok(());
    }
    let key = key.copy(alloc)?;
    table.insert(key, Entry::Missing(at))?;
    Ok(())
}

/// That the documents are missing which targets lack.
fn miss_all(
    alloc: Global,
    tables: &DurableState,
    at: Timestamp,
    table: &mut BTreeMap<DocumentKey, Entry>,
    targets: &[WatchTarget],
) -> Result<(), NoMemory>
    ensures { OnOk result ((k : Key) → get key_cmp table.new k
        ≡ missed_of (state_in tables.now) at targets.now k (get key_cmp table.old k)) }
{
    for target in targets {
        miss(alloc, tables, at, table, target)?;
    }
    Ok(())
}

/// The entries of the table, in the order of their keys.
fn listed(alloc: Global, table: BTreeMap<DocumentKey, Entry>) -> Result<Vec<KeyedEntry>, NoMemory>
    ensures value { IfOk result (λ entries. entries.items ≡ map keyed_entry table.entries) }
    ensures named { IfOk result (λ entries. All (λ e. IsSpelledKey e.key) entries.items) }
    ensures ordered { IsOrdered key_cmp table }
{
    let mut entries = Vec::with_capacity(alloc, table.len())?;
    for (key, entry) in table {
        show_key(&key);
        entries.push(KeyedEntry { key, entry })?;
    }
    Ok(entries)
}

/// The entries of a point, by ascending key.
pub(crate) fn point_entries(
    alloc: Global,
    tables: &DurableState,
    at: Timestamp,
    entries: Vec<(DocumentKey, Entry)>,
    targets: &[WatchTarget],
) -> Result<Vec<KeyedEntry>, NoMemory>
    ensures ascend { IfOk result (λ es. AllPairs (λ a b. PathBefore a.key b.key) es.items) }
    ensures named { IfOk result (λ es. All (λ e. IsSpelledKey e.key) es.items) }
    ensures each { IfOk result (λ es. (k : Key) → entry_among es.items k
        ≡ missed_of (state_in tables.now) at targets.now k (put_of (state_in tables.now) entries.items k)) }
{
    let mut table = put_all(alloc, tables, entries)?;
    miss_all(alloc, tables, at, &mut table, targets)?;
    let entries = listed(alloc, table)?;
    Ok(entries)
}
