//! Overlays worked out for a commit, each with a place.

ghost use Rattle.std.specs.Prelude.{◌≡◌, [], drop, map as each, None, IsTrue, IfOk, OnOk, option_map};
ghost use Rattle.std.specs.List.{All, filter};
ghost use Rattle.key_table.specs.Table.{KeepsKeys, has_key};
ghost use Rattle.mutations.specs.Effect.{IsOfFieldsOnly};
ghost use Rattle.mutation_queue.specs.Queue.{named_keys};
ghost use Rattle.overlays.specs.LocalDocument.{after_batch, after_writes, base_of, local_document};
ghost use Rattle.overlays.specs.Table.{IsBatchOfFields, SameOverlays, shown};
ghost use Rattle.remote_documents.specs.Table.{IsMapOf, entries_in};
ghost use Rattle.durable_state.specs.Cached.{cached, first_writes};
ghost use Rattle.durable_state.specs.Documents.{is_among};
ghost use Rattle.durable_state.specs.Ready.{HasDocument, IsOver, LaysKeys, LaysStillNamed, Settles, first_keys, keys_named_no_more};

use crate::news::News;
use crate::readying::{known, known_after};
use document_keys::{DocumentKey, KeySet, NoMemory};
use keyed_writes::KeyedWrites;
use mutation_queue::MutationQueue;
use mutations::Batch;
use outcome_codec::KeyedEntry;
use overlays::{Overlay, Overlays};
use remote_documents::RemoteDocuments;
use std::alloc::Global;
use value_model::{Entry, Timestamp};

/// The overlay of the key with its local document over the entry and the pending batches past the first so many; a place
/// is made for it.
///
/// # Errors
/// `NoMemory`
fn overlay_over(
    alloc: Global,
    overlays: &mut Overlays,
    key: &DocumentKey,
    entry: Option<&Entry>,
    pending: &MutationQueue,
    past: u64,
) -> Result<Overlay, NoMemory>
    requires { All IsBatchOfFields pending.now.batches }
    ensures same { SameOverlays overlays.old overlays.new }
    ensures places { KeepsKeys overlays.old overlays.new }
    ensures key { IfOk result (λ o. o.key ≡ key.now) }
    ensures place { OnOk result (IsTrue (has_key overlays.new key.now)) }
    ensures document { IfOk result (λ o. o.document
        ≡ local_document key.now (base_of (option_map (λ e. e.now) entry.entry))
        (drop past pending.now.batches)) }
{
    overlays.reserve(key)?;
    overlays.prepare_pending(alloc, key, entry, pending, past)
}

/// The overlay of the key after the writes of one batch more; a place is made for it.
///
/// # Errors
/// `NoMemory`
fn overlay_after(
    alloc: Global,
    overlays: &mut Overlays,
    key: &DocumentKey,
    entry: Option<&Entry>,
    writes: &KeyedWrites,
    at: Timestamp,
) -> Result<Overlay, NoMemory>
    requires { All IsOfFieldsOnly writes.now }
    ensures same { SameOverlays overlays.old overlays.new }
    ensures places { KeepsKeys overlays.old overlays.new }
    ensures key { IfOk result (λ o. o.key ≡ key.now) }
    ensures place { OnOk result (IsTrue (has_key overlays.new key.now)) }
    ensures document { IfOk result (λ o. o.document ≡ after_writes key.now at
        (shown overlays.new key.now (base_of (option_map (λ e. e.now) entry.entry))) writes.now) }
{
    overlays.reserve(key)?;
    overlays.extend(alloc, key, entry, writes, at)
}

/// The overlays of the keys of the writes, once these are the last pending ones, made at the time.
///
/// # Errors
/// `NoMemory`
fn lay_each(
    alloc: Global,
    overlays: &mut Overlays,
    entries: &RemoteDocuments,
    keyed: &KeyedWrites,
    at: Timestamp,
) -> Result<Vec<Overlay>, NoMemory>
    requires fields { All IsOfFieldsOnly keyed.now }
    requires map { IsMapOf entries.now }
    ensures same { SameOverlays overlays.old overlays.new }
    ensures laid { IfOk result (λ laid. LaysKeys overlays.new (HasDocument (λ key. after_writes key at
        (shown overlays.old key (base_of (cached (entries_in entries.now) key))) keyed.now))
        (first_keys keyed.now) laid.items) }
{
    let writes = keyed.as_slice();
    let mut laid = Vec::with_capacity(alloc, writes.len())?;
    for place in 0..writes.len() {
        let key = writes[place].key();
        if keyed.first(key) == place {
            let entry = known(entries, key);
            let overlay = overlay_after(alloc, overlays, key, entry, keyed, at);
            laid.push(overlay?)?;
        }
    }
    Ok(laid)
}

/// The overlays of the keys that the batch names, once it is the last pending one.
///
/// # Errors
/// `NoMemory`
pub(crate) fn lay_batch(
    alloc: Global,
    overlays: &mut Overlays,
    entries: &RemoteDocuments,
    batch: &Batch,
) -> Result<Vec<Overlay>, NoMemory>
    requires fields { IsBatchOfFields batch.now }
    requires map { IsMapOf entries.now }
    ensures same { SameOverlays overlays.old overlays.new }
    ensures laid { IfOk result (λ laid. LaysKeys overlays.new (HasDocument (λ key. after_batch key
        (shown overlays.old key (base_of (cached (entries_in entries.now) key))) batch.now))
        (first_keys batch.now.writes) laid.items) }
{
    let keyed = KeyedWrites::new(alloc, batch.writes.as_slice())?;
    lay_each(alloc, overlays, entries, &keyed, batch.at)
}

/// The overlays of those keys that pending batches name, after their entries were changed.
///
/// # Errors
/// `NoMemory`
pub(crate) fn lay_changed(
    alloc: Global,
    overlays: &mut Overlays,
    pending: &MutationQueue,
    changes: &[KeyedEntry],
) -> Result<Vec<Overlay>, NoMemory>
    requires { All IsBatchOfFields pending.now.batches }
    ensures same { SameOverlays overlays.old overlays.new }
    ensures laid { IfOk result (λ laid. LaysKeys overlays.new (IsOver pending.now.batches changes.now)
        (filter (is_among (named_keys pending.now.batches)) (each (λ c. c.key) changes.now)) laid.items) }
{
    let mut laid = Vec::new(alloc);
    for change in changes {
        if pending.names(&change.key) {
            let entry = Some(&change.entry);
            let overlay = overlay_over(alloc, overlays, &change.key, entry, pending, 0);
            laid.push(overlay?)?;
        }
    }
    Ok(laid)
}

/// The overlays of those keys that pending batches name, after their entries are gone.
///
/// # Errors
/// `NoMemory`
pub(crate) fn lay_dropped(
    alloc: Global,
    overlays: &mut Overlays,
    pending: &MutationQueue,
    keys: &KeySet,
) -> Result<Vec<Overlay>, NoMemory>
    requires { All IsBatchOfFields pending.now.batches }
    ensures same { SameOverlays overlays.old overlays.new }
    ensures laid { IfOk result (λ laid. LaysKeys overlays.new
        (HasDocument (λ key. local_document key None pending.now.batches))
        (filter (is_among (named_keys pending.now.batches)) keys.now) laid.items) }
{
    let mut laid = Vec::new(alloc);
    for key in keys.as_slice() {
        if pending.names(key) {
            let overlay = overlay_over(alloc, overlays, key, None, pending, 0);
            laid.push(overlay?)?;
        }
    }
    Ok(laid)
}

/// The overlays of keys that pending batches still name, and the keys that none names any more.
#[derive(Drop)]
pub(crate) struct Relaid {
    pub(crate) laid: Vec<Overlay>,
    pub(crate) lifted: Vec<DocumentKey>,
}

impl Relaid {
    /// Nothing yet.
    fn none(alloc: Global) -> Relaid
        ensures laid { result.laid.items ≡ [] }
        ensures lifted { result.lifted.items ≡ [] }
    {
        Relaid {
            laid: Vec::new(alloc),
            lifted: Vec::new(alloc),
        }
    }

    /// Puts in what becomes of the key once the first pending batch has left.
    ///
    /// # Errors
    /// `NoMemory`
    fn settle(
        &mut self,
        alloc: Global,
        overlays: &mut Overlays,
        pending: &MutationQueue,
        key: &DocumentKey,
        entry: Option<&Entry>,
    ) -> Result<(), NoMemory>
        requires { All IsBatchOfFields pending.now.batches }
        ensures same { SameOverlays overlays.old overlays.new }
        ensures places { KeepsKeys overlays.old overlays.new }
        ensures settled { OnOk result (Settles overlays.new (drop 1 pending.now.batches) key.now
            (option_map (λ e. e.now) entry.entry) self.old self.new) }
    {
        if !pending.names_behind(key) {
            self.lifted.push(key.copy(alloc)?)?;
            return Ok(());
        }
        let overlay = overlay_over(alloc, overlays, key, entry, pending, 1)?;
        self.laid.push(overlay)?;
        Ok(())
    }
}

/// What becomes of the overlays of the keys of the writes, once the first pending batch has left and the entries were
/// changed.
///
/// # Errors
/// `NoMemory`
fn settle_each<'a>(
    alloc: Global,
    overlays: &mut Overlays,
    pending: &MutationQueue,
    entries: &'a RemoteDocuments,
    keyed: &KeyedWrites,
    news: &News<'a>,
) -> Result<Relaid, NoMemory>
    requires fields { All IsBatchOfFields pending.now.batches }
    requires map { IsMapOf entries.now }
    ensures same { SameOverlays overlays.old overlays.new }
    ensures laid { IfOk result (λ relaid. LaysStillNamed overlays.new (entries_in entries.now)
        news.now (drop 1 pending.now.batches) keyed.now relaid.laid.items) }
    ensures lifted { IfOk result (λ relaid. relaid.lifted.items
        ≡ keys_named_no_more (drop 1 pending.now.batches) keyed.now) }
{
    let mut relaid = Relaid::none(alloc);
    let writes = keyed.as_slice();
    for place in 0..writes.len() {
        let key = writes[place].key();
        if keyed.first(key) == place {
            let entry = known_after(entries, news, key);
            relaid.settle(alloc, overlays, pending, key, entry)?;
        }
    }
    Ok(relaid)
}

/// What becomes of the overlays of the keys that the first pending batch names, once it has left and the entries were
/// changed.
///
/// # Errors
/// `NoMemory`
pub(crate) fn lay_behind(
    alloc: Global,
    overlays: &mut Overlays,
    pending: &MutationQueue,
    entries: &RemoteDocuments,
    changes: &[KeyedEntry],
) -> Result<Relaid, NoMemory>
    requires fields { All IsBatchOfFields pending.now.batches }
    requires map { IsMapOf entries.now }
    ensures same { SameOverlays overlays.old overlays.new }
    ensures laid { IfOk result (λ relaid. LaysStillNamed overlays.new (entries_in entries.now)
        changes.now (drop 1 pending.now.batches) (first_writes pending.now.batches)
        relaid.laid.items) }
    ensures lifted { IfOk result (λ relaid. relaid.lifted.items
        ≡ keys_named_no_more (drop 1 pending.now.batches) (first_writes pending.now.batches)) }
{
    let Some(first) = pending.first() else {
        return Ok(Relaid::none(alloc));
    };
    let keyed = KeyedWrites::new(alloc, first.writes.as_slice())?;
    let news = News::new(alloc, changes)?;
    settle_each(alloc, overlays, pending, entries, &keyed, &news)
}
