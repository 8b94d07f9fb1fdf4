ghost use Rattle.std.specs.Prelude.{◌≡◌, ◌↔◌, ℕ, List, Some, None, false, IsTrue, IsOk, OnOk, IfOk, drop, is_some, option_map};
ghost use Rattle.std.specs.List.{All, AllPairs, Contains};
ghost use Rattle.std.specs.Option.{ForSome, IsSome};
ghost use Rattle.document_keys.specs.Order.{PathBefore};
ghost use Rattle.key_table.specs.Table.{KeepsKeys, KeepsOtherKeys, SameOtherKeys, has_key};
ghost use Rattle.mutations.specs.Effect.{IsOfFieldsOnly};
ghost use Rattle.value_model.specs.Documents.{IsIn};
ghost use Rattle.overlays.specs.Lent.{known, lent_document, with_more};
ghost use Rattle.overlays.specs.LocalDocument.{after_writes, local_document};
ghost use Rattle.overlays.specs.Table.{Changes, IsBatchOfFields, SameOverlays, overlay_of, shown};

use crate::laying::{all_laid_on, base, keyed_laid_on, laid_on, lent_laid_on};
use crate::slot::Slot;
use document_keys::{CollectionPath, DocumentKey, NoMemory};
use key_table::KeyTable;
use keyed_writes::KeyedWrites;
use mutation_queue::MutationQueue;
use mutations::Batch;
use std::alloc::Global;
use std::marker::Model;
use value_model::{Document, Entry, Fields, Timestamp};

/// The local document of a key, worked out and not yet put in place.
#[derive(Debug, Drop)]
pub struct Overlay {
    pub key: DocumentKey,
    pub document: Option<Document>,
}

/// The local document of each key that a pending write names. Contracts see a finite map from keys to optional documents,
/// by `overlay_of`, and beside it the room for more, by `has_key`.
#[derive(Debug, Drop)]
pub struct Overlays {
    slots: KeyTable<Slot>,
    alloc: Global,
}

impl Model for Overlays {
    ghost use Rattle.overlays.specs.Table.{Table, table_code};

    ghost Value = { Table };

    ghost coded = { table_code };

    ghost view = { λ overlays. overlays.slots };
}

/// The fields and the update time of the entry's document.
fn lent<'a>(entry: Option<&'a Entry>) -> Option<(&'a Fields, Option<Timestamp>)>
    ensures { lent_document result ≡ known entry.entry }
{
    match entry {
        Some(Entry::Found(fields, version)) => Some((fields, Some(*version))),
        _ => None,
    }
}

impl Overlays {
    /// No overlay. It takes no memory yet.
    pub fn new(alloc: Global) -> Overlays
        ensures { (key : List (List ℕ)) → overlay_of result key ≡ None }
    {
        Overlays {
            slots: KeyTable::new(alloc),
            alloc,
        }
    }

    /// Works out the local document of the key, from its entry, the batches, and one more if there is one. No path of their
    /// writes is `__name__`.
    ///
    /// # Errors
    /// `NoMemory`
    pub fn prepare(
        &self,
        alloc: Global,
        key: &DocumentKey,
        entry: Option<&Entry>,
        batches: &[Batch],
        more: Option<&Batch>,
    ) -> Result<Overlay, NoMemory>
        requires batches { All IsBatchOfFields batches.now }
        requires more { ForSome more (λ batch. IsBatchOfFields batch.now) }
        ensures key { IfOk result (λ overlay. overlay.key ≡ key.now) }
        ensures document { IfOk result (λ overlay. overlay.document ≡
            local_document key.now (known entry.entry) (with_more batches.now more.entry)) }
    {
        let document = base(alloc, entry)?;
        let document = all_laid_on(alloc, key, document, batches)?;
        let document = match more {
            Some(batch) => laid_on(alloc, key, document, batch)?,
            None => document,
        };
        let key = key.copy(alloc)?;
        Ok(Overlay { key, document })
    }

    /// Works out the local document of the key, from its entry and the pending batches, without the first `past`. No path of
    /// their writes is `__name__`. It looks only at batches that name the key.
    ///
    /// # Errors
    /// `NoMemory`
    pub fn prepare_pending(
        &self,
        alloc: Global,
        key: &DocumentKey,
        entry: Option<&Entry>,
        pending: &MutationQueue,
        past: u64,
    ) -> Result<Overlay, NoMemory>
        requires { All IsBatchOfFields pending.now.batches }
        ensures key { IfOk result (λ overlay. overlay.key ≡ key.now) }
        ensures document { IfOk result (λ overlay. overlay.document ≡
            local_document key.now (known entry.entry) (drop past pending.now.batches)) }
    {
        let batches = pending.naming(alloc, key, past)?;
        let document = base(alloc, entry)?;
        let document = lent_laid_on(alloc, key, document, batches.as_slice())?;
        let key = key.copy(alloc)?;
        Ok(Overlay { key, document })
    }

    /// The local document of the key, to lay writes on. It shares the overlay's fields.
    fn shown(
        &self,
        alloc: Global,
        key: &DocumentKey,
        entry: Option<&Entry>,
    ) -> Result<Option<Document>, NoMemory>
        ensures { IfOk result (λ document. document ≡ shown self.now key.now (known entry.entry)) }
    {
        match self.slots.get(key) {
            Some(Slot::Laid(Some(document))) => Ok(Some(document.copy()?)),
            Some(Slot::Laid(None)) => Ok(None),
            _ => base(alloc, entry),
        }
    }

    /// Works out the local document of the key after the writes of one batch more, which is made at the time, from what it is
    /// now. No path of the writes is `__name__`. It looks at those of the key alone.
    ///
    /// # Errors
    /// `NoMemory`
    pub fn extend(
        &self,
        alloc: Global,
        key: &DocumentKey,
        entry: Option<&Entry>,
        more: &KeyedWrites,
        at: Timestamp,
    ) -> Result<Overlay, NoMemory>
        requires { All IsOfFieldsOnly more.now }
        ensures key { IfOk result (λ overlay. overlay.key ≡ key.now) }
        ensures document { IfOk result (λ overlay. overlay.document ≡
            after_writes key.now at (shown self.now key.now (known entry.entry)) more.now) }
    {
        let document = self.shown(alloc, key, entry)?;
        let document = keyed_laid_on(alloc, key, document, more, at)?;
        let key = key.copy(alloc)?;
        Ok(Overlay { key, document })
    }

    /// Makes a place for the key's overlay. Nothing else changes.
    ///
    /// # Errors
    /// `NoMemory`, never where there is a place.
    pub fn reserve(&mut self, key: &DocumentKey) -> Result<(), NoMemory>
        ensures same { SameOverlays self.old self.new }
        ensures room { OnOk result (IsTrue (has_key self.new key.now)) }
        ensures kept { IsTrue (has_key self.old key.now) → IsOk result }
        ensures places { KeepsKeys self.old self.new }
        ensures others { SameOtherKeys key.now self.old self.new }
    {
        if !self.slots.has(key) {
            let key = key.copy(self.alloc)?;
            self.slots.insert(self.alloc, key, Slot::Reserved)?;
        }
        Ok(())
    }

    /// Keeps the places in order from now on, for listings. It costs nothing where they are kept so already.
    ///
    /// # Errors
    /// `NoMemory`
    pub fn arrange(&mut self) -> Result<(), NoMemory>
        ensures { self.new ≡ self.old }
    {
        self.slots.arrange(self.alloc)
    }

    /// Puts the overlay in place of its key's old one, where there is a place. It takes no memory.
    pub fn set(&mut self, overlay: Overlay)
        requires { IsTrue (has_key self.old overlay.key) }
        ensures done { Changes overlay.key (Some overlay.document) self.old self.new }
        ensures places { KeepsKeys self.old self.new }
    {
        let Overlay { key, document } = overlay;
        self.slots.set(&key, Slot::Laid(document));
    }

    /// Takes the key's overlay away, if there is one, and its place.
    pub fn remove(&mut self, key: &DocumentKey)
        ensures done { Changes key.now None self.old self.new }
        ensures gone { has_key self.new key.now ≡ false }
        ensures places { KeepsOtherKeys key.now self.old self.new }
    {
        self.slots.remove(key);
    }

    /// The overlay of the key, lent: its local document, or that there is none. `None` exactly where the key has no overlay.
    pub fn overlay(&self, key: &DocumentKey) -> Option<&Option<Document>>
        ensures { option_map (λ document. document.now) result ≡ overlay_of self.now key.now }
    {
        match self.slots.get(key) {
            Some(Slot::Laid(document)) => Some(document),
            _ => None,
        }
    }

    /// The local document of the key, with its update time, lent: that of its overlay, and where it has none that of
    /// its entry. `None` exactly where there is no such document.
    pub fn document<'a>(
        &'a self,
        key: &DocumentKey,
        entry: Option<&'a Entry>,
    ) -> Option<(&'a Fields, Option<Timestamp>)>
        ensures { lent_document result ≡ shown self.now key.now (known entry.entry) }
    {
        match self.slots.get(key) {
            Some(Slot::Laid(Some(document))) => Some((
                document.fields.as_fields(),
                document.update_time,
            )),
            Some(Slot::Laid(None)) => None,
            _ => lent(entry),
        }
    }

    /// Whether the key has an overlay that is a document.
    fn has_document(&self, key: &DocumentKey) -> bool
        ensures { result ≡ is_some (shown self.now key.now None) }
    {
        matches!(self.slots.get(key), Some(Slot::Laid(Some(_))))
    }

    /// The keys of the collection's documents among those that have an overlay, ascending. Where the places are kept in
    /// order, it looks at those below the collection's path alone.
    ///
    /// # Errors
    /// `NoMemory`
    pub fn keys_in(
        &self,
        alloc: Global,
        collection: &CollectionPath,
    ) -> Result<Vec<DocumentKey>, NoMemory>
        ensures ascending { IfOk result (λ keys. AllPairs PathBefore keys.items) }
        ensures members { IfOk result (λ keys. (key : List (List ℕ)) →
            Contains keys.items key ↔ (IsIn collection.now key × IsSome (shown self.now key None))) }
    {
        let mut keys = self.slots.keys_in(alloc, collection)?;
        keys.retain(|key| self.has_document(key));
        Ok(keys)
    }
}
