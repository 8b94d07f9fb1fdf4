ghost use Rattle.std.specs.Prelude.{◌≡◌, ◌↔◌, ℕ, List, Some, None, false, IsTrue, IsOk, OnOk, OnErr, IfOk, is_some, option_map};
ghost use Rattle.std.specs.List.{AllPairs, Contains};
ghost use Rattle.std.specs.Option.{IsSome};
ghost use Rattle.document_keys.specs.Order.{PathBefore};
ghost use Rattle.value_model.specs.Documents.{IsIn};
ghost use Rattle.key_table.specs.Table.{KeepsKeys, KeepsOtherKeys, SameOtherKeys, SameValues, has_key};
ghost use Rattle.remote_documents.specs.Table.{Changes, IsMapOf, SameEntries, entry_of};

use crate::slot::Slot;
use document_keys::{CollectionPath, DocumentKey, KeySet, NoMemory};
use key_table::KeyTable;
use std::alloc::Global;
use std::marker::Model;
use value_model::{Entry, Seal};

/// What is known of documents, by key. Contracts see a finite map from keys to entries with their seals, by `entry_of`, and
/// beside it the room for more, by `has_key`.
#[derive(Debug, Drop)]
pub struct RemoteDocuments {
    slots: KeyTable<Slot>,
    alloc: Global,
}

impl Model for RemoteDocuments {
    ghost use Rattle.remote_documents.specs.Table.{Table, table_code};

    ghost Value = { Table };

    ghost coded = { table_code };

    ghost view = { λ documents. documents.slots };
}

impl RemoteDocuments {
    /// No entries. It takes no memory yet.
    pub fn new(alloc: Global) -> RemoteDocuments
        ensures { (key : List (List ℕ)) → entry_of result key ≡ None }
    {
        RemoteDocuments {
            slots: KeyTable::new(alloc),
            alloc,
        }
    }

    /// The entries are a finite map: no key stands twice. It does nothing.
    pub fn is_map(&self)
        ensures { IsMapOf self.now }
    {
        self.slots.has_each_key_once();
    }

    /// The entry of the key and its seal, lent; `None` exactly where there is no entry.
    pub fn entry(&self, key: &DocumentKey) -> Option<(&Entry, &Seal)>
        ensures { option_map (λ pair. (pair.0.now, pair.1.now)) result ≡ entry_of self.now key.now }
    {
        match self.slots.get(key) {
            Some(Slot::Held(entry, seal)) => Some((entry, seal)),
            _ => None,
        }
    }

    /// Makes a place for the key's entry. Nothing else changes.
    ///
    /// # Errors
    /// `NoMemory`, never where there is a place.
    pub fn reserve(&mut self, key: &DocumentKey) -> Result<(), NoMemory>
        ensures same { SameEntries self.old self.new }
        ensures room { OnOk result (IsTrue (has_key self.new key.now)) }
        ensures kept { IsTrue (has_key self.old key.now) → IsOk result }
        ensures places { KeepsKeys self.old self.new }
        ensures others { SameOtherKeys key.now self.old self.new }
    {
        if !self.slots.has(key) {
            let key = key.copy(self.alloc)?;
            self.slots.insert(self.alloc, key, Slot::Reserved)?;
        }
        Ok(())
    }

    /// Takes the memory of so many places, where there is less. No place comes, and no entry changes.
    ///
    /// # Errors
    /// `NoMemory`
    pub fn make_room(&mut self, places: usize) -> Result<(), NoMemory>
        ensures { SameValues self.old self.new }
    {
        self.slots.make_room(places)
    }

    /// Keeps the places in order from now on, for listings. It costs nothing where they are kept so already.
    ///
    /// # Errors
    /// `NoMemory`
    pub fn arrange(&mut self) -> Result<(), NoMemory>
        ensures { self.new ≡ self.old }
    {
        self.slots.arrange(self.alloc)
    }

    /// Puts the entry with its seal in place of the key's old one, where there is a place. It takes no memory.
    pub fn set(&mut self, key: &DocumentKey, entry: Entry, seal: Seal)
        requires { IsTrue (has_key self.old key.now) }
        ensures done { Changes key.now (Some (entry, seal)) self.old self.new }
        ensures places { KeepsKeys self.old self.new }
    {
        self.slots.set(key, Slot::Held(entry, seal));
    }

    /// Puts the entry with its seal in place of the key's old one.
    ///
    /// # Errors
    /// `NoMemory`, never where there is a place for the key: no entry has changed then.
    pub fn put(
        &mut self,
        alloc: Global,
        key: DocumentKey,
        entry: Entry,
        seal: Seal,
    ) -> Result<(), NoMemory>
        ensures done { OnOk result (Changes key (Some (entry, seal)) self.old self.new) }
        ensures undone { OnErr result (SameEntries self.old self.new) }
        ensures kept { IsTrue (has_key self.old key) → IsOk result }
        ensures places { KeepsKeys self.old self.new }
    {
        self.slots.insert(alloc, key, Slot::Held(entry, seal))?;
        Ok(())
    }

    /// Takes the key's entry away, if there is one, and its place.
    pub fn remove(&mut self, key: &DocumentKey)
        ensures done { Changes key.now None self.old self.new }
        ensures gone { has_key self.new key.now ≡ false }
        ensures places { KeepsOtherKeys key.now self.old self.new }
    {
        self.slots.remove(key);
    }

    /// Whether the key has an entry.
    fn has_entry(&self, key: &DocumentKey) -> bool
        ensures { result ≡ is_some (entry_of self.now key.now) }
    {
        matches!(self.slots.get(key), Some(Slot::Held(_, _)))
    }

    /// The keys of the collection's documents among those that have an entry, ascending. Where the places are kept in
    /// order, it looks at those below the collection's path alone.
    ///
    /// # Errors
    /// `NoMemory`
    pub fn keys_in(
        &self,
        alloc: Global,
        collection: &CollectionPath,
    ) -> Result<Vec<DocumentKey>, NoMemory>
        ensures ascending { IfOk result (λ keys. AllPairs PathBefore keys.items) }
        ensures members { IfOk result (λ keys. (key : List (List ℕ)) →
            Contains keys.items key ↔ (IsIn collection.now key × IsSome (entry_of self.now key))) }
    {
        let mut keys = self.slots.keys_in(alloc, collection)?;
        keys.retain(|key| self.has_entry(key));
        Ok(keys)
    }

    /// The keys of all entries.
    ///
    /// # Errors
    /// `NoMemory`
    pub fn keys(&self, alloc: Global) -> Result<KeySet, NoMemory>
        ensures { IfOk result (λ keys. (key : List (List ℕ)) → Contains keys key
            ↔ IsSome (entry_of self.now key)) }
    {
        let places = self.slots.keys(alloc)?;
        let mut keys = KeySet::new(alloc);
        for key in places.as_slice() {
            if self.has_entry(key) {
                keys.insert(alloc, key.copy(alloc)?)?;
            }
        }
        Ok(keys)
    }
}
