ghost use Rattle.std.specs.Prelude.{◌≡◌, ◌↔◌, ℕ, List, [], Some, None, IsTrue, IsOk, OnOk, OnErr, IfOk, option_map};
ghost use Rattle.std.specs.List.{AllPairs, Contains};
ghost use Rattle.document_keys.specs.Order.{PathBefore};
ghost use Rattle.value_model.specs.Documents.{IsIn};
ghost use Rattle.key_table.specs.Table.{HasEachKeyOnce, Puts, SameValues, has_key, value_at};

use crate::lists::{gathered, listed, sorted};
use crate::order::{in_order, put, take};
use document_keys::{CollectionPath, DocumentKey, KeySet, NoMemory};
use std::alloc::Global;
use std::collections::{BTreeSet, HashMap};
use std::marker::Model;

/// A table by document key. Contracts see the list of its pairs, which no clause gives an order.
#[derive(Debug, Drop)]
pub struct KeyTable<V> {
    places: HashMap<DocumentKey, V>,
    // all keys, from `arrange` on
    order: Option<BTreeSet<DocumentKey>>,
}

impl<V> Model for KeyTable<V> {
    ghost use Rattle.std.specs.Coded.{coded×, coded_list, coded_ℕ};
    ghost use Rattle.key_table.specs.Table.{AreInOrder, Pairs};

    ghost Value = { Pairs V };

    ghost coded = { coded_list (coded× (coded_list (coded_list coded_ℕ)) V.code) };

    ghost view = { λ table. table.places.entries };

    ghost invariant = { λ table. AreInOrder table.places.entries table.order };
}

impl<V> KeyTable<V> {
    /// The empty table. It takes no memory yet.
    pub fn new(alloc: Global) -> KeyTable<V>
        ensures { result ≡ [] }
    {
        KeyTable {
            places: HashMap::new(alloc),
            order: None,
        }
    }

    /// Whether the table has the key.
    pub fn has(&self, key: &DocumentKey) -> bool
        ensures { result ≡ has_key self.now key.now }
    {
        self.places.contains_key(key)
    }

    /// The value at the key, lent; `None` exactly where the table hasn't the key.
    pub fn get(&self, key: &DocumentKey) -> Option<&V>
        ensures { option_map (λ value. value.now) result ≡ value_at self.now key.now }
    {
        self.places.get(key)
    }

    /// Takes the memory of a table of so many keys, where it has less. No value changes.
    ///
    /// # Errors
    /// `NoMemory`
    pub fn make_room(&mut self, keys: usize) -> Result<(), NoMemory>
        ensures { SameValues self.old self.new }
    {
        let more = keys.saturating_sub(self.places.len());
        self.places.reserve(more)?;
        Ok(())
    }

    /// Puts the value in place of the key's old one. It takes no memory.
    pub fn set(&mut self, key: &DocumentKey, value: V)
    where
        V: Drop,
        requires { IsTrue (has_key self.old key.now) }
        ensures { Puts key.now (Some value) self.old self.new }
    {
        let Some(place) = self.places.get_mut(key) else {
            return;
        };
        *place = value;
    }

    /// Puts a key that isn't there into the table, with its value.
    fn add(&mut self, alloc: Global, key: DocumentKey, value: V) -> Result<(), NoMemory>
    where
        V: Drop,
        requires { value_at self.old key ≡ None }
        ensures done { OnOk result (Puts key (Some value) self.old self.new) }
        ensures undone { OnErr result (SameValues self.old self.new) }
    {
        // what it says of the key is the invariant of the table
        let _count = key.len();
        self.places.reserve(1)?;
        put(&mut self.order, alloc, &key)?;
        let Ok(_) = self.places.insert(key, value) else {
            unreachable!();
        };
        Ok(())
    }

    /// Puts the value in place of the key's old one, or the key into the table with it.
    ///
    /// # Errors
    /// `NoMemory`, never where the table has the key: no value has changed then.
    pub fn insert(&mut self, alloc: Global, key: DocumentKey, value: V) -> Result<(), NoMemory>
    where
        V: Drop,
        ensures done { OnOk result (Puts key (Some value) self.old self.new) }
        ensures undone { OnErr result (SameValues self.old self.new) }
        ensures kept { IsTrue (has_key self.old key) → IsOk result }
    {
        if let Some(place) = self.places.get_mut(&key) {
            *place = value;
            return Ok(());
        }
        self.add(alloc, key, value)
    }

    /// Takes the key out of the table, and gives its value; `None` exactly where the table hasn't the key.
    pub fn remove(&mut self, key: &DocumentKey) -> Option<V>
        ensures value { result ≡ value_at self.old key.now }
        ensures done { Puts key.now None self.old self.new }
    {
        let value = self.places.remove(key)?;
        take(&mut self.order, key);
        Some(value)
    }

    /// No key stands twice. It does nothing.
    pub fn has_each_key_once(&self)
        ensures { HasEachKeyOnce self.now }
    {
        let _places = self.places.iter();
    }

    /// Keeps the keys in order from now on, so that listings are fast; no answer shows it. It costs nothing where they are kept
    /// so already.
    ///
    /// # Errors
    /// `NoMemory`
    pub fn arrange(&mut self, alloc: Global) -> Result<(), NoMemory>
        ensures { self.new ≡ self.old }
    {
        if self.order.is_none() {
            self.order = Some(in_order(alloc, &self.places)?);
        }
        Ok(())
    }

    /// The keys of the collection's documents, ascending. Where the keys are kept in order, it looks at those below the
    /// collection's path alone, and else at all of them.
    ///
    /// # Errors
    /// `NoMemory`
    pub fn keys_in(
        &self,
        alloc: Global,
        collection: &CollectionPath,
    ) -> Result<Vec<DocumentKey>, NoMemory>
        ensures ascending { IfOk result (λ keys. AllPairs PathBefore keys.items) }
        ensures members { IfOk result (λ keys. (key : List (List ℕ)) →
            Contains keys.items key ↔ (IsIn collection.now key × IsTrue (has_key self.now key))) }
    {
        match &self.order {
            Some(order) => listed(alloc, order, collection),
            None => sorted(alloc, &self.places, collection),
        }
    }

    /// All keys.
    ///
    /// # Errors
    /// `NoMemory`
    pub fn keys(&self, alloc: Global) -> Result<KeySet, NoMemory>
        ensures { IfOk result (λ keys. (key : List (List ℕ)) →
            Contains keys key ↔ IsTrue (has_key self.now key)) }
    {
        match &self.order {
            Some(order) => gathered(alloc, order),
            None => gathered(alloc, &in_order(alloc, &self.places)?),
        }
    }
}
