ghost use Rattle.std.specs.Prelude.{◌≡◌, ◌<◌, ◌++◌, ℕ, List, [], ◌∷◌, drop, false, IsTrue, IsOk, OnOk, option_map, None, if◌then◌else◌};
ghost use Rattle.std.specs.List.{All};
ghost use Rattle.document_keys.specs.KeySet.{is_key};
ghost use Rattle.mutation_queue.specs.Places.{FreesKeys, KeepsOtherRoom, SameListed, ends_in, has_key, has_room, is_among, last_of};
ghost use Rattle.mutation_queue.specs.Places.{listed, value_at, with_place, without_place};
ghost use Rattle.mutation_queue.specs.Queue.{HaveRoom, keys_of};

use crate::place_list::PlaceList;
use document_keys::{DocumentKey, NoMemory};
use mutations::Write;
use std::alloc::Global;
use std::collections::HashMap;
use std::marker::Model;

/// For each key the places of the batches that name it. Contracts see the table as such.
#[derive(Debug, Drop)]
pub(crate) struct KeyPlaces {
    lists: HashMap<DocumentKey, PlaceList>,
}

impl Model for KeyPlaces {
    ghost use Rattle.mutation_queue.specs.Places.{Table};

    ghost Value = { Table };

    ghost view = { λ table. table.lists.entries };
}

impl KeyPlaces {
    /// The table that has no key. It takes no memory yet.
    pub(crate) fn new(alloc: Global) -> KeyPlaces
        ensures { result ≡ [] }
    {
        KeyPlaces {
            lists: HashMap::new(alloc),
        }
    }

    /// The places of the key, lent, if the table has the key.
    pub(crate) fn of(&self, key: &DocumentKey) -> Option<&PlaceList>
        ensures { option_map (λ places. places.now) result ≡ value_at self.now key.now }
    {
        self.lists.get(key)
    }

    /// The last place of the key.
    pub(crate) fn last(&self, key: &DocumentKey) -> Option<u64>
        ensures { result ≡ last_of (listed self.now key.now) }
    {
        match self.of(key) {
            Some(places) => places.last(),
            None => None,
        }
    }

    /// Makes room for one more place of the key. No key's places change.
    ///
    /// # Errors
    /// `NoMemory`, never where there is room.
    pub(crate) fn reserve(&mut self, alloc: Global, key: &DocumentKey) -> Result<(), NoMemory>
        ensures same { SameListed self.old self.new }
        ensures held { KeepsOtherRoom [] self.old self.new }
        ensures room { OnOk result (IsTrue (has_room self.new key.now)) }
        ensures kept { IsTrue (has_room self.old key.now) → IsOk result }
    {
        if let Some(places) = self.lists.get_mut(key) {
            return places.reserve(alloc);
        }
        self.lists.insert(key.copy(alloc)?, PlaceList::new())?;
        Ok(())
    }

    /// Puts the place behind those of the key, where there is room, unless it is the last one already.
    pub(crate) fn push(&mut self, key: &DocumentKey, place: u64)
        requires { ends_in place (listed self.old key.now) ≡ false
            → IsTrue (has_room self.old key.now) }
        ensures places { (q : List (List ℕ)) → listed self.new q ≡
            (if is_key key.now q then with_place place (listed self.old q)
            else listed self.old q) }
        ensures others { (q : List (List ℕ)) → is_key key.now q ≡ false
            → value_at self.new q ≡ value_at self.old q }
    {
        let Some(places) = self.lists.get_mut(key) else {
            return;
        };
        places.push(place);
    }

    /// Takes the place out of those of the key, if it is the first. A key that has no place left goes.
    pub(crate) fn remove(&mut self, key: &DocumentKey, place: u64)
        ensures places { (q : List (List ℕ)) → listed self.new q ≡
            (if is_key key.now q then without_place place (listed self.old q)
            else listed self.old q) }
        ensures others { (q : List (List ℕ)) → is_key key.now q ≡ false
            → value_at self.new q ≡ value_at self.old q }
        ensures gone { listed self.new key.now ≡ [] → has_key self.new key.now ≡ false }
    {
        let Some(places) = self.lists.get_mut(key) else {
            return;
        };
        places.remove(place);
        if places.len() == 0 {
            self.forget(key);
        }
    }

    /// Takes the key out of the table.
    fn forget(&mut self, key: &DocumentKey)
        ensures { (q : List (List ℕ)) → value_at self.new q ≡
            (if is_key key.now q then None else value_at self.old q) }
    {
        let _places = self.lists.remove(key);
    }

    /// Makes room for one more place of the key of each write.
    ///
    /// # Errors
    /// `NoMemory`, never where there is room.
    pub(crate) fn reserve_all(&mut self, alloc: Global, writes: &[Write]) -> Result<(), NoMemory>
        ensures same { SameListed self.old self.new }
        ensures held { KeepsOtherRoom [] self.old self.new }
        ensures room { OnOk result (HaveRoom self.new writes.now) }
        ensures kept { HaveRoom self.old writes.now → IsOk result }
    {
        for write in writes {
            self.reserve(alloc, write.key())?;
        }
        Ok(())
    }

    /// Puts the place behind those of each key that the writes have, once however many of them have it.
    pub(crate) fn push_all(&mut self, writes: &[Write], place: u64)
        requires room { HaveRoom self.old writes.now }
        requires before { (q : List (List ℕ)) → All (λ p. p < place) (listed self.old q) }
        ensures places { (q : List (List ℕ)) → listed self.new q ≡
            listed self.old q ++ (if is_among (keys_of writes.now) q then place ∷ [] else []) }
        ensures held { KeepsOtherRoom (keys_of writes.now) self.old self.new }
    {
        for write in writes {
            self.push(write.key(), place);
        }
    }

    /// Takes the place, which no other is before, out of those of each key that the writes have. A key that has no place
    /// left goes.
    pub(crate) fn remove_all(&mut self, writes: &[Write], place: u64)
        requires { (q : List (List ℕ)) → All (λ p. place < p) (drop 1 (listed self.old q)) }
        ensures places { (q : List (List ℕ)) → listed self.new q ≡
            (if is_among (keys_of writes.now) q then without_place place (listed self.old q)
            else listed self.old q) }
        ensures held { KeepsOtherRoom (keys_of writes.now) self.old self.new }
        ensures gone { FreesKeys (keys_of writes.now) self.new }
    {
        for write in writes {
            self.remove(write.key(), place);
        }
    }
}
