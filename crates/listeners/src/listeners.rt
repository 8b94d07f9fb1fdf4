ghost use Rattle.std.specs.Prelude.{◌≡◌, ◌↔◌, ◌<◌, ◌<ℤ◌, ℕ, ℤ, None, Some, IfErr, IfOk, IsSome, IsTrue, OnErr, OnOk, option_map};
ghost use Rattle.std.specs.BTreeMap.{IsOrdered, keys};
ghost use Rattle.std.specs.List.{AllPairs, Contains};
ghost use Rattle.std.specs.Ordering.{nat_cmp};
ghost use Rattle.listeners.specs.Concerns.{AddsConcernedOnly, HasAllConcerned, IsConcerned};
ghost use Rattle.listeners.specs.Ids.{KeepsMembers, has_id};
ghost use Rattle.listeners.specs.Places.{is_among};
ghost use Rattle.listeners.specs.Refreshing.{IsOverAt, RefreshesAt};
ghost use Rattle.listeners.specs.Table.{Changes, ChangesTarget, IsWanted, KeepsTargets, Puts, SameViews, fresh, target_of, viewed};

use crate::id_set;
use crate::indexes::Indexes;
use crate::listener::Listener;
use document_keys::{Database, DocumentKey, NoMemory};
use queries::Query;
use std::alloc::Global;
use std::collections::{BTreeMap, BTreeSet};
use std::marker::Model;
use value_model::Documents;
use views::{Refresh, Standing, View};

/// The listeners of a client, each under an id of its own. Contracts see the view of each id, by
/// `viewed`, and the id of its target, by `target_of`.
#[derive(Debug, Drop)]
pub struct Listeners {
    listeners: BTreeMap<u32, Listener>,
    indexes: Indexes,
}

impl Model for Listeners {
    ghost use Rattle.listeners.specs.Table.{Table, table_code};

    ghost Value = { Table };

    ghost coded = { table_code };

    ghost use Rattle.listeners.specs.Targets.{AreFound};

    ghost view = { λ l. l.listeners.entries };

    ghost invariant = { λ l. AreFound l.listeners.entries
        l.indexes.places.ids.entries l.indexes.targets.ids.entries };
}

/// Whether the id is that of a listener whom a change of the key's document concerns.
fn is_concerned(listeners: &BTreeMap<u32, Listener>, key: &DocumentKey, id: u32) -> bool
    ensures { IsTrue result ↔ IsConcerned listeners.now.entries key.now id }
{
    match listeners.get(&id) {
        Some(listener) => listener.is_concerned(key),
        None => false,
    }
}

/// Adds to the ids those at a place that a change of the key's document concerns.
fn add_concerned(
    listeners: &BTreeMap<u32, Listener>,
    place: Option<&BTreeSet<u32>>,
    key: &DocumentKey,
    ids: &mut BTreeSet<u32>,
) -> Result<(), NoMemory>
    ensures kept { KeepsMembers ids.old ids.new }
    ensures only { AddsConcernedOnly listeners.now.entries key.now ids.old ids.new }
    ensures each { OnOk result ((q : ℕ) → IsTrue (is_among (option_map (λ i. i.now) place.entry) q)
        → IsConcerned listeners.now.entries key.now q → IsTrue (has_id ids.new q)) }
{
    let Some(others) = place else {
        return Ok(());
    };
    for id in others {
        if is_concerned(listeners, key, *id) {
            ids.insert(*id)?;
        }
    }
    Ok(())
}

/// The ids under which listeners are kept, ascending.
fn keys_of(alloc: Global, listeners: &BTreeMap<u32, Listener>) -> Result<Vec<u32>, NoMemory>
    ensures items { IfOk result (λ ids. ids.items ≡ keys listeners.now) }
    ensures ordered { OnOk result (IsOrdered nat_cmp listeners.now) }
{
    let ids: Vec<u32> = listeners.keys().copied().collect(alloc)?;
    Ok(ids)
}

/// Puts the listener into the table; where memory is missing, nothing changes and it is handed back.
fn put_listener(
    listeners: &mut BTreeMap<u32, Listener>,
    id: u32,
    listener: Listener,
) -> Result<(), Listener>
    ensures put { OnOk result (Puts id listener listeners.old.entries listeners.new.entries) }
    ensures kept { IfErr result (λ back. (back ≡ listener)
        × (listeners.new.entries ≡ listeners.old.entries)) }
{
    match listeners.insert(id, listener) {
        Ok(_) => Ok(()),
        Err(refused) => {
            let (_, listener) = refused.value;
            Err(listener)
        }
    }
}

impl Listeners {
    /// No listeners. It takes no memory yet.
    pub fn new(alloc: Global) -> Listeners
        ensures views { (id : ℕ) → viewed result id ≡ None }
        ensures targets { (id : ℕ) → target_of result id ≡ None }
    {
        Listeners {
            listeners: BTreeMap::new(alloc),
            indexes: Indexes::new(alloc),
        }
    }

    /// What the listener of the id shows, lent; `None` exactly where there is no such listener.
    pub fn view(&self, id: u32) -> Option<&View>
        ensures { option_map (λ view. view.now) result ≡ viewed self.now id }
    {
        match self.listeners.get(&id) {
            Some(listener) => Some(listener.view()),
            None => None,
        }
    }

    /// Whether there is no listener.
    pub fn is_empty(&self) -> bool
        ensures { IsTrue result ↔ ((id : ℕ) → viewed self.now id ≡ None) }
    {
        self.listeners.is_empty()
    }

    /// The ids of the listeners, ascending.
    ///
    /// # Errors
    /// `NoMemory`
    pub fn ids(&self, alloc: Global) -> Result<Vec<u32>, NoMemory>
        ensures ascending { IfOk result (λ ids. AllPairs (λ a b. a < b) ids.items) }
        ensures members { IfOk result (λ ids. (id : ℕ) → Contains ids.items id
            ↔ IsSome (viewed self.now id)) }
    {
        keys_of(alloc, &self.listeners)
    }

    /// The id of the target of the listener of the id; `None` exactly where there is none.
    pub fn target_of(&self, id: u32) -> Option<i32>
        ensures { result ≡ target_of self.now id }
    {
        match self.listeners.get(&id) {
            Some(listener) => Some(*listener.target_id()),
            None => None,
        }
    }

    /// Adds a listener of the query under the id, which no other has, with the id of its target. It
    /// has raised no snapshot.
    ///
    /// # Errors
    /// `NoMemory`: no listener was added then.
    pub fn add(&mut self, alloc: Global, id: u32, query: Query, target: i32) -> Result<(), NoMemory>
        requires { viewed self.old id ≡ None }
        ensures done { OnOk result (Changes id (Some (fresh query)) self.old self.new) }
        ensures target { OnOk result (ChangesTarget id (Some target) self.old self.new) }
        ensures undone { OnErr result (SameViews self.old self.new) }
        ensures untaken { OnErr result (KeepsTargets self.old self.new) }
    {
        let listener = Listener::new(alloc, query, target)?;
        self.indexes.put(alloc, &listener, id)?;
        match put_listener(&mut self.listeners, id, listener) {
            Ok(()) => Ok(()),
            Err(listener) => {
                self.indexes.take(&listener, id);
                Err(NoMemory)
            }
        }
    }

    /// Takes the listener of the id away, if there is one.
    pub fn remove(&mut self, id: u32)
        ensures done { Changes id None self.old self.new }
        ensures target { ChangesTarget id None self.old self.new }
    {
        if let Some(listener) = self.listeners.remove(&id) {
            self.indexes.take(&listener, id);
        }
    }

    /// Refreshes the view of the listener of the id, which is there: `View::refresh` says how.
    ///
    /// # Errors
    /// `NoMemory`: no view has changed then.
    pub fn refresh<D: Documents>(
        &mut self,
        alloc: Global,
        root: &Database,
        docs: &D,
        id: u32,
        standing: &Standing,
        may_start: bool,
    ) -> Result<Refresh, NoMemory>
        requires { IsSome (viewed self.old id) }
        ensures done { IfOk result (λ refresh. RefreshesAt id root.now (D.documents docs.now)
            (D.touched_keys docs.now) standing.now may_start self.old self.new refresh) }
        ensures over { OnOk result (IsOverAt id self.new (D.documents docs.now)) }
        ensures undone { OnErr result (SameViews self.old self.new) }
        ensures targets { KeepsTargets self.old self.new }
    {
        let Some(listener) = self.listeners.get_mut(&id) else {
            unreachable!();
        };
        listener.refresh(alloc, root, docs, standing, may_start)
    }

    /// Adds to the ids those of the listeners that a change of the key's document concerns, and no
    /// other.
    ///
    /// # Errors
    /// `NoMemory`: some of them may be missing then.
    pub fn concerned(
        &self,
        alloc: Global,
        key: &DocumentKey,
        ids: &mut BTreeSet<u32>,
    ) -> Result<(), NoMemory>
        ensures kept { KeepsMembers ids.old ids.new }
        ensures only { AddsConcernedOnly self.now key.now ids.old ids.new }
        ensures each { OnOk result (HasAllConcerned self.now key.now ids.new) }
    {
        if self.listeners.is_empty() {
            return Ok(());
        }
        let least = DocumentKey::least_in(alloc, &key.parent(alloc)?)?;
        add_concerned(&self.listeners, self.indexes.places.at(key), key, ids)?;
        add_concerned(&self.listeners, self.indexes.places.at(&least), key, ids)
    }

    /// Whether the target is that of a listener.
    pub fn is_wanted(&self, target: i32) -> bool
        ensures { IsTrue result ↔ IsWanted self.now target }
    {
        self.indexes.targets.at(&target).is_some()
    }

    /// The ids of the listeners of the target, ascending.
    ///
    /// # Errors
    /// `NoMemory`
    pub fn of_target(&self, alloc: Global, target: i32) -> Result<Vec<u32>, NoMemory>
        ensures ascending { IfOk result (λ ids. AllPairs (λ a b. a < b) ids.items) }
        ensures members { IfOk result (λ ids. (id : ℕ) → Contains ids.items id
            ↔ (target_of self.now id ≡ Some target)) }
    {
        match self.indexes.targets.at(&target) {
            Some(ids) => id_set::to_vec(alloc, ids),
            None => Ok(Vec::new(alloc)),
        }
    }

    /// The targets of the listeners, ascending.
    ///
    /// # Errors
    /// `NoMemory`
    pub fn wanted(&self, alloc: Global) -> Result<Vec<i32>, NoMemory>
        ensures ascending { IfOk result (λ targets. AllPairs ◌<ℤ◌ targets.items) }
        ensures members { IfOk result (λ targets. (target : ℤ) → Contains targets.items target
            ↔ IsWanted self.now target) }
    {
        self.indexes.targets.to_vec(alloc)
    }
}
