ghost use Rattle.std.specs.Prelude.{◌≡◌, ◌<ℤ◌, ℕ, [], IfOk, IsTrue, OnErr, OnOk, if◌then◌else◌, is_some, option_map, unwrap_or};
ghost use Rattle.std.specs.List.{AllPairs};
ghost use Rattle.std.specs.Map.{lookup};
ghost use Rattle.limbo_resolver.specs.Limbo.{ids_of, key_in, without};
ghost use Rattle.limbo_listens.specs.Listens.{Settles, first_limbo, is_id, limbo_at};

use crate::ids::{push_ended, push_started};
use crate::union::union;
use document_keys::{DocumentKey, NoMemory, Sequence};
use limbo_resolver::LimboResolver;
use std::alloc::Global;
use std::collections::BTreeMap;
use std::marker::Model;

/// The id of the first listen.
const FIRST_ID: i32 = 1;

/// How many listens may end and start in one settling: at most 100 run at a time.
const CHANGE_LIMIT: usize = 200;

/// Which of the documents that each listener shows are in limbo, and the listens of their own that
/// these documents have. Contracts see both, the first by the listener's id (`limbo_at`).
#[derive(Drop)]
pub struct LimboListens {
    /// Only of listeners that have a key in limbo, so that settling costs what is in limbo.
    shown: BTreeMap<u32, Sequence<DocumentKey>>,
    resolver: LimboResolver,
    /// Whether the keys or the listens changed since the last settling.
    changed: bool,
}

impl Model for LimboListens {
    ghost use Rattle.limbo_listens.specs.Kept.{IsKept};
    ghost use Rattle.limbo_listens.specs.Listens.{Listens, listens_code};

    ghost Value = { Listens };

    ghost coded = { listens_code };

    ghost view = { λ l. record { shown = l.shown.entries; limbo = l.resolver } };

    ghost invariant = { λ l. IsKept (record { shown = l.shown.entries; limbo = l.resolver })
        l.changed };
}

/// Whether these are the keys of the listener of the id.
fn is_shown(shown: &BTreeMap<u32, Sequence<DocumentKey>>, id: u32, keys: &[DocumentKey]) -> bool
    ensures { IsTrue result → unwrap_or (lookup (is_id id) shown.now.entries) [] ≡ keys.now }
{
    match shown.get(&id) {
        Some(others) => others.as_slice() == keys,
        None => keys.is_empty(),
    }
}

impl LimboListens {
    /// No listener has a key in limbo, and no listen runs. It takes no memory yet.
    pub fn new(alloc: Global) -> LimboListens
        ensures none { (id : ℕ) → limbo_at result id ≡ [] }
        ensures limbo { result.limbo ≡ first_limbo }
    {
        LimboListens {
            shown: BTreeMap::new(alloc),
            resolver: LimboResolver::new(alloc, FIRST_ID),
            changed: false,
        }
    }

    /// Just these keys of the listener of the id are in limbo now. Where they were already, nothing
    /// changes.
    ///
    /// # Errors
    /// `NoMemory`: nothing has changed.
    pub fn put(&mut self, _alloc: Global, id: u32, keys: Vec<DocumentKey>) -> Result<(), NoMemory>
        ensures done { OnOk result ((q : ℕ) → limbo_at self.new q
            ≡ (if is_id id q then keys.items else limbo_at self.old q)) }
        ensures limbo { self.new.limbo ≡ self.old.limbo }
        ensures undone { OnErr result (self.new ≡ self.old) }
    {
        if is_shown(&self.shown, id, keys.as_slice()) {
            return Ok(());
        }
        if keys.is_empty() {
            self.remove(id);
            return Ok(());
        }
        self.shown.insert(id, Sequence::from_vec(keys))?;
        self.changed = true;
        Ok(())
    }

    /// The listener of the id has no key in limbo any more.
    pub fn remove(&mut self, id: u32)
        ensures removed { (q : ℕ) → limbo_at self.new q
            ≡ (if is_id id q then [] else limbo_at self.old q) }
        ensures limbo { self.new.limbo ≡ self.old.limbo }
    {
        if self.shown.remove(&id).is_some() {
            self.changed = true;
        }
    }

    /// Just the keys in limbo have or await a listen now. Answers the ids of the listens that ended and
    /// of those that started, ascending. Where nothing has changed since the last call, it looks at
    /// nothing.
    ///
    /// # Errors
    /// `NoMemory`: nothing has changed.
    pub fn settle(&mut self, alloc: Global) -> Result<Vec<i32>, NoMemory>
        ensures done { IfOk result (λ changed. Settles self.old self.new changed.items) }
        ensures ascending { IfOk result (λ changed. AllPairs ◌<ℤ◌ changed.items) }
        ensures undone { OnErr result (self.new ≡ self.old) }
    {
        if !self.changed {
            return Ok(Vec::new(alloc));
        }
        let wanted = union(alloc, &self.shown)?;
        let mut ids = Vec::with_capacity(alloc, CHANGE_LIMIT)?;
        let change = self.resolver.update(alloc, &wanted)?;
        self.changed = false;
        push_ended(&mut ids, change.ended.as_slice());
        push_started(&mut ids, change.started.as_slice());
        Ok(ids)
    }

    /// The listen of the id was refused, and runs no longer: its key. `None` exactly where the id isn't
    /// running.
    pub fn refused(&mut self, id: i32) -> Option<DocumentKey>
        ensures key { result ≡ key_in self.old.limbo.running id }
        ensures rest { self.new.limbo
            ≡ record self.old.limbo { running = without self.old.limbo.running id } }
        ensures same { (q : ℕ) → limbo_at self.new q ≡ limbo_at self.old q }
    {
        self.changed = true;
        self.resolver.refused(id)
    }

    /// The key of a running id, lent; `None` exactly where the id isn't running.
    pub fn key_of(&self, id: i32) -> Option<&DocumentKey>
        ensures { option_map (λ key. key.now) result ≡ key_in self.now.limbo.running id }
    {
        self.resolver.key_of(id)
    }

    /// Whether a listen of the id runs.
    pub fn is_running(&self, id: i32) -> bool
        ensures { result ≡ is_some (key_in self.now.limbo.running id) }
    {
        self.resolver.key_of(id).is_some()
    }

    /// The ids of the running listens, ascending.
    ///
    /// # Errors
    /// `NoMemory`
    pub fn ids(&self, alloc: Global) -> Result<Vec<i32>, NoMemory>
        ensures ids { IfOk result (λ ids. ids.items ≡ ids_of self.now.limbo.running) }
        ensures ascending { IfOk result (λ ids. AllPairs ◌<ℤ◌ ids.items) }
    {
        self.resolver.ids(alloc)
    }
}
