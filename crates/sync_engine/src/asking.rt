//! Which requests go out on the stream of listeners.

ghost use Rattle.std.specs.Prelude.{◌≡◌, ◌↔◌, ◌<ℤ◌, ◌∷◌, ℤ, IfOk, IsTrue, OnOk, [], true, false};
ghost use Rattle.std.specs.List.{AllPairs, Contains};
ghost use Rattle.listeners.specs.Table.{IsWanted};
ghost use Rattle.client_turns.specs.LimboListens.{is_running};
ghost use Rattle.sync_engine.specs.Requesting.{Adds, AddsListens, AllRun, AllWanted, AsksFor, AreDue, CallsAre, HaveTargetRows, IsDueIn, IsListenToAdd, IsSought, IsToAdd, IsToRemove, KeepsButCalls, KeepsDue, Picked, Removes, Requests};
ghost use Rattle.sync_engine.specs.Stream.{resets_of};
ghost use Rattle.client_turns.specs.Settling.{HasTargetRow};
ghost use Rattle.client_turns.specs.Watching.{held_keys, wanted_document};
ghost use Rattle.sync_engine.specs.declared.watch_stream.Due.TheVariants.{Nothing};

use crate::client::Client;
use crate::out::Out;
use crate::watch_stream::Due;
use document_keys::{DocumentKey, KeySet, NoMemory};
use queries::Target;
use std::alloc::Global;
use std::collections::BTreeSet;
use std::mem;
use target_cache::Held;

/// The targets that are reset.
fn resets_of(due: &Due) -> &[i32]
    ensures { result.now ≡ resets_of due.now }
{
    match due {
        Due::Resets(ids) => ids.as_slice(),
        _ => &[],
    }
}

/// The ids in their order, each once.
fn ascending(alloc: Global, ids: &[i32]) -> Result<Vec<i32>, NoMemory>
    ensures ascending { IfOk result (λ those. AllPairs ◌<ℤ◌ those.items) }
    ensures members { IfOk result (λ those. (t : ℤ) → Contains those.items t ↔ Contains ids.now t) }
{
    let set: BTreeSet<i32> = ids.iter().copied().collect(alloc)?;
    let those: Vec<i32> = set.iter().copied().collect(alloc)?;
    Ok(those)
}

/// The keys from which a target goes on, copied.
fn held_keys(alloc: Global, held: &Option<Held>) -> Result<KeySet, NoMemory>
    ensures { IfOk result (λ keys. keys ≡ held_keys held.now) }
{
    match held {
        Some(held) => held.keys.copy(alloc),
        None => Ok(KeySet::new(alloc)),
    }
}

/// The document that a target asks for, copied, if it asks for one.
fn wanted_document(alloc: Global, target: &Target) -> Result<Option<DocumentKey>, NoMemory>
    ensures { IfOk result (λ document. document ≡ wanted_document target.now) }
{
    match target {
        Target::Document(key) => {
            let key = key.copy(alloc)?;
            Ok(Some(key))
        }
        Target::Collection(_) => Ok(None),
    }
}

impl Client {
    /// Whether the target is wanted, or is the listen of a document in limbo.
    fn is_sought(&self, target: &i32) -> bool
        ensures { IsTrue result ↔ IsSought self.now target.now }
    {
        self.listeners.is_wanted(*target) || self.limbo.is_running(*target)
    }

    /// Whether the target is asked, and isn't sought any more or is reset.
    fn is_to_remove(&self, target: &i32, resets: &[i32]) -> bool
        ensures { CallsAre self.now (λ h. IsTrue result ↔ IsToRemove self.now resets.now h target.now) }
    {
        self.watch.aggregator.is_asked(*target)
            && (resets.contains(target) || !self.is_sought(target))
    }

    /// Whether the target is wanted, and isn't asked.
    fn is_to_add(&self, target: &i32) -> bool
        ensures wanted { IsTrue result → IsWanted self.now.listeners target.now }
        ensures calls { CallsAre self.now (λ h. IsTrue result ↔ IsToAdd self.now h target.now) }
    {
        self.listeners.is_wanted(*target) && !self.watch.aggregator.is_asked(*target)
    }

    /// Whether the listen of a document in limbo runs under this id, and isn't asked.
    fn is_listen_to_add(&self, target: &i32) -> bool
        ensures running { IsTrue result → is_running target.now self.now.limbo.limbo ≡ true }
        ensures calls { CallsAre self.now (λ h. IsTrue result ↔ IsListenToAdd self.now h target.now) }
    {
        self.limbo.is_running(*target) && !self.watch.aggregator.is_asked(*target)
    }

    /// Those of the targets that are to be removed.
    fn removed(&self, alloc: Global, targets: &[i32], resets: &[i32]) -> Result<Vec<i32>, NoMemory>
        requires ascending { AllPairs ◌<ℤ◌ targets.now }
        ensures { IfOk result (λ ids. CallsAre self.now (λ h.
            Picked (IsToRemove self.now resets.now h) targets.now ids.items)) }
    {
        let mut ids = Vec::new(alloc);
        for target in targets {
            if self.is_to_remove(target, resets) {
                ids.push(*target)?;
            }
        }
        Ok(ids)
    }

    /// Those of the targets that are to be added.
    fn added(&self, alloc: Global, targets: &[i32]) -> Result<Vec<i32>, NoMemory>
        requires ascending { AllPairs ◌<ℤ◌ targets.now }
        ensures wanted { IfOk result (λ ids. AllWanted self.now ids.items) }
        ensures calls { IfOk result (λ ids. CallsAre self.now (λ h.
            Picked (IsToAdd self.now h) targets.now ids.items)) }
    {
        let mut ids = Vec::new(alloc);
        for target in targets {
            if self.is_to_add(target) {
                ids.push(*target)?;
            }
        }
        Ok(ids)
    }

    /// Those of the ids under which the listen of a document in limbo is to be added.
    fn added_listens(&self, alloc: Global, targets: &[i32]) -> Result<Vec<i32>, NoMemory>
        requires ascending { AllPairs ◌<ℤ◌ targets.now }
        ensures running { IfOk result (λ ids. AllRun self.now ids.items) }
        ensures calls { IfOk result (λ ids. CallsAre self.now (λ h.
            Picked (IsListenToAdd self.now h) targets.now ids.items)) }
    {
        let mut ids = Vec::new(alloc);
        for target in targets {
            if self.is_listen_to_add(target) {
                ids.push(*target)?;
            }
        }
        Ok(ids)
    }

    /// Removes the targets.
    fn remove_targets(&mut self, targets: &[i32], outs: &mut Vec<Out>) -> Result<(), NoMemory>
        ensures rest { KeepsDue self.old self.new }
        ensures removes { OnOk result
            (Removes self.old self.new targets.now outs.old.items outs.new.items) }
    {
        for target in targets {
            self.watch.aggregator.request_remove(*target);
            outs.push(Out::RemoveTarget(*target))?;
        }
        Ok(())
    }

    /// Adds the target, if it has a row.
    fn add_target(
        &mut self,
        alloc: Global,
        target: &i32,
        outs: &mut Vec<Out>,
    ) -> Result<(), NoMemory>
        ensures rest { KeepsDue self.old self.new }
        ensures adds { OnOk result (HasTargetRow self.old.store.state.rows target.now
            → Adds self.old self.new (target.now ∷ []) outs.old.items outs.new.items) }
    {
        let Some(row) = self.store.targets().row(*target) else {
            return Ok(());
        };
        let keys = held_keys(alloc, &row.held)?;
        let document = wanted_document(alloc, &row.target)?;
        self.watch
            .aggregator
            .request_add(alloc, *target, keys, document)?;
        outs.push(Out::AddTarget(*target))?;
        Ok(())
    }

    /// Adds the targets.
    fn add_targets(
        &mut self,
        alloc: Global,
        targets: &[i32],
        outs: &mut Vec<Out>,
    ) -> Result<(), NoMemory>
        ensures rest { KeepsDue self.old self.new }
        ensures adds { OnOk result (HaveTargetRows self.old targets.now
            → Adds self.old self.new targets.now outs.old.items outs.new.items) }
    {
        for target in targets {
            self.add_target(alloc, target, outs)?;
        }
        Ok(())
    }

    /// Adds the listen of a document in limbo under this id, if one runs.
    fn add_limbo_target(
        &mut self,
        alloc: Global,
        target: &i32,
        outs: &mut Vec<Out>,
    ) -> Result<(), NoMemory>
        ensures rest { KeepsDue self.old self.new }
        ensures adds { OnOk result (is_running target.now self.old.limbo.limbo ≡ true
            → AddsListens self.old self.new (target.now ∷ []) outs.old.items outs.new.items) }
    {
        let Some(key) = self.limbo.key_of(*target) else {
            return Ok(());
        };
        let document = key.copy(alloc)?;
        self.watch
            .aggregator
            .request_add(alloc, *target, KeySet::new(alloc), Some(document))?;
        outs.push(Out::AddLimboTarget(*target))?;
        Ok(())
    }

    /// Adds the listens of documents in limbo.
    fn add_limbo_targets(
        &mut self,
        alloc: Global,
        targets: &[i32],
        outs: &mut Vec<Out>,
    ) -> Result<(), NoMemory>
        ensures rest { KeepsDue self.old self.new }
        ensures adds { OnOk result (AllRun self.old targets.now
            → AddsListens self.old self.new targets.now outs.old.items outs.new.items) }
    {
        for target in targets {
            self.add_limbo_target(alloc, target, outs)?;
        }
        Ok(())
    }

    /// Makes the requests that are due for these targets, which ascend; some of them may be reset.
    fn request(
        &mut self,
        alloc: Global,
        targets: &[i32],
        resets: &[i32],
        outs: &mut Vec<Out>,
    ) -> Result<(), NoMemory>
        requires ascending { AllPairs ◌<ℤ◌ targets.now }
        ensures rest { KeepsDue self.old self.new }
        ensures requests { OnOk result (
            ((t : ℤ) → IsWanted self.old.listeners t → HasTargetRow self.old.store.state.rows t)
            → Requests self.old self.new targets.now resets.now outs.old.items outs.new.items) }
    {
        let removed = self.removed(alloc, targets, resets)?;
        self.remove_targets(removed.as_slice(), outs)?;
        let added = self.added(alloc, targets)?;
        let listens = self.added_listens(alloc, targets)?;
        self.add_targets(alloc, added.as_slice(), outs)?;
        self.add_limbo_targets(alloc, listens.as_slice(), outs)?;
        Ok(())
    }

    /// The ids of the sought targets, in any order.
    fn sought_ids(&self, alloc: Global) -> Result<Vec<i32>, NoMemory>
        ensures { IfOk result (λ ids. (t : ℤ) → Contains ids.items t ↔ IsSought self.now t) }
    {
        let mut ids = self.listeners.wanted(alloc)?;
        let running = self.limbo.ids(alloc)?;
        ids.extend_from_slice(running.as_slice())?;
        Ok(ids)
    }

    /// The ids of the targets for which a request may be due, in any order.
    fn due_ids(&self, alloc: Global, due: &Due) -> Result<Vec<i32>, NoMemory>
        ensures { IfOk result (λ ids. (t : ℤ) → Contains ids.items t ↔ IsDueIn self.now due.now t) }
    {
        let mut ids = Vec::new(alloc);
        match due {
            Due::Nothing => {}
            Due::One(id) => ids.push(*id)?,
            Due::Resets(resets) => ids.extend_from_slice(resets.as_slice())?,
            Due::All => return self.sought_ids(alloc),
        }
        Ok(ids)
    }

    /// The ids of the targets for which a request may be due, and these, ascending.
    fn due_targets(&self, alloc: Global, due: &Due, changed: &[i32]) -> Result<Vec<i32>, NoMemory>
        ensures { IfOk result (λ ids. AreDue self.now due.now changed.now ids.items) }
    {
        let mut ids = self.due_ids(alloc, due)?;
        ids.extend_from_slice(changed)?;
        let those = ascending(alloc, ids.as_slice())?;
        Ok(those)
    }

    /// Makes the requests that are due on the stream of listeners, if it is open; for these listens of documents in limbo, too,
    /// which ended or started.
    pub(crate) fn ask(
        &mut self,
        alloc: Global,
        changed: &[i32],
        outs: &mut Vec<Out>,
    ) -> Result<(), NoMemory>
        ensures rest { KeepsButCalls self.old self.new }
        ensures idle { OnOk result (self.new.watch.due ≡ Nothing) }
        ensures closed { OnOk result (self.old.watch.is_open ≡ false
            → (self.new.watch.aggregator ≡ self.old.watch.aggregator) × (outs.new.items ≡ outs.old.items)) }
        ensures asks { OnOk result (self.old.watch.is_open ≡ true
            → ((t : ℤ) → IsWanted self.old.listeners t → HasTargetRow self.old.store.state.rows t)
            → AsksFor self.old self.new changed.now outs.old.items outs.new.items) }
    {
        let due = mem::replace(&mut self.watch.due, Due::Nothing);
        if !self.watch.is_open {
            return Ok(());
        }
        let targets = self.due_targets(alloc, &due, changed)?;
        self.request(alloc, targets.as_slice(), resets_of(&due), outs)?;
        Ok(())
    }
}
