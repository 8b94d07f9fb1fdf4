//! The turn of a point.

ghost use Rattle.std.specs.Prelude.{◌≡◌, ◌↔◌, ◌<ℤ◌, ℕ, ℤ, Some, IsSome, IsTrue, true, IfOk, OnOk, IsErrOf};
ghost use Rattle.std.specs.List.{AllPairs, Contains};
ghost use Rattle.listen_protocol.specs.Calls.{Calls};
ghost use Rattle.listeners.specs.Concerns.{HasAllConcerned};
ghost use Rattle.listeners.specs.Ids.{KeepsMembers, has_id};
ghost use Rattle.listeners.specs.Table.{IsWanted, target_of};
ghost use Rattle.outcome_codec.specs.declared.parts.KeyedEntry.{KeyedEntry};
ghost use Rattle.watch_aggregator.specs.Standing.{StandsFor as AggregatorStandsFor};
ghost use Rattle.watch_aggregator.specs.declared.point.WatchTarget.{WatchTarget};
ghost use Rattle.watch_points.specs.SpelledCalls.{AreSpelledCalls};
ghost use Rattle.host_api.specs.Counts.{RisesAt};
ghost use Rattle.host_api.specs.Host.{KeepsOut};
ghost use Rattle.client_events.specs.Spelled.{IsSpelledMessage};
ghost use Rattle.client_events.specs.declared.event.Event.TheVariants as event;
ghost use Rattle.local_store.specs.State.{State};
ghost use Rattle.local_store.specs.Store.{IsSpent as IsStoreSpent, IsStored};
ghost use Rattle.watch_aggregator.specs.Effects.{Gives};
ghost use Rattle.watch_aggregator.specs.declared.effect.Effect.TheVariants as effect;
ghost use Rattle.durable_state.specs.State.{IsNotBelow};
ghost use Rattle.sync_engine.specs.Moving.{AreCurrentOf, AreMoved};
ghost use Rattle.client_turns.specs.Past.{Past};
ghost use Rattle.sync_engine.specs.Requesting.{CallsAre};
ghost use Rattle.client_turns.specs.Settling.{current_with};
ghost use Rattle.sync_engine.specs.Standing.{StandsFor, standing_in};
ghost use Rattle.sync_engine.specs.Telling.{HandsSettled, MakesOne, MovesBy};
ghost use Rattle.sync_engine.specs.declared.watch_stream.Due.TheVariants.{Nothing};

use crate::client::Client;
use crate::current::{CurrentTarget, CurrentTargets};
use crate::fault::ClientFault;
use crate::out::Outcome;
use crate::settling::in_order;
use client_turns::Refusal;
use document_keys::{NoMemory, Sequence};
use host_api::Host;
use local_store::MOST_COMMITS;
use outcome_codec::KeyedEntry;
use record_codec::Commit;
use std::alloc::Global;
use std::collections::BTreeSet;
use value_model::{ListenResponse, Timestamp};
use views::Standing;
use watch_aggregator::{WatchPoint, WatchTarget};
use watch_points::{PointCommit, point_commit};

/// The target as one that is current, with its told keys.
fn current_target(target: WatchTarget) -> CurrentTarget
    ensures { (result.id ≡ target.id) × (result.standing ≡ current_with target.told) }
{
    CurrentTarget {
        id: target.id,
        standing: Standing {
            current: true,
            keys: target.told,
        },
    }
}

/// Puts the ids into the set.
fn put_ids(set: &mut BTreeSet<u32>, ids: &[u32]) -> Result<(), NoMemory>
    ensures kept { KeepsMembers set.old set.new }
    ensures each { OnOk result ((id : ℕ) → Contains ids.now id → IsTrue (has_id set.new id)) }
{
    for id in ids {
        set.insert(*id)?;
    }
    Ok(())
}

impl Client {
    /// Puts the listeners of the target into the set.
    pub(crate) fn put_listeners(
        &self,
        alloc: Global,
        target: i32,
        set: &mut BTreeSet<u32>,
    ) -> Result<(), NoMemory>
        ensures kept { KeepsMembers set.old set.new }
        ensures each { OnOk result ((id : ℕ) → target_of self.now.listeners id ≡ Some target
            → IsTrue (has_id set.new id)) }
    {
        let ids = self.listeners.of_target(alloc, target)?;
        put_ids(set, ids.as_slice())
    }

    /// Puts the listeners that an entry's key concerns into the set.
    fn put_concerned(
        &self,
        alloc: Global,
        entries: &[KeyedEntry],
        set: &mut BTreeSet<u32>,
    ) -> Result<(), NoMemory>
        ensures kept { KeepsMembers set.old set.new }
        ensures each { OnOk result ((e : KeyedEntry) → Contains entries.now e
            → HasAllConcerned self.now.listeners e.key set.new) }
    {
        for entry in entries {
            self.listeners.concerned(alloc, &entry.key, set)?;
        }
        Ok(())
    }

    /// Puts the listeners whose target was current into the set.
    fn put_current(&self, alloc: Global, set: &mut BTreeSet<u32>) -> Result<(), NoMemory>
        ensures kept { KeepsMembers set.old set.new }
        ensures each { OnOk result ((id : ℕ) (t : ℤ) → target_of self.now.listeners id ≡ Some t
            → IsSome (standing_in self.now.watch.current.targets.items t) → IsTrue (has_id set.new id)) }
    {
        for target in self.watch.current.targets.as_slice() {
            self.put_listeners(alloc, target.id, set)?;
        }
        Ok(())
    }

    /// Puts the listeners whose target is CURRENT at the point into the set.
    fn put_pointed(
        &self,
        alloc: Global,
        targets: &[WatchTarget],
        set: &mut BTreeSet<u32>,
    ) -> Result<(), NoMemory>
        ensures kept { KeepsMembers set.old set.new }
        ensures each { OnOk result ((id : ℕ) (target : WatchTarget) → Contains targets.now target
            → target.current ≡ true → target_of self.now.listeners id ≡ Some target.id
            → IsTrue (has_id set.new id)) }
    {
        for target in targets {
            if target.current {
                self.put_listeners(alloc, target.id, set)?;
            }
        }
        Ok(())
    }

    /// The listeners that the point may concern, ascending: a document that it changes concerns them, or their target was current,
    /// or is CURRENT.
    fn moved(
        &self,
        alloc: Global,
        entries: &[KeyedEntry],
        targets: &[WatchTarget],
    ) -> Result<Vec<u32>, NoMemory>
        ensures { IfOk result (λ ids. AreMoved self.now entries.now targets.now ids.items) }
    {
        let mut set = BTreeSet::new(alloc);
        self.put_concerned(alloc, entries, &mut set)?;
        self.put_current(alloc, &mut set)?;
        self.put_pointed(alloc, targets, &mut set)?;
        let ids = in_order(alloc, &set)?;
        Ok(ids)
    }

    /// Whether the target is CURRENT and has a listener.
    fn stays_current(&self, target: &WatchTarget) -> bool
        ensures { IsTrue result ↔ ((target.now.current ≡ true)
            × IsWanted self.now.listeners target.now.id) }
    {
        target.current && self.listeners.is_wanted(target.id)
    }

    /// The targets that are current from the point on: those that are CURRENT and have a listener.
    fn current_of(
        &self,
        alloc: Global,
        targets: Vec<WatchTarget>,
    ) -> Result<CurrentTargets, NoMemory>
        ensures { IfOk result (λ current. AllPairs (λ a b. a.id <ℤ b.id) targets.items
            → AreCurrentOf self.now.listeners targets.items current.targets.items) }
    {
        let mut current = CurrentTargets::new(alloc);
        for target in targets {
            if self.stays_current(&target) {
                current.targets.push(current_target(target))?;
            }
        }
        Ok(current)
    }

    /// A point came: it is committed, unless it is too old.
    pub(crate) fn point<H: Host>(
        &mut self,
        alloc: Global,
        host: &mut H,
        response: &ListenResponse,
        at: Timestamp,
    ) -> Result<Outcome, ClientFault>
        requires stored { IsTrue H.tells_files → IsStored self.old.store (H.view host.old) }
        requires whole { ¬ (IsStoreSpent self.old.store) }
        requires poised { self.old.spent ≡ true }
        requires idle { self.old.watch.due ≡ Nothing }
        requires spelled { IsSpelledMessage response.now }
        requires opening { self.old.watch.is_open ≡ true }
        requires gives { CallsAre self.old (λ h. Gives h response.now (effect.Point at)) }
        requires time { IsNotBelow self.old.store.state.last_read at }
        requires heard { (h : Calls)
            × (AggregatorStandsFor self.old.watch.aggregator h × AreSpelledCalls h) }
        ensures turn { IfOk result (λ outcome. (s : State) (past : Past) → StandsFor self.old s past
            → HandsSettled s past (event.Watch response.now) outcome self.new) }
        ensures whole { OnOk result (¬ (IsStoreSpent self.new.store)) }
        ensures root { (self.new.root ≡ self.old.root) × (self.new.spent ≡ self.old.spent) }
        ensures stored { IsTrue H.tells_files → IsStored self.new.store (H.view host.new) }
        ensures files { IsTrue H.tells_files → (s : State) (past : Past) → StandsFor self.old s past
            → MovesBy s past (event.Watch response.now) (H.view host.old) (H.view host.new) }
        ensures meets { IsErrOf result ClientFault.DiskFault → (s : State) (past : Past)
            → StandsFor self.old s past → MakesOne s past (event.Watch response.now) }
        ensures out { KeepsOut (H.view host.old) (H.view host.new) }
        ensures unspent { IsErrOf result ClientFault.Spent → ⊥ }
        ensures counts { RisesAt (IsErrOf result ClientFault.DiskFault)
            (H.view host.old).disk_faults (H.view host.new).disk_faults }
    {
        let number = self.store.number();
        if number >= MOST_COMMITS {
            return Ok(Outcome::Refused(Refusal::IdsSpent, Vec::new(alloc)));
        }
        self.watch.heard(alloc, response)?;
        let WatchPoint { entries, targets } = self.watch.applied(alloc)?;
        let made = point_commit(alloc, self.store.tables(), at, entries, targets.as_slice())?;
        let PointCommit { entries, rows } = made;
        let ids = self.moved(alloc, entries.as_slice(), targets.as_slice())?;
        let entries = Sequence::from_vec(entries);
        let rows = Sequence::from_vec(rows);
        self.commit(alloc, host, Commit::Point { at, entries, rows })?;
        self.watch.current = self.current_of(alloc, targets)?;
        let mut outs = Vec::new(alloc);
        self.settle(alloc, ids.as_slice(), &mut outs)?;
        Ok(Outcome::Done(outs))
    }
}
