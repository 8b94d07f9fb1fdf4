//! The turns by which targets are reset, or end.

ghost use Rattle.std.specs.Prelude.{◌≡◌, ◌↔◌, ◌⊎◌, ◌<◌, ◌^◌, ℕ, [], map as each, IsTrue, true, IfOk, OnOk, OnErr, IsErrOf};
ghost use Rattle.std.specs.List.{All, Contains};
ghost use Rattle.durable_state.specs.Rows.{IsHeld};
ghost use Rattle.listeners.specs.Ids.{has_id};
ghost use Rattle.host_api.specs.Counts.{RisesAt};
ghost use Rattle.host_api.specs.Host.{KeepsOut};
ghost use Rattle.client_events.specs.Spelled.{IsSpelledMessage};
ghost use Rattle.client_events.specs.declared.event.Event.TheVariants as event;
ghost use Rattle.local_store.specs.Files.{Moves};
ghost use Rattle.local_store.specs.State.{State};
ghost use Rattle.local_store.specs.Store.{IsSpent as IsStoreSpent, IsStored};
ghost use Rattle.watch_aggregator.specs.Effects.{Gives};
ghost use Rattle.watch_aggregator.specs.declared.effect.Effect.TheVariants as effect;
ghost use Rattle.client_turns.specs.Blanking.{IsBlanking, blanked_state};
ghost use Rattle.client_turns.specs.Hearing.{AreDropped, HaveRows, IsAnyHeld};
ghost use Rattle.client_turns.specs.Past.{Past};
ghost use Rattle.sync_engine.specs.Requesting.{CallsAre};
ghost use Rattle.sync_engine.specs.Standing.{StandsFor};
ghost use Rattle.sync_engine.specs.Telling.{AreListenersIn, ForgetsAll, HandsSettled, KeepsListeners, KeepsStreams, MakesOne, MovesBy, RefusesAll, RemovesAll};
ghost use Rattle.sync_engine.specs.declared.out.Out.TheVariants.{Error};
ghost use Rattle.sync_engine.specs.declared.watch_stream.Due.TheVariants.{Nothing};

use crate::client::Client;
use crate::fault::ClientFault;
use crate::out::{Out, Outcome};
use crate::settling::in_order;
use client_turns::Refusal;
use document_keys::{NoMemory, Sequence};
use host_api::Host;
use limbo_listens::LimboListens;
use listeners::Listeners;
use local_store::MOST_COMMITS;
use record_codec::Commit;
use std::alloc::Global;
use std::collections::BTreeSet;
use value_model::{ListenResponse, RpcStatus};

/// The lines that tell the listeners of these ids that the backend refused their target with this status.
pub(crate) fn errors(alloc: Global, ids: &[u32], status: &RpcStatus) -> Result<Vec<Out>, NoMemory>
    ensures { IfOk result (λ outs. outs.items ≡ each (λ id. Error id status.now) ids.now) }
{
    let mut outs = Vec::new(alloc);
    for id in ids {
        let status = status.copy(alloc)?;
        outs.push(Out::Error { id: *id, status })?;
    }
    Ok(outs)
}

/// Puts the ids into the set.
fn put_all(set: &mut BTreeSet<u32>, ids: &[u32]) -> Result<(), NoMemory>
    ensures { OnOk result ((q : ℕ) → IsTrue (has_id set.new q)
        ↔ (IsTrue (has_id set.old q) ⊎ Contains ids.now q)) }
{
    for id in ids {
        set.insert(*id)?;
    }
    Ok(())
}

/// Takes the listeners of these ids away.
fn remove_all(listeners: &mut Listeners, ids: &[u32])
    ensures { RemovesAll ids.now listeners.old listeners.new }
{
    for id in ids {
        listeners.remove(*id);
    }
}

/// Keeps no document in limbo any more for the listeners of these ids.
fn forget_all(limbo: &mut LimboListens, ids: &[u32])
    ensures { ForgetsAll ids.now limbo.old limbo.new }
{
    for id in ids {
        limbo.remove(*id);
    }
}

/// The listens of documents in limbo end that the backend ended under these ids.
pub(crate) fn refuse_all(limbo: &mut LimboListens, ids: &[i32])
    ensures { RefusesAll ids.now limbo.old limbo.new }
{
    for id in ids {
        limbo.refused(*id);
    }
}

impl Client {
    /// Those of the ids that have a row, ascending.
    fn rows_of(&self, alloc: Global, ids: &[i32]) -> Result<Vec<u32>, NoMemory>
        ensures rows { IfOk result (λ those. HaveRows self.now.store.state.rows ids.now those.items) }
        ensures low { IfOk result (λ those. All (λ n. n < 2 ^ 32) those.items) }
    {
        let mut set = BTreeSet::new(alloc);
        for id in ids {
            if self.store.targets().row(*id).is_some() {
                set.insert(*id as u32)?;
            }
        }
        let those = in_order(alloc, &set)?;
        Ok(those)
    }

    /// Whether the id has a row that holds something.
    fn is_held(&self, id: u32) -> bool
        ensures { IsTrue result ↔ IsHeld self.now.store.state.rows id }
    {
        let next = self.store.targets().next_id();
        if id >= next {
            return false;
        }
        match self.store.targets().row(id as i32) {
            Some(row) => row.held.is_some(),
            None => false,
        }
    }

    /// Whether the row of one of the ids holds something.
    fn is_any_held(&self, ids: &[u32]) -> bool
        ensures { IsTrue result ↔ IsAnyHeld self.now.store.state.rows ids.now }
    {
        for id in ids {
            if self.is_held(*id) {
                return true;
            }
        }
        false
    }

    /// Makes the rows of the ids blank by a commit, if that is to be done.
    fn blank<H: Host>(
        &mut self,
        alloc: Global,
        host: &mut H,
        ids: Vec<u32>,
        blanks: bool,
    ) -> Result<(), ClientFault>
        requires stored { IsTrue H.tells_files → IsStored self.old.store (H.view host.old) }
        requires whole { ¬ (IsStoreSpent self.old.store) }
        requires poised { self.old.spent ≡ true }
        requires fits { IsTrue blanks → IsBlanking self.old.store.state ids.items }
        ensures state { OnOk result
            (self.new.store.state ≡ blanked_state blanks self.old.store.state ids.items) }
        ensures whole { OnOk result (¬ (IsStoreSpent self.new.store)) }
        ensures rest { KeepsListeners self.old self.new }
        ensures stored { IsTrue H.tells_files → IsStored self.new.store (H.view host.new) }
        ensures files { IsTrue H.tells_files
            → Moves self.old.store.state (blanked_state blanks self.old.store.state ids.items)
            (H.view host.old) (H.view host.new) }
        ensures meets { OnErr result (IsTrue blanks) }
        ensures out { KeepsOut (H.view host.old) (H.view host.new) }
        ensures unspent { IsErrOf result ClientFault.Spent → ⊥ }
        ensures counts { RisesAt (IsErrOf result ClientFault.DiskFault)
            (H.view host.old).disk_faults (H.view host.new).disk_faults }
    {
        if !blanks {
            return Ok(());
        }
        let ids = Sequence::from_vec(ids);
        self.commit(alloc, host, Commit::Reset { ids })
    }

    /// The listeners of the targets, ascending.
    pub(crate) fn listeners_of(&self, alloc: Global, targets: &[i32]) -> Result<Vec<u32>, NoMemory>
        ensures { IfOk result (λ ids. AreListenersIn self.now.listeners targets.now ids.items) }
    {
        let mut set = BTreeSet::new(alloc);
        for target in targets {
            let ids = self.listeners.of_target(alloc, *target)?;
            put_all(&mut set, ids.as_slice())?;
        }
        let ids = in_order(alloc, &set)?;
        Ok(ids)
    }

    /// The listeners of these ids end.
    pub(crate) fn remove_listeners(&mut self, ids: &[u32])
        requires poised { self.old.spent ≡ true }
        ensures rest { KeepsStreams self.old self.new }
        ensures removed { RemovesAll ids.now self.old.listeners self.new.listeners }
        ensures forgotten { ForgetsAll ids.now self.old.limbo self.new.limbo }
    {
        remove_all(&mut self.listeners, ids);
        forget_all(&mut self.limbo, ids);
    }

    /// A filter came whose count isn't the number of told keys of the target: the target is reset.
    pub(crate) fn mismatch<H: Host>(
        &mut self,
        alloc: Global,
        host: &mut H,
        response: &ListenResponse,
        id: &i32,
    ) -> Result<Outcome, ClientFault>
        requires stored { IsTrue H.tells_files → IsStored self.old.store (H.view host.old) }
        requires whole { ¬ (IsStoreSpent self.old.store) }
        requires poised { self.old.spent ≡ true }
        requires idle { self.old.watch.due ≡ Nothing }
        requires spelled { IsSpelledMessage response.now }
        requires opening { self.old.watch.is_open ≡ true }
        requires gives { (told : ℕ) × ((count : ℕ) × CallsAre self.old
            (λ h. Gives h response.now (effect.Mismatch id.now told count))) }
        ensures turn { IfOk result (λ outcome. (s : State) (past : Past) → StandsFor self.old s past
            → HandsSettled s past (event.Watch response.now) outcome self.new) }
        ensures whole { OnOk result (¬ (IsStoreSpent self.new.store)) }
        ensures root { (self.new.root ≡ self.old.root) × (self.new.spent ≡ self.old.spent) }
        ensures stored { IsTrue H.tells_files → IsStored self.new.store (H.view host.new) }
        ensures files { IsTrue H.tells_files → (s : State) (past : Past) → StandsFor self.old s past
            → MovesBy s past (event.Watch response.now) (H.view host.old) (H.view host.new) }
        ensures meets { IsErrOf result ClientFault.DiskFault → (s : State) (past : Past)
            → StandsFor self.old s past → MakesOne s past (event.Watch response.now) }
        ensures out { KeepsOut (H.view host.old) (H.view host.new) }
        ensures unspent { IsErrOf result ClientFault.Spent → ⊥ }
        ensures counts { RisesAt (IsErrOf result ClientFault.DiskFault)
            (H.view host.old).disk_faults (H.view host.new).disk_faults }
    {
        let rows = self.rows_of(alloc, &[*id])?;
        let blanks = self.is_any_held(rows.as_slice());
        if blanks && self.store.number() >= MOST_COMMITS {
            return Ok(Outcome::Refused(Refusal::IdsSpent, Vec::new(alloc)));
        }
        let ids = self.listeners.of_target(alloc, *id)?;
        self.watch.heard(alloc, response)?;
        self.blank(alloc, host, rows, blanks)?;
        self.watch.reset(alloc, id)?;
        let mut outs = Vec::new(alloc);
        self.settle(alloc, ids.as_slice(), &mut outs)?;
        Ok(Outcome::Done(outs))
    }

    /// Targets ended, no listens of documents in limbo among them: their listeners are told so, and end.
    fn end_targets<H: Host>(
        &mut self,
        alloc: Global,
        host: &mut H,
        response: &ListenResponse,
        ids: &[i32],
        status: &RpcStatus,
    ) -> Result<Outcome, ClientFault>
        requires stored { IsTrue H.tells_files → IsStored self.old.store (H.view host.old) }
        requires whole { ¬ (IsStoreSpent self.old.store) }
        requires poised { self.old.spent ≡ true }
        requires idle { self.old.watch.due ≡ Nothing }
        requires spelled { IsSpelledMessage response.now }
        requires opening { self.old.watch.is_open ≡ true }
        requires gives { CallsAre self.old
            (λ h. Gives h response.now (effect.Ended ids.now status.now)) }
        requires none { AreDropped self.old.limbo.limbo ids.now [] }
        ensures turn { IfOk result (λ outcome. (s : State) (past : Past) → StandsFor self.old s past
            → HandsSettled s past (event.Watch response.now) outcome self.new) }
        ensures whole { OnOk result (¬ (IsStoreSpent self.new.store)) }
        ensures root { (self.new.root ≡ self.old.root) × (self.new.spent ≡ self.old.spent) }
        ensures stored { IsTrue H.tells_files → IsStored self.new.store (H.view host.new) }
        ensures files { IsTrue H.tells_files → (s : State) (past : Past) → StandsFor self.old s past
            → MovesBy s past (event.Watch response.now) (H.view host.old) (H.view host.new) }
        ensures meets { IsErrOf result ClientFault.DiskFault → (s : State) (past : Past)
            → StandsFor self.old s past → MakesOne s past (event.Watch response.now) }
        ensures out { KeepsOut (H.view host.old) (H.view host.new) }
        ensures unspent { IsErrOf result ClientFault.Spent → ⊥ }
        ensures counts { RisesAt (IsErrOf result ClientFault.DiskFault)
            (H.view host.old).disk_faults (H.view host.new).disk_faults }
    {
        let rows = self.rows_of(alloc, ids)?;
        let listeners = self.listeners_of(alloc, ids)?;
        let blanks = self.is_any_held(rows.as_slice());
        if blanks && self.store.number() >= MOST_COMMITS {
            return Ok(Outcome::Refused(Refusal::IdsSpent, Vec::new(alloc)));
        }
        let outs = errors(alloc, listeners.as_slice(), status)?;
        self.watch.heard(alloc, response)?;
        self.blank(alloc, host, rows, blanks)?;
        self.remove_listeners(listeners.as_slice());
        refuse_all(&mut self.limbo, ids);
        self.watch.ended(ids);
        Ok(Outcome::Done(outs))
    }

    /// Targets ended: their listeners are told so, and end; and documents in limbo go whose listens are among them.
    pub(crate) fn end<H: Host>(
        &mut self,
        alloc: Global,
        host: &mut H,
        response: &ListenResponse,
        ids: &[i32],
        status: &RpcStatus,
    ) -> Result<Outcome, ClientFault>
        requires stored { IsTrue H.tells_files → IsStored self.old.store (H.view host.old) }
        requires whole { ¬ (IsStoreSpent self.old.store) }
        requires poised { self.old.spent ≡ true }
        requires idle { self.old.watch.due ≡ Nothing }
        requires spelled { IsSpelledMessage response.now }
        requires opening { self.old.watch.is_open ≡ true }
        requires gives { CallsAre self.old
            (λ h. Gives h response.now (effect.Ended ids.now status.now)) }
        ensures turn { IfOk result (λ outcome. (s : State) (past : Past) → StandsFor self.old s past
            → HandsSettled s past (event.Watch response.now) outcome self.new) }
        ensures whole { OnOk result (¬ (IsStoreSpent self.new.store)) }
        ensures root { (self.new.root ≡ self.old.root) × (self.new.spent ≡ self.old.spent) }
        ensures stored { IsTrue H.tells_files → IsStored self.new.store (H.view host.new) }
        ensures files { IsTrue H.tells_files → (s : State) (past : Past) → StandsFor self.old s past
            → MovesBy s past (event.Watch response.now) (H.view host.old) (H.view host.new) }
        ensures meets { IsErrOf result ClientFault.DiskFault → (s : State) (past : Past)
            → StandsFor self.old s past → MakesOne s past (event.Watch response.now) }
        ensures out { KeepsOut (H.view host.old) (H.view host.new) }
        ensures unspent { IsErrOf result ClientFault.Spent → ⊥ }
        ensures counts { RisesAt (IsErrOf result ClientFault.DiskFault)
            (H.view host.old).disk_faults (H.view host.new).disk_faults }
    {
        let keys = self.dropped_keys(alloc, ids)?;
        if keys.len() > 0 {
            return self.drop_documents(alloc, host, response, ids, status, keys);
        }
        self.end_targets(alloc, host, response, ids, status)
    }
}
