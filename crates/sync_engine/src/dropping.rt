//! The turn by which documents in limbo go whose listens the backend ended.

ghost use Rattle.std.specs.Prelude.{◌≡◌, ◌≢◌, ◌⊎◌, ◌↔◌, ◌<◌, ◌++◌, ℕ, ℤ, pos, [], map as each, IsTrue, true, IfOk, OnOk, IsErrOf};
ghost use Rattle.std.specs.List.{All, Contains};
ghost use Rattle.host_api.specs.Counts.{RisesAt};
ghost use Rattle.host_api.specs.Host.{KeepsOut};
ghost use Rattle.client_events.specs.Spelled.{IsSpelledMessage};
ghost use Rattle.client_events.specs.declared.event.Event.TheVariants as event;
ghost use Rattle.listeners.specs.Concerns.{HasAllConcerned};
ghost use Rattle.listeners.specs.Ids.{KeepsMembers, has_id};
ghost use Rattle.listeners.specs.Table.{target_of};
ghost use Rattle.durable_state.specs.Rows.{HasRow};
ghost use Rattle.limbo_resolver.specs.Limbo.{Key};
ghost use Rattle.local_store.specs.Files.{Moves};
ghost use Rattle.local_store.specs.State.{Fits, State, committed};
ghost use Rattle.local_store.specs.Store.{IsSpent as IsStoreSpent, IsStored};
ghost use Rattle.outcome_codec.specs.Spelling.{AreSpelledIds};
ghost use Rattle.record_codec.specs.declared.commit.Commit.TheVariants as commit_of;
ghost use Rattle.watch_aggregator.specs.Effects.{Gives};
ghost use Rattle.watch_aggregator.specs.declared.effect.Effect.TheVariants as effect;
ghost use Rattle.sync_engine.specs.Dropping.{AreBlankedIn, AreMovedBy, AreToldListens, HoldsOne, IsCurrentWithOne, IsGoing, LetsGo, RowHoldsOne, ShareOne, WasToldOne};
ghost use Rattle.client_turns.specs.Hearing.{AreDropped};
ghost use Rattle.client_turns.specs.Past.{Past};
ghost use Rattle.sync_engine.specs.Requesting.{CallsAre};
ghost use Rattle.sync_engine.specs.Standing.{StandsFor};
ghost use Rattle.sync_engine.specs.Telling.{HandsSettled, MakesOne, MovesBy};
ghost use Rattle.sync_engine.specs.declared.watch_stream.Due.TheVariants.{Nothing};

use crate::client::Client;
use crate::fault::ClientFault;
use crate::out::Outcome;
use crate::resetting::{errors, refuse_all};
use crate::settling::in_order;
use client_turns::Refusal;
use document_keys::{KeySet, NoMemory, Sequence};
use host_api::Host;
use local_store::MOST_COMMITS;
use record_codec::Commit;
use std::alloc::Global;
use std::collections::BTreeSet;
use value_model::{ListenResponse, RpcStatus};
use watch_points::show_keys;

/// Whether one of the keys is among the others.
fn share_one(keys: &KeySet, others: &KeySet) -> bool
    ensures { IsTrue result ↔ ShareOne keys.now others.now }
{
    for key in keys.as_slice() {
        if others.has(key) {
            return true;
        }
    }
    false
}

/// The ids of rows, as ids of targets.
fn as_targets(alloc: Global, rows: &[u32]) -> Result<Vec<i32>, NoMemory>
    requires { All (λ n. n < 2147483648) rows.now }
    ensures { IfOk result (λ ids. ids.items ≡ each pos rows.now) }
{
    let mut ids = Vec::new(alloc);
    for row in rows {
        ids.push(*row as i32)?;
    }
    Ok(ids)
}

/// The one ids, and then the others.
fn joined(alloc: Global, ids: &[i32], others: &[i32]) -> Result<Vec<i32>, NoMemory>
    ensures { IfOk result (λ all. all.items ≡ ids.now ++ others.now) }
{
    let mut all = Vec::new(alloc);
    all.extend_from_slice(ids)?;
    all.extend_from_slice(others)?;
    Ok(all)
}

/// What goes with documents in limbo that are dropped.
#[derive(Drop)]
pub(crate) struct Going {
    /// The ids of the rows that are made blank, ascending.
    rows: Vec<u32>,
    /// The same as ids of targets.
    blanked: Vec<i32>,
    /// The targets that are to be removed and added again.
    resets: Vec<i32>,
    /// The listeners that are concerned, ascending.
    moved: Vec<u32>,
}

impl Client {
    /// The keys of the documents in limbo that are listened to under these ids.
    pub(crate) fn dropped_keys(&self, alloc: Global, ids: &[i32]) -> Result<KeySet, NoMemory>
        ensures { IfOk result (λ keys. AreDropped self.now.limbo.limbo ids.now keys) }
    {
        let mut keys = KeySet::new(alloc);
        for id in ids {
            if let Some(key) = self.limbo.key_of(*id) {
                keys.insert(alloc, key.copy(alloc)?)?;
            }
        }
        Ok(keys)
    }

    /// Whether the row of the target holds one of the keys.
    fn row_holds(&self, id: i32, keys: &KeySet) -> bool
        ensures { IsTrue result ↔ RowHoldsOne self.now id keys.now }
    {
        let Some(row) = self.store.targets().row(id) else {
            return false;
        };
        match &row.held {
            Some(held) => share_one(keys, &held.keys),
            None => false,
        }
    }

    /// Whether the target counts and was told one of the keys.
    fn was_told(&self, id: i32, keys: &KeySet) -> bool
        ensures { CallsAre self.now (λ h. IsTrue result ↔ WasToldOne h id keys.now) }
    {
        match self.watch.aggregator.told(id) {
            Some(told) => share_one(keys, told),
            None => false,
        }
    }

    /// Whether the target is current with one of the keys.
    fn is_current_with(&self, id: i32, keys: &KeySet) -> bool
        ensures { IsTrue result ↔ IsCurrentWithOne self.now id keys.now }
    {
        match self.watch.current.standing(&id) {
            Some(standing) => share_one(keys, &standing.keys),
            None => false,
        }
    }

    /// Whether the target holds one of the keys.
    fn holds_one(&self, id: i32, keys: &KeySet) -> bool
        ensures { CallsAre self.now (λ h. IsTrue result ↔ HoldsOne self.now h id keys.now) }
    {
        self.row_holds(id, keys) || self.was_told(id, keys) || self.is_current_with(id, keys)
    }

    /// Whether the row of the target is made blank: the target ended, or holds one of the keys.
    fn is_blanked(&self, id: &i32, ended: &[i32], keys: &KeySet) -> bool
        ensures { CallsAre self.now (λ h. IsTrue result
            ↔ (Contains ended.now id.now ⊎ HoldsOne self.now h id.now keys.now)) }
    {
        ended.contains(id) || self.holds_one(*id, keys)
    }

    /// The ids of the rows that are made blank, ascending: those of the ended targets, and of targets that hold one of the keys.
    fn blanked_rows(
        &self,
        alloc: Global,
        ended: &[i32],
        keys: &KeySet,
    ) -> Result<Vec<u32>, NoMemory>
        ensures rows { IfOk result (λ those. CallsAre self.now (λ h.
            AreBlankedIn self.now h ended.now keys.now those.items)) }
        ensures low { IfOk result (λ those. All (λ n. n < 2147483648) those.items) }
        ensures known { IfOk result (λ those. All (HasRow self.now.store.state.rows) those.items) }
        ensures spelled { IfOk result (λ those. AreSpelledIds those.items) }
    {
        let ids = self.store.targets().ids(alloc)?;
        let mut those = Vec::new(alloc);
        for id in ids.as_slice() {
            if self.is_blanked(id, ended, keys) {
                those.push(*id as u32)?;
            }
        }
        let _count = those.as_slice().len();
        Ok(those)
    }

    /// The ids of the listens of documents in limbo that were told one of the keys, ascending.
    fn told_listens(&self, alloc: Global, keys: &KeySet) -> Result<Vec<i32>, NoMemory>
        ensures { IfOk result (λ ids. CallsAre self.now (λ h.
            AreToldListens self.now h keys.now ids.items)) }
    {
        let running = self.limbo.ids(alloc)?;
        let mut ids = Vec::new(alloc);
        for id in running.as_slice() {
            if self.was_told(*id, keys) {
                ids.push(*id)?;
            }
        }
        Ok(ids)
    }

    /// Puts the listeners that one of the keys concerns into the set.
    fn put_touched(
        &self,
        alloc: Global,
        keys: &KeySet,
        set: &mut BTreeSet<u32>,
    ) -> Result<(), NoMemory>
        ensures kept { KeepsMembers set.old set.new }
        ensures each { OnOk result ((key : Key) → Contains keys.now key
            → HasAllConcerned self.now.listeners key set.new) }
    {
        for key in keys.as_slice() {
            self.listeners.concerned(alloc, key, set)?;
        }
        Ok(())
    }

    /// Puts the listeners of the targets into the set.
    fn put_linked(
        &self,
        alloc: Global,
        targets: &[i32],
        set: &mut BTreeSet<u32>,
    ) -> Result<(), NoMemory>
        ensures kept { KeepsMembers set.old set.new }
        ensures each { OnOk result ((id : ℕ) (t : ℤ) → Contains targets.now t
            → target_of self.now.listeners id ≡ Some t → IsTrue (has_id set.new id)) }
    {
        for target in targets {
            self.put_listeners(alloc, *target, set)?;
        }
        Ok(())
    }

    /// The listeners that are concerned where the keys go and the targets are reset, ascending.
    fn moved_by(&self, alloc: Global, keys: &KeySet, targets: &[i32]) -> Result<Vec<u32>, NoMemory>
        ensures { IfOk result (λ ids. AreMovedBy self.now keys.now targets.now ids.items) }
    {
        let mut set = BTreeSet::new(alloc);
        self.put_touched(alloc, keys, &mut set)?;
        self.put_linked(alloc, targets, &mut set)?;
        let ids = in_order(alloc, &set)?;
        Ok(ids)
    }

    /// What goes where the targets ended and the keys go.
    fn going(&self, alloc: Global, ids: &[i32], keys: &KeySet) -> Result<Going, NoMemory>
        ensures going { IfOk result (λ going. CallsAre self.now (λ h.
            IsGoing self.now h ids.now keys.now going)) }
        ensures known { IfOk result (λ going.
            All (HasRow self.now.store.state.rows) going.rows.items) }
        ensures spelled { IfOk result (λ going. AreSpelledIds going.rows.items) }
        ensures blanked { IfOk result (λ going. going.blanked.items ≡ each pos going.rows.items) }
        ensures moved { IfOk result (λ going.
            AreMovedBy self.now keys.now going.blanked.items going.moved.items) }
    {
        let rows = self.blanked_rows(alloc, ids, keys)?;
        let told = self.told_listens(alloc, keys)?;
        let blanked = as_targets(alloc, rows.as_slice())?;
        let moved = self.moved_by(alloc, keys, blanked.as_slice())?;
        let resets = joined(alloc, blanked.as_slice(), told.as_slice())?;
        Ok(Going {
            rows,
            blanked,
            resets,
            moved,
        })
    }

    /// The keys go, with what goes with them, and these listeners end. Hands out the listeners that are concerned.
    fn let_go<H: Host>(
        &mut self,
        alloc: Global,
        host: &mut H,
        ids: &[i32],
        keys: KeySet,
        going: Going,
        listeners: &[u32],
    ) -> Result<Vec<u32>, ClientFault>
        requires stored { IsTrue H.tells_files → IsStored self.old.store (H.view host.old) }
        requires whole { ¬ (IsStoreSpent self.old.store) }
        requires poised { self.old.spent ≡ true }
        requires fits { Fits self.old.store.state (commit_of.Drop keys going.rows.items) }
        requires spelled { AreSpelledIds going.rows.items }
        ensures gone { OnOk result (LetsGo ids.now keys going listeners.now self.old self.new) }
        ensures moved { IfOk result (λ moved. moved.items ≡ going.moved.items) }
        ensures whole { OnOk result (¬ (IsStoreSpent self.new.store)) }
        ensures root { (self.new.root ≡ self.old.root) × (self.new.spent ≡ self.old.spent) }
        ensures stored { IsTrue H.tells_files → IsStored self.new.store (H.view host.new) }
        ensures files { IsTrue H.tells_files
            → Moves self.old.store.state
            (committed self.old.store.state (commit_of.Drop keys going.rows.items))
            (H.view host.old) (H.view host.new) }
        ensures out { KeepsOut (H.view host.old) (H.view host.new) }
        ensures unspent { IsErrOf result ClientFault.Spent → ⊥ }
        ensures counts { RisesAt (IsErrOf result ClientFault.DiskFault)
            (H.view host.old).disk_faults (H.view host.new).disk_faults }
    {
        let Going {
            rows,
            blanked,
            resets,
            moved,
        } = going;
        show_keys(&keys);
        let ids_of_rows = Sequence::from_vec(rows);
        let commit = Commit::Drop {
            keys,
            ids: ids_of_rows,
        };
        self.commit(alloc, host, commit)?;
        self.remove_listeners(listeners);
        refuse_all(&mut self.limbo, ids);
        self.watch.dropped(ids, blanked.as_slice(), resets);
        Ok(moved)
    }

    /// Targets ended, listens of documents in limbo among them: these documents are dropped, the targets that hold them are reset,
    /// and listeners whose target ended are told so, and end.
    pub(crate) fn drop_documents<H: Host>(
        &mut self,
        alloc: Global,
        host: &mut H,
        response: &ListenResponse,
        ids: &[i32],
        status: &RpcStatus,
        keys: KeySet,
    ) -> Result<Outcome, ClientFault>
        requires stored { IsTrue H.tells_files → IsStored self.old.store (H.view host.old) }
        requires whole { ¬ (IsStoreSpent self.old.store) }
        requires poised { self.old.spent ≡ true }
        requires idle { self.old.watch.due ≡ Nothing }
        requires spelled { IsSpelledMessage response.now }
        requires opening { self.old.watch.is_open ≡ true }
        requires gives { CallsAre self.old
            (λ h. Gives h response.now (effect.Ended ids.now status.now)) }
        requires dropped { AreDropped self.old.limbo.limbo ids.now keys }
        requires some { keys ≢ [] }
        ensures turn { IfOk result (λ outcome. (s : State) (past : Past) → StandsFor self.old s past
            → HandsSettled s past (event.Watch response.now) outcome self.new) }
        ensures whole { OnOk result (¬ (IsStoreSpent self.new.store)) }
        ensures root { (self.new.root ≡ self.old.root) × (self.new.spent ≡ self.old.spent) }
        ensures stored { IsTrue H.tells_files → IsStored self.new.store (H.view host.new) }
        ensures files { IsTrue H.tells_files → (s : State) (past : Past) → StandsFor self.old s past
            → MovesBy s past (event.Watch response.now) (H.view host.old) (H.view host.new) }
        ensures meets { IsErrOf result ClientFault.DiskFault → (s : State) (past : Past)
            → StandsFor self.old s past → MakesOne s past (event.Watch response.now) }
        ensures out { KeepsOut (H.view host.old) (H.view host.new) }
        ensures unspent { IsErrOf result ClientFault.Spent → ⊥ }
        ensures counts { RisesAt (IsErrOf result ClientFault.DiskFault)
            (H.view host.old).disk_faults (H.view host.new).disk_faults }
    {
        let going = self.going(alloc, ids, &keys)?;
        let listeners = self.listeners_of(alloc, ids)?;
        if self.store.number() >= MOST_COMMITS {
            return Ok(Outcome::Refused(Refusal::IdsSpent, Vec::new(alloc)));
        }
        let mut outs = errors(alloc, listeners.as_slice(), status)?;
        self.watch.heard(alloc, response)?;
        let moved = self.let_go(alloc, host, ids, keys, going, listeners.as_slice())?;
        self.settle(alloc, moved.as_slice(), &mut outs)?;
        Ok(Outcome::Done(outs))
    }
}
