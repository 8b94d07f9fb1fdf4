//! Which listeners are refreshed, and what they raise.

ghost use Rattle.std.specs.Prelude.{◌<◌, ℕ, IfOk, OnOk, IsTrue};
ghost use Rattle.std.specs.List.{AllPairs, Contains};
ghost use Rattle.listeners.specs.Ids.{has_id};
ghost use Rattle.sync_engine.specs.Concerned.{AreConcerned, ConcernsOne};
ghost use Rattle.client_turns.specs.Settling.{MayStart};
ghost use Rattle.sync_engine.specs.Standing.{stance_in};
ghost use Rattle.sync_engine.specs.Telling.{IsQuietOrAmong, KeepsRest, Raises, ShowsOne};

use crate::client::Client;
use crate::out::Out;
use client_turns::OnlineState;
use document_keys::{KeySet, NoMemory};
use mutations::Write;
use std::alloc::Global;
use std::collections::BTreeSet;
use views::Standing;

/// The ids in their order.
pub(crate) fn in_order(alloc: Global, set: &BTreeSet<u32>) -> Result<Vec<u32>, NoMemory>
    ensures ascending { IfOk result (λ ids. AllPairs (λ a b. a < b) ids.items) }
    ensures all { IfOk result (λ ids. (id : ℕ) → IsTrue (has_id set.now id) → Contains ids.items id) }
    ensures only { IfOk result (λ ids. (id : ℕ) → Contains ids.items id → IsTrue (has_id set.now id)) }
{
    let mut ids = Vec::new(alloc);
    for id in set.iter() {
        ids.push(*id)?;
    }
    Ok(ids)
}

impl Client {
    /// The listeners that the writes concern, in a set.
    fn concerned_set(&self, alloc: Global, writes: &[Write]) -> Result<BTreeSet<u32>, NoMemory>
        ensures { IfOk result (λ set. (id : ℕ) → ConcernsOne self.now.listeners writes.now id
            → IsTrue (has_id set id)) }
    {
        let mut set = BTreeSet::new(alloc);
        for write in writes {
            self.listeners.concerned(alloc, write.key(), &mut set)?;
        }
        Ok(set)
    }

    /// The ids of the listeners that the writes concern, ascending.
    pub(crate) fn concerned(&self, alloc: Global, writes: &[Write]) -> Result<Vec<u32>, NoMemory>
        ensures { IfOk result (λ ids. AreConcerned self.now.listeners writes.now ids.items) }
    {
        let set = self.concerned_set(alloc, writes)?;
        let ids = in_order(alloc, &set)?;
        Ok(ids)
    }

    /// Whether the listener of the id may start with nothing to show: its target's row isn't blank, or the client is offline.
    fn may_start(&self, id: u32) -> bool
        ensures { MayStart self.now.store.state (stance_in self.now id) result }
    {
        if self.watch.online == OnlineState::Offline {
            return true;
        }
        let Some(target) = self.listeners.target_of(id) else {
            return false;
        };
        match self.store.targets().row(target) {
            Some(row) => row.held.is_some(),
            None => false,
        }
    }

    /// Refreshes the listener of the id, if there is one, and tells whether it raised a snapshot.
    fn show(&mut self, alloc: Global, id: u32) -> Result<bool, NoMemory>
        ensures rest { KeepsRest self.old self.new }
        ensures shows { IfOk result (λ raised. ShowsOne id self.old self.new raised) }
    {
        if self.listeners.view(id).is_none() {
            return Ok(false);
        }
        let may_start = self.may_start(id);
        let target = self.listeners.target_of(id);
        let not_current = Standing {
            current: false,
            keys: KeySet::new(alloc),
        };
        let standing = self.watch.current.standing_or(target, &not_current);
        let refresh = self
            .listeners
            .refresh(alloc, &self.root, &self.store, id, standing, may_start)?;
        self.limbo.put(alloc, id, refresh.limbo)?;
        Ok(refresh.raised)
    }

    /// Refreshes the listeners of the ids, which ascend; any other listener is quiet. Hands out the snapshots that are raised.
    pub(crate) fn settle(
        &mut self,
        alloc: Global,
        ids: &[u32],
        outs: &mut Vec<Out>,
    ) -> Result<(), NoMemory>
        requires ascending { AllPairs (λ a b. a < b) ids.now }
        ensures rest { KeepsRest self.old self.new }
        ensures raises { IsQuietOrAmong ids.now self.old
            → OnOk result (Raises self.old self.new outs.old.items outs.new.items) }
    {
        for id in ids {
            if self.show(alloc, *id)? {
                outs.push(Out::Raised(*id))?;
            }
        }
        Ok(())
    }
}
