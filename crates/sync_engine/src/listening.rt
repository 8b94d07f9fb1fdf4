//! The turns of listeners.

ghost use Rattle.std.specs.Prelude.{◌≡◌, ◌↔◌, IsTrue, true, None, IfOk, OnOk, OnErr, IsErrOf};
ghost use Rattle.host_api.specs.Counts.{RisesAt};
ghost use Rattle.host_api.specs.Host.{KeepsOut};
ghost use Rattle.client_events.specs.Spelled.{IsSpelledEvent};
ghost use Rattle.client_events.specs.declared.event.Event.TheVariants as event;
ghost use Rattle.listeners.specs.Table.{IsWanted, viewed};
ghost use Rattle.local_store.specs.State.{State};
ghost use Rattle.local_store.specs.Store.{IsSpent as IsStoreSpent, IsStored};
ghost use Rattle.target_codec.specs.Spelling.{IsSpelledTarget};
ghost use Rattle.client_turns.specs.Past.{Past};
ghost use Rattle.sync_engine.specs.Standing.{StandsFor};
ghost use Rattle.sync_engine.specs.declared.watch_stream.Due.TheVariants.{Nothing};
ghost use Rattle.sync_engine.specs.Telling.{HandsSettled, KeepsListeners, MakesOne, MovesBy};
ghost use Rattle.sync_engine.specs.Targets.{GivesTarget, HasBegun, MakesRow, MovesForTarget};

use crate::client::Client;
use crate::fault::ClientFault;
use crate::out::{Out, Outcome};
use client_turns::Refusal;
use document_keys::NoMemory;
use host_api::Host;
use local_store::MOST_COMMITS;
use queries::{Query, Target};
use record_codec::Commit;
use std::alloc::Global;

/// The greatest id that a target may have.
const LAST_TARGET: u32 = 2_147_483_646;

impl Client {
    /// The id of the target's row, which is made where there is none; `None` where no number is left for the commit, or no id.
    fn target_for<H: Host>(
        &mut self,
        alloc: Global,
        host: &mut H,
        target: &Target,
    ) -> Result<Option<i32>, ClientFault>
        requires stored { IsTrue H.tells_files → IsStored self.old.store (H.view host.old) }
        requires whole { ¬ (IsStoreSpent self.old.store) }
        requires poised { self.old.spent ≡ true }
        requires spelled { IsSpelledTarget target.now }
        ensures found { IfOk result (λ found.
            GivesTarget self.old.store.state target.now found self.new.store.state) }
        ensures whole { OnOk result (¬ (IsStoreSpent self.new.store)) }
        ensures rest { KeepsListeners self.old self.new }
        ensures stored { IsTrue H.tells_files → IsStored self.new.store (H.view host.new) }
        ensures files { IsTrue H.tells_files
            → MovesForTarget self.old.store.state target.now (H.view host.old) (H.view host.new) }
        ensures meets { OnErr result (MakesRow self.old.store.state target.now) }
        ensures out { KeepsOut (H.view host.old) (H.view host.new) }
        ensures unspent { IsErrOf result ClientFault.Spent → ⊥ }
        ensures counts { RisesAt (IsErrOf result ClientFault.DiskFault)
            (H.view host.old).disk_faults (H.view host.new).disk_faults }
    {
        let id = self.store.targets().next_id();
        if let Some(found) = self.store.targets().find(target) {
            return Ok(Some(found));
        }
        let number = self.store.number();
        if number >= MOST_COMMITS {
            return Ok(None);
        }
        if id > LAST_TARGET {
            return Ok(None);
        }
        let target = target.copy(alloc)?;
        self.commit(alloc, host, Commit::Allocate { id, target })?;
        Ok(Some(id as i32))
    }

    /// The listener of the query begins, at this target. Hands out its ids, and its first snapshot, if it has one.
    fn begin(
        &mut self,
        alloc: Global,
        id: u32,
        query: Query,
        target: i32,
    ) -> Result<Vec<Out>, NoMemory>
        requires poised { self.old.spent ≡ true }
        requires free { viewed self.old.listeners id ≡ None }
        ensures begun { IfOk result (λ outs. HasBegun id query target self.old self.new outs.items) }
        ensures store { self.new.store ≡ self.old.store }
        ensures root { (self.new.root ≡ self.old.root) × (self.new.spent ≡ self.old.spent) }
    {
        let commit = self.store.number();
        let mut outs = Vec::new(alloc);
        outs.push(Out::Listening { id, target, commit })?;
        self.listeners.add(alloc, id, query, target)?;
        self.watch.listened(&target);
        self.settle(alloc, &[id], &mut outs)?;
        Ok(outs)
    }

    /// The turn of a listener that begins.
    pub(crate) fn listen<H: Host>(
        &mut self,
        alloc: Global,
        host: &mut H,
        id: u32,
        query: Query,
    ) -> Result<Outcome, ClientFault>
        requires stored { IsTrue H.tells_files → IsStored self.old.store (H.view host.old) }
        requires whole { ¬ (IsStoreSpent self.old.store) }
        requires poised { self.old.spent ≡ true }
        requires idle { self.old.watch.due ≡ Nothing }
        requires spelled { IsSpelledEvent (event.Listen id query) }
        ensures turn { IfOk result (λ outcome. (s : State) (past : Past) → StandsFor self.old s past
            → HandsSettled s past (event.Listen id query) outcome self.new) }
        ensures whole { OnOk result (¬ (IsStoreSpent self.new.store)) }
        ensures root { (self.new.root ≡ self.old.root) × (self.new.spent ≡ self.old.spent) }
        ensures stored { IsTrue H.tells_files → IsStored self.new.store (H.view host.new) }
        ensures files { IsTrue H.tells_files → (s : State) (past : Past) → StandsFor self.old s past
            → MovesBy s past (event.Listen id query) (H.view host.old) (H.view host.new) }
        ensures meets { IsErrOf result ClientFault.DiskFault → (s : State) (past : Past)
            → StandsFor self.old s past → MakesOne s past (event.Listen id query) }
        ensures out { KeepsOut (H.view host.old) (H.view host.new) }
        ensures unspent { IsErrOf result ClientFault.Spent → ⊥ }
        ensures counts { RisesAt (IsErrOf result ClientFault.DiskFault)
            (H.view host.old).disk_faults (H.view host.new).disk_faults }
    {
        let _last = self.store.targets().next_id();
        if !self.listeners.view(id).is_none() {
            return Ok(Outcome::Refused(Refusal::ListenerTaken(id), Vec::new(alloc)));
        }
        let Some(target) = self.target_for(alloc, host, query.as_target())? else {
            return Ok(Outcome::Refused(Refusal::IdsSpent, Vec::new(alloc)));
        };
        let outs = self.begin(alloc, id, query, target)?;
        Ok(Outcome::Done(outs))
    }

    /// Whether the target has a listener.
    fn wants(&self, target: &i32) -> bool
        ensures { IsTrue result ↔ IsWanted self.now.listeners target.now }
    {
        self.listeners.is_wanted(*target)
    }

    /// The turn of a listener that ends.
    pub(crate) fn unlisten(&mut self, alloc: Global, id: u32) -> Result<Outcome, ClientFault>
        requires poised { self.old.spent ≡ true }
        requires idle { self.old.watch.due ≡ Nothing }
        ensures turn { IfOk result (λ outcome. (s : State) (past : Past) → StandsFor self.old s past
            → HandsSettled s past (event.Unlisten id) outcome self.new) }
        ensures store { self.new.store ≡ self.old.store }
        ensures root { (self.new.root ≡ self.old.root) × (self.new.spent ≡ self.old.spent) }
        ensures unspent { IsErrOf result ClientFault.Spent → ⊥ }
        ensures memory { IsErrOf result ClientFault.DiskFault → ⊥ }
    {
        let Some(target) = self.listeners.target_of(id) else {
            return Ok(Outcome::Refused(Refusal::NoListener(id), Vec::new(alloc)));
        };
        let commit = self.store.number();
        let mut outs = Vec::new(alloc);
        outs.push(Out::Unlistened { id, commit })?;
        self.listeners.remove(id);
        self.limbo.remove(id);
        let wanted = self.wants(&target);
        self.watch.unlistened(&target, wanted);
        Ok(Outcome::Done(outs))
    }
}
