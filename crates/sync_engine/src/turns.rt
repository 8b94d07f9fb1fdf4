//! The turns of events, one by one.

ghost use Rattle.std.specs.Prelude.{◌≡◌, IsTrue, true, Some, IfOk, OnOk, IsErrOf};
ghost use Rattle.host_api.specs.Counts.{RisesAt};
ghost use Rattle.host_api.specs.Host.{KeepsOut};
ghost use Rattle.client_events.specs.Spelled.{IsSpelledEvent};
ghost use Rattle.client_events.specs.declared.event.Event.TheVariants as event;
ghost use Rattle.local_store.specs.Files.{Moves};
ghost use Rattle.local_store.specs.State.{State, Fits, committed};
ghost use Rattle.local_store.specs.Store.{IsSpent as IsStoreSpent, IsStored};
ghost use Rattle.record_codec.specs.Spelling.{HasSpelling};
ghost use Rattle.listen_protocol.specs.Calls.{Calls};
ghost use Rattle.watch_aggregator.specs.Standing.{StandsFor as AggregatorStandsFor};
ghost use Rattle.watch_points.specs.SpelledCalls.{AreSpelledCalls};
ghost use Rattle.client_turns.specs.Past.{Past};
ghost use Rattle.sync_engine.specs.Requesting.{KeepsButRequests, SettlesLimbo};
ghost use Rattle.sync_engine.specs.Standing.{IsAtRest, IsStanding, StandsFor};
ghost use Rattle.sync_engine.specs.declared.watch_stream.Due.TheVariants.{Nothing};
ghost use Rattle.sync_engine.specs.Telling.{HandsOut, HandsSettled, KeepsListeners, MakesOne, MovesBy};
ghost use Rattle.client_turns.specs.Turn.{is_heard};

use crate::client::Client;
use crate::fault::ClientFault;
use crate::out::{Out, Outcome};
use client_events::Event;
use client_turns::Refusal;
use document_keys::{DocumentKey, NoMemory, Text};
use host_api::Host;
use local_store::{MOST_COMMITS, StoreFault};
use mutations::{Batch, Writes};
use record_codec::Commit;
use std::alloc::Global;
use value_model::{RpcStatus, StreamName, Timestamp};

/// Whether the event is heard that was refused: a bad message closes its stream.
fn is_heard(refusal: &Refusal) -> bool
    ensures { result ≡ is_heard (Some refusal.now) }
{
    matches!(refusal, Refusal::BadMessage { .. })
}

impl Client {
    /// Makes the commit, which fits.
    pub(crate) fn commit<H: Host>(
        &mut self,
        alloc: Global,
        host: &mut H,
        commit: Commit,
    ) -> Result<(), ClientFault>
        requires stored { IsTrue H.tells_files → IsStored self.old.store (H.view host.old) }
        requires whole { ¬ (IsStoreSpent self.old.store) }
        requires poised { self.old.spent ≡ true }
        requires fits { Fits self.old.store.state commit }
        requires spelled { HasSpelling commit }
        ensures state { OnOk result (self.new.store.state ≡ committed self.old.store.state commit) }
        ensures whole { OnOk result (¬ (IsStoreSpent self.new.store)) }
        ensures rest { KeepsListeners self.old self.new }
        ensures stored { IsTrue H.tells_files → IsStored self.new.store (H.view host.new) }
        ensures files { IsTrue H.tells_files
            → Moves self.old.store.state (committed self.old.store.state commit)
            (H.view host.old) (H.view host.new) }
        ensures out { KeepsOut (H.view host.old) (H.view host.new) }
        ensures unspent { IsErrOf result ClientFault.Spent → ⊥ }
        ensures counts { RisesAt (IsErrOf result ClientFault.DiskFault)
            (H.view host.old).disk_faults (H.view host.new).disk_faults }
    {
        match self.store.commit(alloc, host, commit) {
            Ok(_) => Ok(()),
            Err(StoreFault::DiskFault) => Err(ClientFault::DiskFault),
            Err(StoreFault::NoMemory) => Err(ClientFault::NoMemory),
            Err(StoreFault::Spent) => unreachable!(),
        }
    }

    /// The turn of a get.
    fn get(&mut self, alloc: Global, key: DocumentKey) -> Result<Outcome, ClientFault>
        requires idle { self.old.watch.due ≡ Nothing }
        ensures turn { IfOk result (λ outcome. (s : State) (past : Past) → StandsFor self.old s past
            → HandsSettled s past (event.Get key) outcome self.new) }
        ensures same { self.new ≡ self.old }
        ensures unspent { IsErrOf result ClientFault.Spent → ⊥ }
        ensures memory { IsErrOf result ClientFault.DiskFault → ⊥ }
    {
        let mut outs = Vec::new(alloc);
        outs.push(Out::Document(key))?;
        Ok(Outcome::Done(outs))
    }

    /// The turn of a write. A batch is committed, and then the listeners are refreshed that its writes concern.
    fn write<H: Host>(
        &mut self,
        alloc: Global,
        host: &mut H,
        at: Timestamp,
        writes: Writes,
    ) -> Result<Outcome, ClientFault>
        requires stored { IsTrue H.tells_files → IsStored self.old.store (H.view host.old) }
        requires whole { ¬ (IsStoreSpent self.old.store) }
        requires poised { self.old.spent ≡ true }
        requires idle { self.old.watch.due ≡ Nothing }
        requires spelled { IsSpelledEvent (event.Write at writes) }
        ensures turn { IfOk result (λ outcome. (s : State) (past : Past) → StandsFor self.old s past
            → HandsSettled s past (event.Write at writes) outcome self.new) }
        ensures whole { OnOk result (¬ (IsStoreSpent self.new.store)) }
        ensures root { (self.new.root ≡ self.old.root) × (self.new.spent ≡ self.old.spent) }
        ensures stored { IsTrue H.tells_files → IsStored self.new.store (H.view host.new) }
        ensures files { IsTrue H.tells_files → (s : State) (past : Past) → StandsFor self.old s past
            → MovesBy s past (event.Write at writes) (H.view host.old) (H.view host.new) }
        ensures meets { IsErrOf result ClientFault.DiskFault → (s : State) (past : Past)
            → StandsFor self.old s past → MakesOne s past (event.Write at writes) }
        ensures out { KeepsOut (H.view host.old) (H.view host.new) }
        ensures unspent { IsErrOf result ClientFault.Spent → ⊥ }
        ensures counts { RisesAt (IsErrOf result ClientFault.DiskFault)
            (H.view host.old).disk_faults (H.view host.new).disk_faults }
    {
        let number = self.store.number();
        let id = self.store.next_batch();
        if number >= MOST_COMMITS {
            return Ok(Outcome::Refused(Refusal::IdsSpent, Vec::new(alloc)));
        }
        let mut outs = Vec::new(alloc);
        let commit = number + 1;
        outs.push(Out::Wrote { batch: id, commit })?;
        let ids = self.concerned(alloc, writes.as_slice())?;
        self.commit(alloc, host, Commit::Enqueue(Batch { id, at, writes }))?;
        self.settle(alloc, ids.as_slice(), &mut outs)?;
        Ok(Outcome::Done(outs))
    }

    /// The turn of a stream that was opened.
    fn open_stream(&mut self, alloc: Global, name: StreamName) -> Result<Outcome, ClientFault>
        requires poised { self.old.spent ≡ true }
        requires idle { self.old.watch.due ≡ Nothing }
        ensures turn { IfOk result (λ outcome. (s : State) (past : Past) → StandsFor self.old s past
            → HandsSettled s past (event.Opened name) outcome self.new) }
        ensures store { self.new.store ≡ self.old.store }
        ensures root { (self.new.root ≡ self.old.root) × (self.new.spent ≡ self.old.spent) }
        ensures unspent { IsErrOf result ClientFault.Spent → ⊥ }
        ensures memory { IsErrOf result ClientFault.DiskFault → ⊥ }
    {
        match name {
            StreamName::Watch => Ok(self.open_watch(alloc)),
            StreamName::Write => self.open_writes(alloc),
        }
    }

    /// The turn of a stream that was closed.
    fn close_stream<H: Host>(
        &mut self,
        alloc: Global,
        host: &mut H,
        name: StreamName,
        status: RpcStatus,
    ) -> Result<Outcome, ClientFault>
        requires stored { IsTrue H.tells_files → IsStored self.old.store (H.view host.old) }
        requires whole { ¬ (IsStoreSpent self.old.store) }
        requires poised { self.old.spent ≡ true }
        requires idle { self.old.watch.due ≡ Nothing }
        ensures turn { IfOk result (λ outcome. (s : State) (past : Past) → StandsFor self.old s past
            → HandsSettled s past (event.Closed name status) outcome self.new) }
        ensures whole { OnOk result (¬ (IsStoreSpent self.new.store)) }
        ensures root { (self.new.root ≡ self.old.root) × (self.new.spent ≡ self.old.spent) }
        ensures stored { IsTrue H.tells_files → IsStored self.new.store (H.view host.new) }
        ensures files { IsTrue H.tells_files → (s : State) (past : Past) → StandsFor self.old s past
            → MovesBy s past (event.Closed name status) (H.view host.old) (H.view host.new) }
        ensures meets { IsErrOf result ClientFault.DiskFault → (s : State) (past : Past)
            → StandsFor self.old s past → MakesOne s past (event.Closed name status) }
        ensures out { KeepsOut (H.view host.old) (H.view host.new) }
        ensures unspent { IsErrOf result ClientFault.Spent → ⊥ }
        ensures counts { RisesAt (IsErrOf result ClientFault.DiskFault)
            (H.view host.old).disk_faults (H.view host.new).disk_faults }
    {
        match name {
            StreamName::Watch => self.close_watch(alloc, &status),
            StreamName::Write => self.close_writes(alloc, host, status),
        }
    }

    /// The turn of a message with a fault, in the member of this name.
    fn bad_message(
        &mut self,
        alloc: Global,
        name: StreamName,
        member: Text,
    ) -> Result<Outcome, ClientFault>
        requires idle { self.old.watch.due ≡ Nothing }
        ensures turn { IfOk result (λ outcome. (s : State) (past : Past) → StandsFor self.old s past
            → HandsSettled s past (event.BadMessage name member) outcome self.new) }
        ensures store { self.new.store ≡ self.old.store }
        ensures root { (self.new.root ≡ self.old.root) × (self.new.spent ≡ self.old.spent) }
        ensures unspent { IsErrOf result ClientFault.Spent → ⊥ }
        ensures memory { IsErrOf result ClientFault.DiskFault → ⊥ }
    {
        match name {
            StreamName::Watch => self.bad_watch(alloc, member),
            StreamName::Write => Ok(self.bad_written(alloc, member)),
        }
    }

    /// The turn of an event, but for the requests that go out.
    fn answer<H: Host>(
        &mut self,
        alloc: Global,
        host: &mut H,
        event: Event,
    ) -> Result<Outcome, ClientFault>
        requires stored { IsTrue H.tells_files → IsStored self.old.store (H.view host.old) }
        requires whole { ¬ (IsStoreSpent self.old.store) }
        requires poised { self.old.spent ≡ true }
        requires heard { (h : Calls) × (AggregatorStandsFor self.old.watch.aggregator h × AreSpelledCalls h) }
        requires idle { self.old.watch.due ≡ Nothing }
        requires spelled { IsSpelledEvent event }
        ensures turn { IfOk result (λ outcome. (s : State) (past : Past) → StandsFor self.old s past
            → HandsSettled s past event outcome self.new) }
        ensures whole { OnOk result (¬ (IsStoreSpent self.new.store)) }
        ensures root { (self.new.root ≡ self.old.root) × (self.new.spent ≡ self.old.spent) }
        ensures stored { IsTrue H.tells_files → IsStored self.new.store (H.view host.new) }
        ensures files { IsTrue H.tells_files → (s : State) (past : Past) → StandsFor self.old s past
            → MovesBy s past event (H.view host.old) (H.view host.new) }
        ensures meets { IsErrOf result ClientFault.DiskFault → (s : State) (past : Past)
            → StandsFor self.old s past → MakesOne s past event }
        ensures out { KeepsOut (H.view host.old) (H.view host.new) }
        ensures unspent { IsErrOf result ClientFault.Spent → ⊥ }
        ensures counts { RisesAt (IsErrOf result ClientFault.DiskFault)
            (H.view host.old).disk_faults (H.view host.new).disk_faults }
    {
        match event {
            Event::Write { at, writes } => self.write(alloc, host, at, writes),
            Event::Get(key) => self.get(alloc, key),
            Event::Listen { id, query } => self.listen(alloc, host, id, query),
            Event::Unlisten(id) => self.unlisten(alloc, id),
            Event::Opened(name) => self.open_stream(alloc, name),
            Event::Closed(name, status) => self.close_stream(alloc, host, name, status),
            Event::Watch(response) => self.watched(alloc, host, &response),
            Event::Written(response) => self.written(alloc, host, response),
            Event::BadMessage(name, member) => self.bad_message(alloc, name, member),
            Event::Timer => self.ring(alloc),
        }
    }

    /// Just the documents in limbo have or await a listen then, and the requests go out that are due on the stream of listeners.
    fn settle_limbo(&mut self, alloc: Global, outs: &mut Vec<Out>) -> Result<(), NoMemory>
        ensures rest { KeepsButRequests self.old self.new }
        ensures settles { OnOk result (SettlesLimbo self.old self.new outs.old.items outs.new.items) }
    {
        let changed = self.limbo.settle(alloc)?;
        self.ask(alloc, changed.as_slice(), outs)?;
        Ok(())
    }

    /// The turn of an event.
    pub(crate) fn turn<H: Host>(
        &mut self,
        alloc: Global,
        host: &mut H,
        event: Event,
    ) -> Result<Outcome, ClientFault>
        requires stored { IsTrue H.tells_files → IsStored self.old.store (H.view host.old) }
        requires whole { ¬ (IsStoreSpent self.old.store) }
        requires poised { self.old.spent ≡ true }
        requires standing { IsStanding self.old }
        requires idle { self.old.watch.due ≡ Nothing }
        requires spelled { IsSpelledEvent event }
        ensures turn { IfOk result (λ outcome. (s : State) (past : Past) → StandsFor self.old s past
            → HandsOut s past event outcome self.new) }
        ensures rest { OnOk result (IsAtRest self.new) }
        ensures root { (self.new.root ≡ self.old.root) × (self.new.spent ≡ self.old.spent) }
        ensures stored { IsTrue H.tells_files → IsStored self.new.store (H.view host.new) }
        ensures files { IsTrue H.tells_files → (s : State) (past : Past) → StandsFor self.old s past
            → MovesBy s past event (H.view host.old) (H.view host.new) }
        ensures meets { IsErrOf result ClientFault.DiskFault → (s : State) (past : Past)
            → StandsFor self.old s past → MakesOne s past event }
        ensures out { KeepsOut (H.view host.old) (H.view host.new) }
        ensures unspent { IsErrOf result ClientFault.Spent → ⊥ }
        ensures counts { RisesAt (IsErrOf result ClientFault.DiskFault)
            (H.view host.old).disk_faults (H.view host.new).disk_faults }
    {
        let outcome = self.answer(alloc, host, event)?;
        match outcome {
            Outcome::Refused(refusal, outs) => {
                let mut outs = outs;
                if is_heard(&refusal) {
                    self.settle_limbo(alloc, &mut outs)?;
                }
                Ok(Outcome::Refused(refusal, outs))
            }
            Outcome::Done(outs) => {
                let mut outs = outs;
                self.settle_limbo(alloc, &mut outs)?;
                self.send(alloc, &mut outs)?;
                Ok(Outcome::Done(outs))
            }
        }
    }
}
