//! The turns of what comes on the stream of listeners, and of the timer.

ghost use Rattle.std.specs.Prelude.{◌≡◌, true, IfOk, OnOk, IsErrOf};
ghost use Rattle.client_events.specs.declared.event.Event.TheVariants as event;
ghost use Rattle.local_store.specs.State.{State};
ghost use Rattle.value_model.specs.declared.message.StreamName.TheVariants as stream;
ghost use Rattle.client_turns.specs.Past.{Past};
ghost use Rattle.sync_engine.specs.Standing.{StandsFor};
ghost use Rattle.sync_engine.specs.Stream.{is_newly_offline};
ghost use Rattle.sync_engine.specs.Telling.{HandsSettled, IsQuietOr, KeepsButStream, KeepsRest, Loses, Raises, RefusesStream};
ghost use Rattle.sync_engine.specs.declared.watch_stream.Due.TheVariants.{Nothing};

use crate::client::Client;
use crate::fault::ClientFault;
use crate::out::{Out, Outcome};
use client_turns::{OnlineState, Refusal};
use document_keys::{NoMemory, Text};
use std::alloc::Global;
use value_model::{RpcStatus, StreamName};

/// The refusal of an event that the stream of listeners, open or not, doesn't allow.
pub(crate) fn refused(alloc: Global, is_open: bool) -> Outcome
    ensures { RefusesStream is_open result }
{
    Outcome::Refused(
        Refusal::StreamState {
            stream: StreamName::Watch,
            is_open,
        },
        Vec::new(alloc),
    )
}

impl Client {
    /// Refreshes all listeners where the client is offline and wasn't before.
    fn settle_offline(
        &mut self,
        alloc: Global,
        was: OnlineState,
        outs: &mut Vec<Out>,
    ) -> Result<(), NoMemory>
        ensures rest { KeepsRest self.old self.new }
        ensures raises { IsQuietOr (is_newly_offline was self.old.watch.online) self.old
            → OnOk result (Raises self.old self.new outs.old.items outs.new.items) }
    {
        if was.is_offline() {
            return Ok(());
        }
        if !self.watch.online.is_offline() {
            return Ok(());
        }
        let ids = self.listeners.ids(alloc)?;
        self.settle(alloc, ids.as_slice(), outs)
    }

    /// The stream is lost. Where the client is offline then, listeners show what the cache has.
    pub(crate) fn lose_watch(&mut self, alloc: Global, outs: &mut Vec<Out>) -> Result<(), NoMemory>
        ensures rest { KeepsButStream self.old self.new }
        ensures loses { OnOk result (Loses self.old self.new outs.old.items outs.new.items) }
    {
        let was = self.watch.online;
        let wanted = !self.listeners.is_empty();
        self.watch.closed(alloc, wanted);
        self.settle_offline(alloc, was, outs)?;
        Ok(())
    }

    /// The turn of the stream of listeners that was opened.
    pub(crate) fn open_watch(&mut self, alloc: Global) -> Outcome
        requires poised { self.old.spent ≡ true }
        requires idle { self.old.watch.due ≡ Nothing }
        ensures turn { (s : State) (past : Past) → StandsFor self.old s past
            → HandsSettled s past (event.Opened stream.Watch) result self.new }
        ensures store { self.new.store ≡ self.old.store }
        ensures root { (self.new.root ≡ self.old.root) × (self.new.spent ≡ self.old.spent) }
    {
        if self.watch.is_open {
            return refused(alloc, true);
        }
        self.watch.opened(alloc);
        Outcome::Done(Vec::new(alloc))
    }

    /// The turn of the stream of listeners that was closed.
    pub(crate) fn close_watch(
        &mut self,
        alloc: Global,
        status: &RpcStatus,
    ) -> Result<Outcome, ClientFault>
        requires idle { self.old.watch.due ≡ Nothing }
        ensures turn { IfOk result (λ outcome. (s : State) (past : Past) → StandsFor self.old s past
            → HandsSettled s past (event.Closed stream.Watch status.now) outcome self.new) }
        ensures store { self.new.store ≡ self.old.store }
        ensures root { (self.new.root ≡ self.old.root) × (self.new.spent ≡ self.old.spent) }
        ensures unspent { IsErrOf result ClientFault.Spent → ⊥ }
        ensures memory { IsErrOf result ClientFault.DiskFault → ⊥ }
    {
        if !self.watch.is_open {
            return Ok(refused(alloc, false));
        }
        let mut outs = Vec::new(alloc);
        self.lose_watch(alloc, &mut outs)?;
        Ok(Outcome::Done(outs))
    }

    /// The turn of a message with a fault, in the member of this name: it closes the stream of listeners.
    pub(crate) fn bad_watch(&mut self, alloc: Global, member: Text) -> Result<Outcome, ClientFault>
        requires idle { self.old.watch.due ≡ Nothing }
        ensures turn { IfOk result (λ outcome. (s : State) (past : Past) → StandsFor self.old s past
            → HandsSettled s past (event.BadMessage stream.Watch member) outcome self.new) }
        ensures store { self.new.store ≡ self.old.store }
        ensures root { (self.new.root ≡ self.old.root) × (self.new.spent ≡ self.old.spent) }
        ensures unspent { IsErrOf result ClientFault.Spent → ⊥ }
        ensures memory { IsErrOf result ClientFault.DiskFault → ⊥ }
    {
        if !self.watch.is_open {
            return Ok(refused(alloc, false));
        }
        let mut outs = Vec::new(alloc);
        self.lose_watch(alloc, &mut outs)?;
        Ok(Outcome::Refused(
            Refusal::BadMessage {
                stream: StreamName::Watch,
                member,
            },
            outs,
        ))
    }

    /// The turn of the timer of the online state.
    pub(crate) fn ring(&mut self, alloc: Global) -> Result<Outcome, ClientFault>
        requires idle { self.old.watch.due ≡ Nothing }
        ensures turn { IfOk result (λ outcome. (s : State) (past : Past) → StandsFor self.old s past
            → HandsSettled s past event.Timer outcome self.new) }
        ensures store { self.new.store ≡ self.old.store }
        ensures root { (self.new.root ≡ self.old.root) × (self.new.spent ≡ self.old.spent) }
        ensures unspent { IsErrOf result ClientFault.Spent → ⊥ }
        ensures memory { IsErrOf result ClientFault.DiskFault → ⊥ }
    {
        let was = self.watch.online;
        let mut outs = Vec::new(alloc);
        self.watch.rung();
        self.settle_offline(alloc, was, &mut outs)?;
        Ok(Outcome::Done(outs))
    }
}
