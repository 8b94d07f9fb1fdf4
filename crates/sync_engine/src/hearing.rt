//! The turns of messages on the stream of listeners.

ghost use Rattle.std.specs.Prelude.{◌≡◌, ◌↔◌, ◌<◌, IsTrue, true, IfOk, OnOk, IsErrOf};
ghost use Rattle.host_api.specs.Counts.{RisesAt};
ghost use Rattle.host_api.specs.Host.{KeepsOut};
ghost use Rattle.client_events.specs.Spelled.{IsSpelledMessage};
ghost use Rattle.client_events.specs.declared.event.Event.TheVariants as event;
ghost use Rattle.listen_protocol.specs.Calls.{Calls};
ghost use Rattle.watch_aggregator.specs.Standing.{StandsFor as AggregatorStandsFor};
ghost use Rattle.watch_points.specs.SpelledCalls.{AreSpelledCalls};
ghost use Rattle.local_store.specs.State.{State};
ghost use Rattle.local_store.specs.Store.{IsSpent as IsStoreSpent, IsStored};
ghost use Rattle.watch_aggregator.specs.Effects.{Gives, Refuses};
ghost use Rattle.watch_aggregator.specs.declared.effect.Effect.TheVariants as effect;
ghost use Rattle.watch_aggregator.specs.declared.effect.WatchFault.TheVariants as fault;
ghost use Rattle.value_model.specs.Order.{Earlier};
ghost use Rattle.client_turns.specs.Hearing.{IsOld, watch_member_name as watch_member_name_of};
ghost use Rattle.client_turns.specs.Past.{Past};
ghost use Rattle.sync_engine.specs.Requesting.{CallsAre};
ghost use Rattle.sync_engine.specs.Standing.{StandsFor};
ghost use Rattle.sync_engine.specs.Telling.{HandsSettled, MakesOne, MovesBy};
ghost use Rattle.sync_engine.specs.declared.watch_stream.Due.TheVariants.{Nothing};

use crate::client::Client;
use crate::fault::ClientFault;
use crate::out::Outcome;
use crate::watching::refused;
use client_turns::Refusal;
use document_keys::Text;
use host_api::Host;
use std::alloc::Global;
use value_model::{ListenResponse, StreamName, Timestamp};
use watch_aggregator::{Effect, WatchFault, WatchMember};

/// The name of the member for which a message is refused.
fn watch_member_name(member: WatchMember) -> &'static str
    ensures { result.now ≡ watch_member_name_of member }
{
    match member {
        WatchMember::TargetIds => "targetIds",
        WatchMember::Cause => "cause",
    }
}

/// Whether the first time is before the other.
fn is_before(time: Timestamp, other: Timestamp) -> bool
    ensures { IsTrue result ↔ Earlier time other }
{
    time.seconds < other.seconds || (time.seconds == other.seconds && time.nanos < other.nanos)
}

impl Client {
    /// Whether the read time is before the last one.
    fn is_old(&self, at: Timestamp) -> bool
        ensures { IsTrue result ↔ IsOld self.now.store.state.last_read at }
    {
        match self.store.last_read() {
            Some(last) => is_before(at, last),
            None => false,
        }
    }

    /// A message came that changes nothing durable.
    fn heard(&mut self, alloc: Global, response: &ListenResponse) -> Result<Outcome, ClientFault>
        requires poised { self.old.spent ≡ true }
        requires idle { self.old.watch.due ≡ Nothing }
        requires spelled { IsSpelledMessage response.now }
        requires opening { self.old.watch.is_open ≡ true }
        requires gives { CallsAre self.old (λ h. Gives h response.now effect.Nothing) }
        ensures turn { IfOk result (λ outcome. (s : State) (past : Past) → StandsFor self.old s past
            → HandsSettled s past (event.Watch response.now) outcome self.new) }
        ensures store { self.new.store ≡ self.old.store }
        ensures root { (self.new.root ≡ self.old.root) × (self.new.spent ≡ self.old.spent) }
        ensures unspent { IsErrOf result ClientFault.Spent → ⊥ }
        ensures memory { IsErrOf result ClientFault.DiskFault → ⊥ }
    {
        self.watch.heard(alloc, response)?;
        Ok(Outcome::Done(Vec::new(alloc)))
    }

    /// A point came that is too old: the tokens that came are dropped.
    fn old_point(
        &mut self,
        alloc: Global,
        response: &ListenResponse,
        at: Timestamp,
    ) -> Result<Outcome, ClientFault>
        requires poised { self.old.spent ≡ true }
        requires idle { self.old.watch.due ≡ Nothing }
        requires spelled { IsSpelledMessage response.now }
        requires opening { self.old.watch.is_open ≡ true }
        requires gives { CallsAre self.old (λ h. Gives h response.now (effect.Point at)) }
        requires is_old { IsOld self.old.store.state.last_read at }
        ensures turn { IfOk result (λ outcome. (s : State) (past : Past) → StandsFor self.old s past
            → HandsSettled s past (event.Watch response.now) outcome self.new) }
        ensures store { self.new.store ≡ self.old.store }
        ensures root { (self.new.root ≡ self.old.root) × (self.new.spent ≡ self.old.spent) }
        ensures unspent { IsErrOf result ClientFault.Spent → ⊥ }
        ensures memory { IsErrOf result ClientFault.DiskFault → ⊥ }
    {
        self.watch.heard(alloc, response)?;
        self.watch.skipped();
        Ok(Outcome::Done(Vec::new(alloc)))
    }

    /// A message came that is refused for this member: it closes the stream.
    fn unheard(
        &mut self,
        alloc: Global,
        response: &ListenResponse,
        member: WatchMember,
    ) -> Result<Outcome, ClientFault>
        requires idle { self.old.watch.due ≡ Nothing }
        requires opening { self.old.watch.is_open ≡ true }
        requires refuses { CallsAre self.old
            (λ h. Refuses h response.now (fault.BadMessage member)) }
        ensures turn { IfOk result (λ outcome. (s : State) (past : Past) → StandsFor self.old s past
            → HandsSettled s past (event.Watch response.now) outcome self.new) }
        ensures store { self.new.store ≡ self.old.store }
        ensures root { (self.new.root ≡ self.old.root) × (self.new.spent ≡ self.old.spent) }
        ensures unspent { IsErrOf result ClientFault.Spent → ⊥ }
        ensures memory { IsErrOf result ClientFault.DiskFault → ⊥ }
    {
        let member = Text::from_str(alloc, watch_member_name(member))?;
        let mut outs = Vec::new(alloc);
        self.lose_watch(alloc, &mut outs)?;
        Ok(Outcome::Refused(
            Refusal::BadMessage {
                stream: StreamName::Watch,
                member,
            },
            outs,
        ))
    }

    /// A point came: it is committed, unless it is too old.
    fn timed<H: Host>(
        &mut self,
        alloc: Global,
        host: &mut H,
        response: &ListenResponse,
        at: Timestamp,
    ) -> Result<Outcome, ClientFault>
        requires stored { IsTrue H.tells_files → IsStored self.old.store (H.view host.old) }
        requires whole { ¬ (IsStoreSpent self.old.store) }
        requires poised { self.old.spent ≡ true }
        requires heard { (h : Calls) × (AggregatorStandsFor self.old.watch.aggregator h × AreSpelledCalls h) }
        requires idle { self.old.watch.due ≡ Nothing }
        requires spelled { IsSpelledMessage response.now }
        requires opening { self.old.watch.is_open ≡ true }
        requires gives { CallsAre self.old (λ h. Gives h response.now (effect.Point at)) }
        ensures turn { IfOk result (λ outcome. (s : State) (past : Past) → StandsFor self.old s past
            → HandsSettled s past (event.Watch response.now) outcome self.new) }
        ensures whole { OnOk result (¬ (IsStoreSpent self.new.store)) }
        ensures root { (self.new.root ≡ self.old.root) × (self.new.spent ≡ self.old.spent) }
        ensures stored { IsTrue H.tells_files → IsStored self.new.store (H.view host.new) }
        ensures files { IsTrue H.tells_files → (s : State) (past : Past) → StandsFor self.old s past
            → MovesBy s past (event.Watch response.now) (H.view host.old) (H.view host.new) }
        ensures meets { IsErrOf result ClientFault.DiskFault → (s : State) (past : Past)
            → StandsFor self.old s past → MakesOne s past (event.Watch response.now) }
        ensures out { KeepsOut (H.view host.old) (H.view host.new) }
        ensures unspent { IsErrOf result ClientFault.Spent → ⊥ }
        ensures counts { RisesAt (IsErrOf result ClientFault.DiskFault)
            (H.view host.old).disk_faults (H.view host.new).disk_faults }
    {
        if self.is_old(at) {
            return self.old_point(alloc, response, at);
        }
        self.point(alloc, host, response, at)
    }

    /// The turn of a message that the open stream of listeners brought, and of what it asks for.
    fn follow<H: Host>(
        &mut self,
        alloc: Global,
        host: &mut H,
        response: &ListenResponse,
        asked: &Effect,
    ) -> Result<Outcome, ClientFault>
        requires stored { IsTrue H.tells_files → IsStored self.old.store (H.view host.old) }
        requires whole { ¬ (IsStoreSpent self.old.store) }
        requires poised { self.old.spent ≡ true }
        requires heard { (h : Calls) × (AggregatorStandsFor self.old.watch.aggregator h × AreSpelledCalls h) }
        requires idle { self.old.watch.due ≡ Nothing }
        requires spelled { IsSpelledMessage response.now }
        requires opening { self.old.watch.is_open ≡ true }
        requires gives { CallsAre self.old (λ h. Gives h response.now asked.now) }
        ensures turn { IfOk result (λ outcome. (s : State) (past : Past) → StandsFor self.old s past
            → HandsSettled s past (event.Watch response.now) outcome self.new) }
        ensures whole { OnOk result (¬ (IsStoreSpent self.new.store)) }
        ensures root { (self.new.root ≡ self.old.root) × (self.new.spent ≡ self.old.spent) }
        ensures stored { IsTrue H.tells_files → IsStored self.new.store (H.view host.new) }
        ensures files { IsTrue H.tells_files → (s : State) (past : Past) → StandsFor self.old s past
            → MovesBy s past (event.Watch response.now) (H.view host.old) (H.view host.new) }
        ensures meets { IsErrOf result ClientFault.DiskFault → (s : State) (past : Past)
            → StandsFor self.old s past → MakesOne s past (event.Watch response.now) }
        ensures out { KeepsOut (H.view host.old) (H.view host.new) }
        ensures unspent { IsErrOf result ClientFault.Spent → ⊥ }
        ensures counts { RisesAt (IsErrOf result ClientFault.DiskFault)
            (H.view host.old).disk_faults (H.view host.new).disk_faults }
    {
        match asked {
            Effect::Nothing => self.heard(alloc, response),
            Effect::Point(at) => self.timed(alloc, host, response, *at),
            Effect::Mismatch { id, .. } => self.mismatch(alloc, host, response, id),
            Effect::Ended { ids, status } => {
                self.end(alloc, host, response, ids.as_slice(), status)
            }
        }
    }

    /// The turn of a message on the stream of listeners.
    pub(crate) fn watched<H: Host>(
        &mut self,
        alloc: Global,
        host: &mut H,
        response: &ListenResponse,
    ) -> Result<Outcome, ClientFault>
        requires stored { IsTrue H.tells_files → IsStored self.old.store (H.view host.old) }
        requires whole { ¬ (IsStoreSpent self.old.store) }
        requires poised { self.old.spent ≡ true }
        requires heard { (h : Calls) × (AggregatorStandsFor self.old.watch.aggregator h × AreSpelledCalls h) }
        requires idle { self.old.watch.due ≡ Nothing }
        requires spelled { IsSpelledMessage response.now }
        ensures turn { IfOk result (λ outcome. (s : State) (past : Past) → StandsFor self.old s past
            → HandsSettled s past (event.Watch response.now) outcome self.new) }
        ensures whole { OnOk result (¬ (IsStoreSpent self.new.store)) }
        ensures root { (self.new.root ≡ self.old.root) × (self.new.spent ≡ self.old.spent) }
        ensures stored { IsTrue H.tells_files → IsStored self.new.store (H.view host.new) }
        ensures files { IsTrue H.tells_files → (s : State) (past : Past) → StandsFor self.old s past
            → MovesBy s past (event.Watch response.now) (H.view host.old) (H.view host.new) }
        ensures meets { IsErrOf result ClientFault.DiskFault → (s : State) (past : Past)
            → StandsFor self.old s past → MakesOne s past (event.Watch response.now) }
        ensures out { KeepsOut (H.view host.old) (H.view host.new) }
        ensures unspent { IsErrOf result ClientFault.Spent → ⊥ }
        ensures counts { RisesAt (IsErrOf result ClientFault.DiskFault)
            (H.view host.old).disk_faults (H.view host.new).disk_faults }
    {
        if !self.watch.is_open {
            return Ok(refused(alloc, false));
        }
        match self.watch.aggregator.effect(alloc, response) {
            Ok(asked) => self.follow(alloc, host, response, &asked),
            Err(WatchFault::BadMessage(member)) => self.unheard(alloc, response, member),
            Err(WatchFault::NoMemory) => Err(ClientFault::NoMemory),
        }
    }
}
