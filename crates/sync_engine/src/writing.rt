//! The turns of what comes on the stream of writes.

ghost use Rattle.std.specs.Prelude.{◌≡◌, IsTrue, true, IfErr, IfOk, OnOk, IsErrOf, option_map};
ghost use Rattle.host_api.specs.Counts.{RisesAt};
ghost use Rattle.host_api.specs.Host.{KeepsOut};
ghost use Rattle.client_events.specs.Spelled.{IsSpelledResponse};
ghost use Rattle.client_events.specs.declared.event.Event.TheVariants as event;
ghost use Rattle.local_store.specs.State.{State};
ghost use Rattle.local_store.specs.Store.{IsSpent as IsStoreSpent, IsStored};
ghost use Rattle.write_pipeline.specs.Standing.{Fails, Fits, closing_of};
ghost use Rattle.write_pipeline.specs.declared.answer.Answer.TheVariants.{Handshake, Acknowledges};
ghost use Rattle.write_pipeline.specs.declared.answer.Closing.TheVariants.{Rejects};
ghost use Rattle.client_turns.specs.Past.{Past};
ghost use Rattle.sync_engine.specs.Standing.{ComesAs, StandsFor};
ghost use Rattle.sync_engine.specs.declared.watch_stream.Due.TheVariants.{Nothing};
ghost use Rattle.value_model.specs.declared.message.StreamName.TheVariants as stream;
ghost use Rattle.sync_engine.specs.Telling.{HandsSettled, MakesOne, MovesBy};
ghost use Rattle.client_turns.specs.Writing.{first_batch, member_name as member_name_of};

use crate::client::Client;
use crate::fault::ClientFault;
use crate::out::{Out, Outcome};
use client_turns::Refusal;
use document_keys::Text;
use host_api::Host;
use local_store::MOST_COMMITS;
use mutations::{Batch, WriteResponse};
use record_codec::Commit;
use std::alloc::Global;
use value_model::{RpcStatus, StreamName};
use write_pipeline::{Answer, Closing, WriteMember};

/// The name of the member by which a message doesn't fit.
fn member_name(member: WriteMember) -> &'static str
    ensures { result.now ≡ member_name_of member }
{
    match member {
        WriteMember::WriteResults => "writeResults",
        WriteMember::CommitTime => "commitTime",
        WriteMember::TransformResults => "transformResults",
    }
}

/// The id of the batch.
fn id_of(batch: &Batch) -> u64
    ensures { result ≡ batch.now.id }
{
    batch.id
}

impl Client {
    /// The first pending batch, if there is one.
    fn first_pending(&self) -> Option<&Batch>
        ensures { option_map (λ batch. batch.now) result ≡ first_batch self.now.store.state }
    {
        self.store.pending().first()
    }

    /// The turn of the stream of writes that was opened.
    pub(crate) fn open_writes(&mut self, alloc: Global) -> Result<Outcome, ClientFault>
        requires idle { self.old.watch.due ≡ Nothing }
        ensures turn { IfOk result (λ outcome. (s : State) (past : Past) → StandsFor self.old s past
            → HandsSettled s past (event.Opened stream.Write) outcome self.new) }
        ensures store { self.new.store ≡ self.old.store }
        ensures root { (self.new.root ≡ self.old.root) × (self.new.spent ≡ self.old.spent) }
        ensures unspent { IsErrOf result ClientFault.Spent → ⊥ }
        ensures memory { IsErrOf result ClientFault.DiskFault → ⊥ }
    {
        if self.writes.is_open {
            return Ok(Outcome::Refused(
                Refusal::StreamState {
                    stream: StreamName::Write,
                    is_open: true,
                },
                Vec::new(alloc),
            ));
        }
        let mut outs = Vec::new(alloc);
        outs.push(Out::SendHandshake)?;
        self.writes.opened();
        Ok(Outcome::Done(outs))
    }

    /// The turn of a message with a fault, in the member of this name: it closes the stream of writes.
    pub(crate) fn bad_written(&mut self, alloc: Global, member: Text) -> Outcome
        requires idle { self.old.watch.due ≡ Nothing }
        ensures turn { (s : State) (past : Past) → StandsFor self.old s past
            → HandsSettled s past (event.BadMessage stream.Write member) result self.new }
        ensures store { self.new.store ≡ self.old.store }
        ensures root { (self.new.root ≡ self.old.root) × (self.new.spent ≡ self.old.spent) }
    {
        if !self.writes.is_open {
            return Outcome::Refused(
                Refusal::StreamState {
                    stream: StreamName::Write,
                    is_open: false,
                },
                Vec::new(alloc),
            );
        }
        self.writes.closed();
        Outcome::Refused(
            Refusal::BadMessage {
                stream: StreamName::Write,
                member,
            },
            Vec::new(alloc),
        )
    }

    /// The first pending batch leaves, rejected by the status with which the stream was closed.
    fn reject<H: Host>(
        &mut self,
        alloc: Global,
        host: &mut H,
        status: RpcStatus,
    ) -> Result<Outcome, ClientFault>
        requires stored { IsTrue H.tells_files → IsStored self.old.store (H.view host.old) }
        requires whole { ¬ (IsStoreSpent self.old.store) }
        requires poised { self.old.spent ≡ true }
        requires idle { self.old.watch.due ≡ Nothing }
        requires opening { self.old.writes.is_open ≡ true }
        requires rejects { ComesAs self.old.writes (λ h. closing_of h status.code ≡ Rejects) }
        ensures turn { IfOk result (λ outcome. (s : State) (past : Past) → StandsFor self.old s past
            → HandsSettled s past (event.Closed stream.Write status) outcome self.new) }
        ensures whole { OnOk result (¬ (IsStoreSpent self.new.store)) }
        ensures root { (self.new.root ≡ self.old.root) × (self.new.spent ≡ self.old.spent) }
        ensures stored { IsTrue H.tells_files → IsStored self.new.store (H.view host.new) }
        ensures files { IsTrue H.tells_files → (s : State) (past : Past) → StandsFor self.old s past
            → MovesBy s past (event.Closed stream.Write status) (H.view host.old) (H.view host.new) }
        ensures meets { IsErrOf result ClientFault.DiskFault → (s : State) (past : Past)
            → StandsFor self.old s past → MakesOne s past (event.Closed stream.Write status) }
        ensures out { KeepsOut (H.view host.old) (H.view host.new) }
        ensures unspent { IsErrOf result ClientFault.Spent → ⊥ }
        ensures counts { RisesAt (IsErrOf result ClientFault.DiskFault)
            (H.view host.old).disk_faults (H.view host.new).disk_faults }
    {
        let number = self.store.number();
        let mut outs = Vec::new(alloc);
        let Some(first) = self.first_pending() else {
            self.writes.closed();
            return Ok(Outcome::Done(outs));
        };
        if number >= MOST_COMMITS {
            return Ok(Outcome::Refused(Refusal::IdsSpent, Vec::new(alloc)));
        }
        let batch = id_of(first);
        let ids = self.concerned(alloc, first.writes.as_slice())?;
        let commit = number + 1;
        outs.push(Out::Rejected {
            batch,
            commit,
            status,
        })?;
        self.commit(alloc, host, Commit::Reject { batch })?;
        self.writes.closed();
        self.settle(alloc, ids.as_slice(), &mut outs)?;
        Ok(Outcome::Done(outs))
    }

    /// The turn of the stream of writes that was closed.
    pub(crate) fn close_writes<H: Host>(
        &mut self,
        alloc: Global,
        host: &mut H,
        status: RpcStatus,
    ) -> Result<Outcome, ClientFault>
        requires stored { IsTrue H.tells_files → IsStored self.old.store (H.view host.old) }
        requires whole { ¬ (IsStoreSpent self.old.store) }
        requires poised { self.old.spent ≡ true }
        requires idle { self.old.watch.due ≡ Nothing }
        ensures turn { IfOk result (λ outcome. (s : State) (past : Past) → StandsFor self.old s past
            → HandsSettled s past (event.Closed stream.Write status) outcome self.new) }
        ensures whole { OnOk result (¬ (IsStoreSpent self.new.store)) }
        ensures root { (self.new.root ≡ self.old.root) × (self.new.spent ≡ self.old.spent) }
        ensures stored { IsTrue H.tells_files → IsStored self.new.store (H.view host.new) }
        ensures files { IsTrue H.tells_files → (s : State) (past : Past) → StandsFor self.old s past
            → MovesBy s past (event.Closed stream.Write status) (H.view host.old) (H.view host.new) }
        ensures meets { IsErrOf result ClientFault.DiskFault → (s : State) (past : Past)
            → StandsFor self.old s past → MakesOne s past (event.Closed stream.Write status) }
        ensures out { KeepsOut (H.view host.old) (H.view host.new) }
        ensures unspent { IsErrOf result ClientFault.Spent → ⊥ }
        ensures counts { RisesAt (IsErrOf result ClientFault.DiskFault)
            (H.view host.old).disk_faults (H.view host.new).disk_faults }
    {
        if !self.writes.is_open {
            return Ok(Outcome::Refused(
                Refusal::StreamState {
                    stream: StreamName::Write,
                    is_open: false,
                },
                Vec::new(alloc),
            ));
        }
        match self.writes.pipeline.closing(&status) {
            Closing::Kept => {
                self.writes.closed();
                Ok(Outcome::Done(Vec::new(alloc)))
            }
            Closing::Rejects => self.reject(alloc, host, status),
        }
    }

    /// What a message on the stream of writes is.
    ///
    /// # Errors
    /// The first member by which it doesn't fit.
    fn judged(&self, response: &WriteResponse) -> Result<Answer, WriteMember>
        ensures fits { IfOk result (λ answer. ComesAs self.now.writes
            (λ h. Fits h (first_batch self.now.store.state) response.now answer)) }
        ensures fails { IfErr result (λ member. ComesAs self.now.writes
            (λ h. Fails h (first_batch self.now.store.state) response.now member)) }
    {
        let first = self.store.pending().first();
        self.writes.pipeline.judge(response, first)
    }

    /// The handshake of the stream came: batches may be sent from now on.
    fn shaken(&mut self, alloc: Global, response: WriteResponse) -> Outcome
        requires idle { self.old.watch.due ≡ Nothing }
        requires opening { self.old.writes.is_open ≡ true }
        requires fits { ComesAs self.old.writes
            (λ h. Fits h (first_batch self.old.store.state) response Handshake) }
        ensures turn { (s : State) (past : Past) → StandsFor self.old s past
            → HandsSettled s past (event.Written response) result self.new }
        ensures store { self.new.store ≡ self.old.store }
        ensures root { (self.new.root ≡ self.old.root) × (self.new.spent ≡ self.old.spent) }
    {
        self.writes.came(Answer::Handshake, response.token);
        Outcome::Done(Vec::new(alloc))
    }

    /// A message came that doesn't fit, by this member: it closes the stream.
    fn unfit(
        &mut self,
        alloc: Global,
        response: &WriteResponse,
        member: WriteMember,
    ) -> Result<Outcome, ClientFault>
        requires idle { self.old.watch.due ≡ Nothing }
        requires opening { self.old.writes.is_open ≡ true }
        requires fails { ComesAs self.old.writes
            (λ h. Fails h (first_batch self.old.store.state) response.now member) }
        ensures turn { IfOk result (λ outcome. (s : State) (past : Past) → StandsFor self.old s past
            → HandsSettled s past (event.Written response.now) outcome self.new) }
        ensures store { self.new.store ≡ self.old.store }
        ensures root { (self.new.root ≡ self.old.root) × (self.new.spent ≡ self.old.spent) }
        ensures unspent { IsErrOf result ClientFault.Spent → ⊥ }
        ensures memory { IsErrOf result ClientFault.DiskFault → ⊥ }
    {
        let member = Text::from_str(alloc, member_name(member))?;
        self.writes.closed();
        Ok(Outcome::Refused(
            Refusal::BadMessage {
                stream: StreamName::Write,
                member,
            },
            Vec::new(alloc),
        ))
    }

    /// The result of the first pending batch came: it leaves, and the entries of its keys change.
    fn acknowledge<H: Host>(
        &mut self,
        alloc: Global,
        host: &mut H,
        response: WriteResponse,
    ) -> Result<Outcome, ClientFault>
        requires stored { IsTrue H.tells_files → IsStored self.old.store (H.view host.old) }
        requires whole { ¬ (IsStoreSpent self.old.store) }
        requires poised { self.old.spent ≡ true }
        requires idle { self.old.watch.due ≡ Nothing }
        requires spelled { IsSpelledResponse response }
        requires opening { self.old.writes.is_open ≡ true }
        requires fits { ComesAs self.old.writes
            (λ h. Fits h (first_batch self.old.store.state) response Acknowledges) }
        ensures turn { IfOk result (λ outcome. (s : State) (past : Past) → StandsFor self.old s past
            → HandsSettled s past (event.Written response) outcome self.new) }
        ensures whole { OnOk result (¬ (IsStoreSpent self.new.store)) }
        ensures root { (self.new.root ≡ self.old.root) × (self.new.spent ≡ self.old.spent) }
        ensures stored { IsTrue H.tells_files → IsStored self.new.store (H.view host.new) }
        ensures files { IsTrue H.tells_files → (s : State) (past : Past) → StandsFor self.old s past
            → MovesBy s past (event.Written response) (H.view host.old) (H.view host.new) }
        ensures meets { IsErrOf result ClientFault.DiskFault → (s : State) (past : Past)
            → StandsFor self.old s past → MakesOne s past (event.Written response) }
        ensures out { KeepsOut (H.view host.old) (H.view host.new) }
        ensures unspent { IsErrOf result ClientFault.Spent → ⊥ }
        ensures counts { RisesAt (IsErrOf result ClientFault.DiskFault)
            (H.view host.old).disk_faults (H.view host.new).disk_faults }
    {
        let number = self.store.number();
        if number >= MOST_COMMITS {
            return Ok(Outcome::Refused(Refusal::IdsSpent, Vec::new(alloc)));
        }
        let Some(first) = self.first_pending() else {
            unreachable!();
        };
        let Some(time) = response.commit_time else {
            unreachable!();
        };
        let batch = id_of(first);
        let ids = self.concerned(alloc, first.writes.as_slice())?;
        let commit = number + 1;
        let mut outs = Vec::new(alloc);
        outs.push(Out::Result {
            batch,
            commit,
            time,
        })?;
        let results = response.results;
        self.commit(
            alloc,
            host,
            Commit::Acknowledge {
                batch,
                at: time,
                results,
            },
        )?;
        self.writes.came(Answer::Acknowledges, response.token);
        self.settle(alloc, ids.as_slice(), &mut outs)?;
        Ok(Outcome::Done(outs))
    }

    /// The turn of a message on the stream of writes.
    pub(crate) fn written<H: Host>(
        &mut self,
        alloc: Global,
        host: &mut H,
        response: WriteResponse,
    ) -> Result<Outcome, ClientFault>
        requires stored { IsTrue H.tells_files → IsStored self.old.store (H.view host.old) }
        requires whole { ¬ (IsStoreSpent self.old.store) }
        requires poised { self.old.spent ≡ true }
        requires idle { self.old.watch.due ≡ Nothing }
        requires spelled { IsSpelledResponse response }
        ensures turn { IfOk result (λ outcome. (s : State) (past : Past) → StandsFor self.old s past
            → HandsSettled s past (event.Written response) outcome self.new) }
        ensures whole { OnOk result (¬ (IsStoreSpent self.new.store)) }
        ensures root { (self.new.root ≡ self.old.root) × (self.new.spent ≡ self.old.spent) }
        ensures stored { IsTrue H.tells_files → IsStored self.new.store (H.view host.new) }
        ensures files { IsTrue H.tells_files → (s : State) (past : Past) → StandsFor self.old s past
            → MovesBy s past (event.Written response) (H.view host.old) (H.view host.new) }
        ensures meets { IsErrOf result ClientFault.DiskFault → (s : State) (past : Past)
            → StandsFor self.old s past → MakesOne s past (event.Written response) }
        ensures out { KeepsOut (H.view host.old) (H.view host.new) }
        ensures unspent { IsErrOf result ClientFault.Spent → ⊥ }
        ensures counts { RisesAt (IsErrOf result ClientFault.DiskFault)
            (H.view host.old).disk_faults (H.view host.new).disk_faults }
    {
        if !self.writes.is_open {
            return Ok(Outcome::Refused(
                Refusal::StreamState {
                    stream: StreamName::Write,
                    is_open: false,
                },
                Vec::new(alloc),
            ));
        }
        match self.judged(&response) {
            Ok(Answer::Handshake) => Ok(self.shaken(alloc, response)),
            Ok(Answer::Acknowledges) => self.acknowledge(alloc, host, response),
            Err(member) => self.unfit(alloc, &response, member),
        }
    }
}
