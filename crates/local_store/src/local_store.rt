ghost use Rattle.std.specs.Prelude.{◌≡◌, ◌≢◌, ◌⊎◌, ◌↔◌, ◌+◌, ◌≤◌, IsTrue, IfOk, IfErr, IsErrOf, OnErr, OnOk, Err, option_map};
ghost use Rattle.host_api.specs.Counts.{RisesAt};
ghost use Rattle.host_api.specs.Host.{KeepsOut};
ghost use Rattle.disk_journal.specs.Steps.{Opens, SettlesFirst};
ghost use Rattle.durable_state.specs.Tables.{state_in};
ghost use Rattle.record_codec.specs.Spelling.{HasSpelling, spelling};
ghost use Rattle.local_store.specs.Documents.{sealed_entry_of, standing_of};
ghost use Rattle.local_store.specs.Files.{FindsState, Moves, Refuses};
ghost use Rattle.local_store.specs.State.{Fits, committed, most_commits};
ghost use Rattle.local_store.specs.Store.{IsFoundIn, IsSpent, IsStored};

use crate::fault::StoreFault;
use crate::replay::replay;
use disk_journal::{Frame, Journal, OpenFault};
use document_keys::{DocumentKey, NoMemory};
use durable_state::DurableState;
use host_api::Host;
use mutation_queue::MutationQueue;
use record_codec::{Commit, encode};
use std::alloc::Global;
use std::marker::Model;
use target_cache::TargetCache;
use value_model::{DocState, Entry, Seal, Timestamp};

/// The durable state, over the journal that keeps it. Contracts see the state, and where the journal stands. After a disk
/// fault there is no journal any more: the store is spent.
#[derive(Drop)]
pub struct LocalStore {
    journal: Option<Journal>,
    pub(crate) tables: DurableState,
}

impl Model for LocalStore {
    ghost use Rattle.durable_state.specs.Tables.{state_in};
    ghost use Rattle.local_store.specs.Store.{Store, store_code};

    ghost Value = { Store };

    ghost coded = { store_code };

    ghost view = { λ store. record { state = state_in store.tables; place = store.journal } };
}

/// The frame of the commit's payload.
fn frame_of(alloc: Global, commit: &Commit) -> Result<Frame, NoMemory>
    ensures { IfOk result (λ frame. frame ≡ spelling commit.now) }
{
    let payload = encode(alloc, commit)?;
    match Frame::make(alloc, payload.as_slice()) {
        Ok(frame) => Ok(frame),
        Err(_) => Err(NoMemory),
    }
}

impl LocalStore {
    /// Opens the journal, and puts its payloads, one after another, into the empty state.
    ///
    /// # Errors
    /// `DiskFault` only where the count of disk faults rose; `NotAStore` where a file is neither blank nor in the grammar,
    /// or where the payloads of the counting file aren't the commits of a store, with that file; `NoMemory`. After any
    /// of them the files give what they gave.
    pub fn open<H: Host>(alloc: Global, host: &mut H) -> Result<LocalStore, OpenFault>
        ensures found { IfOk result (λ store. IsTrue H.tells_files
            → FindsState (H.view host.old).bytes store.state) }
        ensures stored { IfOk result (λ store. IsTrue H.tells_files → IsStored store (H.view host.new)) }
        ensures whole { IfOk result (λ store. ¬ (IsSpent store)) }
        ensures kept { IfOk result (λ store. IsTrue H.tells_files
            → IsFoundIn store.state (H.view host.new)) }
        ensures refused { IfErr result (λ fault. IsTrue H.tells_files
            → Refuses fault (H.view host.old) (H.view host.new)) }
        ensures files { IsTrue H.tells_files → Opens (H.view host.old) (H.view host.new) }
        ensures settled { IsTrue H.tells_files
            → SettlesFirst H.view result (H.view host.old) (H.view host.new) }
        ensures out { KeepsOut (H.view host.old) (H.view host.new) }
        ensures counts { RisesAt (IsErrOf result OpenFault.DiskFault)
            (H.view host.old).disk_faults (H.view host.new).disk_faults }
    {
        let (journal, file, payloads) = Journal::open(alloc, host)?;
        if journal.generation() != 1 {
            return Err(OpenFault::NotAStore(file));
        }
        match replay(alloc, payloads) {
            Err(NoMemory) => Err(OpenFault::NoMemory),
            Ok(None) => Err(OpenFault::NotAStore(file)),
            Ok(Some(tables)) => Ok(LocalStore {
                journal: Some(journal),
                tables,
            }),
        }
    }

    /// The number of commits.
    pub fn number(&self) -> u64
        ensures number { result ≡ self.now.state.number }
        ensures within { self.now.state.number ≤ most_commits }
        ensures next { self.now.state.next_batch ≤ self.now.state.number + 1 }
    {
        self.tables.number()
    }

    /// The id of the next batch.
    pub fn next_batch(&self) -> u64
        ensures { result ≡ self.now.state.next_batch }
    {
        self.tables.next_batch()
    }

    /// The last read time, if there was a point.
    pub fn last_read(&self) -> Option<Timestamp>
        ensures { result ≡ self.now.state.last_read }
    {
        self.tables.last_read()
    }

    /// The pending batches, lent.
    pub fn pending(&self) -> &MutationQueue
        ensures { result.now.batches ≡ self.now.state.batches }
    {
        self.tables.pending()
    }

    /// The durable state, lent.
    pub fn tables(&self) -> &DurableState
        ensures { state_in result.now ≡ self.now.state }
    {
        &self.tables
    }

    /// The targets, lent.
    pub fn targets(&self) -> &TargetCache
        ensures { result.now.rows ≡ self.now.state.rows }
    {
        self.tables.targets()
    }

    /// The entry of the key and its seal, lent; `None` exactly where there is no entry.
    pub fn entry(&self, key: &DocumentKey) -> Option<(&Entry, &Seal)>
        ensures { option_map (λ pair. (pair.0.now, pair.1.now)) result
            ≡ sealed_entry_of self.now.state key.now }
    {
        self.tables.entry(key)
    }

    /// Whether the commit fits the state.
    pub fn fits(&self, commit: &Commit) -> bool
        ensures { IsTrue result ↔ Fits self.now.state commit.now }
    {
        self.tables.fits(commit)
    }

    /// How the key's document stands to the backend.
    pub fn state_of(&self, key: &DocumentKey) -> DocState
        ensures { result ≡ standing_of self.now.state key.now }
    {
        self.tables.state_of(key)
    }

    /// Makes the commit, which fits: its record is on the disk before the state changes, and all memory is taken before the
    /// first call of the host. Hands out the number of commits then.
    ///
    /// # Errors
    /// `DiskFault` only where the count of disk faults rose: the state is as before, and the store is spent. `NoMemory`:
    /// nothing has changed. `Spent` exactly where the store is spent: nothing was done.
    pub fn commit<H: Host>(
        &mut self,
        alloc: Global,
        host: &mut H,
        commit: Commit,
    ) -> Result<u64, StoreFault>
        requires stored { IsTrue H.tells_files → IsStored self.old (H.view host.old) }
        requires fits { Fits self.old.state commit }
        requires has_spelling { HasSpelling commit }
        ensures made { IfOk result (λ number. (self.new.state ≡ committed self.old.state commit)
            × (number ≡ self.new.state.number)) }
        ensures unmade { OnErr result (self.new.state ≡ self.old.state) }
        ensures spent { IsErrOf result StoreFault.Spent ↔ IsSpent self.old }
        ensures spends { IsSpent self.new ↔ (IsSpent self.old ⊎ IsErrOf result StoreFault.DiskFault) }
        ensures untouched { IfErr result (λ fault. fault ≢ StoreFault.DiskFault → host.new ≡ host.old) }
        ensures stored { IsTrue H.tells_files → IsStored self.new (H.view host.new) }
        ensures kept { OnOk result (IsTrue H.tells_files → IsFoundIn self.new.state (H.view host.new)) }
        ensures files { IsTrue H.tells_files → ¬ (IsSpent self.old)
            → Moves self.old.state (committed self.old.state commit)
            (H.view host.old) (H.view host.new) }
        ensures out { KeepsOut (H.view host.old) (H.view host.new) }
        ensures counts { RisesAt (IsErrOf result StoreFault.DiskFault)
            (H.view host.old).disk_faults (H.view host.new).disk_faults }
    {
        if self.journal.is_none() {
            return Err(StoreFault::Spent);
        }
        let frame = frame_of(alloc, &commit)?;
        self.make(alloc, host, &frame, commit)
    }

    /// Makes the commit, of which the frame is given, where the store is whole.
    fn make<H: Host>(
        &mut self,
        alloc: Global,
        host: &mut H,
        frame: &Frame,
        commit: Commit,
    ) -> Result<u64, StoreFault>
        requires whole { ¬ (IsSpent self.old) }
        requires framed { frame.now ≡ spelling commit }
        requires stored { IsTrue H.tells_files → IsStored self.old (H.view host.old) }
        requires fits { Fits self.old.state commit }
        requires has_spelling { HasSpelling commit }
        ensures made { IfOk result (λ number. (self.new.state ≡ committed self.old.state commit)
            × (number ≡ self.new.state.number)) }
        ensures unmade { OnErr result (self.new.state ≡ self.old.state) }
        ensures unspent { IsErrOf result StoreFault.Spent → ⊥ }
        ensures spends { IsSpent self.new ↔ IsErrOf result StoreFault.DiskFault }
        ensures untouched { IfErr result (λ fault. fault ≢ StoreFault.DiskFault → host.new ≡ host.old) }
        ensures stored { IsTrue H.tells_files → IsStored self.new (H.view host.new) }
        ensures kept { OnOk result (IsTrue H.tells_files → IsFoundIn self.new.state (H.view host.new)) }
        ensures files { IsTrue H.tells_files
            → Moves self.old.state (committed self.old.state commit)
            (H.view host.old) (H.view host.new) }
        ensures out { KeepsOut (H.view host.old) (H.view host.new) }
        ensures counts { RisesAt (IsErrOf result StoreFault.DiskFault)
            (H.view host.old).disk_faults (H.view host.new).disk_faults }
    {
        let ready = self.tables.ready(alloc, commit)?;
        let Some(journal) = self.journal.take() else {
            unreachable!();
        };
        self.journal = Some(journal.append(host, frame)?);
        self.tables.apply(ready);
        Ok(self.tables.number())
    }
}
